use ds_domain::{DomainFault, Field, Kind, Section, parse};
use ds_domain_writing::write;
use std::alloc::Global;
use std::process::Abort;

/// A text of the first version, with no entry.
const OF_ONE: &str = "version = 1\n";

/// A text of the second, with one entry of each kind.
const OF_TWO: &str = r#"version = 2

[[meter]]
name = "m"
kind = "rfc4115"
cir = 8000000
cbs = 0
eir = 1
ebs = 4294967295
skew = 0
origin = 7

[[port]]
name = "p"
skew = 3

[[link]]
from = "p"
to = "m"
floor = 10000000000
jitter = 1000000

[[contract]]
name = "a"
kind = "trusted"
port = "p"
path = ["m"]
class = 1
since = 6
until = 9223372036854775807
cir = 8000000
cbs = 3000
pir = 16000000
pbs = 4000
eir = 7000000
ebs = 999
src = "10.0.1.0/24"
dst = "255.254.3.4/0"
"#;

/// A text of the third, with several entries of each kind, and each part of a rule.
const OF_THREE: &str = r#"version = 3

[[meter]]
name = "m"
kind = "trtcm"
cir = 24000000
cbs = 13500
pir = 48000000
pbs = 27000
skew = 10000000000
origin = 0

[[meter]]
name = "n-1"
kind = "srtcm"
cir = 24000001
cbs = 13501
ebs = 13502
skew = 0
origin = 9223372036854775807

[[port]]
name = "p"
skew = 0

[[port]]
name = "q_2"
skew = 4

[[link]]
from = "p"
to = "m"
floor = 1
jitter = 2

[[link]]
from = "m"
to = "n-1"
floor = 0
jitter = 10000000000

[[contract]]
name = "plain"
kind = "trusted"
port = "p"
path = ["m", "n-1"]
class = 1
since = 0
cir = 8000000
cbs = 3000
src = "2001:db8::/32"
dst = "::ffff:192.0.2.1/128"
sport = [1, 2]
dscp = 63

[[contract]]
name = "peaked"
kind = "trusted"
port = "p"
path = ["m"]
class = 2
since = 5
until = 5
cir = 8000001
cbs = 3001
pir = 16000000
pbs = 0
protocol = 0
sport = [0, 65535]
dport = [53, 53]
dscp = 0

[[contract]]
name = "single"
kind = "srtcm"
port = "p"
path = ["m"]
class = 3
since = 0
mode = "blind"
cir = 8000002
cbs = 3002
ebs = 998
src = "::/0"

[[contract]]
name = "two"
kind = "trtcm"
port = "p"
path = ["m"]
class = 4
since = 0
mode = "aware"
cir = 8000003
cbs = 3003
pir = 16000003
pbs = 4003
dst = "10.0.0.255/32"
protocol = 255

[[contract]]
name = "separate"
kind = "rfc4115"
port = "p"
path = ["m"]
class = 1
since = 0
mode = "blind"
cir = 8000004
cbs = 3004
eir = 16000004
ebs = 4004
dport = [3, 4]
"#;

/// The text of what a text says.
fn again(alloc: Global, text: &str) -> Result<Vec<u8>, DomainFault> {
    let (domain, contracts) = parse(alloc, text.as_bytes())?;
    write(alloc, &domain, contracts.as_slice())
}

/// Expects that a text is written as it was read.
fn expect_same(rt: &impl Abort, alloc: Global, text: &str) {
    let written = again(alloc, text).expect(rt, "a text");
    assert!(rt; written.as_slice() == text.as_bytes());
}

#[test]
fn what_is_read_is_written_again(rt: HostRuntime) {
    for text in &[OF_ONE, OF_TWO, OF_THREE] {
        expect_same(&rt, rt.alloc(), text);
    }
}

/// The fault of the text of the domain of one text with the contracts of another, if it has one.
fn fault_of(alloc: Global, own: &str, others: &str) -> Result<(), DomainFault> {
    let (domain, _) = parse(alloc, own.as_bytes())?;
    let (_, contracts) = parse(alloc, others.as_bytes())?;
    write(alloc, &domain, contracts.as_slice())?;
    Ok(())
}

#[test]
fn what_no_text_of_the_domain_says_is_refused(rt: HostRuntime) {
    let found = fault_of(rt.alloc(), OF_TWO, OF_THREE);
    let wanted = DomainFault::new(Kind::Range, Section::Contract, 0, Field::Src);
    assert!(rt; found == Err(wanted));
}
