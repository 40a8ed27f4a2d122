/// The first version of a domain's text, and the second.
pub const ONE: &str = "version = 1\n";

pub const TWO: &str = "version = 2\n";

/// A meter `m` of 24 Mbit/s and 13,500 bytes, committed and peak, with a skew of 500 µs.
pub const METER: &str = r#"
[[meter]]
name = "m"
kind = "trtcm"
cir = 24000000
cbs = 13500
pir = 24000000
pbs = 13500
skew = 500000
"#;

/// The meter of examples/tight_burst.toml: it commits to 16 Mbit/s and 4,500 bytes.
pub const LOW_METER: &str = r#"
meter = [{ name = "m", kind = "trtcm", cir = 16000000, cbs = 4500, pir = 24000000, pbs = 13500, skew = 500000 }]
"#;

/// A port `p` without skew.
pub const PORT: &str = r#"
[[port]]
name = "p"
skew = 0
"#;

/// A link from `p` to `m` with a jitter of 1 ms.
pub const LINK: &str = r#"
[[link]]
from = "p"
to = "m"
floor = 0
jitter = 1000000
"#;

/// A meter of a committed and an excess rate of 8 Mbit/s each, with 4,000 bytes and 2,000 more, and a link to it with a
/// jitter of 1 ms, in which a rate of 8 Mbit/s gives 1,000 bytes.
pub const EXCESS_WAY: &str = r#"
meter = [{ name = "m", kind = "rfc4115", cir = 8000000, cbs = 4000, eir = 8000000, ebs = 2000, skew = 0 }]
port = [{ name = "p", skew = 0 }]
link = [{ from = "p", to = "m", floor = 0, jitter = 1000000 }]
"#;

/// A meter of a single rate, and a link to it without jitter.
pub const SINGLE_RATE: &str = r#"
meter = [{ name = "m", kind = "srtcm", cir = 24000, cbs = 2000, ebs = 1000, skew = 0 }]
port = [{ name = "p", skew = 0 }]
link = [{ from = "p", to = "m", floor = 0, jitter = 0 }]
"#;
