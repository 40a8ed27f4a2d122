use ds_certificate::read;
use ds_checker::{Candidate, check};
use ds_domain::parse;
use dsedge_words::refusal_said;
use std::alloc::Global;
use std::process::Abort;

/// A meter with room for 20,000 bytes of green bursts, behind a link whose delays differ by 25,600 nanoseconds at most.
const WAY: &str =
    "[[meter]]\nname = \"core\"\nkind = \"trtcm\"\ncir = 100000000\ncbs = 20000\npir = 100000000\n\
    pbs = 90000\nskew = 0\n\
    [[port]]\nname = \"p\"\nskew = 0\n\
    [[link]]\nfrom = \"p\"\nto = \"core\"\nfloor = 0\njitter = 25600\n";

/// The contracts `gold`, `silver` and `tin`.
const CONTRACTS: &str =
    "[[contract]]\nname = \"gold\"\nkind = \"trusted\"\nport = \"p\"\npath = [\"core\"]\nclass = 1\n\
    cir = 10000000\ncbs = 15000\n\
    [[contract]]\nname = \"silver\"\nkind = \"trusted\"\nport = \"p\"\npath = [\"core\"]\nclass = 2\n\
    cir = 8125000\ncbs = 8000\n\
    [[contract]]\nname = \"tin\"\nkind = \"trusted\"\nport = \"p\"\npath = [\"core\"]\nclass = 3\ncir = 1\ncbs = 1\n";

/// Expects of a certificate of these contracts what is said of its refusal.
fn expect_said(rt: &impl Abort, alloc: Global, certificate: &str, wanted: &str) {
    let text = format!(in alloc; "{WAY}{CONTRACTS}").expect(rt, "a text");
    let (domain, contracts) = parse(alloc, text.as_bytes()).expect(rt, "a domain");
    let certificate = read(alloc, certificate.as_bytes(), contracts.as_slice()).expect(
        rt,
        "a certificate",
    );
    let candidate = Candidate {
        domain,
        contracts,
        certificate,
    };
    let (candidate, refusal) = check(alloc, candidate).err().expect(rt, "a refusal");
    let said = refusal_said(alloc, &candidate, &refusal).expect(rt, "words");
    assert_eq!(rt; said.as_str(), wanted);
}

#[test]
fn a_sum_names_what_brings_most_to_it(rt: HostRuntime) {
    // Over 25,600 nanoseconds the rates give 32, 26 and a begun byte.
    expect_said(
        &rt,
        rt.alloc(),
        "dscert 1\ngold 0 15000 15000\ngold 1 15032 15032\nsilver 0 8000 8000\nsilver 1 8026 8026\n\
            tin 0 1 1\ntin 1 2 2\n",
        "core: the green bursts are 23,060 bytes and its bucket (cbs) has 20,000: \
            gold 15,032, silver 8,026, tin 2\n",
    );
}

#[test]
fn a_stale_certificate_is_told_so(rt: HostRuntime) {
    expect_said(
        &rt,
        rt.alloc(),
        "dscert 1\ngold 0 10000 10000\ngold 1 15032 15032\nsilver 0 8000 8000\nsilver 1 8026 8026\n\
            tin 0 1 1\ntin 1 2 2\n",
        "gold: its green packets bring up to 15,000 bytes at once where they enter, at p, \
            and the certificate's bound is 10,000\n\
            the certificate is one of another text: dsedge certify DOMAIN > CERTIFICATE makes the one of this\n",
    );
}
