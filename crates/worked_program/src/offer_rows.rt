//! `drive` sells contracts that its lines offer.
use crate::drive_rows::{expect_answers, expect_answers_to, expect_of_drive};
use std::test::Fail;
use worked_texts::{over_excess, tight, wide};

/// A contract that a text could have, but for what stands behind it.
const X: &str =
    "offer { name = \"x\", kind = \"trusted\", port = \"p\", path = [\"m\"], class = 3, cir = 8000000, cbs = 3000 }";

/// One that is policed.
const Y: &str =
    "offer { name = \"y\", kind = \"trtcm\", mode = \"blind\", port = \"p\", path = [\"m\"], class = 2, cir = 8000000, \
    cbs = 1500, pir = 16000000, pbs = 3000, src = \"10.0.2.0/24\", until = 7000000000 }";

/// They are offered once, sold, and told by their names; the text's `a` is taken. Beside 8 Mbit/s of `x`, of which the
/// meter has 24, `y` brings 16 at most.
const OFFERED: [(&str, &str); 10] = [
    ("reserve x", "refused 1 UnknownName"),
    (X, "offered x"),
    (Y, "offered y"),
    (X, "refused 1 Twice name"),
    (
        "offer { name = \"a\", kind = \"trusted\", port = \"p\", path = [\"m\"], class = 3, cir = 1, cbs = 1 }",
        "refused 1 Twice name",
    ),
    ("reserve y", "granted 1 1 0"),
    ("reserve x", "granted 2 2 0"),
    ("reserve a", "refused 6 AllRate m 32000000 24000000"),
    ("list", "1 y 0 7000000000\n2 x 0 -"),
    ("look", "serial 2 contracts 2"),
];

#[test]
fn contracts_that_are_offered_are_sold(rt: HostRuntime) -> Result<(), Fail> {
    let domain = wide(rt.alloc())?;
    expect_answers(&rt, rt.alloc(), domain.as_str(), &OFFERED)
}

/// The lines of examples/offer_commands.txt, and examples/json/offers.json.
const OFFERED_IN_JSON: [(&str, &str); 9] = [
    (
        "reserve x",
        "{\"answer\":\"refused\",\"code\":1,\"kind\":\"UnknownName\"}",
    ),
    (X, "{\"answer\":\"offered\",\"name\":\"x\"}"),
    (
        X,
        "{\"answer\":\"refused\",\"code\":1,\"field\":\"name\",\"kind\":\"Twice\"}",
    ),
    (
        "offer {",
        "{\"answer\":\"refused\",\"code\":1,\"field\":null,\"kind\":\"Text\"}",
    ),
    (
        "quote x cbs",
        "{\"answer\":\"quote\",\"field\":\"cbs\",\"value\":3000}",
    ),
    ("quote x count", "{\"answer\":\"count\",\"count\":1}"),
    (
        "headroom",
        "{\"answer\":\"headroom\",\"tests\":[{\"available\":16000000,\"kind\":\"GreenRate\",\"meter\":\"m\",\"taken\":0},\
        {\"available\":4500,\"kind\":\"GreenBurst\",\"meter\":\"m\",\"taken\":0},\
        {\"available\":24000000,\"kind\":\"AllRate\",\"meter\":\"m\",\"taken\":0},\
        {\"available\":13500,\"kind\":\"AllBurst\",\"meter\":\"m\",\"taken\":0}]}",
    ),
    ("list", "{\"answer\":\"list\",\"contracts\":[]}"),
    (
        "release 1 0",
        "{\"answer\":\"refused\",\"code\":4,\"kind\":\"UnknownId\"}",
    ),
];

#[test]
fn contracts_are_offered_by_objects(rt: HostRuntime) -> Result<(), Fail> {
    let domain = tight(rt.alloc())?;
    let words = "drive --json domain.toml";
    expect_answers_to(&rt, rt.alloc(), (words, domain.as_str()), &OFFERED_IN_JSON)
}

/// What is no contract of the domain, a text of the first version, with the fault that its text would have.
const FAULTY: [(&str, &str); 14] = [
    ("offer ", "refused 1 Text -"),
    ("offer {", "refused 1 Text -"),
    ("offer  { }", "refused 1 Text -"),
    ("offer { } # none", "refused 1 Text -"),
    ("offer [ { } ]", "refused 1 Field contract"),
    ("offer { }", "refused 1 Field kind"),
    (
        "offer { kind = \"sold\", name = \"x\" }",
        "refused 1 Range kind",
    ),
    (
        "offer { kind = \"trusted\", name = \"x\", eir = 1, ebs = 1 }",
        "refused 1 Field -",
    ),
    (
        "offer { kind = \"trusted\", name = \"A\" }",
        "refused 1 Range name",
    ),
    (
        "offer { name = \"x\", kind = \"trusted\", port = \"p\", path = [], class = 3, cir = 0, cbs = 3000 }",
        "refused 1 Range cir",
    ),
    (
        "offer { name = \"x\", kind = \"trusted\", port = \"m\", path = [], class = 3, cir = 1, cbs = 3000 }",
        "refused 1 UnknownName port",
    ),
    (
        "offer { name = \"x\", kind = \"trusted\", port = \"p\", path = [], class = 3, cir = 1, cbs = 3000 }",
        "refused 1 PathLength path",
    ),
    (
        "offer { name = \"b\", kind = \"trusted\", port = \"p\", path = [\"m\", \"m\"], class = 1, cir = 1, cbs = 1 }",
        "refused 1 Twice name",
    ),
    ("look", "serial 0 contracts 0"),
];

#[test]
fn offers_are_refused_as_their_text_would_be(rt: HostRuntime) -> Result<(), Fail> {
    let domain = wide(rt.alloc())?;
    expect_answers(&rt, rt.alloc(), domain.as_str(), &FAULTY)
}

/// An excess is of the second version.
const EXCESS: &str =
    "offer { name = \"x\", kind = \"trusted\", port = \"p\", path = [\"m\"], class = 3, cir = 1, cbs = 1, pir = 2, \
    pbs = 2, eir = 1, ebs = 1 }\n";

#[test]
fn offers_have_the_keys_of_their_version(rt: HostRuntime) -> Result<(), Fail> {
    for (version, answer) in [
        ("version = 1\n", "refused 1 Field -\n"),
        ("version = 2\n", "offered x\n"),
    ] {
        let domain = over_excess(rt.alloc(), version, &[])?;
        expect_of_drive(&rt, rt.alloc(), (domain.as_str(), EXCESS), (answer, "", 0))?;
    }
    Ok(())
}

/// Lines that offer nothing.
const NO_OFFERS: [&str; 3] = ["offer\n", "offers { }\n", "offer { }\r\n"];

#[test]
fn a_line_that_offers_nothing(rt: HostRuntime) -> Result<(), Fail> {
    let domain = wide(rt.alloc())?;
    for lines in NO_OFFERS {
        let answer = ("", "dsedge: line 1\n", 3);
        expect_of_drive(&rt, rt.alloc(), (domain.as_str(), lines), answer)?;
    }
    Ok(())
}
