use crate::drive_rows::expect_answers;
use crate::rows::expect_on_domain;
use std::test::Fail;
use worked_texts::{tight, wide};

#[test]
fn what_is_left_at_the_meters(rt: HostRuntime) -> Result<(), Fail> {
    let domain = wide(rt.alloc())?;
    let lines = "m GreenRate 16000000 24000000\nm GreenBurst 9000 13500\n\
        m AllRate 16000000 24000000\nm AllBurst 9000 13500\n";
    let words = ("headroom domain.toml", domain.as_str());
    expect_on_domain(&rt, rt.alloc(), words, (lines, "", 0))?;
    let object = "{\"answer\":\"headroom\",\"tests\":[\
        {\"available\":24000000,\"kind\":\"GreenRate\",\"meter\":\"m\",\"taken\":16000000},\
        {\"available\":13500,\"kind\":\"GreenBurst\",\"meter\":\"m\",\"taken\":9000},\
        {\"available\":24000000,\"kind\":\"AllRate\",\"meter\":\"m\",\"taken\":16000000},\
        {\"available\":13500,\"kind\":\"AllBurst\",\"meter\":\"m\",\"taken\":9000}]}\n";
    let words = ("headroom --json domain.toml", domain.as_str());
    expect_on_domain(&rt, rt.alloc(), words, (object, "", 0))?;
    let domain = tight(rt.alloc())?;
    let refused = "refused 5 GreenBurst m 9000 4500\n";
    let words = ("headroom domain.toml", domain.as_str());
    expect_on_domain(&rt, rt.alloc(), words, (refused, "", 1))
}

#[test]
fn what_a_contract_may_have_at_most(rt: HostRuntime) -> Result<(), Fail> {
    let domain = wide(rt.alloc())?;
    for (words, wanted) in [
        (
            "quote domain.toml --contract b --most cbs",
            ("cbs 7500\n", "", 0),
        ),
        (
            "quote domain.toml --contract zz --most cbs",
            ("", "dsedge: contract zz\n", 3),
        ),
        (
            "quote domain.toml --contract b --most pir",
            ("", "dsedge: usage\n", 2),
        ),
        (
            "quote domain.toml --contract b --most skew",
            ("", "dsedge: usage\n", 2),
        ),
        ("quote domain.toml --contract b", ("", "dsedge: usage\n", 2)),
        (
            "quote domain.toml --contract b --count",
            ("count 2\n", "", 0),
        ),
        (
            "quote domain.toml --contract b --count --most cbs",
            ("", "dsedge: usage\n", 2),
        ),
        (
            "quote --json domain.toml --contract b --most cbs",
            (
                "{\"answer\":\"quote\",\"field\":\"cbs\",\"value\":7500}\n",
                "",
                0,
            ),
        ),
        (
            "quote domain.toml --contract b --count --json",
            ("{\"answer\":\"count\",\"count\":2}\n", "", 0),
        ),
    ] {
        expect_on_domain(&rt, rt.alloc(), (words, domain.as_str()), wanted)?;
    }
    let domain = tight(rt.alloc())?;
    let words = ("quote domain.toml --contract b --most cbs", domain.as_str());
    let none = ("none\nrefused 5 GreenBurst m 6000 4500\n", "", 1);
    expect_on_domain(&rt, rt.alloc(), words, none)?;
    let words = (
        "quote domain.toml --contract b --most cbs --json",
        domain.as_str(),
    );
    let none =
        "{\"answer\":\"none\",\"refusal\":{\"answer\":\"refused\",\"available\":4500,\"code\":5,\
        \"kind\":\"GreenBurst\",\"meter\":\"m\",\"needed\":6000}}\n";
    expect_on_domain(&rt, rt.alloc(), words, (none, "", 1))
}

/// The words that set policers to the meter of the wide domain, and what is made of it: there is room for a byte less.
const POLICERS: &str =
    "actions add action police rate 24000000bit burst 13500 mtu 65535 conform-exceed pipe/ok index 1\n\
    actions add action police rate 24000000bit burst 13500 mtu 65535 conform-exceed drop/pipe index 2\n\
    rate cir 24000000 24000000\nrate pir 24000000 24000000\n\
    burst cbs 13500 13499\nburst pbs 13500 13499\naccepted\n";

/// The words that set a meter of DPDK to that of the tight domain, and what is made of it.
const METER: &str =
    "struct rte_meter_trtcm_params params = { .cir = 2000000, .pir = 3000000, .cbs = 4500, .pbs = 13500 };\n\
    rate cir 16000000 16000000\nrate pir 24000000 24024024\n\
    burst cbs 4500 4500\nburst pbs 13500 13500\nrefused 5 GreenBurst m 9000 4500\n";

#[test]
fn what_sets_a_device(rt: HostRuntime) -> Result<(), Fail> {
    let domain = wide(rt.alloc())?;
    for (words, wanted) in [
        ("export domain.toml --meter m --to tc", (POLICERS, "", 0)),
        (
            "export domain.toml --meter p --to tc",
            ("", "dsedge: usage\n", 2),
        ),
        (
            "export domain.toml --meter m --to ovs",
            ("", "dsedge: usage\n", 2),
        ),
    ] {
        expect_on_domain(&rt, rt.alloc(), (words, domain.as_str()), wanted)?;
    }
    let domain = tight(rt.alloc())?;
    let words = ("export domain.toml --meter m --to dpdk", domain.as_str());
    expect_on_domain(&rt, rt.alloc(), words, (METER, "", 1))
}

/// Quotes of a broker, before and behind a sale: beside what is held, but the contract of the same name.
const QUOTED: [(&str, &str); 14] = [
    (
        "headroom",
        "m GreenRate 0 16000000\nm GreenBurst 0 4500\nm AllRate 0 24000000\nm AllBurst 0 13500",
    ),
    ("quote b cbs", "cbs 3000"),
    ("quote b count", "count 1"),
    ("reserve a", "granted 1 1 0"),
    ("quote b cbs", "none\nrefused 5 GreenBurst m 6000 4500"),
    ("quote b count", "count 0"),
    ("quote a count", "count 1"),
    ("quote zz count", "refused 1 UnknownName"),
    ("quote a cbs", "cbs 3000"),
    ("quote a cir", "cir 8000000"),
    ("quote zz cbs", "refused 1 UnknownName"),
    ("quote a pir", "none"),
    (
        "headroom",
        "m GreenRate 8000000 16000000\nm GreenBurst 4500 4500\n\
        m AllRate 8000000 24000000\nm AllBurst 4500 13500",
    ),
    ("look", "serial 1 contracts 1"),
];

#[test]
fn quotes_of_a_broker(rt: HostRuntime) -> Result<(), Fail> {
    let domain = tight(rt.alloc())?;
    expect_answers(&rt, rt.alloc(), domain.as_str(), &QUOTED)
}
