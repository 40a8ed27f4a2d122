use crate::rows::tables::{parsed, text_of};
use af_marker::Dscp;
use ds_domain::{
    BoxedContract, Contract, Delay, Domain, DomainFault, Link, Meter, Name, Peak, Profile,
    SoundParameters, Terms, Version, fits, parse,
};
use flow_classifier::{Ipv4Prefix, Ipv6Prefix, Prefix};
use meter_book_base::Parameters;
use moment_core::{Colour, Mode, Moment, Rate};
use std::alloc::Global;
use std::process::Abort;
use trtcm_core::TrTcmParameters;
use worked_texts::{
    A, ANYWHERE, B, C, EXCESS, LINK, METER, PEAK, POLICED, PORT, SHARE, TRUSTED, TWO, TWO_RATES, U,
    UDP,
};

/// A rate.
fn rate(rt: &impl Abort, bits: u64) -> Rate {
    Rate::new(bits).expect(rt, "a rate")
}

/// A profile of a rate and a burst.
fn profile(rt: &impl Abort, bits: u64, burst: u32) -> Profile {
    let rate = rate(rt, bits);
    Profile { rate, burst }
}

/// What a contract with the share is trusted with, with a peak or without.
fn share(rt: &impl Abort, peak: Option<Peak>) -> Terms {
    let committed = profile(rt, 8_000_000, 3000);
    Terms::Trusted { committed, peak }
}

/// A name.
fn name(rt: &impl Abort, text: &str) -> Name {
    Name::new(text).expect(rt, text)
}

/// How many meters, ports and links a domain has.
fn sizes_of(domain: &Domain) -> (usize, usize, usize) {
    (
        domain.meters().len(),
        domain.ports().len(),
        domain.links().len(),
    )
}

/// Expects the second of three trusted contracts.
fn expect_second(rt: &impl Abort, second: &Contract) {
    let prefix = Prefix::V4(Ipv4Prefix::new(0x0a00_0100, 24).expect(rt, "a prefix"));
    assert!(rt; second.name == name(rt, "b"));
    assert!(rt; second.terms == share(rt, None));
    assert!(rt; second.class.get() == 2);
    assert!(rt; second.rule.source == Some(prefix));
}

/// Expects the domain of three trusted contracts.
fn expect_three(rt: &impl Abort, domain: &Domain, contracts: &[BoxedContract]) {
    assert!(rt; sizes_of(domain) == (1, 1, 1));
    assert!(rt; contracts.len() == 3);
    expect_second(rt, contracts[1].contract());
}

const THREE_TRUSTED: &[&str] = &[
    METER, PORT, LINK, TRUSTED, A, SHARE, TRUSTED, B, SHARE, TRUSTED, C, SHARE,
];

/// Expects that of the text of these.
fn expect_three_trusted(rt: &impl Abort, alloc: Global) {
    let said = parsed(rt, alloc, THREE_TRUSTED);
    expect_three(rt, &said.domain, said.contracts.as_slice());
}

#[test]
fn the_domain_of_three_trusted_contracts(rt: HostRuntime) {
    expect_three_trusted(&rt, rt.alloc());
}

/// The parameters of a meter of two rates, each with its burst.
fn two_rates(rt: &impl Abort, committed: (u64, u32), peak: (u64, u32)) -> SoundParameters {
    let parameters = Parameters::TrTcm(TrTcmParameters {
        committed_rate: rate(rt, committed.0),
        committed_burst: committed.1,
        peak_rate: rate(rt, peak.0),
        peak_burst: peak.1,
    });
    SoundParameters::new(parameters).expect(rt, "parameters of a meter")
}

/// A delay of so many nanoseconds.
fn delay(rt: &impl Abort, nanoseconds: u64) -> Delay {
    Delay::new(nanoseconds).expect(rt, "a delay")
}

/// Expects the meter `m` of a domain.
fn expect_meter(rt: &impl Abort, domain: &Domain) {
    let meter = Meter {
        parameters: two_rates(rt, (24_000_000, 13_500), (24_000_000, 13_500)),
        skew: delay(rt, 500_000),
        origin: Moment::new(0).expect(rt, "a moment"),
    };
    assert!(rt; domain.meter(name(rt, "m")) == Some(meter));
}

/// Expects the link of a domain from `p` to `m`.
fn expect_link(rt: &impl Abort, domain: &Domain) {
    let link = Link {
        floor: delay(rt, 0),
        jitter: delay(rt, 1_000_000),
    };
    assert!(rt; domain.link(name(rt, "p"), name(rt, "m")) == Some(link));
}

/// What the contract `u` is held to.
fn policed(rt: &impl Abort) -> Terms {
    let parameters = two_rates(rt, (8_000_000, 1500), (16_000_000, 3000));
    let mode = Mode::Blind;
    Terms::Policed { parameters, mode }
}

/// Expects the contract `u` alone, for UDP.
fn expect_policed(rt: &impl Abort, contracts: &[BoxedContract]) {
    assert!(rt; contracts.len() == 1);
    assert!(rt; contracts[0].contract().terms == policed(rt));
    assert!(rt; contracts[0].contract().rule.protocol == Some(17));
}

const ONE_POLICED: &[&str] = &[METER, PORT, LINK, POLICED, U, TWO_RATES, UDP];

/// Expects the domain and the contract of this text.
fn expect_one_policed(rt: &impl Abort, alloc: Global) {
    let said = parsed(rt, alloc, ONE_POLICED);
    expect_meter(rt, &said.domain);
    expect_link(rt, &said.domain);
    expect_policed(rt, said.contracts.as_slice());
}

#[test]
fn the_domain_of_one_policed_contract(rt: HostRuntime) {
    expect_one_policed(&rt, rt.alloc());
}

/// Expects that a domain is of a version, and that the only one of its contracts has the peak, and an excess or none.
fn expect_peak(
    rt: &impl Abort,
    domain: &Domain,
    contracts: &[BoxedContract],
    version: Version,
    excess: Option<Profile>,
) {
    let profile = profile(rt, 16_000_000, 4000);
    let peak = Some(Peak { profile, excess });
    assert!(rt; domain.version() == version);
    assert!(rt; contracts.len() == 1);
    assert!(rt; contracts[0].contract().terms == share(rt, peak));
}

/// Texts of a contract with a peak and no excess, and their versions.
static PLAIN_PEAKS: [(&[&str], Version); 3] = [
    (&[METER, PORT, LINK, TRUSTED, A, SHARE, PEAK], Version::One),
    (
        &["version = 1\n", METER, PORT, LINK, TRUSTED, A, SHARE, PEAK],
        Version::One,
    ),
    (
        &[TWO, METER, PORT, LINK, TRUSTED, A, SHARE, PEAK],
        Version::Two,
    ),
];

/// Expects of a text its version, and that its contract has a peak and no excess.
fn expect_plain_peak(rt: &impl Abort, alloc: Global, (parts, version): &(&[&str], Version)) {
    let said = parsed(rt, alloc, parts);
    expect_peak(rt, &said.domain, said.contracts.as_slice(), *version, None);
}

#[test]
fn a_peak_without_an_excess(rt: HostRuntime) {
    for row in &PLAIN_PEAKS {
        expect_plain_peak(&rt, rt.alloc(), row);
    }
}

/// A copy of a domain.
fn copied(rt: &impl Abort, alloc: Global, domain: &Domain) -> Domain {
    domain.copy(alloc).expect(rt, "memory")
}

/// Expects of the copy of a domain the second version, and of a contract the peak and the excess.
fn expect_excess(rt: &impl Abort, alloc: Global, domain: &Domain, contracts: &[BoxedContract]) {
    let excess = Some(profile(rt, 8_000_000, 1000));
    let again = copied(rt, alloc, domain);
    expect_peak(rt, &again, contracts, Version::Two, excess);
}

const WITH_EXCESS: &[&str] = &[TWO, METER, PORT, LINK, TRUSTED, A, SHARE, PEAK, EXCESS];

/// Expects that of the text of these.
fn expect_peak_and_excess(rt: &impl Abort, alloc: Global) {
    let said = parsed(rt, alloc, WITH_EXCESS);
    expect_excess(rt, alloc, &said.domain, said.contracts.as_slice());
}

#[test]
fn a_peak_and_its_excess(rt: HostRuntime) {
    expect_peak_and_excess(&rt, rt.alloc());
}

/// A meter `n` like the meter `m`, and a link to it from there.
const SECOND_METER: &str = "\n[[meter]]\nname = \"n\"\nkind = \"trtcm\"\n\
    cir = 24000000\ncbs = 13500\npir = 24000000\npbs = 13500\nskew = 500000\n\
    [[link]]\nfrom = \"m\"\nto = \"n\"\nfloor = 0\njitter = 1000000\n";

/// Ways over both, over `m` and `m` again, and over `n` and then `m`.
const OVER_BOTH: &str = "path = [\"m\", \"n\"]\n";

const TWICE_OVER: &str = "path = [\"m\", \"m\"]\n";

const BACK_OVER: &str = "path = [\"n\", \"m\"]\n";

/// A copy of a contract.
fn again(rt: &impl Abort, alloc: Global, contract: &Contract) -> Contract {
    contract.copy(alloc).expect(rt, "memory")
}

/// Expects that a contract fits a domain.
fn expect_fit(rt: &impl Abort, domain: &Domain, contract: &Contract) {
    assert!(rt; fits(domain, contract).is_ok());
}

/// Expects that a copy of a contract fits a copy of a domain.
fn expect_copies_fit(rt: &impl Abort, alloc: Global, domain: &Domain, contract: &Contract) {
    let copy = again(rt, alloc, contract);
    expect_fit(rt, &copied(rt, alloc, domain), &copy);
}

/// The colour that a code point says of a contract's packet.
fn came(rt: &impl Abort, contract: &Contract, code_point: u8) -> Colour {
    contract.came(Dscp::new(code_point).expect(rt, "a code point"))
}

const OVER_TWO: &[&str] = &[
    METER,
    PORT,
    LINK,
    SECOND_METER,
    ANYWHERE,
    A,
    SHARE,
    OVER_BOTH,
];

/// Expects of a contract that it and its copy fit a domain, and that yellow is red without a peak.
fn expect_over_two(rt: &impl Abort, alloc: Global, domain: &Domain, contract: &Contract) {
    expect_fit(rt, domain, contract);
    expect_copies_fit(rt, alloc, domain, contract);
    assert!(rt; came(rt, contract, 10) == Colour::Green);
    assert!(rt; came(rt, contract, 12) == Colour::Red);
}

/// Expects that of the contract over both meters.
fn expect_on_way(rt: &impl Abort, alloc: Global) {
    let said = parsed(rt, alloc, OVER_TWO);
    let contract = said.contracts.first().expect(rt, "a contract");
    expect_over_two(rt, alloc, &said.domain, contract.contract());
}

#[test]
fn a_contract_on_a_way_that_is_there_fits(rt: HostRuntime) {
    expect_on_way(&rt, rt.alloc());
}

#[test]
fn a_meter_of_two_rates_has_a_peak(rt: HostRuntime) {
    assert!(rt; policed(&rt).has_peak());
}

/// The number of a fault, its section, its place there and its field.
type Found = (u8, &'static str, usize, &'static str);

/// A fault in this form.
fn found(fault: &DomainFault) -> Found {
    (
        fault.code(),
        fault.section.text(),
        fault.index,
        fault.field.text(),
    )
}

/// The first fault of a text.
fn fault_of(alloc: Global, text: &str) -> Option<Found> {
    Some(found(&parse(alloc, text.as_bytes()).err()?))
}

/// A link from `m` to the port.
const BACK: &str = r#"
[[link]]
from = "m"
to = "p"
floor = 0
jitter = 0
"#;

/// The contract `a` whose port and path stand behind it, and then the rest of it.
const NAMED: &str = "[[contract]]\nname = \"a\"\nkind = \"trusted\"\n";

const LEAST: &str = "class = 1\ncir = 1\ncbs = 1\n";

/// What a row is about, the parts of a text that is refused, and its first fault.
type Refused = (&'static str, &'static [&'static str], Found);

static REFUSED: [Refused; 37] = [
    (
        "keys_that_an_excess_lacks 1",
        &[
            TWO,
            METER,
            PORT,
            LINK,
            TRUSTED,
            A,
            SHARE,
            PEAK,
            "eir = 8000000\n",
        ],
        (2, "contract", 0, "ebs"),
    ),
    (
        "keys_that_an_excess_lacks 2",
        &[
            TWO,
            METER,
            PORT,
            LINK,
            TRUSTED,
            A,
            SHARE,
            PEAK,
            "ebs = 1000\n",
        ],
        (2, "contract", 0, "eir"),
    ),
    (
        "keys_that_an_excess_lacks 3",
        &[TWO, METER, PORT, LINK, TRUSTED, A, SHARE, "eir = 8000000\n"],
        (2, "contract", 0, "pir"),
    ),
    (
        "keys_that_an_excess_lacks 4",
        &[TWO, METER, PORT, LINK, TRUSTED, A, SHARE, "ebs = 1000\n"],
        (2, "contract", 0, "pir"),
    ),
    (
        "keys_that_an_excess_lacks 5",
        &[TWO, METER, PORT, LINK, TRUSTED, A, SHARE, EXCESS],
        (2, "contract", 0, "pir"),
    ),
    (
        "keys_that_an_excess_lacks 6",
        &[
            TWO,
            METER,
            PORT,
            LINK,
            TRUSTED,
            A,
            SHARE,
            "pbs = 4000\n",
            EXCESS,
        ],
        (2, "contract", 0, "pir"),
    ),
    (
        "keys_that_an_excess_lacks 7",
        &[
            TWO,
            METER,
            PORT,
            LINK,
            TRUSTED,
            A,
            SHARE,
            "pir = 16000000\n",
            EXCESS,
        ],
        (2, "contract", 0, "pbs"),
    ),
    (
        "keys_that_an_excess_lacks 8",
        &[
            TWO,
            METER,
            PORT,
            LINK,
            TRUSTED,
            A,
            SHARE,
            "pir = 16000000\n",
            "ebs = 1000\n",
        ],
        (2, "contract", 0, "pbs"),
    ),
    (
        "an_excess_out_of_range 1",
        &[
            TWO,
            METER,
            PORT,
            LINK,
            TRUSTED,
            A,
            SHARE,
            PEAK,
            "eir = 0\nebs = 4294967296\n",
        ],
        (3, "contract", 0, "eir"),
    ),
    (
        "an_excess_out_of_range 2",
        &[
            TWO,
            METER,
            PORT,
            LINK,
            TRUSTED,
            A,
            SHARE,
            PEAK,
            "eir = 10000000000001\nebs = 0\n",
        ],
        (3, "contract", 0, "eir"),
    ),
    (
        "an_excess_out_of_range 3",
        &[
            TWO,
            METER,
            PORT,
            LINK,
            TRUSTED,
            A,
            SHARE,
            PEAK,
            "eir = 10000000000000\nebs = 4294967296\n",
        ],
        (3, "contract", 0, "ebs"),
    ),
    (
        "no_excess_in_the_first_version 1",
        &[
            METER,
            PORT,
            LINK,
            TRUSTED,
            A,
            SHARE,
            PEAK,
            "eir = 8000000\n",
        ],
        (2, "contract", 0, ""),
    ),
    (
        "no_excess_in_the_first_version 2",
        &[METER, PORT, LINK, TRUSTED, A, SHARE, PEAK, "ebs = 1000\n"],
        (2, "contract", 0, ""),
    ),
    (
        "no_excess_in_the_first_version 3",
        &[
            "version = 1\n",
            METER,
            PORT,
            LINK,
            TRUSTED,
            A,
            SHARE,
            PEAK,
            EXCESS,
        ],
        (2, "contract", 0, ""),
    ),
    (
        "no_excess_of_a_policed_contract",
        &[TWO, METER, PORT, LINK, POLICED, U, TWO_RATES, EXCESS],
        (2, "contract", 0, ""),
    ),
    (
        "texts_that_are_no_toml 1",
        &["version = "],
        (1, "text", 0, ""),
    ),
    (
        "texts_that_are_no_toml 2",
        &["version = 9223372036854775808"],
        (1, "text", 0, ""),
    ),
    ("tops 1", &["version = 0"], (3, "top", 0, "version")),
    ("tops 2", &["version = 4"], (3, "top", 0, "version")),
    ("tops 3", &["version = true"], (2, "top", 0, "version")),
    ("tops 4", &["meters = []"], (2, "top", 0, "")),
    ("tops 5", &["meter = []\nlink = [1]"], (2, "top", 0, "link")),
    (
        "meters_and_links_that_are_refused 1",
        &[METER, "depth = 1\n"],
        (2, "meter", 0, ""),
    ),
    (
        "meters_and_links_that_are_refused 2",
        &[METER, "mode = \"blind\"\n"],
        (9, "meter", 0, "mode"),
    ),
    (
        "meters_and_links_that_are_refused 3",
        &[METER, PORT, METER],
        (4, "meter", 1, "name"),
    ),
    (
        "meters_and_links_that_are_refused 4",
        &[METER, LINK],
        (5, "link", 0, "from"),
    ),
    (
        "meters_and_links_that_are_refused 5",
        &[METER, PORT, LINK, LINK],
        (4, "link", 1, "from"),
    ),
    (
        "ways_that_are_refused 1",
        &[METER, PORT, LINK, NAMED, "port = \"P\"\npath = []\n", LEAST],
        (5, "contract", 0, "port"),
    ),
    (
        "ways_that_are_refused 2",
        &[METER, PORT, LINK, NAMED, "port = \"p\"\npath = []\n", LEAST],
        (8, "contract", 0, "path"),
    ),
    (
        "ways_that_are_refused 3",
        &[
            METER,
            PORT,
            LINK,
            NAMED,
            "port = \"p\"\npath = [\"m\", \"m\"]\n",
            LEAST,
        ],
        (7, "contract", 0, "path"),
    ),
    (
        "ways_that_are_refused 4",
        &[METER, PORT, TRUSTED, A, SHARE],
        (6, "contract", 0, "path"),
    ),
    (
        "the_first_of_two_faults 1",
        &["[[meter]]\nname = 1\ndepth = 1\n"],
        (2, "meter", 0, "kind"),
    ),
    (
        "the_first_of_two_faults 2",
        &[METER, PORT, TRUSTED, A, SHARE, "since = 2\nuntil = 1\n"],
        (3, "contract", 0, "until"),
    ),
    (
        "the_first_of_two_faults 3",
        &["port = 1\n", METER, METER],
        (2, "top", 0, "port"),
    ),
    (
        "ways_over_two_meters_that_are_refused 1",
        &[
            METER,
            PORT,
            LINK,
            SECOND_METER,
            ANYWHERE,
            A,
            SHARE,
            TWICE_OVER,
        ],
        (7, "contract", 0, "path"),
    ),
    (
        "ways_over_two_meters_that_are_refused 2",
        &[
            METER,
            PORT,
            LINK,
            SECOND_METER,
            ANYWHERE,
            A,
            SHARE,
            BACK_OVER,
        ],
        (6, "contract", 0, "path"),
    ),
    (
        "ways_over_two_meters_that_are_refused 3",
        &[METER, PORT, LINK, SECOND_METER, BACK],
        (5, "link", 2, "to"),
    ),
];

/// Expects the first fault of the text of a row.
fn expect_refused(rt: &impl Abort, alloc: Global, (name, parts, wanted): &Refused) {
    let text = text_of(rt, alloc, parts);
    assert_eq!(rt;
        (name, fault_of(alloc, text.as_str())),
        (name, Some(*wanted))
    );
}

#[test]
fn texts_that_are_refused(rt: HostRuntime) {
    for row in &REFUSED {
        expect_refused(&rt, rt.alloc(), row);
    }
}

/// The version with addresses of IPv6.
const THREE: &str = "version = 3\n";

/// A contract's name and class.
const BARE: &str = "name = \"a\"\nclass = 1\n";

/// What a row is about, the version's line, what a contract says of its addresses, and the code and the field of the
/// fault.
type Mistaken = (&'static str, &'static str, &'static str, (u8, &'static str));

static MISTAKEN: [Mistaken; 14] = [
    (
        "no IPv6 in the second version",
        TWO,
        "src = \"2001:db8::/32\"\n",
        (3, "src"),
    ),
    (
        "no IPv6 in the first version",
        "",
        "dst = \"::/0\"\n",
        (3, "dst"),
    ),
    (
        "two families",
        THREE,
        "src = \"10.0.0.0/8\"\ndst = \"2001:db8::/32\"\n",
        (3, "dst"),
    ),
    (
        "two families, the other way round",
        THREE,
        "src = \"2001:db8::/32\"\ndst = \"10.0.0.0/8\"\nprotocol = 256\n",
        (3, "dst"),
    ),
    (
        "a target that is none before two families",
        THREE,
        "src = \"2001:db8::/32\"\ndst = \"10.0.0.0\"\n",
        (3, "dst"),
    ),
    ("129 bits", THREE, "src = \"2001:db8::/129\"\n", (3, "src")),
    (
        "33 bits of IPv4",
        THREE,
        "src = \"10.0.0.0/33\"\n",
        (3, "src"),
    ),
    ("no bits told", THREE, "src = \"2001:db8::\"\n", (3, "src")),
    (
        "bits with a zero before",
        THREE,
        "src = \"2001:db8::/032\"\n",
        (3, "src"),
    ),
    ("no address", THREE, "src = \"/32\"\n", (3, "src")),
    (
        "three colons",
        THREE,
        "src = \"2001:db8:::/32\"\n",
        (3, "src"),
    ),
    (
        "nine groups",
        THREE,
        "src = \"1:2:3:4:5:6:7:8:9/32\"\n",
        (3, "src"),
    ),
    ("a zone", THREE, "src = \"fe80::1%eth0/64\"\n", (3, "src")),
    ("another type", THREE, "src = 6\n", (2, "src")),
];

/// The fault of a text.
fn fault_in(rt: &impl Abort, alloc: Global, parts: &[&str]) -> (u8, &'static str) {
    let text = text_of(rt, alloc, parts);
    match parse(alloc, text.as_bytes()) {
        Ok(_) => (0, ""),
        Err(fault) => (fault.kind.code(), fault.field.text()),
    }
}

/// Expects of a row the fault of its text.
fn expect_mistaken(rt: &impl Abort, alloc: Global, (name, version, addresses, wanted): &Mistaken) {
    let parts = [
        *version, METER, PORT, LINK, TRUSTED, BARE, SHARE, *addresses,
    ];
    assert_eq!(rt; (name, fault_in(rt, alloc, &parts)), (name, *wanted));
}

#[test]
fn addresses_that_are_refused(rt: HostRuntime) {
    for row in &MISTAKEN {
        expect_mistaken(&rt, rt.alloc(), row);
    }
}

/// Text forms of addresses (RFC 4291 sections 2.2 and 2.3) with how many bits count, and the addresses.
static FORMS: [(&str, u128, u8); 9] = [
    ("src = \"::/0\"\n", 0, 0),
    ("src = \"::1/128\"\n", 1, 128),
    ("src = \"2001:db8::/32\"\n", 0x2001_0db8 << 96, 32),
    (
        "src = \"2001:DB8:0:0:8:800:200C:417A/64\"\n",
        0x2001_0db8_0000_0000_0008_0800_200c_417a,
        64,
    ),
    (
        "src = \"2001:db8::8:800:200c:417a/127\"\n",
        0x2001_0db8_0000_0000_0008_0800_200c_417a,
        127,
    ),
    ("src = \"FF01::101/8\"\n", (0xff01 << 112) + 0x101, 8),
    ("src = \"::13.1.68.3/96\"\n", 0x0d01_4403, 96),
    (
        "src = \"::FFFF:129.144.52.38/128\"\n",
        (0xffff << 32) + 0x8190_3426,
        128,
    ),
    (
        "src = \"2001:0DB8:0:CD30::/60\"\n",
        (0x2001_0db8_0000_cd30 << 64),
        60,
    ),
];

/// Expects of a row the prefix that its text says.
fn expect_form(rt: &impl Abort, alloc: Global, (form, address, length): &(&str, u128, u8)) {
    let said = parsed(
        rt,
        alloc,
        &[THREE, METER, PORT, LINK, TRUSTED, BARE, SHARE, *form],
    );
    let prefix = Ipv6Prefix::new(*address, *length).expect(rt, "a prefix");
    let contract = said.contracts.first().expect(rt, "a contract");
    assert_eq!(rt; contract.contract().rule.source, Some(Prefix::V6(prefix)));
    assert!(rt; said.domain.version() == Version::Three);
}

#[test]
fn text_forms_of_addresses(rt: HostRuntime) {
    for row in &FORMS {
        expect_form(&rt, rt.alloc(), row);
    }
}

/// Expects of a text of version 3 a rule of IPv4, and an excess as in version 2.
fn expect_as_before(rt: &impl Abort, alloc: Global) {
    let said = parsed(
        rt,
        alloc,
        &[THREE, METER, PORT, LINK, TRUSTED, A, SHARE, PEAK, EXCESS],
    );
    let prefix = Ipv4Prefix::new(0x0a00_0000, 24).expect(rt, "a prefix");
    let contract = said.contracts.first().expect(rt, "a contract");
    assert!(rt; contract.contract().rule.source == Some(Prefix::V4(prefix)));
    let excess = Some(profile(rt, 8_000_000, 1000));
    expect_peak(
        rt,
        &said.domain,
        said.contracts.as_slice(),
        Version::Three,
        excess,
    );
}

#[test]
fn the_third_version_is_the_second_but_for_addresses(rt: HostRuntime) {
    expect_as_before(&rt, rt.alloc());
}
