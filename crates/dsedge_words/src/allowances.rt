use ds_domain_base::{Field, Section};

/// The keys at the top.
const TOP: &[&str] = &["version", "meter", "port", "link", "contract"];

/// The keys of a port.
const PORT: &[&str] = &["name", "skew"];

/// The keys of a link.
const LINK: &[&str] = &["from", "to", "floor", "jitter"];

/// The keys of a meter of kind `srtcm`.
const SINGLE_RATE_METER: &[&str] = &[
    "name", "kind", "mode", "cir", "cbs", "ebs", "skew", "origin",
];

/// The keys of a meter of kind `trtcm`.
const TWO_RATE_METER: &[&str] = &[
    "name", "kind", "mode", "cir", "cbs", "pir", "pbs", "skew", "origin",
];

/// The keys of a meter of kind `rfc4115`.
const SEPARATE_RATES_METER: &[&str] = &[
    "name", "kind", "mode", "cir", "cbs", "eir", "ebs", "skew", "origin",
];

/// The keys of a trusted contract in version 1.
const FIRST_TRUSTED: &[&str] = &[
    "name", "kind", "port", "path", "class", "since", "until", "cir", "cbs", "pir", "pbs", "src",
    "dst", "protocol", "sport", "dport", "dscp",
];

/// The keys of a trusted contract from version 2 on.
const TRUSTED: &[&str] = &[
    "name", "kind", "port", "path", "class", "since", "until", "cir", "cbs", "pir", "pbs", "eir",
    "ebs", "src", "dst", "protocol", "sport", "dport", "dscp",
];

/// The keys of a contract of kind `srtcm`.
const SINGLE_RATE: &[&str] = &[
    "name", "kind", "port", "path", "class", "since", "until", "mode", "cir", "cbs", "ebs", "src",
    "dst", "protocol", "sport", "dport", "dscp",
];

/// The keys of a contract of kind `trtcm`.
const TWO_RATE: &[&str] = &[
    "name", "kind", "port", "path", "class", "since", "until", "mode", "cir", "cbs", "pir", "pbs",
    "src", "dst", "protocol", "sport", "dport", "dscp",
];

/// The keys of a contract of kind `rfc4115`.
const SEPARATE_RATES: &[&str] = &[
    "name", "kind", "port", "path", "class", "since", "until", "mode", "cir", "cbs", "eir", "ebs",
    "src", "dst", "protocol", "sport", "dport", "dscp",
];

/// The keys that an entry of a section may have, by its kind and by the version of the text.
pub(crate) fn keys_of(
    section: Section,
    kind: Option<&str>,
    version: i64,
) -> &'static [&'static str] {
    match section {
        Section::Text | Section::Top => TOP,
        Section::Meter => meter_keys(kind),
        Section::Port => PORT,
        Section::Link => LINK,
        Section::Contract => contract_keys(kind, version),
    }
}

/// The keys of a meter of a kind.
fn meter_keys(kind: Option<&str>) -> &'static [&'static str] {
    match kind {
        Some("srtcm") => SINGLE_RATE_METER,
        Some("trtcm") => TWO_RATE_METER,
        _ => SEPARATE_RATES_METER,
    }
}

/// The keys of a contract of a kind in a version.
fn contract_keys(kind: Option<&str>, version: i64) -> &'static [&'static str] {
    match kind {
        Some("srtcm") => SINGLE_RATE,
        Some("trtcm") => TWO_RATE,
        Some("rfc4115") => SEPARATE_RATES,
        _ if version == 1 => FIRST_TRUSTED,
        _ => TRUSTED,
    }
}

/// Whether an entry may lack a key.
pub(crate) fn is_optional(section: Section, kind: Option<&str>, key: &str) -> bool {
    match section {
        Section::Text | Section::Top => true,
        Section::Meter => matches!(key, "mode" | "origin"),
        Section::Port | Section::Link => false,
        Section::Contract => match key {
            "since" | "until" | "src" | "dst" | "protocol" | "sport" | "dport" | "dscp" => true,
            "pir" | "pbs" | "eir" | "ebs" => kind == Some("trusted"),
            _ => false,
        },
    }
}

/// What may stand at a key of an entry of a section.
pub(crate) fn allowed_at(section: Section, field: Field) -> &'static str {
    match field {
        Field::Empty => "no other key",
        Field::Version => "1, 2 or 3",
        Field::Meter => "at most 1024 tables, each under [[meter]]",
        Field::Link => "at most 65536 tables, each under [[link]]",
        Field::Contract => "at most 4096 tables, each under [[contract]]",
        Field::Port => match section {
            Section::Contract => "the name of a port, in quotes",
            _ => "at most 1024 tables, each under [[port]]",
        },
        Field::Name => "1 to 32 of a to z, 0 to 9, - and _",
        Field::Kind => match section {
            Section::Contract => "\"trusted\", \"srtcm\", \"trtcm\" or \"rfc4115\"",
            _ => "\"srtcm\", \"trtcm\" or \"rfc4115\"",
        },
        Field::Mode => match section {
            Section::Contract => "\"blind\" or \"aware\"",
            _ => "\"aware\"",
        },
        Field::Cir | Field::Pir | Field::Eir => "1 to 10000000000000, in bits per second",
        Field::Cbs | Field::Pbs | Field::Ebs => "0 to 4294967295, in bytes",
        Field::Skew | Field::Floor | Field::Jitter => "0 to 10000000000, in nanoseconds",
        Field::Origin | Field::Since | Field::Until => "0 to 9223372036854775807, in nanoseconds",
        _ => allowed_on_way(field),
    }
}

/// What may stand at a key of a link's ends, of a way, and of a rule.
fn allowed_on_way(field: Field) -> &'static str {
    match field {
        Field::From => "the name of a port or of a meter, in quotes",
        Field::To => "the name of a meter, in quotes",
        Field::Path => "an array of 1 to 16 names of meters, no two of them the same",
        Field::Class => "1 to 4",
        Field::Protocol => "0 to 255",
        Field::Dscp => "0 to 63",
        Field::Sport | Field::Dport => "[low, high], each 0 to 65535, and low at most high",
        _ =>
            "an address and how many of its bits count, as \"10.1.0.0/16\"; in version 3 also as \"2001:db8::/32\"",
    }
}
