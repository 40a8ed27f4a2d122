ghost use Rattle.std.specs.Prelude.{◌≡◌};
ghost use Rattle.ds_domain_base.specs.Faults.{fault_at, field_text, kind_code, no_memory, section_text};

use std::alloc::{AllocError, AllocFailed};
use thiserror::Error;

/// What is wrong with a domain or a contract.
#[derive(Clone, Copy, Debug, PartialEq, Eq, Drop, Error)]
pub enum Kind {
    /// The text is not TOML, or not UTF-8.
    #[error("the text is not TOML")]
    Text,
    /// A key is unknown, missing, or of another type.
    #[error("a key is unknown, missing, or of another type")]
    Field,
    /// A value is out of its range, or a section has too many entries.
    #[error("a value is out of range")]
    Range,
    /// A name, or a link, stands a second time.
    #[error("it stands a second time")]
    Twice,
    /// A name is that of nothing that could be meant.
    #[error("the name is unknown")]
    UnknownName,
    /// Two names of a path follow each other without a link.
    #[error("a link is missing")]
    NoLink,
    /// A path passes a meter twice.
    #[error("the path repeats a meter")]
    PathRepeats,
    /// A path has no meter, or more than 16.
    #[error("the path is too short or too long")]
    PathLength,
    /// A meter of the domain is blind.
    #[error("a meter inside is blind")]
    BlindInside,
    /// Memory ran out.
    #[error("out of memory")]
    NoMemory,
}

impl Kind {
    /// The kind's number, from 1 for `Text` to 10 for `NoMemory`, in the order above.
    pub fn code(&self) -> u8
        ensures { result ≡ kind_code self.now }
    {
        match self {
            Kind::Text => 1,
            Kind::Field => 2,
            Kind::Range => 3,
            Kind::Twice => 4,
            Kind::UnknownName => 5,
            Kind::NoLink => 6,
            Kind::PathRepeats => 7,
            Kind::PathLength => 8,
            Kind::BlindInside => 9,
            Kind::NoMemory => 10,
        }
    }
}

/// Where in a domain a fault lies.
#[derive(Clone, Copy, Debug, PartialEq, Eq)]
pub enum Section {
    /// The text as a whole.
    Text,
    /// The keys at the top.
    Top,
    /// The meters.
    Meter,
    /// The ports.
    Port,
    /// The links.
    Link,
    /// The contracts.
    Contract,
}

impl Section {
    /// How the section is written.
    pub fn text(&self) -> &'static str
        ensures { result.now ≡ section_text self.now }
    {
        match self {
            Section::Text => "text",
            Section::Top => "top",
            Section::Meter => "meter",
            Section::Port => "port",
            Section::Link => "link",
            Section::Contract => "contract",
        }
    }
}

/// A key of the domain text.
#[derive(Clone, Copy, Debug, PartialEq, Eq)]
pub enum Field {
    /// No key of the format.
    Empty,
    /// `version`, at the top.
    Version,
    /// `meter`, at the top.
    Meter,
    /// `port`, at the top or of a contract.
    Port,
    /// `link`, at the top.
    Link,
    /// `contract`, at the top.
    Contract,
    /// `name`.
    Name,
    /// `kind`.
    Kind,
    /// `mode`.
    Mode,
    /// `cir`, the committed rate.
    Cir,
    /// `cbs`, the committed burst.
    Cbs,
    /// `pir`, the peak rate.
    Pir,
    /// `pbs`, the peak burst.
    Pbs,
    /// `eir`, the excess rate.
    Eir,
    /// `ebs`, the excess burst.
    Ebs,
    /// `skew`.
    Skew,
    /// `origin`.
    Origin,
    /// `from`.
    From,
    /// `to`.
    To,
    /// `floor`.
    Floor,
    /// `jitter`.
    Jitter,
    /// `path`.
    Path,
    /// `class`.
    Class,
    /// `since`.
    Since,
    /// `until`.
    Until,
    /// `src`.
    Src,
    /// `dst`.
    Dst,
    /// `protocol`.
    Protocol,
    /// `sport`.
    Sport,
    /// `dport`.
    Dport,
    /// `dscp`.
    Dscp,
}

impl Field {
    /// The key as it is written; empty for no key.
    pub fn text(&self) -> &'static str
        ensures { result.now ≡ field_text self.now }
    {
        match self {
            Field::Empty => "",
            Field::Version => "version",
            Field::Meter => "meter",
            Field::Port => "port",
            Field::Link => "link",
            Field::Contract => "contract",
            Field::Name => "name",
            Field::Kind => "kind",
            Field::Mode => "mode",
            Field::Cir => "cir",
            Field::Cbs => "cbs",
            Field::Pir => "pir",
            Field::Pbs => "pbs",
            Field::Eir => "eir",
            Field::Ebs => "ebs",
            Field::Skew => "skew",
            Field::Origin => "origin",
            Field::From => "from",
            Field::To => "to",
            Field::Floor => "floor",
            Field::Jitter => "jitter",
            Field::Path => "path",
            Field::Class => "class",
            Field::Since => "since",
            Field::Until => "until",
            Field::Src => "src",
            Field::Dst => "dst",
            Field::Protocol => "protocol",
            Field::Sport => "sport",
            Field::Dport => "dport",
            Field::Dscp => "dscp",
        }
    }
}

/// The first fault of a domain or a contract.
#[derive(Clone, Copy, Debug, PartialEq, Eq, Drop, Error)]
#[error("{kind}")]
pub struct DomainFault {
    /// What is wrong.
    pub kind: Kind,
    /// Where.
    pub section: Section,
    /// The entry's place in its section, from 0.
    pub index: usize,
    /// The key that it is wrong at.
    pub field: Field,
}

impl DomainFault {
    /// The number of its kind, 1 to 10.
    pub fn code(&self) -> u8
        ensures { result ≡ kind_code self.now.kind }
    {
        self.kind.code()
    }

    /// The fault of a kind at a field of the entry at a place of a section.
    pub fn new(kind: Kind, section: Section, index: usize, field: Field) -> Self
        ensures { result ≡ fault_at kind section index field }
    {
        DomainFault {
            kind,
            section,
            index,
            field,
        }
    }

    /// Want of memory.
    pub fn no_memory() -> Self
        ensures { result ≡ no_memory }
    {
        DomainFault::new(Kind::NoMemory, Section::Text, 0, Field::Empty)
    }
}

impl From<AllocError> for DomainFault {
    ghost use Rattle.ds_domain_base.specs.Faults.{no_memory};

    ghost from_gives = { λ _ fault. fault ≡ no_memory };

    fn from(_error: AllocError) -> Self {
        DomainFault::no_memory()
    }
}

impl<T: Drop> From<AllocFailed<T>> for DomainFault {
    ghost use Rattle.ds_domain_base.specs.Faults.{no_memory};

    ghost from_gives = { λ _ fault. fault ≡ no_memory };

    fn from(_error: AllocFailed<T>) -> Self {
        DomainFault::no_memory()
    }
}
