ghost use Rattle.std.specs.Prelude.{◌≡◌, IfOk};
ghost use Rattle.dsedge_base.specs.Files.{files_of, in_json_of, names_of};

use device_core::Device;
use ds_broker::Limits;
use ds_quotes::Asked;
use dsedge_lines::GivenName;
use meter_book_base::AnyMeter;
use moment_core::Rate;
use std::alloc::{AllocError, Global};
use std::marker::Model;

/// What the words of a command line ask for.
#[derive(Debug, Drop)]
pub enum Plan<'a> {
    /// Show this text on standard output: help, or the version.
    Show(String),
    /// Meter the arrivals of standard input with this meter.
    Meter {
        /// The meter.
        meter: AnyMeter,
        /// Whether the levels that packets leave in its buckets are told.
        has_levels: bool,
        /// Whether its accounts are told as an object of JSON.
        in_json: bool,
    },
    /// Test whether the sized moments of standard input keep an envelope.
    Envelope {
        /// The rate of the envelope.
        rate: Rate,
        /// Its burst, in bytes: 0 to 10^15.
        burst: u64,
        /// Whether that is answered with an object of JSON.
        in_json: bool,
    },
    /// Give the least certificate of a domain and its contracts.
    Certify {
        /// The file of the domain.
        domain: GivenName<'a>,
        /// Whether that is answered with an object of JSON.
        in_json: bool,
    },
    /// Check a certificate of a domain and its contracts.
    Check {
        /// The file of the domain.
        domain: GivenName<'a>,
        /// The file of the certificate.
        certificate: GivenName<'a>,
        /// Whether that is answered with an object of JSON.
        in_json: bool,
    },
    /// Tell what is taken and what there is at each meter of a domain.
    Headroom {
        /// The file of the domain.
        domain: GivenName<'a>,
        /// Whether that is answered with an object of JSON.
        in_json: bool,
    },
    /// Draw a domain, its contracts and what is taken at each meter.
    Draw {
        /// The file of the domain.
        domain: GivenName<'a>,
    },
    /// Tell the greatest value of a field of a contract of a domain that fits beside the others, or how many like it fit.
    Quote {
        /// The file of the domain.
        domain: GivenName<'a>,
        /// The name of the contract.
        contract: GivenName<'a>,
        /// What is asked for.
        asked: Asked,
        /// Whether that is answered with an object of JSON.
        in_json: bool,
    },
    /// Tell the words that set a device to a meter of a domain, what it makes of them, and whether the checker accepts the
    /// domain so.
    Export {
        /// The file of the domain.
        domain: GivenName<'a>,
        /// The name of the meter.
        meter: GivenName<'a>,
        /// The device.
        device: Device,
    },
    /// Judge the run of standard input over a domain with a certificate of its contracts.
    Audit {
        /// The file of the domain.
        domain: GivenName<'a>,
        /// The file of the certificate.
        certificate: GivenName<'a>,
        /// Whether that is answered with an object of JSON.
        in_json: bool,
    },
    /// Sell the contracts of a domain by the commands of standard input.
    Drive {
        /// The file of the domain.
        domain: GivenName<'a>,
        /// How many contracts its book holds, and how many commands it accepts.
        limits: Limits,
        /// The file that keeps its book, if one does.
        book: Option<GivenName<'a>>,
        /// Whether commands are answered with objects of JSON.
        in_json: bool,
    },
    /// Tell what a broker's book of a domain holds.
    Book {
        /// The file of the domain.
        domain: GivenName<'a>,
        /// The file that keeps the book.
        book: GivenName<'a>,
        /// Whether that is told as a domain text.
        to_domain: bool,
    },
    /// Mark the capture of standard input at a port of a domain with a certificate of its contracts.
    Mark {
        /// The file of the domain.
        domain: GivenName<'a>,
        /// The file of the certificate.
        certificate: GivenName<'a>,
        /// The port that the frames come in at.
        port: GivenName<'a>,
        /// How many workers mark: 1 to 64, or as many as the machine gains from where that is left out.
        workers: Option<u32>,
        /// Whether red frames stay in the capture, or are left out.
        keeps_red: bool,
        /// Whether the verdict on the run behind the capture is told.
        has_verdict: bool,
        /// Whether the report is told as an object of JSON, with the verdict.
        in_json: bool,
    },
    /// Tell the packets of the capture of standard input.
    Arrivals {
        /// The port that they come in at; none where every packet is told whose header can be read.
        place: Option<GivenPort<'a>>,
        /// Whether colours are told.
        has_colours: bool,
    },
}

/// A port of a domain, and perhaps one contract there.
#[derive(Debug, Drop)]
pub struct GivenPort<'a> {
    /// The file of the domain.
    pub domain: GivenName<'a>,
    /// The port that packets come in at.
    pub port: GivenName<'a>,
    /// The contract whose packets are asked for alone, if one is.
    pub contract: Option<GivenName<'a>>,
}

/// The names that a domain has to have: of a port, and of a contract; empty where a plan names none.
#[derive(Drop)]
pub struct PlanNames<'a> {
    /// That of a port.
    pub port: &'a str,
    /// That of a contract.
    pub contract: &'a str,
}

impl<'a> Model for PlanNames<'a> {
    ghost use Rattle.dsedge_base.specs.Files.{Names};

    ghost Value = { Names };

    ghost view = { λ n. record { port = n.port.now; contract = n.contract.now } };
}

impl<'a> Plan<'a> {
    /// The names of the files that are to be read, in the order of the words.
    pub fn files(&self, alloc: Global) -> Result<Vec<GivenName<'a>>, AllocError>
        ensures { IfOk result (λ names. names.items ≡ files_of self.now) }
    {
        let mut names = Vec::new(alloc);
        match self {
            Plan::Show(_)
            | Plan::Meter { .. }
            | Plan::Envelope { .. }
            | Plan::Arrivals { place: None, .. } => {}
            Plan::Arrivals {
                place: Some(place),
                ..
            } => names.push(GivenName::new(place.domain.text()))?,
            Plan::Certify { domain, .. }
            | Plan::Headroom { domain, .. }
            | Plan::Draw { domain }
            | Plan::Quote { domain, .. }
            | Plan::Export { domain, .. }
            | Plan::Drive { domain, .. }
            | Plan::Book { domain, .. } => names.push(GivenName::new(domain.text()))?,
            Plan::Check {
                domain,
                certificate,
                ..
            }
            | Plan::Audit {
                domain,
                certificate,
                ..
            }
            | Plan::Mark {
                domain,
                certificate,
                ..
            } => {
                names.push(GivenName::new(domain.text()))?;
                names.push(GivenName::new(certificate.text()))?;
            }
        }
        Ok(names)
    }

    /// The names that a domain has to have: of the port at which a capture is to be marked or told, and of the contract
    /// of a quote, or whose packets are told alone.
    pub fn names(&self) -> PlanNames<'_>
        ensures { result ≡ names_of self.now }
    {
        PlanNames {
            port: self.port(),
            contract: self.contract(),
        }
    }

    /// Whether it asks for objects of JSON.
    pub fn in_json(&self) -> bool
        ensures { result ≡ in_json_of self.now }
    {
        match self {
            Plan::Meter { in_json, .. }
            | Plan::Envelope { in_json, .. }
            | Plan::Certify { in_json, .. }
            | Plan::Check { in_json, .. }
            | Plan::Headroom { in_json, .. }
            | Plan::Quote { in_json, .. }
            | Plan::Audit { in_json, .. }
            | Plan::Drive { in_json, .. }
            | Plan::Mark { in_json, .. } => *in_json,
            Plan::Show(_)
            | Plan::Draw { .. }
            | Plan::Export { .. }
            | Plan::Book { .. }
            | Plan::Arrivals { .. } => false,
        }
    }

    /// The name of a port, an empty one where the plan names none.
    fn port(&self) -> &str
        ensures { result.now ≡ (names_of self.now).port }
    {
        match self {
            Plan::Mark { port, .. } => port.text(),
            Plan::Arrivals {
                place: Some(place),
                ..
            } => place.port.text(),
            _ => "",
        }
    }

    /// The name of a contract, an empty one where the plan names none.
    fn contract(&self) -> &str
        ensures { result.now ≡ (names_of self.now).contract }
    {
        match self {
            Plan::Quote { contract, .. } => contract.text(),
            Plan::Arrivals {
                place: Some(
                    GivenPort {
                        contract: Some(contract),
                        ..
                    },
                ),
                ..
            } => contract.text(),
            _ => "",
        }
    }
}
