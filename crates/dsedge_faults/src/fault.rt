ghost use Rattle.std.specs.Prelude.{◌≡◌, ◌++◌, List, ℕ, codes, MatchResult, is_ok, if◌then◌else◌};
ghost use Rattle.pcap_capture.specs.Counts.{next_count};
ghost use Rattle.pcap_capture.specs.Fronts.{IsFrontOf};
ghost use Rattle.dsedge_faults.specs.Advised.{advice_on};
ghost use Rattle.dsedge_faults.specs.Faults.{book_status, broker_refusal_text, ledger_fault_text};
ghost use Rattle.dsedge_faults.specs.Faults.{capture_kind_text, certificate_kind_text, coded_text, fault_text};
ghost use Rattle.dsedge_faults.specs.Faults.{shown, status_of};

use crate::advice::Advice;
use crate::parts::give_parts;
use crate::shown::give_shown;
use ds_broker::BrokerRefusal;
use ds_certificate::CertificateFault;
use ds_domain_base::DomainFault;
use ds_ledger_base::{BookFault, LedgerFault, RefusedReplay};
use dsedge_lines::GivenName;
use dsedge_texts::{FaultyLine, Reason, kind_text, text_or_dash};
use itoa::Buffer;
use pcap_capture::{DeviceFault, Outlet, PcapFault, give_all};

/// Why the program did not do all that it was asked for.
#[derive(Debug, Drop)]
pub enum Fault<'a> {
    /// The words are not those of a command.
    Usage,
    /// The line of this number, from 1, is no line of the command.
    Line(u64),
    /// The text of the domain has a fault.
    Domain(DomainFault),
    /// The text of the certificate has a fault, in this line.
    Certificate(FaultyLine),
    /// The capture has a fault.
    Capture(PcapFault),
    /// The domain has no port of this name.
    Port(GivenName<'a>),
    /// The domain has no contract of this name.
    Contract(GivenName<'a>),
    /// The file of this name cannot be read, or has more than 16 MiB, for this reason.
    File(GivenName<'a>, Reason),
    /// The book of a broker could not be opened or kept, or the domain refuses what it sold.
    Book(BookFault),
    /// The input could not be read.
    Read,
    /// The output could not be written.
    Write,
    /// Memory ran out.
    Memory,
    /// A journal is full.
    Full,
}

impl Fault<'_> {
    /// The exit status: 2 usage, 3 input, 4 device, 5 memory or a full journal.
    pub fn status(&self) -> u8
        ensures { result ≡ status_of self.now }
    {
        match self {
            Fault::Usage => 2,
            Fault::Line(_)
            | Fault::Domain(_)
            | Fault::Certificate(_)
            | Fault::Capture(_)
            | Fault::Port(_)
            | Fault::Contract(_) => 3,
            Fault::Book(fault) => book_status(fault),
            Fault::File(..) | Fault::Read | Fault::Write => 4,
            Fault::Memory | Fault::Full => 5,
        }
    }

    /// What there is to say behind the fault's line, if anything.
    pub fn advice(&self) -> Option<Advice>
        ensures { result ≡ advice_on self.now }
    {
        match self {
            Fault::Usage => Some(Advice::Words),
            Fault::File(_, reason) => Some(Advice::File(*reason)),
            Fault::Certificate(place) => Some(Advice::Certificate(*place)),
            Fault::Capture(PcapFault::LinkType(number)) => Some(Advice::LinkType(*number)),
            Fault::Capture(PcapFault::RecordTooLong(count)) => Some(Advice::RecordTooLong(*count)),
            _ => None,
        }
    }

    /// Writes the fault's line, `dsedge: ..`.
    pub fn tell<F: Outlet>(&self, faults: &mut F) -> Result<(), DeviceFault>
        ensures told { F.tells faults.old → F.tells faults.new }
        ensures line { F.tells faults.old → MatchResult result
            (λ _. F.held faults.new ≡ F.held faults.old ++ fault_text self.now)
            (λ _. IsFrontOf (F.held faults.old) (fault_text self.now) (F.held faults.new)) }
        ensures failures { F.failed faults.new
            ≡ (if is_ok result then F.failed faults.old else next_count (F.failed faults.old)) }
    {
        match self {
            Fault::Usage => give_all(faults, b"dsedge: usage\n"),
            Fault::Line(number) => {
                tell_line("dsedge: line ", Buffer::new().format(*number), faults)
            }
            Fault::Domain(fault) => tell_domain(fault, faults),
            Fault::Certificate(place) => {
                tell_kind(
                    "dsedge: certificate ",
                    place.fault.code(),
                    certificate_kind(place.fault),
                    faults,
                )
            }
            Fault::Capture(fault) => {
                tell_kind(
                    "dsedge: capture ",
                    fault.code(),
                    capture_kind(*fault),
                    faults,
                )
            }
            Fault::Port(name) => tell_name("dsedge: port ", name.text(), faults),
            Fault::Contract(name) => tell_name("dsedge: contract ", name.text(), faults),
            Fault::File(name, _) => tell_name("dsedge: file ", name.text(), faults),
            Fault::Book(BookFault::Ledger(fault)) => {
                tell_line("dsedge: book ", ledger_text(*fault), faults)
            }
            Fault::Book(BookFault::Command(refused)) => tell_refused(refused, faults),
            Fault::Read => give_all(faults, b"dsedge: read\n"),
            Fault::Write => give_all(faults, b"dsedge: write\n"),
            Fault::Memory => give_all(faults, b"dsedge: memory\n"),
            Fault::Full => give_all(faults, b"dsedge: full\n"),
        }
    }
}

/// The exit status of a fault of a book: 3 where the file is none of a book that the domain can go on from, 4 where it is
/// taken or fails, 5 where memory ran out.
fn book_status(fault: &BookFault) -> u8
    ensures { result ≡ book_status fault.now }
{
    match fault {
        BookFault::Ledger(LedgerFault::NoDatabase | LedgerFault::Damaged | LedgerFault::Form)
        | BookFault::Command(_) => 3,
        BookFault::Ledger(LedgerFault::Busy | LedgerFault::Open | LedgerFault::Write) => 4,
        BookFault::Ledger(LedgerFault::NoMemory) => 5,
    }
}

/// How a fault of a ledger is written.
pub fn ledger_text(fault: LedgerFault) -> &'static str
    ensures { result.now ≡ ledger_fault_text fault }
{
    match fault {
        LedgerFault::NoDatabase => "NoDatabase",
        LedgerFault::Damaged => "Damaged",
        LedgerFault::Form => "Form",
        LedgerFault::Busy => "Busy",
        LedgerFault::Open => "Open",
        LedgerFault::Write => "Write",
        LedgerFault::NoMemory => "NoMemory",
    }
}

/// How it is written why a book refuses a command that it sold before.
pub fn refusal_text(refusal: &BrokerRefusal) -> &'static str
    ensures { result.now ≡ broker_refusal_text refusal.now }
{
    match refusal {
        BrokerRefusal::Contract(fault) => kind_text(fault.kind),
        BrokerRefusal::TableFull => "TableFull",
        BrokerRefusal::Checker(_) => "Checker",
        BrokerRefusal::UnknownId => "UnknownId",
        BrokerRefusal::AlreadyReleased => "AlreadyReleased",
        BrokerRefusal::HistoryFull => "HistoryFull",
        BrokerRefusal::NoMemory => "NoMemory",
        BrokerRefusal::NotReleased => "NotReleased",
        BrokerRefusal::HoldLeft(_) => "HoldLeft",
    }
}

/// Writes the line of a command that its book refuses now, `dsedge: book SERIAL REFUSAL`.
fn tell_refused<F: Outlet>(refused: &RefusedReplay, faults: &mut F) -> Result<(), DeviceFault>
    ensures told { F.tells faults.old → F.tells faults.new }
    ensures line { F.tells faults.old → MatchResult result
        (λ _. F.held faults.new ≡ F.held faults.old ++ fault_text (Fault.Book (BookFault.Command refused.now)))
        (λ _. IsFrontOf (F.held faults.old) (fault_text (Fault.Book (BookFault.Command refused.now)))
        (F.held faults.new)) }
    ensures failures { F.failed faults.new
        ≡ (if is_ok result then F.failed faults.old else next_count (F.failed faults.old)) }
{
    give_parts(
        faults,
        &[
            "dsedge: book ",
            Buffer::new().format(refused.serial),
            " ",
            refusal_text(&refused.refusal),
            "\n",
        ],
    )
}

/// Writes a line of two texts.
fn tell_line<F: Outlet>(front: &str, back: &str, faults: &mut F) -> Result<(), DeviceFault>
    ensures told { F.tells faults.old → F.tells faults.new }
    ensures line { F.tells faults.old → let line = front.now ++ (back.now ++ codes "\n") in MatchResult result
        (λ _. F.held faults.new ≡ F.held faults.old ++ line)
        (λ _. IsFrontOf (F.held faults.old) line (F.held faults.new)) }
    ensures failures { F.failed faults.new
        ≡ (if is_ok result then F.failed faults.old else next_count (F.failed faults.old)) }
{
    give_parts(faults, &[front, back, "\n"])
}

/// Writes a line of a text, a number and a kind.
fn tell_kind<F: Outlet>(
    front: &str,
    code: u8,
    kind: &str,
    faults: &mut F,
) -> Result<(), DeviceFault>
    ensures told { F.tells faults.old → F.tells faults.new }
    ensures line { F.tells faults.old → let line = front.now ++ (coded_text code kind.now ++ codes "\n") in MatchResult result
        (λ _. F.held faults.new ≡ F.held faults.old ++ line)
        (λ _. IsFrontOf (F.held faults.old) line (F.held faults.new)) }
    ensures failures { F.failed faults.new
        ≡ (if is_ok result then F.failed faults.old else next_count (F.failed faults.old)) }
{
    give_parts(
        faults,
        &[front, Buffer::new().format(code), " ", kind, "\n"],
    )
}

/// Writes a line of a text and a name, whose control characters are shown as `?`.
fn tell_name<F: Outlet>(front: &str, name: &str, faults: &mut F) -> Result<(), DeviceFault>
    ensures told { F.tells faults.old → F.tells faults.new }
    ensures line { F.tells faults.old → let line = front.now ++ (shown name.now ++ codes "\n") in MatchResult result
        (λ _. F.held faults.new ≡ F.held faults.old ++ line)
        (λ _. IsFrontOf (F.held faults.old) line (F.held faults.new)) }
    ensures failures { F.failed faults.new
        ≡ (if is_ok result then F.failed faults.old else next_count (F.failed faults.old)) }
{
    give_all(faults, front.as_bytes())?;
    give_shown(name, faults)?;
    give_all(faults, b"\n")
}

/// Writes the line of a domain's fault, `dsedge: domain CODE KIND SECTION INDEX FIELD`.
fn tell_domain<F: Outlet>(fault: &DomainFault, faults: &mut F) -> Result<(), DeviceFault>
    ensures told { F.tells faults.old → F.tells faults.new }
    ensures line { F.tells faults.old → MatchResult result
        (λ _. F.held faults.new ≡ F.held faults.old ++ fault_text (Fault.Domain fault.now))
        (λ _. IsFrontOf (F.held faults.old) (fault_text (Fault.Domain fault.now)) (F.held faults.new)) }
    ensures failures { F.failed faults.new
        ≡ (if is_ok result then F.failed faults.old else next_count (F.failed faults.old)) }
{
    give_parts(
        faults,
        &[
            "dsedge: domain ",
            Buffer::new().format(fault.code()),
            " ",
            kind_text(fault.kind),
            " ",
            fault.section.text(),
            " ",
            Buffer::new().format(fault.index as u64),
            " ",
            text_or_dash(fault.field.text()),
            "\n",
        ],
    )
}

/// How the kind of a fault of a certificate is written.
pub fn certificate_kind(fault: CertificateFault) -> &'static str
    ensures { result.now ≡ certificate_kind_text fault }
{
    match fault {
        CertificateFault::Text => "Text",
        CertificateFault::Shape => "Shape",
        CertificateFault::Range => "Range",
        CertificateFault::NoMemory => "NoMemory",
    }
}

/// How the kind of a fault of a capture is written.
pub fn capture_kind(fault: PcapFault) -> &'static str
    ensures { result.now ≡ capture_kind_text fault }
{
    match fault {
        PcapFault::NotPcap => "NotPcap",
        PcapFault::IsPcapng => "IsPcapng",
        PcapFault::BadVersion => "BadVersion",
        PcapFault::LinkType(_) => "LinkType",
        PcapFault::RecordTooLong(_) => "RecordTooLong",
        PcapFault::Truncated => "Truncated",
        PcapFault::ReadFault => "ReadFault",
        PcapFault::WriteFault => "WriteFault",
        PcapFault::NoMemory => "NoMemory",
        PcapFault::Failed => "Failed",
        PcapFault::BadMagic => "BadMagic",
        PcapFault::BadLength(_) => "BadLength",
        PcapFault::BlockTooLong(_) => "BlockTooLong",
        PcapFault::LengthsDiffer => "LengthsDiffer",
        PcapFault::UnknownInterface(_) => "UnknownInterface",
    }
}
