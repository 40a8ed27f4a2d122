ghost use Rattle.std.specs.Prelude.{◌≡◌, ◌++◌, List, ℕ, MatchResult, is_ok, map, string_bytes, if◌then◌else◌};
ghost use Rattle.pcap_capture.specs.Counts.{next_count};
ghost use Rattle.pcap_capture.specs.Fronts.{IsFrontOf};
ghost use Rattle.dsedge_faults.specs.Advised.{IsAdvised, IsAdviceText, IsExplanationText, IsReasonText};
ghost use Rattle.dsedge_faults.specs.Advised.{certificate_advice, explanation_text, value_text};
ghost use Rattle.dsedge_faults.specs.Advised.{link_type_advice, place_advice, record_advice};
ghost use Rattle.dsedge_faults.specs.Faults.{IsTold};

use crate::advice::Advice;
use crate::parts::give_parts;
use ds_certificate::CertificateFault;
use dsedge_base::{Explanation, explain};
use dsedge_texts::{FaultyLine, Reason};
use itoa::Buffer;
use pcap_capture::{DeviceFault, Outlet, give_all};
use std::alloc::Global;
use std::io::Error;

/// Says what there is to say behind a fault's line, if anything, where faults are read at a terminal. A failure to write
/// it is passed over.
///
/// `words` are those of the command line, without the program's name.
pub fn advise<F: Outlet>(
    alloc: Global,
    words: &[String],
    at_terminal: bool,
    advice: Option<Advice>,
    faults: &mut F,
)
    ensures { F.tells faults.old →
        IsAdvised at_terminal (map string_bytes words.now) advice (F.held faults.old) (F.held faults.new)
        (F.failed faults.old) (F.failed faults.new) }
{
    if !at_terminal {
        return;
    }
    let Some(advice) = advice else {
        return;
    };
    let _told = tell_advice(alloc, words, advice, faults);
}

/// Writes what an advice says.
fn tell_advice<F: Outlet>(
    alloc: Global,
    words: &[String],
    advice: Advice,
    faults: &mut F,
) -> Result<(), DeviceFault>
    ensures line { F.tells faults.old →
        (text : List ℕ) × IsAdviceText (map string_bytes words.now) advice text × MatchResult result
        (λ _. F.held faults.new ≡ F.held faults.old ++ text)
        (λ _. IsFrontOf (F.held faults.old) text (F.held faults.new)) }
    ensures failures { F.failed faults.new
        ≡ (if is_ok result then F.failed faults.old else next_count (F.failed faults.old)) }
{
    match advice {
        Advice::Words => tell_explanation(alloc, words, faults),
        Advice::File(reason) => tell_reason(alloc, reason, faults),
        Advice::Certificate(place) => tell_place(place, faults),
        Advice::LinkType(number) => tell_link_type(number, faults),
        Advice::RecordTooLong(count) => tell_record(count, faults),
    }
}

/// Writes why words give no plan. Where they were none, or memory runs out, nothing is written.
fn tell_explanation<F: Outlet>(
    alloc: Global,
    words: &[String],
    faults: &mut F,
) -> Result<(), DeviceFault>
    ensures line { F.tells faults.old →
        (text : List ℕ) × IsExplanationText (map string_bytes words.now) text × MatchResult result
        (λ _. F.held faults.new ≡ F.held faults.old ++ text)
        (λ _. IsFrontOf (F.held faults.old) text (F.held faults.new)) }
    ensures failures { F.failed faults.new
        ≡ (if is_ok result then F.failed faults.old else next_count (F.failed faults.old)) }
{
    let Some((command, _)) = words.split_first() else {
        return Ok(());
    };
    match explain(alloc, words) {
        Some(explanation) => tell_explained(&explanation, command.as_str(), faults),
        None => Ok(()),
    }
}

/// Writes an explanation of the words of a command.
fn tell_explained<F: Outlet>(
    explanation: &Explanation,
    command: &str,
    faults: &mut F,
) -> Result<(), DeviceFault>
    ensures line { F.tells faults.old → let text = explanation_text explanation.now command.now in MatchResult result
        (λ _. F.held faults.new ≡ F.held faults.old ++ text)
        (λ _. IsFrontOf (F.held faults.old) text (F.held faults.new)) }
    ensures failures { F.failed faults.new
        ≡ (if is_ok result then F.failed faults.old else next_count (F.failed faults.old)) }
{
    match explanation {
        Explanation::Form(text) => give_all(faults, text.as_bytes()),
        Explanation::Workers => tell_value(
            "a capture is marked by 1 to 64 workers, as --workers 4",
            command,
            faults,
        ),
        Explanation::Value => tell_value(
            "a value is none that its option takes, or an option goes with another kind of meter",
            command,
            faults,
        ),
    }
}

/// Writes what is wrong with a value of a command, and where help is.
fn tell_value<F: Outlet>(fault: &str, command: &str, faults: &mut F) -> Result<(), DeviceFault>
    ensures line { F.tells faults.old → let text = value_text fault.now command.now in MatchResult result
        (λ _. F.held faults.new ≡ F.held faults.old ++ text)
        (λ _. IsFrontOf (F.held faults.old) text (F.held faults.new)) }
    ensures failures { F.failed faults.new
        ≡ (if is_ok result then F.failed faults.old else next_count (F.failed faults.old)) }
{
    give_parts(
        faults,
        &[
            "error: ",
            fault,
            "\n\nFor more information, try 'dsedge ",
            command,
            " --help'.\n",
        ],
    )
}

/// Writes why a file cannot be read: the system's reason in its own words.
fn tell_reason<F: Outlet>(alloc: Global, reason: Reason, faults: &mut F) -> Result<(), DeviceFault>
    ensures line { F.tells faults.old → (text : List ℕ) × IsReasonText reason text × MatchResult result
        (λ _. F.held faults.new ≡ F.held faults.old ++ text)
        (λ _. IsFrontOf (F.held faults.old) text (F.held faults.new)) }
    ensures failures { F.failed faults.new
        ≡ (if is_ok result then F.failed faults.old else next_count (F.failed faults.old)) }
{
    match reason {
        Reason::Absent => give_all(faults, b"there is no such file\n"),
        Reason::System(number) => tell_system(alloc, number, faults),
        Reason::Failed => give_all(faults, b"it failed while it was read\n"),
        Reason::TooLong => give_all(faults, b"it has more than 16 MiB\n"),
    }
}

/// Writes what the system calls an error. Where memory runs out, nothing is written.
fn tell_system<F: Outlet>(alloc: Global, number: i32, faults: &mut F) -> Result<(), DeviceFault>
    ensures line { F.tells faults.old → (text : List ℕ) × MatchResult result
        (λ _. F.held faults.new ≡ F.held faults.old ++ text)
        (λ _. IsFrontOf (F.held faults.old) text (F.held faults.new)) }
    ensures failures { F.failed faults.new
        ≡ (if is_ok result then F.failed faults.old else next_count (F.failed faults.old)) }
{
    let error = Error::from_raw_os_error(number);
    match format!(in alloc; "{error}\n") {
        Ok(text) => give_all(faults, text.as_bytes()),
        Err(_) => Ok(()),
    }
}

/// Writes which line of a certificate is at fault, and how.
fn tell_place<F: Outlet>(place: FaultyLine, faults: &mut F) -> Result<(), DeviceFault>
    ensures line { F.tells faults.old → MatchResult result
        (λ _. F.held faults.new ≡ F.held faults.old ++ place_advice place)
        (λ _. IsFrontOf (F.held faults.old) (place_advice place) (F.held faults.new)) }
    ensures failures { F.failed faults.new
        ≡ (if is_ok result then F.failed faults.old else next_count (F.failed faults.old)) }
{
    give_parts(
        faults,
        &[
            "line ",
            Buffer::new().format(place.line as u64),
            ": ",
            certificate_advice(place.fault),
            "\n",
        ],
    )
}

/// How a line of a certificate is at fault.
fn certificate_advice(fault: CertificateFault) -> &'static str
    ensures { result.now ≡ certificate_advice fault }
{
    match fault {
        CertificateFault::Text => "a line is not one of a certificate",
        CertificateFault::Shape => "the certificate is not of these contracts",
        CertificateFault::Range => "a bound is out of range",
        CertificateFault::NoMemory => "out of memory",
    }
}

/// Writes which link type a capture has, which are read, and what makes a capture of one.
fn tell_link_type<F: Outlet>(number: u16, faults: &mut F) -> Result<(), DeviceFault>
    ensures line { F.tells faults.old → MatchResult result
        (λ _. F.held faults.new ≡ F.held faults.old ++ link_type_advice number)
        (λ _. IsFrontOf (F.held faults.old) (link_type_advice number) (F.held faults.new)) }
    ensures failures { F.failed faults.new
        ≡ (if is_ok result then F.failed faults.old else next_count (F.failed faults.old)) }
{
    give_parts(
        faults,
        &[
            "link type ",
            Buffer::new().format(number),
            " is none of those that are read: 0, 1 (Ethernet), 12, 14, 101 (raw IP), 108, 113, 228, 229 and 276\n",
            "Ethernet is captured by: tcpdump -i DEVICE -y EN10MB -w OUT.pcap\n",
            "where frames are of one of these, say so by: editcap -T ether|rawip|rawip4 IN.pcap OUT.pcap\n",
        ],
    )
}

/// Writes how many bytes a record is said to have, and how many are read.
fn tell_record<F: Outlet>(count: u32, faults: &mut F) -> Result<(), DeviceFault>
    ensures line { F.tells faults.old → MatchResult result
        (λ _. F.held faults.new ≡ F.held faults.old ++ record_advice count)
        (λ _. IsFrontOf (F.held faults.old) (record_advice count) (F.held faults.new)) }
    ensures failures { F.failed faults.new
        ≡ (if is_ok result then F.failed faults.old else next_count (F.failed faults.old)) }
{
    give_parts(
        faults,
        &[
            "a record says that it has ",
            Buffer::new().format(count),
            " bytes, and 262144 are the most: the capture is damaged there\n",
        ],
    )
}
