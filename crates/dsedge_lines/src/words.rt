ghost use Rattle.std.specs.Prelude.{◌≡◌, ℕ, ◌≤◌, ◌<◌, ◌⊎◌, false, [], ◌++◌, List, length, map, string_bytes, ◌∷◌, IfOk};
ghost use Rattle.std.specs.Prelude.{MatchOption, is_err, Err};
ghost use Rattle.std.specs.Str.{IsUtf8};
ghost use Rattle.line_text.specs.Lines.{fields_of};
ghost use Rattle.pcap_capture.specs.Counts.{IsOfReads};
ghost use Rattle.dsedge_lines.specs.FirstLine.{first_line_of, after_first_line, is_read_fault, first_line_fault_code};

use pcap_capture::{DeviceFault, Intake};
use std::alloc::{AllocError, Global};
use std::str::from_utf8;
use thiserror::Error;

/// The words of a command.
pub type Words = Vec<String>;

/// The most bytes of the first line, its LF not counted.
const LONGEST: usize = 65536;

/// Why the first line gives no words.
#[derive(Clone, Copy, Debug, PartialEq, Eq, Error)]
pub enum FirstLineFault {
    /// 1: the line has more than 65,536 bytes, or is not UTF-8.
    #[error("the first line is too long or no text")]
    Usage,
    /// 2: the line could not be read.
    #[error("the first line could not be read")]
    Read,
    /// 3: memory ran out.
    #[error("memory ran out")]
    NoMemory,
}

impl FirstLineFault {
    /// The number of the fault, 1 to 3.
    pub fn code(&self) -> u8
        ensures { result ≡ first_line_fault_code self.now }
    {
        match self {
            FirstLineFault::Usage => 1,
            FirstLineFault::Read => 2,
            FirstLineFault::NoMemory => 3,
        }
    }
}

/// The words of a line, which stand one space apart.
fn split_words(alloc: Global, line: &str) -> Result<Words, AllocError>
    ensures { IfOk result (λ words. map string_bytes words.items ≡ fields_of line.now) }
{
    let mut words = Vec::new(alloc);
    for word in line.split(' ') {
        words.push(String::from_str(alloc, word)?)?;
    }
    Ok(words)
}

/// Takes the next byte, if there is one.
fn next_byte<I: Intake>(intake: &mut I) -> Result<Option<u8>, DeviceFault>
    ensures told { I.tells intake.old → I.tells intake.new }
    ensures byte { I.tells intake.old → IfOk result (λ next. MatchOption next
        ((I.left intake.old ≡ []) × (I.left intake.new ≡ []))
        (λ byte. I.left intake.old ≡ byte ∷ I.left intake.new)) }
    ensures reads { IsOfReads (is_err result) (I.failed intake.old) (I.failed intake.new) (I.calls intake.new) }
{
    let mut byte = [0u8; 1];
    let taken = intake.take(&mut byte)?;
    if taken == 0 {
        return Ok(None);
    }
    Ok(Some(byte[0]))
}

/// Takes the first line and its LF, a byte a call.
fn read_line<I: Intake>(alloc: Global, intake: &mut I) -> Result<Vec<u8>, FirstLineFault>
    ensures told { I.tells intake.old → I.tells intake.new }
    ensures line { I.tells intake.old → IfOk result (λ line.
        (line.items ≡ first_line_of (I.left intake.old))
        × (I.left intake.new ≡ after_first_line (I.left intake.old))
        × (length line.items ≤ 65536)) }
    ensures long { I.tells intake.old → result ≡ Err FirstLineFault.Usage →
        65536 < length (first_line_of (I.left intake.old)) }
    ensures reads { IsOfReads (is_read_fault result) (I.failed intake.old) (I.failed intake.new) (I.calls intake.new) }
{
    let mut line = Vec::new(alloc);
    for _turn in 0..LONGEST + 1 {
        match next_byte(intake) {
            Ok(None) => return Ok(line),
            Ok(Some(byte)) => {
                if byte == b'\n' {
                    return Ok(line);
                }
                let Ok(()) = line.push(byte) else {
                    return Err(FirstLineFault::NoMemory);
                };
            }
            Err(_) => return Err(FirstLineFault::Read),
        }
    }
    Err(FirstLineFault::Usage)
}

/// Takes the first line of an input and its LF, a byte a call, and gives its words, which stand one
/// space apart.
pub fn first_line<I: Intake>(alloc: Global, intake: &mut I) -> Result<Words, FirstLineFault>
    ensures told { I.tells intake.old → I.tells intake.new }
    ensures words { I.tells intake.old → IfOk result (λ words.
        let line = first_line_of (I.left intake.old) in
        (map string_bytes words.items ≡ fields_of line) × (length line ≤ 65536) × IsUtf8 line) }
    ensures taken { I.tells intake.old → IfOk result (λ _.
        I.left intake.new ≡ after_first_line (I.left intake.old)) }
    ensures usage { I.tells intake.old → result ≡ Err FirstLineFault.Usage →
        let line = first_line_of (I.left intake.old) in (65536 < length line) ⊎ (¬ IsUtf8 line) }
    ensures reads { IsOfReads (is_read_fault result) (I.failed intake.old) (I.failed intake.new) (I.calls intake.new) }
{
    let line = read_line(alloc, intake)?;
    let Ok(text) = from_utf8(line.as_slice()) else {
        return Err(FirstLineFault::Usage);
    };
    match split_words(alloc, text) {
        Ok(words) => Ok(words),
        Err(_) => Err(FirstLineFault::NoMemory),
    }
}
