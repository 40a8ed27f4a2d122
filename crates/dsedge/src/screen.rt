use crate::watch::Watch;
use pcap_capture::{WriteOutlet, give_all};
use std::alloc::{AllocError, Global};
use std::cell::Cell;
use std::fmt::{self, Display, Formatter};
use std::fs;
use std::io::IsTerminal;
use std::rt::Files;
use std::time::Instant;

/// How long the work goes on before anything of it is told, in milliseconds.
const PATIENCE: u64 = 1000;

/// How long a line stands before the next takes its place, in milliseconds.
const PAUSE: u64 = 100;

/// Goes to the front of the line at a terminal, and removes what stands there.
const ERASE: &str = "\r\x1b[K";

/// A watch that tells at a terminal, on one line of standard error, how far the input is read.
#[derive(Drop)]
pub struct Screen<'a> {
    runtime: &'a HostRuntime,
    begun: Instant,
    /// How many bytes the input has, where it is a file.
    size: Option<u64>,
    /// When the next line is due, in milliseconds since the beginning.
    due: Cell<u64>,
    /// Whether a line stands.
    stands: Cell<bool>,
}

impl<'a> Screen<'a> {
    /// A watch, where standard error is a terminal and the input is none.
    pub fn new(runtime: &'a HostRuntime) -> Option<Self> {
        if !runtime.stderr().is_terminal() || runtime.stdin().is_terminal() {
            return None;
        }
        Some(Screen {
            runtime,
            begun: Instant::now(runtime).ok()?,
            size: input_size(runtime),
            due: Cell::new(PATIENCE),
            stands: Cell::new(false),
        })
    }

    /// How long it looks on, in milliseconds, where the clock tells.
    fn passed(&self) -> Option<u64> {
        let passed = self.begun.elapsed(self.runtime).ok()?;
        u64::try_from(passed.as_millis()).ok()
    }

    /// Writes a text to standard error. A failure is passed over.
    fn write(&self, text: &str) {
        let _told = give_all(
            &mut WriteOutlet::new(self.runtime.stderr()),
            text.as_bytes(),
        );
    }
}

impl Watch for Screen<'_> {
    fn read(&self, bytes: u64) {
        let Some(passed) = self.passed() else {
            return;
        };
        if passed < self.due.get() {
            return;
        }
        self.due.set(passed.saturating_add(PAUSE));
        if let Ok(line) = progress(self.runtime.alloc(), bytes, self.size, passed) {
            self.stands.set(true);
            self.write(line.as_str());
        }
    }

    fn clear(&self) {
        if self.stands.replace(false) {
            self.write(ERASE);
        }
    }
}

/// How many bytes standard input has, where it is a file.
fn input_size(files: &impl Files) -> Option<u64> {
    let input = fs::metadata(files, "/dev/stdin").ok()?;
    input.is_file().then_some(input.len())
}

/// A number of bytes, which is shown in megabytes.
#[derive(Clone, Copy)]
struct Megabytes(u64);

impl Display for Megabytes {
    fn fmt<W: fmt::Write>(&self, f: &mut Formatter<W>) -> fmt::Result {
        let tenths = self.0 / 100_000;
        write!(f, "{}.{} MB", tenths / 10, tenths % 10)
    }
}

/// How many of these bytes came in a second of this time, in milliseconds.
fn rate(bytes: u64, passed: u64) -> u64 {
    let rate = u128::from(bytes) * 1000 / u128::from(passed.max(1));
    u64::try_from(rate).unwrap_or(u64::MAX)
}

/// The line of a progress: the bytes that are read, of how many, and how many a second.
fn progress(
    alloc: Global,
    bytes: u64,
    size: Option<u64>,
    passed: u64,
) -> Result<String, AllocError> {
    let (read, speed) = (Megabytes(bytes), Megabytes(rate(bytes, passed)));
    match size {
        Some(size) => format!(in alloc; "{ERASE}{read} of {}, {speed}/s", Megabytes(size)),
        None => format!(in alloc; "{ERASE}{read}, {speed}/s"),
    }
}
