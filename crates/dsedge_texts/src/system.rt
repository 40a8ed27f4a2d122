ghost use Rattle.std.specs.Prelude.{None};

use crate::fault::{FileFault, Reason};
use crate::folder::Folder;
use crate::whole::read_whole;
use pcap_capture::ReadIntake;
use std::alloc::Global;
use std::fs;
use std::io::{Error, Read};
use std::rt::Files;

/// The files of the system, by their paths.
#[derive(Drop)]
pub struct SystemFolder<'a, R> {
    runtime: &'a R,
}

impl<'a, R> SystemFolder<'a, R> {
    /// The files that a runtime reaches.
    pub fn new(runtime: &'a R) -> Self {
        SystemFolder { runtime }
    }
}

/// The reason that the system's error tells, or else this one.
fn reason_of(error: &Error, otherwise: Reason) -> Reason {
    match error.raw_os_error() {
        Some(number) => Reason::System(number),
        None => otherwise,
    }
}

/// Why a file that failed while it was read did so: it is asked once more.
fn failure_of<F: Read>(file: &mut F) -> Reason {
    match file.read(&mut [0]) {
        Ok(_) => Reason::Failed,
        Err(error) => reason_of(&error, Reason::Failed),
    }
}

impl<R: Files> Folder for SystemFolder<'_, R> {
    ghost tells = { λ _. ⊥ };

    ghost holds = { λ _ _. None };

    fn read(&self, alloc: Global, name: &str) -> Result<Vec<u8>, FileFault> {
        let file = match fs::open(self.runtime, name) {
            Ok(file) => file,
            Err(error) => return Err(FileFault::Unreadable(reason_of(&error, Reason::Absent))),
        };
        let mut intake = ReadIntake::new(file);
        match read_whole(alloc, &mut intake) {
            Err(FileFault::Unreadable(Reason::Failed)) => {
                Err(FileFault::Unreadable(failure_of(&mut intake.reader)))
            }
            outcome => outcome,
        }
    }
}
