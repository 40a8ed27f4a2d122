use crate::watch::Watch;
use pcap_capture::{DeviceFault, Intake, Outlet};

/// An intake that gives exactly what the one within it gives, and tells a watch how many bytes that is so far.
#[derive(Drop)]
pub struct WatchedIntake<'a, I, W> {
    intake: I,
    bytes: u64,
    watch: Option<&'a W>,
}

impl<'a, I, W> WatchedIntake<'a, I, W> {
    /// An intake of which no byte is taken, with its watch, if there is one.
    pub fn new(intake: I, watch: Option<&'a W>) -> Self {
        WatchedIntake {
            intake,
            bytes: 0,
            watch,
        }
    }
}

impl<I: Intake, W: Watch> Intake for WatchedIntake<'_, I, W> {
    ghost tells = { λ watched. I.tells watched.intake };

    ghost left = { λ watched. I.left watched.intake };

    ghost failed = { λ watched. I.failed watched.intake };

    ghost calls = { λ watched. I.calls watched.intake };

    ghost few = { λ watched. I.few watched.intake };

    fn take(&mut self, buffer: &mut [u8]) -> Result<usize, DeviceFault> {
        let taken = self.intake.take(buffer);
        if let (Some(watch), Ok(count)) = (self.watch, taken) {
            self.bytes = self.bytes.saturating_add(count as u64);
            watch.read(self.bytes);
        }
        taken
    }

    fn failures(&self) -> u64 {
        self.intake.failures()
    }
}

/// An outlet that hands over exactly what it is given to the one within it, and lets a watch know before.
#[derive(Drop)]
pub struct WatchedOutlet<'a, O, W> {
    outlet: O,
    watch: Option<&'a W>,
}

impl<'a, O, W> WatchedOutlet<'a, O, W> {
    /// An outlet, with the watch that writes at the same place, if there is one.
    pub fn new(outlet: O, watch: Option<&'a W>) -> Self {
        WatchedOutlet { outlet, watch }
    }
}

impl<O: Outlet, W: Watch> Outlet for WatchedOutlet<'_, O, W> {
    ghost tells = { λ watched. O.tells watched.outlet };

    ghost held = { λ watched. O.held watched.outlet };

    ghost failed = { λ watched. O.failed watched.outlet };

    fn give(&mut self, piece: &[u8]) -> Result<usize, DeviceFault> {
        if let Some(watch) = self.watch {
            watch.clear();
        }
        self.outlet.give(piece)
    }

    fn failures(&self) -> u64 {
        self.outlet.failures()
    }
}
