//! `dsedge`: a traffic conditioner for the edge of a DiffServ domain (RFC 2475).
#![tactic(auto)]

mod cabinet;
mod screen;
mod watch;
mod watched;

use crate::cabinet::Cabinet;
use crate::screen::Screen;
use crate::watch::Watch;
use crate::watched::{WatchedIntake, WatchedOutlet};
use ds_ledger_base::Shelf;
use dsedge_lines::Words;
use dsedge_serve::{AtTerminal, run};
use dsedge_texts::Folder;
use pcap_capture::{Intake, Outlet, ReadIntake, WriteOutlet};
use std::env;
use std::io::{self, IsTerminal};
use std::process::ExitCode;
use std::rt::Env;
use std::sync::Wait;
use std::thread::Threads;

/// The words of the command line, the first of which is the program's name.
fn command_line<R: Env + AllocGlobal>(rt: &R) -> io::Result<Words> {
    Ok(env::args(rt)?.collect::<Words>(rt.alloc())?)
}

/// Runs the program with this folder and these devices, and gives its exit status. It names no type of theirs, since a
/// call of `run` is dear to prove at one that has a lifetime.
fn run_in<W: Wait + Threads + Sync, D: Folder + Shelf, I: Intake, O: Outlet, F: Outlet>(
    rt: &HostRuntime,
    waiting: &W,
    folder: &D,
    intake: &mut I,
    output: &mut O,
    faults: &mut F,
) -> u8 {
    run(
        rt.alloc(),
        waiting,
        command_line(rt),
        AtTerminal::of(&rt.stderr()),
        folder,
        intake,
        output,
        faults,
    )
}

/// Runs the program with the files of the system and these devices.
fn run_with<W: Wait + Threads + Sync, I: Intake, O: Outlet, F: Outlet>(
    rt: &HostRuntime,
    waiting: &W,
    intake: &mut I,
    output: &mut O,
    faults: &mut F,
) -> u8 {
    run_in(rt, waiting, &Cabinet::new(rt), intake, output, faults)
}

/// Runs the program on standard input, under the eye of a watch, if there is one.
fn run_on_input<W: Wait + Threads + Sync, O: Outlet, F: Outlet>(
    rt: &HostRuntime,
    waiting: &W,
    watch: Option<&Screen<'_>>,
    output: &mut O,
    faults: &mut F,
) -> u8 {
    let mut intake = WatchedIntake::new(ReadIntake::new(rt.stdin()), watch);
    run_with(rt, waiting, &mut intake, output, faults)
}

/// Runs the program on standard input and standard output, likewise.
fn run_to_output<W: Wait + Threads + Sync, F: Outlet>(
    rt: &HostRuntime,
    waiting: &W,
    watch: Option<&Screen<'_>>,
    faults: &mut F,
) -> u8 {
    let beside = if rt.stdout().is_terminal() {
        watch
    } else {
        None
    };
    let mut output = WatchedOutlet::new(WriteOutlet::new(rt.stdout()), beside);
    run_on_input(rt, waiting, watch, &mut output, faults)
}

/// Runs the program on the devices of the system, likewise.
fn run_watched<W: Wait + Threads + Sync>(
    rt: &HostRuntime,
    waiting: &W,
    watch: Option<&Screen<'_>>,
) -> u8 {
    let mut faults = WatchedOutlet::new(WriteOutlet::new(rt.stderr()), watch);
    run_to_output(rt, waiting, watch, &mut faults)
}

fn main(rt: HostRuntime) -> ExitCode {
    let screen = Screen::new(&rt);
    let status = run_watched(&rt, &rt, screen.as_ref());
    if let Some(screen) = &screen {
        screen.clear();
    }
    ExitCode::from(status)
}
