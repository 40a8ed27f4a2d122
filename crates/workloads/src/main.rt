//! The jobs that a user of the program waits for: each makes inputs of real shape and size from a seed, gives them to
//! the program's commands, and prints a digest of all that these write, tell and end with. For `bench/run`.
//!
//! `workloads sell SEED DAYS OFFERED HELD COMMANDS`, `workloads mark SEED CAPTURES RECORDS`,
//! `workloads mark4 SEED CAPTURES RECORDS`, which is `mark` by four workers,
//! `workloads hold SEED CAPTURES RECORDS`, `workloads audit SEED RUNS PACKETS`,
//! `workloads texts SEED METERS STRIDES CONTRACTS`.
#![tactic(auto)]

mod asking;
mod auditing;
mod capturing;
mod digest;
mod domains;
mod job;
mod marking;
mod numbers;
mod selling;
mod texts;

use crate::digest::Digest;
use crate::job::{Job, perform};
use std::process::ExitCode;
use std::{env, io};

fn main(rt: HostRuntime) -> io::Result<ExitCode> {
    let alloc = rt.alloc();
    let mut words = Vec::new(alloc);
    for word in env::args(&rt)?.skip(1) {
        words.push(word)?;
    }
    let Some(job) = Job::of(words.as_slice()) else {
        return Ok(ExitCode::from(2));
    };
    let mut digest = Digest::new();
    perform(&rt, alloc, job, &mut digest)?;
    println!(rt; "{}", digest.value())?;
    Ok(ExitCode::SUCCESS)
}
