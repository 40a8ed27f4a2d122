use crate::auditing::audit;
use crate::digest::Digest;
use crate::marking::{hold, mark};
use crate::numbers::Numbers;
use crate::selling::sell;
use crate::texts::texts;
use std::alloc::{AllocError, Global};
use std::sync::Wait;
use std::thread::Threads;

/// Which job, and how much of it.
#[derive(Clone, Copy)]
pub(crate) enum Kind {
    Sell {
        days: u64,
        offered: u64,
        held: u64,
        commands: u64,
    },
    Mark {
        captures: u64,
        records: u64,
        workers: u32,
    },
    Hold {
        captures: u64,
        records: u64,
    },
    Audit {
        runs: u64,
        packets: u64,
    },
    Texts {
        meters: u64,
        strides: u64,
        contracts: u64,
    },
}

/// A job over the inputs of a seed.
#[derive(Clone, Copy)]
pub(crate) struct Job {
    kind: Kind,
    seed: u64,
}

impl Job {
    /// The job that words ask for, if they ask for one.
    pub(crate) fn of(words: &[String]) -> Option<Job> {
        let (name, figures) = words.split_first()?;
        let (seed, figures) = figures.split_first()?;
        let kind = kind_of(name.as_str(), figures)?;
        let seed = u64::from(seed.as_str().parse::<u32>().ok()?);
        Some(Job { kind, seed })
    }
}

/// The number that a word is, at most 2^24.
fn figure(word: &String) -> Option<u64> {
    let number = word.as_str().parse::<u32>().ok()?;
    if number <= 16_777_216 {
        Some(u64::from(number))
    } else {
        None
    }
}

fn kind_of(name: &str, figures: &[String]) -> Option<Kind> {
    match figures {
        [first, second] => of_two(name, figure(first)?, figure(second)?),
        [first, second, third] => of_three(name, [figure(first)?, figure(second)?, figure(third)?]),
        [first, second, third, fourth] => {
            let sizes = [figure(second)?, figure(third)?, figure(fourth)?];
            of_four(name, figure(first)?, sizes)
        }
        _ => None,
    }
}

fn of_two(name: &str, first: u64, second: u64) -> Option<Kind> {
    match name {
        "mark" => Some(Kind::Mark {
            captures: first,
            records: second,
            workers: 1,
        }),
        "mark4" => Some(Kind::Mark {
            captures: first,
            records: second,
            workers: 4,
        }),
        "hold" => Some(Kind::Hold {
            captures: first,
            records: second,
        }),
        "audit" => Some(Kind::Audit {
            runs: first,
            packets: second,
        }),
        _ => None,
    }
}

fn of_three(name: &str, [first, second, third]: [u64; 3]) -> Option<Kind> {
    match name {
        "texts" => Some(Kind::Texts {
            meters: first,
            strides: second,
            contracts: third,
        }),
        _ => None,
    }
}

fn of_four(name: &str, days: u64, [first, second, third]: [u64; 3]) -> Option<Kind> {
    match name {
        "sell" => Some(Kind::Sell {
            days,
            offered: first,
            held: second,
            commands: third,
        }),
        _ => None,
    }
}

/// Does a job, whose results the digest takes in.
pub(crate) fn perform(
    rt: &(impl Wait + Threads + Sync),
    alloc: Global,
    job: Job,
    digest: &mut Digest,
) -> Result<(), AllocError> {
    let mut numbers = Numbers::new(job.seed);
    match job.kind {
        Kind::Sell {
            days,
            offered,
            held,
            commands,
        } => {
            let sizes = [offered, held, commands];
            sell(rt, alloc, &mut numbers, days, sizes, digest)
        }
        Kind::Mark {
            captures,
            records,
            workers,
        } => mark(
            rt,
            alloc,
            &mut numbers,
            ([captures, records], workers),
            digest,
        ),
        Kind::Hold { captures, records } => hold(
            rt,
            alloc,
            &mut numbers,
            [captures, records],
            digest,
        ),
        Kind::Audit { runs, packets } => audit(rt, alloc, &mut numbers, [runs, packets], digest),
        Kind::Texts {
            meters,
            strides,
            contracts,
        } => {
            texts(
                rt,
                alloc,
                &mut numbers,
                [meters, strides, contracts],
                digest,
            )
        }
    }
}
