use crate::digest::Digest;
use ds_ledger_base::Shelf;
use dsedge_lines::Words;
use dsedge_serve::start;
use dsedge_texts::{Folder, MemoryFolder};
use pcap_capture::{Intake, Outlet, SliceIntake, VecOutlet};
use std::alloc::{AllocError, Global};
use std::sync::Wait;
use std::thread::Threads;

/// Words that stand one space apart.
fn words_of(alloc: Global, words: &str) -> Result<Words, AllocError> {
    let mut given = Vec::new(alloc);
    for word in words.split(' ') {
        given.push(String::from_str(alloc, word)?)?;
    }
    Ok(given)
}

/// Runs the program with this folder and these devices, and gives its exit status. It names no type of theirs, since a
/// call of `start` is dear to prove at one that has a lifetime.
fn run_in<W: Wait + Threads + Sync, D: Folder + Shelf, I: Intake, O: Outlet, F: Outlet>(
    rt: &W,
    alloc: Global,
    words: &[String],
    folder: &D,
    intake: &mut I,
    output: &mut O,
    faults: &mut F,
) -> u8 {
    let ended = start(alloc, rt, words, false, folder, intake, output, faults);
    ended.status
}

/// Runs the program on an input in memory, likewise.
fn run_on<W: Wait + Threads + Sync, D: Folder + Shelf, O: Outlet, F: Outlet>(
    rt: &W,
    alloc: Global,
    words: &[String],
    folder: &D,
    input: &[u8],
    output: &mut O,
    faults: &mut F,
) -> u8 {
    let mut intake = SliceIntake::new(input);
    run_in(rt, alloc, words, folder, &mut intake, output, faults)
}

/// Runs the program with files in memory, likewise.
fn run_with<W: Wait + Threads + Sync, O: Outlet, F: Outlet>(
    rt: &W,
    alloc: Global,
    words: &[String],
    files: &[(&str, &[u8])],
    input: &[u8],
    output: &mut O,
    faults: &mut F,
) -> u8 {
    let folder = MemoryFolder { files };
    run_on(rt, alloc, words, &folder, input, output, faults)
}

/// Runs the program on words that stand one space apart, with these files and this input. What it writes goes into
/// `output`, in the place of what was there; the digest takes in what it wrote, told and ended with.
fn ask<W: Wait + Threads + Sync>(
    rt: &W,
    alloc: Global,
    words: &str,
    files: &[(&str, &[u8])],
    input: &[u8],
    output: &mut Vec<u8>,
    digest: &mut Digest,
) -> Result<(), AllocError> {
    let given = words_of(alloc, words)?;
    let mut own = Vec::new(alloc);
    std::mem::swap(output, &mut own);
    own.clear();
    let mut outlet = VecOutlet::new(own);
    let mut faults = VecOutlet::new(Vec::new(alloc));
    let status = run_with(
        rt,
        alloc,
        given.as_slice(),
        files,
        input,
        &mut outlet,
        &mut faults,
    );
    digest.take(outlet.bytes.as_slice());
    digest.take(faults.bytes.as_slice());
    digest.take(&[status]);
    *output = outlet.bytes;
    Ok(())
}

/// The same on a domain alone, and an input.
pub(crate) fn ask_of_domain(
    rt: &(impl Wait + Threads + Sync),
    alloc: Global,
    words: &str,
    domain: &str,
    input: &[u8],
    output: &mut Vec<u8>,
    digest: &mut Digest,
) -> Result<(), AllocError> {
    let files = [("domain.toml", domain.as_bytes())];
    ask(rt, alloc, words, &files, input, output, digest)
}

/// The same on a domain, a certificate of it, and an input.
pub(crate) fn ask_of_table(
    rt: &(impl Wait + Threads + Sync),
    alloc: Global,
    words: &str,
    (domain, certificate): (&str, &[u8]),
    input: &[u8],
    output: &mut Vec<u8>,
    digest: &mut Digest,
) -> Result<(), AllocError> {
    let files = [
        ("domain.toml", domain.as_bytes()),
        ("domain.cert", certificate),
    ];
    ask(rt, alloc, words, &files, input, output, digest)
}

/// What `certify` answers on a domain.
pub(crate) fn certify(
    rt: &(impl Wait + Threads + Sync),
    alloc: Global,
    domain: &str,
    digest: &mut Digest,
) -> Result<Vec<u8>, AllocError> {
    let words = "certify domain.toml";
    let mut output = Vec::new(alloc);
    ask_of_domain(rt, alloc, words, domain, b"", &mut output, digest)?;
    Ok(output)
}
