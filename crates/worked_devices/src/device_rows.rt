use pcap_capture::{
    DeviceFault, Intake, MOST_CALLS, Outlet, ReadIntake, SliceIntake, VecOutlet, WriteOutlet,
};
use std::io;
use std::io::{Read, Write};
use std::process::Abort;

/// A reader and writer that is interrupted at each call.
#[derive(Drop)]
struct Interrupted;

impl Read for Interrupted {
    fn read(&mut self, _buffer: &mut [u8]) -> io::Result<usize> {
        Err(io::Error::from(io::ErrorKind::Interrupted))
    }
}

impl Write for Interrupted {
    fn write(&mut self, _piece: &[u8]) -> io::Result<usize> {
        Err(io::Error::from(io::ErrorKind::Interrupted))
    }

    fn flush(&mut self) -> io::Result<()> {
        Ok(())
    }
}

/// Expects of an intake what it gives into room for two bytes, and how often it has failed then.
fn expect_taken<I: Intake>(
    rt: &impl Abort,
    intake: &mut I,
    wanted: Result<&[u8], DeviceFault>,
    failures: u64,
) {
    let mut buffer = [0u8; 2];
    let found = match intake.take(&mut buffer) {
        Ok(taken) => Ok(&buffer[..taken]),
        Err(fault) => Err(fault),
    };
    assert_eq!(rt; found, wanted);
    assert_eq!(rt; intake.failures(), failures);
}

/// Expects of an outlet how many bytes of a piece it takes, and how often it has failed then.
fn expect_given<O: Outlet>(
    rt: &impl Abort,
    outlet: &mut O,
    piece: &[u8],
    wanted: Result<usize, DeviceFault>,
    failures: u64,
) {
    assert_eq!(rt; outlet.give(piece), wanted);
    assert_eq!(rt; outlet.failures(), failures);
}

#[test]
fn a_reader_gives_its_bytes(rt: HostRuntime) {
    let mut intake = ReadIntake::new(b"abc".as_slice());
    expect_taken(&rt, &mut intake, Ok(b"ab"), 0);
    expect_taken(&rt, &mut intake, Ok(b"c"), 0);
    expect_taken(&rt, &mut intake, Ok(b""), 0);
    assert_eq!(rt; intake.calls, MOST_CALLS - 3);
}

#[test]
fn each_error_is_a_failure(rt: HostRuntime) {
    let failed = DeviceFault::Failed;
    let mut intake = ReadIntake::new(Interrupted);
    expect_taken(&rt, &mut intake, Err(failed), 1);
    expect_taken(&rt, &mut intake, Err(failed), 2);
    let mut outlet = WriteOutlet::new(Interrupted);
    expect_given(&rt, &mut outlet, b"a", Err(failed), 1);
    expect_given(&rt, &mut outlet, b"a", Err(failed), 2);
    assert_eq!(rt; failed.code(), 1);
}

#[test]
fn a_write_of_no_byte_is_a_failure(rt: HostRuntime) {
    let mut room = [0u8; 1];
    let mut outlet = WriteOutlet::new(room.as_mut_slice());
    expect_given(&rt, &mut outlet, b"ab", Ok(1), 0);
    expect_given(&rt, &mut outlet, b"", Ok(0), 0);
    expect_given(&rt, &mut outlet, b"b", Err(DeviceFault::Failed), 1);
}

#[test]
fn memory_gives_few_bytes_a_call(rt: HostRuntime) {
    let mut intake = SliceIntake {
        most: 0,
        fails_at: Some(2),
        ..SliceIntake::new(b"ab")
    };
    expect_taken(&rt, &mut intake, Ok(b"a"), 0);
    expect_taken(&rt, &mut intake, Err(DeviceFault::Failed), 1);
    expect_taken(&rt, &mut intake, Ok(b"b"), 1);
}

#[test]
fn a_reader_that_is_spent_stays_so(rt: HostRuntime) {
    let mut intake = ReadIntake {
        calls: 1,
        ..ReadIntake::new(b"abc".as_slice())
    };
    expect_taken(&rt, &mut intake, Ok(b"ab"), 0);
    expect_taken(&rt, &mut intake, Err(DeviceFault::Spent), 0);
    expect_taken(&rt, &mut intake, Err(DeviceFault::Spent), 0);
}

#[test]
fn memory_answers_few_calls(rt: HostRuntime) {
    let mut intake = SliceIntake {
        most: 1,
        fails_at: Some(2),
        calls: 3,
        ..SliceIntake::new(b"abcd")
    };
    expect_taken(&rt, &mut intake, Ok(b"a"), 0);
    expect_taken(&rt, &mut intake, Err(DeviceFault::Failed), 1);
    expect_taken(&rt, &mut intake, Ok(b"b"), 1);
    expect_taken(&rt, &mut intake, Err(DeviceFault::Spent), 1);
    expect_taken(&rt, &mut intake, Err(DeviceFault::Spent), 1);
    assert_eq!(rt; DeviceFault::Spent.code(), 2);
}

#[test]
fn no_intake_answers_more_calls_than_may_be(rt: HostRuntime) {
    let mut intake = SliceIntake {
        calls: u64::MAX,
        ..SliceIntake::new(b"ab")
    };
    expect_taken(&rt, &mut intake, Ok(b"ab"), 0);
    assert_eq!(rt; intake.calls, MOST_CALLS - 1);
}

#[test]
fn memory_takes_few_bytes_a_call(rt: HostRuntime) {
    let mut outlet = VecOutlet {
        most: 1,
        fails_at: Some(2),
        ..VecOutlet::new(Vec::new(rt.alloc()))
    };
    expect_given(&rt, &mut outlet, b"cd", Ok(1), 0);
    expect_given(&rt, &mut outlet, b"d", Err(DeviceFault::Failed), 1);
    expect_given(&rt, &mut outlet, b"d", Ok(1), 1);
    assert_eq!(rt; outlet.bytes.as_slice(), b"cd".as_slice());
}
