use dsedge_lines::GivenName;
use dsedge_texts::{
    FileFault, Folder, MemoryFolder, Reason, SystemFolder, TextFault, read_texts, read_whole,
};
use pcap_capture::SliceIntake;
use std::alloc::Global;
use std::process::Abort;
use std::test::Fail;

/// Two files.
const FILES: [(&str, &[u8]); 2] = [("one", b"first"), ("two", b"")];

/// Expects what two files hold, in the order of their names.
fn expect_texts(
    rt: &impl Abort,
    alloc: Global,
    (one, other): (&str, &str),
    wanted: (&[u8], &[u8]),
) -> Result<(), Fail> {
    let asked = [GivenName::new(one), GivenName::new(other)];
    match read_texts(alloc, &MemoryFolder { files: &FILES }, &asked) {
        Ok(texts) => {
            assert_eq!(rt; texts.len(), 2);
            assert_eq!(rt; (texts[0].as_slice(), texts[1].as_slice()), wanted);
            Ok(())
        }
        Err(_) => Err(Fail::from("a file without a text")),
    }
}

/// Expects which of two files is the first that is none.
fn expect_none(
    rt: &impl Abort,
    alloc: Global,
    (one, other): (&str, &str),
    wanted: &str,
) -> Result<(), Fail> {
    let asked = [GivenName::new(one), GivenName::new(other)];
    match read_texts(alloc, &MemoryFolder { files: &FILES }, &asked) {
        Err(TextFault::File(name, reason)) => {
            assert_eq!(rt; name.text(), wanted);
            assert_eq!(rt; reason, Reason::Absent);
            Ok(())
        }
        Err(TextFault::NoMemory) => Err(Fail::from("no memory")),
        Ok(_texts) => Err(Fail::from("no file without a text")),
    }
}

#[test]
fn texts_in_order(rt: HostRuntime) -> Result<(), Fail> {
    expect_texts(&rt, rt.alloc(), ("two", "one"), (b"", b"first"))?;
    expect_none(&rt, rt.alloc(), ("one", "three"), "three")?;
    expect_none(&rt, rt.alloc(), ("four", "three"), "four")
}

#[test]
fn a_file_that_is_none(rt: HostRuntime) {
    let folder = MemoryFolder { files: &FILES };
    let fault = folder.read(rt.alloc(), "One").err();
    assert_eq!(rt; fault, Some(FileFault::Unreadable(Reason::Absent)));
}

#[test]
fn all_bytes_of_an_intake_that_gives_few_at_a_time(rt: HostRuntime) -> Result<(), Fail> {
    let mut intake = SliceIntake {
        most: 2,
        ..SliceIntake::new(b"first")
    };
    let bytes = read_whole(rt.alloc(), &mut intake)?;
    assert_eq!(rt; bytes.as_slice(), b"first".as_slice());
    Ok(())
}

#[test]
fn an_intake_that_is_spent_is_no_file(rt: HostRuntime) {
    let mut intake = SliceIntake {
        most: 2,
        calls: 3,
        ..SliceIntake::new(b"first")
    };
    let fault = read_whole(rt.alloc(), &mut intake).err();
    assert_eq!(rt; fault, Some(FileFault::Unreadable(Reason::Failed)));
    assert_eq!(rt; intake.failures, 0);
}

#[test]
fn a_file_of_the_system(rt: HostRuntime) -> Result<(), Fail> {
    let folder = SystemFolder::new(&rt);
    let text = folder.read(rt.alloc(), "/proc/version")?;
    assert!(rt; text.as_slice().starts_with(b"Linux"));
    for (name, number) in [("/proc/version/none", 20), ("/proc/none", 2), ("/proc", 21)] {
        let fault = folder.read(rt.alloc(), name).err();
        let reason = Reason::System(number);
        assert_eq!(rt; fault, Some(FileFault::Unreadable(reason)), "{name}");
    }
    Ok(())
}
