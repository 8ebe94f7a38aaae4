//! Calls of files and sinks, in memory and of the system.

use outside::{
    Failed, Files, Gate, HostFiles, HostSink, MemFiles, MemSink, NamedFile, OpenGate, Sink,
    WholeError, names_differ, put_all, read_whole,
};
use owned_data::{List, Mem, Text};
use std::alloc::Global;
use std::os::unix::fs::symlink;
use std::process::Abort;
use std::test::Fail;
use std::{env, fs, io};

fn file(alloc: Global, name: &str, bytes: &[u8]) -> Mem<NamedFile> {
    Ok(NamedFile {
        name: Text::copied(alloc, name)?,
        bytes: List::from_vec(Vec::from_slice(alloc, bytes)?),
    })
}

fn list(alloc: Global, number: u64) -> Mem<Vec<u64>> {
    let mut numbers = Vec::new(alloc);
    numbers.push(number)?;
    Ok(numbers)
}

fn town_and_empty(alloc: Global) -> Mem<Vec<NamedFile>> {
    let mut files = Vec::new(alloc);
    files.push(file(alloc, "town", b"abcdefg")?)?;
    files.push(file(alloc, "empty", b"")?)?;
    Ok(files)
}

/// Two files, whose second read and second write fail, and which give three bytes at a time.
fn town(rt: &impl Abort, alloc: Global) -> Mem<MemFiles> {
    let files = town_and_empty(alloc)?;
    assert!(rt; names_differ(&files));
    Ok(MemFiles::new(alloc, files, list(alloc, 2)?, list(alloc, 2)?, 3))
}

fn check_reads(
    rt: &impl Abort,
    files: &mut impl Files,
    name: &str,
    place: u64,
    want: Result<&[u8], Failed>,
) {
    let mut buf = [0u8; 8];
    let n = files.read(name, place, &mut buf);
    match (n, want) {
        (Ok(n), Ok(bytes)) => assert_eq!(rt; &buf[..n], bytes),
        (n, want) => assert!(rt; n.is_err() && want.is_err()),
    }
}

fn check_reads_whole(
    rt: &impl Abort,
    alloc: Global,
    files: &mut impl Files,
    name: &str,
    most: usize,
    want: Result<&[u8], WholeError>,
) {
    match (read_whole(alloc, files, name, most), want) {
        (Ok(bytes), Ok(want)) => assert_eq!(rt; bytes.as_slice(), want),
        (Err(e), Err(want)) => assert_eq!(rt; e, want),
        _ => panic!(rt; "the other of an answer and an error"),
    }
}

fn check_writes(
    rt: &impl Abort,
    files: &mut impl Files,
    name: &str,
    bytes: &[u8],
    want: Result<(), Failed>,
) {
    assert_eq!(rt; files.write(name, bytes), want);
}

fn check_holds(rt: &impl Abort, files: &MemFiles, name: &str, want: &[u8]) {
    match files.contents_of(name) {
        Some(bytes) => assert_eq!(rt; bytes, want),
        None => panic!(rt; "no file of this name"),
    }
}

fn check_puts(rt: &impl Abort, sink: &mut impl Sink, bytes: &[u8], want: Result<(), Failed>) {
    assert_eq!(rt; put_all(sink, bytes), want);
}

#[test]
fn files_in_memory(rt: HostRuntime) -> Result<(), Fail> {
    let mut files = town(&rt, rt.alloc())?;
    check_reads(&rt, &mut files, "town", 2, Ok(b"cde"));
    check_reads(&rt, &mut files, "town", 0, Err(Failed));
    check_reads(&rt, &mut files, "city", 0, Err(Failed));
    check_reads(&rt, &mut files, "town", 6, Ok(b"g"));
    check_reads(&rt, &mut files, "town", 9, Ok(b""));
    assert_eq!(rt; files.read_faults(), 1);
    check_writes(&rt, &mut files, "town", b"new", Ok(()));
    check_writes(&rt, &mut files, "city", b"lost", Err(Failed));
    check_writes(&rt, &mut files, "city", b"built", Ok(()));
    assert_eq!(rt; files.write_faults(), 1);
    check_holds(&rt, &files, "town", b"new");
    check_holds(&rt, &files, "city", b"built");
    Ok(())
}

#[test]
fn whole_files(rt: HostRuntime) -> Result<(), Fail> {
    let mut files = town(&rt, rt.alloc())?;
    check_reads_whole(
        &rt,
        rt.alloc(),
        &mut files,
        "town",
        7,
        Err(WholeError::Failed),
    );
    check_reads_whole(&rt, rt.alloc(), &mut files, "town", 7, Ok(b"abcdefg"));
    check_reads_whole(
        &rt,
        rt.alloc(),
        &mut files,
        "town",
        6,
        Err(WholeError::OverLimit),
    );
    check_reads_whole(&rt, rt.alloc(), &mut files, "empty", 0, Ok(b""));
    check_reads_whole(
        &rt,
        rt.alloc(),
        &mut files,
        "city",
        7,
        Err(WholeError::Failed),
    );
    Ok(())
}

#[test]
fn sinks_in_memory(rt: HostRuntime) -> Result<(), Fail> {
    let mut sink = MemSink::new(rt.alloc(), list(rt.alloc(), 3)?, 3);
    check_puts(&rt, &mut sink, b"abcde", Ok(()));
    check_puts(&rt, &mut sink, b"fg", Err(Failed));
    check_puts(&rt, &mut sink, b"hi", Ok(()));
    assert_eq!(rt; sink.faults(), 1);
    assert_eq!(rt; sink.received(), b"abcdehi".as_slice());
    Ok(())
}

fn pass<G: Gate>(gate: &G) {
    gate.before(0, 1);
    gate.inside(1);
    gate.after(0, 1);
}

fn check_disk(rt: &(impl Abort + std::rt::Files), alloc: Global, name: &str) {
    let mut files = HostFiles::new(alloc, rt);
    check_writes(rt, &mut files, name, b"abcdefg", Ok(()));
    check_reads_whole(rt, alloc, &mut files, name, 7, Ok(b"abcdefg"));
    check_reads_whole(rt, alloc, &mut files, name, 6, Err(WholeError::OverLimit));
    check_reads(rt, &mut files, name, 5, Ok(b"fg"));
    check_reads(rt, &mut files, "", 0, Err(Failed));
    check_writes(rt, &mut files, "", b"", Err(Failed));
    assert_eq!(rt; files.read_faults(), 1);
    assert_eq!(rt; files.write_faults(), 1);
}

// Two files that are read by turns, where the read of the second would go on in the first.
fn check_turns(rt: &(impl Abort + std::rt::Files), alloc: Global, one: &str, other: &str) {
    let mut files = HostFiles::new(alloc, rt);
    check_writes(rt, &mut files, one, b"abcdefg", Ok(()));
    check_writes(rt, &mut files, other, b"tuvwxyz", Ok(()));
    let mut three = [0u8; 3];
    assert_eq!(rt; files.read(one, 0, &mut three), Ok(3));
    assert_eq!(rt; three.as_slice(), b"abc".as_slice());
    check_reads(rt, &mut files, other, 3, Ok(b"wxyz"));
    check_reads(rt, &mut files, one, 3, Ok(b"defg"));
    assert_eq!(rt; files.read(one, 3, &mut []), Ok(0));
    check_reads(rt, &mut files, one, 3, Ok(b"defg"));
    assert_eq!(rt; files.read_faults(), 0);
}

// What is no regular file is written straight to, a link stays one, and no new file is left.
fn check_places(
    rt: &(impl Abort + std::rt::Files),
    alloc: Global,
    name: &str,
    link: &str,
    new: &str,
) -> io::Result<()> {
    symlink(rt, name, link)?;
    let mut files = HostFiles::new(alloc, rt);
    check_writes(rt, &mut files, link, b"by the link", Ok(()));
    assert_eq!(rt; fs::symlink_metadata(rt, link)?.is_symlink(), true);
    check_reads_whole(rt, alloc, &mut files, name, 11, Ok(b"by the link"));
    check_writes(rt, &mut files, "/dev/null", b"nothing", Ok(()));
    assert_eq!(rt; fs::symlink_metadata(rt, "/dev/null")?.is_file(), false);
    assert_eq!(rt; fs::exists(rt, new)?, false);
    fs::remove_file(rt, link)
}

#[test]
fn files_of_the_system(rt: HostRuntime) -> Result<(), Fail> {
    pass(&OpenGate);
    let folder = env::temp_dir(&rt)?;
    let one = folder.join(rt.alloc(), "outside-files")?;
    let other = folder.join(rt.alloc(), "outside-others")?;
    let link = folder.join(rt.alloc(), "outside-link")?;
    let new = folder.join(rt.alloc(), ".new-0.obf")?;
    let one = one.as_path().to_string_lossy();
    let other = other.as_path().to_string_lossy();
    check_disk(&rt, rt.alloc(), one);
    check_turns(&rt, rt.alloc(), one, other);
    check_places(
        &rt,
        rt.alloc(),
        one,
        link.as_path().to_string_lossy(),
        new.as_path().to_string_lossy(),
    )?;
    fs::remove_file(&rt, one)?;
    fs::remove_file(&rt, other)?;
    Ok(())
}

#[test]
fn a_sink_over_a_stream(rt: HostRuntime) -> Result<(), Fail> {
    let path = env::temp_dir(&rt)?.join(rt.alloc(), "outside-sink")?;
    let name = path.as_path().to_string_lossy();
    let mut sink = HostSink::new(fs::create(&rt, name)?);
    check_puts(&rt, &mut sink, b"abc", Ok(()));
    check_puts(&rt, &mut sink, b"defg", Ok(()));
    assert_eq!(rt; fs::read(&rt, name)?.as_slice(), b"abcdefg".as_slice());
    let mut closed = HostSink::new(fs::open(&rt, name)?);
    fs::remove_file(&rt, name)?;
    check_puts(&rt, &mut closed, b"h", Err(Failed));
    assert_eq!(rt; closed.faults(), 1);
    Ok(())
}
