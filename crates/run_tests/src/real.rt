//! Whole runs over files and streams of the system.

ghost use Rattle.std.specs.Io.{WritesAtMost};

use crate::words::texts;
use live_model::{Mem, Text};
use obf_run::{read_arguments, start};
use run_model::Arguments;
use std::alloc::Global;
use std::env::FillError;
use std::marker::Brand;
use std::path::PathBuf;
use std::process::Abort;
use std::rt::{Env, Files};
use std::sync::Wait;
use std::sync::ledger::Blank;
use std::test::Fail;
use std::thread::Threads;
use std::{env, fs, io};

fn start_over<R: Files + AllocGlobal + Wait + Threads + Sync>(
    rt: &R,
    given: &Arguments,
    out: R::File,
    err: R::File,
) -> u8 {
    start::<Brand, R, R::File, R::File>(rt, given, Blank::new(1), out, err)
}

// The files of a start: its base, its output, and what the two streams go to.
#[derive(Drop)]
struct Places {
    base: PathBuf,
    output: PathBuf,
    out: PathBuf,
    err: PathBuf,
}

fn made_places<R: Env + Files + AllocGlobal>(rt: &R) -> io::Result<Places> {
    let folder = env::temp_dir(rt)?;
    Ok(Places {
        base: folder.join(rt.alloc(), "run-tests-base")?,
        output: folder.join(rt.alloc(), "run-tests-output")?,
        out: folder.join(rt.alloc(), "run-tests-out")?,
        err: folder.join(rt.alloc(), "run-tests-err")?,
    })
}

fn words(alloc: Global, words: &[&str]) -> Mem<Arguments> {
    Ok(Arguments::Words(texts(alloc, words)?))
}

// A start with these arguments: its code, and what the streams hold after it.
fn check_start<R: Abort + Files + AllocGlobal + Wait + Threads + Sync>(
    rt: &R,
    places: &Places,
    given: &Arguments,
    code: u8,
    out: &str,
    err: &str,
) -> io::Result<()> {
    let out_stream = fs::create(rt, places.out.as_path())?;
    let err_stream = fs::create(rt, places.err.as_path())?;
    assert_eq!(rt; start_over(rt, given, out_stream, err_stream), code);
    let put = fs::read_to_string(rt, places.out.as_path())?;
    let told = fs::read_to_string(rt, places.err.as_path())?;
    assert_eq!(rt; put.as_str(), out);
    assert_eq!(rt; told.as_str(), err);
    Ok(())
}

#[test]
fn starts_over_the_system(rt: HostRuntime) -> Result<(), Fail> {
    let alloc = rt.alloc();
    let places = made_places(&rt)?;
    let base = places.base.as_path().to_string_lossy();
    let output = places.output.as_path().to_string_lossy();
    fs::write(&rt, base, "w7 Nn1,n2x1y2")?;
    let dump = words(alloc, &["dump", base])?;
    let line = format!(in alloc; "obf: {base}: LocatedRef at 3\n")?;
    check_start(&rt, &places, &dump, 3, "", line.as_str())?;
    let bad = "obf: the words are none of the ten forms\n";
    check_start(&rt, &places, &Arguments::NotText, 2, "", bad)?;
    check_start(
        &rt,
        &places,
        &Arguments::NoMemory,
        6,
        "",
        "obf: no memory\n",
    )?;
    fs::write(&rt, base, "")?;
    fs::write(
        &rt,
        output,
        "what stood there before, and is longer than the empty map file that comes into its place: more than 126 bytes of text that must all go",
    )?;
    let build = words(alloc, &["build", base, base, output])?;
    check_start(&rt, &places, &build, 0, "base - - 0 0\n", "")?;
    assert_eq!(rt; fs::metadata(&rt, output)?.len(), 126);
    let check = words(alloc, &["check", output])?;
    check_start(&rt, &places, &check, 0, "base - - 0 0\n", "")?;
    fs::remove_file(&rt, base)?;
    fs::remove_file(&rt, output)?;
    fs::remove_file(&rt, places.out.as_path())?;
    fs::remove_file(&rt, places.err.as_path())?;
    Ok(())
}

// A program's name and two arguments, of which the second is these bytes.
#[derive(Drop)]
struct Two(&'static [u8]);

fn copied(bytes: &[u8], buf: &mut [u8]) -> Result<usize, FillError>
    ensures { WritesAtMost result buf.new }
{
    match buf.get_mut(..bytes.len()) {
        Some(front) => {
            front.copy_from_slice(bytes);
            Ok(bytes.len())
        }
        None => Err(FillError::TooLong),
    }
}

impl Env for Two {
    fn arg(&self, i: usize, buf: &mut [u8]) -> Result<usize, FillError> {
        match i {
            0 => copied(b"obf", buf),
            1 => copied(b"dump", buf),
            2 => copied(self.0, buf),
            _ => Err(FillError::NotPresent),
        }
    }

    fn var(&self, _name: &str, _buf: &mut [u8]) -> Result<usize, FillError> {
        Err(FillError::NotPresent)
    }

    fn var_at(&self, _i: usize, _buf: &mut [u8]) -> Result<usize, FillError> {
        Err(FillError::NotPresent)
    }
}

fn check_words<A: Abort>(rt: &A, words: &[Text]) {
    match words {
        [verb, file] => {
            assert_eq!(rt; verb.as_str(), "dump");
            assert_eq!(rt; file.as_str(), "a.opl");
        }
        _ => panic!(rt; "not two words"),
    }
}

#[test]
fn arguments_that_are_read(rt: HostRuntime) -> Result<(), Fail> {
    match read_arguments(&(Two(b"a.opl"), rt.alloc())) {
        Arguments::Words(words) => check_words(&rt, words.as_slice()),
        _ => panic!(rt; "the words were not read"),
    }
    assert!(rt;
        matches!(
            read_arguments(&(Two(b"\xFFa.opl"), rt.alloc())),
            Arguments::NotText
        )
    );
    Ok(())
}
