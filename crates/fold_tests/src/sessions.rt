//! Sessions: runs one after another over the same files.

ghost use Rattle.std.specs.Prelude.{◌≡◌, ◌<◌};

use live_model::{List, Mem, Steps, Text};
use obf_run::run_plain;
use outside::{MemFiles, MemSink, NamedFile, names_differ};
use run_model::Status;
use std::alloc::Global;
use std::marker::Brand;
use std::process::Abort;
use std::sync::ledger::{Blank, Ledger};

/// A file, by its name and its text.
pub(super) type Given = (&'static str, &'static str);

/// One run: its words, its code, and what the two sinks receive.
pub(super) struct Step {
    pub(super) words: &'static [&'static str],
    pub(super) code: u8,
    pub(super) out: &'static str,
    pub(super) err: &'static str,
}

/// Files in memory, of which these writes fail. A read gives 100 bytes at most.
pub(super) fn stored<A: Abort>(
    rt: &A,
    alloc: Global,
    given: &[Given],
    failing: &[u64],
) -> Mem<MemFiles> {
    let mut files = Vec::new(alloc);
    for (name, text) in given {
        let name = Text::copied(alloc, name)?;
        let bytes = List::from_vec(text.as_bytes().to_vec(alloc)?);
        files.push(NamedFile { name, bytes })?;
    }
    assert!(rt; names_differ(files.as_slice()));
    let writes = failing.to_vec(alloc)?;
    Ok(MemFiles::new(alloc, files, Vec::new(alloc), writes, 100))
}

/// Runs on these words, and checks what is told.
pub(super) fn check_told<A: Abort>(
    rt: &A,
    alloc: Global,
    files: &mut MemFiles,
    words: &[&str],
    code: u8,
    out: &str,
    err: &str,
) -> Mem<()> {
    let mut texts = Vec::new(alloc);
    for word in words {
        let text = Text::copied(alloc, word)?;
        texts.push(text)?;
    }
    let mut answer = MemSink::new(alloc, Vec::new(alloc), 100);
    let mut errors = MemSink::new(alloc, Vec::new(alloc), 100);
    let ended = run_words(alloc, texts.as_slice(), files, &mut answer, &mut errors).code();
    assert_eq!(rt; ended, code, "{:?}", words);
    assert_eq!(rt; answer.received(), out.as_bytes(), "{:?}", words);
    assert_eq!(rt; errors.received(), err.as_bytes(), "{:?}", words);
    Ok(())
}

/// Runs the steps, and checks what each of them tells.
pub(super) fn check_session<A: Abort>(
    rt: &A,
    alloc: Global,
    files: &mut MemFiles,
    steps: &[Step],
) -> Mem<()> {
    for step in steps {
        check_told(rt, alloc, files, step.words, step.code, step.out, step.err)?;
    }
    Ok(())
}

fn run_words<'a>(
    alloc: Global,
    words: &'a [Text],
    files: &mut MemFiles,
    out: &mut MemSink,
    err: &mut MemSink,
) -> Status<'a> {
    run_counted::<Brand>(alloc, words, files, out, err, Blank::new(1))
}

fn run_counted<'a, L: Ledger>(
    alloc: Global,
    words: &'a [Text],
    files: &mut MemFiles,
    out: &mut MemSink,
    err: &mut MemSink,
    blank: Blank,
) -> Status<'a>
    requires name { blank.name ≡ L.name }
    requires parts { blank.parts ≡ L.parts }
    requires some { 0 < blank.parts }
{
    let mut steps = Steps::<L>::new(blank);
    run_plain(alloc, words, files, out, err, &mut steps)
}
