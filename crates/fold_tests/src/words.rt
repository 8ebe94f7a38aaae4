//! Words of folds, good and bad, and too many.

use crate::sessions::{Step, check_session, check_told, stored};
use live_model::Mem;
use outside::MemFiles;
use std::alloc::Global;
use std::process::Abort;
use std::test::Fail;

const BAD_WORDS: &str = "obf: the words are none of the ten forms\n";

// A level that files do not become, words that are too few, and a file that is missing.
static WORDS: [Step; 5] = [
    Step {
        words: &["fold", "hour", "d.obf", "h1.obf"],
        code: 2,
        out: "",
        err: BAD_WORDS,
    },
    Step {
        words: &["fold", "Day", "d.obf", "h1.obf"],
        code: 2,
        out: "",
        err: BAD_WORDS,
    },
    Step {
        words: &["fold", "day", "d.obf"],
        code: 2,
        out: "",
        err: BAD_WORDS,
    },
    Step {
        words: &["fold"],
        code: 2,
        out: "",
        err: BAD_WORDS,
    },
    Step {
        words: &["fold", "month", "d.obf", "h1.obf"],
        code: 4,
        out: "",
        err: "obf: cannot read h1.obf\n",
    },
];

#[test]
fn words_of_folds(rt: HostRuntime) -> Result<(), Fail> {
    let alloc = rt.alloc();
    let mut files = stored(&rt, alloc, &[], &[])?;
    check_session(&rt, alloc, &mut files, &WORDS)?;
    Ok(())
}

// So many names of a file that is missing, and what is told.
fn check_many<A: Abort>(
    rt: &A,
    alloc: Global,
    files: &mut MemFiles,
    count: usize,
    code: u8,
    err: &str,
) -> Mem<()> {
    let mut words = Vec::new(alloc);
    words.push("fold")?;
    words.push("day")?;
    words.push("d.obf")?;
    for _ in 0..count {
        words.push("none.obf")?;
    }
    check_told(rt, alloc, files, &words, code, "", err)
}

#[test]
fn more_files_than_may_be(rt: HostRuntime) -> Result<(), Fail> {
    let alloc = rt.alloc();
    let mut files = stored(&rt, alloc, &[], &[])?;
    check_many(
        &rt,
        alloc,
        &mut files,
        1024,
        4,
        "obf: cannot read none.obf\n",
    )?;
    check_many(&rt, alloc, &mut files, 1025, 7, "obf: too many files\n")?;
    Ok(())
}
