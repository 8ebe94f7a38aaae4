//! Whole runs over files and sinks in memory: what was received, and what was told.

ghost use Rattle.std.specs.Prelude.{◌≡◌, ◌<◌, ◌≤◌};

use live_model::{List, Mem, Steps, Text};
use obf_run::{run, run_plain};
use outside::{MemFiles, MemSink, NamedFile, OpenGate, names_differ};
use run_model::{Name, Status};
use std::alloc::Global;
use std::marker::Brand;
use std::process::Abort;
use std::sync::Wait;
use std::sync::ledger::{Blank, Ledger};
use std::test::Fail;
use std::thread::Threads;

// A run's words, the one file that is there, and what the run leaves.
struct Row {
    words: &'static [&'static str],
    name: &'static str,
    text: &'static str,
    out: &'static str,
    code: u8,
    err: &'static str,
}

const TOWN: &str = "n2 v1 x13.1 y52.4 Tplace=town,name=Aldorf\nn1 x0 y0\n\n# note\nn3 dD\nn4\n";

const STREETS: &str =
    "n1 v1 dV c10 t2024-01-05T10:00:00Z i7 uada Tplace=town,name=Aldorf x13.1 y52.4\nn2 v1 dV Tamenity=cafe,name=Bo%20%Bar x13.1001 y52.4001\nn3 v1 dV x13.1 y52.4002\nw20 v1 Thighway=residential,name=Stra%df%e Nn3,n4,n5\nr30 v1 Ttype=restriction,restriction=no_left_turn Mw20@from,n5@via,w22@to\n";

const STREETS_DUMPED: &str =
    "n1 v1 dV Tname=Aldorf,place=town x13.1 y52.4\nn2 v1 dV Tamenity=cafe,name=Bo%20%Bar x13.1001 y52.4001\nn3 v1 dV T x13.1 y52.4002\nw20 v1 dV Thighway=residential,name=Straße Nn3,n4,n5\nr30 v1 dV Trestriction=no_left_turn,type=restriction Mw20@from,n5@via,w22@to\n";

// A base of every kind of object, in no order, with every letter of a field.
const EVERY_KIND: &str =
    "# A base of every kind of object, in no order, with every letter of a field.\nr30 v1 Ttype=restriction,restriction=no_left_turn Mw20@from,n5@via,w22@to\nn1 v1 dV c10 t2024-01-05T10:00:00Z i7 uada Tplace=town,name=Aldorf x13.1 y52.4\nw20 v1 Thighway=residential,name=Stra%df%e Nn3,n4,n5\nn2 v1 dV Tamenity=cafe,name=Bo%20%Bar x13.1001 y52.4001\nn3 v1 x13.1 y52.4002\n\n\t\nn-3 \t\ty2 x1\nn4 x y\nn5 v7 y-0.0000001 x-180 Tb=2,a=1,b=3\nn6 dD\nn7 v1 x1 y1\nn7 v2 dD x1 y1 u\nn8 v1\nn8 v2 Tnote=%25%%2c%%3d%%40%%20%,%7f%=,= x007.10 y00.0\nn9 v4294967295 T%10ffff%=%0% c-5 t i0 u%41%b\nw21 N\nw22 v3 Nn1,n-2,n281474976710656\nr31 M\nr32 v1 Mn1@a@b,r31@,w21@%20%\nn9 dV v1 T x-0 y90\n";

const EVERY_KIND_DUMPED: &str =
    "n-3 v0 dV T x1 y2\nn1 v1 dV Tname=Aldorf,place=town x13.1 y52.4\nn2 v1 dV Tamenity=cafe,name=Bo%20%Bar x13.1001 y52.4001\nn3 v1 dV T x13.1 y52.4002\nn4 v0 dV T x y\nn5 v7 dV Ta=1,b=3 x-180 y-0.0000001\nn8 v2 dV T=,note=%25%%2c%%3d%%40%%20%,%7f%= x7.1 y0\nn9 v1 dV T x0 y90\nw20 v1 dV Thighway=residential,name=Straße Nn3,n4,n5\nw21 v0 dV T N\nw22 v3 dV T Nn1,n-2,n281474976710656\nr30 v1 dV Trestriction=no_left_turn,type=restriction Mw20@from,n5@via,w22@to\nr31 v0 dV T M\nr32 v1 dV T Mn1@a%40%b,r31@,w21@%20%\n";

static ROWS: [Row; 13] = [
    Row {
        words: &["nodes", "13 52 14 53", "a.opl"],
        name: "a.opl",
        text: TOWN,
        out: "n2 v1 dV Tname=Aldorf,place=town x13.1 y52.4\n",
        code: 0,
        err: "",
    },
    Row {
        words: &["nodes", "13 52 14 53", "a.opl"],
        name: "a.opl",
        text: "",
        out: "",
        code: 0,
        err: "",
    },
    Row {
        words: &["nodes", "0 0 2 2", "b.opl"],
        name: "b.opl",
        text: "n1 x1 y1\nw7 Nn1,n2x1y2",
        out: "",
        code: 3,
        err: "obf: b.opl: LocatedRef at 12\n",
    },
    Row {
        words: &["dump", "b.opl"],
        name: "b.opl",
        text: "w7 Nn1,n2x1y2",
        out: "",
        code: 3,
        err: "obf: b.opl: LocatedRef at 3\n",
    },
    Row {
        words: &["nodes", "1 1 0 0", "a.opl"],
        name: "a.opl",
        text: TOWN,
        out: "",
        code: 2,
        err: "obf: the words are none of the ten forms\n",
    },
    Row {
        words: &["nodes", "180 -90 180 -90", "c.opl"],
        name: "c.opl",
        text: "n5 x180 y-90",
        out: "n5 v0 dV T x180 y-90\n",
        code: 0,
        err: "",
    },
    Row {
        words: &["nodes", "0 0 1 1", "d.opl"],
        name: "d.opl",
        text: "n1 x1 y1 v1\nn1 x1 y0.5 v2\nn7 x1 y1\nn7 dD\n",
        out: "n1 v2 dV T x1 y0.5\n",
        code: 0,
        err: "",
    },
    Row {
        words: &["nodes", "0 0 2 2", "none.opl"],
        name: "a.opl",
        text: TOWN,
        out: "",
        code: 4,
        err: "obf: cannot read none.opl\n",
    },
    Row {
        words: &["dump"],
        name: "a.opl",
        text: TOWN,
        out: "",
        code: 2,
        err: "obf: the words are none of the ten forms\n",
    },
    Row {
        words: &["dump", "e.opl"],
        name: "e.opl",
        text: "# x\n\nn-3 \t\ty2 x1\r\n",
        out: "n-3 v0 dV T x1 y2\n",
        code: 0,
        err: "",
    },
    Row {
        words: &["nodes", "13.1 52.4 13.1 52.4", "town.opl"],
        name: "town.opl",
        text: STREETS,
        out: "n1 v1 dV Tname=Aldorf,place=town x13.1 y52.4\n",
        code: 0,
        err: "",
    },
    Row {
        words: &["dump", "town.opl"],
        name: "town.opl",
        text: STREETS,
        out: STREETS_DUMPED,
        code: 0,
        err: "",
    },
    Row {
        words: &["dump", "every.opl"],
        name: "every.opl",
        text: EVERY_KIND,
        out: EVERY_KIND_DUMPED,
        code: 0,
        err: "",
    },
];

pub(super) fn texts(alloc: Global, words: &[&str]) -> Mem<Vec<Text>> {
    let mut texts = Vec::new(alloc);
    for word in words {
        let text = Text::copied(alloc, word)?;
        texts.push(text)?;
    }
    Ok(texts)
}

fn one_file(alloc: Global, name: &str, bytes: Vec<u8>) -> Mem<Vec<NamedFile>> {
    let mut files = Vec::new(alloc);
    let name = Text::copied(alloc, name)?;
    files.push(NamedFile {
        name,
        bytes: List::from_vec(bytes),
    })?;
    Ok(files)
}

fn run_counted<'a, L: Ledger>(
    alloc: Global,
    words: &'a [Text],
    files: &mut MemFiles,
    out: &mut MemSink,
    err: &mut MemSink,
    blank: Blank,
) -> Status<'a>
    requires name { blank.name ≡ L.name }
    requires parts { blank.parts ≡ L.parts }
    requires some { 0 < blank.parts }
{
    let mut steps = Steps::<L>::new(blank);
    run_plain(alloc, words, files, out, err, &mut steps)
}

pub(super) fn run_words<'a>(
    alloc: Global,
    words: &'a [Text],
    files: &mut MemFiles,
    out: &mut MemSink,
    err: &mut MemSink,
) -> Status<'a> {
    run_counted::<Brand>(alloc, words, files, out, err, Blank::new(1))
}

fn wait_counted<'a, R: Wait + Threads + Sync, L: Ledger>(
    rt: &R,
    alloc: Global,
    words: &'a [Text],
    files: &mut MemFiles,
    out: &mut MemSink,
    err: &mut MemSink,
    blank: Blank,
) -> Status<'a>
    requires name { blank.name ≡ L.name }
    requires parts { blank.parts ≡ L.parts }
    requires some { 0 < blank.parts }
{
    let mut steps = Steps::<L>::new(blank);
    run(rt, alloc, words, files, out, err, &OpenGate, &mut steps)
}

fn run_waiting<'a, R: Wait + Threads + Sync>(
    rt: &R,
    alloc: Global,
    words: &'a [Text],
    files: &mut MemFiles,
    out: &mut MemSink,
    err: &mut MemSink,
) -> Status<'a> {
    wait_counted::<R, Brand>(rt, alloc, words, files, out, err, Blank::new(1))
}

fn check_row<A: Abort>(rt: &A, alloc: Global, row: &Row) -> Mem<()> {
    let words = texts(alloc, row.words)?;
    let bytes = row.text.as_bytes().to_vec(alloc)?;
    let files = one_file(alloc, row.name, bytes)?;
    assert!(rt; names_differ(files.as_slice()));
    let mut files = MemFiles::new(alloc, files, Vec::new(alloc), Vec::new(alloc), 7);
    let mut out = MemSink::new(alloc, Vec::new(alloc), 5);
    let mut err = MemSink::new(alloc, Vec::new(alloc), 3);
    let status = run_words(alloc, words.as_slice(), &mut files, &mut out, &mut err);
    assert_eq!(rt; status.code(), row.code);
    assert_eq!(rt; out.received(), row.out.as_bytes());
    assert_eq!(rt; err.received(), row.err.as_bytes());
    assert_eq!(rt; files.read_faults(), 0);
    Ok(())
}

#[test]
fn rows_of_words(rt: HostRuntime) -> Result<(), Fail> {
    for row in ROWS.iter() {
        check_row(&rt, rt.alloc(), row)?;
    }
    Ok(())
}

// The calls that fail, and the most bytes that one call takes or gives.
struct Faults {
    reads: &'static [u64],
    puts: &'static [u64],
    err_puts: &'static [u64],
    most: usize,
}

// A run of the first row over an outside that fails at these calls: its status, and how much was received.
fn check_faults<R: Abort + Wait + Threads + Sync>(
    rt: &R,
    alloc: Global,
    faults: &Faults,
    code: u8,
    out_bytes: usize,
    err_bytes: usize,
) -> Mem<()> {
    let row = &ROWS[0];
    let words = texts(alloc, row.words)?;
    let bytes = row.text.as_bytes().to_vec(alloc)?;
    let files = one_file(alloc, row.name, bytes)?;
    assert!(rt; names_differ(files.as_slice()));
    assert!(rt; 0 < faults.most);
    let mut files = MemFiles::new(
        alloc,
        files,
        faults.reads.to_vec(alloc)?,
        Vec::new(alloc),
        faults.most,
    );
    let mut out = MemSink::new(alloc, faults.puts.to_vec(alloc)?, faults.most);
    let mut err = MemSink::new(alloc, faults.err_puts.to_vec(alloc)?, faults.most);
    let status = run_waiting(rt, alloc, words.as_slice(), &mut files, &mut out, &mut err);
    assert_eq!(rt; status.code(), code);
    assert_eq!(rt;
        out.received(),
        row.out.as_bytes().get(..out_bytes).unwrap_or(&[])
    );
    assert_eq!(rt; err.received().len(), err_bytes);
    Ok(())
}

#[test]
fn runs_that_meet_faults(rt: HostRuntime) -> Result<(), Fail> {
    let alloc = rt.alloc();
    let whole = ROWS[0].out.len();
    // one byte at a time
    check_faults(
        &rt,
        alloc,
        &Faults {
            reads: &[],
            puts: &[],
            err_puts: &[],
            most: 1,
        },
        0,
        whole,
        0,
    )?;
    // the second put of the answer fails
    check_faults(
        &rt,
        alloc,
        &Faults {
            reads: &[],
            puts: &[2],
            err_puts: &[],
            most: 4,
        },
        5,
        4,
        29,
    )?;
    // a read in the middle fails
    check_faults(
        &rt,
        alloc,
        &Faults {
            reads: &[3],
            puts: &[],
            err_puts: &[],
            most: 8,
        },
        4,
        0,
        23,
    )?;
    // the error sink fails at once, and changes no status
    check_faults(
        &rt,
        alloc,
        &Faults {
            reads: &[1],
            puts: &[],
            err_puts: &[1],
            most: 8,
        },
        4,
        0,
        0,
    )?;
    Ok(())
}

// A base one byte over the limit.
fn blanks(alloc: Global) -> Mem<Vec<u8>> {
    Ok(vec![in alloc; b'\n'; 268_435_457]?)
}

#[test]
fn a_base_over_the_limit(rt: HostRuntime) -> Result<(), Fail> {
    let alloc = rt.alloc();
    let words = texts(alloc, &["nodes", "0 0 1 1", "large.opl"])?;
    let files = one_file(alloc, "large.opl", blanks(alloc)?)?;
    assert!(rt; names_differ(files.as_slice()));
    let mut files = MemFiles::new(alloc, files, Vec::new(alloc), Vec::new(alloc), 1 << 30);
    let mut out = MemSink::new(alloc, Vec::new(alloc), 1);
    let mut err = MemSink::new(alloc, Vec::new(alloc), 100);
    let status = run_words(alloc, words.as_slice(), &mut files, &mut out, &mut err);
    assert_eq!(rt;
        status,
        Status::Limit {
            file: Name::Given("large.opl")
        }
    );
    assert_eq!(rt;
        err.received(),
        "obf: large.opl: over the limit\n".as_bytes()
    );
    Ok(())
}

fn check_break<A: Abort>(rt: &A, alloc: Global, text: &[u8], said: &str) -> Mem<()> {
    let words = texts(alloc, &["dump", "b.opl"])?;
    let files = one_file(alloc, "b.opl", text.to_vec(alloc)?)?;
    assert!(rt; names_differ(files.as_slice()));
    let mut files = MemFiles::new(alloc, files, Vec::new(alloc), Vec::new(alloc), 100);
    let mut out = MemSink::new(alloc, Vec::new(alloc), 100);
    let mut err = MemSink::new(alloc, Vec::new(alloc), 100);
    let status = run_words(alloc, words.as_slice(), &mut files, &mut out, &mut err);
    assert_eq!(rt; status.code(), 3, "{}", said);
    let line = format!(in alloc; "obf: b.opl: {said}\n")?;
    assert_eq!(rt; err.received(), line.as_str().as_bytes());
    Ok(())
}

// A list of 65,536 items, one too many, and what stands before and behind it on its line.
fn long_line(alloc: Global, before: &str, item: &str, after: &str) -> Mem<Vec<u8>> {
    let mut line = Vec::new(alloc);
    line.extend_from_slice(before.as_bytes())?;
    for _ in 0..65_535 {
        line.extend_from_slice(item.as_bytes())?;
        line.extend_from_slice(b",")?;
    }
    line.extend_from_slice(item.as_bytes())?;
    line.extend_from_slice(after.as_bytes())?;
    Ok(line)
}

#[test]
fn a_list_is_too_long(rt: HostRuntime) -> Result<(), Fail> {
    let alloc = rt.alloc();
    let refs = long_line(alloc, "w1 N", "n1", " v1 dV\n")?;
    check_break(&rt, alloc, refs.as_slice(), "OverLimit at 3")?;
    let tags = long_line(alloc, "n1 v1 T", "a=b", " dV\n")?;
    check_break(&rt, alloc, tags.as_slice(), "OverLimit at 6")?;
    let members = long_line(alloc, "r1 v1 dV M", "n1@", "")?;
    check_break(&rt, alloc, members.as_slice(), "OverLimit at 9")?;
    Ok(())
}
