//! Runs of scripts over a small town.

ghost use Rattle.std.specs.Prelude.{◌≡◌, ◌<◌};

use live_model::{List, Mem, Steps, Text};
use obf_run::run_plain;
use outside::{MemFiles, MemSink, NamedFile, names_differ};
use run_model::Status;
use std::alloc::Global;
use std::marker::Brand;
use std::process::Abort;
use std::sync::ledger::{Blank, Ledger};

/// A file, by its name and its bytes.
type Given = (&'static str, &'static [u8]);

// The town, and changes of it: a node of the street moves, and moves back; the cafe is gone; and a text that breaks.
static FILES: [Given; 7] = [
    (
        "town.rules",
        b"point amenity cafe 15 poi.cafe\npoint amenity * 16 map\npoint place town 8 place\nline highway residential 14 map\nline highway residential 14 road\nline highway primary 10 map\nline highway primary 10 road\narea building * 15 map\narea leisure park 12 poi.park\n",
    ),
    (
        "town.opl",
        b"n1 v1 dV c10 t2024-01-05T10:00:00Z i7 uada Tplace=town,name=Aldorf x13.1 y52.4\nn2 v1 dV Tamenity=cafe,name=Bo%20%Bar x13.1001 y52.4001\nn3 v1 x13.1 y52.4002\nn4 v1 x13.101 y52.4002\nn5 v1 x13.102 y52.4002\nn6 v1 x13.1004 y52.4004\nn7 v1 x13.1006 y52.4004\nn8 v1 x13.1006 y52.4006\nw20 v1 Thighway=residential,name=Stra%df%e Nn3,n4,n5\nw21 v1 Tbuilding=yes,addr:street=Stra%df%e,addr:housenumber=3 Nn6,n7,n8,n6\nw22 v1 Thighway=primary,oneway=yes Nn5,n99\nr30 v1 Ttype=restriction,restriction=no_left_turn Mw20@from,n5@via,w22@to\n",
    ),
    ("c1.opl", b"n4 v2 x13.5 y52.6\n"),
    ("c 1.opl", b"n4 v2 x13.5 y52.6\n"),
    ("c2.opl", b"n4 v3 x13.101 y52.4002\n"),
    ("gone.opl", b"n2 dD\n"),
    ("broken.opl", b"w7 Nn1,n2x1y2"),
];

/// A script, the code of its run, and what the two sinks receive.
pub(super) struct Case {
    pub(super) script: &'static [u8],
    pub(super) code: u8,
    pub(super) out: &'static str,
    pub(super) err: &'static str,
}

/// What a run of a script leaves.
#[derive(Drop)]
pub(super) struct Left {
    code: u8,
    pub(super) files: MemFiles,
    out: MemSink,
    err: MemSink,
}

fn named(alloc: Global, name: &str, bytes: &[u8]) -> Mem<NamedFile> {
    let name = Text::copied(alloc, name)?;
    let bytes = List::from_vec(bytes.to_vec(alloc)?);
    Ok(NamedFile { name, bytes })
}

/// A run of a script, whose text stands in `s.txt`, over the town. These reads fail, and a read gives 100 bytes at most.
pub(super) fn play<A: Abort>(rt: &A, alloc: Global, script: &[u8], failing: &[u64]) -> Mem<Left> {
    let mut files = Vec::new(alloc);
    for (name, bytes) in FILES.iter() {
        files.push(named(alloc, name, bytes)?)?;
    }
    files.push(named(alloc, "s.txt", script)?)?;
    assert!(rt; names_differ(files.as_slice()));
    let reads = failing.to_vec(alloc)?;
    let mut words = Vec::new(alloc);
    for word in ["replay", "town.rules", "town.opl", "s.txt"] {
        let word = Text::copied(alloc, word)?;
        words.push(word)?;
    }
    let mut files = MemFiles::new(alloc, files, reads, Vec::new(alloc), 100);
    let mut out = MemSink::new(alloc, Vec::new(alloc), 100);
    let mut err = MemSink::new(alloc, Vec::new(alloc), 100);
    let code = run_words(alloc, words.as_slice(), &mut files, &mut out, &mut err).code();
    Ok(Left {
        code,
        files,
        out,
        err,
    })
}

/// What a run of a script left is what was wanted.
pub(super) fn check_left<A: Abort>(
    rt: &A,
    left: &Left,
    script: &[u8],
    code: u8,
    out: &str,
    err: &str,
) {
    assert_eq!(rt; left.code, code, "{:?}", script);
    assert_eq!(rt; left.out.received(), out.as_bytes(), "{:?}", script);
    assert_eq!(rt; left.err.received(), err.as_bytes(), "{:?}", script);
}

/// Plays scripts, and checks what each leaves.
pub(super) fn check_plays<A: Abort>(rt: &A, alloc: Global, plays: &[Case]) -> Mem<()> {
    for row in plays {
        let left = play(rt, alloc, row.script, &[])?;
        check_left(rt, &left, row.script, row.code, row.out, row.err);
    }
    Ok(())
}

fn run_words<'a>(
    alloc: Global,
    words: &'a [Text],
    files: &mut MemFiles,
    out: &mut MemSink,
    err: &mut MemSink,
) -> Status<'a> {
    run_counted::<Brand>(alloc, words, files, out, err, Blank::new(1))
}

fn run_counted<'a, L: Ledger>(
    alloc: Global,
    words: &'a [Text],
    files: &mut MemFiles,
    out: &mut MemSink,
    err: &mut MemSink,
    blank: Blank,
) -> Status<'a>
    requires name { blank.name ≡ L.name }
    requires parts { blank.parts ≡ L.parts }
    requires some { 0 < blank.parts }
{
    let mut steps = Steps::<L>::new(blank);
    run_plain(alloc, words, files, out, err, &mut steps)
}
