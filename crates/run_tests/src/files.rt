//! Map files that are built and checked: which bytes are written, and what is told.

use crate::words::{run_words, texts};
use live_model::{List, Mem, Text};
use outside::{MemFiles, MemSink, NamedFile, names_differ};
use std::alloc::Global;
use std::process::Abort;
use std::test::Fail;

// A file, as the pieces of its bytes.
#[derive(Clone, Copy)]
pub(super) struct Pieces {
    pub(super) name: &'static str,
    pub(super) bytes: &'static [&'static [u8]],
}

// The version, and the first one.
pub(super) const VERSION: &[u8] = b"\x08\x02";

const FIRST_VERSION: &[u8] = b"\x08\x01";

// The heads of a base, and of the hour 2024-02-29-21.
const BASE: &[u8] = b"\x12\x06\x08\x00\x10\x00\x18\x00";

pub(super) const HOUR: &[u8] = b"\x12\x0E\x08\x01\x10\x89\xC7\x90\xC5\x07\x18\x89\xC7\x90\xC5\x07";

const NO_RULES: &[u8] = b"\x1A\x00";

const ONE_RULE: &[u8] = b"\x1A\x10point a b 0 map\n";

// The key and the length of the rules of the town.
pub(super) const TOWN_RULES_HERE: &[u8] = b"\x1A\xFE\x01";

pub(super) const TOWN_RULES: &[u8] =
    b"point amenity cafe 15 poi.cafe\npoint amenity * 16 map\npoint place town 8 place\nline highway residential 14 map\nline highway residential 14 road\nline highway primary 10 map\nline highway primary 10 road\narea building * 15 map\narea leisure park 12 poi.park\n";

pub(super) const TOWN: &[u8] =
    b"n1 v1 dV c10 t2024-01-05T10:00:00Z i7 uada Tplace=town,name=Aldorf x13.1 y52.4\nn2 v1 dV Tamenity=cafe,name=Bo%20%Bar x13.1001 y52.4001\nn3 v1 x13.1 y52.4002\nn4 v1 x13.101 y52.4002\nn5 v1 x13.102 y52.4002\nn6 v1 x13.1004 y52.4004\nn7 v1 x13.1006 y52.4004\nn8 v1 x13.1006 y52.4006\nw20 v1 Thighway=residential,name=Stra%df%e Nn3,n4,n5\nw21 v1 Tbuilding=yes,addr:street=Stra%df%e,addr:housenumber=3 Nn6,n7,n8,n6\nw22 v1 Thighway=primary,oneway=yes Nn5,n99\nr30 v1 Ttype=restriction,restriction=no_left_turn Mw20@from,n5@via,w22@to\n";

// The sections of map records: without one, with that of `n1 x0 y0 Ta=b`, and with those of the town.
pub(super) const NO_RECORDS: &[u8] =
    b"\x36\x00\x00\x00\x00\x00\x00\x00\x09\x0E\x00\x00\x00\x00\x00\x00\x00\x00";

const ONE_RECORD: &[u8] =
    b"\x36\x00\x00\x00\x00\x00\x00\x00\x51\x0E\x00\x00\x00\x00\x00\x00\x00\x1A\x08\x80\xA4\xA7\xDA\x06\x10\x80\xD2\x93\xAD\x03\x18\x80\xA4\xA7\xDA\x06\x20\x80\xD2\x93\xAD\x03\x28\x00\x16\x00\x00\x00\x00\x00\x00\x00\x25\x0E\x00\x00\x00\x00\x00\x00\x00\x00\x12\x1A\x08\x81\x80\x80\x80\x80\x80\x40\x10\x00\x18\x00\x20\x00\x2A\x0A\x80\xC8\xCE\xB4\x0D\x80\xA4\xA7\xDA\x06";

const TOWN_RECORDS: &[u8] =
    b"\x36\x00\x00\x00\x00\x00\x00\x00\xA7\x0E\x00\x00\x00\x00\x00\x00\x00\x1A\x08\xC0\xF1\xE2\x98\x07\x10\x90\xED\xA4\xB3\x01\x18\xE0\x8D\xE4\x98\x07\x20\x98\x94\xA5\xB3\x01\x28\x00\x16\x00\x00\x00\x00\x00\x00\x00\x7B\x0E\x00\x00\x00\x00\x00\x00\x00\x11\x0A\x06\x42\x6F\x20\x42\x61\x72\x0A\x07\x53\x74\x72\x61\xC3\x9F\x65\x12\x1A\x08\x82\x80\x80\x80\x80\x80\x40\x10\x01\x18\x00\x20\x01\x2A\x0A\xD0\xF2\xC5\xB1\x0E\xB0\xA8\xCA\xE6\x02\x12\x23\x08\x92\x80\x80\x80\x80\x80\x80\x02\x10\x03\x18\x01\x20\x02\x2A\x12\x80\xE3\xC5\xB1\x0E\xE0\x98\xCA\xE6\x02\xA0\x9C\x01\x00\xA0\x9C\x01\x00\x12\x1E\x08\x01\x10\x07\x18\x02\x20\x00\x2A\x14\xC0\xA1\xC6\xB1\x0E\xC0\xF9\xC9\xE6\x02\xA0\x1F\x00\x00\x9F\x1F\x9F\x1F\xA0\x1F";

// The other sections without records.
pub(super) const OTHERS: &[u8] =
    b"\x3E\x00\x00\x00\x00\x00\x00\x00\x12\x0E\x00\x00\x00\x00\x00\x00\x00\x00\x16\x00\x00\x00\x00\x00\x00\x00\x00\x46\x00\x00\x00\x00\x00\x00\x00\x00\x4E\x00\x00\x00\x00\x00\x00\x00\x24\x0E\x00\x00\x00\x00\x00\x00\x00\x09\x0E\x00\x00\x00\x00\x00\x00\x00\x00\x16\x00\x00\x00\x00\x00\x00\x00\x09\x0E\x00\x00\x00\x00\x00\x00\x00\x00";

// Those of the town: its place, its street and its house; its cafe; its road and its restriction.
const TOWN_ADDRESSES: &[u8] =
    b"\x3E\x00\x00\x00\x00\x00\x00\x00\xDA\x0E\x00\x00\x00\x00\x00\x00\x00\x79\x0A\x13\x0A\x06\x61\x6C\x64\x6F\x72\x66\x12\x07\x73\x74\x72\x61\x73\x73\x65\x18\x00\x16\x00\x00\x00\x00\x00\x00\x00\x5B\x0A\x2A\x08\x81\x80\x80\x80\x80\x80\x40\x10\x00\x1A\x06\x61\x6C\x64\x6F\x72\x66\x22\x06\x41\x6C\x64\x6F\x72\x66\x2A\x00\x32\x0A\x80\xE3\xC5\xB1\x0E\x80\xB8\xCA\xE6\x02\x3A\x00\x0A\x2D\x08\x94\x80\x80\x80\x80\x80\xC0\x02\x10\x01\x1A\x07\x73\x74\x72\x61\x73\x73\x65\x22\x07\x53\x74\x72\x61\xC3\x9F\x65\x2A\x00\x32\x0A\xA0\xFF\xC6\xB1\x0E\xE0\x98\xCA\xE6\x02\x3A\x00\x16\x00\x00\x00\x00\x00\x00\x00\x4F\x0A\x14\x0A\x07\x73\x74\x72\x61\x73\x73\x65\x12\x07\x73\x74\x72\x61\x73\x73\x65\x18\x00\x16\x00\x00\x00\x00\x00\x00\x00\x30\x0A\x2E\x08\x95\x80\x80\x80\x80\x80\xC0\x02\x10\x02\x1A\x07\x73\x74\x72\x61\x73\x73\x65\x22\x07\x53\x74\x72\x61\xC3\x9F\x65\x2A\x01\x33\x32\x0A\x90\xB1\xC6\xB1\x0E\xF0\xE9\xC9\xE6\x02\x3A\x00";

const TOWN_POIS: &[u8] =
    b"\x46\x00\x00\x00\x00\x00\x00\x00\x6D\x0E\x00\x00\x00\x00\x00\x00\x00\x64\x0A\x04\x63\x61\x66\x65\x16\x00\x00\x00\x00\x00\x00\x00\x55\x0E\x00\x00\x00\x00\x00\x00\x00\x1A\x08\xA8\xF9\xE2\x98\x07\x10\x98\x94\xA5\xB3\x01\x18\xA8\xF9\xE2\x98\x07\x20\x98\x94\xA5\xB3\x01\x28\x00\x16\x00\x00\x00\x00\x00\x00\x00\x29\x0E\x00\x00\x00\x00\x00\x00\x00\x08\x0A\x06\x42\x6F\x20\x42\x61\x72\x12\x16\x08\x82\x80\x80\x80\x80\x80\x40\x10\x01\x1A\x0A\xD0\xF2\xC5\xB1\x0E\xB0\xA8\xCA\xE6\x02";

const TOWN_ROADS: &[u8] =
    b"\x4E\x00\x00\x00\x00\x00\x00\x00\xDE\x0E\x00\x00\x00\x00\x00\x00\x00\x6A\x0E\x00\x00\x00\x00\x00\x00\x00\x1A\x08\xC0\xF1\xE2\x98\x07\x10\xB0\x8C\xA5\xB3\x01\x18\xE0\x8D\xE4\x98\x07\x20\xB0\x8C\xA5\xB3\x01\x28\x00\x16\x00\x00\x00\x00\x00\x00\x00\x3E\x0E\x00\x00\x00\x00\x00\x00\x00\x0D\x0A\x0B\x72\x65\x73\x69\x64\x65\x6E\x74\x69\x61\x6C\x12\x26\x08\x94\x80\x80\x80\x80\x80\xC0\x02\x10\x04\x18\x01\x20\x00\x2A\x15\x06\x80\xE3\xC5\xB1\x0E\xE0\x98\xCA\xE6\x02\x02\xA0\x9C\x01\x00\x02\xA0\x9C\x01\x00\x16\x00\x00\x00\x00\x00\x00\x00\x62\x0E\x00\x00\x00\x00\x00\x00\x00\x1A\x08\xE0\x8D\xE4\x98\x07\x10\xB0\x8C\xA5\xB3\x01\x18\xE0\x8D\xE4\x98\x07\x20\xB0\x8C\xA5\xB3\x01\x28\x00\x16\x00\x00\x00\x00\x00\x00\x00\x36\x0E\x00\x00\x00\x00\x00\x00\x00\x0E\x0A\x0C\x6E\x6F\x5F\x6C\x65\x66\x74\x5F\x74\x75\x72\x6E\x12\x1D\x08\x9E\x80\x80\x80\x80\x80\xC0\x04\x10\x01\x18\x28\x20\x0A\x28\x2C\x32\x0A\xC0\x9B\xC8\xB1\x0E\xE0\x98\xCA\xE6\x02";

// The marks: none, and n-5, n2, w20, w21, w22 and r30.
pub(super) const NO_MARKS: &[u8] = b"\x86\x01\x00\x00\x00\x00\x00\x00\x00\x02\x0A\x00";

const SIX_MARKS: &[u8] =
    b"\x86\x01\x00\x00\x00\x00\x00\x00\x00\x1C\x0A\x1A\xFB\xFF\xFF\xFF\xFF\xFF\x3F\x07\x92\x80\x80\x80\x80\x80\x80\x02\x01\x01\x88\x80\x80\x80\x80\x80\x80\x02";

// The version again.
pub(super) const AGAIN: &[u8] = b"\x80\x02\x02";

const FIRST_AGAIN: &[u8] = b"\x80\x02\x01";

pub(super) const EMPTY_FILE: &[&[u8]] = &[
    VERSION, BASE, NO_RULES, NO_RECORDS, OTHERS, NO_MARKS, AGAIN,
];

const ONE_FILE: &[&[u8]] = &[VERSION, BASE, ONE_RULE, ONE_RECORD, OTHERS, NO_MARKS, AGAIN];

pub(super) const TOWN_FILE: &[&[u8]] = &[
    VERSION,
    BASE,
    TOWN_RULES_HERE,
    TOWN_RULES,
    TOWN_RECORDS,
    TOWN_ADDRESSES,
    TOWN_POIS,
    TOWN_ROADS,
    NO_MARKS,
    AGAIN,
];

// An hour in the first version, which is read beside the second.
const HOUR_FILE: &[&[u8]] = &[
    FIRST_VERSION,
    HOUR,
    TOWN_RULES_HERE,
    TOWN_RULES,
    TOWN_RECORDS,
    OTHERS,
    SIX_MARKS,
    FIRST_AGAIN,
];

// Words, the files that are there, the one that is written, and what is told.
pub(super) struct Row {
    pub(super) words: &'static [&'static str],
    pub(super) files: &'static [Pieces],
    pub(super) written: Option<Pieces>,
    pub(super) code: u8,
    pub(super) out: &'static str,
    pub(super) err: &'static str,
}

pub(super) const BAD_WORDS: &str = "obf: the words are none of the ten forms\n";

const BUILD: &[&str] = &["build", "r.rules", "b.opl", "out.obf"];

const RULES: Pieces = Pieces {
    name: "r.rules",
    bytes: &[b"point a b 0 map"],
};

const NODE: Pieces = Pieces {
    name: "b.opl",
    bytes: &[b"n1 x0 y0 Ta=b"],
};

const BROKEN: Pieces = Pieces {
    name: "b.opl",
    bytes: &[b"w7 Nn1,n2x1y2"],
};

static ROWS: [Row; 17] = [
    Row {
        words: BUILD,
        files: &[
            Pieces {
                name: "r.rules",
                bytes: &[],
            },
            Pieces {
                name: "b.opl",
                bytes: &[],
            },
        ],
        written: Some(Pieces {
            name: "out.obf",
            bytes: EMPTY_FILE,
        }),
        code: 0,
        out: "base - - 0 0\n",
        err: "",
    },
    Row {
        words: BUILD,
        files: &[RULES, NODE],
        written: Some(Pieces {
            name: "out.obf",
            bytes: ONE_FILE,
        }),
        code: 0,
        out: "base - - 0 1\n",
        err: "",
    },
    Row {
        words: BUILD,
        files: &[
            Pieces {
                name: "r.rules",
                bytes: &[TOWN_RULES],
            },
            Pieces {
                name: "b.opl",
                bytes: &[TOWN],
            },
        ],
        written: Some(Pieces {
            name: "out.obf",
            bytes: TOWN_FILE,
        }),
        code: 0,
        out: "base - - 0 9\n",
        err: "",
    },
    // the output has the name of the base
    Row {
        words: &["build", "r.rules", "b.opl", "b.opl"],
        files: &[RULES, NODE],
        written: Some(Pieces {
            name: "b.opl",
            bytes: ONE_FILE,
        }),
        code: 0,
        out: "base - - 0 1\n",
        err: "",
    },
    // the rules are missing, and the base is broken
    Row {
        words: BUILD,
        files: &[BROKEN],
        written: None,
        code: 4,
        out: "",
        err: "obf: cannot read r.rules\n",
    },
    // the rules are broken, and the base is missing
    Row {
        words: BUILD,
        files: &[Pieces {
            name: "r.rules",
            bytes: &[b"point a b 23 map"],
        }],
        written: None,
        code: 3,
        out: "",
        err: "obf: r.rules: BadZoom at 10\n",
    },
    // the rules are good, and the base is broken
    Row {
        words: BUILD,
        files: &[RULES, BROKEN],
        written: None,
        code: 3,
        out: "",
        err: "obf: b.opl: LocatedRef at 3\n",
    },
    // the rules are good, and the base is missing
    Row {
        words: BUILD,
        files: &[RULES],
        written: None,
        code: 4,
        out: "",
        err: "obf: cannot read b.opl\n",
    },
    Row {
        words: &["build"],
        files: &[RULES, NODE],
        written: None,
        code: 2,
        out: "",
        err: BAD_WORDS,
    },
    Row {
        words: &["build", "r.rules", "b.opl"],
        files: &[RULES, NODE],
        written: None,
        code: 2,
        out: "",
        err: BAD_WORDS,
    },
    Row {
        words: &["build", "r.rules", "b.opl", "out.obf", "more.obf"],
        files: &[RULES, NODE],
        written: None,
        code: 2,
        out: "",
        err: BAD_WORDS,
    },
    Row {
        words: &["check"],
        files: &[RULES, NODE],
        written: None,
        code: 2,
        out: "",
        err: BAD_WORDS,
    },
    Row {
        words: &["check", "a.obf"],
        files: &[],
        written: None,
        code: 4,
        out: "",
        err: "obf: cannot read a.obf\n",
    },
    Row {
        words: &["check", "a.obf"],
        files: &[Pieces {
            name: "a.obf",
            bytes: EMPTY_FILE,
        }],
        written: None,
        code: 0,
        out: "base - - 0 0\n",
        err: "",
    },
    Row {
        words: &["check", "a.obf"],
        files: &[Pieces {
            name: "a.obf",
            bytes: TOWN_FILE,
        }],
        written: None,
        code: 0,
        out: "base - - 0 9\n",
        err: "",
    },
    Row {
        words: &["check", "a.obf"],
        files: &[Pieces {
            name: "a.obf",
            bytes: HOUR_FILE,
        }],
        written: None,
        code: 0,
        out: "hour 2024-02-29-21 2024-02-29-21 6 3\n",
        err: "",
    },
    // an object text is no map file
    Row {
        words: &["check", "b.opl"],
        files: &[NODE],
        written: None,
        code: 3,
        out: "",
        err: "obf: b.opl: BadKey at 0\n",
    },
];

fn joined(alloc: Global, pieces: &[&[u8]]) -> Mem<Vec<u8>> {
    let mut bytes = Vec::new(alloc);
    for piece in pieces {
        bytes.extend_from_slice(piece)?;
    }
    Ok(bytes)
}

pub(super) fn stored(alloc: Global, given: &[Pieces]) -> Mem<Vec<NamedFile>> {
    let mut files = Vec::new(alloc);
    for file in given {
        let name = Text::copied(alloc, file.name)?;
        let bytes = List::from_vec(joined(alloc, file.bytes)?);
        files.push(NamedFile { name, bytes })?;
    }
    Ok(files)
}

// The calls that fail.
#[derive(Clone, Copy)]
pub(super) struct Faults<'a> {
    reads: &'a [u64],
    writes: &'a [u64],
    puts: &'a [u64],
    err_puts: &'a [u64],
}

pub(super) const NO_FAULTS: Faults<'static> = Faults {
    reads: &[],
    writes: &[],
    puts: &[],
    err_puts: &[],
};

// The exit code of a run, and the outside after it.
#[derive(Drop)]
pub(super) struct Left {
    code: u8,
    files: MemFiles,
    out: MemSink,
    err: MemSink,
}

// A run over these files. A read gives 100 bytes at most, and a put of the answer takes 4.
pub(super) fn run_over<A: Abort>(
    rt: &A,
    alloc: Global,
    words: &[&str],
    files: Vec<NamedFile>,
    faults: Faults<'_>,
) -> Mem<Left> {
    assert!(rt; names_differ(files.as_slice()));
    let words = texts(alloc, words)?;
    let reads = faults.reads.to_vec(alloc)?;
    let writes = faults.writes.to_vec(alloc)?;
    let mut files = MemFiles::new(alloc, files, reads, writes, 100);
    let mut out = MemSink::new(alloc, faults.puts.to_vec(alloc)?, 4);
    let mut err = MemSink::new(alloc, faults.err_puts.to_vec(alloc)?, 100);
    let code = run_words(alloc, words.as_slice(), &mut files, &mut out, &mut err).code();
    Ok(Left {
        code,
        files,
        out,
        err,
    })
}

pub(super) fn check_told<A: Abort>(
    rt: &A,
    left: &Left,
    words: &[&str],
    code: u8,
    out: &str,
    err: &str,
) {
    assert_eq!(rt; left.code, code, "{:?}", words);
    assert_eq!(rt; left.out.received(), out.as_bytes(), "{:?}", words);
    assert_eq!(rt; left.err.received(), err.as_bytes(), "{:?}", words);
}

// A file has these bytes after the run.
fn check_holds<A: Abort>(rt: &A, alloc: Global, left: &Left, file: &Pieces) -> Mem<()> {
    let bytes = joined(alloc, file.bytes)?;
    assert_eq!(rt;
        left.files.contents_of(file.name),
        Some(bytes.as_slice()),
        "{}",
        file.name
    );
    Ok(())
}

// The files after the run are those before it, but for the one that is written.
pub(super) fn check_stays<A: Abort>(
    rt: &A,
    alloc: Global,
    left: &Left,
    before: &[Pieces],
    written: Option<&Pieces>,
) -> Mem<()> {
    let name = match written {
        Some(file) => {
            check_holds(rt, alloc, left, file)?;
            file.name
        }
        None => {
            assert!(rt; left.files.contents_of("out.obf").is_none());
            ""
        }
    };
    for file in before {
        if file.name != name {
            check_holds(rt, alloc, left, file)?;
        }
    }
    Ok(())
}

pub(super) fn check_row<A: Abort>(rt: &A, alloc: Global, row: &Row) -> Mem<()> {
    let files = stored(alloc, row.files)?;
    let left = run_over(rt, alloc, row.words, files, NO_FAULTS)?;
    check_told(rt, &left, row.words, row.code, row.out, row.err);
    check_stays(rt, alloc, &left, row.files, row.written.as_ref())
}

#[test]
fn rows_of_files(rt: HostRuntime) -> Result<(), Fail> {
    for row in ROWS.iter() {
        check_row(&rt, rt.alloc(), row)?;
    }
    Ok(())
}

static TOWN_TEXTS: [Pieces; 2] = [
    Pieces {
        name: "r.rules",
        bytes: &[TOWN_RULES],
    },
    Pieces {
        name: "b.opl",
        bytes: &[TOWN],
    },
];

const BUILT_TOWN: Pieces = Pieces {
    name: "out.obf",
    bytes: TOWN_FILE,
};

// Calls that fail in a build of the town, whether its file is written, and what is told.
struct Failing {
    faults: Faults<'static>,
    written: bool,
    code: u8,
    out: &'static str,
    err: &'static str,
}

static FAILING: [Failing; 5] = [
    Failing {
        faults: Faults {
            writes: &[1],
            ..NO_FAULTS
        },
        written: false,
        code: 5,
        out: "",
        err: "obf: cannot write out.obf\n",
    },
    Failing {
        faults: Faults {
            puts: &[2],
            ..NO_FAULTS
        },
        written: true,
        code: 5,
        out: "base",
        err: "obf: cannot write the answer\n",
    },
    Failing {
        faults: Faults {
            writes: &[1],
            err_puts: &[1],
            ..NO_FAULTS
        },
        written: false,
        code: 5,
        out: "",
        err: "",
    },
    Failing {
        faults: Faults {
            puts: &[1],
            err_puts: &[1],
            ..NO_FAULTS
        },
        written: true,
        code: 5,
        out: "",
        err: "",
    },
    Failing {
        faults: Faults {
            reads: &[6],
            err_puts: &[1],
            ..NO_FAULTS
        },
        written: false,
        code: 4,
        out: "",
        err: "",
    },
];

fn check_failing<A: Abort>(rt: &A, alloc: Global, row: &Failing) -> Mem<()> {
    let files = stored(alloc, &TOWN_TEXTS)?;
    let left = run_over(rt, alloc, BUILD, files, row.faults)?;
    check_told(rt, &left, BUILD, row.code, row.out, row.err);
    let written = if row.written { Some(&BUILT_TOWN) } else { None };
    check_stays(rt, alloc, &left, &TOWN_TEXTS, written)
}

#[test]
fn calls_that_fail(rt: HostRuntime) -> Result<(), Fail> {
    for row in FAILING.iter() {
        check_failing(&rt, rt.alloc(), row)?;
    }
    Ok(())
}

// Four reads take the rules, and then seven the base.
fn said_of_read(number: u64) -> &'static str {
    if number <= 4 {
        "obf: cannot read r.rules\n"
    } else {
        "obf: cannot read b.opl\n"
    }
}

// Whether a build of the town meets a fault at this read, and then says so.
fn check_read_fails<A: Abort>(rt: &A, alloc: Global, number: u64) -> Mem<bool> {
    let files = stored(alloc, &TOWN_TEXTS)?;
    let faults = Faults {
        reads: &[number],
        ..NO_FAULTS
    };
    let left = run_over(rt, alloc, BUILD, files, faults)?;
    if left.files.read_faults() == 0 {
        return Ok(false);
    }
    check_told(rt, &left, BUILD, 4, "", said_of_read(number));
    check_stays(rt, alloc, &left, &TOWN_TEXTS, None)?;
    Ok(true)
}

#[test]
fn each_read_fails(rt: HostRuntime) -> Result<(), Fail> {
    for number in 1..=12 {
        let fails = check_read_fails(&rt, rt.alloc(), number)?;
        assert_eq!(rt; fails, number <= 11, "read {}", number);
    }
    Ok(())
}
