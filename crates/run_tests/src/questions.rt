//! Questions over map files that lie over one another: which rows are printed, and what is told.

use crate::files::{
    AGAIN, BAD_WORDS, EMPTY_FILE, HOUR, NO_FAULTS, NO_MARKS, NO_RECORDS, OTHERS, Pieces, TOWN_FILE,
    TOWN_RULES, TOWN_RULES_HERE, VERSION, check_stays, check_told, run_over, stored,
};
use crate::hours::{BACK_FILE, MOVED_FILE};
use live_model::Mem;
use std::alloc::Global;
use std::process::Abort;
use std::test::Fail;

// The mark of the cafe, and an hour that removes it.
const CAFE_MARK: &[u8] =
    b"\x86\x01\x00\x00\x00\x00\x00\x00\x00\x09\x0A\x07\x82\x80\x80\x80\x80\x80\x40";

const CAFE_GONE: &[&[u8]] = &[
    VERSION,
    HOUR,
    TOWN_RULES_HERE,
    TOWN_RULES,
    NO_RECORDS,
    OTHERS,
    CAFE_MARK,
    AGAIN,
];

static GONE: Pieces = Pieces {
    name: "gone.obf",
    bytes: CAFE_GONE,
};

// An hour of a map without rules.
const OTHER_HOUR: &[&[u8]] = &[
    VERSION,
    HOUR,
    b"\x1A\x00",
    NO_RECORDS,
    OTHERS,
    NO_MARKS,
    AGAIN,
];

static OTHER: Pieces = Pieces {
    name: "other.obf",
    bytes: OTHER_HOUR,
};

static BROKEN: Pieces = Pieces {
    name: "broken.obf",
    bytes: &[b"n1 x0 y0"],
};

static TOWN: Pieces = Pieces {
    name: "town.obf",
    bytes: TOWN_FILE,
};

static MOVED: Pieces = Pieces {
    name: "h1.obf",
    bytes: MOVED_FILE,
};

static BACK: Pieces = Pieces {
    name: "h2.obf",
    bytes: BACK_FILE,
};

static EMPTY: Pieces = Pieces {
    name: "empty.obf",
    bytes: EMPTY_FILE,
};

const VIEW: &str = "V 13.1 52.4 13.101 52.401 15";

const FAR: &str = "V 13.49 52.59 13.51 52.61 15";

const CAFES: &str = "C cafe 13 52 14 53";

const ROADS: &str = "S 13.101 52.4 13.103 52.401";

const VIEWED: &str =
    "rows 2\nM w20 3 line =Straße x13.1y52.4002,x13.101y52.4002,x13.102y52.4002\nM w21 7 area = x13.1004y52.4004,x13.1006y52.4004,x13.1006y52.4006,x13.1004y52.4004\n";

const CAFE: &str = "rows 1\nP n2 cafe x13.1001y52.4001 =Bo%20%Bar\n";

const STREET: &str = "rows 1\nA w20 street x13.101y52.4002 =Straße\n";

const HOUSE: &str = "rows 1\nH w21 x13.1005y52.4005 =3 =Straße\n";

const SEGMENTS: &str =
    "rows 3\nR w20 0 n3 n4 b x13.1y52.4002 x13.101y52.4002 =residential\nR w20 1 n4 n5 b x13.101y52.4002 x13.102y52.4002 =residential\nX r30 w20 n5 w22 x13.102y52.4002 =no_left_turn\n";

const NONE: &str = "rows 0\n";

// The files that questions are asked over.
#[derive(Clone, Copy)]
enum Map {
    Town,
    Moved,
    Back,
    Gone,
    Other,
    Empty,
    Broken,
}

fn pieces(map: Map) -> Pieces {
    match map {
        Map::Town => TOWN,
        Map::Moved => MOVED,
        Map::Back => BACK,
        Map::Gone => GONE,
        Map::Other => OTHER,
        Map::Empty => EMPTY,
        Map::Broken => BROKEN,
    }
}

// A question, the files that it is asked over, in their order, and what is told.
struct Question {
    query: &'static str,
    over: &'static [Map],
    code: u8,
    out: &'static str,
    err: &'static str,
}

static QUESTIONS: [Question; 22] = [
    Question {
        query: VIEW,
        over: &[Map::Town],
        code: 0,
        out: VIEWED,
        err: "",
    },
    Question {
        query: CAFES,
        over: &[Map::Town],
        code: 0,
        out: CAFE,
        err: "",
    },
    Question {
        query: "A STRASSE",
        over: &[Map::Town],
        code: 0,
        out: STREET,
        err: "",
    },
    Question {
        query: "H strasse",
        over: &[Map::Town],
        code: 0,
        out: HOUSE,
        err: "",
    },
    // edges belong to the rectangle, and the middle of the road is its node
    Question {
        query: ROADS,
        over: &[Map::Town],
        code: 0,
        out: SEGMENTS,
        err: "",
    },
    Question {
        query: "V -180 -90 180 90 22",
        over: &[Map::Empty],
        code: 0,
        out: NONE,
        err: "",
    },
    Question {
        query: FAR,
        over: &[Map::Town],
        code: 0,
        out: NONE,
        err: "",
    },
    // the street has moved, and is not where it was
    Question {
        query: FAR,
        over: &[Map::Town, Map::Moved],
        code: 0,
        out: "rows 1\nM w20 3 line =Straße x13.1y52.4002,x13.5y52.6,x13.102y52.4002\n",
        err: "",
    },
    Question {
        query: CAFES,
        over: &[Map::Town, Map::Moved],
        code: 0,
        out: CAFE,
        err: "",
    },
    // and has moved back
    Question {
        query: VIEW,
        over: &[Map::Town, Map::Moved, Map::Back],
        code: 0,
        out: VIEWED,
        err: "",
    },
    Question {
        query: FAR,
        over: &[Map::Town, Map::Moved, Map::Back],
        code: 0,
        out: NONE,
        err: "",
    },
    Question {
        query: "A STRASSE",
        over: &[Map::Town, Map::Moved, Map::Back],
        code: 0,
        out: STREET,
        err: "",
    },
    Question {
        query: "H strasse",
        over: &[Map::Town, Map::Moved, Map::Back],
        code: 0,
        out: HOUSE,
        err: "",
    },
    Question {
        query: ROADS,
        over: &[Map::Town, Map::Moved, Map::Back],
        code: 0,
        out: SEGMENTS,
        err: "",
    },
    // a mark without records hides what lies below
    Question {
        query: CAFES,
        over: &[Map::Town, Map::Gone],
        code: 0,
        out: NONE,
        err: "",
    },
    Question {
        query: VIEW,
        over: &[Map::Moved],
        code: 3,
        out: "",
        err: "obf: h1.obf: NotBase as file 0\n",
    },
    Question {
        query: VIEW,
        over: &[Map::Town, Map::Back, Map::Moved],
        code: 3,
        out: "",
        err: "obf: h1.obf: StampNotLater as file 2\n",
    },
    Question {
        query: VIEW,
        over: &[Map::Town, Map::Moved, Map::Empty],
        code: 3,
        out: "",
        err: "obf: empty.obf: IsBase as file 2\n",
    },
    Question {
        query: VIEW,
        over: &[Map::Town, Map::Other],
        code: 3,
        out: "",
        err: "obf: other.obf: OtherRules as file 1\n",
    },
    // all files are good before it is asked whether they follow
    Question {
        query: VIEW,
        over: &[Map::Moved, Map::Broken],
        code: 3,
        out: "",
        err: "obf: broken.obf: BadKey at 0\n",
    },
    // no question, and no file
    Question {
        query: "V 13.1 52.4 13.101 52.401",
        over: &[Map::Town],
        code: 2,
        out: "",
        err: BAD_WORDS,
    },
    Question {
        query: VIEW,
        over: &[],
        code: 2,
        out: "",
        err: BAD_WORDS,
    },
];

fn check_question<A: Abort>(rt: &A, alloc: Global, question: &Question) -> Mem<()> {
    let mut words = Vec::new(alloc);
    words.push("ask")?;
    words.push(question.query)?;
    let mut over = Vec::new(alloc);
    for map in question.over {
        let file = pieces(*map);
        words.push(file.name)?;
        over.push(file)?;
    }
    let files = stored(alloc, &over)?;
    let left = run_over(rt, alloc, &words, files, NO_FAULTS)?;
    check_told(rt, &left, &words, question.code, question.out, question.err);
    check_stays(rt, alloc, &left, &over, None)
}

#[test]
fn rows_of_questions(rt: HostRuntime) -> Result<(), Fail> {
    for question in QUESTIONS.iter() {
        check_question(&rt, rt.alloc(), question)?;
    }
    Ok(())
}

// So many names of a file that is missing, and what is told.
fn check_many<A: Abort>(rt: &A, alloc: Global, count: usize, code: u8, err: &str) -> Mem<()> {
    let mut words = Vec::new(alloc);
    words.push("ask")?;
    words.push(VIEW)?;
    for _ in 0..count {
        words.push("none.obf")?;
    }
    let left = run_over(rt, alloc, &words, Vec::new(alloc), NO_FAULTS)?;
    check_told(rt, &left, &[], code, "", err);
    Ok(())
}

#[test]
fn more_files_than_may_be(rt: HostRuntime) -> Result<(), Fail> {
    let alloc = rt.alloc();
    check_many(&rt, alloc, 1024, 4, "obf: cannot read none.obf\n")?;
    check_many(&rt, alloc, 1025, 7, "obf: too many files\n")?;
    Ok(())
}
