//! Scripts that break, and changes that are missing or break.

use crate::runs::{Case, check_left, check_plays, play};
use live_model::Mem;
use std::alloc::Global;
use std::process::Abort;
use std::test::Fail;

// Each kind at its place. A field that is missing stands at the end of its line, before a carriage return.
static BREAKS: [Case; 16] = [
    Case {
        script: b"9 Q A x",
        code: 3,
        out: "",
        err: "obf: s.txt: BadLane at 0\n",
    },
    Case {
        script: b"# a\n\n  8 Q A x",
        code: 3,
        out: "",
        err: "obf: s.txt: BadLane at 7\n",
    },
    Case {
        script: b"00 Q A x\n",
        code: 3,
        out: "",
        err: "obf: s.txt: BadLane at 0\n",
    },
    Case {
        script: b"0 Q A x\n1 Q A \xFF\n",
        code: 3,
        out: "",
        err: "obf: s.txt: NotUtf8 at 8\n",
    },
    Case {
        script: b"0 R A x",
        code: 3,
        out: "",
        err: "obf: s.txt: BadVerb at 2\n",
    },
    Case {
        script: b"0 \r\n",
        code: 3,
        out: "",
        err: "obf: s.txt: BadVerb at 2\n",
    },
    Case {
        script: b"0 P 2023-02-29-00 c1.opl",
        code: 3,
        out: "",
        err: "obf: s.txt: BadStamp at 4\n",
    },
    Case {
        script: b"0 P\r\n",
        code: 3,
        out: "",
        err: "obf: s.txt: BadStamp at 3\n",
    },
    Case {
        script: b"0 P 2024-02-29-23 \r\n",
        code: 3,
        out: "",
        err: "obf: s.txt: BadName at 18\n",
    },
    Case {
        script: b"0 P 2024-02-29-23 c1,opl",
        code: 3,
        out: "",
        err: "obf: s.txt: BadName at 18\n",
    },
    Case {
        script: b"0 P 2024-02-29-23 c%zz%",
        code: 3,
        out: "",
        err: "obf: s.txt: BadName at 18\n",
    },
    Case {
        script: b"0 P 2024-02-29-23 c1.opl x",
        code: 3,
        out: "",
        err: "obf: s.txt: BadName at 25\n",
    },
    Case {
        script: b"0 Q\r\n",
        code: 3,
        out: "",
        err: "obf: s.txt: BadQuery at 3\n",
    },
    Case {
        script: b"0 Q  V 0 0 1 1",
        code: 3,
        out: "",
        err: "obf: s.txt: BadQuery at 5\n",
    },
    // the first break is reported, and no change is read before
    Case {
        script: b"0 P 2024-02-29-23 none.opl\n0 P 2024-02-29-23",
        code: 3,
        out: "",
        err: "obf: s.txt: BadName at 44\n",
    },
    Case {
        script: b"0 P 2024-02-29-23 broken.opl\n9 Q A x\n",
        code: 3,
        out: "",
        err: "obf: s.txt: BadLane at 29\n",
    },
];

// The first change that is not good ends the run, under its own name.
static CHANGES: [Case; 5] = [
    Case {
        script: b"0 P 2024-02-29-23 none.opl",
        code: 4,
        out: "",
        err: "obf: cannot read none.opl\n",
    },
    Case {
        script: b"0 P 2024-02-29-23 no%20%ne.opl",
        code: 4,
        out: "",
        err: "obf: cannot read no ne.opl\n",
    },
    Case {
        script: b"0 P 2024-02-29-23 broken.opl",
        code: 3,
        out: "",
        err: "obf: broken.opl: LocatedRef at 3\n",
    },
    Case {
        script: b"0 P 2024-02-29-23 c1.opl\n1 P 2024-03-01-00 broken.opl\n1 P 2024-03-01-01 none.opl\n",
        code: 3,
        out: "",
        err: "obf: broken.opl: LocatedRef at 3\n",
    },
    Case {
        script: b"0 P 2024-02-29-23 c1.opl\n1 P 2024-03-01-00 none.opl\n1 P 2024-03-01-01 broken.opl\n",
        code: 4,
        out: "",
        err: "obf: cannot read none.opl\n",
    },
];

#[test]
fn scripts_that_break(rt: HostRuntime) -> Result<(), Fail> {
    check_plays(&rt, rt.alloc(), &BREAKS)?;
    check_plays(&rt, rt.alloc(), &CHANGES)?;
    Ok(())
}

// One line more than a script may have, each of eight bytes, with its line feed.
fn check_many<A: Abort>(rt: &A, alloc: Global) -> Mem<()> {
    let mut script = Vec::new(alloc);
    for _ in 0..100_001 {
        script.extend_from_slice(b"0 Q A x\n")?;
    }
    let left = play(rt, alloc, &script, &[])?;
    check_left(
        rt,
        &left,
        b"0 Q A x",
        3,
        "",
        "obf: s.txt: OverLimit at 800000\n",
    );
    Ok(())
}

#[test]
fn more_lines_than_may_be(rt: HostRuntime) -> Result<(), Fail> {
    check_many(&rt, rt.alloc())?;
    Ok(())
}
