//! Scripts that are played to their end: what is printed of them.

use crate::runs::{Case, check_plays};
use std::test::Fail;

static PLAYS: [Case; 6] = [
    // two lanes; the last stamp is taken twice
    Case {
        script: b"0 P 2024-02-29-23 c1.opl\n0 Q V 13.49 52.59 13.51 52.61 15\n1 P 2024-03-01-00 c2.opl\n1 Q V 13.49 52.59 13.51 52.61 15\n1 P 2024-03-01-00 c1.opl\n",
        code: 0,
        out: "1 P ok 1\n2 Q 1 1\nM w20 3 line =Straße x13.1y52.4002,x13.5y52.6,x13.102y52.4002\n3 P ok 2\n4 Q 2 0\n5 P late 2 2024-03-01-00\nhistory 2\n1 2024-02-29-23 1\n2 2024-03-01-00 3\nfiles 3\nbase - - 0 9\nmonth 2024-02-29-23 2024-02-29-23 1 3\nhour 2024-03-01-00 2024-03-01-00 1 3\n",
        err: "",
    },
    // a name with an escape, and no line feed at the end
    Case {
        script: b"0 P 2024-02-29-23 c%20%1.opl\r\n0 Q V 13.49 52.59 13.51 52.61 15",
        code: 0,
        out: "1 P ok 1\n2 Q 1 1\nM w20 3 line =Straße x13.1y52.4002,x13.5y52.6,x13.102y52.4002\nhistory 1\n1 2024-02-29-23 1\nfiles 2\nbase - - 0 9\nhour 2024-02-29-23 2024-02-29-23 1 3\n",
        err: "",
    },
    // the lines are played in their order, whatever their lanes are; the second change alone moves nothing
    Case {
        script: b"1 P 2024-03-01-00 c2.opl\n0 P 2024-02-29-23 c1.opl\n0 Q V 13.49 52.59 13.51 52.61 15\n",
        code: 0,
        out: "1 P ok 1\n2 P late 1 2024-03-01-00\n3 Q 1 0\nhistory 1\n1 2024-03-01-00 1\nfiles 2\nbase - - 0 9\nhour 2024-03-01-00 2024-03-01-00 0 0\n",
        err: "",
    },
    // lines that are skipped are not counted, and a day that is over becomes one file
    Case {
        script: b"# the street moves, and the cafe goes\n\n7 Q C cafe 13 52 14 53\n0 P 2024-02-28-21 c1.opl\n \t\n0 P 2024-02-28-22 c2.opl\n7 Q A STRASSE\n# 0 P 2024-02-28-23 none.opl\n0 P 2024-02-29-00 gone.opl\n7 Q C cafe 13 52 14 53\n",
        code: 0,
        out: "1 Q 0 1\nP n2 cafe x13.1001y52.4001 =Bo%20%Bar\n2 P ok 1\n3 P ok 2\n4 Q 2 1\nA w20 street x13.101y52.4002 =Straße\n5 P ok 3\n6 Q 3 0\nhistory 3\n1 2024-02-28-21 2\n2 2024-02-28-22 3\n3 2024-02-29-00 5\nfiles 3\nbase - - 0 9\nday 2024-02-28-21 2024-02-28-22 1 3\nhour 2024-02-29-00 2024-02-29-00 1 0\n",
        err: "",
    },
    // a change that is late is read all the same
    Case {
        script: b"0 P 2024-03-01-00 c2.opl\n0 P 2024-03-01-00 broken.opl\n",
        code: 3,
        out: "",
        err: "obf: broken.opl: LocatedRef at 3\n",
    },
    // no line at all
    Case {
        script: b"# nothing\n",
        code: 0,
        out: "history 0\nfiles 1\nbase - - 0 9\n",
        err: "",
    },
];

#[test]
fn scripts_are_played(rt: HostRuntime) -> Result<(), Fail> {
    check_plays(&rt, rt.alloc(), &PLAYS)?;
    Ok(())
}
