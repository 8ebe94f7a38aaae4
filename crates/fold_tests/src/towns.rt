//! The hours of a small town, and what becomes of them.

use crate::sessions::{Given, Step, check_session, stored};
use std::test::Fail;

const RULES: &str =
    "point amenity cafe 15 poi.cafe\npoint amenity * 16 map\npoint place town 8 place\nline highway residential 14 map\nline highway residential 14 road\nline highway primary 10 map\nline highway primary 10 road\narea building * 15 map\narea leisure park 12 poi.park\n";

const TOWN: &str =
    "n1 v1 dV c10 t2024-01-05T10:00:00Z i7 uada Tplace=town,name=Aldorf x13.1 y52.4\nn2 v1 dV Tamenity=cafe,name=Bo%20%Bar x13.1001 y52.4001\nn3 v1 x13.1 y52.4002\nn4 v1 x13.101 y52.4002\nn5 v1 x13.102 y52.4002\nn6 v1 x13.1004 y52.4004\nn7 v1 x13.1006 y52.4004\nn8 v1 x13.1006 y52.4006\nw20 v1 Thighway=residential,name=Stra%df%e Nn3,n4,n5\nw21 v1 Tbuilding=yes,addr:street=Stra%df%e,addr:housenumber=3 Nn6,n7,n8,n6\nw22 v1 Thighway=primary,oneway=yes Nn5,n99\nr30 v1 Ttype=restriction,restriction=no_left_turn Mw20@from,n5@via,w22@to\n";

// A node of the street moves, and moves back; the cafe gets another name, and is gone.
static FILES: [Given; 7] = [
    ("town.rules", RULES),
    (
        "other.rules",
        "point amenity cafe 15 poi.cafe\nline highway residential 14 map\n",
    ),
    ("town.opl", TOWN),
    ("c1.opl", "n4 v2 x13.5 y52.6\n"),
    ("c2.opl", "n4 v3 x13.101 y52.4002\n"),
    (
        "name.opl",
        "n2 v2 Tamenity=cafe,name=Hof x13.1001 y52.4001\n",
    ),
    ("gone.opl", "n2 dD\n"),
];

const VIEW: &str = "V 13.1 52.4 13.101 52.401 15";

const FAR: &str = "V 13.49 52.59 13.51 52.61 15";

const CAFES: &str = "C cafe 13 52 14 53";

const ROADS: &str = "S 13.101 52.4 13.103 52.401";

const VIEWED: &str =
    "rows 2\nM w20 3 line =Straße x13.1y52.4002,x13.101y52.4002,x13.102y52.4002\nM w21 7 area = x13.1004y52.4004,x13.1006y52.4004,x13.1006y52.4006,x13.1004y52.4004\n";

const SEGMENTS: &str =
    "rows 3\nR w20 0 n3 n4 b x13.1y52.4002 x13.101y52.4002 =residential\nR w20 1 n4 n5 b x13.101y52.4002 x13.102y52.4002 =residential\nX r30 w20 n5 w22 x13.102y52.4002 =no_left_turn\n";

// The base, an hour of the day before, and two of the day.
static HOURS: [Step; 4] = [
    Step {
        words: &["build", "town.rules", "town.opl", "town.obf"],
        code: 0,
        out: "base - - 0 9\n",
        err: "",
    },
    Step {
        words: &[
            "change",
            "town.rules",
            "town.opl",
            "2024-02-28-23",
            "h0.obf",
            "c1.opl",
        ],
        code: 0,
        out: "hour 2024-02-28-23 2024-02-28-23 1 3\n",
        err: "",
    },
    Step {
        words: &[
            "change",
            "town.rules",
            "town.opl",
            "2024-02-29-21",
            "h1.obf",
            "c1.opl",
        ],
        code: 0,
        out: "hour 2024-02-29-21 2024-02-29-21 1 3\n",
        err: "",
    },
    Step {
        words: &[
            "change",
            "town.rules",
            "town.opl",
            "2024-02-29-22",
            "h2.obf",
            "c1.opl",
            "c2.opl",
        ],
        code: 0,
        out: "hour 2024-02-29-22 2024-02-29-22 1 3\n",
        err: "",
    },
];

// An hour of other rules, and two of the first day of the next month: the cafe with its new name, and without it.
static MORE_HOURS: [Step; 3] = [
    Step {
        words: &[
            "change",
            "other.rules",
            "town.opl",
            "2024-02-29-21",
            "o.obf",
            "c1.opl",
            "c2.opl",
        ],
        code: 0,
        out: "hour 2024-02-29-21 2024-02-29-21 1 1\n",
        err: "",
    },
    Step {
        words: &[
            "change",
            "town.rules",
            "town.opl",
            "2024-03-01-00",
            "e0.obf",
            "c1.opl",
            "c2.opl",
            "name.opl",
        ],
        code: 0,
        out: "hour 2024-03-01-00 2024-03-01-00 1 2\n",
        err: "",
    },
    Step {
        words: &[
            "change",
            "town.rules",
            "town.opl",
            "2024-03-01-01",
            "e1.obf",
            "c1.opl",
            "c2.opl",
            "name.opl",
            "gone.opl",
        ],
        code: 0,
        out: "hour 2024-03-01-01 2024-03-01-01 1 0\n",
        err: "",
    },
];

static FOLDS: [Step; 22] = [
    Step {
        words: &["fold", "day", "d.obf", "h1.obf", "h2.obf"],
        code: 0,
        out: "day 2024-02-29-21 2024-02-29-22 1 3\n",
        err: "",
    },
    Step {
        words: &["check", "d.obf"],
        code: 0,
        out: "day 2024-02-29-21 2024-02-29-22 1 3\n",
        err: "",
    },
    // the town is as it was
    Step {
        words: &["ask", VIEW, "town.obf", "d.obf"],
        code: 0,
        out: VIEWED,
        err: "",
    },
    Step {
        words: &["ask", FAR, "town.obf", "d.obf"],
        code: 0,
        out: "rows 0\n",
        err: "",
    },
    Step {
        words: &["ask", CAFES, "town.obf", "d.obf"],
        code: 0,
        out: "rows 1\nP n2 cafe x13.1001y52.4001 =Bo%20%Bar\n",
        err: "",
    },
    Step {
        words: &["ask", "A STRASSE", "town.obf", "d.obf"],
        code: 0,
        out: "rows 1\nA w20 street x13.101y52.4002 =Straße\n",
        err: "",
    },
    Step {
        words: &["ask", "H strasse", "town.obf", "d.obf"],
        code: 0,
        out: "rows 1\nH w21 x13.1005y52.4005 =3 =Straße\n",
        err: "",
    },
    Step {
        words: &["ask", ROADS, "town.obf", "d.obf"],
        code: 0,
        out: SEGMENTS,
        err: "",
    },
    // one file alone, which has the records of its hour
    Step {
        words: &["fold", "day", "alone.obf", "e0.obf"],
        code: 0,
        out: "day 2024-03-01-00 2024-03-01-00 1 2\n",
        err: "",
    },
    Step {
        words: &["ask", CAFES, "town.obf", "alone.obf"],
        code: 0,
        out: "rows 1\nP n2 cafe x13.1001y52.4001 =Hof\n",
        err: "",
    },
    // a mark without records stays
    Step {
        words: &["fold", "month", "marks.obf", "e1.obf"],
        code: 0,
        out: "month 2024-03-01-01 2024-03-01-01 1 0\n",
        err: "",
    },
    // the later hour removes the records of the earlier one, and the mark stays
    Step {
        words: &["fold", "day", "e.obf", "e0.obf", "e1.obf"],
        code: 0,
        out: "day 2024-03-01-00 2024-03-01-01 1 0\n",
        err: "",
    },
    Step {
        words: &["ask", CAFES, "town.obf", "e.obf"],
        code: 0,
        out: "rows 0\n",
        err: "",
    },
    // a month over two days
    Step {
        words: &["fold", "month", "m.obf", "h0.obf", "h2.obf"],
        code: 0,
        out: "month 2024-02-28-23 2024-02-29-22 1 3\n",
        err: "",
    },
    Step {
        words: &["ask", FAR, "town.obf", "m.obf"],
        code: 0,
        out: "rows 0\n",
        err: "",
    },
    // an hour and a day, under the name of the day
    Step {
        words: &["fold", "month", "d.obf", "h0.obf", "d.obf"],
        code: 0,
        out: "month 2024-02-28-23 2024-02-29-22 1 3\n",
        err: "",
    },
    Step {
        words: &["check", "d.obf"],
        code: 0,
        out: "month 2024-02-28-23 2024-02-29-22 1 3\n",
        err: "",
    },
    Step {
        words: &["ask", VIEW, "town.obf", "d.obf"],
        code: 0,
        out: VIEWED,
        err: "",
    },
    // a month and a day of the next
    Step {
        words: &["ask", CAFES, "town.obf", "d.obf", "alone.obf"],
        code: 0,
        out: "rows 1\nP n2 cafe x13.1001y52.4001 =Hof\n",
        err: "",
    },
    Step {
        words: &["ask", VIEW, "town.obf", "d.obf", "e.obf"],
        code: 0,
        out: VIEWED,
        err: "",
    },
    Step {
        words: &["ask", CAFES, "town.obf", "d.obf", "e.obf"],
        code: 0,
        out: "rows 0\n",
        err: "",
    },
    // a fold is no base
    Step {
        words: &["ask", CAFES, "d.obf"],
        code: 3,
        out: "",
        err: "obf: d.obf: NotBase as file 0\n",
    },
];

// Files that cannot become one, and files that are none.
static REFUSALS: [Step; 10] = [
    Step {
        words: &["fold", "day", "none.obf", "h2.obf", "h1.obf"],
        code: 3,
        out: "",
        err: "obf: h1.obf: StampNotLater as file 1\n",
    },
    // one hour is not after itself
    Step {
        words: &["fold", "day", "none.obf", "h1.obf", "h1.obf"],
        code: 3,
        out: "",
        err: "obf: h1.obf: StampNotLater as file 1\n",
    },
    // other rules come before the hour
    Step {
        words: &["fold", "day", "none.obf", "h2.obf", "o.obf"],
        code: 3,
        out: "",
        err: "obf: o.obf: OtherRules as file 1\n",
    },
    Step {
        words: &["fold", "day", "none.obf", "town.obf", "h1.obf"],
        code: 3,
        out: "",
        err: "obf: town.obf: IsBase as file 0\n",
    },
    Step {
        words: &["fold", "month", "none.obf", "h1.obf", "town.obf", "h1.obf"],
        code: 3,
        out: "",
        err: "obf: town.obf: IsBase as file 1\n",
    },
    // another day, and another month
    Step {
        words: &["fold", "day", "none.obf", "h0.obf", "h2.obf"],
        code: 3,
        out: "",
        err: "obf: h2.obf: OtherPeriod as file 1\n",
    },
    Step {
        words: &["fold", "month", "none.obf", "h0.obf", "h2.obf", "e0.obf"],
        code: 3,
        out: "",
        err: "obf: e0.obf: OtherPeriod as file 2\n",
    },
    // all files are good before it is asked whether they can become one
    Step {
        words: &["fold", "day", "none.obf", "town.obf", "c1.opl"],
        code: 3,
        out: "",
        err: "obf: c1.opl: BadKey at 0\n",
    },
    Step {
        words: &["fold", "day", "none.obf", "h1.obf", "none.obf", "c1.opl"],
        code: 4,
        out: "",
        err: "obf: cannot read none.obf\n",
    },
    // what was refused before is no file
    Step {
        words: &["check", "none.obf"],
        code: 4,
        out: "",
        err: "obf: cannot read none.obf\n",
    },
];

#[test]
fn folds_of_hours(rt: HostRuntime) -> Result<(), Fail> {
    let alloc = rt.alloc();
    let mut files = stored(&rt, alloc, &FILES, &[])?;
    check_session(&rt, alloc, &mut files, &HOURS)?;
    check_session(&rt, alloc, &mut files, &MORE_HOURS)?;
    check_session(&rt, alloc, &mut files, &FOLDS)?;
    check_session(&rt, alloc, &mut files, &REFUSALS)?;
    Ok(())
}

// After four writes that are done one fails.
static LOST: [Step; 2] = [
    Step {
        words: &["fold", "day", "d.obf", "h1.obf", "h2.obf"],
        code: 5,
        out: "",
        err: "obf: cannot write d.obf\n",
    },
    Step {
        words: &["check", "d.obf"],
        code: 4,
        out: "",
        err: "obf: cannot read d.obf\n",
    },
];

#[test]
fn a_write_that_fails(rt: HostRuntime) -> Result<(), Fail> {
    let alloc = rt.alloc();
    let mut files = stored(&rt, alloc, &FILES, &[5])?;
    check_session(&rt, alloc, &mut files, &HOURS)?;
    check_session(&rt, alloc, &mut files, &LOST)?;
    Ok(())
}
