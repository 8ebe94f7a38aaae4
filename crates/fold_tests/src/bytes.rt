//! The bytes of a fold, as a plain packer makes them.

use crate::sessions::{Given, Step, check_session, stored};
use std::test::Fail;

// Two nodes; the first goes, the second moves twice, and a third comes.
static FILES: [Given; 4] = [
    ("a.rules", "point a b 0 map"),
    ("a.opl", "n1 x0 y0 Ta=b\nn2 x1 y1 Ta=b\n"),
    ("k1.opl", "n1 dD\nn2 x2 y2 Ta=b\n"),
    ("k2.opl", "n2 x3 y3 Ta=b\nn3 x4 y4 Ta=b\n"),
];

static STEPS: [Step; 3] = [
    Step {
        words: &[
            "change",
            "a.rules",
            "a.opl",
            "2024-02-29-21",
            "h1.obf",
            "k1.opl",
        ],
        code: 0,
        out: "hour 2024-02-29-21 2024-02-29-21 2 1\n",
        err: "",
    },
    Step {
        words: &[
            "change",
            "a.rules",
            "a.opl",
            "2024-02-29-22",
            "h2.obf",
            "k1.opl",
            "k2.opl",
        ],
        code: 0,
        out: "hour 2024-02-29-22 2024-02-29-22 2 2\n",
        err: "",
    },
    Step {
        words: &["fold", "day", "d.obf", "h1.obf", "h2.obf"],
        code: 0,
        out: "day 2024-02-29-21 2024-02-29-22 3 2\n",
        err: "",
    },
];

// The second node and the third, where the last hour has them, and the marks of all three.
const DAY: &[u8] =
    b"\x08\x02\x12\x0E\x08\x02\x10\x89\xC7\x90\xC5\x07\x18\x8A\xC7\x90\xC5\x07\x1A\x10point a b 0 map\n\x36\x00\x00\x00\x00\x00\x00\x00\x67\x0E\x00\x00\x00\x00\x00\x00\x00\x1A\x08\x80\xAB\xCE\xE8\x06\x10\x80\x9E\x8A\x9A\x03\x18\x80\xD8\xB0\xED\x06\x20\x80\xCB\xEC\x9E\x03\x28\x00\x16\x00\x00\x00\x00\x00\x00\x00\x3B\x0E\x00\x00\x00\x00\x00\x00\x00\x00\x12\x1A\x08\x82\x80\x80\x80\x80\x80\x40\x10\x00\x18\x00\x20\x00\x2A\x0A\x80\xD6\x9C\xD1\x0D\x80\x96\xD9\xBD\x06\x12\x14\x08\x01\x10\x00\x18\x00\x20\x00\x2A\x0A\x80\xB0\xE1\xDA\x0D\x80\xBC\x94\xB4\x06\x3E\x00\x00\x00\x00\x00\x00\x00\x12\x0E\x00\x00\x00\x00\x00\x00\x00\x00\x16\x00\x00\x00\x00\x00\x00\x00\x00\x46\x00\x00\x00\x00\x00\x00\x00\x00\x4E\x00\x00\x00\x00\x00\x00\x00\x24\x0E\x00\x00\x00\x00\x00\x00\x00\x09\x0E\x00\x00\x00\x00\x00\x00\x00\x00\x16\x00\x00\x00\x00\x00\x00\x00\x09\x0E\x00\x00\x00\x00\x00\x00\x00\x00\x86\x01\x00\x00\x00\x00\x00\x00\x00\x0B\x0A\x09\x81\x80\x80\x80\x80\x80\x40\x01\x01\x80\x02\x02";

#[test]
fn bytes_of_a_day(rt: HostRuntime) -> Result<(), Fail> {
    let alloc = rt.alloc();
    let mut files = stored(&rt, alloc, &FILES, &[])?;
    check_session(&rt, alloc, &mut files, &STEPS)?;
    assert_eq!(rt; files.contents_of("d.obf"), Some(DAY));
    Ok(())
}
