//! Lines that the fast reader answers, since a reader that never answers would keep its promise too.

use opl_reader::Line;
use opl_rows::{Row, read_line};
use std::test::Fail;

/// Lines as they mostly stand: each kind of object, each field, escapes, tabs, and a field that comes early.
const COMMON: [&str; 8] = [
    "n1 v2 dV c3 t2024-02-29T21:00:00Z i4 uSome%20%one Tname=B%e9%r,shop=x x13.1234567 y-52.4",
    "n-3 \t\ty2 x1",
    "n5 v4294967295 dD",
    "n6 T x y",
    "w20 Thighway=residential,name=Hof Nn3,n4,n-5",
    "w21 N",
    "r30 Mw20@from,n5@via,r-7@a%2c%b Ttype=restriction",
    "r31 M",
];

/// Lines that are left to the exact reader: a key that comes twice, and keys that do not rise.
const RARE: [&str; 2] = ["n1 Ta=1,a=2", "n1 Tb=1,a=2"];

#[test]
fn common_lines_are_answered(rt: HostRuntime) -> Result<(), Fail> {
    let alloc = rt.alloc();
    let mut row = Row::new(alloc);
    for text in COMMON {
        let line = read_line(alloc, text.as_bytes(), &mut row)?;
        assert!(rt; line.is_some(), "{text}");
    }
    for text in RARE {
        let line = read_line(alloc, text.as_bytes(), &mut row)?;
        assert!(rt; line.is_none(), "{text}");
    }
    Ok(())
}

#[test]
fn a_relation_is_read_in_one_pass(rt: HostRuntime) -> Result<(), Fail> {
    let alloc = rt.alloc();
    let mut row = Row::new(alloc);
    let line = read_line(
        alloc,
        b"r30 v7 Mw20@from,n5@,r-7@a%2c%b Ta=1,b=%3d%2",
        &mut row,
    )?;
    let Some(Line::Live(relation)) = line else {
        assert!(rt; false, "the line is answered");
        return Ok(());
    };
    assert_eq!(rt; relation.version, 7);
    match relation.members.as_slice() {
        [first, second, third] => {
            assert_eq!(rt; first.target.number(), 20);
            assert!(rt; first.role.as_str() == "from");
            assert!(rt; second.role.is_empty());
            assert_eq!(rt; third.target.number(), -7);
            assert!(rt; third.role.as_str() == "a,b");
        }
        _ => assert!(rt; false, "there are three members"),
    }
    match relation.tags.as_slice() {
        [_, tag] => assert!(rt; tag.value.as_str() == "=2"),
        _ => assert!(rt; false, "there are two tags"),
    }
    Ok(())
}
