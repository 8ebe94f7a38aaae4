//! The records of the town, and what lines change in them.

use crate::towns::{are_records, changes, town};
use std::test::Fail;

/// The records of the street.
const STREET: [(char, i64); 3] = [('m', 20), ('a', 20), ('r', 20)];

#[test]
fn the_records_of_the_town(rt: HostRuntime) -> Result<(), Fail> {
    let alloc = rt.alloc();
    let records = town(alloc)?.records(alloc)?;
    assert!(rt;
        are_records(
            &records,
            &[
                ('a', 1),
                ('m', 2),
                ('p', 2),
                ('m', 20),
                ('a', 20),
                ('r', 20),
                ('m', 21),
                ('a', 21),
                ('b', 30),
            ]
        )
    );
    Ok(())
}

#[test]
fn an_object_whose_node_changes_is_marked(rt: HostRuntime) -> Result<(), Fail> {
    let alloc = rt.alloc();
    assert!(rt; changes(alloc, "n4 v2 x13.5 y52.6\n", &[20], &STREET)?);
    assert!(rt; changes(alloc, "n4 dD\n", &[20], &STREET)?);
    assert!(rt;
        changes(
            alloc,
            "n5 x1 y1\n",
            &[20, 30],
            &[('m', 20), ('a', 20), ('r', 20), ('b', 30)]
        )?
    );
    Ok(())
}

#[test]
fn objects_that_go_come_or_stay(rt: HostRuntime) -> Result<(), Fail> {
    let alloc = rt.alloc();
    assert!(rt; changes(alloc, "n2 dD\n", &[2], &[])?);
    assert!(rt; changes(alloc, "n77 dD\n", &[], &[])?);
    assert!(rt;
        changes(
            alloc,
            "n2 dD\nn2 Tamenity=cafe x13.1001 y52.4001\n",
            &[2],
            &[('m', 2), ('p', 2)]
        )?
    );
    Ok(())
}
