//! Changes that are staged, committed and dropped.

use entity_store::{Look, Store};
use live_model::{Entity, Kind, Line, List, ObjId, Point};
use std::alloc::Global;
use std::test::Fail;

fn shared<T: Send + Sync>(_: &T) {}

/// A node with this number.
fn id(number: i64) -> Result<ObjId, Fail> {
    Ok(ObjId::new(Kind::Node, number).ok_or("an id")?)
}

/// The line of a node in this place.
fn node(alloc: Global, number: i64, x: u32) -> Result<Line, Fail> {
    Ok(Line::Live(Entity {
        id: id(number)?,
        version: 1,
        tags: List::new(alloc),
        place: Some(Point { x, y: 0 }),
        refs: List::new(alloc),
        members: List::new(alloc),
    }))
}

/// Where a look has a node, or 0.
fn place(look: &Look<'_>, number: i64) -> u32 {
    look.node(number)
        .and_then(|node| node.place)
        .map_or(0, |place| place.x)
}

#[test]
fn a_node_that_moves_forty_times(rt: HostRuntime) -> Result<(), Fail> {
    let alloc = rt.alloc();
    let mut store = Store::build(alloc, &vec![in alloc; node(alloc, 1, 1)?]?)?;
    for x in 2..42u32 {
        let staged = store.stage(alloc, &vec![in alloc; node(alloc, 1, x)?]?)?;
        assert!(rt; store.depth() <= 32);
        assert_eq!(rt; place(&Look::now(&store), 1), x - 1);
        assert_eq!(rt; place(&Look::then(&store, &staged), 1), x);
        store.commit(staged);
        assert_eq!(rt; place(&Look::now(&store), 1), x);
    }
    assert!(rt; store.next_after(Some(&id(1)?)).is_none());
    Ok(())
}

#[test]
fn what_is_staged_and_dropped_leaves_the_store(rt: HostRuntime) -> Result<(), Fail> {
    let alloc = rt.alloc();
    let mut store = Store::build(
        alloc,
        &vec![in alloc; node(alloc, 1, 1)?, node(alloc, 2, 2)?]?,
    )?;
    let lines = vec![in alloc; Line::Gone(id(1)?, 2), node(alloc, 3, 3)?]?;
    let staged = store.stage(alloc, &lines)?;
    shared(&staged);
    let then = Look::then(&store, &staged);
    assert!(rt; then.node(1).is_none());
    assert_eq!(rt; (place(&then, 2), place(&then, 3)), (2, 3));
    drop(then);
    drop(staged);
    let now = Look::now(&store);
    assert_eq!(rt; (place(&now, 1), place(&now, 2), place(&now, 3)), (1, 2, 0));
    shared(&store);
    Ok(())
}

#[test]
fn a_node_is_moved_and_removed_in_one_list(rt: HostRuntime) -> Result<(), Fail> {
    let alloc = rt.alloc();
    let mut store = Store::build(
        alloc,
        &vec![in alloc; node(alloc, 1, 1)?, node(alloc, 2, 2)?]?,
    )?;
    let lines = vec![in alloc;
        node(alloc, 2, 7)?,
        node(alloc, 1, 8)?,
        Line::Gone(id(2)?, 3),
    ]?;
    let staged = store.stage(alloc, &lines)?;
    store.commit(staged);
    let now = Look::now(&store);
    assert!(rt; now.node(2).is_none());
    assert_eq!(rt; place(&now, 1), 8);
    assert!(rt; store.next_after(Some(&id(1)?)).is_none());
    Ok(())
}
