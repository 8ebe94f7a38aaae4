//! Stores of nodes that are made up, and changes of them.

use crate::Work;
use crate::state::next;
use entity_store::Store;
use live_model::{Entity, Kind, Line, List, Mem, ObjId, Point};
use std::alloc::Global;

/// Builds a store of so many nodes, and commits so many changes of so many nodes each. What is summed are the places of
/// some nodes afterwards.
pub fn work(alloc: Global, nodes: u32, changes: u32, lines: u32) -> Mem<Work> {
    let mut store = built(alloc, nodes)?;
    change(alloc, &mut store, nodes, changes, lines)?;
    Ok(Work {
        count: u64::from(nodes),
        sum: sum(&store, nodes),
    })
}

/// Builds a store of so many nodes, and goes over it so many times.
pub fn over(alloc: Global, nodes: u32, times: u32) -> Mem<Work> {
    Ok(Work {
        count: u64::from(nodes),
        sum: sum_over(&built(alloc, nodes)?, times),
    })
}

/// A store of so many nodes.
pub fn built(alloc: Global, nodes: u32) -> Mem<Store> {
    Store::from_lines(alloc, all(alloc, nodes)?)
}

/// Stages and commits so many changes of so many of the nodes each.
pub fn change(alloc: Global, store: &mut Store, nodes: u32, changes: u32, lines: u32) -> Mem<()> {
    let mut state = 1u64;
    for _ in 0..changes {
        let moved = some(alloc, nodes, lines, state)?;
        let staged = store.stage(alloc, &moved)?;
        store.commit(staged);
        state = next(state);
    }
    Ok(())
}

/// The places of all nodes, so many times.
pub fn sum_over(store: &Store, times: u32) -> u64 {
    let mut sum = 0u64;
    for _ in 0..times {
        for node in store.entities() {
            sum = sum.wrapping_add(node.place.map_or(0, |place| u64::from(place.x)));
        }
    }
    sum
}

/// The same of a list of lines, beside which going over a store is measured.
pub fn sum_lines(lines: &[Line], times: u32) -> u64 {
    let mut sum = 0u64;
    for _ in 0..times {
        for line in lines {
            if let Line::Live(node) = line {
                sum = sum.wrapping_add(node.place.map_or(0, |place| u64::from(place.x)));
            }
        }
    }
    sum
}

/// The nodes, each in its first place.
pub fn all(alloc: Global, nodes: u32) -> Mem<Vec<Line>> {
    let mut lines = Vec::with_capacity(alloc, nodes as usize)?;
    for number in 0..nodes {
        if let Some(line) = node(alloc, number, number) {
            lines.push(line)?;
        }
    }
    Ok(lines)
}

/// Some of the nodes, moved.
fn some(alloc: Global, nodes: u32, count: u32, seed: u64) -> Mem<Vec<Line>> {
    let mut lines = Vec::with_capacity(alloc, count as usize)?;
    let mut state = seed;
    for _ in 0..count {
        state = next(state);
        let number = ((state >> 33) % u64::from(nodes.max(1))) as u32;
        if let Some(line) = node(alloc, number, ((state >> 13) % 1_000_000_000) as u32) {
            lines.push(line)?;
        }
    }
    Ok(lines)
}

/// The line of a node.
pub fn node(alloc: Global, number: u32, x: u32) -> Option<Line> {
    let id = ObjId::new(Kind::Node, i64::from(number))?;
    Some(Line::Live(Entity {
        id,
        version: 1,
        tags: List::new(alloc),
        place: Some(Point { x, y: 0 }),
        refs: List::new(alloc),
        members: List::new(alloc),
    }))
}

/// The places of a thousand nodes at most, in sum.
pub fn sum(store: &Store, nodes: u32) -> u64 {
    let mut sum = 0u64;
    let mut state = 1u64;
    for _ in 0..1000 {
        state = next(state);
        let number = (state >> 33) % u64::from(nodes.max(1));
        if let Some(id) = ObjId::new(Kind::Node, number as i64) {
            let x = store
                .get(&id)
                .and_then(|node| node.place)
                .map_or(0, |place| u64::from(place.x));
            sum = sum.wrapping_add(x);
        }
    }
    sum
}
