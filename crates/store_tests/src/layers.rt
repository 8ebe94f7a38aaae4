//! Two layers are a map, before and after they are merged.

use layer_table::{Layer, Layered};
use std::alloc::Global;
use std::test::Fail;

/// The value at a key, or 0.
fn at(table: &Layered<u64, u8>, key: u64) -> u8 {
    table.get(&key).map_or(0, |value| *value)
}

/// Lays a layer of these changes over a table.
fn lay(
    alloc: Global,
    table: &mut Layered<u64, u8>,
    changes: Vec<(u64, Option<u8>)>,
) -> Result<(), Fail> {
    let layer = Layer::from_rising(alloc, changes)?.ok_or("keys that rise")?;
    table.reserve_layer()?;
    table.push_layer(layer);
    Ok(())
}

#[test]
fn two_layers_are_a_map(rt: HostRuntime) -> Result<(), Fail> {
    let alloc = rt.alloc();
    let mut table = Layered::new(alloc);
    lay(
        alloc,
        &mut table,
        vec![in alloc; (1u64, Some(10u8)), (2, Some(20))]?,
    )?;
    lay(
        alloc,
        &mut table,
        vec![in alloc; (1u64, None), (3, Some(30u8))]?,
    )?;
    assert_eq!(rt; table.depth(), 2);
    assert_eq!(rt; (at(&table, 1), at(&table, 2), at(&table, 3)), (0, 20, 30));
    assert_eq!(rt; table.next_after(None).map_or(0, |pair| *pair.0), 2);
    assert_eq!(rt; table.next_after(Some(&2)).map_or(0, |pair| *pair.0), 3);
    assert!(rt; table.next_after(Some(&3)).is_none());
    let spare = table.spare();
    table.compact(alloc)?;
    assert_eq!(rt; table.depth(), 1);
    assert!(rt; table.spare() >= spare);
    assert_eq!(rt; (at(&table, 1), at(&table, 2), at(&table, 3)), (0, 20, 30));
    assert!(rt; table.next_after(Some(&3)).is_none());
    Ok(())
}

#[test]
fn keys_have_to_rise(rt: HostRuntime) -> Result<(), Fail> {
    let alloc = rt.alloc();
    let twice = vec![in alloc; (1u64, Some(1u8)), (1, Some(2))]?;
    assert!(rt; Layer::from_rising(alloc, twice)?.is_none());
    let falling = vec![in alloc; (2u64, Some(1u8)), (1, None)]?;
    assert!(rt; Layer::from_rising(alloc, falling)?.is_none());
    let changes = vec![in alloc; (2u64, Some(1u8)), (1, Some(2)), (2, Some(3))]?;
    let mut table = Layered::new(alloc);
    table.reserve_layer()?;
    table.push_layer(Layer::from_changes(alloc, changes)?);
    assert_eq!(rt; (at(&table, 1), at(&table, 2)), (2, 3));
    Ok(())
}
