//! Lines as changes of a table.

ghost use Rattle.std.specs.Prelude.{◌≡◌, [], map, IfOk};
ghost use Rattle.std.specs.Ordering.{nat_cmp};
ghost use Rattle.ordered_lists.specs.Ordered.{put_all};
ghost use Rattle.layer_table.specs.Layers.{key_of};
ghost use Rattle.entity_store.specs.Changes.{change};

use layer_table::Layer;
use live_model::{Entity, Line, Mem};
use std::alloc::Global;

/// What the lines leave at their ids: of the lines of one id the last decides.
pub fn layer_of(alloc: Global, lines: Vec<Line>) -> Mem<Layer<u64, Entity>>
    ensures { IfOk result (λ layer. layer ≡ put_all nat_cmp key_of [] (map change lines.items)) }
{
    Layer::from_changes(alloc, changes_of(alloc, lines)?)
}

/// Copies of these lines.
pub fn copied(alloc: Global, lines: &[Line]) -> Mem<Vec<Line>>
    ensures { IfOk result (λ copies. copies.items ≡ lines.now) }
{
    let mut copies = Vec::with_capacity(alloc, lines.len())?;
    for line in lines {
        copies.push(line.copy(alloc)?)?;
    }
    Ok(copies)
}

/// The lines in turn, each as a change.
fn changes_of(alloc: Global, lines: Vec<Line>) -> Mem<Vec<(u64, Option<Entity>)>>
    ensures { IfOk result (λ changes. changes.items ≡ map change lines.items) }
{
    let mut changes = Vec::with_capacity(alloc, lines.len())?;
    for line in lines {
        changes.push(change_of(line))?;
    }
    Ok(changes)
}

/// What a line leaves at its id.
fn change_of(line: Line) -> (u64, Option<Entity>)
    ensures { result ≡ change line }
{
    match line {
        Line::Live(entity) => (entity.id.ordinal(), Some(entity)),
        Line::Gone(id, _) => (id.ordinal(), None),
    }
}
