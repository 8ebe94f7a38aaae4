//! The lines.

ghost use Rattle.std.specs.Prelude.{◌≡◌, ◌++◌, length, take, OnOk, OnErr, IfOk};
ghost use Rattle.live_model.specs.CanonicalLines.{parts_text, row_text, line_text, lines_text};

use crate::pieces::{begin_id, begin_members, begin_place, begin_refs, begin_tags};
use live_model::{Entity, Kind};
use owned_data::Mem;
use std::alloc::Global;
use text_pieces::{put_bytes, put_number};

/// The canonical lines of the objects, in order, each with a line feed at its end.
pub fn write(alloc: Global, entities: &[Entity]) -> Mem<Vec<u8>>
    ensures { IfOk result (λ text. text.items ≡ lines_text entities.now) }
{
    let mut text = Vec::new(alloc);
    for entity in entities {
        put_line(&mut text, entity)?;
    }
    Ok(text)
}

/// Puts the canonical line of an object, with its line feed, at the end of a buffer. The object need
/// not be good: a node's place, a way's references and a relation's members are written, whatever else
/// it holds. Where memory is refused the buffer is as it was.
pub fn put_line(out: &mut Vec<u8>, entity: &Entity) -> Mem<()>
    ensures ok { OnOk result (out.new.items ≡ out.old.items ++ line_text entity.now) }
    ensures err { OnErr result (out.new.items ≡ out.old.items) }
{
    let before = out.len();
    let done = begin_line(out, entity);
    if done.is_err() {
        out.truncate(before);
    }
    done
}

// Puts a line; where memory is refused a part of it may stand behind what the buffer had.
#[tactic(auto, unfolding(live_model::specs::CanonicalLines::row_text, live_model::specs::CanonicalLines::line_text), using(text_pieces::proofs::Fronts::front_of_longer))]
fn begin_line(out: &mut Vec<u8>, entity: &Entity) -> Mem<()>
    ensures ok { OnOk result (out.new.items ≡ out.old.items ++ line_text entity.now) }
    ensures err { OnErr result (take (length out.old.items) out.new.items ≡ out.old.items) }
{
    begin_id(out, &entity.id)?;
    put_bytes(out, b" v")?;
    put_number(out, u64::from(entity.version))?;
    put_bytes(out, b" dV T")?;
    begin_tags(out, entity.tags.as_slice())?;
    begin_parts(out, entity)?;
    put_bytes(out, b"\n")
}

// Puts what an object of its kind has behind its tags.
fn begin_parts(out: &mut Vec<u8>, entity: &Entity) -> Mem<()>
    ensures ok { OnOk result (out.new.items ≡ out.old.items ++ parts_text entity.now.id.kind entity.now) }
    ensures err { OnErr result (take (length out.old.items) out.new.items ≡ out.old.items) }
{
    match entity.id.kind() {
        Kind::Node => begin_place(out, entity.place),
        Kind::Way => begin_refs(out, entity.refs.as_slice()),
        Kind::Relation => begin_members(out, entity.members.as_slice()),
    }
}
