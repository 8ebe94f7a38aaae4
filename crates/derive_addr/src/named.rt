//! Places and streets by their names.

ghost use Rattle.std.specs.Prelude.{◌≡◌, ◌++◌, IfOk, map, option_to_list};
ghost use Rattle.live_model.specs.Records.{language_and_name, named_address, names_of};

use crate::languages::language_of;
use live_model::{AddrKind, AddrRec, Entity, Mem, ObjId, Point, Tag, Text};
use std::alloc::Global;

/// Puts an object at the end by each of its names at this point: the plain one, then by languages.
pub(crate) fn put_named(
    alloc: Global,
    entity: &Entity,
    kind: AddrKind,
    point: Point,
    records: &mut Vec<AddrRec>,
) -> Mem<()>
    ensures { IfOk result (λ _. records.new.items ≡ records.old.items ++ map (named_address entity.now.id kind point) (names_of entity.now)) }
{
    let mut rest = entity.tags.as_slice();
    while let [tag, after @ ..] = rest {
        put_name(alloc, &entity.id, kind, point, tag, records)?;
        rest = after;
    }
    Ok(())
}

/// Puts an object at the end by the name that a tag gives it, if it gives one.
fn put_name(
    alloc: Global,
    id: &ObjId,
    kind: AddrKind,
    point: Point,
    tag: &Tag,
    records: &mut Vec<AddrRec>,
) -> Mem<()>
    ensures { IfOk result (λ _. records.new.items ≡ records.old.items ++ map (named_address id.now kind point) (option_to_list (language_and_name tag.now))) }
{
    if tag.value.is_empty() {
        return Ok(());
    }
    let Some(language) = language_of(tag.key.as_str()) else {
        return Ok(());
    };
    let lang = Text::copied(alloc, language)?;
    let name = tag.value.copy(alloc)?;
    records.push(AddrRec {
        id: *id,
        kind,
        lang,
        name,
        number: Text::new(alloc),
        point,
    })?;
    Ok(())
}
