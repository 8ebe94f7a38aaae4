//! Members, each an object and a role.

ghost use Rattle.std.specs.Prelude.{◌≡◌, [], Some, IfOk, IfSome};
ghost use Rattle.text_pieces.specs.Numbers.{id_of};
ghost use Rattle.opl_rows.specs.Fronts.{behind_id, id_text};
ghost use Rattle.opl_rows.specs.Members.{MemberAdded, MembersRead, TargetRead};

use crate::held::Tags;
use crate::numbers::{id_part, is_end};
use crate::rows::kind;
use crate::texts::{behind_byte, text};
use live_model::{Kind, Member, ObjId, Text};
use std::alloc::{AllocError, Global};
use std::str::from_utf8;

/// How many members a relation has at most.
const MOST: usize = 65_535;

/// An object, and what stands behind its id.
#[derive(Clone, Copy)]
struct Named<'a> {
    object: ObjId,
    rest: &'a [u8],
}

/// The rest behind the members that stand here, which are then held. The roles are spelled in a buffer that nobody reads.
pub(crate) fn read_members<'a>(
    alloc: Global,
    bytes: &'a [u8],
    scratch: &mut Tags,
    members: &mut Vec<Member>,
) -> Result<Option<&'a [u8]>, AllocError>
    requires { members.old.items ≡ [] }
    ensures { IfOk result (λ r. IfSome r (λ rest. MembersRead bytes.now rest.now members.new.items)) }
{
    if is_end(bytes) {
        return Ok(Some(bytes));
    }
    let Some(first) = add_member(alloc, bytes, scratch, members)? else {
        return Ok(None);
    };
    let mut rest = first;
    while let Some(more) = behind_byte(rest, b',') {
        let Some(behind) = add_member(alloc, more, scratch, members)? else {
            return Ok(None);
        };
        rest = behind;
    }
    if !is_end(rest) || members.len() > MOST {
        return Ok(None);
    }
    Ok(Some(rest))
}

/// Puts the member at the front behind those before it.
fn add_member<'a>(
    alloc: Global,
    bytes: &'a [u8],
    scratch: &mut Tags,
    members: &mut Vec<Member>,
) -> Result<Option<&'a [u8]>, AllocError>
    ensures { IfOk result (λ r. IfSome r (λ rest. MemberAdded bytes.now rest.now members.old.items members.new.items)) }
{
    let Some(target) = target(bytes) else {
        return Ok(None);
    };
    let Some(front) = behind_byte(target.rest, b'@') else {
        return Ok(None);
    };
    scratch.clear();
    let Some(rest) = text(front, scratch)? else {
        return Ok(None);
    };
    let Some(role) = owned_text(alloc, scratch.open_text())? else {
        return Ok(None);
    };
    members.push(Member {
        target: target.object,
        role,
    })?;
    Ok(Some(rest))
}

/// An id with the letter of its kind at the front.
fn target(bytes: &[u8]) -> Option<Named<'_>>
    ensures { IfSome result (λ t. TargetRead bytes.now t.rest.now t.object) }
{
    let Some((first, more)) = bytes.split_first() else {
        return None;
    };
    let Some(kind) = kind(*first) else {
        return None;
    };
    let Some(named) = object_of_kind(kind, more) else {
        return None;
    };
    Some(Named {
        object: named.object,
        rest: named.rest,
    })
}

/// The object of a kind whose number stands at the front, whatever stands behind it.
fn object_of_kind(kind: Kind, bytes: &[u8]) -> Option<Named<'_>>
    ensures kind { IfSome result (λ t. t.object.kind ≡ kind) }
    ensures number { IfSome result (λ t. id_of (id_text bytes.now) ≡ Some t.object.number) }
    ensures rest { IfSome result (λ t. t.rest.now ≡ behind_id bytes.now) }
{
    let Some(number) = id_part(bytes) else {
        return None;
    };
    let Some(object) = ObjId::new(kind, number.value) else {
        return None;
    };
    Some(Named {
        object,
        rest: number.rest,
    })
}

/// A text of its own of these bytes, where they are UTF-8.
fn owned_text(alloc: Global, bytes: &[u8]) -> Result<Option<Text>, AllocError>
    ensures { IfOk result (λ r. IfSome r (λ text. text ≡ bytes.now)) }
{
    let Ok(characters) = from_utf8(bytes) else {
        return Ok(None);
    };
    let string = String::from_str(alloc, characters)?;
    Ok(Some(Text::from_string(string)))
}
