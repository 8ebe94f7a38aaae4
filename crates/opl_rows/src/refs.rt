//! References, each a number.

ghost use Rattle.std.specs.Prelude.{◌≡◌, [], IfOk, IfSome};
ghost use Rattle.opl_rows.specs.Refs.{RefAdded, RefRead, RefsRead};

use crate::numbers::{Integer, id_part, is_end};
use crate::texts::behind_byte;
use std::alloc::AllocError;

/// How many references a way has at most.
const MOST: usize = 65_535;

/// The rest behind the references that stand here, which are then held.
pub(crate) fn read_refs<'a>(
    bytes: &'a [u8],
    refs: &mut Vec<i64>,
) -> Result<Option<&'a [u8]>, AllocError>
    requires { refs.old.items ≡ [] }
    ensures { IfOk result (λ r. IfSome r (λ rest. RefsRead bytes.now rest.now refs.new.items)) }
{
    if is_end(bytes) {
        return Ok(Some(bytes));
    }
    let Some(first) = add_ref(bytes, refs)? else {
        return Ok(None);
    };
    let mut rest = first;
    while let Some(more) = behind_byte(rest, b',') {
        let Some(behind) = add_ref(more, refs)? else {
            return Ok(None);
        };
        rest = behind;
    }
    if !is_end(rest) || refs.len() > MOST {
        return Ok(None);
    }
    Ok(Some(rest))
}

/// Puts the reference at the front behind those before it.
fn add_ref<'a>(bytes: &'a [u8], refs: &mut Vec<i64>) -> Result<Option<&'a [u8]>, AllocError>
    ensures { IfOk result (λ r. IfSome r (λ rest. RefAdded bytes.now rest.now refs.old.items refs.new.items)) }
{
    let Some(number) = reference(bytes) else {
        return Ok(None);
    };
    refs.push(number.value)?;
    Ok(Some(number.rest))
}

/// `n` and an id at the front.
fn reference(bytes: &[u8]) -> Option<Integer<'_>>
    ensures { IfSome result (λ n. RefRead bytes.now n.rest.now n.value) }
{
    let Some(more) = behind_byte(bytes, b'n') else {
        return None;
    };
    let Some(number) = id_part(more) else {
        return None;
    };
    Some(number)
}
