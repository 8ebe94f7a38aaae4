//! The references of a way.

ghost use Rattle.std.specs.Prelude.{◌≡◌, None, Some, false, is_some, if◌then◌else◌, IfErr, IfOk, IsTrue, OnOk};
ghost use Rattle.live_model.specs.declared.opl.Letter.TheVariants as letter;
ghost use Rattle.live_model.specs.FieldValues.{breaks_located, is_located, is_located_by, items_of, ref_of, refs_of};
ghost use Rattle.live_model.specs.LineTests.{value_tests, failure_kind};
ghost use Rattle.opl_reader.specs.Values.{FailsBy};
ghost use Rattle.opl_reader.specs.Lists.{OnBadRef, Adds};

use crate::items::{BAD_LIST, OVER_LIMIT, first_item_of_bytes, is_few};
use crate::value_error::ValueError;
use crate::values::cut;
use live_model::OplKind;
use owned_data::List;
use std::alloc::Global;
use text_pieces::read_id;

/// The numbers of the nodes that a value names.
#[tactic(auto, using(crate::proofs::RefSteps::fails_by))]
pub(crate) fn refs(alloc: Global, value: &[u8]) -> Result<List<i64>, ValueError>
    ensures good { OnOk result (failure_kind (value_tests letter.Refs value.now) ≡ None) }
    ensures refs { IfOk result (λ refs. refs_of value.now ≡ Some refs) }
    ensures bad { IfErr result (FailsBy (value_tests letter.Refs value.now)) }
{
    let few = is_few(value);
    let numbers = numbers(alloc, few, value)?;
    if !few {
        return Err(OVER_LIMIT);
    }
    Ok(List::from_vec(numbers))
}

// The numbers as they are written, parted by commas. Where none are kept, each item is tested all the same.
fn numbers(alloc: Global, keep: bool, value: &[u8]) -> Result<Vec<i64>, ValueError>
    ensures formed { OnOk result (IsTrue (is_some (refs_of value.now))) }
    ensures unlocated { OnOk result (breaks_located (items_of value.now) ≡ false) }
    ensures numbers { IfOk result (λ numbers. IsTrue keep → refs_of value.now ≡ Some numbers.items) }
    ensures bad { IfErr result (OnBadRef (refs_of value.now ≡ None) (breaks_located (items_of value.now))) }
{
    let mut numbers = Vec::new(alloc);
    if value.is_empty() {
        return Ok(numbers);
    }
    let mut rest = value;
    while let Some((item, after)) = first_item_of_bytes(rest) {
        add_ref(keep, &mut numbers, item)?;
        rest = after;
    }
    add_ref(keep, &mut numbers, rest)?;
    Ok(numbers)
}

// Puts the number of an item behind those before it, or tests the item alone where none are kept.
fn add_ref(keep: bool, numbers: &mut Vec<i64>, item: &[u8]) -> Result<(), ValueError>
    ensures formed { OnOk result (IsTrue (is_some (ref_of item.now))) }
    ensures added { OnOk result (IsTrue keep → Adds (ref_of item.now) numbers.old.items numbers.new.items) }
    ensures bad { IfErr result (OnBadRef (ref_of item.now ≡ None) (is_located item.now)) }
{
    let Some(number) = reference(item) else {
        return Err(bad_ref(item));
    };
    if keep {
        numbers.push(number)?;
    }
    Ok(())
}

// Why an item that is no reference is none.
fn bad_ref(item: &[u8]) -> ValueError
    ensures { result ≡ ValueError.Bad (if is_located item.now then OplKind.LocatedRef else OplKind.BadList) }
{
    if is_located(item) {
        ValueError::Bad(OplKind::LocatedRef)
    } else {
        BAD_LIST
    }
}

// A reference and then `x` or `y`.
fn is_located(item: &[u8]) -> bool
    ensures { result ≡ is_located item.now }
{
    is_located_by(item, b'x') || is_located_by(item, b'y')
}

fn is_located_by(item: &[u8], c: u8) -> bool
    ensures { result ≡ is_located_by c item.now }
{
    match cut(item, c) {
        Some((before, _)) => reference(before).is_some(),
        None => false,
    }
}

// `n` and an id.
#[tactic(auto, unfolding(live_model::specs::FieldValues::ref_of))]
fn reference(item: &[u8]) -> Option<i64>
    ensures { result ≡ ref_of item.now }
{
    match item {
        [b'n', id @ ..] => read_id(id),
        _ => None,
    }
}
