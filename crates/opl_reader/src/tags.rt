//! The tags of an object: pairs that are put in order.

ghost use Rattle.std.specs.Prelude.{◌≡◌, [], ◌∷◌, ◌++◌, None, Some, is_some, IfErr, IfOk, IsTrue, MatchOption, OnOk};
ghost use Rattle.std.specs.Bool.{OnTrue};
ghost use Rattle.std.specs.Option.{option_map};
ghost use Rattle.live_model.specs.declared.opl.Letter.TheVariants as letter;
ghost use Rattle.live_model.specs.Objects.{AreTags};
ghost use Rattle.live_model.specs.FieldValues.{pairs_of, parted_at, tag_of, tags_from};
ghost use Rattle.live_model.specs.LineTests.{value_tests, failure_kind};
ghost use Rattle.opl_reader.specs.Values.{FailsBy};
ghost use Rattle.opl_reader.specs.Lists.{OnBadList, Adds};
ghost use Rattle.opl_reader.specs.TagOrder.{ComesFirst};

use crate::items::{BAD_LIST, OVER_LIMIT, first_item, is_few, is_text, text};
use crate::value_error::ValueError;
use live_model::{OplKind, Tag};
use owned_data::{List, Text};
use std::alloc::{AllocError, Global};
use text_pieces::are_escapes;

/// The tags that a value spells, in the order of the bytes of their keys.
pub(crate) fn tags(alloc: Global, value: &str) -> Result<List<Tag>, ValueError>
    ensures good { OnOk result (failure_kind (value_tests letter.Tags value.now) ≡ None) }
    ensures tags { IfOk result (λ tags. option_map tags_from (pairs_of value.now) ≡ Some tags) }
    ensures bad { IfErr result (FailsBy (value_tests letter.Tags value.now)) }
{
    if !are_escapes(value.as_bytes()) {
        return Err(ValueError::Bad(OplKind::BadEscape));
    }
    let few = is_few(value.as_bytes());
    let pairs = pairs(alloc, few, value)?;
    if !few {
        return Err(OVER_LIMIT);
    }
    if rises(pairs.as_slice()) {
        return Ok(List::from_vec(pairs));
    }
    let tags = in_order(pairs)?;
    Ok(List::from_vec(tags))
}

// The pairs as they are written, parted by commas. Where none are kept, each is tested all the same.
fn pairs(alloc: Global, keep: bool, value: &str) -> Result<Vec<Tag>, ValueError>
    ensures formed { OnOk result (IsTrue (is_some (pairs_of value.now))) }
    ensures pairs { IfOk result (λ pairs. IsTrue keep → pairs_of value.now ≡ Some pairs.items) }
    ensures bad { IfErr result (OnBadList (pairs_of value.now ≡ None)) }
{
    let mut pairs = Vec::new(alloc);
    if value.is_empty() {
        return Ok(pairs);
    }
    let mut rest = value;
    while let Some((item, after)) = first_item(rest) {
        add_tag(alloc, keep, &mut pairs, item)?;
        rest = after;
    }
    add_tag(alloc, keep, &mut pairs, rest)?;
    Ok(pairs)
}

// Puts the tag of an item behind those before it, or tests the item alone where none are kept.
fn add_tag(alloc: Global, keep: bool, tags: &mut Vec<Tag>, item: &str) -> Result<(), ValueError>
    ensures formed { OnOk result (IsTrue (is_some (tag_of item.now))) }
    ensures added { OnOk result (IsTrue keep → Adds (tag_of item.now) tags.old.items tags.new.items) }
    ensures bad { IfErr result (OnBadList (tag_of item.now ≡ None)) }
{
    if keep {
        let tag = tag(alloc, item)?;
        tags.push(tag)?;
        Ok(())
    } else if is_tag(item) {
        Ok(())
    } else {
        Err(BAD_LIST)
    }
}

// A key, `=` and a value.
#[tactic(auto, unfolding(live_model::specs::FieldValues::tag_of))]
fn tag(alloc: Global, item: &str) -> Result<Tag, ValueError>
    ensures tag { IfOk result (λ tag. tag_of item.now ≡ Some tag) }
    ensures bad { IfErr result (OnBadList (tag_of item.now ≡ None)) }
{
    let Some((key, value)) = key_and_value(item) else {
        return Err(BAD_LIST);
    };
    let key = text(alloc, key)?;
    let value = text(alloc, value)?;
    Ok(Tag { key, value })
}

#[tactic(auto, unfolding(live_model::specs::FieldValues::tag_of))]
fn is_tag(item: &str) -> bool
    ensures { result ≡ is_some (tag_of item.now) }
{
    match key_and_value(item) {
        Some((key, value)) => is_text(key.as_bytes()) && is_text(value.as_bytes()),
        None => false,
    }
}

// What stands before the first `=` and what stands behind it.
#[tactic(auto, using(crate::proofs::Cuts::cut_some, crate::proofs::Cuts::cut_none))]
fn key_and_value(item: &str) -> Option<(&str, &str)>
    ensures { MatchOption result (parted_at 61 item.now ≡ None) (λ parts. parted_at 61 item.now ≡ Some (parts.0.now, parts.1.now)) }
{
    item.split_once('=')
}
// Whether each key comes before the next one.
#[tactic(auto, using(crate::proofs::TagSteps::rising_cons))]
fn rises(tags: &[Tag]) -> bool
    ensures { OnTrue result (AreTags tags.now) }
{
    let mut rest = tags;
    while let Some((first, after)) = rest.split_first() {
        if !comes_first(&first.key, after) {
            return false;
        }
        rest = after;
    }
    true
}

// Whether a key comes before the first of these, if there is one.
fn comes_first(key: &Text, tags: &[Tag]) -> bool
    ensures { OnTrue result (ComesFirst key.now tags.now) }
{
    match tags {
        [next, ..] => *key < next.key,
        [] => true,
    }
}

// The tags in order, and of those with one key the last alone.
fn in_order(tags: Vec<Tag>) -> Result<Vec<Tag>, AllocError>
    ensures { IfOk result (λ kept. kept.items ≡ tags_from tags.items) }
{
    let mut tags = tags;
    // What was written last now stands first of its key, and a stable sort leaves it there.
    tags.reverse();
    tags.sort_by(|a, b| a.key.cmp(&b.key))?;
    tags.dedup_by(|a, b| a.key == b.key);
    Ok(tags)
}
