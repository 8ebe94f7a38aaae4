//! The members of a relation.

ghost use Rattle.std.specs.Prelude.{◌≡◌, None, Some, is_some, IfErr, IfOk, IsTrue, MatchOption, OnOk};
ghost use Rattle.live_model.specs.declared.opl.Letter.TheVariants as letter;
ghost use Rattle.live_model.specs.FieldValues.{member_of, members_of, parted_at};
ghost use Rattle.live_model.specs.LineTests.{value_tests, failure_kind};
ghost use Rattle.opl_reader.specs.Values.{FailsBy};
ghost use Rattle.opl_reader.specs.Lists.{OnBadList, Adds};

use crate::items::{BAD_LIST, OVER_LIMIT, first_item, is_few, is_text, text};
use crate::value_error::ValueError;
use crate::values::object;
use live_model::{Member, OplKind};
use owned_data::List;
use std::alloc::Global;
use text_pieces::are_escapes;

/// The members that a value names.
pub(crate) fn members(alloc: Global, value: &str) -> Result<List<Member>, ValueError>
    ensures good { OnOk result (failure_kind (value_tests letter.Members value.now) ≡ None) }
    ensures members { IfOk result (λ members. members_of value.now ≡ Some members) }
    ensures bad { IfErr result (FailsBy (value_tests letter.Members value.now)) }
{
    if !are_escapes(value.as_bytes()) {
        return Err(ValueError::Bad(OplKind::BadEscape));
    }
    let few = is_few(value.as_bytes());
    let members = named(alloc, few, value)?;
    if !few {
        return Err(OVER_LIMIT);
    }
    Ok(List::from_vec(members))
}

// The members as they are written, parted by commas. Where none are kept, each item is tested all the same.
fn named(alloc: Global, keep: bool, value: &str) -> Result<Vec<Member>, ValueError>
    ensures formed { OnOk result (IsTrue (is_some (members_of value.now))) }
    ensures members { IfOk result (λ members. IsTrue keep → members_of value.now ≡ Some members.items) }
    ensures bad { IfErr result (OnBadList (members_of value.now ≡ None)) }
{
    let mut members = Vec::new(alloc);
    if value.is_empty() {
        return Ok(members);
    }
    let mut rest = value;
    while let Some((item, after)) = first_item(rest) {
        add_member(alloc, keep, &mut members, item)?;
        rest = after;
    }
    add_member(alloc, keep, &mut members, rest)?;
    Ok(members)
}

// Puts the member of an item behind those before it, or tests the item alone where none are kept.
fn add_member(
    alloc: Global,
    keep: bool,
    members: &mut Vec<Member>,
    item: &str,
) -> Result<(), ValueError>
    ensures formed { OnOk result (IsTrue (is_some (member_of item.now))) }
    ensures added { OnOk result (IsTrue keep → Adds (member_of item.now) members.old.items members.new.items) }
    ensures bad { IfErr result (OnBadList (member_of item.now ≡ None)) }
{
    if keep {
        let member = member(alloc, item)?;
        members.push(member)?;
        Ok(())
    } else if is_member(item) {
        Ok(())
    } else {
        Err(BAD_LIST)
    }
}

// An id with its letter, `@` and a role.
#[tactic(auto, unfolding(live_model::specs::FieldValues::member_of))]
fn member(alloc: Global, item: &str) -> Result<Member, ValueError>
    ensures member { IfOk result (λ member. member_of item.now ≡ Some member) }
    ensures bad { IfErr result (OnBadList (member_of item.now ≡ None)) }
{
    let Some((target, role)) = target_and_role(item) else {
        return Err(BAD_LIST);
    };
    let Some(target) = object(target.as_bytes()) else {
        return Err(BAD_LIST);
    };
    let role = text(alloc, role)?;
    Ok(Member { target, role })
}

#[tactic(auto, unfolding(live_model::specs::FieldValues::member_of))]
fn is_member(item: &str) -> bool
    ensures { result ≡ is_some (member_of item.now) }
{
    match target_and_role(item) {
        Some((target, role)) => object(target.as_bytes()).is_some() && is_text(role.as_bytes()),
        None => false,
    }
}

// What stands before the first `@` and what stands behind it.
#[tactic(auto, using(crate::proofs::Cuts::cut_some, crate::proofs::Cuts::cut_none))]
fn target_and_role(item: &str) -> Option<(&str, &str)>
    ensures { MatchOption result (parted_at 64 item.now ≡ None) (λ parts. parted_at 64 item.now ≡ Some (parts.0.now, parts.1.now)) }
{
    item.split_once('@')
}
