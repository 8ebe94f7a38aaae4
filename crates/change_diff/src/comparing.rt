//! Which of some objects give other records after a change.

ghost use Rattle.std.specs.Prelude.{◌≡◌, ◌+◌, ◌*◌, ◌++◌, ◌≤◌, [], ◌∷◌, length, filter, flat_map, if◌then◌else◌, IfOk, OnOk};
ghost use Rattle.std.specs.List.{AllByRecursion};
ghost use Rattle.std.specs.Ordering.{is_ne};
ghost use Rattle.std.specs.Cmp.Lexicographic.{slice_cmp};
ghost use Rattle.live_model.specs.Fits.{FitsRules};
ghost use Rattle.live_model.specs.Maps.{differs};
ghost use Rattle.live_model.specs.Objects.{IsGood};
ghost use Rattle.live_model.specs.Records as Records;
ghost use Rattle.live_model.specs.Records.{record_cmp};

use crate::records::put_records;
use crate::texts::are_texts;
use entity_store::Look;
use live_model::{Mem, ObjId, Rec, Steps};
use std::alloc::Global;
use std::cmp::Ordering;
use std::sync::ledger::Ledger;
use tag_rules::Rules;

/// Objects whose records are others after a change, and their records then.
#[derive(Drop)]
pub struct Changed {
    pub marks: Vec<ObjId>,
    pub records: Vec<Rec>,
}

/// Of these objects those that give other records after a change than before it, and their records then, which fit the rules
/// where the objects are good. It counts eight steps for each object, and at most that where memory is refused.
pub fn changed_among<L: Ledger>(
    alloc: Global,
    rules: &Rules,
    before: &Look<'_>,
    after: &Look<'_>,
    ids: &[ObjId],
    steps: &mut Steps<L>,
) -> Mem<Changed>
    ensures marks { IfOk result (λ found. found.marks.items ≡ filter (differs rules.now before.now after.now) ids.now) }
    ensures records { IfOk result (λ found. found.records.items ≡ flat_map (Records.records rules.now after.now) (filter (differs rules.now before.now after.now) ids.now)) }
    ensures fit { AllByRecursion IsGood after.now → IfOk result (λ found. FitsRules rules.now found.records.items) }
    ensures counted { OnOk result (steps.new ≡ steps.old + 8 * length ids.now) }
    ensures most { steps.new ≤ steps.old + 8 * length ids.now }
{
    let mut found = Changed {
        marks: Vec::new(alloc),
        records: Vec::new(alloc),
    };
    let mut rest = ids;
    while let Some((id, others)) = rest.split_first() {
        put_if_changed(alloc, rules, before, after, id, steps, &mut found)?;
        rest = others;
    }
    Ok(found)
}

/// Puts an object at the end, with its records after a change, where these are not its records before it.
fn put_if_changed<L: Ledger>(
    alloc: Global,
    rules: &Rules,
    before: &Look<'_>,
    after: &Look<'_>,
    id: &ObjId,
    steps: &mut Steps<L>,
    found: &mut Changed,
) -> Mem<()>
    ensures marks { OnOk result (found.new.marks.items ≡ found.old.marks.items ++ filter (differs rules.now before.now after.now) (id.now ∷ [])) }
    ensures records { OnOk result (found.new.records.items ≡ found.old.records.items ++ flat_map (Records.records rules.now after.now) (filter (differs rules.now before.now after.now) (id.now ∷ []))) }
    ensures fit { AllByRecursion IsGood after.now → FitsRules rules.now found.old.records.items → OnOk result (FitsRules rules.now found.new.records.items) }
    ensures counted { OnOk result (steps.new ≡ steps.old + 8) }
    ensures most { steps.new ≤ steps.old + 8 }
{
    records_fit(rules, after, id);
    let mut old = Vec::new(alloc);
    put_records(alloc, rules, before, id, steps, &mut old)?;
    let mut new = Vec::new(alloc);
    put_records(alloc, rules, after, id, steps, &mut new)?;
    put_unless_same(id, &old, new, found)
}

/// Nothing to be done but a look-up: that the records of an object fit the rules, where all objects are good.
fn records_fit(rules: &Rules, look: &Look<'_>, id: &ObjId)
    ensures { AllByRecursion IsGood look.now → FitsRules rules.now (Records.records rules.now look.now id.now) }
{
    let _rules = rules.as_slice();
    if let Some(entity) = look.get(id) {
        are_texts(entity);
    }
}

/// Puts an object and its new records at the end, where these are not the old ones.
fn put_unless_same(id: &ObjId, old: &[Rec], new: Vec<Rec>, found: &mut Changed) -> Mem<()>
    ensures marks { OnOk result (found.new.marks.items ≡ found.old.marks.items ++ (if is_ne (slice_cmp record_cmp old.now new.items) then (id.now ∷ []) else [])) }
    ensures records { OnOk result (found.new.records.items ≡ found.old.records.items ++ (if is_ne (slice_cmp record_cmp old.now new.items) then new.items else [])) }
{
    if !are_others(old, &new) {
        return Ok(());
    }
    let mut new = new;
    found.marks.push(*id)?;
    found.records.append(&mut new)?;
    Ok(())
}

/// Whether two lists of records are not the same.
fn are_others(old: &[Rec], new: &[Rec]) -> bool
    ensures { result ≡ is_ne (slice_cmp record_cmp old.now new.now) }
{
    let mut olds = old;
    let mut news = new;
    while let Some((a, old_rest)) = olds.split_first() {
        let Some((b, new_rest)) = news.split_first() else {
            return true;
        };
        if a.compare(b) != Ordering::Equal {
            return true;
        }
        olds = old_rest;
        news = new_rest;
    }
    !news.is_empty()
}
