//! The marks of a file, as a list of differences.

ghost use Rattle.std.specs.Prelude.{◌≡◌, ◌==◌, ◌≤◌, ◌&&◌, ◌+◌, Ok, ℕ, List, length, true, IfOk};
ghost use Rattle.std.specs.List.{list_all};
ghost use Rattle.std.specs.Ordering.{nat_cmp};
ghost use Rattle.ordered_lists.specs.Ordered.{IsRisingBy};
ghost use Rattle.file_grammar.specs.BoxRules.{is_ordinal};
ghost use Rattle.file_grammar.specs.Files.{mark_rises, rise_strictly, sums_from};
ghost use Rattle.file_grammar.specs.Readings.{numbers_at};
ghost use Rattle.obf_reader.specs.MarkLists.{IsMarksRead, rise_from};

use crate::numbers::read_numbers;
use boxed_exact::Payload;
use obf_wire::Window;
use owned_data::Mem;
use std::alloc::Global;

/// What was seen of marks: whether there are none, whether they rise strictly and are ordinals, and where
/// both is so the marks, else none.
#[derive(Debug, Drop)]
pub(crate) struct MarksRead {
    pub(crate) none: bool,
    pub(crate) rise: bool,
    pub(crate) ordinals: bool,
    pub(crate) marks: Vec<u64>,
}

/// Reads the marks whose differences stand there.
pub(crate) fn read_marks(alloc: Global, bytes: &[u8], list: Payload) -> Mem<MarksRead>
    requires ordered { list.from ≤ list.to }
    requires within { list.to ≤ length bytes.now }
    ensures read { IfOk result (λ read. (steps : List ℕ) → numbers_at (record { bytes = bytes.now; place = list.from; end = list.to }) ≡ Ok steps → IsMarksRead read (sums_from 0 steps)) }
    ensures rising { IfOk result (λ read. IsRisingBy nat_cmp (λ n. n) read.marks.items) }
{
    let steps = read_numbers(alloc, Window::new(bytes, list.from, list.to))?;
    let rise = rise_behind_first(&steps);
    let ordinals = are_ordinals(&steps);
    let marks = marks_where(alloc, &steps, rise && ordinals)?;
    Ok(MarksRead {
        none: steps.is_empty(),
        rise,
        ordinals,
        marks,
    })
}

// The marks, where they rise strictly and are ordinals, else none.
fn marks_where(alloc: Global, steps: &[u64], good: bool) -> Mem<Vec<u64>>
    requires { good ≡ (rise_strictly (sums_from 0 steps.now) && list_all is_ordinal (sums_from 0 steps.now)) }
    ensures marks { IfOk result (λ marks. good ≡ true → marks.items ≡ sums_from 0 steps.now) }
    ensures rising { IfOk result (λ marks. IsRisingBy nat_cmp (λ n. n) marks.items) }
{
    if good {
        marks_of(alloc, steps)
    } else {
        Ok(Vec::new(alloc))
    }
}

// Whether the numbers that differences lead to rise strictly; it holds beside a number that is no ordinal.
fn rise_behind_first(steps: &[u64]) -> bool
    ensures { result ≡ rise_strictly (sums_from 0 steps.now) }
{
    match steps {
        [] => true,
        [first, others @ ..] => rise_on(*first, others),
    }
}

// The same from a number on.
#[tactic(auto, using(crate::proofs::MarkLists::rise_far))]
fn rise_on(first: u64, steps: &[u64]) -> bool
    ensures { result ≡ rise_from first steps.now }
{
    let mut before = first;
    let mut rest = steps;
    while let [step, after @ ..] = rest {
        if !step_rises(before, *step) {
            return false;
        }
        let Some(next) = before.checked_add(*step) else {
            return true;
        };
        before = next;
        rest = after;
    }
    true
}

// Whether a number and the one that the step leads to rise; it holds of a number that is no ordinal.
#[tactic(auto, using(crate::proofs::MarkLists::step_up, crate::proofs::MarkLists::step_none))]
fn step_rises(before: u64, step: u64) -> bool
    ensures { result ≡ mark_rises before (before + step) }
{
    if step == 0 {
        !is_ordinal(u128::from(before))
    } else {
        true
    }
}

// Whether each number that differences lead to is the ordinal of an id.
fn are_ordinals(steps: &[u64]) -> bool
    ensures { result ≡ list_all is_ordinal (sums_from 0 steps.now) }
{
    let mut before = 0;
    let mut rest = steps;
    while let [step, after @ ..] = rest {
        before += u128::from(*step);
        if !is_ordinal(before) {
            return false;
        }
        rest = after;
    }
    true
}

fn is_ordinal(n: u128) -> bool
    ensures { result ≡ is_ordinal n }
{
    n / 1_125_899_906_842_624 <= 2 && n % 1_125_899_906_842_624 <= 562_949_953_421_312
}

// The ordinals that differences lead to.
fn marks_of(alloc: Global, steps: &[u64]) -> Mem<Vec<u64>>
    requires { list_all is_ordinal (sums_from 0 steps.now) ≡ true }
    ensures { IfOk result (λ marks. marks.items ≡ sums_from 0 steps.now) }
{
    let mut marks = Vec::with_capacity(alloc, steps.len())?;
    let mut before = 0;
    let mut rest = steps;
    while let [step, after @ ..] = rest {
        before += *step;
        marks.push(before)?;
        rest = after;
    }
    Ok(marks)
}
