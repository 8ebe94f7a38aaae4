//! Whether files may become one.

ghost use Rattle.std.specs.Prelude.{◌≡◌, map, ℕ, None, Some, MatchResult};
ghost use Rattle.std.specs.Option.{option_map};
ghost use Rattle.file_order.specs.Folding.{is_in_period_of, not_fold, part_asked, share_period};
ghost use Rattle.file_order.specs.Runs.{first_failing, told_at};

use crate::kinds::{NotRun, RunKind};
use crate::order::{Ordered, is_after, is_base};
use live_model::Level;
use stamp_core::Stamp;

/// Whether the files may become one of this level, a day or a month: files above a base, each with the rules of the first, with hours
/// after those of the one before it, and in the day or the month of the first hour. `NotRun` with the first index at which a rule
/// fails, and the least kind there. It takes no memory.
pub fn can_fold<F: Ordered>(files: &[F], level: Level) -> Result<(), NotRun>
    ensures { MatchResult result (λ _. not_fold level (map (λ f. record { head = F.head_of f; rules = F.rules_of f }) files.now) ≡ None)
        (λ told. not_fold level (map (λ f. record { head = F.head_of f; rules = F.rules_of f }) files.now) ≡ Some told) }
{
    let Some((first, _)) = files.split_first() else {
        return Ok(());
    };
    let mut last = None;
    let mut rest = files;
    while let Some((file, more)) = rest.split_first() {
        if let Some(kind) = kind_in(level, first, last, file) {
            let index = files.len() - rest.len();
            return Err(NotRun { index, kind });
        }
        last = file.head().last;
        rest = more;
    }
    Ok(())
}

/// Why a file cannot become one with the first, after files that end at this hour: the least kind.
fn kind_in<F: Ordered>(level: Level, first: &F, last: Option<Stamp>, file: &F) -> Option<RunKind>
    ensures { (index : ℕ) → first_failing (part_asked level index (record { head = F.head_of first.now; rules = F.rules_of first.now }) last (record { head = F.head_of file.now; rules = F.rules_of file.now }))
        ≡ option_map (told_at index) result }
{
    if is_base(file) {
        return Some(RunKind::IsBase);
    }
    if file.rules().text() != first.rules().text() {
        return Some(RunKind::OtherRules);
    }
    if !is_after(last, file.head().first) {
        return Some(RunKind::StampNotLater);
    }
    if !is_in_period_of(level, first, file) {
        return Some(RunKind::OtherPeriod);
    }
    None
}

/// Whether both hours of a file lie in the day or the month of the first hour of another.
fn is_in_period_of<F: Ordered>(level: Level, first: &F, file: &F) -> bool
    ensures { result ≡ is_in_period_of level (record { head = F.head_of first.now; rules = F.rules_of first.now }) (record { head = F.head_of file.now; rules = F.rules_of file.now }) }
{
    share_period(level, first.head().first, file.head().first)
        && share_period(level, first.head().first, file.head().last)
}

/// Whether two hours lie in one day, or in one month, where both are there.
fn share_period(level: Level, a: Option<Stamp>, b: Option<Stamp>) -> bool
    ensures { result ≡ share_period level a b }
{
    match (level, a, b) {
        (Level::Day, Some(a), Some(b)) => a.number() / 100 == b.number() / 100,
        (Level::Month, Some(a), Some(b)) => a.number() / 10_000 == b.number() / 10_000,
        _ => true,
    }
}
