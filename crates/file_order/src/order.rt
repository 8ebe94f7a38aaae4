//! Whether files follow one another.

ghost use Rattle.std.specs.Prelude.{◌≡◌, map, ℕ, List, None, Some, MatchResult};
ghost use Rattle.std.specs.Option.{option_map};
ghost use Rattle.live_model.specs.declared.rules.Rule.{Rule};
ghost use Rattle.stamp_core.specs.declared.head.Head.{Head};
ghost use Rattle.file_order.specs.declared.kinds.RunKind.TheVariants.{NotBase};
ghost use Rattle.file_order.specs.Runs.{first_failing, is_after, is_base, later_asked, not_run, told_at};

use crate::kinds::{NotRun, RunKind};
use stamp_core::{Head, Stamp};
use std::sync::Arc;
use tag_rules::Rules;

/// A file whose place among others is asked: what it covers, and its rules.
pub trait Ordered {
    ghost head_of: { Self → Head };

    ghost rules_of: { Self → List Rule };

    /// What the file covers.
    fn head(&self) -> &Head
        ensures { result.now ≡ head_of self.now };

    /// The rules of the file.
    fn rules(&self) -> &Rules
        ensures { result.now ≡ rules_of self.now };
}

impl<F: Ordered> Ordered for &F {
    ghost head_of = { λ f. F.head_of f.now };

    ghost rules_of = { λ f. F.rules_of f.now };

    fn head(&self) -> &Head {
        (**self).head()
    }

    fn rules(&self) -> &Rules {
        (**self).rules()
    }
}

/// A shared file.
impl<F: Ordered> Ordered for Arc<F> {
    ghost use Rattle.std.specs.Arc.{arc_value};

    ghost head_of = { λ f. F.head_of (arc_value f) };

    ghost rules_of = { λ f. F.rules_of (arc_value f) };

    fn head(&self) -> &Head {
        (**self).head()
    }

    fn rules(&self) -> &Rules {
        (**self).rules()
    }
}

/// Whether the files follow one another: a base, and then files above it, each with the rules of the first and with hours after
/// those of the one before it. `NotRun` with the first index at which a rule fails, and the least kind there; at index 0 where
/// there is no file. It takes no memory.
pub fn follows<F: Ordered>(files: &[F]) -> Result<(), NotRun>
    ensures { MatchResult result (λ _. not_run (map (λ f. record { head = F.head_of f; rules = F.rules_of f }) files.now) ≡ None)
        (λ told. not_run (map (λ f. record { head = F.head_of f; rules = F.rules_of f }) files.now) ≡ Some told) }
{
    let Some((first, after)) = files.split_first() else {
        return Err(not_base());
    };
    if !is_base(first) {
        return Err(not_base());
    }
    let mut before = first;
    let mut rest = after;
    while let Some((file, more)) = rest.split_first() {
        if let Some(kind) = kind_after(first, before, file) {
            let index = files.len() - rest.len();
            return Err(NotRun { index, kind });
        }
        before = file;
        rest = more;
    }
    Ok(())
}

/// The misfit of a first file that is no base, or is not there.
fn not_base() -> NotRun
    ensures { result ≡ told_at 0 NotBase }
{
    NotRun {
        index: 0,
        kind: RunKind::NotBase,
    }
}

/// Whether the file is a base.
pub(crate) fn is_base<F: Ordered>(file: &F) -> bool
    ensures { result ≡ is_base (record { head = F.head_of file.now; rules = F.rules_of file.now }) }
{
    file.head().level.number() == 0
}

/// Why a file above the first does not follow the one before it: the least kind.
fn kind_after<F: Ordered>(first: &F, before: &F, file: &F) -> Option<RunKind>
    ensures { (index : ℕ) → first_failing (later_asked index (record { head = F.head_of first.now; rules = F.rules_of first.now }) (record { head = F.head_of before.now; rules = F.rules_of before.now }) (record { head = F.head_of file.now; rules = F.rules_of file.now }))
        ≡ option_map (told_at index) result }
{
    if is_base(file) {
        return Some(RunKind::IsBase);
    }
    if file.rules().text() != first.rules().text() {
        return Some(RunKind::OtherRules);
    }
    if !is_after(before.head().last, file.head().first) {
        return Some(RunKind::StampNotLater);
    }
    None
}

/// Whether an hour is after another, where both are there.
pub(crate) fn is_after(last: Option<Stamp>, first: Option<Stamp>) -> bool
    ensures { result ≡ is_after last first }
{
    match (last, first) {
        (Some(last), Some(first)) => last.number() < first.number(),
        _ => true,
    }
}
