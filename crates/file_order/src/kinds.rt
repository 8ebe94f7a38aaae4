//! Why files do not follow one another.

use std::fmt;

/// Why a good map file does not follow those before it.
#[derive(Clone, Copy, PartialEq, Eq, Debug)]
pub enum RunKind {
    /// It is a base, and not the first.
    IsBase,
    /// It has other rules than the first.
    OtherRules,
    /// Its first hour is not after the last hour before it.
    StampNotLater,
    /// An hour of it is not in the period of the first.
    OtherPeriod,
    /// It is the first, and no base.
    NotBase,
}

/// It displays as its name.
impl fmt::Display for RunKind {
    ghost use Rattle.std.specs.Prelude.{Some};
    ghost use Rattle.file_order.specs.Kinds.{run_kind_name};

    ghost output = { λ kind. Some (run_kind_name kind) };

    fn fmt<W: fmt::Write>(&self, f: &mut fmt::Formatter<W>) -> fmt::Result {
        match self {
            RunKind::IsBase => f.write_str("IsBase"),
            RunKind::OtherRules => f.write_str("OtherRules"),
            RunKind::StampNotLater => f.write_str("StampNotLater"),
            RunKind::OtherPeriod => f.write_str("OtherPeriod"),
            RunKind::NotBase => f.write_str("NotBase"),
        }
    }
}

/// The first of files that does not follow those before it: its index among them, and why.
#[derive(Clone, Copy, PartialEq, Eq, Debug)]
pub struct NotRun {
    pub index: usize,
    pub kind: RunKind,
}
