//! What a kind of text brings to be read.

ghost use Rattle.std.specs.Prelude.{◌≡◌, ◌<◌, ◌≤◌, ◌^◌, ℕ, length, Some, IfErr, IfOk};
ghost use Rattle.line_texts.specs.Forms.{Form, IsForm};
ghost use Rattle.line_texts.specs.Readings.{IsLineCause};

use crate::errors::LineError;
use std::alloc::Global;

/// What the lines of a text spell, as a type of its own.
pub trait LineForm {
    /// What a line spells.
    type Item: Drop;

    /// How a line breaks.
    type Kind: Copy;

    ghost form: { Form Self.Item Self.Kind };

    // What is known of each item that a line spells.
    ghost is_good: { Self.Item → Type 0 };

    /// How many lines a text may have.
    fn most() -> usize
        ensures is { result ≡ form.most }
        ensures few { result < 2 ^ 63 };

    /// How a text with one line more breaks.
    fn over() -> Self::Kind
        ensures { result ≡ form.over };

    /// The item that a whole line spells. The place of a break is counted from its first byte.
    fn read_line(alloc: Global, row: &[u8]) -> Result<Self::Item, LineError<Self::Kind>>
        requires { length row.now < 2 ^ 63 }
        ensures item { IfOk result (λ item. form.spells row.now ≡ Some item) }
        ensures good { IfOk result is_good }
        ensures broken { IfErr result (IsLineCause form row.now) };

    ghost exact: { IsForm form };
}
