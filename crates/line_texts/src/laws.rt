//! What a reader of lines owes its caller beyond one text: a law, with nothing to run.

ghost use Rattle.line_texts.specs.Readings.{IsExact};

use crate::form::LineForm;

/// That what `read_lines` ensures is one answer: a text spells one list of items at most, and spells one exactly where it has no
/// break.
pub fn readings_are_exact<F: LineForm>(bytes: &[u8])
    ensures { IsExact F.form bytes.now }
{
    let _ = bytes.len();
}
