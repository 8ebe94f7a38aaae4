//! The texts of a block.

ghost use Rattle.std.specs.Prelude.{◌≡◌, ◌≤◌, IfSome, true};
ghost use Rattle.obf_wire.specs.Windows.{range_of};
ghost use Rattle.boxed_check.specs.Blocks.{AreTextsSeen, IsTextBehind};

use boxed_exact::{is_utf8, text_rises};
use obf_wire::{Window, expected};

/// The key of a text.
const TEXT: u8 = 10;

/// How many texts stand in a window, where they rise and each is UTF-8 and not empty.
pub(crate) fn texts_in(window: Window<'_>) -> Option<usize>
    ensures { IfSome result (AreTextsSeen (range_of window.entry)) }
{
    let mut at = window.from();
    let mut before: &[u8] = &[];
    let mut count = 0;
    while at < window.to() {
        let Some(field) = expected(window, at, TEXT) else {
            return None;
        };
        let text = &window.all()[field.from..field.to];
        if !is_text(before, text) {
            return None;
        }
        before = text;
        at = field.to;
        count += 1;
    }
    Some(count)
}

/// Whether a text may stand after another one: UTF-8, and above it, so that it is not empty.
fn is_text(before: &[u8], text: &[u8]) -> bool
    ensures { result ≡ true → IsTextBehind before.now text.now }
{
    text_rises(before, text) && is_utf8(text)
}
