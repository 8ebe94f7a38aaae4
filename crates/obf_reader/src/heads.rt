//! The head of a file: three numbers, and what they stand for.

ghost use Rattle.std.specs.Prelude.{◌≡◌, ◌≤◌, Ok, length, true};
ghost use Rattle.file_grammar.specs.declared.parts.Part.TheVariants.{Head as HeadPart};
ghost use Rattle.file_grammar.specs.Files.{is_head, is_hour, is_stretch};
ghost use Rattle.file_grammar.specs.Messages.{Fields};
ghost use Rattle.file_grammar.specs.Readings.{message_at};
ghost use Rattle.obf_reader.specs.Spread.{HoldsHead, IsInBytes, seen_numbers};
ghost use Rattle.live_model.specs.Levels.{level_number};
ghost use Rattle.obf_reader.specs.Heads.{IsHeadOf};

use boxed_exact::{Payload, next_number};
use file_grammar::{FieldWalk, Part};
use obf_wire::Window;
use stamp_core::{Head, Level, Stamp};

/// The numbers of a level and of two hours, as they stand in a file.
#[derive(Clone, Copy, Debug)]
pub(crate) struct HeadNumbers {
    pub(crate) level: u64,
    pub(crate) first: u64,
    pub(crate) last: u64,
}

/// The numbers of the head that stands there.
pub(crate) fn head_numbers(bytes: &[u8], head: Payload) -> HeadNumbers
    requires { IsInBytes bytes.now head }
    ensures { (inner : Fields) → message_at HeadPart (record { bytes = bytes.now; place = head.from; end = head.to }) ≡ Ok inner → HoldsHead result inner }
{
    let mut walk = FieldWalk::new(Part::Head, Window::new(bytes, head.from, head.to));
    let level = next_number(&mut walk);
    let first = next_number(&mut walk);
    let last = next_number(&mut walk);
    HeadNumbers {
        level: level.value,
        first: first.value,
        last: last.value,
    }
}

/// Whether the numbers are a head.
pub(crate) fn is_head(head: HeadNumbers) -> bool
    ensures { result ≡ is_head (seen_numbers head) }
{
    if head.level == 0 {
        head.first == 0 && head.last == 0
    } else {
        (is_hour(head.first) && is_hour(head.last))
            && (head.first <= head.last && is_stretch(head.level, head.first, head.last))
    }
}

// Whether an hour of the calendar has this number.
fn is_hour(number: u64) -> bool
    ensures { result ≡ is_hour number }
{
    Stamp::from_number(number).is_some()
}

// Whether two hours lie in one hour, in one day or in one month, by the level.
fn is_stretch(level: u64, first: u64, last: u64) -> bool
    ensures { result ≡ is_stretch level first last }
{
    if level == 1 {
        first == last
    } else if level == 2 {
        first / 100 == last / 100
    } else {
        level == 3 && first / 10_000 == last / 10_000
    }
}

/// The head that the numbers are, where they are one.
pub(crate) fn head_of(head: HeadNumbers) -> Head
    ensures { is_head (seen_numbers head) ≡ true → IsHeadOf (seen_numbers head) result }
{
    if head.level == 0 {
        return Head {
            level: Level::Base,
            first: None,
            last: None,
        };
    }
    Head {
        level: level_of(head.level),
        first: Stamp::from_number(head.first),
        last: Stamp::from_number(head.last),
    }
}

// The level of this number; a base for a number that no level has.
fn level_of(number: u64) -> Level
    ensures { number ≤ 3 → level_number result ≡ number }
{
    match Level::from_number(number) {
        Some(level) => level,
        None => Level::Base,
    }
}
