//! The hour that a word names.

ghost use Rattle.std.specs.Prelude.{◌≡◌, IfSome};
ghost use Rattle.stamp_core.specs.Hours.{IsCivilHour};
ghost use Rattle.hour_words.specs.HourWords.{hour_of};

use stamp_core::Stamp;

/// The hour that a word names as `YYYY-MM-DD-HH`: four digits of the year, two each of month, day and hour. `None` exactly where it is
/// no such word, or names no hour of the Gregorian calendar.
pub fn read_hour(word: &str) -> Option<Stamp>
    ensures hour { result ≡ hour_of word.now }
    ensures civil { IfSome result IsCivilHour }
{
    Stamp::parse(word)
}
