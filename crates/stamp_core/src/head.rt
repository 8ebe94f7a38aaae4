//! The head of a file: the stretch of time that it covers.

ghost use Rattle.std.specs.Prelude.{◌↔◌, IsTrue};
ghost use Rattle.stamp_core.specs.Spans.{IsWithin};

use crate::{Level, Stamp};

/// What a file covers: the level, and the first and the last hour whose changes it holds.
#[derive(Clone, Copy, PartialEq, Eq, Debug)]
pub struct Head {
    /// How much time the file covers.
    pub level: Level,
    /// The first hour, which a base has not.
    pub first: Option<Stamp>,
    /// The last hour, which a base has not.
    pub last: Option<Stamp>,
}

impl Head {
    ghost use Rattle.stamp_core.specs.Heads.{IsGoodHead};

    /// Whether the stamps fit the level. A base has no stamps. Above it both are there and the first is
    /// at most the last; an hour has them equal, a day in one day, a month in one month.
    pub fn is_good(&self) -> bool
        ensures { IsTrue result ↔ IsGoodHead self.now }
    {
        match (self.first, self.last) {
            (None, None) => self.level == Level::Base,
            (Some(first), Some(last)) => !last.is_before(&first)
                && is_within(self.level, &first, &last),
            _ => false,
        }
    }
}

// Whether two hours lie in one stretch of that level.
fn is_within(level: Level, first: &Stamp, last: &Stamp) -> bool
    ensures { IsTrue result ↔ IsWithin level first.now last.now }
{
    match level {
        Level::Base => false,
        Level::Hour => first == last,
        Level::Day => first.same_day(last),
        Level::Month => first.same_month(last),
    }
}
