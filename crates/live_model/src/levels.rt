//! How much time a file covers.

ghost use Rattle.std.specs.Prelude.{◌≡◌, ◌↔◌, ◌<◌, IsNone, IfSome};

/// How much time a file covers. Levels are ordered as they stand here, which is by their numbers.
#[derive(Clone, Copy, PartialEq, Eq, PartialOrd, Ord, Debug)]
pub enum Level {
    /// The whole map, before any change.
    Base,
    /// The change of one hour.
    Hour,
    /// The changes of one day.
    Day,
    /// The changes of one month.
    Month,
}

impl Level {
    ghost use Rattle.live_model.specs.Levels.{level_number};

    /// The number of the level: 0 for a base, 1 for an hour, 2 for a day, 3 for a month.
    pub fn number(self) -> u64
        ensures { result ≡ level_number self }
    {
        match self {
            Level::Base => 0,
            Level::Hour => 1,
            Level::Day => 2,
            Level::Month => 3,
        }
    }

    /// The level with this number, or `None` for a number above 3.
    pub fn from_number(number: u64) -> Option<Level>
        ensures found { IfSome result (λ level. level_number level ≡ number) }
        ensures none { IsNone result ↔ (3 < number) }
    {
        match number {
            0 => Some(Level::Base),
            1 => Some(Level::Hour),
            2 => Some(Level::Day),
            3 => Some(Level::Month),
            _ => None,
        }
    }
}
