//! Texts of object lines.

ghost use Rattle.std.specs.Prelude.{Some};
ghost use Rattle.live_model.specs.OplTexts.{kind_name};

use std::fmt;

/// A letter of a field: `v`, `d`, `c`, `t`, `i`, `u`, `T`, `x`, `y`, `N` and `M`.
#[derive(Clone, Copy, PartialEq, Eq, Debug)]
pub enum Letter {
    Version,
    State,
    Change,
    Time,
    UserId,
    UserName,
    Tags,
    Lon,
    Lat,
    Refs,
    Members,
}

/// How a text breaks, numbered 1 to 9.
#[derive(Clone, Copy, PartialEq, Eq, Debug)]
pub enum OplKind {
    /// The line is not UTF-8.
    NotUtf8 = 1,
    /// The first field is not an id with its letter at the first byte of the line.
    BadId = 2,
    /// The letter does not stand on an object of this kind, or the state is neither `V` nor `D`.
    BadField = 3,
    /// The letter stands on the line already.
    Twice = 4,
    /// An escape is no character's code between percent signs.
    BadEscape = 5,
    /// A number, a time or a coordinate is out of form or range.
    BadNumber = 6,
    /// A reference carries a location.
    LocatedRef = 7,
    /// A text or a list is not of its form.
    BadList = 8,
    /// A list has more than 65,535 items, or the line is the 4,000,001st object line.
    OverLimit = 9,
}

impl fmt::Display for OplKind {
    ghost output = { λ kind. Some (kind_name kind) };

    fn fmt<W: fmt::Write>(&self, f: &mut fmt::Formatter<W>) -> fmt::Result {
        f.write_str(match self {
            OplKind::NotUtf8 => "NotUtf8",
            OplKind::BadId => "BadId",
            OplKind::BadField => "BadField",
            OplKind::Twice => "Twice",
            OplKind::BadEscape => "BadEscape",
            OplKind::BadNumber => "BadNumber",
            OplKind::LocatedRef => "LocatedRef",
            OplKind::BadList => "BadList",
            OplKind::OverLimit => "OverLimit",
        })
    }
}

/// The first break of a text: its place, counted in bytes from the start of the text, and its kind.
#[derive(Clone, Copy, PartialEq, Eq, Debug)]
pub struct OplBreak {
    pub at: usize,
    pub kind: OplKind,
}
