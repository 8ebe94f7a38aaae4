//! What can be wrong with a whole file, and how its readers answer.

ghost use Rattle.std.specs.Prelude.{◌≡◌, Ok};

use crate::breaks::{WireBreak, WireKind};
use owned_data::NoMemory;
use std::fmt;
use thiserror::Error;

/// A rule of the file that fails at a place, in the order of the kinds' numbers.
#[derive(Clone, Copy, Debug, PartialEq, Eq, PartialOrd, Ord)]
pub enum FileKind {
    Short = 1,
    LongVarint = 2,
    BadKey = 3,
    OverEnd = 4,
    BadVersion = 5,
    BadHead = 6,
    BadRules = 7,
    BadText = 8,
    BadOrder = 9,
    BadId = 10,
    BadRef = 11,
    BadPoint = 12,
    BadBox = 13,
    BadPlace = 14,
    BadMark = 15,
    BadConfirm = 16,
    BadCount = 17,
}

impl FileKind {
    ghost use Rattle.obf_wire.specs.Kinds.{file_number, file_name};

    /// The number of the kind, from 1 to 17.
    pub fn number(self) -> u8
        ensures { result ≡ file_number self }
    {
        self as u8
    }

    /// The name of the kind, as it is printed.
    pub fn name(self) -> &'static str
        ensures { result.now ≡ file_name self }
    {
        match self {
            FileKind::Short => "Short",
            FileKind::LongVarint => "LongVarint",
            FileKind::BadKey => "BadKey",
            FileKind::OverEnd => "OverEnd",
            FileKind::BadVersion => "BadVersion",
            FileKind::BadHead => "BadHead",
            FileKind::BadRules => "BadRules",
            FileKind::BadText => "BadText",
            FileKind::BadOrder => "BadOrder",
            FileKind::BadId => "BadId",
            FileKind::BadRef => "BadRef",
            FileKind::BadPoint => "BadPoint",
            FileKind::BadBox => "BadBox",
            FileKind::BadPlace => "BadPlace",
            FileKind::BadMark => "BadMark",
            FileKind::BadConfirm => "BadConfirm",
            FileKind::BadCount => "BadCount",
        }
    }
}

impl fmt::Display for FileKind {
    ghost use Rattle.std.specs.Prelude.{Some};
    ghost use Rattle.obf_wire.specs.Kinds.{file_name};

    ghost output = { λ kind. Some (file_name kind) };

    fn fmt<W: fmt::Write>(&self, f: &mut fmt::Formatter<W>) -> fmt::Result {
        f.write_str(self.name())
    }
}

impl From<WireKind> for FileKind {
    ghost use Rattle.std.specs.Prelude.{◌≡◌};
    ghost use Rattle.obf_wire.specs.Kinds.{file_kind};

    ghost from_gives = { λ wire kind. kind ≡ file_kind wire };

    fn from(wire: WireKind) -> FileKind {
        match wire {
            WireKind::Short => FileKind::Short,
            WireKind::LongVarint => FileKind::LongVarint,
            WireKind::BadKey => FileKind::BadKey,
            WireKind::OverEnd => FileKind::OverEnd,
        }
    }
}

/// The first break of a file, with the offset of the byte at which it is told.
#[derive(Clone, Copy, Debug, PartialEq, Eq, PartialOrd, Ord, Error)]
#[error("{kind} at {at}")]
pub struct FileBreak {
    pub at: usize,
    pub kind: FileKind,
}

impl From<WireBreak> for FileBreak {
    ghost use Rattle.std.specs.Prelude.{◌≡◌};
    ghost use Rattle.obf_wire.specs.Kinds.{file_break};

    ghost from_gives = { λ wire found. found ≡ file_break wire };

    fn from(wire: WireBreak) -> FileBreak {
        FileBreak {
            at: wire.at,
            kind: FileKind::from(wire.kind),
        }
    }
}

/// Why a reader of files gives no answer.
#[derive(Clone, Copy, Debug, Drop, PartialEq, Eq, Error)]
pub enum FileError {
    /// Memory was refused.
    #[error("no memory")]
    NoMemory,
    /// The bytes are no file: the first break.
    #[error("{0}")]
    Broken(FileBreak),
}

impl From<NoMemory> for FileError {
    ghost use Rattle.std.specs.Prelude.{◌≡◌};
    ghost use Rattle.obf_wire.specs.declared.file.FileError.TheVariants as errors;

    ghost from_gives = { λ _ error. error ≡ errors.NoMemory };

    fn from(_: NoMemory) -> FileError {
        FileError::NoMemory
    }
}

impl From<FileBreak> for FileError {
    ghost use Rattle.std.specs.Prelude.{◌≡◌};
    ghost use Rattle.obf_wire.specs.declared.file.FileError.TheVariants as errors;

    ghost from_gives = { λ found error. error ≡ errors.Broken found };

    fn from(found: FileBreak) -> FileError {
        FileError::Broken(found)
    }
}

impl From<WireBreak> for FileError {
    ghost use Rattle.std.specs.Prelude.{◌≡◌};
    ghost use Rattle.obf_wire.specs.Kinds.{file_break};
    ghost use Rattle.obf_wire.specs.declared.file.FileError.TheVariants as errors;

    ghost from_gives = { λ wire error. error ≡ errors.Broken (file_break wire) };

    fn from(wire: WireBreak) -> FileError {
        FileError::Broken(FileBreak::from(wire))
    }
}

/// Which ordinals the records of a section may have.
#[derive(Clone, Copy, Debug)]
pub enum Marks<'a> {
    /// Every one.
    Any,
    /// These, in rising order.
    Only(&'a [u64]),
}
