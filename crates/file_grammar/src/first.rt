//! The first break of rules that are asked one after another.

ghost use Rattle.std.specs.Prelude.{◌≡◌, List, None, Option, Some, length};
ghost use Rattle.obf_wire.specs.declared.file.FileBreak.{FileBreak};
ghost use Rattle.file_grammar.specs.Facts.{Fact, IsFirstBreakLaw, earlier, fact, failing};

use obf_wire::{FileBreak, FileKind};
use std::marker::Model;

/// The first break of what was asked so far: of the failing rules that at the smallest offset, and of those
/// at one offset that of the kind with the smallest number.
#[derive(Debug, Drop)]
pub struct FirstBreak {
    earliest: Option<FileBreak>,
}

impl Model for FirstBreak {
    ghost use Rattle.std.specs.Prelude.{Option};
    ghost use Rattle.obf_wire.specs.declared.file.FileBreak.{FileBreak};

    ghost Value = { Option FileBreak };

    ghost view = { λ first. first.earliest };
}

impl FirstBreak {
    /// Nothing was asked, so nothing failed.
    pub fn none() -> FirstBreak
        ensures { result ≡ None }
    {
        FirstBreak { earliest: None }
    }

    /// Asks a rule of this kind, told at `at`: whether it `holds`.
    pub fn ask(&mut self, at: usize, kind: FileKind, holds: bool)
        ensures { self.new ≡ earlier self.old (failing (fact at kind holds)) }
    {
        if !holds {
            self.earliest = Some(self.or_earlier(FileBreak { at, kind }));
        }
    }

    // The break, or the earliest so far where that comes first.
    fn or_earlier(&self, found: FileBreak) -> FileBreak
        ensures { Some result ≡ earlier self.now (Some found) }
    {
        match self.earliest {
            None => found,
            Some(earliest) => first_of(earliest, found),
        }
    }

    /// The first break; `None` exactly where all that was asked holds.
    pub fn found(&self) -> Option<FileBreak>
        ensures { result ≡ self.now }
    {
        self.earliest
    }
}

// The one that comes first.
fn first_of(a: FileBreak, b: FileBreak) -> FileBreak
    ensures { Some result ≡ earlier (Some a) (Some b) }
{
    if a.at < b.at || (a.at == b.at && a.kind.number() <= b.kind.number()) {
        a
    } else {
        b
    }
}

/// The first break of facts is none exactly where all hold, and else one that fails, before which none
/// fails.
pub fn one_first_break()
    ensures { (facts : List Fact) → IsFirstBreakLaw facts }
{}
