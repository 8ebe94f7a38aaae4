//! The lines of a stream, read as they are completed.

ghost use Rattle.std.specs.Prelude.{◌≡◌, ◌≤◌, ◌<◌, ◌+◌, ◌^◌, ◌++◌, ◌∷◌, [], length, take, false, IfErr, IfOk, IfSome, MatchOption, OnOk, ℕ};
ghost use Rattle.live_model.specs.OplTexts.{OplText, text_break};
ghost use Rattle.opl_feed.specs.Streams.{has_line_feed, completed, begun, completed_rows};
ghost use Rattle.opl_feed.specs.Rows.{AreRead, IsRowsCause, row_of};

use crate::objects::add_line;
use memchr::memchr;
use opl_reader::{Line, OplError};
use opl_rows::Row;
use std::alloc::Global;

/// Where a stream stands: the line that it began last.
#[derive(Drop)]
pub(crate) struct Held {
    /// The offset in the stream of the line's first byte.
    pub(crate) at: usize,
    /// How many object lines stand before it.
    pub(crate) rows: usize,
    /// The bytes of the line that came.
    pub(crate) begun: Vec<u8>,
    /// The row over which each object line is read.
    row: Row,
}

/// The bytes before the first line feed, and those behind it.
#[derive(Clone, Copy)]
struct FirstLine<'a> {
    line: &'a [u8],
    rest: &'a [u8],
}

impl Held {
    /// The beginning of a stream. It takes no memory.
    pub(crate) fn new(alloc: Global) -> Held
        ensures { (result.at ≡ 0) × (result.rows ≡ 0) × (result.begun.items ≡ []) }
    {
        Held {
            at: 0,
            rows: 0,
            begun: Vec::new(alloc),
            row: Row::new(alloc),
        }
    }

    /// Takes more bytes of the stream, and puts the lines that they complete behind those that are there.
    pub(crate) fn piece(
        &mut self,
        alloc: Global,
        bytes: &[u8],
        lines: &mut Vec<Line>,
    ) -> Result<(), OplError>
        requires rows { self.old.rows ≤ 4000000 }
        requires begun { has_line_feed self.old.begun.items ≡ false }
        requires room { self.old.at + length self.old.begun.items + length bytes.now < 2 ^ 63 }
        ensures read { OnOk result (AreRead self.old.rows (completed_rows self.old.at (self.old.begun.items ++ bytes.now)) self.new.rows lines.old.items lines.new.items) }
        ensures at { OnOk result (self.new.at ≡ self.old.at + length (completed (self.old.begun.items ++ bytes.now))) }
        ensures begun { OnOk result (self.new.begun.items ≡ begun (self.old.begun.items ++ bytes.now)) }
        ensures broken { IfErr result (IsRowsCause self.old.rows (completed_rows self.old.at (self.old.begun.items ++ bytes.now))) }
        ensures few { self.new.rows ≤ 4000000 }
        ensures line { has_line_feed self.new.begun.items ≡ false }
        ensures room { self.new.at + length self.new.begun.items ≤ self.old.at + length self.old.begun.items + length bytes.now }
        ensures front { take (length lines.old.items) lines.new.items ≡ lines.old.items }
    {
        let mut rest = bytes;
        while let Some(first) = first_line(rest) {
            self.complete(alloc, first.line, lines)?;
            rest = first.rest;
        }
        self.begun.extend_from_slice(rest)?;
        Ok(())
    }

    /// Reads the line whose last bytes these are, and begins the next one behind its line feed.
    fn complete(
        &mut self,
        alloc: Global,
        last: &[u8],
        lines: &mut Vec<Line>,
    ) -> Result<(), OplError>
        requires rows { self.old.rows ≤ 4000000 }
        requires begun { has_line_feed self.old.begun.items ≡ false }
        requires last { has_line_feed last.now ≡ false }
        requires room { self.old.at + length self.old.begun.items + length last.now + 1 < 2 ^ 63 }
        ensures read { OnOk result (AreRead self.old.rows (row_of self.old.at (self.old.begun.items ++ last.now)) self.new.rows lines.old.items lines.new.items) }
        ensures at { OnOk result (self.new.at ≡ self.old.at + (length (self.old.begun.items ++ last.now) + 1)) }
        ensures begun { OnOk result (self.new.begun.items ≡ []) }
        ensures broken { IfErr result (IsRowsCause self.old.rows (row_of self.old.at (self.old.begun.items ++ last.now))) }
        ensures few { self.new.rows ≤ 4000000 }
        ensures line { has_line_feed self.new.begun.items ≡ false }
        ensures room { self.new.at + length self.new.begun.items ≤ self.old.at + length self.old.begun.items + length last.now + 1 }
        ensures front { take (length lines.old.items) lines.new.items ≡ lines.old.items }
    {
        if self.begun.is_empty() {
            self.rows = add_line(alloc, self.at, self.rows, last, &mut self.row, lines)?;
            self.at += last.len() + 1;
            return Ok(());
        }
        self.begun.extend_from_slice(last)?;
        self.rows = add_line(alloc, self.at, self.rows, &self.begun, &mut self.row, lines)?;
        self.at += self.begun.len() + 1;
        self.begun.clear();
        Ok(())
    }

    /// Ends the stream: reads the line that was begun, and is at the beginning of a stream again.
    pub(crate) fn end(&mut self, alloc: Global, lines: &mut Vec<Line>) -> Result<(), OplError>
        requires rows { self.old.rows ≤ 4000000 }
        requires begun { has_line_feed self.old.begun.items ≡ false }
        requires room { self.old.at + length self.old.begun.items < 2 ^ 63 }
        ensures read { OnOk result ((m : ℕ) × (m ≤ 4000000) × AreRead self.old.rows (row_of self.old.at self.old.begun.items) m lines.old.items lines.new.items) }
        ensures new { OnOk result ((self.new.at ≡ 0) × (self.new.rows ≡ 0) × (self.new.begun.items ≡ [])) }
        ensures broken { IfErr result (IsRowsCause self.old.rows (row_of self.old.at self.old.begun.items)) }
        ensures few { self.new.rows ≤ 4000000 }
        ensures line { has_line_feed self.new.begun.items ≡ false }
        ensures room { self.new.at + length self.new.begun.items ≤ self.old.at + length self.old.begun.items }
        ensures front { take (length lines.old.items) lines.new.items ≡ lines.old.items }
    {
        add_line(alloc, self.at, self.rows, &self.begun, &mut self.row, lines)?;
        self.at = 0;
        self.rows = 0;
        self.begun.clear();
        Ok(())
    }
}

/// The line before the first line feed; none where there is no line feed.
#[tactic(auto, using(crate::proofs::Cuts::first_cut, crate::proofs::Cuts::none_cut))]
fn first_line(bytes: &[u8]) -> Option<FirstLine<'_>>
    ensures cut { MatchOption result (has_line_feed bytes.now ≡ false) (λ first. bytes.now ≡ first.line.now ++ 10 ∷ first.rest.now) }
    ensures line { IfSome result (λ first. has_line_feed first.line.now ≡ false) }
    ensures shorter { IfSome result (λ first. length first.line.now + length first.rest.now < length bytes.now) }
{
    let i = memchr(b'\n', bytes)?;
    Some(FirstLine {
        line: &bytes[..i],
        rest: &bytes[i + 1..],
    })
}
