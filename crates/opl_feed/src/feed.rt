//! A text of object lines, piece by piece.

ghost use Rattle.std.specs.Prelude.{◌≡◌, ◌≤◌, ◌<◌, ◌+◌, ◌^◌, ◌++◌, List, [], ℕ, length, Some, None, IfErr, IfSome, OnErr, OnOk};
ghost use Rattle.std.specs.List.{AllByRecursion};
ghost use Rattle.live_model.specs.Objects.{IsGoodLine};
ghost use Rattle.live_model.specs.OplTexts.{text_break};
ghost use Rattle.opl_reader.specs.Readings.{IsCause};
ghost use Rattle.opl_feed.specs.Streams.{completed};
ghost use Rattle.opl_feed.specs.Feeds.{Adds, IsFedBy, fed_length, fresh};

use crate::lines::Held;
use opl_reader::{Line, OplError};
use std::alloc::Global;
use std::marker::Model;

/// A text of object lines that comes in pieces: what is held between two of them.
#[derive(Drop)]
pub struct Feed {
    held: Held,
    refused: Option<OplError>,
}

impl Model for Feed {
    ghost use Rattle.std.specs.Prelude.{◌≡◌, ◌≤◌, [], false};
    ghost use Rattle.opl_feed.specs.Streams.{has_line_feed};
    ghost use Rattle.opl_feed.specs.Feeds.{Fed};

    ghost Value = { Fed };

    ghost view = { λ f. record { at = f.held.at; rows = f.held.rows; begun = f.held.begun.items; refused = f.refused } };

    ghost invariant = { λ f. (f.held.rows ≤ 4000000) × (has_line_feed f.held.begun.items ≡ false) };
}

impl Feed {
    /// A feed that nothing came to. It takes no memory.
    #[tactic(auto, using(crate::proofs::Feeding::nothing_came))]
    pub fn new(alloc: Global) -> Feed
        ensures fresh { result ≡ fresh }
        ensures fed { IsFedBy [] result }
    {
        Feed {
            held: Held::new(alloc),
            refused: None,
        }
    }

    /// Takes the next piece of a text, of any length, and puts the lines that the text so far completes behind those that are
    /// there. `Broken` exactly where one of the completed lines breaks, with the first break of the text, its offset counted
    /// from the start of the text; or `NoMemory`. From then on every call answers this error again. Where a call is refused,
    /// the lines are as they were.
    pub fn piece(
        &mut self,
        alloc: Global,
        bytes: &[u8],
        lines: &mut Vec<Line>,
    ) -> Result<(), OplError>
        requires { fed_length self.old + length bytes.now < 2 ^ 63 }
        ensures lines { OnOk result ((stream : List ℕ) → IsFedBy stream self.old → Adds (completed stream) (completed (stream ++ bytes.now)) lines.old.items lines.new.items) }
        ensures good { AllByRecursion IsGoodLine lines.old.items → AllByRecursion IsGoodLine lines.new.items }
        ensures broken { IfErr result (λ e. (stream : List ℕ) → IsFedBy stream self.old → IsCause (completed (stream ++ bytes.now)) e) }
        ensures first { IfErr result (λ e. (stream later : List ℕ) → IsFedBy stream self.old → IsCause ((stream ++ bytes.now) ++ later) e) }
        ensures fed { (stream : List ℕ) → IsFedBy stream self.old → IsFedBy (stream ++ bytes.now) self.new }
        ensures open { OnOk result ((self.old.refused ≡ None) × (self.new.refused ≡ None)) }
        ensures refused { IfErr result (λ e. self.new.refused ≡ Some e) }
        ensures again { IfSome self.old.refused (λ e. self.new.refused ≡ Some e) }
        ensures stays { OnErr result (lines.new.items ≡ lines.old.items) }
        ensures room { fed_length self.new ≤ fed_length self.old + length bytes.now }
    {
        if let Some(e) = self.refused {
            return Err(e);
        }
        let before = lines.len();
        match self.held.piece(alloc, bytes, lines) {
            Ok(()) => Ok(()),
            Err(e) => {
                lines.truncate(before);
                self.refused = Some(e);
                Err(e)
            }
        }
    }

    /// Ends the text: completes its last line, if that has no line feed, and puts it behind the lines that are there. The feed
    /// is then new again. `Broken` exactly where the text breaks, with its first break, the offset counted from the start of the
    /// text; or `NoMemory`. From then on every call answers this error again, and the lines are as they were.
    #[tactic(auto, using(crate::proofs::Feeding::nothing_came))]
    pub fn end(&mut self, alloc: Global, lines: &mut Vec<Line>) -> Result<(), OplError>
        requires { fed_length self.old < 2 ^ 63 }
        ensures lines { OnOk result ((stream : List ℕ) → IsFedBy stream self.old → Adds (completed stream) stream lines.old.items lines.new.items) }
        ensures good { AllByRecursion IsGoodLine lines.old.items → AllByRecursion IsGoodLine lines.new.items }
        ensures unbroken { OnOk result ((stream : List ℕ) → IsFedBy stream self.old → text_break stream ≡ None) }
        ensures broken { IfErr result (λ e. (stream : List ℕ) → IsFedBy stream self.old → IsCause stream e) }
        ensures open { OnOk result (self.old.refused ≡ None) }
        ensures fresh { OnOk result (self.new ≡ fresh) }
        ensures fed { OnOk result (IsFedBy [] self.new) }
        ensures refused { IfErr result (λ e. self.new.refused ≡ Some e) }
        ensures again { IfSome self.old.refused (λ e. self.new.refused ≡ Some e) }
        ensures stays { OnErr result (lines.new.items ≡ lines.old.items) }
        ensures room { fed_length self.new ≤ fed_length self.old }
    {
        if let Some(e) = self.refused {
            return Err(e);
        }
        let before = lines.len();
        match self.held.end(alloc, lines) {
            Ok(()) => Ok(()),
            Err(e) => {
                lines.truncate(before);
                self.refused = Some(e);
                Err(e)
            }
        }
    }
}
