//! A text of rules, line by line.

ghost use Rattle.std.specs.Prelude.{◌≡◌, ◌==◌, ◌<◌, ◌≤◌, ◌+◌, ◌^◌, ◌++◌, ◌∷◌, [], Some, length, vec_len, IfErr, IfOk, OnOk};
ghost use Rattle.std.specs.List.{AllByRecursion};
ghost use Rattle.live_model.specs.ObjectLines.{first_of};
ghost use Rattle.live_model.specs.OplTexts.{is_skipped};
ghost use Rattle.live_model.specs.Rules.{IsRule, RuleText, rule_of};
ghost use Rattle.tag_rules.specs.Readings.{IsCause, IsCauseAt, IsRead};

use crate::errors::{RuleError, broken};
use crate::rows::read_row;
use live_model::{Rule, RuleKind};
use std::alloc::Global;
use text_pieces::{TextLine, all_blank, next_line};

/// How many rules a table may have.
const MOST_RULES: usize = 100_000;

/// The rules that a text spells, in order. `Broken` with the first break of the text exactly where it has
/// one, unless memory was refused before.
pub(crate) fn read_rules(alloc: Global, bytes: &[u8]) -> Result<Vec<Rule>, RuleError>
    ensures rules { IfOk result (λ rules. RuleText bytes.now rules.items) }
    ensures good { IfOk result (λ rules. AllByRecursion IsRule rules.items) }
    ensures broken { IfErr result (IsCause bytes.now) }
{
    let mut rules = Vec::new(alloc);
    let mut at = 0;
    let mut rest = bytes;
    while let Some(row) = next_line(at, rest) {
        if !is_skipped(row.bytes) {
            add_row(alloc, &mut rules, &row)?;
        }
        at = row.next;
        rest = row.rest;
    }
    Ok(rules)
}

// Reads a rule line and puts its rule behind those before it.
fn add_row(alloc: Global, rules: &mut Vec<Rule>, row: &TextLine<'_>) -> Result<(), RuleError>
    requires row { row.now.at + length row.now.bytes.now < 2 ^ 63 }
    requires rules { vec_len rules.old ≤ 100000 }
    ensures rule { OnOk result ((rule : Rule) × (IsRead row.now.bytes.now rule) × (rules.new.items ≡ rules.old.items ++ rule ∷ [])) }
    ensures within { OnOk result (vec_len rules.old < 100000) }
    ensures broken { IfErr result (IsCauseAt (vec_len rules.old) row.now.at row.now.bytes.now) }
{
    if rules.len() == MOST_RULES {
        return Err(broken(row.at, RuleKind::OverLimit));
    }
    match read_row(alloc, row.bytes) {
        Ok(rule) => {
            rules.push(rule)?;
            Ok(())
        }
        Err(RuleError::Broken(b)) => Err(broken(row.at + b.at, b.kind)),
        Err(RuleError::NoMemory) => Err(RuleError::NoMemory),
    }
}

// A line of blanks, or one that begins with `#`.
fn is_skipped(line: &[u8]) -> bool
    ensures { result ≡ is_skipped line.now }
{
    all_blank(line) || begins_with_hash(line)
}

fn begins_with_hash(line: &[u8]) -> bool
    ensures { result ≡ (first_of line.now == 35) }
{
    match line {
        [first, ..] => *first == b'#',
        [] => false,
    }
}
