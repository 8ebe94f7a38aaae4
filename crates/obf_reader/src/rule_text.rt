//! The rules of a file, as a canonical text.

ghost use Rattle.std.specs.Prelude.{◌≡◌, [], bytes_eq, false, if◌then◌else◌, is_some, unwrap_or, IfOk};
ghost use Rattle.live_model.specs.Rules.{rules_text};
ghost use Rattle.file_grammar.specs.Files.{rules_in};

use owned_data::{Mem, NoMemory};
use std::alloc::Global;
use tag_rules::{RuleError, Rules};

/// The rules of a text, and whether it is their canonical text. Of a text that is not canonical there are none.
#[derive(Debug, Drop)]
pub(crate) struct RulesRead {
    pub(crate) rules: Rules,
    pub(crate) canonical: bool,
}

/// Reads a text of rules, if it is canonical.
pub(crate) fn read_rules(alloc: Global, text: &[u8]) -> Mem<RulesRead>
    ensures canonical { IfOk result (λ read. read.canonical ≡ is_some (rules_in text.now)) }
    ensures rules { IfOk result (λ read. read.rules ≡ unwrap_or (rules_in text.now) []) }
{
    match Rules::read(alloc, text) {
        Ok(rules) => Ok(canonical(alloc, rules, text)),
        Err(RuleError::Broken(_)) => Ok(none(alloc)),
        Err(RuleError::NoMemory) => Err(NoMemory),
    }
}

// The rules, if this is their canonical text.
fn canonical(alloc: Global, rules: Rules, text: &[u8]) -> RulesRead
    ensures canonical { result.canonical ≡ bytes_eq text.now (rules_text rules) }
    ensures rules { result.rules ≡ (if bytes_eq text.now (rules_text rules) then rules else []) }
{
    if text == rules.text() {
        RulesRead {
            rules,
            canonical: true,
        }
    } else {
        none(alloc)
    }
}

fn none(alloc: Global) -> RulesRead
    ensures canonical { result.canonical ≡ false }
    ensures rules { result.rules ≡ [] }
{
    RulesRead {
        rules: Rules::empty(alloc),
        canonical: false,
    }
}
