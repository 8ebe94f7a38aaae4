//! Tables of rules.

ghost use Rattle.std.specs.Prelude.{◌≡◌, ◌≤◌, [], ◌∷◌, length, slice_get, IfErr, IfOk};
ghost use Rattle.std.specs.List.{AllByRecursion};
ghost use Rattle.std.specs.Option.{option_copied};
ghost use Rattle.live_model.specs.Rules.{IsRule, RuleText, rules_text};
ghost use Rattle.tag_rules.specs.Matching.{earlier, first_from, matching_from};
ghost use Rattle.tag_rules.specs.Order.{seen_want, wants};
ghost use Rattle.tag_rules.specs.Readings.{IsCause};

use crate::errors::RuleError;
use crate::places::{Wanted, first_place, in_order};
use crate::reading::read_rules;
use crate::writing::canonical;
use live_model::{List, Mem, Rule, Shape, Tag};
use std::alloc::Global;
use std::marker::Model;

/// A table of rules, seen as the list of its rules. There are at most 100,000, and each is one that a rule
/// line can spell.
#[derive(Debug, Drop)]
pub struct Rules {
    rules: Vec<Rule>,
    text: Vec<u8>,
    order: Vec<u32>,
}

impl Model for Rules {
    ghost use Rattle.std.specs.Prelude.{List};
    ghost use Rattle.live_model.specs.declared.rules.Rule.{Rule};
    ghost use Rattle.tag_rules.specs.Tables.{IsTable};

    ghost Value = { List Rule };

    ghost view = { λ t. t.rules.items };

    ghost invariant = { λ t. IsTable t.rules.items t.text.items t.order.items };
}

impl Rules {
    /// The table without rules. It takes no memory.
    pub fn empty(alloc: Global) -> Rules
        ensures { result ≡ [] }
    {
        Rules {
            rules: Vec::new(alloc),
            text: Vec::new(alloc),
            order: Vec::new(alloc),
        }
    }

    /// The table that a text of rules spells. `Broken` with the first break of the text exactly where it has
    /// one, unless memory was refused before.
    pub fn read(alloc: Global, bytes: &[u8]) -> Result<Rules, RuleError>
        ensures rules { IfOk result (λ rules. RuleText bytes.now rules) }
        ensures broken { IfErr result (IsCause bytes.now) }
    {
        let rules = read_rules(alloc, bytes)?;
        let table = Rules::of(alloc, rules)?;
        Ok(table)
    }

    // The table of these rules.
    fn of(alloc: Global, rules: Vec<Rule>) -> Mem<Rules>
        requires each { AllByRecursion IsRule rules.items }
        requires few { length rules.items ≤ 100000 }
        ensures { IfOk result (λ table. table ≡ rules.items) }
    {
        let text = canonical(alloc, &rules)?;
        let order = in_order(alloc, &rules)?;
        Ok(Rules { rules, text, order })
    }

    /// How many rules there are.
    pub fn len(&self) -> u32
        ensures { result ≡ length self.now }
    {
        self.rules.len() as u32
    }

    /// The rule at a place, counted from 0. `None` exactly where the place is not below `len`.
    pub fn get(&self, index: u32) -> Option<&Rule>
        ensures { option_copied result ≡ slice_get self.now index }
    {
        self.rules.get(index as usize)
    }

    /// The rules in their order.
    pub fn as_slice(&self) -> &[Rule]
        ensures list { result.now ≡ self.now }
        ensures rules { AllByRecursion IsRule self.now }
        ensures few { length self.now ≤ 100000 }
    {
        self.rules.as_slice()
    }

    /// The canonical text.
    pub fn text(&self) -> &[u8]
        ensures text { result.now ≡ rules_text self.now }
        ensures rules { AllByRecursion IsRule self.now }
        ensures few { length self.now ≤ 100000 }
    {
        self.text.as_slice()
    }

    /// The place of the first rule at or after `from` that matches an object of this shape and these tags.
    /// `None` exactly where there is none. It takes two binary searches for each tag, and no memory.
    pub fn matching(&self, shape: Shape, tags: &List<Tag>, from: u32) -> Option<u32>
        ensures { result ≡ matching_from self.now shape tags.now from }
    {
        let tags = tags.as_slice();
        let mut first = None;
        for tag in tags {
            first = earlier(first, self.matching_tag(shape, tag, from));
        }
        first
    }

    // The same of an object with this tag alone.
    fn matching_tag(&self, shape: Shape, tag: &Tag, from: u32) -> Option<u32>
        ensures { result ≡ matching_from self.now shape (tag.now ∷ []) from }
    {
        let any = Wanted {
            shape,
            key: tag.key.as_bytes(),
            value: &[],
        };
        let just = Wanted {
            shape,
            key: tag.key.as_bytes(),
            value: tag.value.as_bytes(),
        };
        earlier(self.first_place(&any, from), self.first_place(&just, from))
    }

    // The place of the first rule at or after `from` that wants just this.
    fn first_place(&self, wanted: &Wanted<'_>, from: u32) -> Option<u32>
        ensures first { result ≡ first_from (wants (seen_want wanted.now)) self.now from }
        ensures each { AllByRecursion IsRule self.now }
    {
        first_place(&self.rules, &self.order, wanted, from)
    }
}

// The earlier of two places, where there are any.
fn earlier(a: Option<u32>, b: Option<u32>) -> Option<u32>
    ensures { result ≡ earlier a b }
{
    match (a, b) {
        (Some(a), Some(b)) => Some(a.min(b)),
        (Some(a), None) => Some(a),
        (None, b) => b,
    }
}
