//! The rules that match an object.

ghost use Rattle.std.specs.Prelude.{◌≡◌, ◌<◌, [], ◌∷◌, length, IfSome, MatchOption};
ghost use Rattle.object_geometry.specs.Matching.{lesser, first_from, rules_for, wants, of_class};

use crate::outlines::shapes;
use live_model::{Class, Entity, List, Rule, Shape, Tag};
use std::marker::Model;
use tag_rules::Rules;

/// The classes of rules that draw objects, make roads of them, or name places.
#[derive(Clone, Copy, PartialEq, Eq, Debug)]
pub enum Wanted {
    Map,
    Road,
    Place,
}

impl Wanted {
    /// Whether a rule's class is this one.
    fn admits(self, class: &Class) -> bool
        ensures { result ≡ wants self class.now }
    {
        matches!(
            (self, class),
            (Wanted::Map, Class::Map) | (Wanted::Road, Class::Road) | (Wanted::Place, Class::Place)
        )
    }
}

/// The rules that match an object, if it has points, in the order of the table; seen as those that are
/// still to come, each with its place.
#[derive(Drop)]
pub struct Matches<'a> {
    rules: &'a Rules,
    shapes: &'a [Shape],
    tags: &'a List<Tag>,
    from: u32,
}

impl<'a> Model for Matches<'a> {
    ghost use Rattle.std.specs.Prelude.{ℕ, List, drop, filter};
    ghost use Rattle.std.specs.List.{enumerate_from};
    ghost use Rattle.live_model.specs.declared.rules.Rule.{Rule};
    ghost use Rattle.object_geometry.specs.Matching.{matches_any};

    ghost Value = { List (ℕ × Rule) };

    ghost view = { λ m. filter (matches_any m.shapes.now m.tags.now) (drop m.from (enumerate_from 0 m.rules.now)) };
}

impl<'a> Matches<'a> {
    /// All rules that match the object. It takes no memory.
    pub fn new(rules: &'a Rules, entity: &'a Entity) -> Matches<'a>
        ensures { result ≡ rules_for rules.now entity.now }
    {
        Matches {
            rules,
            shapes: shapes(entity),
            tags: &entity.tags,
            from: 0,
        }
    }

    /// The next rule, with its place in the table, counted from 0. `None` exactly where none is to come.
    pub fn next_rule(&mut self) -> Option<(u32, &'a Rule)>
        ensures { MatchOption result (self.old ≡ []) (λ found. self.old ≡ (found.0, found.1.now) ∷ self.new) }
    {
        let Some(index) = first_match(self.rules, self.shapes, self.tags, self.from) else {
            return None;
        };
        let rules = self.rules.as_slice();
        let rule = &rules[index as usize];
        self.from = index + 1;
        Some((index, rule))
    }

    /// The next rule of a class, with its index in the table. `None` exactly where none is to come.
    pub fn next_of(&mut self, wanted: Wanted) -> Option<(u32, &'a Rule)>
        ensures { MatchOption result (of_class wanted self.old ≡ []) (λ found. of_class wanted self.old ≡ (found.0, found.1.now) ∷ of_class wanted self.new) }
    {
        while let Some((index, rule)) = self.next_rule() {
            if wanted.admits(&rule.class) {
                return Some((index, rule));
            }
        }
        None
    }
}

/// The place of the first rule at or after `from` that matches one of the shapes.
fn first_match(rules: &Rules, shapes: &[Shape], tags: &List<Tag>, from: u32) -> Option<u32>
    ensures first { result ≡ first_from rules.now shapes.now tags.now from }
    ensures within { IfSome result (λ index. index < length rules.now) }
{
    let mut first = None;
    let mut rest = shapes;
    while let [shape, after @ ..] = rest {
        first = lesser(first, rules.matching(*shape, tags, from));
        rest = after;
    }
    first
}

/// The lesser of the numbers that are there.
fn lesser(a: Option<u32>, b: Option<u32>) -> Option<u32>
    ensures { result ≡ lesser a b }
{
    match (a, b) {
        (Some(a), Some(b)) => Some(a.min(b)),
        (Some(a), None) => Some(a),
        (None, b) => b,
    }
}
