//! What has to hold of a road, rule by rule, in its block.

ghost use Rattle.std.specs.Prelude.{◌≡◌, ◌≤◌, ◌&&◌, ℕ, List, nat_le, slice_get, false, true};
ghost use Rattle.std.specs.Option.{option_map_or};
ghost use Rattle.live_model.specs.Records.{is_road};
ghost use Rattle.live_model.specs.Rules.{admits, shape_rank};
ghost use Rattle.file_grammar.specs.BoxRules.{is_ordinal, is_way};
ghost use Rattle.file_grammar.specs.Facts.{earlier, first_failing};
ghost use Rattle.file_grammar.specs.RoadRules.{is_admitted, makes_roads};
ghost use Rattle.file_grammar.specs.Sections.{Placed, text_of};
ghost use Rattle.boxed_exact.specs.Sides.{AreRising, beside};
ghost use Rattle.boxed_exact.specs.Texts.{AreTexts};
ghost use Rattle.road_section.specs.SeenFacts.{IsGoodRoad, names_value, road_seen_facts};

use crate::order::may_follow;
use crate::road_checking::RoadLine;
use crate::road_entries::RoadRead;
use crate::stops::NodesSeen;
use boxed_exact::{Around, BlockTexts, has_mark, is_marked, is_ordinal, is_way};
use file_grammar::FirstBreak;
use live_model::{Class, Rule, Shape};
use obf_wire::FileKind;
use tag_rules::Rules;

/// A road of a block as it was seen: the offset of its message, its ordinal, its fields and its nodes.
#[derive(Clone, Copy, Debug)]
pub(crate) struct RoadSeen {
    pub(crate) at: usize,
    pub(crate) ordinal: u128,
    pub(crate) fields: RoadRead,
    pub(crate) nodes: NodesSeen,
}

/// Checks every rule of a road after a record of this ordinal, in a block of these texts.
pub(crate) fn check_road(
    road: &RoadSeen,
    before: Option<u128>,
    texts: BlockTexts<'_>,
    around: &Around<'_>,
    first: &mut FirstBreak,
)
    requires { AreRising around.now.marks }
    ensures { (there : List (Placed (List ℕ))) → AreTexts texts.entry there
        → first.new ≡ earlier first.old (first_failing (road_seen_facts (beside around.now) there before road.now)) }
{
    let fields = &road.fields;
    first.ask(
        road.at,
        FileKind::BadOrder,
        may_follow(before, road.ordinal),
    );
    first.ask(fields.step.at, FileKind::BadId, is_id(road.ordinal));
    first.ask(
        fields.step.at,
        FileKind::BadMark,
        is_marked(around.marks, road.ordinal),
    );
    first.ask(
        fields.rule.at,
        FileKind::BadRef,
        is_made_by(around.rules, fields.rule.value),
    );
    first.ask(
        fields.value.at,
        FileKind::BadRef,
        names_value(around.rules, texts, fields.rule.value, fields.value.value),
    );
    first.ask(
        fields.direction.at,
        FileKind::BadRef,
        fields.direction.value <= 2,
    );
    first.ask(fields.nodes.at, FileKind::BadId, road.nodes.numbered);
    first.ask(fields.nodes.at, FileKind::BadPoint, are_nodes(road.nodes));
}

/// Whether every rule of a road is sure to hold, but those of each node.
pub(crate) fn is_good_road(
    around: &Around<'_>,
    texts: BlockTexts<'_>,
    before: Option<u128>,
    ordinal: u64,
    line: &RoadLine,
    count: usize,
) -> bool
    requires marks { AreRising around.now.marks }
    ensures { result ≡ true → IsGoodRoad (beside around.now) texts.entry before ordinal line.now.rule line.now.value line.now.direction count }
{
    may_follow(before, u128::from(ordinal))
        && is_id(u128::from(ordinal))
        && has_mark(around.marks, ordinal)
        && is_made_by(around.rules, line.rule)
        && names_value(around.rules, texts, line.rule, line.value)
        && line.direction <= 2
        && 2 <= count
}

/// Whether the ordinal is that of a way.
fn is_id(ordinal: u128) -> bool
    ensures { result ≡ (is_ordinal ordinal && is_way ordinal) }
{
    is_ordinal(ordinal) && is_way(ordinal)
}

/// Whether these may be the locations of a road's nodes: two or more, on the grid.
fn are_nodes(nodes: NodesSeen) -> bool
    ensures { result ≡ (nodes.on_grid && nat_le 2 nodes.count) }
{
    nodes.on_grid && 2 <= nodes.count
}

/// Whether the number is that of a text of the block, and the rule admits this text. Only where the rule has a value is the
/// text looked up.
fn names_value(rules: &Rules, texts: BlockTexts<'_>, rule: u64, value: u64) -> bool
    ensures { (there : List (Placed (List ℕ))) → AreTexts texts.entry there → result ≡ names_value rules.now there rule value }
{
    value <= texts.count as u64 && is_admitted(rules, texts, rule, value)
}

/// Whether the rule of this number admits the text; it holds where there is no rule.
fn is_admitted(rules: &Rules, texts: BlockTexts<'_>, rule: u64, value: u64) -> bool
    ensures { (there : List (Placed (List ℕ))) → AreTexts texts.entry there → result ≡ is_admitted rules.now rule (text_of there value) }
{
    match rules.as_slice().get(rule as usize) {
        None => true,
        Some(rule) => admits(rule, texts, value),
    }
}

/// Whether a rule admits the text of a number.
fn admits(rule: &Rule, texts: BlockTexts<'_>, value: u64) -> bool
    ensures { (there : List (Placed (List ℕ))) → AreTexts texts.entry there → result ≡ admits rule.now.value (text_of there value) }
{
    match &rule.value {
        None => true,
        Some(admitted) => admitted.as_bytes() == texts.get(value),
    }
}

/// Whether the rule of this number makes roads.
fn is_made_by(rules: &Rules, number: u64) -> bool
    ensures { result ≡ option_map_or makes_roads (slice_get rules.now number) false }
{
    match rules.as_slice().get(number as usize) {
        None => false,
        Some(rule) => makes_roads(rule),
    }
}

/// Whether a rule makes roads, which are lines.
fn makes_roads(rule: &Rule) -> bool
    ensures { result ≡ makes_roads rule.now }
{
    shape_rank(rule.shape) == 1 && is_road(&rule.class)
}

/// Points, lines and areas, counted from 0.
fn shape_rank(shape: Shape) -> u64
    ensures { result ≡ shape_rank shape }
{
    match shape {
        Shape::Point => 0,
        Shape::Line => 1,
        Shape::Area => 2,
    }
}

/// Whether rules of this class make roads.
fn is_road(class: &Class) -> bool
    ensures { result ≡ is_road class.now }
{
    match class {
        Class::Map => false,
        Class::Poi(_) => false,
        Class::Road => true,
        Class::Place => false,
    }
}
