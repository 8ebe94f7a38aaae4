//! What has to hold of a point of interest, rule by rule, in its block.

ghost use Rattle.std.specs.Prelude.{◌≡◌, ◌≤◌, ◌&&◌, ◌==◌, true};
ghost use Rattle.file_grammar.specs.BoxRules.{is_ordinal};
ghost use Rattle.file_grammar.specs.Facts.{earlier, first_failing};
ghost use Rattle.file_grammar.specs.RecordRules.{is_node_or_way};
ghost use Rattle.boxed_exact.specs.Sides.{AreRising, beside};
ghost use Rattle.poi_section.specs.EntryFacts.{IsGoodPoi, may_follow, rises, seen_facts};

use crate::entries::EntryFields;
use boxed_exact::{Around, PointsSeen, has_mark, is_marked, is_node, is_ordinal, is_way};
use file_grammar::FirstBreak;
use obf_wire::FileKind;

/// A record of a block as it was seen: the offset of its field, its ordinal, its fields and its points.
#[derive(Clone, Copy, Debug)]
pub(crate) struct EntrySeen {
    pub(crate) at: usize,
    pub(crate) ordinal: u128,
    pub(crate) fields: EntryFields,
    pub(crate) points: PointsSeen,
}

/// Checks every rule of a record after one of this ordinal, in a block of so many texts.
pub(crate) fn check_entry(
    entry: &EntrySeen,
    before: Option<u128>,
    texts: usize,
    around: &Around<'_>,
    first: &mut FirstBreak,
)
    requires { AreRising around.now.marks }
    ensures { first.new ≡ earlier first.old (first_failing (seen_facts (beside around.now) texts before entry.now)) }
{
    let fields = &entry.fields;
    first.ask(
        entry.at,
        FileKind::BadOrder,
        may_follow(before, entry.ordinal),
    );
    first.ask(fields.step.at, FileKind::BadId, is_id(entry.ordinal));
    first.ask(
        fields.step.at,
        FileKind::BadMark,
        is_marked(around.marks, entry.ordinal),
    );
    first.ask(
        fields.name.at,
        FileKind::BadRef,
        fields.name.value <= texts as u64,
    );
    first.ask(
        fields.points.at,
        FileKind::BadPoint,
        is_one_location(entry.points),
    );
}

/// Whether every rule of a record is sure to hold, but that its points are on the grid.
pub(crate) fn is_good(
    around: &Around<'_>,
    texts: usize,
    before: Option<u128>,
    ordinal: u64,
    name: u64,
    count: usize,
) -> bool
    requires { AreRising around.now.marks }
    ensures { result ≡ true → IsGoodPoi (beside around.now) texts before ordinal name count }
{
    may_follow(before, u128::from(ordinal))
        && is_id(u128::from(ordinal))
        && has_mark(around.marks, ordinal)
        && name <= texts as u64
        && count == 1
}

/// Whether the ordinal is one of a node or a way.
fn is_id(ordinal: u128) -> bool
    ensures { result ≡ (is_ordinal ordinal && is_node_or_way ordinal) }
{
    is_ordinal(ordinal) && (is_node(ordinal) || is_way(ordinal))
}

/// Whether there is one point, and it is on the grid.
fn is_one_location(points: PointsSeen) -> bool
    ensures { result ≡ (points.on_grid && (points.count == 1)) }
{
    points.on_grid && points.count == 1
}

/// Whether the record may stand after one of this ordinal.
fn may_follow(before: Option<u128>, ordinal: u128) -> bool
    ensures { result ≡ may_follow before ordinal }
{
    match before {
        None => true,
        Some(before) => rises(before, ordinal),
    }
}

/// Whether one record may stand behind another: rising by ordinal, where both are of objects.
fn rises(before: u128, ordinal: u128) -> bool
    ensures { result ≡ rises before ordinal }
{
    before <= ordinal || !(is_ordinal(before) && is_ordinal(ordinal))
}
