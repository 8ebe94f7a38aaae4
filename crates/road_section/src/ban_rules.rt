//! What has to hold of a turn restriction, rule by rule, in its block.

ghost use Rattle.std.specs.Prelude.{◌≡◌, ◌≤◌, ◌&&◌, ◌==◌, true};
ghost use Rattle.file_grammar.specs.BoxRules.{is_ordinal};
ghost use Rattle.file_grammar.specs.Facts.{earlier, first_failing};
ghost use Rattle.file_grammar.specs.RecordRules.{is_relation};
ghost use Rattle.boxed_exact.specs.Sides.{AreRising, beside};
ghost use Rattle.road_section.specs.SeenFacts.{IsGoodBan, ban_seen_facts};

use crate::ban_checking::BanLine;
use crate::ban_entries::BanRead;
use crate::order::{is_number, may_follow};
use boxed_exact::{Around, PointsSeen, has_mark, is_marked, is_ordinal, is_relation};
use file_grammar::FirstBreak;
use obf_wire::FileKind;

/// A restriction of a block as it was seen: the offset of its message, its ordinal, its fields and its points.
#[derive(Clone, Copy, Debug)]
pub(crate) struct BanSeen {
    pub(crate) at: usize,
    pub(crate) ordinal: u128,
    pub(crate) fields: BanRead,
    pub(crate) points: PointsSeen,
}

/// Checks every rule of a restriction after a record of this ordinal, in a block of so many texts.
pub(crate) fn check_ban(
    ban: &BanSeen,
    before: Option<u128>,
    texts: usize,
    around: &Around<'_>,
    first: &mut FirstBreak,
)
    requires { AreRising around.now.marks }
    ensures { first.new ≡ earlier first.old (first_failing (ban_seen_facts (beside around.now) texts before ban.now)) }
{
    let fields = &ban.fields;
    first.ask(ban.at, FileKind::BadOrder, may_follow(before, ban.ordinal));
    first.ask(fields.step.at, FileKind::BadId, is_id(ban.ordinal));
    first.ask(
        fields.step.at,
        FileKind::BadMark,
        is_marked(around.marks, ban.ordinal),
    );
    first.ask(
        fields.value.at,
        FileKind::BadRef,
        fields.value.value <= texts as u64,
    );
    first.ask(
        fields.from.at,
        FileKind::BadId,
        is_number(fields.from.value),
    );
    first.ask(fields.via.at, FileKind::BadId, is_number(fields.via.value));
    first.ask(fields.to.at, FileKind::BadId, is_number(fields.to.value));
    first.ask(
        fields.points.at,
        FileKind::BadPoint,
        is_one_point(ban.points),
    );
}

/// Whether every rule of a restriction is sure to hold, but that its points are on the grid.
pub(crate) fn is_good_ban(
    around: &Around<'_>,
    texts: usize,
    before: Option<u128>,
    ordinal: u64,
    line: &BanLine,
    count: usize,
) -> bool
    requires marks { AreRising around.now.marks }
    ensures { result ≡ true → IsGoodBan (beside around.now) texts before ordinal line.now.value line.now.from line.now.via line.now.to count }
{
    may_follow(before, u128::from(ordinal))
        && is_id(u128::from(ordinal))
        && has_mark(around.marks, ordinal)
        && line.value <= texts as u64
        && is_number(line.from)
        && is_number(line.via)
        && is_number(line.to)
        && count == 1
}

/// Whether the ordinal is that of a relation.
fn is_id(ordinal: u128) -> bool
    ensures { result ≡ (is_ordinal ordinal && is_relation ordinal) }
{
    is_ordinal(ordinal) && is_relation(ordinal)
}

/// Whether this is one point of the grid.
fn is_one_point(points: PointsSeen) -> bool
    ensures { result ≡ (points.on_grid && (points.count == 1)) }
{
    points.on_grid && points.count == 1
}
