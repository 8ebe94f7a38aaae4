//! Turn restrictions as a class of boxed records, to be checked.

ghost use Rattle.std.specs.Prelude.{◌≡◌, ◌≤◌, ◌+◌, Option, Ok, IfSome, length};
ghost use Rattle.std.specs.Option.{option_map};
ghost use Rattle.obf_wire.specs.Windows.{range_of};
ghost use Rattle.file_grammar.specs.declared.parts.Boxed.TheVariants.{Restriction};
ghost use Rattle.file_grammar.specs.declared.parts.Part.TheVariants.{Record};
ghost use Rattle.file_grammar.specs.RoadRules.{ban_boxing};
ghost use Rattle.file_grammar.specs.Messages.{Fields};
ghost use Rattle.file_grammar.specs.Readings.{message_at};
ghost use Rattle.file_grammar.specs.Sections.{Block, Entry, step_of};
ghost use Rattle.boxed_exact.specs.Boxes.{box_of};
ghost use Rattle.boxed_exact.specs.Records.{IsGoodRecord, IsRecordChecked};
ghost use Rattle.boxed_exact.specs.Sides.{AreRising, beside};
ghost use Rattle.boxed_exact.specs.Texts.{AreTexts};
ghost use Rattle.road_section.specs.SeenFacts.{IsBanSeen, key_of};
ghost use Rattle.road_section.specs.Straight.{IsBanLine};

use crate::ban_class::BanClass;
use crate::ban_entries::read_ban;
use crate::ban_rules::{BanSeen, check_ban, is_good_ban};
use crate::order::{FARTHEST, LAST};
use boxed_check::points_in;
use boxed_exact::{Around, BlockTexts, CheckClass, Checked, Edges, Seen, see_points};
use file_grammar::{Boxed, FirstBreak};
use obf_wire::{Window, expected};

/// The keys of a restriction: the step to its ordinal, its value, the way that is left, the node and the way that is
/// entered, and the steps to its point.
const STEP: u8 = 8;

const VALUE: u8 = 16;

const FROM: u8 = 24;

const VIA: u8 = 32;

const TO: u8 = 40;

const POINTS: u8 = 50;

/// The fields of a restriction, and the range of the steps to its point.
#[derive(Clone, Copy, Debug)]
pub(crate) struct BanLine {
    pub(crate) step: u64,
    pub(crate) value: u64,
    pub(crate) from: u64,
    pub(crate) via: u64,
    pub(crate) to: u64,
    pub(crate) start: usize,
    pub(crate) end: usize,
}

impl CheckClass for BanClass {
    type Key = u128;

    ghost class = { Restriction };

    ghost boxing = { ban_boxing };

    ghost key_of = { key_of };

    fn class() -> Boxed
        ensures { result ≡ Restriction }
    {
        Boxed::Restriction
    }

    fn check(
        window: Window<'_>,
        at: usize,
        ordinal: u128,
        before: Option<u128>,
        texts: BlockTexts<'_>,
        holder: &Edges,
        around: &Around<'_>,
        first: &mut FirstBreak,
    ) -> Checked<u128>
        requires few { ordinal ≤ 340282366920938463444927863358058659840 }
        requires marks { AreRising around.now.marks }
        ensures checked { (fields : Fields) (block : Block) (prev : Option Entry) → message_at (Record Restriction) (range_of window.entry) ≡ Ok fields
            → AreTexts texts.entry block.texts → option_map key_of prev ≡ before
            → IsRecordChecked ban_boxing key_of (beside around.now) (box_of holder.now) block prev (record { at = at; ordinal = ordinal + step_of fields; fields = fields }) first.old first.new result.ordinal result.key result.in_box }
        ensures step { result.ordinal ≤ ordinal + 18446744073709551615 }
    {
        let ban = see_ban(window, at, ordinal, holder);
        check_ban(&ban, before, texts.count, around, first);
        Checked {
            ordinal: ban.ordinal,
            key: ban.ordinal,
            in_box: ban.points.in_box,
        }
    }

    fn see(
        window: Window<'_>,
        at: usize,
        ordinal: u64,
        before: Option<u128>,
        texts: BlockTexts<'_>,
        holder: &Edges,
        around: &Around<'_>,
    ) -> Option<Seen<u128>>
        requires few { ordinal ≤ 4503599627370496 }
        requires marks { AreRising around.now.marks }
        ensures good { IfSome result (λ seen. IsGoodRecord Restriction ban_boxing key_of (beside around.now) (box_of holder.now) before texts.entry ordinal at (range_of window.entry) seen.ordinal seen.key) }
        ensures few { IfSome result (λ seen. seen.ordinal ≤ 4503599627370496) }
    {
        let Some(line) = ban_line(window) else {
            return None;
        };
        if line.step > FARTHEST {
            return None;
        }
        let Some(count) = points_in(window.part(line.start, line.end), holder) else {
            return None;
        };
        let next = ordinal + line.step;
        if next > LAST || !is_good_ban(around, texts.count, before, next, &line, count) {
            return None;
        }
        Some(Seen {
            ordinal: next,
            key: u128::from(next),
        })
    }
}

/// The restriction in a window, whose field begins at `at`, after a record of this ordinal.
fn see_ban(window: Window<'_>, at: usize, ordinal: u128, holder: &Edges) -> BanSeen
    requires few { ordinal ≤ 340282366920938463444927863358058659840 }
    ensures seen { (fields : Fields) → message_at (Record Restriction) (range_of window.entry) ≡ Ok fields
        → IsBanSeen (box_of holder.now) (record { at = at; ordinal = ordinal + step_of fields; fields = fields }) result }
    ensures step { result.ordinal ≤ ordinal + 18446744073709551615 }
{
    let fields = read_ban(window);
    let points = window.part(fields.points.from, fields.points.to);
    BanSeen {
        at,
        ordinal: ordinal + u128::from(fields.step.value),
        fields,
        points: see_points(points, holder),
    }
}

/// The fields of the restriction in a window, in a straight line.
fn ban_line(window: Window<'_>) -> Option<BanLine>
    ensures read { IfSome result (IsBanLine (range_of window.entry)) }
    ensures inside { IfSome result (λ line. (line.start ≤ line.end) × (line.end ≤ length window.entry.bytes.now)) }
{
    let Some(step) = expected(window, window.from(), STEP) else {
        return None;
    };
    let Some(value) = expected(window, step.to, VALUE) else {
        return None;
    };
    let Some(from) = expected(window, value.to, FROM) else {
        return None;
    };
    let Some(via) = expected(window, from.to, VIA) else {
        return None;
    };
    let Some(to) = expected(window, via.to, TO) else {
        return None;
    };
    let Some(points) = expected(window, to.to, POINTS) else {
        return None;
    };
    if points.to != window.to() {
        return None;
    }
    Some(BanLine {
        step: step.value,
        value: value.value,
        from: from.value,
        via: via.value,
        to: to.value,
        start: points.from,
        end: points.to,
    })
}
