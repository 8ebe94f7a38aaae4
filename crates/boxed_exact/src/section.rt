//! A whole section, rule by rule.

ghost use Rattle.std.specs.Prelude.{◌≡◌, ◌≤◌, ◌+◌, ◌++◌, ◌∷◌, [], ◌==◌, None, Ok, drop, flat_map, length, map, false, IfErr, IfOk};
ghost use Rattle.obf_wire.specs.Fields.{IsWindow};
ghost use Rattle.obf_wire.specs.declared.file.FileKind.TheVariants.{BadPlace};
ghost use Rattle.file_grammar.specs.declared.parts.Part.TheVariants.{Block, Boxes};
ghost use Rattle.file_grammar.specs.BoxRules.{block_facts, first_place, paired_facts, section_facts};
ghost use Rattle.file_grammar.specs.Facts.{earlier, fact, first_failing};
ghost use Rattle.file_grammar.specs.Messages.{Fields};
ghost use Rattle.file_grammar.specs.Readings.{break_in, message_at};
ghost use Rattle.file_grammar.specs.Sections.{blocks_in, messages_in, section_in};
ghost use Rattle.file_grammar.specs.Walks.{left_in};
ghost use Rattle.obf_wire.specs.Windows.{range_of};
ghost use Rattle.boxed_exact.specs.Boxes.{box_of};
ghost use Rattle.boxed_exact.specs.Sides.{AreRising, beside};
ghost use Rattle.boxed_exact.specs.Pairs.{AreBlocks, IsPairChecked, leaf_of, place_or};
ghost use Rattle.boxed_exact.specs.Breaks.{Breaks, section_break};

use crate::around::Around;
use crate::blocks::check_block;
use crate::class::CheckClass;
use crate::edges::Edges;
use crate::fields::next_payload;
use crate::nodes::{LeafSeen, check_nodes};
use file_grammar::{FieldWalk, FirstBreak, Part};
use obf_wire::{FileBreak, FileError, FileKind, Window};
use std::alloc::Global;

/// Whether the bytes of a window are a section of the class, rule by rule: `Broken` with the first break of form, or else with the first
/// rule that fails, exactly where there is one, unless memory was refused before.
pub fn check_exactly<C: CheckClass>(
    alloc: Global,
    window: Window<'_>,
    around: &Around<'_>,
) -> Result<(), FileError>
    requires marks { AreRising around.now.marks }
    ensures good { IfOk result (λ _. section_break C.class C.boxing (beside around.now) (range_of window.entry) ≡ None) }
    ensures broken { IfErr result (λ error. Breaks error (section_break C.class C.boxing (beside around.now) (range_of window.entry))) }
{
    check_form::<C>(window)?;
    check_rules::<C>(alloc, window, around)
}

/// Whether the bytes have the form of a section of the class: `Err` with the first break of form exactly where they have not. It
/// takes no memory.
fn check_form<C: CheckClass>(window: Window<'_>) -> Result<(), FileBreak>
    ensures { break_in result ≡ break_in (message_at (Boxes C.class) (range_of window.entry)) }
{
    file_grammar::form(Part::Boxes(C::class()), window)
}

/// Whether every rule holds of a section of good form: its boxes, the places of its blocks, its texts and its records.
/// `Broken` with the first break exactly where something does not hold.
fn check_rules<C: CheckClass>(
    alloc: Global,
    window: Window<'_>,
    around: &Around<'_>,
) -> Result<(), FileError>
    requires marks { AreRising around.now.marks }
    ensures good { IfOk result (λ _. (fields : Fields) → message_at (Boxes C.class) (range_of window.entry) ≡ Ok fields
        → first_failing (section_facts C.boxing (beside around.now) (section_in fields)) ≡ None) }
    ensures broken { IfErr result (λ error. (fields : Fields) → message_at (Boxes C.class) (range_of window.entry) ≡ Ok fields
        → Breaks error (first_failing (section_facts C.boxing (beside around.now) (section_in fields)))) }
{
    let mut first = FirstBreak::none();
    let mut leaves = Vec::new(alloc);
    let mut walk = FieldWalk::new(Part::Boxes(C::class()), window);
    let tree = next_payload(&mut walk);
    check_nodes(
        Part::Tree,
        window.part(tree.from, tree.to),
        &mut first,
        &mut leaves,
    )?;
    check_blocks::<C>(&mut walk, window.all(), &leaves, around, &mut first);
    match first.found() {
        None => Ok(()),
        Some(found) => Err(FileError::Broken(found)),
    }
}

/// The blocks of a section, each with the leaf that names it.
fn check_blocks<C: CheckClass>(
    walk: &mut FieldWalk<'_>,
    bytes: &[u8],
    leaves: &[LeafSeen],
    around: &Around<'_>,
    first: &mut FirstBreak,
)
    requires marks { AreRising around.now.marks }
    requires part { walk.old.part ≡ Boxes C.class }
    requires window { IsWindow walk.old.window }
    requires same { walk.old.window.bytes ≡ bytes.now }
    ensures { (fields : Fields) → left_in walk.old ≡ Ok fields → AreBlocks fields
        → first.new ≡ earlier first.old (first_failing (paired_facts C.boxing (beside around.now) (first_place C.boxing (beside around.now) (blocks_in (messages_in fields))) (map leaf_of leaves.now) (blocks_in (messages_in fields))
        ++ flat_map (block_facts C.boxing (beside around.now)) (blocks_in (messages_in fields)))) }
{
    let mut rest = leaves;
    let mut start = None;
    while let Some(field) = walk.next() {
        let place = first_of(start, field.at);
        let block = Window::new(bytes, field.from, field.to);
        check_paired::<C>(block, field.at, rest, place, around, first);
        rest = behind_first(rest);
        start = Some(place);
    }
    check_unnamed(rest, first);
}

/// Where the first block stands, at a block that stands here.
fn first_of(start: Option<usize>, at: usize) -> usize
    ensures { result ≡ place_or start at }
{
    match start {
        None => at,
        Some(place) => place,
    }
}

fn behind_first(leaves: &[LeafSeen]) -> &[LeafSeen]
    ensures { result.now ≡ drop 1 leaves.now }
{
    match leaves {
        [] => leaves,
        [_, rest @ ..] => rest,
    }
}

/// A block, with the first of these leaves, where there is one. The first block of the section stands at `start`.
fn check_paired<C: CheckClass>(
    window: Window<'_>,
    at: usize,
    leaves: &[LeafSeen],
    start: usize,
    around: &Around<'_>,
    first: &mut FirstBreak,
)
    requires marks { AreRising around.now.marks }
    ensures { (fields : Fields) → message_at (Block C.class) (range_of window.entry) ≡ Ok fields
        → IsPairChecked C.boxing (beside around.now) at start leaves.now fields first.old first.new }
{
    match leaves.first() {
        None => check_without_leaf::<C>(window, at, around, first),
        Some(leaf) => check_with_leaf::<C>(window, at, leaf, start, around, first),
    }
}

fn check_without_leaf<C: CheckClass>(
    window: Window<'_>,
    at: usize,
    around: &Around<'_>,
    first: &mut FirstBreak,
)
    requires marks { AreRising around.now.marks }
    ensures { (fields : Fields) → message_at (Block C.class) (range_of window.entry) ≡ Ok fields
        → IsPairChecked C.boxing (beside around.now) at 0 [] fields first.old first.new }
{
    check_block::<C>(window, at, &NO_BOX, around, first);
    first.ask(at, FileKind::BadPlace, false);
}

fn check_with_leaf<C: CheckClass>(
    window: Window<'_>,
    at: usize,
    leaf: &LeafSeen,
    start: usize,
    around: &Around<'_>,
    first: &mut FirstBreak,
)
    requires marks { AreRising around.now.marks }
    ensures { (fields : Fields) → message_at (Block C.class) (range_of window.entry) ≡ Ok fields
        → IsPairChecked C.boxing (beside around.now) at start (leaf.now ∷ []) fields first.old first.new }
{
    let seen = check_block::<C>(window, at, &leaf.edges, around, first);
    first.ask(
        leaf.place.at,
        FileKind::BadPlace,
        is_place(start, leaf.place.value, at),
    );
    first.ask(leaf.at, FileKind::BadBox, seen.in_box);
}

/// For a block that no leaf names.
const NO_BOX: Edges = Edges {
    left: 0,
    top: 0,
    right: 0,
    bottom: 0,
};

fn is_place(start: usize, place: u64, at: usize) -> bool
    ensures { result ≡ (start + place == at) }
{
    start <= at && (at - start) as u64 == place
}

/// Leaves without a block.
fn check_unnamed(leaves: &[LeafSeen], first: &mut FirstBreak)
    ensures { first.new ≡ earlier first.old (first_failing (map (λ leaf. fact leaf.place.at BadPlace false) leaves.now)) }
{
    let mut rest = leaves;
    while let Some(leaf) = rest.first() {
        first.ask(leaf.place.at, FileKind::BadPlace, false);
        rest = behind_first(rest);
    }
}
