//! A walk over the rows of a message: which field may come where, and what it holds.

ghost use Rattle.std.specs.Prelude.{◌≡◌, ◌≤◌, ◌==◌, ◌∷◌, ◌++◌, [], None, Some, MatchOption, find, take, true};
ghost use Rattle.std.specs.List.{list_all};
ghost use Rattle.std.specs.Option.{option_map};
ghost use Rattle.obf_wire.specs.Fields.{are_keys, has_wire_type};
ghost use Rattle.file_grammar.specs.Tables.{are_rows, content_of, ends_of, keys_of, left_at, may_end, next_in, next_keys, own, own_part, own_version, rows_behind};
ghost use Rattle.file_grammar.specs.StatedTables.{TablesLaw};
ghost use Rattle.file_grammar.specs.declared.rows.TheConstants.{LEAF, NODE};

use crate::parts::{Content, Part, Version};
use crate::rows::{LEAF, Row, table_of};

/// The keys of the fields that may come at a place of a message, of which there are at most two, and whether the message may
/// end there.
#[derive(Clone, Copy, Debug)]
pub(crate) struct Next {
    keys: [u64; 2],
    count: usize,
    pub(crate) may_end: bool,
}

impl Next {
    /// The keys.
    pub(crate) fn keys(&self) -> &[u64]
        requires { self.now.count ≤ 2 }
        ensures { result.now ≡ take self.now.count self.now.keys }
    {
        &self.keys[..self.count]
    }
}

/// No field may come.
fn none(may_end: bool) -> Next
    ensures keys { take result.count result.keys ≡ [] }
    ensures good { are_keys (take result.count result.keys) ≡ true }
    ensures few { result.count ≤ 2 }
    ensures end { result.may_end ≡ may_end }
{
    Next {
        keys: [0, 0],
        count: 0,
        may_end,
    }
}

/// One field may come.
fn one(key: u64, may_end: bool) -> Next
    requires { has_wire_type key ≡ true }
    ensures keys { take result.count result.keys ≡ key ∷ [] }
    ensures good { are_keys (take result.count result.keys) ≡ true }
    ensures few { result.count ≤ 2 }
    ensures end { result.may_end ≡ may_end }
{
    Next {
        keys: [key, 0],
        count: 1,
        may_end,
    }
}

/// One of two fields may come.
fn two(first: u64, second: u64, may_end: bool) -> Next
    requires first { has_wire_type first ≡ true }
    requires second { has_wire_type second ≡ true }
    ensures keys { take result.count result.keys ≡ first ∷ second ∷ [] }
    ensures good { are_keys (take result.count result.keys) ≡ true }
    ensures few { result.count ≤ 2 }
    ensures end { result.may_end ≡ may_end }
{
    Next {
        keys: [first, second],
        count: 2,
        may_end,
    }
}

/// What may come at the beginning of a message, or behind a field with this key. Behind a key that the message has not, nothing
/// may.
pub(crate) fn next_fields(part: Part, last: Option<u64>) -> Next
    ensures keys { take result.count result.keys ≡ next_keys part last }
    ensures good { are_keys (take result.count result.keys) ≡ true }
    ensures few { result.count ≤ 2 }
    ensures end { result.may_end ≡ may_end part last }
{
    match part {
        Part::Tree => next_in_tree(last),
        Part::Node(0) => next_behind(&LEAF, last),
        Part::Node(_) => next_in_node(last),
        _ => next_behind(table_of(part), last),
    }
}

/// The same in the rows of one table.
fn next_behind(rows: &[Row], last: Option<u64>) -> Next
    requires rows { are_rows rows.now ≡ true }
    ensures keys { take result.count result.keys ≡ keys_of (left_at last (rows.now ∷ [])) }
    ensures good { are_keys (take result.count result.keys) ≡ true }
    ensures few { result.count ≤ 2 }
    ensures end { result.may_end ≡ ends_of (left_at last (rows.now ∷ [])) }
{
    match last {
        None => next_in(rows),
        Some(key) => match rows_behind(rows, key) {
            None => none(false),
            Some(left) => next_in(left),
        },
    }
}

/// The rows that are left behind a field of this key.
fn rows_behind(rows: &[Row], key: u64) -> Option<&[Row]>
    ensures { MatchOption result (rows_behind key rows.now ≡ None) (λ left. rows_behind key rows.now ≡ Some left.now) }
{
    let mut rest = rows;
    while let [row, after @ ..] = rest {
        if row.key == key {
            return Some(if row.many { rest } else { after });
        }
        rest = after;
    }
    None
}

/// What may come where these rows are left.
fn next_in(rows: &[Row]) -> Next
    requires rows { are_rows rows.now ≡ true }
    ensures keys { take result.count result.keys ≡ next_in rows.now }
    ensures good { are_keys (take result.count result.keys) ≡ true }
    ensures few { result.count ≤ 2 }
    ensures end { result.may_end ≡ list_all (λ row. row.many) rows.now }
{
    let [row, after @ ..] = rows else {
        return none(true);
    };
    if !row.many {
        return one(row.key, false);
    }
    let [next, beyond @ ..] = after else {
        return one(row.key, true);
    };
    two(row.key, next.key, next.many && beyond.is_empty())
}

/// What may come in a tree: nothing, or the node at the top.
fn next_in_tree(last: Option<u64>) -> Next
    ensures keys { take result.count result.keys ≡ keys_of (left_at last ([] ∷ LEAF ∷ NODE ∷ [])) }
    ensures good { are_keys (take result.count result.keys) ≡ true }
    ensures few { result.count ≤ 2 }
    ensures end { result.may_end ≡ ends_of (left_at last ([] ∷ LEAF ∷ NODE ∷ [])) }
{
    match last {
        None => one(LEFT, true),
        Some(_) => next_in_node(last),
    }
}

/// The keys of a node: left, top, right, bottom, the offset of a block, and nodes below.
const LEFT: u64 = 8;

const TOP: u64 = 16;

const RIGHT: u64 = 24;

const BOTTOM: u64 = 32;

const PLACE: u64 = 40;

const BELOW: u64 = 54;

/// What may come in a leaf or a node with others below it.
fn next_in_node(last: Option<u64>) -> Next
    ensures keys { take result.count result.keys ≡ keys_of (left_at last (LEAF ∷ NODE ∷ [])) }
    ensures good { are_keys (take result.count result.keys) ≡ true }
    ensures few { result.count ≤ 2 }
    ensures end { result.may_end ≡ ends_of (left_at last (LEAF ∷ NODE ∷ [])) }
{
    match last {
        None => one(LEFT, false),
        Some(LEFT) => one(TOP, false),
        Some(TOP) => one(RIGHT, false),
        Some(RIGHT) => one(BOTTOM, false),
        Some(BOTTOM) => two(PLACE, BELOW, false),
        Some(PLACE) => none(true),
        Some(BELOW) => one(BELOW, true),
        Some(_) => none(false),
    }
}

/// What the field of a key holds. `None` exactly where the message has no field with this key.
pub(crate) fn content(part: Part, key: u64) -> Option<Content>
    ensures { result ≡ content_of part key }
{
    match part {
        Part::Tree => own_content(part, node_content(key)),
        Part::Node(0) => own_content(part, content_in(&LEAF, key)),
        Part::Node(_) => own_content(part, node_content(key)),
        _ => own_content(part, content_in(table_of(part), key)),
    }
}

/// The same in the rows of one table.
fn content_in(rows: &[Row], key: u64) -> Option<Content>
    ensures { result ≡ option_map (λ row. row.content) (find (λ row. row.key == key) rows.now) }
{
    let mut rest = rows;
    while let [row, after @ ..] = rest {
        if row.key == key {
            return Some(row.content);
        }
        rest = after;
    }
    None
}

/// The same in a leaf or a node with others below it.
fn node_content(key: u64) -> Option<Content>
    ensures { result ≡ option_map (λ row. row.content) (find (λ row. row.key == key) (LEAF ++ NODE)) }
{
    if key == BELOW {
        Some(Content::Message(Part::Node(0)))
    } else {
        content_in(&LEAF, key)
    }
}

/// What a row holds in a message of this part.
fn own_content(part: Part, content: Option<Content>) -> Option<Content>
    ensures { result ≡ option_map (own part) content }
{
    match content {
        Some(Content::Version(version)) => Some(Content::Version(own_version(part, version))),
        Some(Content::Message(inner)) => Some(Content::Message(own_part(part, inner))),
        _ => content,
    }
}

/// The version that a row names, or that of the file that has the row.
fn own_version(part: Part, version: Version) -> Version
    ensures { result ≡ own_version part version }
{
    match part {
        Part::File(own) => own,
        _ => version,
    }
}

/// The part that a row names, with the class, the version or the level of the message that has the row.
fn own_part(part: Part, inner: Part) -> Part
    ensures { result ≡ own_part part inner }
{
    match (part, inner) {
        (Part::File(version), Part::Addresses(_)) => Part::Addresses(version),
        (Part::Boxes(class), Part::Block(_)) => Part::Block(class),
        (Part::Block(class), Part::Record(_)) => Part::Record(class),
        (Part::Tree, Part::Node(_)) => Part::Node(22),
        (Part::Node(levels), Part::Node(_)) if levels > 0 => Part::Node(levels - 1),
        (Part::Addresses(version), Part::Keyed(_)) => Part::Keyed(version),
        (Part::Keyed(version), Part::KeyedBlock(_)) => Part::KeyedBlock(version),
        (Part::KeyedBlock(version), Part::Address(_)) => Part::Address(version),
        _ => inner,
    }
}

/// That the tables are those that the format states.
pub fn tables_are_stated()
    ensures { TablesLaw }
{}
