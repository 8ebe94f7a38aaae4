//! The store of a small town, with its index and a table of rules.

ghost use Rattle.std.specs.Prelude.{◌≡◌, ◌<◌};

use change_diff::{Change, base_records, overlay};
use entity_store::Store;
use live_model::{Line, Mem, ObjId, Rec, Steps};
use opl_reader::read_all;
use ref_index::RefIndex;
use std::alloc::Global;
use std::marker::Brand;
use std::sync::ledger::{Blank, Ledger};
use std::test::Fail;
use tag_rules::Rules;

/// A place, a cafe, streets, a house and a turn that is forbidden.
const TOWN: &str = "n1 Tplace=town,name=Aldorf x13.1 y52.4
n2 Tamenity=cafe,name=Bo x13.1001 y52.4001
n3 x13.1 y52.4002
n4 x13.101 y52.4002
n5 x13.102 y52.4002
n6 x13.1004 y52.4004
n7 x13.1006 y52.4004
n8 x13.1006 y52.4006
w20 Thighway=residential,name=Hof Nn3,n4,n5
w21 Tbuilding=yes,addr:street=Hof,addr:housenumber=3 Nn6,n7,n8,n6
w22 Thighway=primary Nn5,n99
r30 Ttype=restriction,restriction=no_left_turn Mw20@from,n5@via,w22@to
";

/// What is made of it.
const RULES: &str = "point amenity cafe 15 poi.cafe
point amenity * 16 map
point place town 8 place
line highway residential 14 map
line highway residential 14 road
area building * 15 map
";

/// A store with its index and a table of rules.
#[derive(Drop)]
pub struct Base {
    store: Store,
    index: RefIndex,
    rules: Rules,
}

/// The town.
pub fn town(alloc: Global) -> Result<Base, Fail> {
    let store = Store::from_lines(alloc, read_all(alloc, TOWN.as_bytes())?)?;
    let index = RefIndex::build(alloc, &store)?;
    let rules = Rules::read(alloc, RULES.as_bytes())?;
    Ok(Base {
        store,
        index,
        rules,
    })
}

impl Base {
    /// All records of the store.
    pub fn records(&self, alloc: Global) -> Mem<Vec<Rec>> {
        records_of::<Brand>(alloc, self, Blank::new(1))
    }

    /// What lines change.
    pub fn change(&mut self, alloc: Global, lines: &[Line]) -> Mem<Change> {
        change_of::<Brand>(alloc, self, lines, Blank::new(1))
    }
}

fn records_of<L: Ledger>(alloc: Global, base: &Base, blank: Blank) -> Mem<Vec<Rec>>
    requires name { blank.name ≡ L.name }
    requires parts { blank.parts ≡ L.parts }
    requires some { 0 < blank.parts }
{
    let mut steps = Steps::<L>::new(blank);
    base_records(alloc, &base.rules, &base.store, &mut steps)
}

fn change_of<L: Ledger>(alloc: Global, base: &mut Base, lines: &[Line], blank: Blank) -> Mem<Change>
    requires name { blank.name ≡ L.name }
    requires parts { blank.parts ≡ L.parts }
    requires some { 0 < blank.parts }
{
    let mut steps = Steps::<L>::new(blank);
    overlay(
        alloc,
        &base.rules,
        &mut base.store,
        &mut base.index,
        lines,
        &mut steps,
    )
}

/// Whether lines change the town so: these objects are marked, and these are their records.
pub fn changes(
    alloc: Global,
    text: &str,
    marks: &[i64],
    records: &[(char, i64)],
) -> Result<bool, Fail> {
    let mut base = town(alloc)?;
    let lines = read_all(alloc, text.as_bytes())?;
    let change = base.change(alloc, &lines)?;
    Ok(are_marks(&change.marks, marks) && are_records(&change.records, records))
}

/// Whether records are of these classes and objects.
pub fn are_records(records: &[Rec], wanted: &[(char, i64)]) -> bool {
    match (records, wanted) {
        ([], []) => true,
        ([record, records @ ..], [first, others @ ..]) => {
            letter(record) == first.0
                && record.id().number() == first.1
                && are_records(records, others)
        }
        _ => false,
    }
}

/// Whether objects have these numbers.
fn are_marks(marks: &[ObjId], wanted: &[i64]) -> bool {
    match (marks, wanted) {
        ([], []) => true,
        ([mark, marks @ ..], [first, others @ ..]) => {
            mark.number() == *first && are_marks(marks, others)
        }
        _ => false,
    }
}

/// A letter for the class of a record.
fn letter(record: &Rec) -> char {
    match record {
        Rec::Map(_) => 'm',
        Rec::Poi(_) => 'p',
        Rec::Addr(_) => 'a',
        Rec::Road(_) => 'r',
        Rec::Ban(_) => 'b',
    }
}
