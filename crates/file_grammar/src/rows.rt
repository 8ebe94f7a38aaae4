//! The messages as tables of rows.
//!
//! A row that holds a message of the class, of the version or of the level of its own message names the first of them: map
//! records, version one, no level.

ghost use Rattle.std.specs.Prelude.{◌≡◌, ◌∷◌, []};
ghost use Rattle.file_grammar.specs.Tables.{IsOneTable, tables};

use crate::parts::{Boxed, Content, Group, Part, Version};

/// A field of a message: its key, what it holds, and whether it may come any number of times.
#[derive(Clone, Copy, Debug)]
pub struct Row {
    pub key: u64,
    pub content: Content,
    pub many: bool,
}

/// A number under 1, and so on.
const NUMBER_1: Row = Row {
    key: 8,
    content: Content::Number,
    many: false,
};

/// A number under 2.
const NUMBER_2: Row = Row {
    key: 16,
    content: Content::Number,
    many: false,
};

/// A number under 3.
const NUMBER_3: Row = Row {
    key: 24,
    content: Content::Number,
    many: false,
};

/// A number under 4.
const NUMBER_4: Row = Row {
    key: 32,
    content: Content::Number,
    many: false,
};

/// A number under 5.
const NUMBER_5: Row = Row {
    key: 40,
    content: Content::Number,
    many: false,
};

/// A text under 1, and so on.
const TEXT_1: Row = Row {
    key: 10,
    content: Content::Bytes,
    many: false,
};

/// A text under 2.
const TEXT_2: Row = Row {
    key: 18,
    content: Content::Bytes,
    many: false,
};

/// A text under 3.
const TEXT_3: Row = Row {
    key: 26,
    content: Content::Bytes,
    many: false,
};

/// A text under 4.
const TEXT_4: Row = Row {
    key: 34,
    content: Content::Bytes,
    many: false,
};

/// A text under 5.
const TEXT_5: Row = Row {
    key: 42,
    content: Content::Bytes,
    many: false,
};

/// A text under 7.
const TEXT_7: Row = Row {
    key: 58,
    content: Content::Bytes,
    many: false,
};

/// Pairs of numbers under 3.
const PAIRS_3: Row = Row {
    key: 26,
    content: Content::Numbers(Group::Pair),
    many: false,
};

/// Pairs of numbers under 5.
const PAIRS_5: Row = Row {
    key: 42,
    content: Content::Numbers(Group::Pair),
    many: false,
};

/// Pairs of numbers under 6.
const PAIRS_6: Row = Row {
    key: 50,
    content: Content::Numbers(Group::Pair),
    many: false,
};

/// The whole file.
pub static FILE: [Row; 9] = [
    Row {
        key: 8,
        content: Content::Version(Version::One),
        many: false,
    },
    Row {
        key: 18,
        content: Content::Message(Part::Head),
        many: false,
    },
    TEXT_3,
    Row {
        key: 54,
        content: Content::Message(Part::Boxes(Boxed::Map)),
        many: false,
    },
    Row {
        key: 62,
        content: Content::Message(Part::Addresses(Version::One)),
        many: false,
    },
    Row {
        key: 70,
        content: Content::Message(Part::Pois),
        many: false,
    },
    Row {
        key: 78,
        content: Content::Message(Part::Routing),
        many: false,
    },
    Row {
        key: 134,
        content: Content::Message(Part::Marks),
        many: false,
    },
    Row {
        key: 256,
        content: Content::Number,
        many: false,
    },
];

/// The level, and the first and last hour.
pub static HEAD: [Row; 3] = [NUMBER_1, NUMBER_2, NUMBER_3];

/// A tree, and any number of blocks.
pub static BOXES: [Row; 2] = [
    Row {
        key: 14,
        content: Content::Message(Part::Tree),
        many: false,
    },
    Row {
        key: 22,
        content: Content::Message(Part::Block(Boxed::Map)),
        many: true,
    },
];

/// Left, top, right and bottom, and the offset of a block.
pub static LEAF: [Row; 5] = [NUMBER_1, NUMBER_2, NUMBER_3, NUMBER_4, NUMBER_5];

/// Left, top, right and bottom, and one or more nodes.
pub static NODE: [Row; 6] = [
    NUMBER_1,
    NUMBER_2,
    NUMBER_3,
    NUMBER_4,
    Row {
        key: 54,
        content: Content::Message(Part::Node(0)),
        many: false,
    },
    Row {
        key: 54,
        content: Content::Message(Part::Node(0)),
        many: true,
    },
];

/// Texts, and any number of records.
pub static BLOCK: [Row; 2] = [
    Row {
        key: 14,
        content: Content::Message(Part::Texts),
        many: false,
    },
    Row {
        key: 18,
        content: Content::Message(Part::Record(Boxed::Map)),
        many: true,
    },
];

/// Any number of texts.
pub static TEXTS: [Row; 1] = [Row {
    key: 10,
    content: Content::Bytes,
    many: true,
}];

/// A map record.
pub static MAP_RECORD: [Row; 5] = [NUMBER_1, NUMBER_2, NUMBER_3, NUMBER_4, PAIRS_5];

/// A point of interest.
pub static POI_RECORD: [Row; 3] = [NUMBER_1, NUMBER_2, PAIRS_3];

/// A road.
pub static ROAD_RECORD: [Row; 5] = [
    NUMBER_1,
    NUMBER_2,
    NUMBER_3,
    NUMBER_4,
    Row {
        key: 42,
        content: Content::Numbers(Group::Triple),
        many: false,
    },
];

/// A restriction.
pub static RESTRICTION_RECORD: [Row; 6] = [
    NUMBER_1, NUMBER_2, NUMBER_3, NUMBER_4, NUMBER_5, PAIRS_6,
];

/// A list of numbers.
pub static MARKS: [Row; 1] = [Row {
    key: 10,
    content: Content::Numbers(Group::Single),
    many: false,
}];

/// Any number of groups.
pub static POIS: [Row; 1] = [Row {
    key: 14,
    content: Content::Message(Part::Group),
    many: true,
}];

/// A category, and its points of interest.
pub static GROUP: [Row; 2] = [
    TEXT_1,
    Row {
        key: 22,
        content: Content::Message(Part::Boxes(Boxed::Poi)),
        many: false,
    },
];

/// Names, and houses.
pub static ADDRESSES: [Row; 2] = [
    Row {
        key: 14,
        content: Content::Message(Part::Keyed(Version::One)),
        many: false,
    },
    Row {
        key: 22,
        content: Content::Message(Part::Keyed(Version::One)),
        many: false,
    },
];

/// Any number of entries, then any number of blocks.
pub static KEYED: [Row; 2] = [
    Row {
        key: 10,
        content: Content::Message(Part::KeyEntry),
        many: true,
    },
    Row {
        key: 22,
        content: Content::Message(Part::KeyedBlock(Version::One)),
        many: true,
    },
];

/// The first and last key of a block, and its offset.
pub static KEY_ENTRY: [Row; 3] = [TEXT_1, TEXT_2, NUMBER_3];

/// Any number of addresses.
pub static KEYED_BLOCK: [Row; 1] = [Row {
    key: 10,
    content: Content::Message(Part::Address(Version::One)),
    many: true,
}];

/// Ordinal, kind, key, name, number and points.
pub static ADDRESS: [Row; 6] = [NUMBER_1, NUMBER_2, TEXT_3, TEXT_4, TEXT_5, PAIRS_6];

/// The same, and a language.
pub static ADDRESS_TWO: [Row; 7] = [NUMBER_1, NUMBER_2, TEXT_3, TEXT_4, TEXT_5, PAIRS_6, TEXT_7];

/// Roads, and restrictions.
pub static ROUTING: [Row; 2] = [
    Row {
        key: 14,
        content: Content::Message(Part::Boxes(Boxed::Road)),
        many: false,
    },
    Row {
        key: 22,
        content: Content::Message(Part::Boxes(Boxed::Restriction)),
        many: false,
    },
];

/// The rows of a message of one table; of a node those of a leaf.
pub(crate) fn table_of(part: Part) -> &'static [Row]
    ensures { IsOneTable part → tables part ≡ result.now ∷ [] }
{
    match part {
        Part::File(_) => &FILE,
        Part::Head => &HEAD,
        Part::Boxes(_) => &BOXES,
        Part::Tree => &LEAF,
        Part::Node(_) => &LEAF,
        Part::Block(_) => &BLOCK,
        Part::Texts => &TEXTS,
        Part::Record(Boxed::Map) => &MAP_RECORD,
        Part::Record(Boxed::Poi) => &POI_RECORD,
        Part::Record(Boxed::Road) => &ROAD_RECORD,
        Part::Record(Boxed::Restriction) => &RESTRICTION_RECORD,
        Part::Marks => &MARKS,
        Part::Pois => &POIS,
        Part::Group => &GROUP,
        Part::Addresses(_) => &ADDRESSES,
        Part::Keyed(_) => &KEYED,
        Part::KeyEntry => &KEY_ENTRY,
        Part::KeyedBlock(_) => &KEYED_BLOCK,
        Part::Address(Version::One) => &ADDRESS,
        Part::Address(Version::Two) => &ADDRESS_TWO,
        Part::Routing => &ROUTING,
    }
}
