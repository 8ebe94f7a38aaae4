//! The messages of a map file.

ghost use Rattle.std.specs.Prelude.{◌≡◌};
ghost use Rattle.file_grammar.specs.Files.{version_of};
ghost use Rattle.file_grammar.specs.Tables.{group_size, version_number};

/// A class of records that stand in blocks under a tree of boxes.
#[derive(Clone, Copy, Debug, PartialEq, Eq)]
pub enum Boxed {
    Map,
    Poi,
    Road,
    Restriction,
}

/// The version of the form of a file: in the second an address has a language.
#[derive(Clone, Copy, Debug, PartialEq, Eq)]
pub enum Version {
    One,
    Two,
}

impl Version {
    /// 1 or 2.
    pub fn number(self) -> u64
        ensures { result ≡ version_number self }
    {
        match self {
            Version::One => 1,
            Version::Two => 2,
        }
    }

    /// The version in whose form a file is read: the second where its bytes begin with that version, else the first.
    pub fn of(bytes: &[u8]) -> Version
        ensures { result ≡ version_of bytes.now }
    {
        match bytes {
            [VERSION_KEY, 2, ..] => Version::Two,
            _ => Version::One,
        }
    }
}

/// The key of the version of a file.
const VERSION_KEY: u8 = 8;

/// A message of a map file, or of one of its parts.
#[derive(Clone, Copy, Debug, PartialEq, Eq)]
pub enum Part {
    /// The whole file.
    File(Version),
    /// The level and the stamps.
    Head,
    /// Records of one class: a tree, and the blocks that its leaves name.
    Boxes(Boxed),
    /// Nothing, or the node at the top.
    Tree,
    /// A node of a tree, and how many levels may come below it.
    Node(u8),
    /// Texts, and the records that use them.
    Block(Boxed),
    Texts,
    Record(Boxed),
    Marks,
    /// Groups of points of interest, one a category.
    Pois,
    /// A category, and its points of interest.
    Group,
    /// Addresses by their names, and houses.
    Addresses(Version),
    /// Addresses in the order of their keys: the first and last key of each block, then the blocks.
    Keyed(Version),
    /// The first and last key of a block, and the block's offset.
    KeyEntry,
    /// The addresses of a block.
    KeyedBlock(Version),
    Address(Version),
    /// Roads, and restrictions.
    Routing,
}

/// How many numbers of a list belong together.
#[derive(Clone, Copy, Debug, PartialEq, Eq)]
pub enum Group {
    Single,
    Pair,
    Triple,
}

impl Group {
    /// 1, 2 or 3.
    pub fn size(self) -> usize
        ensures { result ≡ group_size self }
    {
        match self {
            Group::Single => 1,
            Group::Pair => 2,
            Group::Triple => 3,
        }
    }
}

/// What a field holds.
#[derive(Clone, Copy, Debug, PartialEq, Eq)]
pub enum Content {
    Number,
    /// The number of this version of the format.
    Version(Version),
    Bytes,
    /// A list of numbers in whole groups.
    Numbers(Group),
    Message(Part),
}
