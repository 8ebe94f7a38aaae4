//! Rows: what stands on an object line, read in one pass.

ghost use Rattle.std.specs.Prelude.{ℕ, false, ◌≡◌, ◌<◌, [], Some, length, IfOk, IfSome, IsTrue, OnOk};
ghost use Rattle.std.specs.Bool.{OnTrue};
ghost use Rattle.std.specs.Str.{is_utf8};
ghost use Rattle.text_pieces.specs.Numbers.{id_of};
ghost use Rattle.text_pieces.specs.Lines.{fields_from};
ghost use Rattle.live_model.specs.ObjectLines.{line_of};
ghost use Rattle.live_model.specs.FieldValues.{kind_of};
ghost use Rattle.opl_reader.specs.Readings.{AreTexts};
ghost use Rattle.opl_reader.specs.FoundFields.{has, found_in, line_of_found};
ghost use Rattle.opl_rows.specs.Fronts.{front, back, is_end};
ghost use Rattle.opl_rows.specs.Rows.{found_of, FieldRead, AreRead};

use crate::held::Tags;
use crate::numbers::{id, is_end};
use crate::values::{letter, value};
use live_model::{Kind, Letter, Member, ObjId};
use std::alloc::{AllocError, Global};
use std::str::from_utf8;
use text_pieces::is_blank;

/// The object of a line, and what stands behind its id.
#[derive(Clone, Copy)]
struct Head<'a> {
    object: ObjId,
    rest: &'a [u8],
}

/// The values of a line, each from the field of its letter. A row is used again for the next line, and keeps its room.
#[derive(Drop)]
pub struct Row {
    /// The version, 0 to 4,294,967,295, if there is one.
    pub version: Option<u32>,
    /// Whether the object is gone, if a field says so.
    pub gone: Option<bool>,
    /// Whether there is a changeset.
    pub change: bool,
    /// Whether there is a time.
    pub time: bool,
    /// Whether there is a user's number.
    pub user_id: bool,
    /// Whether there is a user's name.
    pub user_name: bool,
    /// Whether there is a field of tags: else `tags` is what an earlier line left.
    pub has_tags: bool,
    /// The tags, rising by the bytes of their keys.
    pub tags: Tags,
    // Texts that are read and not kept: users' names and roles.
    pub(crate) scratch: Tags,
    pub(crate) alloc: Global,
    /// Whether there is a field of references: else `refs` is what an earlier line left.
    pub has_refs: bool,
    /// The numbers of the nodes of a way, in order.
    pub refs: Vec<i64>,
    /// Whether there is a field of members: else `members` is what an earlier line left.
    pub has_members: bool,
    /// The members of a relation, in order.
    pub members: Vec<Member>,
    /// The longitude in units of 10^-7 degrees, of magnitude at most 1,800,000,000; `Some(None)` where the field is empty.
    pub lon: Option<Option<i64>>,
    /// The latitude in units of 10^-7 degrees, of magnitude at most 900,000,000; `Some(None)` where the field is empty.
    pub lat: Option<Option<i64>>,
}

impl Row {
    /// A row without values. It takes no memory.
    pub fn new(alloc: Global) -> Row
        ensures { found_of result ≡ found_in [] }
    {
        Row {
            version: None,
            gone: None,
            change: false,
            time: false,
            user_id: false,
            user_name: false,
            has_tags: false,
            tags: Tags::new(alloc),
            scratch: Tags::new(alloc),
            alloc,
            has_refs: false,
            refs: Vec::new(alloc),
            has_members: false,
            members: Vec::new(alloc),
            lon: None,
            lat: None,
        }
    }

    /// No values any more. The room for texts and lists stays.
    pub fn clear(&mut self)
        ensures { found_of self.new ≡ found_in [] }
    {
        self.version = None;
        self.gone = None;
        self.change = false;
        self.time = false;
        self.user_id = false;
        self.user_name = false;
        self.has_tags = false;
        self.has_refs = false;
        self.has_members = false;
        self.lon = None;
        self.lat = None;
    }

    /// Whether a field of this letter was found.
    fn has(&self, letter: Letter) -> bool
        ensures { result ≡ has letter (found_of self.now) }
    {
        match letter {
            Letter::Version => self.version.is_some(),
            Letter::State => self.gone.is_some(),
            Letter::Change => self.change,
            Letter::Time => self.time,
            Letter::UserId => self.user_id,
            Letter::UserName => self.user_name,
            Letter::Tags => self.has_tags,
            Letter::Lon => self.lon.is_some(),
            Letter::Lat => self.lat.is_some(),
            Letter::Refs => self.has_refs,
            Letter::Members => self.has_members,
        }
    }
}

/// The object of a line whose values the row then holds; nothing of an earlier line stays. Where it answers nothing, the line
/// may spell an object all the same, or break: the exact reader tells. An error says that memory was refused. After either the
/// row holds no line, and can be used for the next one.
pub fn read_row(bytes: &[u8], row: &mut Row) -> Result<Option<ObjId>, AllocError>
    ensures { IfOk result (λ r. IfSome r (λ o. line_of bytes.now ≡ Some (line_of_found o (found_of row.new)))) }
{
    if !is_text(bytes) {
        return Ok(None);
    }
    row.clear();
    let Some((first, front)) = bytes.split_first() else {
        return Ok(None);
    };
    let Some(kind) = kind(*first) else {
        return Ok(None);
    };
    let Some(head) = begin(kind, front) else {
        return Ok(None);
    };
    let read = fields(kind, head.rest, row)?;
    if read {
        Ok(Some(head.object))
    } else {
        Ok(None)
    }
}

/// The object of a kind whose number stands here, and what stands behind it.
fn begin(kind: Kind, bytes: &[u8]) -> Option<Head<'_>>
    ensures kind { IfSome result (λ r. r.object.kind ≡ kind) }
    ensures number { IfSome result (λ r. id_of (front bytes.now) ≡ Some r.object.number) }
    ensures rest { IfSome result (λ r. r.rest.now ≡ back bytes.now) }
{
    let Some(number) = id(bytes) else {
        return None;
    };
    let Some(object) = ObjId::new(kind, number.value) else {
        return None;
    };
    Some(Head {
        object,
        rest: number.rest,
    })
}

/// Whether bytes are UTF-8.
#[tactic(auto, using(opl_reader::proofs::Texts::seen_text, opl_reader::proofs::Texts::seen_other))]
fn is_text(bytes: &[u8]) -> bool
    ensures { result ≡ is_utf8 bytes.now }
{
    match from_utf8(bytes) {
        Ok(_) => true,
        Err(_) => false,
    }
}

/// Whether the fields from here on are good ones of this kind, whose values the row then holds.
fn fields(kind: Kind, bytes: &[u8], row: &mut Row) -> Result<bool, AllocError>
    requires { found_of row.old ≡ found_in [] }
    ensures { IfOk result (λ r. OnTrue r ((at : ℕ) → AreTexts (fields_from at bytes.now) → AreRead kind (fields_from at bytes.now) (found_of row.new))) }
{
    let mut rest = bytes;
    while let Some((blank, more)) = rest.split_first() {
        if !is_blank(*blank) {
            return Ok(false);
        }
        if is_end(more) {
            rest = more;
        } else {
            let Some(behind) = field(kind, more, row)? else {
                return Ok(false);
            };
            rest = behind;
        }
    }
    Ok(true)
}

/// The rest behind a field, whose value the row then holds too.

#[tactic(auto, using(crate::proofs::Fields::field_is))]
fn field<'a>(kind: Kind, bytes: &'a [u8], row: &mut Row) -> Result<Option<&'a [u8]>, AllocError>
    requires { is_end bytes.now ≡ false }
    ensures { IfOk result (λ r. IfSome r (λ rest. FieldRead kind bytes.now rest.now (found_of row.old) (found_of row.new))) }
{
    let Some((first, front)) = bytes.split_first() else {
        return Ok(None);
    };
    let Some(letter) = letter(kind, *first) else {
        return Ok(None);
    };
    if row.has(letter) {
        return Ok(None);
    }
    let Some(rest) = value(letter, front, row)? else {
        return Ok(None);
    };
    Ok(Some(rest))
}

/// The kind of a letter.
pub(crate) fn kind(byte: u8) -> Option<Kind>
    ensures { result ≡ kind_of byte }
{
    match byte {
        b'n' => Some(Kind::Node),
        b'w' => Some(Kind::Way),
        b'r' => Some(Kind::Relation),
        _ => None,
    }
}
