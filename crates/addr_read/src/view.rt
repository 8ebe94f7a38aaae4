//! An address where it stands.

ghost use Rattle.std.specs.Prelude.{◌≡◌, IfOk, IsUtf8, Ok, Some, slice_range, ℕ};
ghost use Rattle.obf_wire.specs.Windows.{range_of};
ghost use Rattle.name_fold.specs.Keys.{key};
ghost use Rattle.file_grammar.specs.declared.parts.Part.TheVariants.{Address as AddressPart};
ghost use Rattle.file_grammar.specs.AddressRules.{Address, address_record_of, address_with, kind_from};
ghost use Rattle.file_grammar.specs.Messages.{Fields};
ghost use Rattle.file_grammar.specs.Readings.{message_at};
ghost use Rattle.addr_read.specs.Finding.{is_wanted};
ghost use Rattle.addr_read.specs.Sound.{AreInside, HoldsAddress, IsInside, IsSoundAt, IsSoundRead};

use crate::fields::{AddressFields, read_fields};
use boxed_exact::Payload;
use boxed_read::{object, one_point};
use file_grammar::Version;
use live_model::{AddrKind, AddrRec, ObjId, Point};
use name_fold::is_prefix;
use obf_wire::Window;
use owned_data::{Mem, Text};
use std::alloc::Global;
use std::marker::Model;
use std::str::from_utf8;

/// The numbers of the kinds; all others are houses.
const PLACE: u64 = 0;

const STREET: u64 = 1;

/// An address of a section, seen as the record; it borrows the bytes. The file has the key of its name beside it.
#[derive(Drop)]
pub struct View<'a> {
    id: ObjId,
    kind: AddrKind,
    key: &'a str,
    lang: &'a str,
    name: &'a str,
    number: &'a str,
    point: Point,
}

impl<'a> Model for View<'a> {
    ghost use Rattle.addr_read.specs.Finding.{IsKeyOf};
    ghost use Rattle.live_model.specs.declared.addresses.AddrRec.{AddrRec};

    ghost Value = { AddrRec };

    ghost view = { λ v. record { id = v.id; kind = v.kind; lang = v.lang.now; name = v.name.now; number = v.number.now; point = v.point } };

    ghost invariant = { λ v. IsKeyOf v.key.now v.name.now };
}

impl<'a> View<'a> {
    /// The address in a window, of which every rule holds.
    pub(crate) fn at(version: Version, window: Window<'a>) -> View<'a>
        requires { IsSoundAt version (range_of window) }
        ensures { (fields : Fields) (at : ℕ) (a : Address) → message_at (AddressPart version) (range_of window.entry) ≡ Ok fields → address_with at fields ≡ Some a → result ≡ address_record_of a }
    {
        View::of(window, read_fields(version, window))
    }

    /// The address whose fields stand so.
    fn of(window: Window<'a>, fields: AddressFields) -> View<'a>
        requires inside { AreInside window.bytes.now fields }
        requires sound { IsSoundRead window.bytes.now fields }
        ensures { (a : Address) → HoldsAddress window.entry.bytes.now fields a → result ≡ address_record_of a }
    {
        let steps = window.part(fields.points.from, fields.points.to);
        View {
            id: object(fields.ordinal),
            kind: kind_of(fields.kind),
            key: text_at(window, fields.key),
            lang: text_at(window, fields.lang),
            name: text_at(window, fields.name),
            number: text_at(window, fields.number),
            point: one_point(steps),
        }
    }

    /// Whose address it is.
    pub fn id(&self) -> ObjId
        ensures { result ≡ self.now.id }
    {
        self.id
    }

    /// The key of its name, as the file has it. It takes no memory.
    pub fn key(&self) -> &'a str
        ensures { result.now ≡ key self.now.name }
    {
        self.key
    }

    /// Whether it is a house of the street with this key, or else a place or a street whose key begins with it.
    pub(crate) fn is_wanted(&self, houses: bool, key: &str) -> bool
        ensures { result ≡ is_wanted houses key.now self.now }
    {
        if houses {
            return self.kind == AddrKind::House && self.key == key;
        }
        self.kind != AddrKind::House && is_prefix(key, self.key)
    }

    /// The address.
    pub fn copy(&self, alloc: Global) -> Mem<AddrRec>
        ensures { IfOk result (λ item. item ≡ self.now) }
    {
        let lang = Text::copied(alloc, self.lang)?;
        let name = Text::copied(alloc, self.name)?;
        let number = Text::copied(alloc, self.number)?;
        Ok(AddrRec {
            id: self.id,
            kind: self.kind,
            lang,
            name,
            number,
            point: self.point,
        })
    }
}

/// The kind of a number.
fn kind_of(kind: u64) -> AddrKind
    ensures { result ≡ kind_from kind }
{
    if kind == PLACE {
        return AddrKind::Place;
    }
    if kind == STREET {
        return AddrKind::Street;
    }
    AddrKind::House
}

/// The text of a payload.
fn text_at<'a>(window: Window<'a>, span: Payload) -> &'a str
    requires inside { IsInside window.bytes.now span }
    requires utf8 { IsUtf8 (slice_range window.bytes.now span.from span.to) }
    ensures { result.now ≡ slice_range window.entry.bytes.now span.from span.to }
{
    from_utf8(&window.all()[span.from..span.to]).unwrap()
}
