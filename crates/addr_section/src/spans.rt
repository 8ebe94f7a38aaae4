//! Where texts and messages stand among bytes.

ghost use Rattle.std.specs.Prelude.{◌≡◌, slice_range};
ghost use Rattle.obf_wire.specs.Fields.{IsWindow, part_of};
ghost use Rattle.obf_wire.specs.Windows.{range_of};

use boxed_exact::Payload;
use obf_wire::{Field, Window};

/// The part of bytes in which a payload stands; an empty one where it does not stand among them.
pub(crate) fn window_at(bytes: &[u8], span: Payload) -> Window<'_>
    ensures bytes { result.bytes.now ≡ bytes.now }
    ensures range { IsWindow (part_of bytes.now span.from span.to) → range_of result ≡ part_of bytes.now span.from span.to }
{
    if span.from <= span.to && span.to <= bytes.len() {
        return Window::new(bytes, span.from, span.to);
    }
    Window::new(bytes, 0, 0)
}

/// The text of a payload; an empty one where it does not stand among the bytes.
pub(crate) fn text_at(bytes: &[u8], span: Payload) -> &[u8]
    ensures { IsWindow (part_of bytes.now span.from span.to) → result.now ≡ slice_range bytes.now span.from span.to }
{
    window_at(bytes, span).bytes()
}

/// Where the payload of a field stands.
pub(crate) fn span_of(field: Field) -> Payload
    ensures { result ≡ record { at = field.at; from = field.from; to = field.to } }
{
    Payload {
        at: field.at,
        from: field.from,
        to: field.to,
    }
}
