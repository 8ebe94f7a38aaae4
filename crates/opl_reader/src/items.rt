//! The items of a list, and the texts in them.

ghost use Rattle.std.specs.Prelude.{◌≡◌, ◌==◌, ◌<◌, ◌∷◌, [], length, is_some, None, Some, IfErr, IfOk, IfSome, MatchOption};
ghost use Rattle.std.specs.List.{count_by, list_all, slice_split};
ghost use Rattle.text_pieces.specs.Escapes.{is_text_byte, text_of};
ghost use Rattle.live_model.specs.FieldValues.{is_few};
ghost use Rattle.opl_reader.specs.Lists.{OnBadList};

use crate::value_error::ValueError;
use crate::values::cut;
use live_model::OplKind;
use owned_data::Text;
use std::alloc::Global;
use text_pieces::{EscapeError, are_escapes, read_escaped};

/// A list or an item that is not of its form.
pub(crate) const BAD_LIST: ValueError = ValueError::Bad(OplKind::BadList);

/// A list with too many items.
pub(crate) const OVER_LIMIT: ValueError = ValueError::Bad(OplKind::OverLimit);

/// Whether a list has at most 65,535 items as they are written.
pub(crate) fn is_few(value: &[u8]) -> bool
    ensures { result ≡ is_few value.now }
{
    value.is_empty() || commas(value) < 65_535
}

fn commas(bytes: &[u8]) -> usize
    ensures { result ≡ count_by (λ b. b == 44) bytes.now }
{
    bytes.iter().filter(|b| **b == b',').count()
}

/// The first item and what stands behind its comma; none where the text is one item.
pub(crate) fn first_item(text: &str) -> Option<(&str, &str)>
    ensures items { MatchOption result (slice_split (λ b. b == 44) text.now ≡ text.now ∷ []) (λ parts. slice_split (λ b. b == 44) text.now ≡ parts.0.now ∷ slice_split (λ b. b == 44) parts.1.now) }
    ensures shorter { IfSome result (λ parts. length parts.1.now < length text.now) }
{
    text.split_once(',')
}

/// The same of bytes.
#[tactic(auto, using(crate::proofs::Cuts::split_whole, crate::proofs::Cuts::split_parted))]
pub(crate) fn first_item_of_bytes(bytes: &[u8]) -> Option<(&[u8], &[u8])>
    ensures items { MatchOption result (slice_split (λ b. b == 44) bytes.now ≡ bytes.now ∷ []) (λ parts. slice_split (λ b. b == 44) bytes.now ≡ parts.0.now ∷ slice_split (λ b. b == 44) parts.1.now) }
    ensures shorter { IfSome result (λ parts. length parts.1.now < length bytes.now) }
{
    cut(bytes, b',')
}

/// Whether the bytes are an escaped text.
#[tactic(auto, unfolding(text_pieces::specs::Escapes::text_of))]
pub(crate) fn is_text(bytes: &[u8]) -> bool
    ensures { result ≡ is_some (text_of bytes.now) }
{
    are_text_bytes(bytes) && are_escapes(bytes)
}

fn are_text_bytes(bytes: &[u8]) -> bool
    ensures { result ≡ list_all is_text_byte bytes.now }
{
    let mut rest = bytes;
    while let [c, after @ ..] = rest {
        if !is_text_byte(*c) {
            return false;
        }
        rest = after;
    }
    true
}

fn is_text_byte(c: u8) -> bool
    ensures { result ≡ is_text_byte c }
{
    !matches!(c, b' ' | b'\t' | b'\n' | b',' | b'=')
}

/// The text that an escaped text spells.
#[tactic(auto, using(crate::proofs::ItemSteps::no_text))]
pub(crate) fn text(alloc: Global, escaped: &str) -> Result<Text, ValueError>
    ensures text { IfOk result (λ text. text_of escaped.now ≡ Some text) }
    ensures bad { IfErr result (OnBadList (text_of escaped.now ≡ None)) }
{
    match read_escaped(alloc, escaped) {
        Ok(text) => Ok(text),
        Err(EscapeError::NoMemory) => Err(ValueError::NoMemory),
        Err(EscapeError::Bad) => Err(BAD_LIST),
        Err(EscapeError::NotPlain) => Err(BAD_LIST),
    }
}
