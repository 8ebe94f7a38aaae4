//! Texts with escapes, put behind the open text.

ghost use Rattle.std.specs.Prelude.{◌≡◌, ◌∷◌, [], length, IfOk, IfSome, MatchOption, OnOk, false};
ghost use Rattle.text_pieces.specs.Escapes.{is_hexadecimal};
ghost use Rattle.opl_rows.specs.Fronts.{is_end, is_plain, plain_of, behind_plain};
ghost use Rattle.opl_rows.specs.Runs.{begins, code_of, behind_code};
ghost use Rattle.opl_rows.specs.Held.{Grows, EscapeRead, TextRead, TagRead, TagsRead};

use crate::held::Tags;
use std::alloc::AllocError;
use text_pieces::character;

/// What stands behind plain bytes.
fn plain(bytes: &[u8]) -> &[u8]
    ensures { result.now ≡ behind_plain bytes.now }
{
    let mut rest = bytes;
    while let Some((c, after)) = rest.split_first() {
        if !is_plain(*c) {
            return rest;
        }
        rest = after;
    }
    rest
}

/// Whether a byte of a text stands for itself.
fn is_plain(c: u8) -> bool
    ensures { result ≡ is_plain c }
{
    !matches!(c, b' ' | b'\t' | b'\n' | b',' | b'=' | b'%')
}

/// What stands behind hexadecimal digits.
fn skip_code(bytes: &[u8]) -> &[u8]
    ensures { result.now ≡ behind_code bytes.now }
{
    let mut rest = bytes;
    while let Some((c, after)) = rest.split_first() {
        if !is_hexadecimal(*c) {
            return rest;
        }
        rest = after;
    }
    rest
}

/// Whether a byte is a hexadecimal digit.
fn is_hexadecimal(c: u8) -> bool
    ensures { result ≡ is_hexadecimal c }
{
    (c as char).to_digit(16).is_some()
}

/// Puts plain bytes behind the open text.
#[tactic(auto, using(crate::proofs::Runs::plain_taken))]
fn run<'a>(bytes: &'a [u8], tags: &mut Tags) -> Result<&'a [u8], AllocError>
    ensures rest { IfOk result (λ rest. rest.now ≡ behind_plain bytes.now) }
    ensures grows { OnOk result (Grows tags.old tags.new (plain_of bytes.now)) }
{
    let rest = plain(bytes);
    let n = bytes.len().saturating_sub(rest.len());
    tags.push(&bytes[..n])?;
    Ok(rest)
}

/// Puts the character of an escape behind the open text; its first percent sign is read.
fn escape<'a>(bytes: &'a [u8], tags: &mut Tags) -> Result<Option<&'a [u8]>, AllocError>
    ensures { IfOk result (λ r. IfSome r (λ rest. EscapeRead bytes.now rest.now tags.old tags.new)) }
{
    let after = skip_code(bytes);
    let Some(rest) = behind_byte(after, b'%') else {
        return Ok(None);
    };
    let n = bytes.len().saturating_sub(after.len());
    let Some(code) = character(&bytes[..n]) else {
        return Ok(None);
    };
    let Some(c) = char::from_u32(code) else {
        return Ok(None);
    };
    tags.push_char(c)?;
    Ok(Some(rest))
}

/// What stands behind a byte at the front.
pub(crate) fn behind_byte(bytes: &[u8], byte: u8) -> Option<&[u8]>
    ensures { MatchOption result (begins byte bytes.now ≡ false) (λ rest. bytes.now ≡ byte ∷ rest.now) }
{
    match bytes.split_first() {
        Some((c, rest)) if *c == byte => Some(rest),
        _ => None,
    }
}

/// Puts the text at the front behind the open text.
pub(crate) fn text<'a>(bytes: &'a [u8], tags: &mut Tags) -> Result<Option<&'a [u8]>, AllocError>
    ensures { IfOk result (λ r. IfSome r (λ rest. TextRead bytes.now rest.now tags.old tags.new)) }
{
    let mut rest = run(bytes, tags)?;
    while let Some(after) = behind_byte(rest, b'%') {
        let Some(behind) = escape(after, tags)? else {
            return Ok(None);
        };
        rest = run(behind, tags)?;
    }
    Ok(Some(rest))
}

/// Holds the tag at the front too.
pub(crate) fn tag<'a>(bytes: &'a [u8], tags: &mut Tags) -> Result<Option<&'a [u8]>, AllocError>
    requires { tags.old.last ≡ [] }
    ensures { IfOk result (λ r. IfSome r (λ rest. TagRead bytes.now rest.now tags.old tags.new)) }
{
    let Some(after) = text(bytes, tags)? else {
        return Ok(None);
    };
    let Some(front) = behind_byte(after, b'=') else {
        return Ok(None);
    };
    let key = tags.open_len();
    let Some(rest) = text(front, tags)? else {
        return Ok(None);
    };
    if key > tags.open_len() {
        return Ok(None);
    }
    tags.close(key)?;
    Ok(Some(rest))
}

/// The rest behind the tags that stand here, which are then held: in rising order, each key once.
pub fn read_tags<'a>(bytes: &'a [u8], tags: &mut Tags) -> Result<Option<&'a [u8]>, AllocError>
    requires tags { tags.old.tags ≡ [] }
    requires last { tags.old.last ≡ [] }
    ensures { IfOk result (λ r. IfSome r (λ rest. TagsRead bytes.now rest.now tags.new)) }
{
    if is_end(bytes) {
        return Ok(Some(bytes));
    }
    let Some(first) = tag(bytes, tags)? else {
        return Ok(None);
    };
    let mut rest = first;
    while let Some(more) = behind_byte(rest, b',') {
        let Some(behind) = tag(more, tags)? else {
            return Ok(None);
        };
        rest = behind;
    }
    if !is_end(rest) || tags.len() > 65_535 || !tags.rises() {
        return Ok(None);
    }
    Ok(Some(rest))
}

/// Whether a value ends here.
fn is_end(bytes: &[u8]) -> bool
    ensures { result ≡ is_end bytes.now }
{
    match bytes {
        [c, ..] => *c == b' ' || *c == b'\t',
        [] => true,
    }
}
