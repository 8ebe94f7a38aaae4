//! The lines of a text and the fields of a line, cut one by one from the front.

ghost use Rattle.std.specs.Prelude.{◌≡◌, ◌≤◌, ◌<◌, ◌+◌, ◌==◌, ◌^◌, [], ◌∷◌, length, drop, MatchOption, IfSome, ℕ};
ghost use Rattle.std.specs.List.{position_or_len, list_all};
ghost use Rattle.std.specs.Str.Lines.{strip_carriage_return};
ghost use Rattle.text_pieces.specs.Lines.{is_blank, lines_from, fields_from};

use crate::find::{behind, place_of};

/// A line of a text without its end, and what follows it.
#[derive(Clone, Copy)]
pub struct TextLine<'a> {
    /// The place of the line's first byte in the text.
    pub at: usize,
    /// The line's bytes, without its line feed and the carriage return directly before its end.
    pub bytes: &'a [u8],
    /// The place in the text at which `rest` begins.
    pub next: usize,
    /// The bytes behind the line's end.
    pub rest: &'a [u8],
}

/// A field of a line, and what follows it.
#[derive(Clone, Copy)]
pub struct Field<'a> {
    /// The place of the field's first byte in the text.
    pub at: usize,
    /// The field's bytes: none is a blank, and there is at least one.
    pub bytes: &'a [u8],
    /// The place in the text at which `rest` begins.
    pub next: usize,
    /// The bytes of the line behind the field.
    pub rest: &'a [u8],
}

/// Whether a byte is a space or a tab.
pub fn is_blank(c: u8) -> bool
    ensures { result ≡ is_blank c }
{
    c == b' ' || c == b'\t'
}

/// Whether no byte is anything but a blank.
pub fn all_blank(bytes: &[u8]) -> bool
    ensures { result ≡ list_all is_blank bytes.now }
{
    let mut rest = bytes;
    while let [c, after @ ..] = rest {
        if !is_blank(*c) {
            return false;
        }
        rest = after;
    }
    true
}

/// The first line of bytes that begin at the place `at` of a text. There is none exactly where there
/// are no bytes.
#[tactic(auto, using(crate::proofs::LineSteps::lines_first, crate::proofs::LineSteps::lines_last, crate::proofs::LineSteps::lines_none))]
pub fn next_line(at: usize, bytes: &[u8]) -> Option<TextLine<'_>>
    requires { at + length bytes.now < 2 ^ 63 }
    ensures none { MatchOption result (bytes.now ≡ []) (λ l. 0 < length bytes.now) }
    ensures lines { MatchOption result (lines_from at bytes.now ≡ []) (λ l. lines_from at bytes.now ≡ (l.at, l.bytes.now) ∷ lines_from l.next l.rest.now) }
    ensures within { IfSome result (λ l. l.at + length l.bytes.now ≤ at + length bytes.now) }
    ensures rest { IfSome result (λ l. l.next + length l.rest.now ≤ at + length bytes.now) }
    ensures shorter { IfSome result (λ l. length l.rest.now < length bytes.now) }
{
    if bytes.is_empty() {
        return None;
    }
    let i = place_of(b'\n', bytes);
    if i < bytes.len() {
        Some(TextLine {
            at,
            bytes: without_return(&bytes[..i]),
            next: at + (i + 1),
            rest: behind(bytes, i),
        })
    } else {
        Some(TextLine {
            at,
            bytes: without_return(bytes),
            next: at + i,
            rest: &[],
        })
    }
}

/// The first field of bytes of a line that begin at the place `at` of a text. There is none exactly
/// where no byte is anything but a blank.
#[tactic(auto, using(crate::proofs::FieldSteps::fields_blank, crate::proofs::FieldSteps::fields_first, crate::proofs::FieldSteps::fields_last, crate::proofs::FieldSteps::fields_none))]
pub fn next_field(at: usize, bytes: &[u8]) -> Option<Field<'_>>
    requires { at + length bytes.now < 2 ^ 63 }
    ensures fields { MatchOption result (fields_from at bytes.now ≡ []) (λ f. fields_from at bytes.now ≡ (f.at, f.bytes.now) ∷ fields_from f.next f.rest.now) }
    ensures some { IfSome result (λ f. 0 < length f.bytes.now) }
    ensures within { IfSome result (λ f. f.at + length f.bytes.now ≤ at + length bytes.now) }
    ensures rest { IfSome result (λ f. f.next + length f.rest.now ≤ at + length bytes.now) }
    ensures shorter { IfSome result (λ f. length f.rest.now < length bytes.now) }
{
    let mut at = at;
    let mut rest = bytes;
    while !rest.is_empty() {
        let i = blank_in(rest);
        if i == 0 {
            rest = behind(rest, 0);
            at += 1;
        } else if i < rest.len() {
            return Some(Field {
                at,
                bytes: &rest[..i],
                next: at + (i + 1),
                rest: behind(rest, i),
            });
        } else {
            return Some(Field {
                at,
                bytes: rest,
                next: at + i,
                rest: &[],
            });
        }
    }
    None
}

// The place of the first blank, or the length where there is none.
#[tactic(auto, using(std::proofs::lemmas::List::Sums::position_or_len_is))]
fn blank_in(bytes: &[u8]) -> usize
    ensures place { result ≡ position_or_len is_blank bytes.now }
    ensures within { result ≤ length bytes.now }
{
    for (i, c) in bytes.iter().enumerate() {
        if is_blank(*c) {
            return i;
        }
    }
    bytes.len()
}

// A line without the one carriage return at its end.
fn without_return(line: &[u8]) -> &[u8]
    ensures value { result.now ≡ strip_carriage_return line.now }
    ensures within { length result.now ≤ length line.now }
{
    if line.is_empty() {
        return line;
    }
    let last = line.len() - 1;
    if line[last] == b'\r' {
        &line[..last]
    } else {
        line
    }
}
