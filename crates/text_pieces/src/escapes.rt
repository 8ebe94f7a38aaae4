//! Texts in which a character may stand as its code between percent signs, read.

ghost use Rattle.std.specs.Prelude.{◌≡◌, ◌≤◌, ◌<◌, ◌↔◌, ◌==◌, None, Some, length, IsTrue, IsSome, IfOk, IsErrOf, MatchOption, IfSome, is_some, string_bytes};
ghost use Rattle.std.specs.Char.{digit_value};
ghost use Rattle.std.specs.List.{position_or_len, before_first, after_first, list_all};
ghost use Rattle.text_pieces.specs.Escapes.{is_hexadecimal, hexadecimal_after, are_hexadecimals, character_of, unescaped, is_text_byte, text_of};

use crate::find::{behind, place_of};
use owned_data::{Mem, Text};
use std::alloc::Global;

/// Why an escaped text could not be read.
#[derive(Clone, Copy, Debug, PartialEq, Eq)]
pub enum EscapeError {
    /// Memory was refused; the text is an escaped text.
    NoMemory,
    /// The percent signs are odd in number, or between a pair of them stands no character's code.
    Bad,
    /// Each escape is good, and outside them stands a blank, a line feed, `,` or `=`.
    NotPlain,
}

/// The text that an escaped text spells.
#[tactic(auto, unfolding(crate::specs::Escapes::text_of))]
pub fn read_escaped(alloc: Global, text: &str) -> Result<Text, EscapeError>
    ensures ok { IfOk result (λ t. text_of text.now ≡ Some t) }
    ensures bad { IsErrOf result EscapeError.Bad ↔ (unescaped text.now ≡ None) }
    ensures not_plain { IsErrOf result EscapeError.NotPlain ↔ (IsSome (unescaped text.now) × (text_of text.now ≡ None)) }
{
    if !are_escapes(text.as_bytes()) {
        return Err(EscapeError::Bad);
    }
    if !are_text_bytes(text.as_bytes()) {
        return Err(EscapeError::NotPlain);
    }
    match unescape(alloc, text) {
        Ok(spelled) => Ok(Text::from_string(spelled)),
        Err(_) => Err(EscapeError::NoMemory),
    }
}

/// Whether each escape of the bytes is good: the percent signs are even in number, and each pair of
/// them has a character's code between.
#[tactic(auto, using(crate::proofs::EscapeSteps::escapes_none, crate::proofs::EscapeSteps::escapes_single, crate::proofs::EscapeSteps::escapes_pair))]
pub fn are_escapes(bytes: &[u8]) -> bool
    ensures { result ≡ is_some (unescaped bytes.now) }
{
    let mut rest = bytes;
    while let Some((_, behind)) = parted(rest) {
        let Some((code, after)) = parted(behind) else {
            return false;
        };
        if character(code).is_none() {
            return false;
        }
        rest = after;
    }
    true
}

/// The code that 1 to 6 hexadecimal digits of either case spell, where it is a character's.
pub fn character(digits: &[u8]) -> Option<u32>
    ensures { result ≡ character_of digits.now }
{
    match character_spelled(digits) {
        Some(character) => Some(character as u32),
        None => None,
    }
}

#[tactic(auto, unfolding(crate::specs::Escapes::character_of), using(crate::proofs::EscapeSteps::scalar_low))]
fn character_spelled(digits: &[u8]) -> Option<char>
    ensures { result ≡ character_of digits.now }
{
    if !are_hexadecimals(digits) {
        return None;
    }
    match hexadecimal(digits) {
        Some(code) => char::from_u32(code),
        None => None,
    }
}

// The text that an escaped text spells, whose escapes are good.
#[tactic(auto, using(crate::proofs::EscapeSteps::unescaped_none, crate::proofs::EscapeSteps::unescaped_pair, crate::proofs::EscapeSteps::escapes_single, crate::proofs::EscapeSteps::escapes_pair))]
fn unescape(alloc: Global, text: &str) -> Mem<String>
    requires { IsTrue (is_some (unescaped text.now)) }
    ensures { IfOk result (λ t. unescaped text.now ≡ Some (string_bytes t)) }
{
    let mut spelled = String::new(alloc);
    let mut rest = text;
    while let Some((piece, behind)) = parted_text(rest) {
        let Some((code, after)) = parted_text(behind) else {
            unreachable!();
        };
        let Some(character) = character_spelled(code.as_bytes()) else {
            unreachable!();
        };
        spelled.push_str(piece)?;
        spelled.push(character)?;
        rest = after;
    }
    spelled.push_str(rest)?;
    Ok(spelled)
}

// What stands before the first percent sign and what stands behind it, where there is one.
fn parted(bytes: &[u8]) -> Option<(&[u8], &[u8])>
    ensures parts { MatchOption result (position_or_len (λ c. c == 37) bytes.now ≡ length bytes.now) (λ r. (position_or_len (λ c. c == 37) bytes.now < length bytes.now) × (r.0.now ≡ before_first (λ c. c == 37) bytes.now) × (r.1.now ≡ after_first (λ c. c == 37) bytes.now)) }
    ensures shorter { IfSome result (λ r. length r.1.now < length bytes.now) }
{
    let i = place_of(b'%', bytes);
    if i < bytes.len() {
        Some((&bytes[..i], behind(bytes, i)))
    } else {
        None
    }
}

// The same of a text.
fn parted_text(text: &str) -> Option<(&str, &str)>
    ensures parts { MatchOption result (position_or_len (λ c. c == 37) text.now ≡ length text.now) (λ r. (position_or_len (λ c. c == 37) text.now < length text.now) × (r.0.now ≡ before_first (λ c. c == 37) text.now) × (r.1.now ≡ after_first (λ c. c == 37) text.now)) }
    ensures shorter { IfSome result (λ r. length r.1.now < length text.now) }
{
    text.split_once('%')
}

// Whether each byte is one of a plain character or of an escape.
fn are_text_bytes(bytes: &[u8]) -> bool
    ensures { result ≡ list_all is_text_byte bytes.now }
{
    let mut rest = bytes;
    while let [c, after @ ..] = rest {
        if !is_text_byte(*c) {
            return false;
        }
        rest = after;
    }
    true
}

fn is_text_byte(c: u8) -> bool
    ensures { result ≡ is_text_byte c }
{
    !matches!(c, b' ' | b'\t' | b'\n' | b',' | b'=')
}

fn are_hexadecimals(digits: &[u8]) -> bool
    ensures { result ≡ are_hexadecimals digits.now }
{
    all_hexadecimal(digits) && (1 <= digits.len() && digits.len() <= 6)
}

fn all_hexadecimal(digits: &[u8]) -> bool
    ensures { result ≡ list_all is_hexadecimal digits.now }
{
    let mut rest = digits;
    while let [c, after @ ..] = rest {
        if !is_hexadecimal(*c) {
            return false;
        }
        rest = after;
    }
    true
}

fn is_hexadecimal(c: u8) -> bool
    ensures { result ≡ is_hexadecimal c }
{
    (c as char).to_digit(16).is_some()
}

// The number that hexadecimal digits spell, where it is at most the code of the last character.
#[tactic(auto, using(crate::proofs::EscapeSteps::hexadecimal_after_ge))]
fn hexadecimal(digits: &[u8]) -> Option<u32>
    requires { IsTrue (list_all is_hexadecimal digits.now) }
    ensures { MatchOption result (1114111 < hexadecimal_after 0 digits.now) (λ m. m ≡ hexadecimal_after 0 digits.now) }
{
    let mut n = 0;
    let mut rest = digits;
    while let [d, after @ ..] = rest {
        if n > 1_114_111 {
            return None;
        }
        n = 16 * n + hexadecimal_value(*d);
        rest = after;
    }
    if n > 1_114_111 { None } else { Some(n) }
}

// The value of a hexadecimal digit.
fn hexadecimal_value(c: u8) -> u32
    requires { IsTrue (is_hexadecimal c) }
    ensures value { result ≡ digit_value c }
    ensures small { result < 16 }
{
    match (c as char).to_digit(16) {
        Some(value) => value,
        None => 0,
    }
}
