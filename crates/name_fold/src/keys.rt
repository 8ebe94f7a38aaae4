//! Keys of names.

ghost use Rattle.std.specs.Prelude.{◌≡◌, ◌==◌, IfOk, map};
ghost use Rattle.std.specs.Char.{to_ascii_lowercase};
ghost use Rattle.std.specs.List.{starts_with};
ghost use Rattle.std.specs.Str.{IsAscii, bytes_eq};
ghost use Rattle.name_fold.specs.Keys.{key};

use caseless::default_case_fold_str;
use owned_data::{Mem, Text};
use std::alloc::Global;
use unicode_normalization::to_nfd;

/// The key of a name: its canonical decomposition, case-folded in full, and decomposed again. It goes once over a
/// name of ASCII.
pub fn key(alloc: Global, name: &str) -> Mem<Text>
    ensures { IfOk result (λ k. k ≡ key name.now) }
{
    if name.is_ascii() {
        lower_case(alloc, name)
    } else {
        folded(alloc, name)
    }
}

/// Whether a text is the key of a name. It goes once over a name of ASCII, and then takes no memory.
pub fn is_key_of(alloc: Global, name: &str, text: &[u8]) -> Mem<bool>
    ensures { IfOk result (λ is. is ≡ bytes_eq text.now (key name.now)) }
{
    if name.is_ascii() {
        return Ok(is_lower_case_of(name, text));
    }
    let key = folded(alloc, name)?;
    Ok(text == key.as_bytes())
}

/// Whether a text begins with another, byte by byte.
pub fn is_prefix(prefix: &str, whole: &str) -> bool
    ensures { result ≡ starts_with (λ a b. a == b) whole.now prefix.now }
{
    whole.as_bytes().starts_with(prefix.as_bytes())
}

/// The key of a name of ASCII.
fn lower_case(alloc: Global, name: &str) -> Mem<Text>
    requires { IsAscii name.now }
    ensures { IfOk result (λ k. k ≡ key name.now) }
{
    Ok(Text::from_string(name.to_ascii_lowercase(alloc)?))
}

/// Whether a text is the key of a name of ASCII.
fn is_lower_case_of(name: &str, text: &[u8]) -> bool
    requires { IsAscii name.now }
    ensures { result ≡ bytes_eq text.now (key name.now) }
{
    is_in_lower_case(name.as_bytes(), text)
}

/// Whether a text is another one in lower case, byte by byte.
fn is_in_lower_case(whole: &[u8], text: &[u8]) -> bool
    ensures { result ≡ bytes_eq text.now (map to_ascii_lowercase whole.now) }
{
    let mut rest = whole;
    let mut left = text;
    while let [byte, after @ ..] = rest {
        let [first, others @ ..] = left else {
            return false;
        };
        if *first != byte.to_ascii_lowercase() {
            return false;
        }
        rest = after;
        left = others;
    }
    left.is_empty()
}

/// The key of any name.
fn folded(alloc: Global, name: &str) -> Mem<Text>
    ensures { IfOk result (λ k. k ≡ key name.now) }
{
    let decomposed = to_nfd(alloc, name)?;
    let folded = default_case_fold_str(alloc, decomposed.as_str())?;
    Ok(Text::from_string(to_nfd(alloc, folded.as_str())?))
}
