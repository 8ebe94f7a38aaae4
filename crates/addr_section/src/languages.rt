//! Languages of names.

ghost use Rattle.std.specs.Prelude.{◌≡◌};
ghost use Rattle.std.specs.List.{list_all};
ghost use Rattle.live_model.specs.Records.{is_language, is_language_byte};

/// Whether a text is a language: two to ten letters, digits, `-` and `_`.
pub(crate) fn is_language(text: &[u8]) -> bool
    ensures { result ≡ is_language text.now }
{
    2 <= text.len() && text.len() <= 10 && are_language_bytes(text)
}

/// Whether each byte may stand in a language.
fn are_language_bytes(bytes: &[u8]) -> bool
    ensures { result ≡ list_all is_language_byte bytes.now }
{
    let mut rest = bytes;
    while let [byte, after @ ..] = rest {
        if !is_language_byte(*byte) {
            return false;
        }
        rest = after;
    }
    true
}

/// Whether a byte may stand in a language.
fn is_language_byte(byte: u8) -> bool
    ensures { result ≡ is_language_byte byte }
{
    byte.is_ascii_alphanumeric() || byte == b'-' || byte == b'_'
}
