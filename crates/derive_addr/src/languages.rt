//! The languages of names.

ghost use Rattle.std.specs.Prelude.{◌≡◌};
ghost use Rattle.std.specs.Option.{option_copied};
ghost use Rattle.std.specs.List.{list_all};
ghost use Rattle.live_model.specs.Records.{is_language, is_language_byte, language_of, named_language};

/// The language in which a tag with this key names an object: the empty one for `name`, and that after `name:`.
/// `None` exactly where the key is of no such form.
pub(crate) fn language_of(key: &str) -> Option<&str>
    ensures { option_copied result ≡ language_of key.now }
{
    if key == "name" {
        return Some("");
    }
    let Some(language) = key.strip_prefix("name:") else {
        return None;
    };
    if is_language(language) {
        Some(language)
    } else {
        None
    }
}

/// Whether a text is a language: two to ten letters, digits, `-` and `_`.
fn is_language(text: &str) -> bool
    ensures { result ≡ is_language text.now }
{
    2 <= text.len() && text.len() <= 10 && are_language_bytes(text.as_bytes())
}

fn are_language_bytes(bytes: &[u8]) -> bool
    ensures { result ≡ list_all is_language_byte bytes.now }
{
    let mut rest = bytes;
    while let [byte, after @ ..] = rest {
        if !is_language_byte(*byte) {
            return false;
        }
        rest = after;
    }
    true
}

fn is_language_byte(byte: u8) -> bool
    ensures { result ≡ is_language_byte byte }
{
    byte.is_ascii_alphanumeric() || byte == b'-' || byte == b'_'
}
