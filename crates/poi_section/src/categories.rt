//! Categories.

ghost use Rattle.std.specs.Prelude.{◌≡◌};
ghost use Rattle.std.specs.List.{list_all};
ghost use Rattle.live_model.specs.Rules.{is_category, is_category_byte};

/// Whether the bytes are a category: 1 to 32 bytes out of `a` to `z`, `0` to `9` and `_`.
pub(crate) fn is_category(bytes: &[u8]) -> bool
    ensures { result ≡ is_category bytes.now }
{
    are_category_bytes(bytes) && (1 <= bytes.len() && bytes.len() <= 32)
}

fn are_category_bytes(bytes: &[u8]) -> bool
    ensures { result ≡ list_all is_category_byte bytes.now }
{
    let mut rest = bytes;
    while let [c, after @ ..] = rest {
        if !is_category_byte(*c) {
            return false;
        }
        rest = after;
    }
    true
}

fn is_category_byte(c: u8) -> bool
    ensures { result ≡ is_category_byte c }
{
    (b'a' <= c && c <= b'z') || (b'0' <= c && c <= b'9' || c == b'_')
}
