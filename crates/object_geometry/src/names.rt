//! The values of tags.

ghost use Rattle.std.specs.Prelude.{◌≡◌, bytes_eq};
ghost use Rattle.std.specs.Option.{option_copied};
ghost use Rattle.live_model.specs.Records.{tagged, tag_or_empty, name_of};

use live_model::{Entity, Text};

/// The value of the tag with this key. `None` exactly where there is none. It goes over the tags.
pub fn tagged<'a>(entity: &'a Entity, key: &str) -> Option<&'a Text>
    ensures { option_copied result ≡ tagged key.now entity.now.tags }
{
    let mut rest = entity.tags.as_slice();
    while let [tag, after @ ..] = rest {
        if is_text(&tag.key, key) {
            return Some(&tag.value);
        }
        rest = after;
    }
    None
}

/// The value of the tag with this key, or the empty text.
pub fn tag_or_empty<'a>(entity: &'a Entity, key: &str) -> &'a str
    ensures { result.now ≡ tag_or_empty key.now entity.now.tags }
{
    match tagged(entity, key) {
        Some(value) => value.as_str(),
        None => "",
    }
}

/// The value of the tag `name`, or the empty text.
pub fn name(entity: &Entity) -> &str
    ensures { result.now ≡ name_of entity.now }
{
    tag_or_empty(entity, "name")
}

fn is_text(text: &Text, other: &str) -> bool
    ensures { result ≡ bytes_eq text.now other.now }
{
    text.as_bytes() == other.as_bytes()
}
