//! The values that are texts or lists: a user's name, tags, references and members.

ghost use Rattle.std.specs.Prelude.{◌≡◌};
ghost use Rattle.live_model.specs.declared.opl.Letter.TheVariants as letter;
ghost use Rattle.live_model.specs.LineTests.{value_tests, failure_kind};

use crate::items::is_text;
pub(crate) use crate::members::members;
pub(crate) use crate::refs::refs;
pub(crate) use crate::tags::tags;
use live_model::OplKind;
use text_pieces::are_escapes;

/// How a user's name breaks; none where it is an escaped text.
pub(crate) fn user_name_break(value: &str) -> Option<OplKind>
    ensures { result ≡ failure_kind (value_tests letter.UserName value.now) }
{
    if !are_escapes(value.as_bytes()) {
        return Some(OplKind::BadEscape);
    }
    if !is_text(value.as_bytes()) {
        return Some(OplKind::BadList);
    }
    None
}
