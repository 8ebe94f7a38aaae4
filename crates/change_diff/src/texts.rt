//! The texts of an object.

ghost use Rattle.std.specs.Prelude.{IsUtf8};
ghost use Rattle.std.specs.List.{AllByRecursion};
ghost use Rattle.live_model.specs.CanonicalLines.{HasTexts};

use live_model::{Entity, Member, Tag};

/// Nothing to be done: that the texts of an object are UTF-8, as their types say.
pub fn are_texts(entity: &Entity)
    ensures { HasTexts entity.now }
{
    are_tags(entity.tags.as_slice());
    are_roles(entity.members.as_slice());
}

/// The same of its tags.
fn are_tags(tags: &[Tag])
    ensures { AllByRecursion (λ t. IsUtf8 t.key × IsUtf8 t.value) tags.now }
{
    let mut rest = tags;
    while let Some((tag, after)) = rest.split_first() {
        let _key = tag.key.as_str();
        let _value = tag.value.as_str();
        rest = after;
    }
}

/// The same of its roles.
fn are_roles(members: &[Member])
    ensures { AllByRecursion (λ m. IsUtf8 m.role) members.now }
{
    let mut rest = members;
    while let Some((member, after)) = rest.split_first() {
        let _role = member.role.as_str();
        rest = after;
    }
}
