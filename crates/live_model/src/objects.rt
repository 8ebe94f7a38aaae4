//! Objects, and the lines that bring them or take them away.

ghost use Rattle.std.specs.Prelude.{◌≡◌, IfOk};

use crate::ids::ObjId;
use crate::points::Point;
use owned_data::{List, Mem, Text};
use std::alloc::Global;

/// A key and its value.
#[derive(Debug, Drop)]
pub struct Tag {
    pub key: Text,
    pub value: Text,
}

impl Tag {
    /// A second owner of the same key and value.
    pub fn copy(&self, alloc: Global) -> Mem<Tag>
        ensures { IfOk result (λ tag. tag ≡ self.now) }
    {
        let key = self.key.copy(alloc)?;
        let value = self.value.copy(alloc)?;
        Ok(Tag { key, value })
    }
}

/// An object that a relation names, and the part that it plays there.
#[derive(Debug, Drop)]
pub struct Member {
    pub target: ObjId,
    pub role: Text,
}

impl Member {
    /// A second owner of the same target and role.
    pub fn copy(&self, alloc: Global) -> Mem<Member>
        ensures { IfOk result (λ member. member ≡ self.now) }
    {
        let role = self.role.copy(alloc)?;
        Ok(Member {
            target: self.target,
            role,
        })
    }
}

/// An object of the map. Its tags rise by the bytes of their keys. Only a node has a place, only a way
/// has references (the numbers of its nodes), and only a relation has members.
#[derive(Debug, Drop)]
pub struct Entity {
    pub id: ObjId,
    pub version: u32,
    pub tags: List<Tag>,
    pub place: Option<Point>,
    pub refs: List<i64>,
    pub members: List<Member>,
}

impl Entity {
    /// A second owner of the same object.
    pub fn copy(&self, alloc: Global) -> Mem<Entity>
        ensures { IfOk result (λ entity. entity ≡ self.now) }
    {
        let tags = copy_tags(alloc, self.tags.as_slice())?;
        let refs = copy_refs(alloc, self.refs.as_slice())?;
        let members = copy_members(alloc, self.members.as_slice())?;
        Ok(Entity {
            id: self.id,
            version: self.version,
            tags,
            place: self.place,
            refs,
            members,
        })
    }
}

fn copy_tags(alloc: Global, tags: &[Tag]) -> Mem<List<Tag>>
    ensures { IfOk result (λ copied. copied ≡ tags.now) }
{
    let mut copied = List::new(alloc);
    for tag in tags {
        let item = tag.copy(alloc)?;
        copied.push(item)?;
    }
    Ok(copied)
}

fn copy_refs(alloc: Global, refs: &[i64]) -> Mem<List<i64>>
    ensures { IfOk result (λ copied. copied ≡ refs.now) }
{
    Ok(List::from_vec(refs.to_vec(alloc)?))
}

fn copy_members(alloc: Global, members: &[Member]) -> Mem<List<Member>>
    ensures { IfOk result (λ copied. copied ≡ members.now) }
{
    let mut copied = List::new(alloc);
    for member in members {
        let item = member.copy(alloc)?;
        copied.push(item)?;
    }
    Ok(copied)
}

/// What an object line says: the object as it now is, or that an object is gone, with the version.
#[derive(Debug, Drop)]
pub enum Line {
    Live(Entity),
    Gone(ObjId, u32),
}

/// Object lines in order.
pub type Lines = List<Line>;

impl Line {
    /// A second owner of the same line.
    pub fn copy(&self, alloc: Global) -> Mem<Line>
        ensures { IfOk result (λ line. line ≡ self.now) }
    {
        match self {
            Line::Live(entity) => {
                let copied = entity.copy(alloc)?;
                Ok(Line::Live(copied))
            }
            Line::Gone(id, version) => Ok(Line::Gone(*id, *version)),
        }
    }
}
