//! A store with the index of its users.

ghost use Rattle.std.specs.Prelude.{◌≤◌, OnOk};

use entity_store::{Look, Staged, Store};
use live_model::{Kind, Line, ObjId};
use opl_reader::{OplError, read_all};
use ref_index::{RefIndex, StagedRefs};
use std::alloc::Global;

/// A store with the index of its users.
#[derive(Drop)]
pub struct Base {
    store: Store,
    index: RefIndex,
}

impl Base {
    /// The store of the lines of a text.
    pub fn of(alloc: Global, text: &str) -> Result<Base, OplError> {
        let store = Store::from_lines(alloc, read_all(alloc, text.as_bytes())?)?;
        let index = RefIndex::build(alloc, &store)?;
        Ok(Base { store, index })
    }

    /// Stages the lines of a text.
    pub fn stage(&mut self, alloc: Global, text: &str) -> Result<(Staged, StagedRefs), OplError>
        ensures store { OnOk result (1 ≤ self.new.store.spare) }
        ensures index { OnOk result (1 ≤ self.new.index.spare) }
    {
        let lines = read_all(alloc, text.as_bytes())?;
        self.stage_lines(alloc, &lines)
    }

    /// Stages lines, for the store and then for the index.
    fn stage_lines(
        &mut self,
        alloc: Global,
        lines: &[Line],
    ) -> Result<(Staged, StagedRefs), OplError>
        ensures store { OnOk result (1 ≤ self.new.store.spare) }
        ensures index { OnOk result (1 ≤ self.new.index.spare) }
    {
        let staged = self.store.stage(alloc, lines)?;
        let before = Look::now(&self.store);
        let after = Look::then(&self.store, &staged);
        let refs = self.index.stage(alloc, &before, &after, lines)?;
        drop(before);
        drop(after);
        Ok((staged, refs))
    }

    /// Stages and commits the lines of a text.
    pub fn change(&mut self, alloc: Global, text: &str) -> Result<(), OplError> {
        let (staged, refs) = self.stage(alloc, text)?;
        self.store.commit(staged);
        self.index.commit(refs);
        Ok(())
    }

    /// Whether these are the users of an object, in this order.
    pub fn is_used(&self, kind: Kind, number: i64, users: &[(Kind, i64)]) -> bool {
        match ObjId::new(kind, number) {
            Some(id) => are(self.index.users(&id), users),
            None => false,
        }
    }

    /// Whether an object is live.
    pub fn has(&self, kind: Kind, number: i64) -> bool {
        match ObjId::new(kind, number) {
            Some(id) => self.store.get(&id).is_some(),
            None => false,
        }
    }
}

/// Whether ids are of these kinds and numbers.
fn are(ids: &[ObjId], wanted: &[(Kind, i64)]) -> bool {
    match (ids, wanted) {
        ([], []) => true,
        ([id, ids @ ..], [first, others @ ..]) => {
            id.kind() == first.0 && id.number() == first.1 && are(ids, others)
        }
        _ => false,
    }
}
