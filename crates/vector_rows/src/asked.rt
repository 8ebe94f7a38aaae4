//! Fields that are texts of objects and of rules.

ghost use Rattle.std.specs.Prelude.{IfOk};
ghost use Rattle.live_model.specs.Stores.{IsStore};

use crate::fields::{Fields, RowError};
use entity_store::Store;
use live_model::Line;
use opl_reader::{OplError, read_all};
use std::alloc::Global;
use tag_rules::{RuleError, Rules};

/// The lines of the text that the next field spells.
pub fn lines(alloc: Global, fields: &mut Fields<'_>) -> Result<Vec<Line>, RowError> {
    match read_all(alloc, &fields.bytes(alloc)?) {
        Ok(lines) => Ok(lines),
        Err(OplError::Broken(_)) => Err(RowError::BadRow),
        Err(OplError::NoMemory) => Err(RowError::NoMemory),
    }
}

/// The store of the text that the next field spells.
pub fn store(alloc: Global, fields: &mut Fields<'_>) -> Result<Store, RowError>
    ensures { IfOk result (λ store. IsStore store.entities) }
{
    match read_all(alloc, &fields.bytes(alloc)?) {
        Ok(lines) => Ok(Store::from_lines(alloc, lines)?),
        Err(OplError::Broken(_)) => Err(RowError::BadRow),
        Err(OplError::NoMemory) => Err(RowError::NoMemory),
    }
}

/// The table of rules that the next field spells.
pub fn rules(alloc: Global, fields: &mut Fields<'_>) -> Result<Rules, RowError> {
    match Rules::read(alloc, &fields.bytes(alloc)?) {
        Ok(rules) => Ok(rules),
        Err(RuleError::Broken(_)) => Err(RowError::BadRow),
        Err(RuleError::NoMemory) => Err(RowError::NoMemory),
    }
}
