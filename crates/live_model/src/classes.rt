//! What rules make of the objects that they match.

ghost use Rattle.std.specs.Prelude.{◌≡◌, IfOk};

use owned_data::{Mem, Text};
use std::alloc::Global;

/// What a rule makes of an object: a map record, a point of interest of a category, a road, or a place.
#[derive(Debug, Drop)]
pub enum Class {
    Map,
    Poi(Text),
    Road,
    Place,
}

impl Class {
    /// A second owner of the same class.
    pub fn copy(&self, alloc: Global) -> Mem<Class>
        ensures { IfOk result (λ class. class ≡ self.now) }
    {
        match self {
            Class::Map => Ok(Class::Map),
            Class::Poi(category) => {
                let copied = category.copy(alloc)?;
                Ok(Class::Poi(copied))
            }
            Class::Road => Ok(Class::Road),
            Class::Place => Ok(Class::Place),
        }
    }
}
