//! Finite maps in layers.
//!
//! A table is a stack of layers. A layer is a list of changes whose keys rise: a key with a value sets it, a key
//! without one removes it. The one idea: a change of a map costs what it changes. A layer is laid over the map
//! without memory once its place is reserved, a look-up asks the newest layer first, and layers are merged from
//! their ends, so that a refused merge has moved nothing. The layer above may rely on this: a table is seen as the
//! finite map that its layers make, whatever their number.
#![tactic(auto)]

mod layer;
mod layered;
mod merging;
mod pile;
mod values;

pub use layer::Layer;
pub use layered::Layered;
pub use values::Values;
