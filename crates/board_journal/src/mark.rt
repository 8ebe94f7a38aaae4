//! What a deed is made of.

ghost use Rattle.overlay_set.specs.Swaps.{Swap};

use std::marker::{Model, PhantomData};

/// A swap, for contracts alone.
pub struct Mark {
    marker: PhantomData<()>,
    pub ghost swap: { Swap },
}

impl Model for Mark {
    ghost use base.Fml.{ftrue};

    ghost also_owns = { λ _. ftrue };
}
