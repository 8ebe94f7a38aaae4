//! A record where it stands.

ghost use Rattle.std.specs.Prelude.{◌≡◌, IfOk};
ghost use Rattle.obf_wire.specs.Windows.{range_of};
ghost use Rattle.boxed_read.specs.Records.{record_at};
ghost use Rattle.boxed_read.specs.Sound.{IsSoundRecord};

use crate::class::ReadClass;
use crate::filter::SpatialFilter;
use crate::parts::object;
use live_model::ObjId;
use obf_wire::Window;
use owned_data::Mem;
use std::alloc::Global;
use std::marker::{Model, PhantomData};

/// A record of a section, seen as the record; it borrows the bytes.
#[derive(Drop)]
pub struct View<'a, C: ReadClass> {
    window: Window<'a>,
    texts: Window<'a>,
    ordinal: u64,
    group: &'a str,
    class: PhantomData<C>,
}

impl<'a, C: ReadClass> Model for View<'a, C> {
    ghost use Rattle.obf_wire.specs.Windows.{range_of};
    ghost use Rattle.boxed_read.specs.Records.{record_at};
    ghost use Rattle.boxed_read.specs.Sound.{IsSoundRecord};

    ghost Value = { C.Record };

    ghost view = { λ v. record_at C.class (C.reads v.group.now) (range_of v.texts) (range_of v.window) v.ordinal };

    ghost invariant = { λ v. IsSoundRecord C.class C.boxing (range_of v.texts) (range_of v.window) v.ordinal };
}

impl<'a, C: ReadClass> View<'a, C> {
    /// The record of this ordinal in a window.
    pub(crate) fn new(
        window: Window<'a>,
        texts: Window<'a>,
        ordinal: u64,
        group: &'a str,
    ) -> View<'a, C>
        requires { IsSoundRecord C.class C.boxing (range_of texts) (range_of window) ordinal }
        ensures { result ≡ record_at C.class (C.reads group.entry.now) (range_of texts.entry) (range_of window.entry) ordinal }
    {
        View {
            window,
            texts,
            ordinal,
            group,
            class: PhantomData,
        }
    }

    /// Whose record it is.
    pub fn id(&self) -> ObjId
        ensures { result ≡ C.id_of self.now }
    {
        object(self.ordinal)
    }

    /// The record.
    pub fn copy(&self, alloc: Global) -> Mem<C::Record>
        ensures { IfOk result (λ item. item ≡ self.now) }
    {
        C::read(alloc, self.window, self.ordinal, self.texts, self.group)
    }

    /// Whether the record passes a filter.
    pub fn passes<F: SpatialFilter<C>>(&self, filter: &F) -> bool
        ensures { result ≡ F.passing filter.now self.now }
    {
        filter.passes(self.window, self.ordinal, self.texts)
    }
}
