//! Publications.

ghost use Rattle.std.specs.Prelude.{◌≡◌, IfOk};
ghost use Rattle.published_set.specs.Sets.{entry_of};

use live_model::{Lines, Mem, NoMemory};
use stamp_core::Stamp;
use std::sync::Arc;

/// A publication: its hour, the publisher's own number for it, and the lines that change the map.
#[derive(Drop)]
pub struct Published {
    /// The hour.
    pub stamp: Stamp,
    /// The publisher's own number for it.
    pub tag: u32,
    /// The lines, which others may own too.
    pub lines: Arc<Lines>,
}

impl Published {
    /// The same publication, with a further owner of its lines.
    pub fn copy(&self) -> Mem<Published>
        ensures { IfOk result (λ copied. entry_of copied ≡ entry_of self.now) }
    {
        match Arc::try_clone(&self.lines) {
            Ok(lines) => Ok(Published {
                stamp: self.stamp,
                tag: self.tag,
                lines,
            }),
            Err(_) => Err(NoMemory),
        }
    }
}
