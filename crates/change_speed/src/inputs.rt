//! The files that the words name.

ghost use Rattle.std.specs.Prelude.{IfSome};
ghost use Rattle.std.specs.List.{AllByRecursion};
ghost use Rattle.live_model.specs.Objects.{IsGoodLine};

use live_model::Line;
use opl_reader::read_all;
use outside::{HostFiles, read_whole};
use std::alloc::Global;
use tag_rules::Rules;

/// The most bytes of a file.
const MOST: usize = 268_435_456;

fn text(alloc: Global, rt: &HostRuntime, name: &str) -> Option<Vec<u8>> {
    let mut files = HostFiles::new(alloc, rt);
    read_whole(alloc, &mut files, name, MOST).ok()
}

/// The table of rules of a file, where it can be read and is good.
pub fn rules(alloc: Global, rt: &HostRuntime, name: &str) -> Option<Rules> {
    let bytes = text(alloc, rt, name)?;
    Rules::read(alloc, &bytes).ok()
}

/// The object lines of a file, where it can be read and is good.
pub fn objects(alloc: Global, rt: &HostRuntime, name: &str) -> Option<Vec<Line>>
    ensures { IfSome result (λ lines. AllByRecursion IsGoodLine lines.items) }
{
    let bytes = text(alloc, rt, name)?;
    read_all(alloc, &bytes).ok()
}
