//! The line that tells a map file.

ghost use Rattle.std.specs.Prelude.{◌≡◌, IfOk, IfSome, OnOk};
ghost use Rattle.stamp_core.specs.Hours.{IsCivilHour};
ghost use Rattle.file_lines.specs.FileLines.{file_line};

use file_lines::put_file_line;
use live_model::Mem;
use stamp_core::Head;
use std::alloc::Global;

/// The level, the first hour and the last, or `-` where there are none, and the counts of marks and records, with single
/// spaces and a line feed.
pub fn file_line(alloc: Global, head: &Head, marks: usize, records: usize) -> Mem<Vec<u8>>
    ensures line { IfOk result (λ line. line.items ≡ file_line head.now marks records) }
    ensures civil { OnOk result (IfSome head.now.first IsCivilHour × IfSome head.now.last IsCivilHour) }
{
    let mut line = Vec::new(alloc);
    put_file_line(&mut line, head, marks, records)?;
    Ok(line)
}
