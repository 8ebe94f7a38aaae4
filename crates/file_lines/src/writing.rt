//! The line of a map file.

ghost use Rattle.std.specs.Prelude.{◌≡◌, ◌++◌, length, take, IfSome, OnErr, OnOk};
ghost use Rattle.stamp_core.specs.Hours.{IsCivilHour};
ghost use Rattle.file_lines.specs.FileLines.{file_line, hour_text, level_name, spaced};
ghost use Rattle.std.specs.Fmt.{decimal as printed};

use live_model::{Level, Mem};
use stamp_core::{Head, Stamp};
use text_pieces::{put_bytes, put_number};

/// Puts the line of a file at the end of a buffer: the level, the first hour and the last, or `-` where there are none, and the counts
/// of marks and records, with single spaces and a line feed. Where memory is refused the buffer is as it was.
pub fn put_file_line(out: &mut Vec<u8>, head: &Head, marks: usize, records: usize) -> Mem<()>
    ensures ok { OnOk result (out.new.items ≡ out.old.items ++ file_line head.now marks records) }
    ensures civil { OnOk result (IfSome head.now.first IsCivilHour × IfSome head.now.last IsCivilHour) }
    ensures err { OnErr result (out.new.items ≡ out.old.items) }
{
    let before = out.len();
    let done = begin_file_line(out, head, marks, records);
    if done.is_err() {
        out.truncate(before);
    }
    done
}

/// Puts the line.
#[tactic(auto, using(text_pieces::proofs::Fronts::front_of_longer))]
fn begin_file_line(out: &mut Vec<u8>, head: &Head, marks: usize, records: usize) -> Mem<()>
    ensures ok { OnOk result (out.new.items ≡ out.old.items ++ file_line head.now marks records) }
    ensures civil { OnOk result (IfSome head.now.first IsCivilHour × IfSome head.now.last IsCivilHour) }
    ensures err { OnErr result (take (length out.old.items) out.new.items ≡ out.old.items) }
{
    put_bytes(out, level_name(head.level).as_bytes())?;
    begin_hour(out, head.first)?;
    begin_hour(out, head.last)?;
    begin_count(out, marks)?;
    begin_count(out, records)?;
    put_bytes(out, b"\n")
}

fn level_name(level: Level) -> &'static str
    ensures { result.now ≡ level_name level }
{
    match level {
        Level::Base => "base",
        Level::Hour => "hour",
        Level::Day => "day",
        Level::Month => "month",
    }
}

/// Puts an hour after a space, or `-`.
#[tactic(auto, using(text_pieces::proofs::Fronts::front_of_longer))]
fn begin_hour(out: &mut Vec<u8>, hour: Option<Stamp>) -> Mem<()>
    ensures ok { OnOk result (out.new.items ≡ out.old.items ++ spaced (hour_text hour)) }
    ensures civil { OnOk result (IfSome hour IsCivilHour) }
    ensures err { OnErr result (take (length out.old.items) out.new.items ≡ out.old.items) }
{
    put_bytes(out, b" ")?;
    match hour {
        Some(stamp) => put_bytes(out, &stamp.text()),
        None => put_bytes(out, b"-"),
    }
}

/// Puts a number after a space.
#[tactic(auto, using(text_pieces::proofs::Fronts::front_of_longer))]
fn begin_count(out: &mut Vec<u8>, count: usize) -> Mem<()>
    ensures ok { OnOk result (out.new.items ≡ out.old.items ++ spaced (printed count)) }
    ensures err { OnErr result (take (length out.old.items) out.new.items ≡ out.old.items) }
{
    put_bytes(out, b" ")?;
    put_number(out, count as u64)
}
