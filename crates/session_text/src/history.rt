//! Publications of a history, and how many of something there are.

ghost use Rattle.std.specs.Prelude.{◌≡◌, ◌++◌, [], codes, length, take, OnErr, OnOk};
ghost use Rattle.std.specs.Fmt.{decimal as printed};
ghost use Rattle.file_lines.specs.FileLines.{spaced};
ghost use Rattle.session_text.specs.Sessions.{entry_text};

use crate::replies::{begin_number, begin_stamp};
use live_model::Mem;
use stamp_core::Stamp;
use text_pieces::{put_bytes, put_number};

/// Puts the line of a publication: its place in the history, counted from 1, its hour, and the line of the script that published it. Where
/// memory is refused the buffer is as it was.
pub fn put_entry(out: &mut Vec<u8>, place: u64, stamp: &Stamp, tag: u32) -> Mem<()>
    ensures ok { OnOk result (out.new.items ≡ out.old.items ++ entry_text place (record { stamp = stamp.now; tag = tag; lines = [] })) }
    ensures err { OnErr result (out.new.items ≡ out.old.items) }
{
    let before = out.len();
    let done = begin_entry(out, place, stamp, tag);
    if done.is_err() {
        out.truncate(before);
    }
    done
}

/// Puts the line.
#[tactic(auto, using(text_pieces::proofs::Fronts::front_of_longer))]
fn begin_entry(out: &mut Vec<u8>, place: u64, stamp: &Stamp, tag: u32) -> Mem<()>
    ensures ok { OnOk result (out.new.items ≡ out.old.items ++ entry_text place (record { stamp = stamp.now; tag = tag; lines = [] })) }
    ensures err { OnErr result (take (length out.old.items) out.new.items ≡ out.old.items) }
{
    put_number(out, place)?;
    begin_stamp(out, stamp)?;
    begin_number(out, u64::from(tag))?;
    put_bytes(out, b"\n")
}

/// Puts a line with a word and a number. Where memory is refused the buffer is as it was.
pub fn put_count_line(out: &mut Vec<u8>, word: &[u8], count: u64) -> Mem<()>
    ensures ok { OnOk result (out.new.items ≡ out.old.items ++ (word.now ++ spaced (printed count) ++ codes "\n")) }
    ensures err { OnErr result (out.new.items ≡ out.old.items) }
{
    let before = out.len();
    let done = begin_count_line(out, word, count);
    if done.is_err() {
        out.truncate(before);
    }
    done
}

/// Puts the line.
#[tactic(auto, using(text_pieces::proofs::Fronts::front_of_longer))]
fn begin_count_line(out: &mut Vec<u8>, word: &[u8], count: u64) -> Mem<()>
    ensures ok { OnOk result (out.new.items ≡ out.old.items ++ (word.now ++ spaced (printed count) ++ codes "\n")) }
    ensures err { OnErr result (take (length out.old.items) out.new.items ≡ out.old.items) }
{
    put_bytes(out, word)?;
    begin_number(out, count)?;
    put_bytes(out, b"\n")
}
