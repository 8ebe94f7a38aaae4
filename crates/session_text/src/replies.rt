//! Replies to the lines of a script.

ghost use Rattle.std.specs.Prelude.{◌≡◌, ◌++◌, codes, length, take, OnErr, OnOk};
ghost use Rattle.std.specs.Fmt.{decimal as printed};
ghost use Rattle.stamp_core.specs.Texts.{text_of as stamp_text};
ghost use Rattle.live_model.specs.RowTexts.{rows_text};
ghost use Rattle.file_lines.specs.FileLines.{spaced};
ghost use Rattle.overlay_set.specs.Events.{reply_of};
ghost use Rattle.session_text.specs.Sessions.{numbered, reply_text};

use live_model::{Mem, Row};
use overlay_set::Reply;
use query_text::put_row;
use stamp_core::Stamp;
use text_pieces::{put_bytes, put_number};

/// Puts the reply to a line of a script at the end of a buffer: of a publication or a question its line, and of a question its rows,
/// a line each; nothing of any other reply. Where memory is refused the buffer is as it was.
pub fn put_reply(out: &mut Vec<u8>, line: u64, reply: &Reply) -> Mem<()>
    ensures ok { OnOk result (out.new.items ≡ out.old.items ++ reply_text line (reply_of reply.now)) }
    ensures err { OnErr result (out.new.items ≡ out.old.items) }
{
    let before = out.len();
    let done = begin_reply(out, line, reply);
    if done.is_err() {
        out.truncate(before);
    }
    done
}

/// Puts a reply.
#[tactic(auto, using(text_pieces::proofs::Fronts::front_of_longer))]
fn begin_reply(out: &mut Vec<u8>, line: u64, reply: &Reply) -> Mem<()>
    ensures ok { OnOk result (out.new.items ≡ out.old.items ++ reply_text line (reply_of reply.now)) }
    ensures err { OnErr result (take (length out.old.items) out.new.items ≡ out.old.items) }
{
    match reply {
        Reply::Accepted { front } => begin_front(out, line, b"P ok", *front),
        Reply::Late { front, last } => begin_late(out, line, *front, last),
        Reply::HistoryFull { front } => begin_front(out, line, b"P history-full", *front),
        Reply::FilesFull { front } => begin_front(out, line, b"P files-full", *front),
        Reply::Rows { front, rows } => begin_rows(out, line, *front, rows.as_slice()),
        Reply::Planned(_) => Ok(()),
        Reply::Folded => Ok(()),
        Reply::Overtaken { file: _ } => Ok(()),
        Reply::NothingPlanned => Ok(()),
        Reply::NotTaken => Ok(()),
        Reply::Done => Ok(()),
    }
}

/// Puts a line that ends with a front.
#[tactic(auto, using(text_pieces::proofs::Fronts::front_of_longer))]
fn begin_front(out: &mut Vec<u8>, line: u64, verb: &[u8], front: u32) -> Mem<()>
    ensures ok { OnOk result (out.new.items ≡ out.old.items ++ (numbered line verb.now ++ spaced (printed front) ++ codes "\n")) }
    ensures err { OnErr result (take (length out.old.items) out.new.items ≡ out.old.items) }
{
    begin_numbered(out, line, verb)?;
    begin_number(out, u64::from(front))?;
    put_bytes(out, b"\n")
}

/// Puts the line of a publication that came too late.
#[tactic(auto, using(text_pieces::proofs::Fronts::front_of_longer))]
fn begin_late(out: &mut Vec<u8>, line: u64, front: u32, last: &Stamp) -> Mem<()>
    ensures ok { OnOk result (out.new.items ≡ out.old.items ++ (numbered line (codes "P late") ++ spaced (printed front) ++ spaced (stamp_text last.now) ++ codes "\n")) }
    ensures err { OnErr result (take (length out.old.items) out.new.items ≡ out.old.items) }
{
    begin_numbered(out, line, b"P late")?;
    begin_number(out, u64::from(front))?;
    begin_stamp(out, last)?;
    put_bytes(out, b"\n")
}

/// Puts the line of a question and its rows.
#[tactic(auto, using(text_pieces::proofs::Fronts::front_of_longer))]
fn begin_rows(out: &mut Vec<u8>, line: u64, front: u32, rows: &[Row]) -> Mem<()>
    ensures ok { OnOk result (out.new.items ≡ out.old.items ++ (numbered line (codes "Q") ++ spaced (printed front) ++ spaced (printed (length rows.now)) ++ codes "\n" ++ rows_text rows.now)) }
    ensures err { OnErr result (take (length out.old.items) out.new.items ≡ out.old.items) }
{
    begin_numbered(out, line, b"Q")?;
    begin_number(out, u64::from(front))?;
    begin_number(out, rows.len() as u64)?;
    put_bytes(out, b"\n")?;
    begin_each(out, rows)
}

/// Puts the lines of rows.
#[tactic(auto, using(text_pieces::proofs::Fronts::front_of_longer, std::proofs::lemmas::List::flat_map_more))]
fn begin_each(out: &mut Vec<u8>, rows: &[Row]) -> Mem<()>
    ensures ok { OnOk result (out.new.items ≡ out.old.items ++ rows_text rows.now) }
    ensures err { OnErr result (take (length out.old.items) out.new.items ≡ out.old.items) }
{
    for row in rows {
        put_row(out, row)?;
    }
    Ok(())
}

/// Puts the number of a line, and what it asked for.
#[tactic(auto, using(text_pieces::proofs::Fronts::front_of_longer))]
fn begin_numbered(out: &mut Vec<u8>, line: u64, verb: &[u8]) -> Mem<()>
    ensures ok { OnOk result (out.new.items ≡ out.old.items ++ numbered line verb.now) }
    ensures err { OnErr result (take (length out.old.items) out.new.items ≡ out.old.items) }
{
    put_number(out, line)?;
    put_bytes(out, b" ")?;
    put_bytes(out, verb)
}

/// Puts a number after a space.
#[tactic(auto, using(text_pieces::proofs::Fronts::front_of_longer))]
pub(crate) fn begin_number(out: &mut Vec<u8>, number: u64) -> Mem<()>
    ensures ok { OnOk result (out.new.items ≡ out.old.items ++ spaced (printed number)) }
    ensures err { OnErr result (take (length out.old.items) out.new.items ≡ out.old.items) }
{
    put_bytes(out, b" ")?;
    put_number(out, number)
}

/// Puts an hour after a space.
#[tactic(auto, using(text_pieces::proofs::Fronts::front_of_longer))]
pub(crate) fn begin_stamp(out: &mut Vec<u8>, stamp: &Stamp) -> Mem<()>
    ensures ok { OnOk result (out.new.items ≡ out.old.items ++ spaced (stamp_text stamp.now)) }
    ensures err { OnErr result (take (length out.old.items) out.new.items ≡ out.old.items) }
{
    put_bytes(out, b" ")?;
    put_bytes(out, &stamp.text())
}
