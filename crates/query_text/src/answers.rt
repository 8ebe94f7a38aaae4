//! A whole answer.

ghost use Rattle.std.specs.Prelude.{◌≡◌, ◌++◌, length, take, OnOk, OnErr};
ghost use Rattle.live_model.specs.RowTexts.{rows_text};
ghost use Rattle.query_text.specs.Lines.{answer_text};

use crate::rows::put_row;
use live_model::Row;
use owned_data::Mem;
use text_pieces::{put_bytes, put_number};

/// Puts an answer at the end of a buffer: `rows` and their count, and then a line for each. Where memory is refused the buffer is
/// as it was.
pub fn put_answer(out: &mut Vec<u8>, rows: &[Row]) -> Mem<()>
    ensures ok { OnOk result (out.new.items ≡ out.old.items ++ answer_text rows.now) }
    ensures err { OnErr result (out.new.items ≡ out.old.items) }
{
    let before = out.len();
    let done = begin_answer(out, rows);
    if done.is_err() {
        out.truncate(before);
    }
    done
}

/// Puts an answer.
#[tactic(auto, using(text_pieces::proofs::Fronts::front_of_longer))]
fn begin_answer(out: &mut Vec<u8>, rows: &[Row]) -> Mem<()>
    ensures ok { OnOk result (out.new.items ≡ out.old.items ++ answer_text rows.now) }
    ensures err { OnErr result (take (length out.old.items) out.new.items ≡ out.old.items) }
{
    put_bytes(out, b"rows ")?;
    put_number(out, rows.len() as u64)?;
    put_bytes(out, b"\n")?;
    begin_rows(out, rows)
}

/// Puts the lines of rows.
#[tactic(auto, using(text_pieces::proofs::Fronts::front_of_longer, std::proofs::lemmas::List::flat_map_more))]
fn begin_rows(out: &mut Vec<u8>, rows: &[Row]) -> Mem<()>
    ensures ok { OnOk result (out.new.items ≡ out.old.items ++ rows_text rows.now) }
    ensures err { OnErr result (take (length out.old.items) out.new.items ≡ out.old.items) }
{
    for row in rows {
        put_row(out, row)?;
    }
    Ok(())
}
