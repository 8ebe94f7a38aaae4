//! A text read at once and read in pieces.

ghost use Rattle.std.specs.Prelude.{◌≡◌, ◌<◌, IfErr, IfOk};
ghost use Rattle.live_model.specs.OplTexts.{OplText};
ghost use Rattle.opl_reader.specs.Readings.{IsCause};

use opl_feed::Feed;
use opl_reader::{Line, OplError};
use std::alloc::Global;

/// The lines of a text that comes in pieces of `size` bytes. Both ways of reading are one reading: this promises what
/// `opl_reader::read_all` promises of the whole text.
pub fn read_in_pieces(alloc: Global, bytes: &[u8], size: usize) -> Result<Vec<Line>, OplError>
    requires { 0 < size }
    ensures lines { IfOk result (λ lines. OplText bytes.now lines.items) }
    ensures broken { IfErr result (IsCause bytes.now) }
{
    let mut feed = Feed::new(alloc);
    let mut lines = Vec::new(alloc);
    let mut rest = bytes;
    while rest.len() > size {
        let (piece, after) = rest.split_at(size);
        feed.piece(alloc, piece, &mut lines)?;
        rest = after;
    }
    feed.piece(alloc, rest, &mut lines)?;
    feed.end(alloc, &mut lines)?;
    Ok(lines)
}
