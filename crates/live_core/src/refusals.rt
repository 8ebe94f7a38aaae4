//! What a publication is answered that does not come in.

ghost use Rattle.std.specs.Prelude.{◌≡◌};
ghost use Rattle.overlay_set.specs.Events.{reply_of};
ghost use Rattle.set_events.specs.Causes.{refusal_for};

use overlay_set::Reply;
use set_events::Cause;

/// What is answered for a cause, by a set whose history has so many publications.
pub fn reply_for(front: u32, cause: Cause) -> Reply
    ensures { reply_of result ≡ refusal_for front cause }
{
    match cause {
        Cause::Late { last } => Reply::Late { front, last },
        Cause::HistoryFull => Reply::HistoryFull { front },
        Cause::FilesFull => Reply::FilesFull { front },
    }
}
