//! Folds that are brought into a set.

ghost use Rattle.std.specs.Prelude.{◌≡◌, Some};
ghost use Rattle.overlay_set.specs.Events.{reply_of};
ghost use Rattle.overlay_set.specs.Machines.{commit, limits_of_a_board};
ghost use Rattle.overlay_set.specs.Swaps.{Fits};
ghost use Rattle.published_set.specs.Sets.{IsStanding, rules_of};

use overlay_set::Reply;
use published_set::{FoldWork, Missing, OverlaySet};

/// Brings a fold into a set, in the place of its files, unless one of these is there no more.
pub fn bring(set: &mut OverlaySet, work: FoldWork) -> Reply
    requires standing { IsStanding set.old }
    requires fits { Fits work set.old.state }
    ensures state { set.new.state ≡ (commit limits_of_a_board (rules_of set.old) set.old.base (Some work) set.old.state).0 }
    ensures reply { reply_of result ≡ (commit limits_of_a_board (rules_of set.old) set.old.base (Some work) set.old.state).1 }
    ensures base { set.new.base ≡ set.old.base }
    ensures rules { rules_of set.new ≡ rules_of set.old }
    ensures standing { IsStanding set.new }
{
    match set.replace(work) {
        Ok(()) => Reply::Folded,
        Err(Missing { file }) => Reply::Overtaken { file },
    }
}
