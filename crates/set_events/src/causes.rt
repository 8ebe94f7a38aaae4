//! Why a publication does not come in.

ghost use Rattle.std.specs.Prelude.{◌≡◌, ◌≤◌, length, nat_le, is_none, ◌&&◌, if◌then◌else◌, None, Some};
ghost use Rattle.std.specs.Option.{option_map};
ghost use Rattle.overlay_set.specs.Machines.{FilesFull, HistoryFull, is_full, late_after, limits_of_a_board, refused};
ghost use Rattle.overlay_set.specs.Periods.{shrinkable};
ghost use Rattle.overlay_set.specs.Sets.{last_in, stamps_of};
ghost use Rattle.published_set.specs.Sets.{IsStanding, rules_of};
ghost use Rattle.set_events.specs.Causes.{refusal_for};

use published_set::OverlaySet;
use stamp_core::Stamp;

/// The most publications of a set.
const MOST_ENTRIES: usize = 65_536;

/// The most files of a set.
const MOST_FILES: usize = 1_024;

/// Why a publication does not come in.
#[derive(Debug, Drop)]
pub enum Cause {
    /// The history ends at its hour or after it.
    Late {
        /// The hour of the last publication.
        last: Stamp,
    },
    /// The history has 65,536 publications.
    HistoryFull,
    /// There are 1,024 files, and nothing can be shrunk.
    FilesFull,
}

/// How many publications a set has, 65,536 at most.
pub fn front(set: &OverlaySet) -> u32
    ensures { result ≡ length set.now.state.history }
{
    set.history().len() as u32
}

/// Whether a set has as many files as it may have, 1,024.
pub fn is_full(set: &OverlaySet) -> bool
    ensures full { result ≡ is_full limits_of_a_board (rules_of set.now) set.now.base set.now.state }
    ensures most { length set.now.state.files ≤ 1024 }
{
    set.numbers().len() >= MOST_FILES
}

/// Why a publication of this hour does not come in, where it does not: the history ends at the hour or after it, or else it is full, or
/// else there is no room for a file and nothing can be shrunk. It takes no memory.
pub fn refusal(set: &OverlaySet, stamp: &Stamp) -> Option<Cause>
    requires { IsStanding set.now }
    ensures { option_map (refusal_for (length set.now.state.history)) result ≡ refused limits_of_a_board (rules_of set.now) set.now.base set.now.state stamp.now }
{
    match late(set, stamp) {
        Some(cause) => Some(cause),
        None => crowded(set),
    }
}

/// That the history ends at an hour or after it, where it does.
fn late(set: &OverlaySet, stamp: &Stamp) -> Option<Cause>
    ensures { option_map (refusal_for (length set.now.state.history)) result ≡ late_after (last_in (stamps_of set.now.state.history)) (length set.now.state.history) stamp.now }
{
    let last = last_hour(set)?;
    if stamp.number() <= last.number() {
        return Some(Cause::Late { last });
    }
    None
}

/// The hour of the last publication, if there is one.
pub fn last_hour(set: &OverlaySet) -> Option<Stamp>
    ensures { result ≡ last_in (stamps_of set.now.state.history) }
{
    match set.history().last() {
        None => None,
        Some(last) => Some(last.stamp),
    }
}

/// That there is no room for a publication, or for its file, where there is none.
fn crowded(set: &OverlaySet) -> Option<Cause>
    requires { IsStanding set.now }
    ensures { option_map (refusal_for (length set.now.state.history)) result ≡ (if nat_le 65536 (length set.now.state.history) then Some (HistoryFull (length set.now.state.history))
        else if is_full limits_of_a_board (rules_of set.now) set.now.base set.now.state && is_none (shrinkable set.now.state) then Some (FilesFull (length set.now.state.history)) else None) }
{
    if set.history().len() >= MOST_ENTRIES {
        return Some(Cause::HistoryFull);
    }
    if is_full(set) && set.shrinkable().is_none() {
        return Some(Cause::FilesFull);
    }
    None
}
