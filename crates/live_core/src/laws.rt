//! What passes have seen.

ghost use Rattle.live_core.specs.Running.{SeenEventsLaw, SeenLaw};

/// That what passes have seen steers no reply, and nothing of what runs: whatever they have seen, after an event and after every list
/// of events the same runs, and the replies are the same. There is nothing to run.
pub fn seen_steers_nothing()
    ensures event { SeenLaw }
    ensures events { SeenEventsLaw }
{}
