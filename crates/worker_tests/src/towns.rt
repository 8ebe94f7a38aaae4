//! Sets of a town with nothing new for some hours.

ghost use Rattle.std.specs.Prelude.{◌≡◌, IfOk, length};
ghost use Rattle.std.specs.Arc.{arc_value};
ghost use Rattle.std.specs.List.{AllByRecursion};
ghost use Rattle.live_model.specs.Objects.{IsGoodLine};
ghost use Rattle.published_set.specs.Sets.{IsStanding};

use live_core::Machine;
use live_model::{Level, Lines, List};
use opl_reader::read_all;
use overlay_set::Event;
use published_set::OverlaySet;
use stamp_core::Stamp;
use std::alloc::Global;
use std::sync::Arc;
use std::test::Fail;
use tag_rules::Rules;

/// A cafe.
const TOWN: &str = "n2 Tamenity=cafe,name=Bo x13.1001 y52.4001\n";

/// What is made of it.
const RULES: &str = "point amenity cafe 15 poi.cafe\n";

/// An hour of 2024: its month, day and hour.
pub type MonthDayHour = (u8, u8, u8);

/// A machine of one pass.
#[derive(Drop)]
struct Town {
    machine: Machine,
    ghost passes: { length machine.held ≡ 1 },
}

impl Town {
    /// The machine of the town.
    fn new(alloc: Global) -> Result<Town, Fail> {
        let rules = Rules::read(alloc, RULES.as_bytes())?;
        let base = lines(alloc, TOWN)?;
        let machine = Machine::new(alloc, &rules, base, 1, 0)?;
        Ok(Town { machine })
    }

    /// Nothing new is published for an hour.
    fn publish(&mut self, alloc: Global, hour: MonthDayHour) -> Result<(), Fail> {
        let event = Event::Publish {
            pass: 0,
            stamp: Stamp::new(2024, hour.0, hour.1, hour.2)?,
            tag: 7,
            lines: lines(alloc, "")?,
        };
        self.machine.step(alloc, &event)?;
        Ok(())
    }

    /// A copy of its set.
    fn set(&self, alloc: Global) -> Result<OverlaySet, Fail>
        ensures { IfOk result IsStanding }
    {
        let set = self.machine.set().copy(alloc)?;
        Ok(set)
    }
}

/// The set of the town with nothing new for these hours.
pub fn set_of(alloc: Global, hours: &[MonthDayHour]) -> Result<OverlaySet, Fail>
    ensures { IfOk result IsStanding }
{
    let mut town = Town::new(alloc)?;
    for hour in hours {
        town.publish(alloc, *hour)?;
    }
    town.set(alloc)
}

/// Whether the files have these levels.
pub fn has_levels(set: &OverlaySet, levels: &[Level]) -> bool {
    let mut left = levels;
    for image in set.images() {
        let Some((level, after)) = left.split_first() else {
            return false;
        };
        if image.head().level != *level {
            return false;
        }
        left = after;
    }
    left.is_empty()
}

/// The lines of a text.
fn lines(alloc: Global, text: &str) -> Result<Arc<Lines>, Fail>
    ensures { IfOk result (λ lines. AllByRecursion IsGoodLine (arc_value lines)) }
{
    let lines = List::from_vec(read_all(alloc, text.as_bytes())?);
    let shared = Arc::new(alloc, lines)?;
    Ok(shared)
}
