//! A machine over a small town, and its replies as plain values.

ghost use Rattle.std.specs.Prelude.{◌≡◌, IfOk, length};
ghost use Rattle.std.specs.Arc.{arc_value};
ghost use Rattle.std.specs.List.{AllByRecursion};
ghost use Rattle.live_model.specs.Objects.{IsGoodLine};
ghost use Rattle.overlay_set.specs.Events.{event_of};
ghost use Rattle.overlay_set.specs.MachineLaws.{IsGoodEvent};
ghost use Rattle.live_core.specs.Running.{IsNamed};

use live_core::Machine;
use live_model::{Level, Lines, List, Query, Rect};
use opl_reader::read_all;
use overlay_set::{Event, Reply};
use stamp_core::Stamp;
use std::alloc::Global;
use std::sync::Arc;
use std::test::Fail;
use tag_rules::Rules;

/// Nodes, and a street along two of them.
const TOWN: &str = "n2 Tamenity=cafe,name=Bo x13.1001 y52.4001
n3 x13.1 y52.4002
n4 x13.101 y52.4002
n5 x13.102 y52.4002
w20 Thighway=residential,name=Hof Nn3,n4,n5
";

/// What is made of it.
const RULES: &str = "point amenity cafe 15 poi.cafe
line highway residential 14 map
";

/// A reply, with the number of its rows in place of them.
#[derive(Clone, Copy, PartialEq, Eq, Debug)]
pub enum Reported {
    Accepted(u32),
    Late(u32, u64),
    HistoryFull(u32),
    FilesFull(u32),
    Rows(u32, usize),
    Planned(bool),
    Folded,
    Overtaken(u64),
    NothingPlanned,
    NotTaken,
    Done,
}

/// What passes and workers do, by their numbers.
#[derive(Clone, Copy)]
pub enum Act {
    /// Nothing new is published for an hour of 2024: its month, day and hour.
    Hour(u8, u8, u8),
    /// A pass moves the end of the street.
    Move(u8),
    /// A worker plans a fold.
    Plan(u8),
    /// A worker commits its fold.
    Commit(u8),
    /// What can be shrunk is folded.
    Shrink,
    /// A pass takes the present state.
    Take(u8),
    /// A pass asks what is shown where the street may go.
    Ask(u8),
    /// A pass gives back the state that it holds.
    GiveBack(u8),
    /// A pass lets another learn what it has seen.
    Tell(u8, u8),
}

/// A machine of two passes and two workers.
#[derive(Drop)]
pub struct Board {
    machine: Machine,
    ghost passes: { length machine.held ≡ 2 },
    ghost workers: { length machine.plans ≡ 2 },
}

impl Board {
    /// The machine of the town.
    pub fn town(alloc: Global) -> Result<Board, Fail> {
        let rules = Rules::read(alloc, RULES.as_bytes())?;
        let base = lines(alloc, TOWN)?;
        let machine = Machine::new(alloc, &rules, base, 2, 2)?;
        Ok(Board { machine })
    }

    /// Does what is listed, and puts what it is answered.
    pub fn play(
        &mut self,
        alloc: Global,
        acts: &[Act],
        answers: &mut Vec<Reported>,
    ) -> Result<(), Fail> {
        for act in acts {
            let answer = self.act(alloc, *act)?;
            answers.push(answer)?;
        }
        Ok(())
    }

    /// Does one thing.
    fn act(&mut self, alloc: Global, act: Act) -> Result<Reported, Fail> {
        match act {
            Act::Hour(month, day, hour) => self.publish(alloc, 0, (month, day, hour), ""),
            Act::Move(pass) => self.publish(alloc, pass, (2, 29, 23), "n4 v2 x13.5 y52.6\n"),
            Act::Plan(worker) => self.step(alloc, &Event::Plan { worker: worker % 2 }),
            Act::Commit(worker) => self.step(alloc, &Event::Commit { worker: worker % 2 }),
            Act::Shrink => self.step(alloc, &Event::Shrink),
            Act::Take(pass) => self.step(alloc, &Event::Take { pass: pass % 2 }),
            Act::Ask(pass) => self.ask(alloc, pass),
            Act::GiveBack(pass) => self.step(alloc, &Event::Drop { pass: pass % 2 }),
            Act::Tell(from, to) => self.tell(alloc, from, to),
        }
    }

    /// Publishes the lines of a text for an hour of 2024: its month, day and hour.
    fn publish(
        &mut self,
        alloc: Global,
        pass: u8,
        hour: (u8, u8, u8),
        text: &str,
    ) -> Result<Reported, Fail> {
        let stamp = Stamp::new(2024, hour.0, hour.1, hour.2)?;
        let event = Event::Publish {
            pass: pass % 2,
            stamp,
            tag: 7,
            lines: lines(alloc, text)?,
        };
        self.step(alloc, &event)
    }

    /// Asks what is shown where the street may go.
    fn ask(&mut self, alloc: Global, pass: u8) -> Result<Reported, Fail> {
        let event = Event::Ask {
            pass: pass % 2,
            query: Query::View {
                rect: far(),
                zoom: 15,
            },
        };
        self.step(alloc, &event)
    }

    /// Lets one pass learn what another has seen.
    fn tell(&mut self, alloc: Global, from: u8, to: u8) -> Result<Reported, Fail> {
        let event = Event::Tell {
            from: from % 2,
            to: to % 2,
        };
        self.step(alloc, &event)
    }

    /// The levels of the files.
    pub fn has_levels(&self, levels: &[Level]) -> bool {
        let mut left = levels;
        for image in self.machine.set().images() {
            let Some((level, after)) = left.split_first() else {
                return false;
            };
            if image.head().level != *level {
                return false;
            }
            left = after;
        }
        left.is_empty()
    }

    /// What an event is answered, whose pass or worker is there.
    fn step(&mut self, alloc: Global, event: &Event) -> Result<Reported, Fail>
        requires named { IsNamed self.old.machine (event_of event.now) }
        requires good { IsGoodEvent (event_of event.now) }
    {
        let reply = self.machine.step(alloc, event)?;
        Ok(plain(&reply))
    }
}

/// A rectangle where nothing of the town is.
fn far() -> Rect {
    Rect {
        left: 1_934_900_000,
        top: 373_900_000,
        right: 1_935_100_000,
        bottom: 374_100_000,
    }
}

/// The lines of a text.
fn lines(alloc: Global, text: &str) -> Result<Arc<Lines>, Fail>
    ensures { IfOk result (λ lines. AllByRecursion IsGoodLine (arc_value lines)) }
{
    let lines = List::from_vec(read_all(alloc, text.as_bytes())?);
    let shared = Arc::new(alloc, lines)?;
    Ok(shared)
}

/// A reply as a plain value.
fn plain(reply: &Reply) -> Reported {
    match reply {
        Reply::Accepted { front } => Reported::Accepted(*front),
        Reply::Late { front, last } => Reported::Late(*front, last.number()),
        Reply::HistoryFull { front } => Reported::HistoryFull(*front),
        Reply::FilesFull { front } => Reported::FilesFull(*front),
        Reply::Rows { front, rows } => Reported::Rows(*front, rows.len()),
        Reply::Planned(found) => Reported::Planned(*found),
        Reply::Folded => Reported::Folded,
        Reply::Overtaken { file } => Reported::Overtaken(*file),
        Reply::NothingPlanned => Reported::NothingPlanned,
        Reply::NotTaken => Reported::NotTaken,
        Reply::Done => Reported::Done,
    }
}
