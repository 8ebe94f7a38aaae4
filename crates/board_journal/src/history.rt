//! The one journal of a board. It exists in contracts alone; the program keeps its length.

ghost use Rattle.std.specs.Prelude.{◌≡◌, ◌+◌, ◌==◌, ◌<◌, ◌≤◌, ◌^◌, ◌++◌, ◌∷◌, [], length, IfSome, MatchBool};
ghost use mathlib.Core.List.{IsPrefix};
ghost use Rattle.overlay_set.specs.Swaps.{IsLater};
ghost use Rattle.published_set.specs.Ops.{swap_of};
ghost use Rattle.board_journal.specs.Journals.{IsBoardJournal, MayCome, state_after};
ghost use Rattle.board_journal.specs.Rules.{head_of};

use crate::deed::Deed;
use logbook::{Gain, Offer, Plain, Play, Rule, Seen, Start, Word};
use published_set::SetOp;
use std::marker::{Brand, Model, PhantomData};
use std::sync::ledger::Ledger;

/// The rule of the journal.
pub struct Law;

impl Rule<Deed, u64> for Law {
    ghost use Rattle.std.specs.Prelude.{[]};
    ghost use base.Fml.{ftrue};
    ghost use Rattle.board_journal.specs.Rules.{IsKept};

    ghost holds = { λ cells log. IsKept cells log };

    ghost first = { [] };

    ghost hinted = { λ n log. Unit {0} };

    ghost shows = { λ log. [] };

    ghost keeps = { λ names log. ftrue };

    ghost moves = { λ ask before after answer. Unit {0} };
}

/// Whoever adds a swap trades nothing for it.
struct Nothing;

impl Gain<Deed, u64> for Nothing {
    ghost use base.Fml.{ftrue};

    ghost after = { λ names about answer. ftrue };
}

/// The step that adds a swap.
struct Add;

impl Play<Deed, u64> for Add {
    ghost use Rattle.board_journal.specs.Rules.{Adds};

    ghost then = { Adds };
}

impl Plain<SetOp, Deed, u64> for Add {
    ghost use Rattle.std.specs.Prelude.{None};
    ghost use Rattle.published_set.specs.Ops.{swap_of};

    ghost ask = { swap_of };

    ghost state = { λ op. None };
}

/// Which board it is: its book, and the rules and base lines that it opened with. Each call of a program picks them. It is a ledger too, of the
/// publications that were accepted.
pub trait BoardName: Ledger {
    ghost use Rattle.logbook.specs.Pages.{Book};
    ghost use Rattle.std.specs.Prelude.{List};
    ghost use Rattle.live_model.specs.declared.objects.Line.{Line};
    ghost use Rattle.live_model.specs.declared.rules.Rule.{Rule};

    ghost book: { Book };

    ghost rules: { List Rule };

    ghost base: { List Line };
}

impl BoardName for Brand {
    ghost use Rattle.std.specs.Prelude.{[]};
    ghost use Rattle.board_journal.specs.Rules.{no_book};

    ghost book = { no_book };

    ghost rules = { [] };

    ghost base = { [] };
}

/// An empty journal that is of no board yet.
pub struct Opened {
    head: Word<Deed, u64, Law>,
    seen: Seen<Deed, u64, Law>,
    pub ghost empty: { seen.log ≡ [] },
    pub ghost head_is: { head ≡ head_of seen.book },
}

impl Opened {
    /// An empty journal, in a book of its own.
    pub fn new() -> Opened {
        let (seen, mut first, _second) = Seen::open(Start::alone(), 0, 0);
        Opened {
            head: Word::tracked(0, &mut first),
            seen,
        }
    }

    /// The place for the first swap of a board with this book, and the front that has seen no swap. The base lines of the board have to be good.
    pub fn named<N: BoardName>(self) -> (Head<N>, Front<N>)
        requires book { self.seen.book ≡ N.book }
        requires journal { IsBoardJournal N.rules N.base [] }
        ensures { result.1 ≡ [] }
    {
        let Opened { head, seen } = self;
        (
            Head {
                word: head,
                of: PhantomData,
            },
            Front {
                len: 0,
                seen,
                of: PhantomData,
            },
        )
    }
}

/// The place of the next swap.
#[derive(Drop)]
pub struct Head<N: BoardName> {
    word: Word<Deed, u64, Law>,
    of: PhantomData<N>,
    ghost head_is: { word ≡ head_of N.book },
}

/// A beginning of the journal that was seen. It is seen as its swaps.
#[derive(Drop)]
pub struct Front<N: BoardName> {
    len: u64,
    seen: Seen<Deed, u64, Law>,
    of: PhantomData<N>,
}

impl<N: BoardName> Model for Front<N> {
    ghost use Rattle.std.specs.Prelude.{◌≡◌, List, length};
    ghost use Rattle.overlay_set.specs.Swaps.{Swap};
    ghost use Rattle.board_journal.specs.Journals.{IsBoardJournal};

    ghost Value = { List Swap };

    ghost view = { λ f. f.seen.log };

    ghost invariant = { λ f. (f.len ≡ length f.seen.log) × (f.seen.book ≡ N.book) × IsBoardJournal N.rules N.base f.seen.log };
}

impl<N: BoardName> Front<N> {
    /// How many swaps it has.
    pub fn len(&self) -> u64
        ensures length { result ≡ length self.now }
        ensures journal { IsBoardJournal N.rules N.base self.now }
    {
        self.len
    }

    /// The front of a journal that was seen in the book of the board.
    pub fn of(seen: &Seen<Deed, u64, Law>, len: u64) -> Front<N>
        requires book { seen.now.book ≡ N.book }
        requires length { len ≡ length seen.now.log }
        requires journal { IsBoardJournal N.rules N.base seen.now.log }
        ensures { result ≡ seen.now.log }
    {
        Front {
            len,
            seen: seen.again(),
            of: PhantomData,
        }
    }

    /// That the book of the board has come so far.
    pub fn seen(&self) -> Seen<Deed, u64, Law>
        ensures log { result.log ≡ self.now }
        ensures book { result.book ≡ N.book }
        ensures journal { IsBoardJournal N.rules N.base self.now }
    {
        self.seen.again()
    }

    /// The same front.
    pub fn again(&self) -> Front<N>
        ensures same { result ≡ self.now }
        ensures journal { IsBoardJournal N.rules N.base self.now }
    {
        Front {
            len: self.len,
            seen: self.seen.again(),
            of: PhantomData,
        }
    }

    /// That of two fronts the one that is no longer begins the other, whose state is the same or later. There is nothing to run.
    fn compare(&self, other: &Front<N>)
        ensures this { length self.now ≤ length other.now → IsPrefix self.now other.now }
        ensures that { length other.now ≤ length self.now → IsPrefix other.now self.now }
        ensures later { length self.now ≤ length other.now → IsLater (state_after N.rules N.base self.now) (state_after N.rules N.base other.now) }
        ensures earlier { length other.now ≤ length self.now → IsLater (state_after N.rules N.base other.now) (state_after N.rules N.base self.now) }
    {
        let mut both = self.seen.again();
        both.learn(&other.seen);
        let _ = &other.len;
    }

    /// Whether the other front is no shorter. Then it begins with this one, and its state is the same or later; else it is a beginning of this one.
    pub fn begins(&self, other: &Front<N>) -> bool
        ensures prefix { MatchBool result (IsPrefix self.now other.now) (IsPrefix other.now self.now) }
        ensures later { MatchBool result (IsLater (state_after N.rules N.base self.now) (state_after N.rules N.base other.now)) (IsLater (state_after N.rules N.base other.now) (state_after N.rules N.base self.now)) }
    {
        self.compare(other);
        self.len() <= other.len()
    }

    /// The front with one swap more, which may come after it. `None` where the journal has become longer.
    pub fn added(&self, head: &Head<N>, op: &SetOp) -> Option<Front<N>>
        requires room { length self.now < 2 ^ 62 }
        requires comes { MayCome N.rules N.base self.now (swap_of op.now) }
        ensures { IfSome result (λ f. f ≡ self.now ++ swap_of op.now ∷ []) }
    {
        let seen = pushed(head, self.seen.again(), self.len, op)?;
        Some(Front {
            len: self.len + 1,
            seen,
            of: PhantomData,
        })
    }
}

/// The journal with one swap more. `None` where it has become longer.
fn pushed<N: BoardName>(
    head: &Head<N>,
    mut seen: Seen<Deed, u64, Law>,
    len: u64,
    op: &SetOp,
) -> Option<Seen<Deed, u64, Law>>
    requires book { seen.book ≡ N.book }
    requires length { len ≡ length seen.log }
    requires room { len < 2 ^ 62 }
    ensures { IfSome result (λ s. (s.book ≡ N.book) × (s.log ≡ seen.log ++ swap_of op.now ∷ [])) }
{
    let mut offer: Offer<Deed, u64, Law, Nothing> = seen.plain::<Nothing, SetOp, Add>(op);
    let mut pen = seen.no_pen();
    let found = head
        .word
        .compare_exchange::<Add, Nothing>(len, len + 1, &mut seen, &mut offer, &mut pen);
    if found == len { Some(seen) } else { None }
}
