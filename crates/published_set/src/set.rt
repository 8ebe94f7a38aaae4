//! The set.

ghost use Rattle.std.specs.Prelude.{◌≡◌, ◌↔◌, ◌+◌, ◌≤◌, false, true, IfOk, IsTrue, MatchOption, MatchResult, None, OnErr, Some, length, map, slice_range};
ghost use Rattle.std.specs.Arc.{arc_value};
ghost use Rattle.std.specs.List.{AllByRecursion};
ghost use Rattle.live_model.specs.Objects.{IsGoodLine};
ghost use Rattle.overlay_set.specs.Sets.{age, base_image, greatest, images_of, last_in, numbers_of, opening, stamps_of};
ghost use Rattle.overlay_set.specs.Swaps.{Add, Fits, Replace, Takes, applied, fold_image, missing};
ghost use Rattle.overlay_set.specs.Machines.{with_fold};
ghost use Rattle.overlay_set.specs.Periods.{foldable, shape, shrinkable};
ghost use Rattle.overlay_set.specs.Loose.{loose_period};
ghost use Rattle.published_set.specs.Images.{image_of};
ghost use Rattle.published_set.specs.Ops.{absorbed, has_number_left, has_room, swap_of, with_file};
ghost use Rattle.published_set.specs.Sets.{IsFoundAt, IsLoosePeriod, IsStanding, entry_of, images_in, rules_of};

use crate::copies::{copy_history, copy_images, copy_numbers, images_between, numbers_between};
use crate::entry::Published;
use crate::errors::Missing;
use crate::ops::SetOp;
use crate::periods::first_loose;
use crate::plan::{FoldPlan, FoldWork};
use crate::runs::{before_run, first_missing, put_in_place};
use live_model::{Level, Lines, Mem};
use obf_reader::Image;
use stamp_core::Stamp;
use std::alloc::Global;
use std::marker::Model;
use std::sync::Arc;

/// The most publications of a set.
const MOST_ENTRIES: usize = 65_536;

/// The most files of a set.
const MOST_FILES: usize = 1_024;

/// A set of map files over a history of publications, which share their images and lines with other sets. It is seen as its base
/// lines, its history and its files, each under its number. It has room for 65,536 publications and 1,024 files.
#[derive(Drop)]
pub struct OverlaySet {
    base_lines: Arc<Lines>,
    history: Vec<Published>,
    numbers: Vec<u64>,
    images: Vec<Arc<Image>>,
}

impl Model for OverlaySet {
    ghost use Rattle.std.specs.Prelude.{◌≡◌, ◌≤◌, length, map};
    ghost use Rattle.std.specs.Arc.{arc_value};
    ghost use Rattle.std.specs.Vec.{vec_capacity};
    ghost use Rattle.published_set.specs.Sets.{PublishedSet, entry_of, files_of, images_in};

    ghost Value = { PublishedSet };

    ghost view = { λ s. record { base = arc_value s.base_lines; state = record { history = map entry_of s.history.items; files = files_of s.numbers.items (images_in (map arc_value s.images.items)) } } };

    ghost invariant = { λ s. (length s.numbers.items ≡ length s.images.items) × (65536 ≤ vec_capacity s.history) × (1024 ≤ vec_capacity s.numbers) × (1024 ≤ vec_capacity s.images) × (length s.history.items ≤ 65536) × (length s.numbers.items ≤ 1024) };
}

impl OverlaySet {
    /// The set of a base alone, under the number 0, with the lines that the base was made of. It takes room for 65,536 publications
    /// and 1,024 files; `NoMemory` where that was refused. The lines have to be good.
    pub fn new(alloc: Global, base_lines: Arc<Lines>, base: Arc<Image>) -> Mem<OverlaySet>
        requires image { image_of (arc_value base) ≡ base_image (arc_value base).rules (arc_value base_lines) }
        requires good { AllByRecursion IsGoodLine (arc_value base_lines) }
        ensures set { IfOk result (λ set. set ≡ record { base = arc_value base_lines; state = opening (arc_value base).rules (arc_value base_lines) }) }
        ensures standing { IfOk result IsStanding }
    {
        let history = Vec::with_capacity(alloc, MOST_ENTRIES)?;
        let mut numbers = Vec::with_capacity(alloc, MOST_FILES)?;
        let mut images = Vec::with_capacity(alloc, MOST_FILES)?;
        numbers.push_reserved(0);
        images.push_reserved(base);
        Ok(OverlaySet {
            base_lines,
            history,
            numbers,
            images,
        })
    }

    /// Adds a publication and the hour file of its overlay, which gets the number above the greatest of the set. There has to be
    /// room for both, the lines have to be good, the hour has to be later than the last one, and the image has to be that of the
    /// overlay of the lines after the history, with the rules of the set. It takes no memory.
    pub fn add(&mut self, published: Published, image: Arc<Image>)
        requires standing { IsStanding self.old }
        requires room { IsTrue (has_room self.old.state) }
        requires good { AllByRecursion IsGoodLine (entry_of published).lines }
        requires takes { Takes (rules_of self.old) self.old.base self.old.state (Add (entry_of published) (image_of (arc_value image))) }
        ensures set { self.new ≡ record { base = self.old.base; state = applied self.old.state (Add (entry_of published) (image_of (arc_value image))) } }
        ensures standing { IsStanding self.new }
    {
        let number = self.next_number();
        self.append(number, published, image);
    }

    /// Puts a fold in the place of the files of its plan, under the number above the greatest of the set. The plan has to fit: it was
    /// made from this set as it is or as it was before. It takes no memory.
    ///
    /// `Missing` exactly where a file of the plan is not in the set any more, with the first such number; the set stays as it was,
    /// and the fold is dropped.
    pub fn replace(&mut self, work: FoldWork) -> Result<(), Missing>
        requires standing { IsStanding self.old }
        requires fits { Fits work self.old.state }
        ensures cause { MatchResult result (λ _. missing work self.old.state ≡ None) (λ e. missing work self.old.state ≡ Some e.file) }
        ensures set { IfOk result (λ _. self.new ≡ record { base = self.old.base; state = with_fold work self.old.state }) }
        ensures stays { OnErr result (self.new ≡ self.old) }
        ensures standing { IsStanding self.new }
    {
        match self.missing(&work) {
            Some(file) => Err(Missing { file }),
            None => {
                let number = self.next_number();
                let (plan, image) = work.into_parts();
                self.put_fold(number, plan.numbers(), image);
                Ok(())
            }
        }
    }

    /// The number of the first file of a plan that is not in the set any more, if there is one. It takes no memory.
    pub fn missing(&self, work: &FoldWork) -> Option<u64>
        ensures { result ≡ missing work.now self.now.state }
    {
        first_missing(work.numbers(), self.numbers.as_slice())
    }

    /// Takes in an operation, whatever it is, with further owners of what it holds: does what `add` and `replace` do, and
    /// changes nothing where there is no room for a publication, where the files of a plan do not stand one after another, where
    /// the set has no files, or where its greatest number is the last of its type.
    ///
    /// `NoMemory` where a further owner was refused; the set stays as it was.
    pub fn apply(&mut self, op: &SetOp) -> Mem<()>
        ensures set { IfOk result (λ _. self.new ≡ record { base = self.old.base; state = absorbed self.old.state (swap_of op.now) }) }
        ensures stays { OnErr result (self.new ≡ self.old) }
    {
        match op {
            SetOp::Add { published, image } => self.absorb_publication(published, image),
            SetOp::Replace { work } => self.absorb_fold(work),
        }
    }

    /// Whether there is room for one more publication and its file.
    pub fn has_room(&self) -> bool
        ensures { result ≡ has_room self.now.state }
    {
        self.history.len() < MOST_ENTRIES && self.numbers.len() < MOST_FILES
    }

    /// The publications, in the order of their hours, 65,536 at most.
    pub fn history(&self) -> &[Published]
        ensures entries { map entry_of result.now ≡ self.now.state.history }
        ensures most { length result.now ≤ 65536 }
    {
        self.history.as_slice()
    }

    /// The numbers of the files, in their order, 1,024 at most. In a set that stands none is above 262,144.
    #[tactic(auto, using(crate::proofs::Files::numbers_are))]
    pub fn numbers(&self) -> &[u64]
        ensures numbers { result.now ≡ numbers_of self.now.state.files }
        ensures most { length result.now ≤ 1024 }
        ensures small { IsStanding self.now → age self.now.state ≤ 262144 }
    {
        self.numbers.as_slice()
    }

    /// The images of the files, in their order: the base, and what lies over it.
    #[tactic(auto, using(crate::proofs::Files::images_are))]
    pub fn images(&self) -> &[Arc<Image>]
        ensures { images_in (map arc_value result.now) ≡ images_of self.now.state.files }
    {
        self.images.as_slice()
    }

    /// The first day or month that is to be folded: a closed month that is not exactly one month file, or a closed day of the last
    /// month that is not exactly one day file. The index of the first of its files, the index after the last one, and the level.
    /// `None` exactly where there is none. It takes no memory.
    pub fn foldable(&self) -> Option<(usize, usize, Level)>
        requires { IsStanding self.now }
        ensures { MatchOption result (foldable self.now.state ≡ None) (λ r. IsFoundAt (foldable self.now.state) self.now.state.files r.0 r.1 r.2) }
    {
        self.first_loose(true)
    }

    /// The first such day or month with two or more files. `None` exactly where there is none. It takes no memory.
    pub fn shrinkable(&self) -> Option<(usize, usize, Level)>
        requires { IsStanding self.now }
        ensures { MatchOption result (shrinkable self.now.state ≡ None) (λ r. IsFoundAt (shrinkable self.now.state) self.now.state.files r.0 r.1 r.2) }
    {
        self.first_loose(false)
    }

    /// Whether nothing is to be folded: exactly where the files have the shape that the history has in the end, which is the base, a
    /// file for each closed month and for each closed day of the last month, and an hour file for each publication of the last day.
    /// It takes no memory.
    pub fn shape_is_settled(&self) -> bool
        requires { IsStanding self.now }
        ensures foldable { IsTrue result ↔ (foldable self.now.state ≡ None) }
        ensures shape { IsTrue result ↔ (images_of self.now.state.files ≡ shape (rules_of self.now) self.now.base self.now.state.history) }
    {
        self.foldable().is_none()
    }

    /// The plan to fold the files from an index up to another into one of this level: those of the day or month that is first to be
    /// folded, or of the first that can be shrunk. `NoMemory` where memory was refused.
    pub fn plan(&self, alloc: Global, from: usize, to: usize, level: Level) -> Mem<FoldPlan>
        requires standing { IsStanding self.now }
        requires found { IsLoosePeriod self.now.state from to level }
        ensures plan { IfOk result (λ plan. plan ≡ record { files = slice_range self.now.state.files from to; level = level }) }
        ensures fits { IfOk result (λ plan. Fits plan self.now.state) }
    {
        let numbers = numbers_between(alloc, self.numbers.as_slice(), from, to)?;
        let images = images_between(alloc, self.images.as_slice(), from, to)?;
        Ok(FoldPlan::of(numbers, images, level))
    }

    /// The same set, with further owners of its lines and images, and with the same room. `NoMemory` where memory was refused.
    pub fn copy(&self, alloc: Global) -> Mem<OverlaySet>
        ensures { IfOk result (λ copied. copied ≡ self.now) }
    {
        let base_lines = Arc::try_clone(&self.base_lines)?;
        let history = copy_history(alloc, self.history.as_slice(), MOST_ENTRIES)?;
        let numbers = copy_numbers(alloc, self.numbers.as_slice(), MOST_FILES)?;
        let images = copy_images(alloc, self.images.as_slice(), MOST_FILES)?;
        Ok(OverlaySet {
            base_lines,
            history,
            numbers,
            images,
        })
    }

    fn absorb_publication(&mut self, published: &Published, image: &Arc<Image>) -> Mem<()>
        ensures set { IfOk result (λ _. self.new ≡ record { base = self.old.base; state = absorbed self.old.state (Add (entry_of published.now) (image_of (arc_value image.now))) }) }
        ensures stays { OnErr result (self.new ≡ self.old) }
    {
        let Some(number) = self.number_left() else {
            return Ok(());
        };
        if !self.has_room() {
            return Ok(());
        }
        let further = published.copy()?;
        let image = Arc::try_clone(image)?;
        self.append(number, further, image);
        Ok(())
    }

    fn absorb_fold(&mut self, work: &FoldWork) -> Mem<()>
        ensures set { IfOk result (λ _. self.new ≡ record { base = self.old.base; state = absorbed self.old.state (Replace work.now (fold_image work.now.level (images_of work.now.files))) }) }
        ensures stays { OnErr result (self.new ≡ self.old) }
    {
        let Some(number) = self.number_left() else {
            return Ok(());
        };
        let image = work.shared_image()?;
        self.put_fold(number, work.numbers(), image);
        Ok(())
    }

    /// Appends a publication and its file under the number above the greatest.
    fn append(&mut self, number: u64, published: Published, image: Arc<Image>)
        requires number { number ≡ age self.old.state + 1 }
        requires room { IsTrue (has_room self.old.state) }
        ensures { self.new ≡ record { base = self.old.base; state = applied self.old.state (Add (entry_of published) (image_of (arc_value image))) } }
    {
        self.history.push_reserved(published);
        self.numbers.push_reserved(number);
        self.images.push_reserved(image);
    }

    /// Puts a file under the number above the greatest in the place of those with these names, where they stand one after another.
    fn put_fold(&mut self, number: u64, names: &[u64], image: Arc<Image>)
        requires { number ≡ age self.old.state + 1 }
        ensures { self.new ≡ record { base = self.old.base; state = with_file names.now (image_of (arc_value image)) self.old.state } }
    {
        let from = before_run(names, self.numbers.as_slice());
        if from < self.numbers.len() {
            put_in_place(&mut self.numbers, from, names.len(), number);
            put_in_place(&mut self.images, from, names.len(), image);
        }
    }

    /// The number above the greatest.
    fn next_number(&self) -> u64
        requires { IsStanding self.now }
        ensures { result ≡ age self.now.state + 1 }
    {
        greatest(self.numbers.as_slice()) + 1
    }

    /// The number above the greatest, where there are files and it is not above the last number of the type.
    fn number_left(&self) -> Option<u64>
        ensures { MatchOption result (has_number_left self.now.state ≡ false) (λ n. (has_number_left self.now.state ≡ true) × (n ≡ age self.now.state + 1)) }
    {
        if self.numbers.is_empty() {
            return None;
        }
        greatest(self.numbers.as_slice()).checked_add(1)
    }

    fn first_loose(&self, whole: bool) -> Option<(usize, usize, Level)>
        requires { IsStanding self.now }
        ensures { MatchOption result (loose_period whole self.now.state ≡ None) (λ r. IsFoundAt (loose_period whole self.now.state) self.now.state.files r.0 r.1 r.2) }
    {
        match last_hour(self.history.as_slice()) {
            None => None,
            Some(last) => first_loose(whole, &last, self.images.as_slice()),
        }
    }
}

/// The hour of the last publication.
fn last_hour(history: &[Published]) -> Option<Stamp>
    ensures { result ≡ last_in (stamps_of (map entry_of history.now)) }
{
    match history.last() {
        None => None,
        Some(last) => Some(last.stamp),
    }
}

/// The greatest of numbers, and 0 where there are none.
fn greatest(numbers: &[u64]) -> u64
    ensures { result ≡ greatest numbers.now }
{
    let mut found = 0;
    let mut rest = numbers;
    while let [number, after @ ..] = rest {
        if found < *number {
            found = *number;
        }
        rest = after;
    }
    found
}
