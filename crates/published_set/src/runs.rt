//! Runs of numbers among the numbers of a set, and one item in the place of a run.

ghost use Rattle.std.specs.Prelude.{◌≡◌, ◌+◌, ◌≤◌, ◌++◌, ◌∷◌, drop, length, take};
ghost use Rattle.std.specs.Vec.{vec_capacity};
ghost use Rattle.published_set.specs.Runs.{before_run, begins_run, first_missing};

/// The first of these names that is none of the numbers.
pub fn first_missing(names: &[u64], numbers: &[u64]) -> Option<u64>
    ensures { result ≡ first_missing names.now numbers.now }
{
    let mut rest = names;
    while let [name, after @ ..] = rest {
        if !numbers.contains(name) {
            return Some(*name);
        }
        rest = after;
    }
    None
}

/// How many numbers stand before the first run of these names; as many as there are where there is none.
pub fn before_run(names: &[u64], numbers: &[u64]) -> usize
    ensures count { result ≡ before_run names.now numbers.now }
    ensures inside { result ≤ length numbers.now }
{
    let mut count = 0;
    let mut rest = numbers;
    while let [_, after @ ..] = rest {
        if begins_run(names, rest) {
            return count;
        }
        count += 1;
        rest = after;
    }
    count
}

/// Whether the numbers begin with these names, of which there is one at least.
fn begins_run(names: &[u64], numbers: &[u64]) -> bool
    ensures { result ≡ begins_run names.now numbers.now }
{
    match names {
        [] => false,
        names => numbers.starts_with(names),
    }
}

/// Puts an item in the place of so many, one at least, that stand from an index on. It takes no memory.
pub fn put_in_place<T: Drop>(items: &mut Vec<T>, from: usize, count: usize, item: T)
    requires some { 1 ≤ count }
    requires inside { from + count ≤ length items.old.items }
    ensures items { items.new.items ≡ take from items.old.items ++ item ∷ drop (from + count) items.old.items }
    ensures capacity { vec_capacity items.new ≡ vec_capacity items.old }
{
    items[from] = item;
    drop(items.drain(from + 1..from + count));
}
