//! Days and months of a set, found from the heads of its files and the last hour.

ghost use Rattle.std.specs.Prelude.{◌≡◌, ◌≤◌, length, map, MatchOption, Some};
ghost use Rattle.std.specs.Arc.{arc_value};
ghost use Rattle.std.specs.List.{prefix_len};
ghost use Rattle.overlay_set.specs.Periods.{stretch, is_past};
ghost use Rattle.overlay_set.specs.Loose.{begins_in, before_loose, is_loose, is_loose_at, next_begins_in, period_before};
ghost use Rattle.published_set.specs.Sets.{heads_in, hour_at, IsLooseAt};

use live_model::Level;
use obf_reader::Image;
use stamp_core::{Head, Stamp};
use std::sync::Arc;

/// Where the files of the first day or month begin that is loose, the index after the last one, and its level: one that has two
/// files or more, or, where whole folds are wanted, that is not one file of its level. `None` exactly where there is none.
pub fn first_loose(
    whole: bool,
    last: &Stamp,
    images: &[Arc<Image>],
) -> Option<(usize, usize, Level)>
    ensures { MatchOption result (before_loose whole last.now (heads_in (map arc_value images.now)) ≡ length images.now) (λ r. IsLooseAt whole last.now (heads_in (map arc_value images.now)) r.0 r.1 r.2) }
{
    let from = before_loose(whole, last, images);
    match hour_at(images, from) {
        None => None,
        Some(hour) => {
            let level = level_before(last, &hour);
            let count = count_in(level, &hour, &images[from..]);
            Some((from, from + count, level))
        }
    }
}

/// The first hour of the file at an index.
fn hour_at(images: &[Arc<Image>], index: usize) -> Option<Stamp>
    ensures { result ≡ hour_at (heads_in (map arc_value images.now)) index }
{
    match images.get(index) {
        None => None,
        Some(image) => image.head().first,
    }
}

/// How many files stand before the first that is loose: one that has not its whole day or month for itself, or, where whole folds
/// are wanted, is not of the level of its day or month. As many as there are where none is loose.
fn before_loose(whole: bool, last: &Stamp, images: &[Arc<Image>]) -> usize
    ensures count { result ≡ before_loose whole last.now (heads_in (map arc_value images.now)) }
    ensures inside { result ≤ length images.now }
{
    let mut count = 0;
    let mut rest = images;
    while let [image, after @ ..] = rest {
        if is_loose(whole, last, image.head(), after) {
            return count;
        }
        count += 1;
        rest = after;
    }
    count
}

/// How many files, from the first on, begin in the same hour, day or month as this hour.
fn count_in(level: Level, hour: &Stamp, images: &[Arc<Image>]) -> usize
    ensures count { result ≡ prefix_len (begins_in (record { level = level; hour = hour.now })) (heads_in (map arc_value images.now)) }
    ensures inside { result ≤ length images.now }
{
    let mut count = 0;
    let mut rest = images;
    while let [image, after @ ..] = rest {
        if !begins_in(level, hour, image.head()) {
            return count;
        }
        count += 1;
        rest = after;
    }
    count
}

/// The level at which a publication of this hour is kept in the end, where the history ends with the other.
fn level_before(last: &Stamp, hour: &Stamp) -> Level
    ensures { result ≡ (period_before last.now hour.now).level }
{
    if is_past(Level::Month, hour, last) {
        return Level::Month;
    }
    if is_past(Level::Day, hour, last) {
        return Level::Day;
    }
    Level::Hour
}

fn is_loose(whole: bool, last: &Stamp, head: &Head, after: &[Arc<Image>]) -> bool
    ensures { result ≡ is_loose whole last.now head.now (heads_in (map arc_value after.now)) }
{
    match head.first {
        None => false,
        Some(hour) => is_loose_at(whole, last, &hour, head, after),
    }
}

fn is_loose_at(whole: bool, last: &Stamp, hour: &Stamp, head: &Head, after: &[Arc<Image>]) -> bool
    ensures { result ≡ is_loose_at whole last.now (Some hour.now) head.now (heads_in (map arc_value after.now)) }
{
    let level = level_before(last, hour);
    if level == Level::Hour {
        return false;
    }
    next_begins_in(level, hour, after) || whole && head.level != level
}

fn next_begins_in(level: Level, hour: &Stamp, after: &[Arc<Image>]) -> bool
    ensures { result ≡ next_begins_in (record { level = level; hour = hour.now }) (heads_in (map arc_value after.now)) }
{
    match after {
        [] => false,
        [image, ..] => begins_in(level, hour, image.head()),
    }
}

fn begins_in(level: Level, hour: &Stamp, head: &Head) -> bool
    ensures { result ≡ begins_in (record { level = level; hour = hour.now }) head.now }
{
    match head.first {
        None => false,
        Some(first) => stretch(level, hour) == stretch(level, &first),
    }
}

fn is_past(level: Level, a: &Stamp, b: &Stamp) -> bool
    ensures { result ≡ is_past level a.now b.now }
{
    stretch(level, a) < stretch(level, b)
}

/// The number of the hour, the day or the month in which an hour lies; a base is one stretch for all.
fn stretch(level: Level, hour: &Stamp) -> u64
    ensures { result ≡ stretch level hour.now }
{
    match level {
        Level::Base => 0,
        Level::Hour => hour.number(),
        Level::Day => hour.number() / 100,
        Level::Month => hour.number() / 10_000,
    }
}
