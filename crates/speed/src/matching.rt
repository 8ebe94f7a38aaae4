//! Which rules of a table match an object.
//!
//! Each rule is for points and has a key of its own; the object has the keys of the first rules and of none.

ghost use Rattle.std.specs.Prelude.{◌<◌};

use crate::Work;
use live_model::{List, Mem, Shape, Tag, Text};
use std::alloc::Global;
use tag_rules::Rules;

/// A table with this many rules.
fn table_text(alloc: Global, rules: u32) -> Mem<Vec<u8>> {
    let mut text = Vec::new(alloc);
    for number in 0..rules {
        let line = format!(in alloc; "point key{number} * 10 map\n")?;
        text.extend_from_slice(line.as_str().as_bytes())?;
    }
    Ok(text)
}

/// Tags of which every hundredth has the key of a rule.
fn tags(alloc: Global, count: u32) -> Mem<List<Tag>> {
    let mut tags = List::new(alloc);
    for number in 0..count {
        let key = if number % 100 == 0 {
            format!(in alloc; "key{number}")?
        } else {
            format!(in alloc; "other{number}")?
        };
        tags.push(Tag {
            key: Text::from_string(key),
            value: Text::copied(alloc, "yes")?,
        })?;
    }
    Ok(tags)
}

/// How many rules match, found one after another.
fn count_matching(rules: &Rules, tags: &List<Tag>) -> u64 {
    let mut count = 0;
    let mut from = 0;
    while from < 100_000 {
        match rules.matching(Shape::Point, tags, from) {
            None => return count,
            Some(place) => {
                count = count_on(count);
                from = after(place, from);
            }
        }
    }
    count
}

fn count_on(count: u64) -> u64 {
    count.wrapping_add(1)
}

/// Behind a place, and always further than before.
fn after(place: u32, from: u32) -> u32
    requires { from < 100000 }
    ensures { from < result }
{
    if place >= from && place < 100_000 {
        place + 1
    } else {
        100_000
    }
}

/// Reads a table of so many rules, and asks so often which match an object of so many tags.
pub fn work(alloc: Global, rules: u32, tag_count: u32, asks: u32) -> Mem<Work> {
    let text = table_text(alloc, rules)?;
    let Ok(table) = Rules::read(alloc, text.as_slice()) else {
        return Ok(crate::NOTHING);
    };
    let tags = tags(alloc, tag_count)?;
    let mut found: u64 = 0;
    for _ in 0..asks {
        found = found.wrapping_add(count_matching(&table, &tags));
    }
    Ok(Work {
        count: table.text().len() as u64,
        sum: found,
    })
}
