//! Civil hours and the heads of files.

use stamp_core::{Head, Level, Stamp};
use vector_rows::{Answer, Fields, RowError};

/// Answers a row about hours, if it is one.
pub fn answer(verb: &str, fields: &mut Fields<'_>, out: &mut Answer) -> Result<bool, RowError> {
    match verb {
        "civil" => civil(fields, out)?,
        "hour" => put_hour(&Stamp::parse(fields.word()?), out)?,
        "hour_number" => put_hour(&Stamp::from_number(fields.number()?), out)?,
        "next_hour" => put_text(&hour(fields)?.next_hour(), out)?,
        "hours" => compared(fields, out)?,
        "head" => head(fields, out)?,
        "levels" => levels(fields, out)?,
        _ => return Ok(false),
    }
    Ok(true)
}

/// The hour that the next field spells.
fn hour(fields: &mut Fields<'_>) -> Result<Stamp, RowError> {
    Stamp::parse(fields.word()?).ok_or(RowError::BadRow)
}

/// The hour that the next field spells, or none for `-`.
fn hour_or_none(fields: &mut Fields<'_>) -> Result<Option<Stamp>, RowError> {
    match fields.word()? {
        "-" => Ok(None),
        text => Ok(Some(Stamp::parse(text).ok_or(RowError::BadRow)?)),
    }
}

/// Puts the text of an hour, or `none`.
fn put_text(hour: &Option<Stamp>, out: &mut Answer) -> Result<(), RowError> {
    match hour {
        Some(hour) => put_stamp(hour, out),
        None => {
            out.word("none")?;
            Ok(())
        }
    }
}

fn put_stamp(hour: &Stamp, out: &mut Answer) -> Result<(), RowError> {
    let text = hour.text();
    match str::from_utf8(&text) {
        Ok(text) => out.word(text)?,
        Err(_) => out.hexadecimal(&text)?,
    }
    Ok(())
}

/// Puts the text of an hour, its number and its parts, or `none`.
fn put_hour(hour: &Option<Stamp>, out: &mut Answer) -> Result<(), RowError> {
    let Some(hour) = hour else {
        out.word("none")?;
        return Ok(());
    };
    put_stamp(hour, out)?;
    out.number(hour.number())?;
    out.number(u64::from(hour.year()))?;
    out.number(u64::from(hour.month()))?;
    out.number(u64::from(hour.day()))?;
    out.number(u64::from(hour.hour()))?;
    Ok(())
}

/// The hour of a year, a month, a day and an hour.
fn civil(fields: &mut Fields<'_>, out: &mut Answer) -> Result<(), RowError> {
    let year = small(fields)?;
    let month = (small(fields)? % 256) as u8;
    let day = (small(fields)? % 256) as u8;
    let hour = (small(fields)? % 256) as u8;
    match Stamp::new(year, month, day, hour) {
        Ok(stamp) => put_stamp(&stamp, out),
        Err(_) => put_text(&None, out),
    }
}

/// The next field as a number of 16 bits.
fn small(fields: &mut Fields<'_>) -> Result<u16, RowError> {
    match fields.word()?.parse::<u16>() {
        Ok(number) => Ok(number),
        Err(_) => Err(RowError::BadRow),
    }
}

/// Whether the first of two hours is before the other, and whether they lie in one month and in one day.
fn compared(fields: &mut Fields<'_>, out: &mut Answer) -> Result<(), RowError> {
    let one = hour(fields)?;
    let other = hour(fields)?;
    out.agreed(one.is_before(&other), one < other)?;
    out.yes_or_no(one.same_month(&other))?;
    out.yes_or_no(one.same_day(&other))?;
    Ok(())
}

/// Whether a head of a level's number, a first and a last hour is good.
fn head(fields: &mut Fields<'_>, out: &mut Answer) -> Result<(), RowError> {
    let Some(level) = Level::from_number(fields.number()?) else {
        out.word("no level")?;
        return Ok(());
    };
    let first = hour_or_none(fields)?;
    let last = hour_or_none(fields)?;
    let head = Head { level, first, last };
    out.number(level.number())?;
    out.word(if head.is_good() { "good" } else { "bad" })?;
    Ok(())
}

/// Whether the level of a number comes before that of another.
fn levels(fields: &mut Fields<'_>, out: &mut Answer) -> Result<(), RowError> {
    let one = Level::from_number(fields.number()?).ok_or(RowError::BadRow)?;
    let other = Level::from_number(fields.number()?).ok_or(RowError::BadRow)?;
    out.yes_or_no(one < other)?;
    Ok(())
}
