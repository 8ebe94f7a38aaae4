//! Tables of texts.

use std::alloc::Global;
use text_table::{TextTable, Texts};
use vector_rows::{Answer, Fields, RowError};

/// Answers a row about tables of texts, if it is one.
pub fn answer(
    alloc: Global,
    verb: &str,
    fields: &mut Fields<'_>,
    out: &mut Answer,
) -> Result<bool, RowError> {
    match verb {
        "texts" => texts(alloc, fields, out)?,
        _ => return Ok(false),
    }
    Ok(true)
}

/// How many texts a table has, where it finds one, its bytes, and each text as it is read of these.
fn texts(alloc: Global, fields: &mut Fields<'_>, out: &mut Answer) -> Result<(), RowError> {
    let wanted = fields.word()?;
    let table = table(alloc, fields)?;
    let mut bytes = Vec::new(alloc);
    table.write(&mut bytes)?;
    let texts = Texts::new(&bytes, 0, bytes.len());
    out.number(table.len() as u64)?;
    out.number_or_none(table.find(wanted))?;
    out.hexadecimal(&bytes)?;
    for index in 0..table.len() + 1 {
        match texts.get(index as u64) {
            Some(text) => out.quoted(text.as_bytes())?,
            None => out.word("none")?,
        }
    }
    Ok(())
}

/// The table of the texts that are left in the row.
fn table(alloc: Global, fields: &mut Fields<'_>) -> Result<TextTable, RowError> {
    let mut table = TextTable::new(alloc);
    for _ in 0..fields.count() {
        let text = fields.word()?;
        if text.is_empty() {
            return Err(RowError::BadRow);
        }
        table.add(text)?;
    }
    Ok(table)
}
