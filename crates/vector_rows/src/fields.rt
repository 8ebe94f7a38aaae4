//! The fields of a row.

use crate::spelled::{bytes_of, hexadecimal_of};
use live_model::{Kind, ObjId};
use owned_data::NoMemory;
use std::alloc::Global;
use text_pieces::read_id;

/// Why a row has no answer.
#[derive(Clone, Copy, Debug, Drop, PartialEq, Eq)]
pub enum RowError {
    /// Memory was refused.
    NoMemory,
    /// The row is not of the form of its verb.
    BadRow,
}

impl From<NoMemory> for RowError {
    fn from(_: NoMemory) -> RowError {
        RowError::NoMemory
    }
}

/// Whether a line asks nothing: it is blank, or begins with `#`.
pub fn is_remark(line: &str) -> bool {
    line.is_empty() || line.as_bytes().first() == Some(&b'#')
}

/// The fields of a row that are left.
#[derive(Clone, Copy)]
pub struct Fields<'a> {
    rest: Option<&'a str>,
}

impl<'a> Fields<'a> {
    /// All fields of a row; the first is its verb.
    pub fn new(row: &'a str) -> Fields<'a> {
        Fields { rest: Some(row) }
    }

    /// How many fields are left.
    pub fn count(&self) -> usize {
        match self.rest {
            Some(rest) => rest.split('|').count(),
            None => 0,
        }
    }

    /// The next field as it stands.
    pub fn word(&mut self) -> Result<&'a str, RowError> {
        let Some(rest) = self.rest else {
            return Err(RowError::BadRow);
        };
        match rest.split_once('|') {
            Some((field, after)) => {
                self.rest = Some(after);
                Ok(field)
            }
            None => {
                self.rest = None;
                Ok(rest)
            }
        }
    }

    /// The next field as a number.
    pub fn number(&mut self) -> Result<u64, RowError> {
        match self.word()?.parse::<u64>() {
            Ok(number) => Ok(number),
            Err(_) => Err(RowError::BadRow),
        }
    }

    /// The next field as a number that may be below zero.
    pub fn signed(&mut self) -> Result<i64, RowError> {
        match self.word()?.parse::<i64>() {
            Ok(number) => Ok(number),
            Err(_) => Err(RowError::BadRow),
        }
    }

    /// The bytes that the next field spells: each character stands for itself, but for `\n`, `\r`, `\t`, `\\` and `\xHH`.
    pub fn bytes(&mut self, alloc: Global) -> Result<Vec<u8>, RowError> {
        bytes_of(alloc, self.word()?)
    }

    /// The bytes of the next field, which has two hexadecimal digits for each.
    pub fn hexadecimal(&mut self, alloc: Global) -> Result<Vec<u8>, RowError> {
        hexadecimal_of(alloc, self.word()?)
    }

    /// The object that the next field names: `n`, `w` or `r` and its number.
    pub fn id(&mut self) -> Result<ObjId, RowError> {
        id_of(self.word()?).ok_or(RowError::BadRow)
    }
}

fn id_of(word: &str) -> Option<ObjId> {
    let (kind, digits) = match word.as_bytes() {
        [b'n', digits @ ..] => (Kind::Node, digits),
        [b'w', digits @ ..] => (Kind::Way, digits),
        [b'r', digits @ ..] => (Kind::Relation, digits),
        _ => return None,
    };
    ObjId::new(kind, read_id(digits)?)
}
