//! The answer of a row.

use owned_data::Mem;
use std::alloc::Global;

/// An answer: words with a space between them.
#[derive(Drop)]
pub struct Answer {
    alloc: Global,
    line: String,
}

impl Answer {
    /// The answer without words.
    pub fn new(alloc: Global) -> Answer {
        Answer {
            alloc,
            line: String::new(alloc),
        }
    }

    /// The line.
    pub fn line(&self) -> &str {
        self.line.as_str()
    }

    /// Puts a word as it stands.
    pub fn word(&mut self, word: &str) -> Mem<()> {
        if !self.line.as_str().is_empty() {
            self.line.push(' ')?;
        }
        self.line.push_str(word)?;
        Ok(())
    }

    /// Puts a number.
    pub fn number(&mut self, number: u64) -> Mem<()> {
        let text = format!(in self.alloc; "{number}")?;
        self.word(text.as_str())
    }

    /// Puts a number that may be below zero.
    pub fn signed(&mut self, number: i64) -> Mem<()> {
        let text = format!(in self.alloc; "{number}")?;
        self.word(text.as_str())
    }

    /// Puts a number, or `none`.
    pub fn number_or_none(&mut self, number: Option<u64>) -> Mem<()> {
        match number {
            Some(number) => self.number(number),
            None => self.word("none"),
        }
    }

    /// Puts a number that may be below zero, or `none`.
    pub fn signed_or_none(&mut self, number: Option<i64>) -> Mem<()> {
        match number {
            Some(number) => self.signed(number),
            None => self.word("none"),
        }
    }

    /// Puts `yes` or `no`.
    pub fn yes_or_no(&mut self, holds: bool) -> Mem<()> {
        self.word(if holds { "yes" } else { "no" })
    }

    /// Puts what two calls say of the same thing: `yes` or `no` where they agree.
    pub fn agreed(&mut self, one: bool, other: bool) -> Mem<()> {
        if one == other {
            self.yes_or_no(one)
        } else {
            self.word("the two differ")
        }
    }

    /// Puts a text between quotes, with `\n`, `\r` and `\t` for these three; bytes that are no text are put as hexadecimal digits.
    pub fn quoted(&mut self, bytes: &[u8]) -> Mem<()> {
        let Ok(text) = str::from_utf8(bytes) else {
            return self.hexadecimal(bytes);
        };
        self.word("\"")?;
        for character in text.chars() {
            self.put_character(character)?;
        }
        self.line.push('"')?;
        Ok(())
    }

    fn put_character(&mut self, character: char) -> Mem<()> {
        match character {
            '\n' => self.line.push_str("\\n")?,
            '\r' => self.line.push_str("\\r")?,
            '\t' => self.line.push_str("\\t")?,
            _ => self.line.push(character)?,
        }
        Ok(())
    }

    /// Puts two hexadecimal digits for each byte.
    pub fn hexadecimal(&mut self, bytes: &[u8]) -> Mem<()> {
        self.word("")?;
        for byte in bytes {
            self.line.push(digit(*byte / 16))?;
            self.line.push(digit(*byte))?;
        }
        Ok(())
    }
}

/// The hexadecimal digit of the last four bits.
fn digit(value: u8) -> char {
    match value % 16 {
        10 => 'A',
        11 => 'B',
        12 => 'C',
        13 => 'D',
        14 => 'E',
        15 => 'F',
        low => (b'0' + low) as char,
    }
}
