//! Tables of texts.

ghost use Rattle.std.specs.Prelude.{◌≡◌, ◌≢◌, ◌≤◌, ◌<◌, ◌++◌, [], length, slice_get, Some, Contains, insert, MatchOption, MatchResult, OnOk, OnErr};
ghost use Rattle.text_table.specs.Tables.{IsTable, text_cmp, with_text, text_field, table_bytes, AreTexts, IsGap, IsThere};

use obf_wire::Out;
use owned_data::{Mem, NoMemory, Text};
use std::alloc::Global;
use std::cmp::Ordering;
use std::marker::Model;

/// The number of the field that a text is.
const NUMBER: u64 = 1;

/// The wire type of a field with a payload behind its length.
const PAYLOAD: u8 = 2;

/// Texts, none of them empty, seen as their list, which rises strictly by bytes.
#[derive(Debug, Drop)]
pub struct TextTable {
    texts: Vec<Text>,
}

impl Model for TextTable {
    ghost use Rattle.std.specs.Prelude.{ℕ, List};
    ghost use Rattle.text_table.specs.Tables.{IsTable};

    ghost Value = { List (List ℕ) };

    ghost view = { λ t. t.texts.items };

    ghost invariant = { λ t. IsTable t.texts.items };
}

impl TextTable {
    /// The table without texts. It takes no memory.
    pub fn new(alloc: Global) -> TextTable
        ensures { result ≡ [] }
    {
        TextTable {
            texts: Vec::new(alloc),
        }
    }

    /// Takes this text in too, unless it is there. After want of memory the table is as it was.
    ///
    /// It takes a binary search, and a move of the texts behind the new one, each of a few words: a block has at most
    /// as many texts as records.
    pub fn add(&mut self, text: &str) -> Mem<()>
        requires { text.now ≢ [] }
        ensures ok { OnOk result (self.new ≡ with_text text.now self.old) }
        ensures err { OnErr result (self.new ≡ self.old) }
    {
        let Err(gap) = self.search(text) else {
            return Ok(());
        };
        let owned = Text::copied(*self.texts.allocator(), text)?;
        put_before(&mut self.texts, gap, owned)?;
        Ok(())
    }

    /// The place of a text, counted from 0. `None` exactly where it is not in the table. It takes a binary search.
    pub fn find(&self, text: &str) -> Option<u64>
        ensures place { MatchOption result (Contains self.now text.now → ⊥) (λ place. slice_get self.now place ≡ Some text.now) }
        ensures table { IsTable self.now }
    {
        match self.search(text) {
            Ok(place) => Some(place as u64),
            Err(_) => None,
        }
    }

    /// How many texts there are.
    pub fn len(&self) -> usize
        ensures { result ≡ length self.now }
    {
        self.texts.len()
    }

    /// Appends the texts in order, each a field of the number 1. After want of memory `out` is as it was.
    pub fn write(&self, out: &mut Vec<u8>) -> Mem<()>
        ensures ok { OnOk result (out.new.items ≡ out.old.items ++ table_bytes self.now) }
        ensures err { OnErr result (out.new.items ≡ out.old.items) }
        // What was appended is the table of these texts.
        ensures table { AreTexts (table_bytes self.now) self.now }
    {
        let mut spelled = Out::new(*out.allocator());
        put_texts(&self.texts, &mut spelled)?;
        match out.extend_from_slice(&spelled.finish()) {
            Ok(()) => Ok(()),
            Err(_) => Err(NoMemory),
        }
    }

    /// Appends the texts to bytes that are being written, as `write` does. After out of memory some of them may have been
    /// appended.
    pub fn put(&self, out: &mut Out) -> Mem<()>
        ensures { OnOk result (out.new ≡ out.old ++ table_bytes self.now) }
    {
        put_texts(&self.texts, out)
    }

    /// The place of a text, or the gap that it belongs in.
    fn search(&self, text: &str) -> Result<usize, usize>
        ensures place { MatchResult result (IsThere text.now self.now) (IsGap text.now self.now) }
        ensures table { IsTable self.now }
    {
        self.texts.binary_search_by(|known| compared(known, text))
    }
}

/// How a text of the table stands to another one.
fn compared(known: &Text, text: &str) -> Ordering
    ensures { result ≡ text_cmp known.now text.now }
{
    known.as_bytes().cmp(text.as_bytes())
}

/// Puts a text before the one at a place, or at the end.
fn put_before(texts: &mut Vec<Text>, place: usize, text: Text) -> Mem<()>
    requires { place ≤ length texts.old.items }
    ensures ok { OnOk result (texts.new.items ≡ insert texts.old.items place text) }
    ensures err { OnErr result (texts.new.items ≡ texts.old.items) }
{
    match texts.insert(place, text) {
        Ok(()) => Ok(()),
        Err(_) => Err(NoMemory),
    }
}

/// Appends texts, and may stop behind some of them.
fn put_texts(texts: &[Text], out: &mut Out) -> Mem<()>
    ensures { OnOk result (out.new ≡ out.old ++ table_bytes texts.now) }
{
    for text in texts {
        put_text(text, out)?;
    }
    Ok(())
}

/// Appends a text as a field: its key, its length, its bytes.
fn put_text(text: &Text, out: &mut Out) -> Mem<()>
    ensures { OnOk result (out.new ≡ out.old ++ text_field text.now) }
{
    out.put_key(NUMBER, PAYLOAD)?;
    out.put_varint(text.len() as u64)?;
    out.put_bytes(text.as_bytes())
}
