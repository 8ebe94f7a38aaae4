//! Tags that stand in one buffer.

ghost use Rattle.std.specs.Prelude.{◌≡◌, ◌≤◌, ◌++◌, ◌∷◌, [], length, take, drop, IfOk, IfSome, OnOk};
ghost use Rattle.std.specs.Prelude.{encode_utf8};
ghost use Rattle.std.specs.Bool.{OnTrue};
ghost use Rattle.live_model.specs.Objects.{AreTags};
ghost use Rattle.opl_reader.specs.TagOrder.{ComesFirst};
ghost use Rattle.opl_rows.specs.Held.{Grows, tags_in, total};

use live_model::{List, Mem, Tag, Text};
use std::alloc::{AllocError, Global};
use std::cmp::Ordering;
use std::marker::Model;
use std::str::from_utf8;

/// How long a key and its value are.
#[derive(Clone, Copy)]
pub struct Span {
    key: usize,
    value: usize,
}

/// Tags, and a text behind them that is not closed yet.
#[derive(Drop)]
pub struct Tags {
    texts: Vec<u8>,
    spans: Vec<Span>,
    closed: usize,
}

impl Model for Tags {
    ghost use Rattle.std.specs.Prelude.{◌≡◌, ◌≤◌, length, drop};
    ghost use Rattle.opl_rows.specs.Held.{HeldTags, tags_in, total};

    ghost Value = { HeldTags };

    ghost view = { λ t. record { tags = tags_in t.spans.items t.texts.items; last = drop (total t.spans.items) t.texts.items } };

    ghost invariant = { λ t. (t.closed ≡ total t.spans.items) × (total t.spans.items ≤ length t.texts.items) };
}

impl Tags {
    /// No tags.
    pub fn new(alloc: Global) -> Tags
        ensures tags { result.tags ≡ [] }
        ensures last { result.last ≡ [] }
    {
        Tags {
            texts: Vec::new(alloc),
            spans: Vec::new(alloc),
            closed: 0,
        }
    }

    /// No tags any more.
    pub fn clear(&mut self)
        ensures tags { self.new.tags ≡ [] }
        ensures last { self.new.last ≡ [] }
    {
        self.texts.clear();
        self.spans.clear();
        self.closed = 0;
    }

    /// How many tags there are.
    #[tactic(auto, using(crate::proofs::Holding::length_tags))]
    pub fn len(&self) -> usize
        ensures { result ≡ length self.now.tags }
    {
        self.spans.len()
    }

    /// The open text.
    pub(crate) fn open_text(&self) -> &[u8]
        ensures { result.now ≡ self.now.last }
    {
        &self.texts[self.closed..]
    }

    /// How long the open text is.
    pub(crate) fn open_len(&self) -> usize
        ensures { result ≡ length self.now.last }
    {
        self.texts.len() - self.closed
    }

    /// Puts bytes behind the open text.
    #[tactic(auto, using(crate::proofs::Holding::tags_more, crate::proofs::Holding::open_more))]
    pub(crate) fn push(&mut self, piece: &[u8]) -> Result<(), AllocError>
        ensures { OnOk result (Grows self.old self.new piece.now) }
    {
        self.texts.extend_from_slice(piece)
    }

    /// Puts a character behind the open text.
    pub(crate) fn push_char(&mut self, c: char) -> Result<(), AllocError>
        ensures { OnOk result (Grows self.old self.new (encode_utf8 c)) }
    {
        let mut buffer = [0; 4];
        let bytes = c.encode_utf8(&mut buffer);
        self.push(bytes.as_bytes())
    }
    /// Makes a tag of the open text, of whose bytes the first are its key.

    #[tactic(auto, using(crate::proofs::Holding::tags_close, crate::proofs::Holding::total_close))]
    pub(crate) fn close(&mut self, key: usize) -> Result<(), AllocError>
        requires { key ≤ length self.old.last }
        ensures tags { OnOk result (self.new.tags ≡ self.old.tags ++ record { key = take key self.old.last; value = drop key self.old.last } ∷ []) }
        ensures last { OnOk result (self.new.last ≡ []) }
    {
        let value = self.texts.len() - self.closed - key;
        self.spans.push(Span { key, value })?;
        self.closed = self.texts.len();
        Ok(())
    }

    /// The tags as values of their own, in order. Where it answers nothing a text is not UTF-8.
    pub(crate) fn copy(&self, alloc: Global) -> Mem<Option<List<Tag>>>
        ensures { IfOk result (λ r. IfSome r (λ tags. tags ≡ self.now.tags)) }
    {
        copied(alloc, &self.spans, &self.texts)
    }

    /// Whether each key comes before the next one.
    pub(crate) fn rises(&self) -> bool
        ensures { OnTrue result (AreTags self.now.tags) }
    {
        rises(&self.spans, &self.texts)
    }
}

/// The tags at these spans of a buffer.
fn copied(alloc: Global, spans: &[Span], texts: &[u8]) -> Mem<Option<List<Tag>>>
    requires { total spans.now ≤ length texts.now }
    ensures { IfOk result (λ r. IfSome r (λ tags. tags ≡ tags_in spans.now texts.now)) }
{
    let mut tags = List::new(alloc);
    let mut rest = spans;
    let mut bytes = texts;
    while let Some((first, after)) = rest.split_first() {
        let key = at_front(bytes, first.key);
        let left = behind(bytes, first.key);
        let value = at_front(left, first.value);
        let more = behind(left, first.value);
        let Some(tag) = tag(alloc, key, value)? else {
            return Ok(None);
        };
        tags.push(tag)?;
        rest = after;
        bytes = more;
    }
    Ok(Some(tags))
}

/// The tag of a key and a value, where both are UTF-8.
fn tag(alloc: Global, key: &[u8], value: &[u8]) -> Mem<Option<Tag>>
    ensures { IfOk result (λ r. IfSome r (λ tag. tag ≡ record { key = key.now; value = value.now })) }
{
    let Ok(key) = from_utf8(key) else {
        return Ok(None);
    };
    let Ok(value) = from_utf8(value) else {
        return Ok(None);
    };
    let key = Text::copied(alloc, key)?;
    let value = Text::copied(alloc, value)?;
    Ok(Some(Tag { key, value }))
}

/// Whether the keys of tags at these spans rise.
fn rises(spans: &[Span], texts: &[u8]) -> bool
    requires { total spans.now ≤ length texts.now }
    ensures { OnTrue result (AreTags (tags_in spans.now texts.now)) }
{
    let mut rest = spans;
    let mut bytes = texts;
    while let Some((first, after)) = rest.split_first() {
        let key = at_front(bytes, first.key);
        let left = behind(bytes, first.key);
        let more = behind(left, first.value);
        if !comes_first(key, after, more) {
            return false;
        }
        rest = after;
        bytes = more;
    }
    true
}

/// Whether a key comes before the first of these, if there is one.
fn comes_first(key: &[u8], spans: &[Span], bytes: &[u8]) -> bool
    requires { total spans.now ≤ length bytes.now }
    ensures { OnTrue result (ComesFirst key.now (tags_in spans.now bytes.now)) }
{
    match spans.split_first() {
        Some((next, _)) => key.cmp(&bytes[..next.key]) == Ordering::Less,
        None => true,
    }
}

/// The first `n` bytes.
fn at_front(bytes: &[u8], n: usize) -> &[u8]
    requires { n ≤ length bytes.now }
    ensures { result.now ≡ take n bytes.now }
{
    &bytes[..n]
}

/// The bytes behind the first `n`.
fn behind(bytes: &[u8], n: usize) -> &[u8]
    requires { n ≤ length bytes.now }
    ensures { result.now ≡ drop n bytes.now }
{
    &bytes[n..]
}
