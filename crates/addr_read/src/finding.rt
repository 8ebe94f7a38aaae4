//! Where the blocks stand that may hold what a key finds.

ghost use Rattle.std.specs.Prelude.{◌≡◌, ◌≤◌, ◌-◌, drop, length, take};
ghost use Rattle.std.specs.List.{prefix_len};
ghost use Rattle.addr_read.specs.Finding.{is_reached};
ghost use Rattle.addr_read.specs.Searching.{AreRising, begins_by, between, ends_before, text_in};

use addr_section::{EntryKept, ListKept};
use boxed_exact::Payload;
use obf_wire::Window;

/// Where the blocks of a list stand whose entries allow a house of the street with this key, or else a place or a street whose key begins
/// with it. Two binary searches over the entries find the first of them and their end.
pub(crate) fn due_spans<'a>(
    window: Window<'_>,
    list: &'a ListKept,
    houses: bool,
    key: &str,
) -> &'a [Payload]
    requires rising { AreRising window.bytes.now list.now.entries.items }
    requires same { length list.now.entries.items ≡ length list.now.blocks.items }
    ensures { result.now ≡ between window.entry.bytes.now houses key.now list.now.entries.items list.now.blocks.items }
{
    let from = count_ended(window, list.entries(), key);
    let to = count_begun(window, list.entries(), houses, key);
    part(list.blocks(), from, to)
}

/// The places from one index up to another.
fn part(spans: &[Payload], from: usize, to: usize) -> &[Payload]
    requires ordered { from ≤ to }
    requires within { to ≤ length spans.now }
    ensures { result.now ≡ take (to - from) (drop from spans.now) }
{
    &spans[from..to]
}

/// How many entries at the front end before the key.
fn count_ended(window: Window<'_>, entries: &[EntryKept], key: &str) -> usize
    requires { AreRising window.bytes.now entries.now }
    ensures { result ≡ prefix_len (ends_before window.entry.bytes.now key.now) entries.now }
{
    entries.partition_point(|entry| ends_before(window, entry, key))
}

/// How many entries at the front do not begin after what is wanted.
fn count_begun(window: Window<'_>, entries: &[EntryKept], houses: bool, key: &str) -> usize
    requires { AreRising window.bytes.now entries.now }
    ensures { result ≡ prefix_len (begins_by window.entry.bytes.now houses key.now) entries.now }
{
    entries.partition_point(|entry| begins_by(window, entry, houses, key))
}

/// Whether the block of the entry ends before the key.
fn ends_before(window: Window<'_>, entry: &EntryKept, key: &str) -> bool
    ensures { result ≡ ends_before window.entry.bytes.now key.now entry.now }
{
    bytes_at(window, entry.last).cmp(key.as_bytes()).is_lt()
}

/// Whether the block of the entry does not begin after what is wanted.
fn begins_by(window: Window<'_>, entry: &EntryKept, houses: bool, key: &str) -> bool
    ensures { result ≡ begins_by window.entry.bytes.now houses key.now entry.now }
{
    is_reached(bytes_at(window, entry.first), houses, key)
}

/// Whether a first key is at most the key, or begins with it where places and streets are wanted.
fn is_reached(first: &[u8], houses: bool, key: &str) -> bool
    ensures { result ≡ is_reached houses key.now first.now }
{
    let low = first.cmp(key.as_bytes()).is_le();
    if houses {
        return low;
    }
    low || first.starts_with(key.as_bytes())
}

/// The bytes of a payload; none where it does not lie within the bytes.
fn bytes_at<'a>(window: Window<'a>, span: Payload) -> &'a [u8]
    ensures { result.now ≡ text_in window.entry.bytes.now span }
{
    match window.all().get(span.from..span.to) {
        Some(bytes) => bytes,
        None => &[],
    }
}
