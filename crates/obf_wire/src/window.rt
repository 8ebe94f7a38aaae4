//! Bytes with a range inside them.

ghost use Rattle.std.specs.Prelude.{◌≡◌, ◌≤◌, ◌-◌, ◌==◌, length, slice_range};
ghost use Rattle.obf_wire.specs.Fields.{part_of};

/// The bytes from one offset up to another, in their place among all bytes of a file. The range always lies inside the
/// bytes.
#[derive(Clone, Copy, Debug, Drop)]
pub struct Window<'a> {
    pub(crate) bytes: &'a [u8],
    pub(crate) from: usize,
    pub(crate) to: usize,
    ghost ordered: { from ≤ to },
    ghost within: { to ≤ length bytes.now },
}

impl<'a> Window<'a> {
    /// From `from` up to `to`.
    pub fn new(bytes: &'a [u8], from: usize, to: usize) -> Window<'a>
        requires ordered { from ≤ to }
        requires within { to ≤ length bytes.now }
        ensures range { part_of result.bytes.now result.from result.to ≡ part_of bytes.now from to }
        ensures from { result.from ≡ from }
        ensures to { result.to ≡ to }
    {
        Window { bytes, from, to }
    }

    /// All of the bytes.
    pub fn whole(bytes: &'a [u8]) -> Window<'a>
        ensures range { part_of result.bytes.now result.from result.to ≡ part_of bytes.now 0 (length bytes.now) }
        ensures from { result.from ≡ 0 }
        ensures to { result.to ≡ length bytes.now }
    {
        Window::new(bytes, 0, bytes.len())
    }

    /// All bytes, also those outside the range.
    pub fn all(self) -> &'a [u8]
        ensures { result.now ≡ self.entry.bytes.now }
    {
        self.bytes
    }

    /// The offset of the first byte of the range.
    pub fn from(self) -> usize
        ensures { result ≡ self.entry.from }
    {
        self.from
    }

    /// The offset after the last byte of the range.
    pub fn to(self) -> usize
        ensures { result ≡ self.entry.to }
    {
        self.to
    }

    /// How many bytes the range has.
    pub fn len(self) -> usize
        ensures { result ≡ self.entry.to - self.entry.from }
    {
        self.to - self.from
    }

    /// Whether the range has no byte.
    pub fn is_empty(self) -> bool
        ensures { result ≡ (self.entry.from == self.entry.to) }
    {
        self.from == self.to
    }

    /// The bytes of the range alone.
    pub fn bytes(self) -> &'a [u8]
        ensures { result.now ≡ slice_range self.entry.bytes.now self.entry.from self.entry.to }
    {
        &self.bytes[self.from..self.to]
    }

    /// Another range of the same bytes.
    pub fn part(self, from: usize, to: usize) -> Window<'a>
        requires ordered { from ≤ to }
        requires within { to ≤ length self.bytes.now }
        ensures range { part_of result.bytes.now result.from result.to ≡ part_of self.entry.bytes.now from to }
        ensures from { result.from ≡ from }
        ensures to { result.to ≡ to }
    {
        Window::new(self.bytes, from, to)
    }

    /// The range from an offset on, up to the same end.
    pub fn after(self, from: usize) -> Window<'a>
        requires { from ≤ self.to }
        ensures range { part_of result.bytes.now result.from result.to ≡ part_of self.entry.bytes.now from self.entry.to }
        ensures from { result.from ≡ from }
        ensures to { result.to ≡ self.entry.to }
    {
        Window::new(self.bytes, from, self.to)
    }
}
