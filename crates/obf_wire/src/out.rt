//! Bytes in wire form, written at the end of what is there.

ghost use Rattle.std.specs.Prelude.{◌≡◌, ◌+◌, ◌-◌, ◌*◌, ◌^◌, ◌<◌, ◌≤◌, ℕ, List, [], ◌∷◌, ◌++◌, length, take, drop, IfOk, OnOk, OnErr};
ghost use Rattle.std.specs.Int.{w64, to_be_bytes};
ghost use Rattle.obf_wire.specs.Varint.{varint};
ghost use Rattle.obf_wire.specs.Fields.{section, number_field, short_field, begun_short, begun_section};

use crate::varint::{LONGEST_VARINT, spell};
use owned_data::{Mem, NoMemory};
use std::alloc::Global;
use std::marker::Model;

/// How many bytes the length of a field of wire type 6 has.
const LENGTH_BYTES: usize = 8;

/// Bytes that grow at their end, seen as the list of them. After out of memory they are as they were, but for fields that are
/// begun and ended in two calls, of which a part may be left at the end.
#[derive(Debug, Drop)]
pub struct Out {
    bytes: Vec<u8>,
}

impl Model for Out {
    ghost use Rattle.std.specs.Prelude.{ℕ, List};

    ghost Value = { List ℕ };

    ghost view = { λ out. out.bytes.items };
}

impl Out {
    /// No bytes. It takes no memory.
    pub fn new(alloc: Global) -> Out
        ensures { result ≡ [] }
    {
        Out {
            bytes: Vec::new(alloc),
        }
    }

    /// Appends the shortest spelling of a number.
    pub fn put_varint(&mut self, v: u64) -> Mem<()>
        ensures ok { OnOk result (self.new ≡ self.old ++ varint v) }
        ensures err { OnErr result (self.new ≡ self.old) }
    {
        if v < 128 {
            return self.put_byte(v as u8);
        }
        let mut buffer = [0; LONGEST_VARINT];
        let len = spell(v, &mut buffer);
        self.put_bytes(&buffer[..len])
    }

    /// Appends the key of a field: eight times its number, plus its wire type.
    pub fn put_key(&mut self, number: u64, wire: u8) -> Mem<()>
        requires number_in { number < 2 ^ 29 }
        requires wire_in { wire ≤ 7 }
        ensures ok { OnOk result (self.new ≡ self.old ++ varint (number * 8 + wire)) }
        ensures err { OnErr result (self.new ≡ self.old) }
    {
        self.put_varint(number * 8 + u64::from(wire))
    }

    fn put_byte(&mut self, byte: u8) -> Mem<()>
        ensures ok { OnOk result (self.new ≡ self.old ++ byte ∷ []) }
        ensures err { OnErr result (self.new ≡ self.old) }
    {
        match self.bytes.push(byte) {
            Ok(()) => Ok(()),
            Err(_) => Err(NoMemory),
        }
    }

    /// Appends bytes as they are.
    pub fn put_bytes(&mut self, bytes: &[u8]) -> Mem<()>
        ensures ok { OnOk result (self.new ≡ self.old ++ bytes.now) }
        ensures err { OnErr result (self.new ≡ self.old) }
    {
        match self.bytes.extend_from_slice(bytes) {
            Ok(()) => Ok(()),
            Err(_) => Err(NoMemory),
        }
    }

    /// Appends a field of wire type 6: its key, the length of the payload in eight bytes, the highest first, and the
    /// payload.
    pub fn put_section(&mut self, number: u64, payload: &[u8]) -> Mem<()>
        requires { number < 2 ^ 29 }
        ensures ok { OnOk result (self.new ≡ self.old ++ section number payload.now) }
        ensures err { OnErr result (self.new ≡ self.old) }
    {
        let before = self.bytes.len();
        let put = self.put_parts(number, payload);
        if put.is_err() {
            self.bytes.truncate(before);
        }
        put
    }

    /// The same, which may stop after a part.
    fn put_parts(&mut self, number: u64, payload: &[u8]) -> Mem<()>
        requires { number < 2 ^ 29 }
        ensures ok { OnOk result (self.new ≡ self.old ++ section number payload.now) }
        ensures err { OnErr result (take (length self.old) self.new ≡ self.old) }
    {
        self.put_key(number, 6)?;
        self.put_bytes(&(payload.len() as u64).to_be_bytes())?;
        self.put_bytes(payload)
    }

    /// Appends a field of wire type 0: its key and a number.
    pub fn put_number(&mut self, number: u64, value: u64) -> Mem<()>
        requires { number < 2 ^ 29 }
        ensures ok { OnOk result (self.new ≡ self.old ++ number_field number value) }
        ensures err { OnErr result (self.new ≡ self.old) }
    {
        let start = self.bytes.len();
        let put = self.put_number_parts(number, value);
        if put.is_err() {
            self.bytes.truncate(start);
        }
        put
    }

    /// The same, which may stop after the key.
    fn put_number_parts(&mut self, number: u64, value: u64) -> Mem<()>
        requires { number < 2 ^ 29 }
        ensures ok { OnOk result (self.new ≡ self.old ++ number_field number value) }
        ensures err { OnErr result (take (length self.old) self.new ≡ self.old) }
    {
        self.put_key(number, 0)?;
        self.put_varint(value)
    }

    /// Appends a field of wire type 2: its key, the length of the payload as a number, and the payload.
    pub fn put_short(&mut self, number: u64, payload: &[u8]) -> Mem<()>
        requires { number < 2 ^ 29 }
        ensures ok { OnOk result (self.new ≡ self.old ++ short_field number payload.now) }
        ensures err { OnErr result (self.new ≡ self.old) }
    {
        let start = self.bytes.len();
        let put = self.put_short_parts(number, payload);
        if put.is_err() {
            self.bytes.truncate(start);
        }
        put
    }

    /// The same, which may stop after a part.
    fn put_short_parts(&mut self, number: u64, payload: &[u8]) -> Mem<()>
        requires { number < 2 ^ 29 }
        ensures ok { OnOk result (self.new ≡ self.old ++ short_field number payload.now) }
        ensures err { OnErr result (take (length self.old) self.new ≡ self.old) }
    {
        self.put_key(number, 2)?;
        self.put_varint(payload.len() as u64)?;
        self.put_bytes(payload)
    }

    /// Begins a field of wire type 2 whose payload is yet to be appended: its key, and a byte of room for the length.
    /// The answer is the offset of the payload, for `end_short`.
    pub fn begin_short(&mut self, number: u64) -> Mem<usize>
        requires { number < 2 ^ 29 }
        ensures start { IfOk result (λ start. start ≡ length self.new) }
        ensures ok { OnOk result (self.new ≡ self.old ++ begun_short number) }
        ensures err { OnErr result (take (length self.old) self.new ≡ self.old) }
    {
        self.put_key(number, 2)?;
        self.put_byte(0)?;
        Ok(self.bytes.len())
    }

    /// Ends the field whose payload begins at this offset and is all that comes after it: puts its length before it.
    /// Only a payload of 128 bytes or more is moved. After out of memory what was before the room for the length is left.
    pub fn end_short(&mut self, start: usize) -> Mem<()>
        requires some { 0 < start }
        requires within { start ≤ length self.old }
        ensures ok { OnOk result ((number : ℕ) (before payload : List ℕ) → self.old ≡ (before ++ begun_short number) ++ payload → start ≡ length (before ++ begun_short number) → self.new ≡ before ++ short_field number payload) }
        ensures err { OnErr result (take (start - 1) self.new ≡ take (start - 1) self.old) }
    {
        let len = self.bytes.len() - start;
        if len < 128 {
            self.bytes[start - 1] = len as u8;
            return Ok(());
        }
        self.put_length_before(start)
    }

    /// Puts the length of all that comes after an offset there, in place of the byte before it.
    fn put_length_before(&mut self, start: usize) -> Mem<()>
        requires some { 0 < start }
        requires within { start ≤ length self.old }
        ensures ok { OnOk result (self.new ≡ take (start - 1) self.old ++ varint (length self.old - start) ++ drop start self.old) }
        ensures err { OnErr result (take (start - 1) self.new ≡ take (start - 1) self.old) }
    {
        let payload = Vec::from_slice(*self.bytes.allocator(), &self.bytes[start..])?;
        self.bytes.truncate(start - 1);
        self.put_varint(payload.len() as u64)?;
        self.put_bytes(&payload)
    }

    /// Begins a field of wire type 6 whose payload is yet to be appended: its key, and eight bytes of room for the
    /// length. The answer is the offset of the payload, for `end_section`.
    pub fn begin_section(&mut self, number: u64) -> Mem<usize>
        requires { number < 2 ^ 29 }
        ensures start { IfOk result (λ start. start ≡ length self.new) }
        ensures ok { OnOk result (self.new ≡ self.old ++ begun_section number) }
        ensures err { OnErr result (take (length self.old) self.new ≡ self.old) }
    {
        self.put_key(number, 6)?;
        self.put_bytes(&0_u64.to_be_bytes())?;
        Ok(self.bytes.len())
    }

    /// Ends the field whose payload begins at this offset and is all that comes after it: puts its length before it. It
    /// takes no memory, and moves nothing.
    pub fn end_section(&mut self, start: usize)
        requires some { 8 ≤ start }
        requires within { start ≤ length self.old }
        ensures { (number : ℕ) (before payload : List ℕ) → self.old ≡ (before ++ begun_section number) ++ payload → start ≡ length (before ++ begun_section number) → self.new ≡ before ++ section number payload }
    {
        let len = (self.bytes.len() - start) as u64;
        self.bytes[start - LENGTH_BYTES..start].copy_from_slice(&len.to_be_bytes());
    }

    /// How many bytes there are.
    pub fn len(&self) -> usize
        ensures { result ≡ length self.now }
    {
        self.bytes.len()
    }

    /// The bytes, as they stand.
    pub fn as_slice(&self) -> &[u8]
        ensures { result.now ≡ self.now }
    {
        &self.bytes
    }

    /// The bytes, given back. It takes no memory.
    pub fn finish(self) -> Vec<u8>
        ensures { result.items ≡ self }
    {
        let Out { bytes } = self;
        bytes
    }
}
