//! Numbers and bytes at an offset, and the texts of `text`.

ghost use Rattle.std.specs.Prelude.{◌≡◌, ℕ, ◌+◌, ◌-◌, ◌<◌, ◌≤◌, ◌^◌, ◌↔◌, List, length, IsTrue, MatchOption, MatchResult};
ghost use Rattle.std.proofs.Common.{lit<};
ghost use Rattle.binfarce_bytes.specs.declared.ByteOrder.{ByteOrder};
ghost use Rattle.binfarce_bytes.specs.Number.{number, signed, bytes_at};
ghost use Rattle.binfarce_bytes.specs.Refusal.{refusal_of, malformed_input};

pub use crate::text::{parse_null_string, up_to_nul, utf8_text};
use crate::{ByteOrder, ParseError};
use std::error::Error;
use std::fmt;
use std::ops::Range;

/// The bytes end too soon.
#[derive(Debug, Clone, Copy)]
pub struct UnexpectedEof {}

impl fmt::Display for UnexpectedEof {
    ghost use Rattle.std.specs.Prelude.{Some, codes};

    ghost output = { λ _. Some (codes "Unexpected end of file") };

    fn fmt<W: fmt::Write>(&self, f: &mut fmt::Formatter<W>) -> fmt::Result {
        write!(f, "Unexpected end of file")
    }
}

impl Error for UnexpectedEof {}

/// A number of `SIZE` bytes, read in a stream's byte order.
pub trait RawNumber: Sized {
    ghost SIZE: { ℕ };

    ghost value: { ByteOrder → List ℕ → Self };

    /// How many bytes the number has.
    const SIZE: usize;

    /// The number at the stream's offset, which doesn't move; `None` if a byte is missing.
    fn parse(s: &mut Stream) -> Option<Self>
        ensures unchanged { s.new ≡ s.old }
        ensures number { MatchOption result
            (length s.old.bytes.now < s.old.offset + SIZE)
            (λ v. (s.old.offset + SIZE ≤ length s.old.bytes.now)
            × (v ≡ value s.old.byte_order (bytes_at s.old.bytes.now s.old.offset SIZE))) };

    ghost some_byte: { 0 < SIZE };
}

impl RawNumber for u8 {
    ghost SIZE = { 1 };

    ghost value = { number };

    const SIZE: usize = 1;

    #[inline]
    #[tactic(auto, unfolding(crate::specs::Number::number, crate::specs::Number::little_endian))]
    fn parse(s: &mut Stream) -> Option<u8> {
        s.bytes.get(s.offset).copied()
    }

    ghost some_byte = { lit< tt };
}

impl RawNumber for i8 {
    ghost SIZE = { 1 };

    ghost value = { λ order bytes. signed 1 (number order bytes) };

    const SIZE: usize = 1;

    #[inline]
    #[tactic(auto, using(crate::proofs::Signed::signed_8))]
    fn parse(s: &mut Stream) -> Option<i8> {
        match u8::parse(s) {
            None => None,
            Some(number) => Some(number.cast_signed()),
        }
    }

    ghost some_byte = { lit< tt };
}

impl RawNumber for u16 {
    ghost SIZE = { 2 };

    ghost value = { number };

    const SIZE: usize = 2;

    #[inline]
    #[tactic(auto, unfolding(crate::specs::Number::number, crate::specs::Number::little_endian))]
    fn parse(s: &mut Stream) -> Option<u16> {
        let end = s.offset.checked_add(2)?;
        let bytes = s.bytes.get(s.offset..end)?;
        let bytes = [bytes[0], bytes[1]];
        match s.byte_order {
            ByteOrder::LittleEndian => Some(u16::from_le_bytes(bytes)),
            ByteOrder::BigEndian => Some(u16::from_be_bytes(bytes)),
        }
    }

    ghost some_byte = { lit< tt };
}

impl RawNumber for i16 {
    ghost SIZE = { 2 };

    ghost value = { λ order bytes. signed 2 (number order bytes) };

    const SIZE: usize = 2;

    #[inline]
    #[tactic(auto, using(crate::proofs::Signed::signed_16))]
    fn parse(s: &mut Stream) -> Option<i16> {
        match u16::parse(s) {
            None => None,
            Some(number) => Some(number.cast_signed()),
        }
    }

    ghost some_byte = { lit< tt };
}

impl RawNumber for u32 {
    ghost SIZE = { 4 };

    ghost value = { number };

    const SIZE: usize = 4;

    #[inline]
    #[tactic(auto, unfolding(crate::specs::Number::number, crate::specs::Number::little_endian))]
    fn parse(s: &mut Stream) -> Option<u32> {
        let end = s.offset.checked_add(4)?;
        let bytes = s.bytes.get(s.offset..end)?;
        let bytes = [bytes[0], bytes[1], bytes[2], bytes[3]];
        match s.byte_order {
            ByteOrder::LittleEndian => Some(u32::from_le_bytes(bytes)),
            ByteOrder::BigEndian => Some(u32::from_be_bytes(bytes)),
        }
    }

    ghost some_byte = { lit< tt };
}

impl RawNumber for u64 {
    ghost SIZE = { 8 };

    ghost value = { number };

    const SIZE: usize = 8;

    #[inline]
    #[tactic(auto, unfolding(crate::specs::Number::number, crate::specs::Number::little_endian))]
    fn parse(s: &mut Stream) -> Option<u64> {
        let end = s.offset.checked_add(8)?;
        let bytes = s.bytes.get(s.offset..end)?;
        let bytes = [
            bytes[0], bytes[1], bytes[2], bytes[3], bytes[4], bytes[5], bytes[6], bytes[7],
        ];
        match s.byte_order {
            ByteOrder::LittleEndian => Some(u64::from_le_bytes(bytes)),
            ByteOrder::BigEndian => Some(u64::from_be_bytes(bytes)),
        }
    }

    ghost some_byte = { lit< tt };
}

/// Bytes, an offset and a byte order. A call that fails leaves it unchanged.
#[derive(Clone, Copy)]
pub struct Stream<'a> {
    bytes: &'a [u8],
    offset: usize,
    byte_order: ByteOrder,
}

impl<'a> Stream<'a> {
    /// A stream at the first byte.
    #[inline]
    pub fn new(bytes: &'a [u8], byte_order: ByteOrder) -> Self
        ensures bytes { result.bytes.now ≡ bytes.entry.now }
        ensures at { (result.offset ≡ 0) × (result.byte_order ≡ byte_order) }
    {
        Stream {
            bytes,
            offset: 0,
            byte_order,
        }
    }

    /// A stream at `offset`; fails unless that is below the length.
    #[inline]
    pub fn new_at(
        bytes: &'a [u8],
        offset: usize,
        byte_order: ByteOrder,
    ) -> Result<Self, UnexpectedEof>
        ensures { MatchResult result
            (λ s. (offset < length bytes.entry.now) × (s.bytes.now ≡ bytes.entry.now) × (s.offset ≡ offset)
            × (s.byte_order ≡ byte_order))
            (λ _. length bytes.entry.now ≤ offset) }
    {
        if offset < bytes.len() {
            Ok(Stream {
                bytes,
                offset,
                byte_order,
            })
        } else {
            Err(UnexpectedEof {})
        }
    }

    /// Whether the offset is at or past the length.
    #[inline]
    pub fn at_end(&self) -> bool
        ensures { IsTrue result ↔ (length self.now.bytes.now ≤ self.now.offset) }
    {
        self.offset >= self.bytes.len()
    }

    /// The offset in bytes.
    #[inline]
    pub fn offset(&self) -> usize
        ensures { result ≡ self.now.offset }
    {
        self.offset
    }

    /// How many bytes are left, 0 past the end.
    #[inline]
    pub fn remaining(&self) -> usize
        ensures { result ≡ length self.now.bytes.now - self.now.offset }
    {
        self.bytes.len().saturating_sub(self.offset)
    }

    /// Moves the offset by `len` without reading bytes; fails only if it would exceed `usize`.
    #[inline]
    pub fn skip_len(&mut self, len: usize) -> Result<(), UnexpectedEof>
        ensures { MatchResult result
            (λ _. self.new ≡ record self.old { offset = self.old.offset + len })
            (λ _. (2 ^ 64 ≤ self.old.offset + len) × (self.new ≡ self.old)) }
    {
        match self.offset.checked_add(len) {
            Some(offset) => {
                self.offset = offset;
                Ok(())
            }
            None => Err(UnexpectedEof {}),
        }
    }

    /// Moves the offset past a `T` without reading bytes.
    #[inline]
    pub fn skip<T: RawNumber>(&mut self) -> Result<(), UnexpectedEof>
        ensures { MatchResult result
            (λ _. self.new ≡ record self.old { offset = self.old.offset + T.SIZE })
            (λ _. (2 ^ 64 ≤ self.old.offset + T.SIZE) × (self.new ≡ self.old)) }
    {
        self.skip_len(T::SIZE)
    }

    /// The number at the offset, which moves past it; fails if a byte is missing.
    #[inline]
    pub fn read<T: RawNumber>(&mut self) -> Result<T, UnexpectedEof>
        ensures number { MatchResult result
            (λ v. (self.old.offset + T.SIZE ≤ length self.old.bytes.now)
            × (v ≡ T.value self.old.byte_order (bytes_at self.old.bytes.now self.old.offset T.SIZE)))
            (λ _. length self.old.bytes.now < self.old.offset + T.SIZE) }
        ensures offset { MatchResult result
            (λ _. self.new ≡ record self.old { offset = self.old.offset + T.SIZE })
            (λ _. self.new ≡ self.old) }
    {
        let offset = self.offset.checked_add(T::SIZE).ok_or(UnexpectedEof {})?;
        let number = T::parse(self).ok_or(UnexpectedEof {})?;
        self.offset = offset;
        Ok(number)
    }

    /// The `len` bytes at the offset, as a slice; the offset moves past them.
    ///
    /// Fails if the offset plus `len` exceeds `usize` or the length.
    #[inline]
    pub fn read_bytes(&mut self, len: usize) -> Result<&'a [u8], UnexpectedEof>
        ensures bytes { MatchResult result
            (λ b. (self.old.offset + len ≤ length self.old.bytes.now)
            × (b.now ≡ bytes_at self.old.bytes.now self.old.offset len))
            (λ _. length self.old.bytes.now < self.old.offset + len) }
        ensures offset { MatchResult result
            (λ _. self.new ≡ record self.old { offset = self.old.offset + len })
            (λ _. self.new ≡ self.old) }
    {
        let offset = self.offset.checked_add(len).ok_or(UnexpectedEof {})?;
        let bytes = self.bytes.get(self.offset..offset).ok_or(UnexpectedEof {})?;
        self.offset = offset;
        Ok(bytes)
    }
}

/// The number at `place`; fails if a byte is missing.
#[inline]
pub fn number_at<T: RawNumber>(
    bytes: &[u8],
    place: usize,
    byte_order: ByteOrder,
) -> Result<T, UnexpectedEof>
    ensures { MatchResult result
        (λ v. (place + T.SIZE ≤ length bytes.now) × (v ≡ T.value byte_order (bytes_at bytes.now place T.SIZE)))
        (λ _. length bytes.now < place + T.SIZE) }
{
    Stream::new_at(bytes, place, byte_order)?.read()
}

/// The number as an index. One that doesn't fit `usize` is `usize::MAX`, which lies past every slice.
#[inline]
pub fn to_index(n: u64) -> usize
    ensures { result ≡ n }
{
    usize::try_from(n).unwrap_or(usize::MAX)
}

/// The range of the `size` bytes from `offset` on; `MalformedInput` if its end exceeds `usize`.
#[inline]
pub fn range(offset: u64, size: u64) -> Result<Range<usize>, ParseError>
    ensures { MatchResult result
        (λ r. (r.start ≡ offset) × (r.end ≡ offset + size))
        (λ e. (2 ^ 64 ≤ offset + size) × (refusal_of e ≡ malformed_input)) }
{
    let end = offset.checked_add(size).ok_or(ParseError::MalformedInput)?;
    match usize::try_from(end) {
        Ok(end) => Ok(to_index(offset)..end),
        Err(_) => Err(ParseError::MalformedInput),
    }
}

/// The `size` bytes from `offset` on, a slice of `bytes`; fails if their end exceeds `usize` or the length.
#[inline]
pub fn slice_at(bytes: &[u8], offset: usize, size: usize) -> Result<&[u8], UnexpectedEof>
    ensures { MatchResult result
        (λ b. (offset + size ≤ length bytes.now) × (b.now ≡ bytes_at bytes.now offset size))
        (λ _. length bytes.now < offset + size) }
{
    let end = offset.checked_add(size).ok_or(UnexpectedEof {})?;
    bytes.get(offset..end).ok_or(UnexpectedEof {})
}
