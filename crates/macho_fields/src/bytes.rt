//! Numbers and parts of the bytes of a file.

ghost use Rattle.std.specs.Prelude.{◌≡◌, ◌+◌, ◌*◌, ◌^◌, ◌≤◌, ◌<◌, ◌↔◌, [], length, slice_get, slice_index, IsTrue, IsSome, IfSome};
ghost use Rattle.macho_fields.specs.Bytes.{bytes_of};
ghost use Rattle.macho_fields.specs.Field.{field, number, part, string_from, HasZero};
ghost use Rattle.macho_fields.specs.NonZero.{IsNonZero, HasNonZero};
ghost use Rattle.macho_spans.specs.Span.{end_of, Holds};

use byteorder::{BigEndian, ByteOrder, LittleEndian};
use macho_spans::{Span, table_end};
use memchr::{memchr, memrchr};

// The size in bytes of a word, by which bytes are searched.
const WORD: usize = 8;

// The size in bytes of half a block, which has four words.
const HALF_BLOCK: usize = 32;

// The size in bytes of a block of eight words.
const BLOCK: usize = 64;

// The size in bytes of a large block, which has four blocks.
const LARGE_BLOCK: usize = 256;

/// The order of the bytes of a field.
#[derive(Clone, Copy)]
pub enum Order {
    /// The most significant byte first, as in a universal header.
    Big,
    /// The least significant byte first, as in an image.
    Little,
}

/// The bytes of a file, or of a slice of one. A field is read by its place: the offset in bytes at
/// which it begins.
#[derive(Clone, Copy)]
pub struct Bytes<'a> {
    bytes: &'a [u8],
}

impl<'a> Bytes<'a> {
    /// All of `bytes`, which are not copied.
    pub fn new(bytes: &'a [u8]) -> Bytes<'a>
        ensures { bytes_of result ≡ bytes.now }
    {
        Bytes { bytes }
    }

    /// How many bytes there are.
    pub fn len(self) -> u64
        ensures count { result ≡ length (bytes_of self.entry) }
        ensures fits { length (bytes_of self.entry) < 2 ^ 64 }
    {
        self.bytes.len() as u64
    }

    /// Whether it is empty.
    pub fn is_empty(self) -> bool
        ensures { IsTrue result ↔ (bytes_of self.entry ≡ []) }
    {
        self.bytes.is_empty()
    }

    /// The byte at `place`, or `None` past the end.
    pub fn u8_at(self, place: u64) -> Option<u8>
        ensures { result ≡ slice_get (bytes_of self.entry) place }
    {
        self.bytes.get(place as usize).copied()
    }

    /// The number in the 2 bytes from `place` on, or `None` if they are not all inside.
    pub fn u16_at(self, order: Order, place: u64) -> Option<u16>
        ensures { result ≡ field order 2 (bytes_of self.entry) place }
    {
        Some(u16_from(order, self.bytes_at(place, 2)?))
    }

    /// The number in the 4 bytes from `place` on, or `None` if they are not all inside.
    pub fn u32_at(self, order: Order, place: u64) -> Option<u32>
        ensures { result ≡ field order 4 (bytes_of self.entry) place }
    {
        Some(u32_from(order, self.bytes_at(place, 4)?))
    }

    /// The number in the 8 bytes from `place` on, or `None` if they are not all inside.
    pub fn u64_at(self, order: Order, place: u64) -> Option<u64>
        ensures { result ≡ field order 8 (bytes_of self.entry) place }
    {
        Some(u64_from(order, self.bytes_at(place, 8)?))
    }

    /// The byte at `place`, which is inside. No bounds check runs, here and in the other calls
    /// that read what is inside.
    pub fn read_u8(self, place: u64) -> u8
        requires { place < length (bytes_of self) }
        ensures { result ≡ slice_index (bytes_of self.entry) place }
    {
        self.bytes[place as usize]
    }

    /// The number in the 2 bytes from `place` on, which are inside.
    pub fn read_u16(self, order: Order, place: u64) -> u16
        requires { place + 2 ≤ length (bytes_of self) }
        ensures { result ≡ number order 2 (bytes_of self.entry) place }
    {
        u16_from(order, &self.bytes[place as usize..])
    }

    /// The number in the 4 bytes from `place` on, which are inside.
    pub fn read_u32(self, order: Order, place: u64) -> u32
        requires { place + 4 ≤ length (bytes_of self) }
        ensures { result ≡ number order 4 (bytes_of self.entry) place }
    {
        u32_from(order, &self.bytes[place as usize..])
    }

    /// The number in the 8 bytes from `place` on, which are inside.
    pub fn read_u64(self, order: Order, place: u64) -> u64
        requires { place + 8 ≤ length (bytes_of self) }
        ensures { result ≡ number order 8 (bytes_of self.entry) place }
    {
        u64_from(order, &self.bytes[place as usize..])
    }

    /// The bytes at the places of `span`, which are all inside. They are not copied.
    pub fn read_part(self, span: Span) -> &'a [u8]
        requires { end_of span ≤ length (bytes_of self) }
        ensures { result.now ≡ part span.start span.len (bytes_of self.entry) }
    {
        let rest = &self.bytes[span.start as usize..];
        &rest[..span.len as usize]
    }

    /// The bytes at the places of `span`, which are all inside, as separate `Bytes`, whose places
    /// count from `span.start`. They are not copied.
    pub fn slice(self, span: Span) -> Bytes<'a>
        requires { end_of span ≤ length (bytes_of self) }
        ensures { bytes_of result ≡ part span.start span.len (bytes_of self.entry) }
    {
        Bytes::new(self.read_part(span))
    }

    /// The bytes of `span` before its first zero byte, which must exist. They are not copied.
    pub fn read_string(self, span: Span) -> &'a [u8]
        requires { HasZero (bytes_of self) span.start (end_of span) }
        ensures { result.now ≡ string_from span.start (bytes_of self.entry) }
    {
        self.string_in(span).unwrap()
    }

    /// Whether `span` ends inside the bytes. An empty span is inside up to the very end.
    pub fn contains(self, span: Span) -> bool
        ensures { IsTrue result ↔ (end_of span ≤ length (bytes_of self.entry)) }
    {
        span.end() <= u128::from(self.len())
    }

    /// Whether a table of `count` items of `item_size` bytes that begins at `place` ends inside the
    /// bytes. A table without items is inside up to the very end.
    pub fn contains_table(self, place: u64, count: u64, item_size: u64) -> bool
        ensures { IsTrue result
            ↔ (place + count * item_size ≤ length (bytes_of self.entry)) }
    {
        table_end(place, count, item_size) <= u128::from(self.len())
    }

    /// The bytes at the places of `span`, which are not copied, or `None` if `span` ends past them.
    /// An empty span has no bytes, and is inside up to the very end.
    pub fn part(self, span: Span) -> Option<&'a [u8]>
        ensures inside { IsSome result ↔ (end_of span ≤ length (bytes_of self.entry)) }
        ensures bytes { IfSome result (λ bytes.
            bytes.now ≡ part span.start span.len (bytes_of self.entry)) }
    {
        self.bytes_at(span.start, span.len)
    }

    /// The first place of `span` whose byte is zero. A span may end, or begin, past the bytes.
    pub fn first_zero(self, span: Span) -> Option<u64>
        ensures found { IsSome result ↔ HasZero (bytes_of self.entry) span.start (end_of span) }
        ensures zero { IfSome result (λ place.
            Holds span place × (slice_get (bytes_of self.entry) place ≡ Some 0)) }
        ensures first { IfSome result (λ place.
            ¬ HasZero (bytes_of self.entry) span.start place) }
    {
        let within = self.clipped(span)?;
        let index = memchr(0, within)?;
        Some(span.start + index as u64)
    }

    /// The last place of `span` whose byte is zero. A span may end, or begin, past the bytes.
    pub fn last_zero(self, span: Span) -> Option<u64>
        ensures found { IsSome result ↔ HasZero (bytes_of self.entry) span.start (end_of span) }
        ensures zero { IfSome result (λ place.
            Holds span place × (slice_get (bytes_of self.entry) place ≡ Some 0)) }
        ensures last { IfSome result (λ place.
            ¬ HasZero (bytes_of self.entry) (place + 1) (end_of span)) }
    {
        let within = self.clipped(span)?;
        let index = memrchr(0, within)?;
        Some(span.start + index as u64)
    }

    /// The first place of `span` whose byte is not zero. A span may end, or begin, past the bytes.
    pub fn first_nonzero(self, span: Span) -> Option<u64>
        ensures found { IsSome result ↔ HasNonZero (bytes_of self.entry) span.start (end_of span) }
        ensures nonzero { IfSome result (λ place.
            Holds span place × IsNonZero (bytes_of self.entry) place) }
        ensures first { IfSome result (λ place.
            ¬ HasNonZero (bytes_of self.entry) span.start place) }
    {
        let within = self.clipped(span)?;
        let index = nonzero_index(within)?;
        Some(span.start + index as u64)
    }

    /// The bytes of `span` before the first zero byte in it, which are not copied, or `None` if
    /// none of its bytes is zero.
    pub fn string_in(self, span: Span) -> Option<&'a [u8]>
        ensures ended { IsSome result ↔ HasZero (bytes_of self.entry) span.start (end_of span) }
        ensures string { IfSome result (λ string.
            string.now ≡ string_from span.start (bytes_of self.entry)) }
    {
        let end = self.first_zero(span)?;
        self.bytes_at(span.start, end - span.start)
    }

    // The bytes at those places of `span` that are inside, or `None` if it begins past the end.
    fn clipped(self, span: Span) -> Option<&'a [u8]>
        ensures inside { IsSome result ↔ (span.start ≤ length (bytes_of self.entry)) }
        ensures bytes { IfSome result (λ bytes.
            bytes.now ≡ part span.start span.len (bytes_of self.entry)) }
    {
        let rest = self.bytes.get(span.start as usize..)?;
        Some(rest.get(..span.len as usize).unwrap_or(rest))
    }

    fn bytes_at(self, place: u64, width: u64) -> Option<&'a [u8]>
        ensures inside { IsSome result ↔ (place + width ≤ length (bytes_of self.entry)) }
        ensures bytes { IfSome result (λ bytes.
            bytes.now ≡ part place width (bytes_of self.entry)) }
    {
        let rest = self.bytes.get(place as usize..)?;
        rest.get(..width as usize)
    }
}

// The index of the first byte that is not zero.
fn nonzero_index(bytes: &[u8]) -> Option<usize>
    ensures found { IsSome result ↔ HasNonZero bytes.now 0 (length bytes.now) }
    ensures nonzero { IfSome result (IsNonZero bytes.now) }
    ensures first { IfSome result (λ index. ¬ HasNonZero bytes.now 0 index) }
{
    let start = zeros_by_words(bytes);
    if ends_in_zeros(bytes, start) {
        return None;
    }
    for index in start..bytes.len() {
        if bytes[index] != 0 {
            return Some(index);
        }
    }
    None
}

// Whether the bytes from `start` on are zero, as the last word shows it, if it has all of them.
fn ends_in_zeros(bytes: &[u8], start: usize) -> bool
    ensures { IsTrue result → ¬ HasNonZero bytes.now start (length bytes.now) }
{
    let len = bytes.len();
    len >= WORD && len - WORD <= start && u64_from(Order::Little, &bytes[len - WORD..]) == 0
}

// How many bytes the first words take that are zero, up to the first word that is not. The bytes
// that are left after the last whole word belong to none.
fn zeros_by_words(bytes: &[u8]) -> usize
    ensures within { result ≤ length bytes.now }
    ensures zero { ¬ HasNonZero bytes.now 0 result }
    ensures all { result + WORD ≤ length bytes.now → HasNonZero bytes.now result (result + WORD) }
{
    let mut index = zeros_by_half_blocks(bytes);
    while bytes.len() - index >= WORD && u64_from(Order::Little, &bytes[index..]) == 0 {
        index += WORD;
    }
    index
}

// How many bytes the first halves of blocks take that are zero, up to the first half that is not.
fn zeros_by_half_blocks(bytes: &[u8]) -> usize
    ensures within { result ≤ length bytes.now }
    ensures zero { ¬ HasNonZero bytes.now 0 result }
{
    let mut index = zeros_by_large_blocks(bytes);
    while bytes.len() - index >= HALF_BLOCK && half_block_from(&bytes[index..]) == 0 {
        index += HALF_BLOCK;
    }
    index
}

// How many bytes the first large blocks take that are zero, up to the first one that is not.
fn zeros_by_large_blocks(bytes: &[u8]) -> usize
    ensures within { result ≤ length bytes.now }
    ensures zero { ¬ HasNonZero bytes.now 0 result }
{
    let mut index = 0;
    while bytes.len() - index >= LARGE_BLOCK && large_block_from(&bytes[index..]) == 0 {
        index += LARGE_BLOCK;
    }
    index
}

// The four blocks of the first large block, joined by `or`: 0 if all its bytes are zero.
fn large_block_from(bytes: &[u8]) -> u64
    requires { LARGE_BLOCK ≤ length bytes.now }
    ensures { result ≡ 0 → ¬ HasNonZero bytes.now 0 LARGE_BLOCK }
{
    let first = block_from(bytes);
    let second = block_from(&bytes[BLOCK..]);
    let third = block_from(&bytes[2 * BLOCK..]);
    let fourth = block_from(&bytes[3 * BLOCK..]);
    (first | second) | (third | fourth)
}

// The eight words of the first block, joined by `or`: 0 if all its bytes are zero.
fn block_from(bytes: &[u8]) -> u64
    requires { BLOCK ≤ length bytes.now }
    ensures { result ≡ 0 → ¬ HasNonZero bytes.now 0 BLOCK }
{
    let first = half_block_from(bytes);
    let second = half_block_from(&bytes[HALF_BLOCK..]);
    first | second
}

// The four words of the first half of a block, joined by `or`.
fn half_block_from(bytes: &[u8]) -> u64
    requires { HALF_BLOCK ≤ length bytes.now }
    ensures { result ≡ 0 → ¬ HasNonZero bytes.now 0 HALF_BLOCK }
{
    let first = u64_from(Order::Little, bytes);
    let second = u64_from(Order::Little, &bytes[WORD..]);
    let third = u64_from(Order::Little, &bytes[2 * WORD..]);
    let fourth = u64_from(Order::Little, &bytes[3 * WORD..]);
    (first | second) | (third | fourth)
}

// The number in the first 2 bytes.
fn u16_from(order: Order, bytes: &[u8]) -> u16
    requires { 2 ≤ length bytes.now }
    ensures { result ≡ number order 2 bytes.now 0 }
{
    match order {
        Order::Big => BigEndian::read_u16(bytes),
        Order::Little => LittleEndian::read_u16(bytes),
    }
}

// The number in the first 4 bytes.
fn u32_from(order: Order, bytes: &[u8]) -> u32
    requires { 4 ≤ length bytes.now }
    ensures { result ≡ number order 4 bytes.now 0 }
{
    match order {
        Order::Big => BigEndian::read_u32(bytes),
        Order::Little => LittleEndian::read_u32(bytes),
    }
}

// The number in the first 8 bytes.
fn u64_from(order: Order, bytes: &[u8]) -> u64
    requires { 8 ≤ length bytes.now }
    ensures { result ≡ number order 8 bytes.now 0 }
{
    match order {
        Order::Big => BigEndian::read_u64(bytes),
        Order::Little => LittleEndian::read_u64(bytes),
    }
}
