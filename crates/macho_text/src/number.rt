//! Numbers as text.

ghost use Rattle.std.specs.Prelude.{◌≡◌, ◌+◌, ◌*◌, ◌/◌, ◌%◌, ◌<◌, ◌≤◌, [], ◌∷◌, ◌++◌, false, length, map};
ghost use Rattle.std.specs.Fmt.{decimal, digits, digit_glyph};
ghost use Rattle.macho_text.specs.Stream.{joined};
ghost use Rattle.macho_text.specs.Number.{byte_digits, hex, prefixed_hex, version_text};

use crate::line::{Line, PLACES};

static LOWER_DIGITS: [u8; 16] = *b"0123456789abcdef";

static UPPER_DIGITS: [u8; 16] = *b"0123456789ABCDEF";

/// The two digits of each number below 100, in base 10.
static DECIMAL_PAIRS: [u8; 200] = *b"00010203040506070809101112131415161718192021222324\
      25262728293031323334353637383940414243444546474849\
      50515253545556575859606162636465666768697071727374\
      75767778798081828384858687888990919293949596979899";

/// The two digits of each byte, in base 16.
static HEX_PAIRS: [u8; 512] = *b"000102030405060708090a0b0c0d0e0f101112131415161718191a1b1c1d1e1f\
      202122232425262728292a2b2c2d2e2f303132333435363738393a3b3c3d3e3f\
      404142434445464748494a4b4c4d4e4f505152535455565758595a5b5c5d5e5f\
      606162636465666768696a6b6c6d6e6f707172737475767778797a7b7c7d7e7f\
      808182838485868788898a8b8c8d8e8f909192939495969798999a9b9c9d9e9f\
      a0a1a2a3a4a5a6a7a8a9aaabacadaeafb0b1b2b3b4b5b6b7b8b9babbbcbdbebf\
      c0c1c2c3c4c5c6c7c8c9cacbcccdcecfd0d1d2d3d4d5d6d7d8d9dadbdcdddedf\
      e0e1e2e3e4e5e6e7e8e9eaebecedeeeff0f1f2f3f4f5f6f7f8f9fafbfcfdfeff";

// The power of 10 with each exponent, up to the last below 2^64.
static POWERS_OF_TEN: [u64; 20] = [
    1,
    10,
    100,
    1_000,
    10_000,
    100_000,
    1_000_000,
    10_000_000,
    100_000_000,
    1_000_000_000,
    10_000_000_000,
    100_000_000_000,
    1_000_000_000_000,
    10_000_000_000_000,
    100_000_000_000_000,
    1_000_000_000_000_000,
    10_000_000_000_000_000,
    100_000_000_000_000_000,
    1_000_000_000_000_000_000,
    10_000_000_000_000_000_000,
];

// The digit of a value below 16.
fn digit(value: u8, upper: bool) -> u8
    requires { value < 16 }
    ensures { result ≡ digit_glyph upper value }
{
    if upper {
        UPPER_DIGITS[value as usize]
    } else {
        LOWER_DIGITS[value as usize]
    }
}

// The two digits of a value in a base from 10 to 16.
fn digit_pair<const BASE: u64>(value: u64) -> [u8; 2]
    requires low { 10 ≤ BASE }
    requires high { BASE ≤ 16 }
    requires value { value < BASE * BASE }
    ensures { result ≡ digit_glyph false (value / BASE) ∷ digit_glyph false (value % BASE) ∷ [] }
{
    if BASE == 10 {
        return decimal_pair(value as usize);
    }
    if BASE == 16 {
        return hex_pair(value as usize);
    }
    [
        digit((value / BASE) as u8, false),
        digit((value % BASE) as u8, false),
    ]
}

// The two digits of a value below 100 in base 10.
fn decimal_pair(value: usize) -> [u8; 2]
    requires { value < 100 }
    ensures { result ≡ digit_glyph false (value / 10) ∷ digit_glyph false (value % 10) ∷ [] }
{
    [DECIMAL_PAIRS[2 * value], DECIMAL_PAIRS[2 * value + 1]]
}

// The two digits of a value below 256 in base 16.
fn hex_pair(value: usize) -> [u8; 2]
    requires { value < 256 }
    ensures { result ≡ digit_glyph false (value / 16) ∷ digit_glyph false (value % 16) ∷ [] }
{
    [HEX_PAIRS[2 * value], HEX_PAIRS[2 * value + 1]]
}

// How many digits a number has in base 10.
fn decimal_length(number: u64) -> usize
    ensures length { result ≡ length (digits 10 false number) }
    ensures most { result ≤ 20 }
{
    let mut count = 1;
    while count < POWERS_OF_TEN.len() && POWERS_OF_TEN[count] <= number {
        count += 1;
    }
    count
}

// How many digits a number has in base 16: one for each four bits, but one at least.
fn hex_length(number: u64) -> usize
    ensures length { result ≡ length (digits 16 false number) }
    ensures most { result ≤ 16 }
{
    number.max(1).ilog2() as usize / 4 + 1
}

// Fills the places with the digits of a number in a base from 10 to 16, two at a time from the last.
pub(crate) fn put_digits<const BASE: u64>(number: u64, places: &mut [u8])
    requires low { 10 ≤ BASE }
    requires high { BASE ≤ 16 }
    requires count { length places.old ≡ length (digits BASE false number) }
    ensures { places.new ≡ digits BASE false number }
{
    let mut rest = number;
    let mut start = places.len();
    while start >= 2 {
        start -= 2;
        let [high, low] = digit_pair::<BASE>(rest % (BASE * BASE));
        places[start + 1] = low;
        places[start] = high;
        rest /= BASE * BASE;
    }
    if start == 1 {
        places[0] = digit((rest % BASE) as u8, false);
    }
}

impl Line {
    /// Puts a number in base 10.
    pub fn decimal(&mut self, number: u64)
        requires room { length self.old + 20 ≤ PLACES }
        ensures text { self.new ≡ self.old ++ decimal number }
        ensures end { length self.new ≤ length self.old + 20 }
    {
        self.number::<10>(number, decimal_length(number));
    }

    /// Puts a number in base 16, as `0x1e8`.
    pub fn hex(&mut self, number: u64)
        requires room { length self.old + 22 ≤ PLACES }
        ensures text { self.new ≡ self.old ++ prefixed_hex number }
        ensures end { length self.new ≤ length self.old + 22 }
    {
        self.text(b"0x");
        self.bare_hex(number);
    }

    /// Puts a number in base 16 without its `0x`.
    #[inline(always)]
    pub fn bare_hex(&mut self, number: u64)
        requires room { length self.old + 20 ≤ PLACES }
        ensures text { self.new ≡ self.old ++ hex number }
        ensures end { length self.new ≤ length self.old + 16 }
    {
        self.number::<16>(number, hex_length(number));
    }

    /// Puts a version X.Y.Z that has the form `xxxx.yy.zz`, 16, 8 and 8 bits.
    pub fn version(&mut self, version: u32)
        requires room { length self.old + 62 ≤ PLACES }
        ensures text { self.new ≡ self.old ++ version_text version }
        ensures end { length self.new ≤ length self.old + 62 }
    {
        let [patch, minor, _, _] = version.to_le_bytes();
        self.decimal(u64::from(version >> 16));
        self.text(b".");
        self.decimal(u64::from(minor));
        self.text(b".");
        self.decimal(u64::from(patch));
    }

    /// Puts each byte as two digits in base 16, in upper or lower case.
    pub fn hex_bytes(&mut self, bytes: &[u8], upper: bool)
        requires room { length self.old + 2 * length bytes.now ≤ PLACES }
        ensures text { self.new ≡ self.old ++ joined (map (byte_digits upper) bytes.now) }
        ensures end { length self.new ≡ length self.old + 2 * length bytes.now }
    {
        for &byte in bytes {
            self.text(&byte_digits(byte, upper));
        }
    }
}

// The two digits of a byte in base 16.
pub(crate) fn byte_digits(byte: u8, upper: bool) -> [u8; 2]
    ensures { result ≡ byte_digits upper byte }
{
    [digit(byte >> 4, upper), digit(byte & 0xf, upper)]
}
