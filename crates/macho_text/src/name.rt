//! Names as text.

ghost use Rattle.std.specs.Prelude.{◌≡◌, ℕ, ◌+◌, ◌<◌, ◌≤◌, ◌↔◌, ◌++◌, false, length, map, slice_index, IsTrue, OnOk};
ghost use Rattle.macho_text.specs.Stream.{joined};
ghost use Rattle.macho_text.specs.Name.{is_plain, escaped, quoted};
ghost use Rattle.macho_text.specs.Writer.{HoldsText};

use crate::line::{Line, PLACES, ROOM};
use crate::number::byte_digits;
use crate::stream::Output;
use crate::transfer::WriteFault;

// `1` for each byte that is plain, and `0` for every other one.
static PLAIN_BYTES: [u8; 256] = *b"0000000000000000000000000000000011011111111111111111111111111111\
      1111111111111111111111111111011111111111111111111111111111111110\
      0000000000000000000000000000000000000000000000000000000000000000\
      0000000000000000000000000000000000000000000000000000000000000000";

// Fewer bytes than these are judged one by one.
const MANY_BYTES: usize = 8;

impl Line {
    /// Puts a name in double quotes. A double quote, a backslash and every byte that is not printable
    /// ASCII are put as `\x` and two lower-case digits in base 16.
    pub fn name<W: Output>(&mut self, name: &[u8], writer: &mut W) -> Result<(), WriteFault>
        ensures room { OnOk result (length self.new + ROOM ≤ PLACES) }
        ensures text { HoldsText W.Output writer.old writer.new result self.new
            (self.old ++ quoted name.now) }
    {
        if self.has_room(name.len() + 2) && are_plain(name) {
            self.text(b"\"");
            self.bytes(name);
            self.text(b"\"");
            return Ok(());
        }
        self.word(b"\"", writer)?;
        self.escaped(name, writer)?;
        self.word(b"\"", writer)
    }

    // Puts each run of plain bytes as it is, and every other byte escaped.
    #[inline(never)]
    fn escaped<W: Output>(&mut self, name: &[u8], writer: &mut W) -> Result<(), WriteFault>
        ensures { HoldsText W.Output writer.old writer.new result self.new
            (self.old ++ joined (map escaped name.now)) }
    {
        let mut rest = name;
        while let Some((&first, after)) = rest.split_first() {
            let plain = count_plain(rest);
            if plain == 0 {
                self.word(&escape(first), writer)?;
                rest = after;
            } else {
                self.word(&rest[..plain], writer)?;
                rest = &rest[plain..];
            }
        }
        Ok(())
    }
}

// Whether all bytes are plain. It looks at each of many, so that several can be judged at once.
fn are_plain(bytes: &[u8]) -> bool
    ensures { IsTrue result
        ↔ ((k : ℕ) → k < length bytes.now → IsTrue (is_plain (slice_index bytes.now k))) }
{
    if bytes.len() < MANY_BYTES {
        return count_plain(bytes) == bytes.len();
    }
    let mut plain = true;
    for &byte in bytes {
        plain &= is_plain(byte);
    }
    plain
}

// How many bytes at the front are plain.
fn count_plain(bytes: &[u8]) -> usize
    ensures bound { result ≤ length bytes.now }
    ensures plain { (k : ℕ) → k < result → IsTrue (is_plain (slice_index bytes.now k)) }
    ensures end { result < length bytes.now → is_plain (slice_index bytes.now result) ≡ false }
{
    for (index, &byte) in bytes.iter().enumerate() {
        if !is_listed_plain(byte) {
            return index;
        }
    }
    bytes.len()
}

// Whether a byte is written as it is.
fn is_plain(byte: u8) -> bool
    ensures { result ≡ is_plain byte }
{
    matches!(byte, b' '..=b'~') && byte != b'"' && byte != b'\\'
}

// The same, by the table.
fn is_listed_plain(byte: u8) -> bool
    ensures { result ≡ is_plain byte }
{
    PLAIN_BYTES[byte as usize] == b'1'
}

// A byte that is not plain as `\x` and two digits.
fn escape(byte: u8) -> [u8; 4]
    requires { is_plain byte ≡ false }
    ensures { result ≡ escaped byte }
{
    let [high, low] = byte_digits(byte, false);
    [b'\\', b'x', high, low]
}
