//! Fields of an image as text.

ghost use Rattle.std.specs.Prelude.{◌≡◌, ◌+◌, ◌*◌, ◌≤◌, [], ◌∷◌, ◌++◌, codes, length, map};
ghost use Rattle.macho_text.specs.Number.{upper_byte_hex};
ghost use Rattle.macho_text.specs.Stream.{joined};
ghost use Rattle.macho_lines.specs.Line.{contents_text, grouped, letter, protection_text};
ghost use Rattle.macho_lines.specs.LineParts.{extent_text};

use macho_fields::header::vm_prot::{VM_PROT_EXECUTE, VM_PROT_READ, VM_PROT_WRITE};
use macho_text::line::{Line, PLACES};

// Puts a part of memory or of a file: a word that ends in `0x`, its first place, and its size.
#[inline(always)]
pub(crate) fn put_extent<const N: usize>(word: &[u8; N], start: u64, size: u64, line: &mut Line)
    requires room { length line.old + length word.now + 48 ≤ PLACES }
    ensures text { line.new ≡ line.old ++ extent_text word.now start size }
    ensures end { length line.new ≤ length line.old + length word.now + 48 }
{
    line.text(word);
    line.bare_hex(start);
    line.text(b" size 0x");
    line.bare_hex(size);
}

// Puts a UUID, its bytes in groups of 4, 2, 2, 2 and 6.
pub(crate) fn put_uuid(uuid: &[u8; 16], line: &mut Line)
    requires room { length line.old + 36 ≤ PLACES }
    ensures text { line.new ≡ line.old ++ grouped uuid.now }
    ensures end { length line.new ≡ length line.old + 36 }
{
    line.hex_bytes(&uuid[..4], true);
    put_group(&uuid[4..6], line);
    put_group(&uuid[6..8], line);
    put_group(&uuid[8..10], line);
    put_group(&uuid[10..16], line);
}

// Puts a hyphen and a group of the bytes of a UUID.
fn put_group(bytes: &[u8], line: &mut Line)
    requires room { length line.old + 1 + 2 * length bytes.now ≤ PLACES }
    ensures text { line.new
        ≡ line.old ++ codes "-" ++ joined (map upper_byte_hex bytes.now) }
    ensures end { length line.new ≡ length line.old + 1 + 2 * length bytes.now }
{
    line.text(b"-");
    line.hex_bytes(bytes, true);
}

// Puts where the bytes of a section begin, or that they are zeros.
pub(crate) fn put_contents(place: Option<u64>, line: &mut Line)
    requires room { length line.old + 27 ≤ PLACES }
    ensures text { line.new ≡ line.old ++ contents_text place }
    ensures end { length line.new ≤ length line.old + 27 }
{
    let Some(place) = place else {
        line.text(b"zero");
        return;
    };
    line.text(b"file ");
    line.hex(place);
}

// Puts a protection in three letters, as `r-x`.
pub(crate) fn put_protection(bits: u64, line: &mut Line)
    requires room { length line.old + 3 ≤ PLACES }
    ensures text { line.new ≡ line.old ++ protection_text bits }
    ensures end { length line.new ≡ length line.old + 3 }
{
    line.text(&protection_letters(bits));
}

// A protection in three letters, as `r-x`.
fn protection_letters(bits: u64) -> [u8; 3]
    ensures { result ≡ protection_text bits }
{
    [
        letter(bits, VM_PROT_READ, b'r'),
        letter(bits, VM_PROT_WRITE, b'w'),
        letter(bits, VM_PROT_EXECUTE, b'x'),
    ]
}

// The letter of a bit if it is set, otherwise a hyphen.
fn letter(bits: u64, bit: u32, set: u8) -> u8
    ensures { result ∷ [] ≡ letter bits bit (set ∷ []) }
{
    if bits & u64::from(bit) == 0 {
        b'-'
    } else {
        set
    }
}
