//! Names that are the same: the first of many that an earlier one repeats.

ghost use Rattle.std.specs.Prelude.{◌≡◌, ℕ, ◌+◌, ◌≤◌, ◌<◌, ◌↔◌, IsTrue, length, slice_index};
ghost use Rattle.macho_fields.specs.Bytes.{bytes_of};
ghost use Rattle.macho_fields.specs.Field.{part};
ghost use Rattle.macho_fields.specs.FirstPlace.{IsLeastPlace};
ghost use Rattle.macho_image.specs.Segment.{short_name};
ghost use Rattle.macho_readers.specs.Names.{number_of, AreGrouped, RepeatsNames, HaveSameNames};
ghost use Rattle.macho_readers.specs.Segments.{HasTail};

use macho_fields::header::loader::SHORT_NAME_SIZE;
use macho_fields::{Bytes, Span};
use macho_tables::place::lesser;

/// The most items whose names or addresses are compared in pairs, which takes no memory.
pub const FEW_NAMES: usize = 64;

// The numbers of the two names of an item, and where it begins. An item with one name has an empty one besides.
#[derive(Clone, Copy)]
pub(crate) struct Named {
    pub(crate) segment: u128,
    pub(crate) section: u128,
    pub(crate) place: u64,
}

// The least place of an item with the names of an item at a lesser place. For n items it takes time in the order of
// n log n, and no memory: it sorts the items by their names.
pub(crate) fn least_repeated(items: &mut [Named]) -> Option<u64>
    ensures { IsLeastPlace (RepeatsNames items.old) result }
{
    items.sort_unstable_by_key(|item| (item.segment, item.section));
    least_in_groups(items)
}

// The same, where items with the same names stand next to each other.
fn least_in_groups(items: &[Named]) -> Option<u64>
    requires { AreGrouped items.now }
    ensures { IsLeastPlace (RepeatsNames items.now) result }
{
    // The item at the least place, among those with its names that were passed.
    let mut first = *items.first()?;
    let mut found = None;
    for item in items {
        if !has_same_names(item, &first) {
            first = *item;
        } else if item.place < first.place {
            found = lesser(found, Some(first.place));
            first = *item;
        } else if first.place < item.place {
            found = lesser(found, Some(item.place));
        }
    }
    found
}

// Whether the two items have the same names.
fn has_same_names(one: &Named, other: &Named) -> bool
    ensures { IsTrue result ↔ HaveSameNames one.now other.now }
{
    one.segment == other.segment && one.section == other.section
}

// The number whose digits to the base 256 are the bytes of the name in the 16 at `place`. Each name has its own number.
pub(crate) fn name_number(image: Bytes, place: u64) -> u128
    requires { place + SHORT_NAME_SIZE ≤ length (bytes_of image) }
    ensures { result ≡ number_of (short_name (bytes_of image.entry) place) }
{
    let mut number = 0;
    for byte in name_field(image, place) {
        if *byte == 0 {
            return number;
        }
        number = number * 256 + u128::from(*byte);
    }
    number
}

// Whether a byte of the 16 at `place` is not zero, and comes after one that is.
pub(crate) fn has_tail(image: Bytes, place: u64) -> bool
    requires { place + SHORT_NAME_SIZE ≤ length (bytes_of image) }
    ensures { IsTrue result ↔ HasTail (bytes_of image.entry) place }
{
    let mut is_ended = false;
    for byte in name_field(image, place) {
        if *byte == 0 {
            is_ended = true;
        } else if is_ended {
            return true;
        }
    }
    false
}

// The 16 bytes at `place`.
pub(crate) fn name_field(image: Bytes, place: u64) -> &[u8]
    requires { place + SHORT_NAME_SIZE ≤ length (bytes_of image) }
    ensures { result.now ≡ part place 16 (bytes_of image.entry) }
{
    image.read_part(Span {
        start: place,
        len: SHORT_NAME_SIZE,
    })
}

// Does nothing. Proofs learn from it that each byte of the image fits in 8 bits, by which names are told apart.
pub(crate) fn note_bytes(image: Bytes)
    ensures { (k : ℕ) → slice_index (bytes_of image.entry) k < 256 }
{
    note_items(image.read_part(Span {
        start: 0,
        len: image.len(),
    }));
}

fn note_items(bytes: &[u8])
    ensures { (k : ℕ) → slice_index bytes.now k < 256 }
{
    let _bytes = bytes;
}
