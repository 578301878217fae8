//! The second verdict, without memory. Each rule of the file, of segments, of sections and of symbols
//! is decided by a separate walk, which the first verdict does not share; `segment-overlap` and
//! `symbol-name` are decided in another way too. What is tested of one segment, section or symbol
//! is the same in both, and so are the other rules of an opened image.

ghost use Rattle.std.specs.Prelude.{◌≡◌, ◌<◌, ◌↔◌, ℕ, None, OnOk, IfErr, IfSome};
ghost use Rattle.macho_fields.specs.Bytes.{bytes_of};
ghost use Rattle.macho_fields.specs.First.{rank, IsFirstBroken, IsUnbroken};
ghost use Rattle.macho_fields.specs.Layers.{Decides, KeptBelow, NothingBreaks};
ghost use Rattle.macho_fields.specs.Rules.{BreaksFile, BreaksImage};
ghost use Rattle.macho_fields.specs.Universal.{entry_count, entry_slice, slice_bytes, IsUniversal};
ghost use Rattle.macho_fields.specs.declared.rule.Rule.{Rule};
ghost use Rattle.macho_rules.specs.Check.{KeptBefore};
ghost use Rattle.macho_second.specs.Verdict.{IsSliceBreak};

use crate::entries::Entries;
use crate::file::{
    fat_align, fat_duplicate, fat_empty, fat_overlap, fat_slice_in_table, fat_slice_magic,
    fat_slice_outside, fat_truncated, is_image, is_universal, magic,
};
use crate::sections::judge_sections;
use crate::segments::judge_segments;
use crate::symbols::judge_symbols;
use macho_fields::{Break, Bytes};
use macho_image::Image;
use macho_rules::entry::entry;
use macho_rules::symbols::indirect_index;
use macho_rules::tables::{symbol_group, table_range};

/// The first broken rule of a file, with its place in the file, or `None` if no rule is broken.
///
/// It takes no memory, and compares all pairs: for n slices or segments it takes time in the order
/// of n^2, and for each symbol with a name it searches the strings. Its purpose is a comparison
/// with [`verify`](macho_rules::verify), without its slices, its walks that note several rules at once,
/// or its sorted lists.
pub fn slow_first(file: &[u8]) -> Option<Break>
    ensures unbroken { (result ≡ None) ↔ IsUnbroken file.now }
    ensures first { IfSome result (IsFirstBroken file.now) }
{
    judge_file(Bytes::new(file)).err()
}

// Decides all rules of a file, in their order.
fn judge_file(file: Bytes) -> Result<(), Break>
    ensures unbroken { OnOk result (IsUnbroken (bytes_of file.entry)) }
    ensures first { IfErr result (IsFirstBroken (bytes_of file.entry)) }
{
    magic(file)?;
    if is_universal(file) {
        judge_universal(file)
    } else {
        judge_image(file, None)
    }
}

// Decides the rules of a universal file, and then the rules of its images.
fn judge_universal(file: Bytes) -> Result<(), Break>
    requires universal { IsUniversal (bytes_of file) }
    requires kept { KeptBelow (BreaksFile (bytes_of file)) (rank Rule.FatTruncated) }
    ensures unbroken { OnOk result (IsUnbroken (bytes_of file.entry)) }
    ensures first { IfErr result (IsFirstBroken (bytes_of file.entry)) }
{
    let entries = fat_truncated(file)?;
    judge_entries(entries)?;
    judge_images(entries)
}

// Decides the rules of the entries of a universal file, in their order.
fn judge_entries(entries: Entries) -> Result<(), Break>
    requires { KeptBelow (BreaksFile (bytes_of entries.file)) (rank Rule.FatSliceOutside) }
    ensures { Decides (BreaksFile (bytes_of entries.entry.file)) result }
{
    fat_slice_outside(entries)?;
    fat_slice_in_table(entries)?;
    fat_align(entries)?;
    fat_overlap(entries)?;
    fat_duplicate(entries)?;
    fat_slice_magic(entries)?;
    fat_empty(entries)
}

// Decides the rules of each 64-bit slice, in the order of the table.
fn judge_images(entries: Entries) -> Result<(), Break>
    requires { NothingBreaks (BreaksFile (bytes_of entries.file)) }
    ensures unbroken { OnOk result (IsUnbroken (bytes_of entries.entry.file)) }
    ensures first { IfErr result (IsFirstBroken (bytes_of entries.entry.file)) }
{
    for k in 0..entries.count {
        if is_image(entries.bytes(k)) {
            judge_slice(entries, k)?;
        }
    }
    Ok(())
}

// Decides the rules of the image in the slice of entry `k`. The place of a break is its offset in
// the file.
fn judge_slice(entries: Entries, k: u32) -> Result<(), Break>
    requires entry { k < entry_count (bytes_of entries.file) }
    requires inside { (place : ℕ) → ¬ BreaksFile (bytes_of entries.file) Rule.FatSliceOutside place }
    ensures unbroken { let slice = entry_slice (bytes_of entries.entry.file) k in OnOk result
        (NothingBreaks (BreaksImage (slice_bytes (bytes_of entries.entry.file) slice) slice.arch)) }
    ensures first { let file = bytes_of entries.entry.file in
        IfErr result (IsSliceBreak file (entry_slice file k)) }
{
    match judge_image(entries.bytes(k), Some(entries.arch(k))) {
        Ok(()) => Ok(()),
        Err(broken) => {
            let place = entries.span(k).start + broken.place;
            Err(Break::at(broken.rule, place))
        }
    }
}

// Decides the rules of an image, which a universal file may name for an architecture.
fn judge_image(bytes: Bytes, arch: Option<(u32, u32)>) -> Result<(), Break>
    ensures { Decides (BreaksImage (bytes_of bytes.entry) arch) result }
{
    let image = Image::open(bytes, arch)?;
    judge_opened(&image)
}

// Decides the rules of an opened image.
fn judge_opened(image: &Image) -> Result<(), Break>
    requires { KeptBefore image.now Rule.SegmentAddress }
    ensures { Decides (BreaksImage image.now None) result }
{
    judge_segments(image)?;
    judge_sections(image)?;
    table_range(image)?;
    symbol_group(image)?;
    judge_symbols(image)?;
    indirect_index(image)?;
    entry(image, image.base())
}
