//! The relocations of a section. (`mach-o/reloc.h`)

ghost use Rattle.std.specs.Prelude.{◌≡◌, ◌+◌, ◌≤◌, ◌^◌, ◌<◌, length, None};
ghost use Rattle.macho_fields.specs.Bytes.{bytes_of};
ghost use Rattle.macho_fields.specs.Layers.{NothingBreaks};
ghost use Rattle.macho_fields.specs.Rules.{BreaksImage};
ghost use Rattle.macho_rows.specs.Cursor.{start, IsBatch};
ghost use Rattle.macho_rows.specs.Image.{image_in};
ghost use Rattle.macho_c.specs.Relocations.{relocation_row, relocations_left, HasAllRelocations};

use macho_fields::Bytes;
use macho_fields::header::reloc::RELOCATION_INFO_SIZE;
use macho_rows::cursor::KesvuotCursor;
use macho_rows::image::KesvuotImage;
use macho_rows::table::{Table, fill};
use macho_symbols::reloc::Relocation;

/// A relocation. (`relocation_info`)
#[repr(C)]
#[derive(Clone, Copy)]
pub struct KesvuotRelocation {
    pub address: u32,
    /// 24 bits.
    pub symbolnum: u32,
    /// 1 bit.
    pub pcrel: u8,
    /// 2 bits: the exponent of a power of 2.
    pub length: u8,
    /// `r_extern`, 1 bit.
    pub external: u8,
    /// `r_type`, 4 bits.
    pub kind: u8,
    /// The highest bit of `address`, `R_SCATTERED`.
    pub scattered: u32,
}

/// Writes the relocations of a section, by its `reloff` and `nreloc`, from the cursor on to the rows of the
/// table, until either runs out, moves the cursor past them, and returns how many it wrote. Later rows are
/// unchanged. It does not scan the relocations before them.
#[unsafe(no_mangle)]
pub extern "C" fn kesvuot_read_relocations(
    file: &[u8],
    image: &KesvuotImage,
    reloff: u32,
    nreloc: u32,
    cursor: &mut KesvuotCursor,
    rows: &mut [KesvuotRelocation],
) -> usize
    ensures rows { IsBatch (relocations_left (image_in file.now image.now) reloff nreloc) cursor.old
        cursor.new result rows.old rows.new }
    ensures all { NothingBreaks (BreaksImage (image_in file.now image.now) None)
        → HasAllRelocations (image_in file.now image.now) reloff nreloc
        (relocations_left (image_in file.now image.now) reloff nreloc start) }
{
    let relocations = Relocations {
        image: image.held(file).bytes,
        reloff: u64::from(reloff),
        nreloc: u64::from(nreloc),
    };
    fill(&relocations, cursor, rows)
}

// The relocations of a section.
#[derive(Clone, Copy)]
struct Relocations<'a> {
    image: Bytes<'a>,
    reloff: u64,
    nreloc: u64,
}

impl<'a> Table for Relocations<'a> {
    ghost use Rattle.macho_fields.specs.Bytes.{bytes_of};
    ghost use Rattle.macho_c.specs.Relocations.{relocations_left};

    type Row = KesvuotRelocation;

    ghost left = { λ t. relocations_left (bytes_of t.image) t.reloff t.nreloc };

    fn next(&self, cursor: &mut KesvuotCursor) -> Option<KesvuotRelocation> {
        if !self
            .image
            .contains_table(self.reloff, self.nreloc, RELOCATION_INFO_SIZE)
        {
            return None;
        }
        if cursor.items >= self.nreloc {
            return None;
        }
        let place = self.reloff + RELOCATION_INFO_SIZE * cursor.items;
        cursor.items += 1;
        Some(row_of(self.image, place))
    }
}

// The row of the relocation at a place.
fn row_of(image: Bytes, place: u64) -> KesvuotRelocation
    requires { place + 8 ≤ length (bytes_of image) }
    ensures { result ≡ relocation_row (bytes_of image.entry) place }
{
    let relocation = Relocation::read(image, place);
    KesvuotRelocation {
        address: relocation.address,
        symbolnum: relocation.symbolnum,
        pcrel: u8::from(relocation.is_relative),
        length: relocation.length,
        external: u8::from(relocation.is_external),
        kind: relocation.kind,
        scattered: relocation.address >> 31,
    }
}
