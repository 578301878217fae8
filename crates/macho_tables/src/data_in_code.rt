//! Data in code, as the data of `LC_DATA_IN_CODE` describes it. (`mach-o/loader.h`)

ghost use Rattle.std.specs.Prelude.{◌≡◌, ◌+◌, ◌≤◌, ◌<◌, ◌↔◌, ℕ, List, length, true, None, IfOk, OnErr, IsTrue};
ghost use Rattle.macho_fields.specs.Bytes.{bytes_of};
ghost use Rattle.macho_fields.specs.FirstPlace.{IsLeastPlace};
ghost use Rattle.macho_fields.specs.Layers.{NothingBreaks};
ghost use Rattle.macho_fields.specs.Rules.{BreaksImage as Breaks};
ghost use Rattle.macho_tables.specs.CodeParts.{AreCodeParts, HasSeveralCodeParts};
ghost use Rattle.macho_tables.specs.DataInCode.{is_known_kind as is_known_kind_of, LiesOutsideCode, BadEntry, BreaksDataInCode};
ghost use Rattle.macho_strict.specs.Rules.{BreaksStrictImage};

use crate::code_parts::CodeParts;
use crate::data_table::data_table;
use crate::fields::{half_at, word_at};
use crate::place::place_from;
use macho_fields::header::loader::{
    DATA_IN_CODE_ENTRY_SIZE, DICE_KIND_ABS_JUMP_TABLE32, DICE_KIND_DATA, DICE_KIND_JUMP_TABLE8,
    DICE_KIND_JUMP_TABLE16, DICE_KIND_JUMP_TABLE32, LC_DATA_IN_CODE,
};
use macho_fields::{Bytes, Span};
use macho_image::Image;
use std::alloc::{AllocError, Global};

// The offsets of its fields.
const OFFSET: u64 = 0;

const LENGTH: u64 = 4;

const KIND: u64 = 6;

/// Data in code. (`data_in_code_entry`)
#[derive(Clone, Copy)]
pub struct DataInCodeEntry {
    /// Where it begins in the image.
    pub offset: u32,
    /// Its size in bytes.
    pub length: u16,
    /// What it is, as `DICE_KIND_DATA` and the constants beside it say.
    pub kind: u16,
}

impl DataInCodeEntry {
    ghost use Rattle.std.specs.Prelude.{◌≡◌, ◌+◌, ◌≤◌, ◌↔◌, ℕ, List, length, IsTrue};
    ghost use Rattle.macho_fields.specs.Bytes.{bytes_of};
    ghost use Rattle.macho_tables.specs.CodeParts.{AreCodeParts};
    ghost use Rattle.macho_tables.specs.DataInCode.{entry_at, bytes_of_entry, IsBadEntry};

    /// The entry at a place, which is inside.
    pub fn read(bytes: Bytes, place: u64) -> DataInCodeEntry
        requires { place + DATA_IN_CODE_ENTRY_SIZE ≤ length (bytes_of bytes) }
        ensures { result ≡ entry_at (bytes_of bytes.entry) place }
    {
        DataInCodeEntry {
            offset: word_at(bytes, place + OFFSET),
            length: half_at(bytes, place + LENGTH),
            kind: half_at(bytes, place + KIND),
        }
    }

    /// The bytes that it describes.
    pub fn bytes(self) -> Span
        ensures { result ≡ bytes_of_entry self }
    {
        Span {
            start: u64::from(self.offset),
            len: u64::from(self.length),
        }
    }

    // Whether its kind has no meaning, or its bytes are not in this code.
    fn is_bad(self, code: &CodeParts) -> bool
        ensures { (image : List ℕ) → AreCodeParts image code.now → IsTrue result ↔ IsBadEntry image self }
    {
        !is_known_kind(self.kind) || lies_outside(code, self.bytes())
    }
}

// Whether there are bytes, and they are not all in one part of the code.
fn lies_outside(code: &CodeParts, bytes: Span) -> bool
    ensures { (image : List ℕ) → AreCodeParts image code.now → IsTrue result ↔ LiesOutsideCode image bytes }
{
    bytes.len > 0 && !code.has(bytes)
}

/// Whether the kind has a meaning.
pub fn is_known_kind(kind: u16) -> bool
    ensures { result ≡ is_known_kind_of kind }
{
    matches!(
        kind,
        DICE_KIND_DATA
            | DICE_KIND_JUMP_TABLE8
            | DICE_KIND_JUMP_TABLE16
            | DICE_KIND_JUMP_TABLE32
            | DICE_KIND_ABS_JUMP_TABLE32
    )
}

/// The place of the first entry whose kind has no meaning, or whose bytes are not all file bytes of one segment
/// that may be executed; or the start of the table, if its size is not a multiple of an entry's. The image
/// breaks no rule of the layout and no strict rule. It takes memory only if several segments may be executed.
pub fn data_in_code(alloc: Global, image: &Image) -> Result<Option<u64>, AllocError>
    requires unbroken { NothingBreaks (Breaks image.now None) }
    requires strictly { NothingBreaks (BreaksStrictImage image.now) }
    ensures least { IfOk result (IsLeastPlace (BreaksDataInCode image.now)) }
    ensures memory { OnErr result (HasSeveralCodeParts image.now) }
{
    let Some(table) = data_table(image, LC_DATA_IN_CODE) else {
        return Ok(None);
    };
    let code = CodeParts::of(alloc, image)?;
    let found = first_bad(image.bytes().slice(table), &code);
    Ok(place_from(table.start, found))
}

// The offset of the first bad entry of the table, or 0 if its size is not a multiple of an entry's.
fn first_bad(table: Bytes, code: &CodeParts) -> Option<u64>
    ensures { (image : List ℕ) → AreCodeParts image code.now
        → IsLeastPlace (BadEntry image (bytes_of table.entry)) result }
{
    if table.len() % DATA_IN_CODE_ENTRY_SIZE != 0 {
        return Some(0);
    }
    for index in 0..table.len() / DATA_IN_CODE_ENTRY_SIZE {
        let place = index * DATA_IN_CODE_ENTRY_SIZE;
        if DataInCodeEntry::read(table, place).is_bad(code) {
            return Some(place);
        }
    }
    None
}
