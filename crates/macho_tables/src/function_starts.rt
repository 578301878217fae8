//! The addresses of functions, as the data of `LC_FUNCTION_STARTS` has them. (`mach-o/loader.h`)

ghost use Rattle.std.specs.Prelude.{◌≡◌, ◌<◌, ◌≤◌, length, IfSome, None};
ghost use Rattle.macho_fields.specs.Bytes.{bytes_of};
ghost use Rattle.macho_fields.specs.FirstPlace.{IsLeastPlace};
ghost use Rattle.macho_fields.specs.Layers.{NothingBreaks};
ghost use Rattle.macho_fields.specs.Rules.{BreaksImage as Breaks};
ghost use Rattle.macho_tables.specs.FileBytes.{AreFileBytes};
ghost use Rattle.macho_tables.specs.FunctionStarts.{next_start};
ghost use Rattle.macho_tables.specs.Functions.{IsLeastOfTable, IsNonZeroFrom};

use crate::data_table::data_table;
use crate::file_bytes::FileBytes;
use crate::numbers::read_uleb;
use crate::place::place_from;
use macho_fields::header::loader::LC_FUNCTION_STARTS;
use macho_fields::{Bytes, Span};
use macho_image::Image;
use std::alloc::{AllocError, Global};

/// Reads the first function past `address` from the data that is left: how far it is past `address`, as a
/// ULEB128. It returns the address of the function and the size of its number, or `None` past the last: at a
/// number 0, where no number ends within the data, or where the function would be at 2^64 or more.
pub fn next_start(table: Bytes, address: u64) -> Option<(u64, u64)>
    ensures next { result ≡ next_start (bytes_of table.entry) address }
    ensures size { IfSome result (λ start. (0 < start.1) × (start.1 ≤ length (bytes_of table.entry))) }
{
    let (distance, size) = read_uleb(table, 0)?;
    if distance == 0 {
        return None;
    }
    let start = address.checked_add(distance)?;
    Some((start, size))
}

/// Where the functions of an image first break each of their rules.
#[derive(Clone, Copy)]
pub struct FunctionStartSurvey {
    /// Where a number should be and none of 64 bits is, or the first byte that is not 0 past the number 0 that
    /// ends the table.
    pub number: Option<u64>,
    /// The number of the first function that is not at a byte of the file.
    pub start: Option<u64>,
}

impl FunctionStartSurvey {
    ghost use Rattle.std.specs.Prelude.{IfOk, OnErr, None};
    ghost use Rattle.macho_fields.specs.Layers.{NothingBreaks};
    ghost use Rattle.macho_fields.specs.Rules.{BreaksImage as Breaks};
    ghost use Rattle.macho_tables.specs.FileBytes.{HasManySegments};
    ghost use Rattle.macho_tables.specs.Functions.{IsLeastOfImage};

    /// Goes over the numbers of an image that breaks no rule of the layout, once. The places are those in the
    /// image. It takes memory only if the image has more than [`FEW_SEGMENTS`] mapped segments.
    ///
    /// [`FEW_SEGMENTS`]: crate::file_bytes::FEW_SEGMENTS
    pub fn of(alloc: Global, image: &Image) -> Result<FunctionStartSurvey, AllocError>
        requires { NothingBreaks (Breaks image.now None) }
        ensures least { IfOk result (IsLeastOfImage image.now) }
        ensures memory { OnErr result (HasManySegments image.now) }
    {
        let Some(table) = data_table(image, LC_FUNCTION_STARTS) else {
            return Ok(FunctionStartSurvey {
                number: None,
                start: None,
            });
        };
        let mut bytes = FileBytes::of(alloc, image)?;
        let found = survey(image, image.bytes().slice(table), &mut bytes);
        Ok(FunctionStartSurvey {
            number: place_from(table.start, found.number),
            start: place_from(table.start, found.start),
        })
    }
}

// Goes over the numbers of the table. The places are offsets in it.
fn survey(image: &Image, table: Bytes, bytes: &mut FileBytes) -> FunctionStartSurvey
    requires unbroken { NothingBreaks (Breaks image.now None) }
    requires bytes { AreFileBytes image.now bytes.old }
    ensures { IsLeastOfTable image.now (bytes_of table.entry) result }
{
    let mut functions = Functions::before(image);
    let mut place = 0;
    while place < table.len() {
        let Some((distance, next)) = read_uleb(table, place) else {
            return functions.survey(Some(place));
        };
        if distance == 0 {
            return functions.survey(first_nonzero_from(table, next));
        }
        functions = functions.with(image, bytes, place, distance);
        place = next;
    }
    functions.survey(None)
}

// The place of the first byte from `start` on that is not 0.
fn first_nonzero_from(table: Bytes, start: u64) -> Option<u64>
    requires { start ≤ length (bytes_of table) }
    ensures { IsLeastPlace (IsNonZeroFrom (bytes_of table.entry) start) result }
{
    table.first_nonzero(Span {
        start,
        len: table.len() - start,
    })
}

// What the numbers up to a place say of the functions.
#[derive(Clone, Copy)]
enum Functions {
    // All of them are at bytes of the file. The next number counts from this address.
    Sound(u64),
    // The one with the number at this place is the first that is not.
    Stray(u64),
    // The image has no base from which they count.
    Unknown,
}

impl Functions {
    ghost use Rattle.std.specs.Prelude.{◌≡◌, None};
    ghost use Rattle.macho_fields.specs.Image.{commands_of};
    ghost use Rattle.macho_fields.specs.Layers.{NothingBreaks};
    ghost use Rattle.macho_fields.specs.Rules.{BreaksImage as Breaks};
    ghost use Rattle.macho_fields.specs.Segment.{base_of};
    ghost use Rattle.macho_tables.specs.FileBytes.{AreFileBytes};
    ghost use Rattle.macho_tables.specs.Functions.{functions_from, IsNextFunction, stray_of};

    // Before the first number.
    fn before(image: &Image) -> Functions
        ensures { result ≡ functions_from (base_of image.now (commands_of image.now)) }
    {
        match image.base() {
            Some(base) => Functions::Sound(base),
            None => Functions::Unknown,
        }
    }

    // With the number at `place`.
    fn with(self, image: &Image, bytes: &mut FileBytes, place: u64, distance: u64) -> Functions
        requires unbroken { NothingBreaks (Breaks image.now None) }
        requires bytes { AreFileBytes image.now bytes.old }
        ensures functions { IsNextFunction image.now place distance self result }
        ensures same { AreFileBytes image.now bytes.new }
    {
        let Functions::Sound(from) = self else {
            return self;
        };
        match from.checked_add(distance) {
            Some(address) if bytes.has(image, address) => Functions::Sound(address),
            _ => Functions::Stray(place),
        }
    }

    // All of them, with where the numbers break their rule.
    fn survey(self, number: Option<u64>) -> FunctionStartSurvey
        ensures number { result.number ≡ number }
        ensures start { result.start ≡ stray_of self }
    {
        let start = match self {
            Functions::Stray(place) => Some(place),
            Functions::Sound(_) | Functions::Unknown => None,
        };
        FunctionStartSurvey { number, start }
    }
}
