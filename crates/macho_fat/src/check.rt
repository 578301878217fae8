//! The rules of a file, in their order.

ghost use Rattle.std.specs.Prelude.{◌≡◌, false, IfOk, OnOk, IfErr, MatchOption};
ghost use Rattle.macho_fields.specs.Bytes.{bytes_of};
ghost use Rattle.macho_fields.specs.Layers.{NothingBreaks};
ghost use Rattle.macho_fields.specs.Rules.{BreaksFile};
ghost use Rattle.macho_fields.specs.Universal.{is_universal, IsUniversal, IsImage};
ghost use Rattle.macho_fat.specs.Slices.{IsFatFault};

use crate::fault::FatFault;
use crate::rules::{Format, Magics, fat_truncated, magic};
use crate::survey::EntrySurvey;
use crate::table::Table;
use macho_fields::Bytes;
use std::alloc::Global;

// Decides the rules of a file, from `magic` to `fat-empty`, and returns the first broken one,
// otherwise the table of a universal file. A file that is one image has none. Memory is taken only
// for `fat-overlap` and `fat-duplicate`, if the entries are unordered.
#[tactic(auto, using(crate::proofs::Faults::break_passed))]
pub(crate) fn check_file<'a>(alloc: Global, file: Bytes<'a>) -> Result<Option<Table<'a>>, FatFault>
    ensures unbroken { OnOk result (NothingBreaks (BreaksFile (bytes_of file.entry))) }
    ensures refused { IfErr result (IsFatFault (bytes_of file.entry)) }
    ensures table { IfOk result (λ table. MatchOption table
        (IsImage (bytes_of file.entry) × (is_universal (bytes_of file.entry) ≡ false))
        (λ table. (table ≡ bytes_of file.entry) × IsUniversal (bytes_of file.entry))) }
{
    let table = match magic(file)? {
        Format::Image => return Ok(None),
        Format::Universal => fat_truncated(file)?,
    };
    let survey = EntrySurvey::of(&table);
    survey.fat_slice_outside()?;
    survey.fat_slice_in_table()?;
    survey.fat_align()?;
    survey.fat_overlap(alloc)?;
    survey.fat_duplicate(alloc)?;
    let magics = Magics::of(&table);
    magics.fat_slice_magic()?;
    magics.fat_empty()?;
    Ok(Some(table))
}
