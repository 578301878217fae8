//! The slices of a file.

ghost use Rattle.std.specs.Prelude.{◌≡◌, [], ◌∷◌, false, map, slice_get, All, ◌↔◌, IsTrue, IfOk, OnOk, IfErr, IfSome};
ghost use Rattle.std.specs.Option.{option_map};
ghost use Rattle.std.specs.Vec.{vec_capacity};
ghost use Rattle.macho_fields.specs.Bytes.{bytes_of};
ghost use Rattle.macho_fields.specs.Layers.{NothingBreaks, Continues, StopsAt};
ghost use Rattle.macho_fields.specs.Rules.{BreaksFile};
ghost use Rattle.macho_fields.specs.Universal.{entry_count, is_universal, slices_of, IsImage};
ghost use Rattle.macho_fields.specs.declared.rule.Rule.{Rule};
ghost use Rattle.macho_fat.specs.Slices.{slice_of, slices_in, capacity_of, listed_count};
ghost use Rattle.macho_fat.specs.Slices.{MarksRead, AreSlices, HasImageInside, MarksReadInside};
ghost use Rattle.macho_fat.specs.Slices.{IsFatFault, IsListFault};

use crate::check::check_file;
use crate::fault::FatFault;
use crate::rules::{Format, fat_truncated, is_image, magic};
use crate::table::Table;
use macho_fields::{Break, Bytes, Span};
use std::alloc::{AllocError, Global};
use std::marker::Model;
use std::slice::from_ref;

/// The part of a file that holds one image.
#[derive(Clone, Copy, Debug, PartialEq, Eq)]
pub struct Slice {
    /// Where it lies in the file, in bytes.
    pub span: Span,
    /// The `cputype` that its entry names, and the `cpusubtype` without the capability bits;
    /// `None` in a file that is one image. (`mach-o/fat.h`: `fat_arch`, `fat_arch_64`)
    pub arch: Option<(u32, u32)>,
    /// Whether it begins with the magic number of a 64-bit little-endian image. Other images are
    /// not read.
    pub read: bool,
}

/// The slices of a file, in order. The one slice of an image takes no memory.
#[derive(Drop)]
pub enum SliceList {
    /// That of a file that is one image: the whole of the file.
    One(Slice),
    /// Those of a universal file: one for each entry of the table.
    Many(Vec<Slice>),
}

impl SliceList {
    /// The slices in this list.
    pub fn as_slice(&self) -> &[Slice]
        ensures { result.now ≡ slices_in self.now }
    {
        match self {
            SliceList::One(slice) => from_ref(slice),
            SliceList::Many(slices) => slices,
        }
    }
}

/// The slices of a file that breaks none of the rules from `magic` to `fat-empty`. They are read from
/// the table, and take no memory until they are listed.
#[derive(Drop)]
pub struct FileSlices<'a> {
    file: Bytes<'a>,
    // `None` in a file that is one image.
    table: Option<Table<'a>>,
}

impl<'a> Model for FileSlices<'a> {
    ghost use Rattle.std.specs.Prelude.{List, ℕ};
    ghost use Rattle.macho_fields.specs.Bytes.{bytes_of};
    ghost use Rattle.macho_fat.specs.TableWalk.{HasSlices};

    ghost Value = { List ℕ };

    ghost view = { λ slices. bytes_of slices.file };

    ghost invariant = { λ slices. HasSlices (bytes_of slices.file) slices.table };
}

impl<'a> FileSlices<'a> {
    ghost use Rattle.std.specs.Prelude.{◌≡◌, length, slice_get, IfErr, IfOk, IfSome, OnErr};
    ghost use Rattle.std.specs.Option.{option_map};
    ghost use Rattle.macho_fields.specs.Bytes.{bytes_of};
    ghost use Rattle.macho_fields.specs.Layers.{NothingBreaks};
    ghost use Rattle.macho_fields.specs.Rules.{BreaksFile};
    ghost use Rattle.macho_fields.specs.Universal.{slices_of, IsUniversal};
    ghost use Rattle.macho_fat.specs.Slices.{slice_of, slices_in, capacity_of, listed_count};
    ghost use Rattle.macho_fat.specs.Slices.{AreSlices, IsFatFault, MarksRead};

    /// Decides the rules of a file, from `magic` to `fat-empty`, and returns its slices, or the first
    /// broken rule. `fat-overlap` and `fat-duplicate` take memory if the slices, or the numbers of the
    /// architectures, neither ascend nor descend: 24 bytes per entry, to sort them, which they free.
    pub fn check(alloc: Global, file: Bytes<'a>) -> Result<FileSlices<'a>, FatFault>
        ensures file { IfOk result (λ slices. slices ≡ bytes_of file.entry) }
        ensures refused { IfErr result (IsFatFault (bytes_of file.entry)) }
    {
        let table = check_file(alloc, file)?;
        Ok(FileSlices { file, table })
    }

    /// How many slices there are. The clause `unbroken` is what [`FileSlices::check`] decided.
    pub fn count(&self) -> u64
        ensures count { result ≡ length (slices_of self.now) }
        ensures unbroken { NothingBreaks (BreaksFile self.now) }
    {
        match &self.table {
            None => 1,
            Some(table) => u64::from(table.count()),
        }
    }

    /// The slice with this index, counted from 0 in the order of the table, or `None` past the last one.
    pub fn get(&self, index: u64) -> Option<Slice>
        ensures slice { option_map slice_of result ≡ slice_get (slices_of self.now) index }
        ensures read { IfSome result (MarksRead self.now) }
    {
        match &self.table {
            None => whole_at(self.file, index),
            Some(table) => listed_at(self.file, table, index),
        }
    }

    /// The slices as a list, with no spare capacity. It takes memory only for a universal file.
    pub fn list(&self, alloc: Global) -> Result<SliceList, AllocError>
        ensures slices { IfOk result (λ list. AreSlices self.now (slices_in list)) }
        ensures capacity { IfOk result (λ list. capacity_of list ≡ listed_count self.now) }
        ensures memory { OnErr result (IsUniversal self.now) }
    {
        match &self.table {
            None => Ok(SliceList::One(whole(self.file))),
            Some(table) => Ok(SliceList::Many(listed(alloc, table)?)),
        }
    }
}

/// The slices of a file: the whole of a file that is one image, and otherwise one slice for each
/// entry of the table, in order. If one of the rules of the file, from `magic` to `fat-empty`, is
/// broken, it returns the first broken rule.
///
/// It takes memory as [`slice_list`] does, and for the slice of a file that is one image.
pub fn slices(alloc: Global, file: Bytes) -> Result<Vec<Slice>, FatFault>
    ensures slices { IfOk result (λ slices.
        map slice_of slices.items ≡ slices_of (bytes_of file.entry)) }
    ensures read { IfOk result (λ slices. All (MarksRead (bytes_of file.entry)) slices.items) }
    ensures unbroken { OnOk result (NothingBreaks (BreaksFile (bytes_of file.entry))) }
    ensures refused { IfErr result (IsListFault (bytes_of file.entry)) }
{
    match slice_list(alloc, file)? {
        SliceList::One(slice) => {
            let mut slices = Vec::with_capacity(alloc, 1)?;
            slices.push_reserved(slice);
            Ok(slices)
        }
        SliceList::Many(slices) => Ok(slices),
    }
}

/// The slices of a file, as [`slices`] returns them, without memory for a file that is one image.
/// The list has no spare capacity.
///
/// Memory is allocated only for a universal file, and only if the rules from `magic` to `fat-align`
/// are unbroken. `fat-overlap` and `fat-duplicate` take it only if the slices, or the numbers of the
/// architectures, neither ascend nor descend: 24 bytes per entry, to sort them, which they free. The
/// list is made last.
pub fn slice_list(alloc: Global, file: Bytes) -> Result<SliceList, FatFault>
    ensures slices { IfOk result (λ list.
        map slice_of (slices_in list) ≡ slices_of (bytes_of file.entry)) }
    ensures read { IfOk result (λ list. All (MarksRead (bytes_of file.entry)) (slices_in list)) }
    ensures capacity { IfOk result (λ list. capacity_of list ≡ listed_count (bytes_of file.entry)) }
    ensures unbroken { OnOk result (NothingBreaks (BreaksFile (bytes_of file.entry))) }
    ensures refused { IfErr result (IsFatFault (bytes_of file.entry)) }
{
    let slices = FileSlices::check(alloc, file)?;
    Ok(slices.list(alloc)?)
}

/// The slice that [`slices`] lists at `index`, or `None` if it lists none there. It takes no
/// memory, and the same time whatever the index is. Only the rules `magic` and `fat-truncated` are
/// decided: the error is the first broken one, and a slice may be anywhere. One that does not lie
/// inside the file is not marked as read.
pub fn slice_at(file: Bytes, index: u64) -> Result<Option<Slice>, Break>
    ensures decides { Continues (BreaksFile (bytes_of file.entry)) Rule.FatTruncated result }
    ensures stops { StopsAt Rule.FatTruncated result }
    ensures slice { IfOk result (λ slice.
        option_map slice_of slice ≡ slice_get (slices_of (bytes_of file.entry)) index) }
    ensures read { IfOk result (λ slice. IfSome slice (MarksReadInside (bytes_of file.entry))) }
{
    match magic(file)? {
        Format::Image => Ok(whole_at(file, index)),
        Format::Universal => Ok(listed_at(file, &fat_truncated(file)?, index)),
    }
}

// The slice with this index in a file that is an image, which has one.
fn whole_at(file: Bytes, index: u64) -> Option<Slice>
    requires image { IsImage (bytes_of file) }
    requires plain { is_universal (bytes_of file) ≡ false }
    ensures slice { option_map slice_of result ≡ slice_get (slices_of (bytes_of file.entry)) index }
    ensures read { IfSome result (MarksReadInside (bytes_of file.entry)) }
{
    if index > 0 { None } else { Some(whole(file)) }
}

// The slice with this index in a table.
fn listed_at(file: Bytes, table: &Table, index: u64) -> Option<Slice>
    requires { table.now ≡ bytes_of file }
    ensures slice { option_map slice_of result ≡ slice_get (slices_of (bytes_of file.entry)) index }
    ensures read { IfSome result (MarksReadInside (bytes_of file.entry)) }
{
    if index >= u64::from(table.count()) {
        return None;
    }
    let entry = table.entry(index as u32);
    Some(Slice {
        span: entry.span,
        arch: Some(entry.arch),
        read: has_image(file, entry.span),
    })
}

// Whether a span lies inside the file, and begins with the magic number of a 64-bit little-endian image.
fn has_image(file: Bytes, span: Span) -> bool
    ensures { IsTrue result ↔ HasImageInside (bytes_of file.entry) span }
{
    match file.part(span) {
        Some(bytes) => is_image(Bytes::new(bytes)),
        None => false,
    }
}

// The one slice of a file that is an image.
fn whole(file: Bytes) -> Slice
    requires image { IsImage (bytes_of file) }
    requires plain { is_universal (bytes_of file) ≡ false }
    ensures slices { AreSlices (bytes_of file.entry) (result ∷ []) }
    ensures inside { MarksReadInside (bytes_of file.entry) result }
{
    Slice {
        span: Span {
            start: 0,
            len: file.len(),
        },
        arch: None,
        read: true,
    }
}

// The slices of a table, in order, in a file that breaks none of its rules.
fn listed(alloc: Global, table: &Table) -> Result<Vec<Slice>, AllocError>
    requires { NothingBreaks (BreaksFile table.now) }
    ensures slices { IfOk result (λ slices. AreSlices table.now slices.items) }
    ensures capacity { IfOk result (λ slices. vec_capacity slices ≡ entry_count table.now) }
{
    let mut slices = Vec::with_capacity(alloc, table.count() as usize)?;
    for k in 0..table.count() {
        let entry = table.entry(k);
        slices.push_reserved(Slice {
            span: entry.span,
            arch: Some(entry.arch),
            read: is_image(table.slice_bytes(k)),
        });
    }
    Ok(slices)
}
