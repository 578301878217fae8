//! The verdict on a file.

ghost use Rattle.std.specs.Prelude.{◌≡◌, ◌+◌, ◌≤◌, ◌<◌, ◌^◌, ◌↔◌, ◌⊎◌, OnOk, IfOk, IfErr, IfSome, IsSome, IsSomeAnd, IsTrue, length, slice_get, None};
ghost use Rattle.std.specs.Option.{option_map};
ghost use Rattle.macho_fields.specs.Bytes.{bytes_of};
ghost use Rattle.macho_fields.specs.Field.{part};
ghost use Rattle.macho_fields.specs.First.{IsUnbroken};
ghost use Rattle.macho_fields.specs.Layers.{NothingBreaks};
ghost use Rattle.macho_fields.specs.Loader.{IsSound, IsSoundImage};
ghost use Rattle.macho_fields.specs.Rules.{BreaksImage};
ghost use Rattle.macho_fields.specs.Universal.{slice_bytes, IsImage, slices_of, HasImage};
ghost use Rattle.macho_fields.specs.Image.{commands_of};
ghost use Rattle.macho_fat.specs.Slices.{slice_of};
ghost use Rattle.macho_image.specs.Walk.{HasLandmarks};
ghost use Rattle.macho_rules.specs.Verdict.{IsRefusal, IsImageRefusal, IsSliceRefusal, WasFound};

use crate::check::check_image;
use crate::refusal::{Refusal, in_file};
use macho_fat::{FileSlices, Slice, SliceList};
use macho_fields::{Bytes, Span};
use macho_image::{Image, Landmarks};
use std::alloc::Global;
use std::marker::Model;

// The landmarks of the image in a span of a file.
#[derive(Clone, Copy)]
struct Found {
    span: Span,
    landmarks: Landmarks,
}

/// A file that breaks no rule, with its slices.
#[derive(Drop)]
pub struct Verified<'a> {
    file: Bytes<'a>,
    slices: SliceList,
    // What was found of the image in the last slice, which need not be scanned again.
    found: Option<Found>,
}

impl<'a> Model for Verified<'a> {
    ghost use Rattle.std.specs.Prelude.{List, ℕ};
    ghost use Rattle.macho_fields.specs.Bytes.{bytes_of};
    ghost use Rattle.macho_fat.specs.Slices.{slices_in};
    ghost use Rattle.macho_rules.specs.Verdict.{IsVerified};

    ghost Value = { List ℕ };

    ghost view = { λ verified. bytes_of verified.file };

    ghost invariant = { λ verified.
        IsVerified (bytes_of verified.file) (slices_in verified.slices) verified.found };
}

/// Decides the rules of a file, in their order: accepts it, or returns the first broken one, with
/// its place in the file.
///
/// The rules of the file itself come first; then its 64-bit slices, in the order of the table, each
/// with all of its rules before the next. It takes memory as [`FileSlices`] does, and for one image at a
/// time as [`check_image`] does: none for a file that is not universal, and whose mapped segments
/// ascend or descend.
pub fn verify<'a>(alloc: Global, file: &'a [u8]) -> Result<Verified<'a>, Refusal>
    // It accepts only a file that breaks no rule, and refuses only one that breaks a rule, unless
    // memory runs out.
    ensures accepted { OnOk result (IsUnbroken file.now) }
    ensures refused { IfErr result (IsRefusal file.now) }

    // What it accepts is sound.
    ensures sound { OnOk result (IsSound file.now) }
    ensures file { IfOk result (λ verified. verified ≡ file.now) }
{
    let file = Bytes::new(file);
    let unlisted = FileSlices::check(alloc, file)?;
    let found = check_slices(alloc, file, &unlisted)?;
    let slices = unlisted.list(alloc)?;
    Ok(Verified {
        file,
        slices,
        found,
    })
}

// Decides the rules of each 64-bit slice, one slice after the other. It returns what was found of the
// image in the last slice, if there is one.
fn check_slices(alloc: Global, file: Bytes, slices: &FileSlices) -> Result<Option<Found>, Refusal>
    requires { slices.now ≡ bytes_of file }
    ensures unbroken { OnOk result (IsUnbroken (bytes_of file.entry)) }
    ensures found { IfOk result (λ found. IfSome found (WasFound (bytes_of file.entry))) }
    ensures refused { IfErr result (IsRefusal (bytes_of file.entry)) }
{
    let mut found = None;
    for index in 0..slices.count() {
        // The index is below the number of slices.
        let slice = slices.get(index).unwrap();
        if slice.read {
            let keep = index + 1 == slices.count();
            check_slice(alloc, file, &slice, keep, &mut found)?;
        }
    }
    Ok(found)
}

// Decides the rules of one slice. If what is found of its image is to be kept, it is written in place: a
// return would copy it several times. The place of a break is its offset in the file.
fn check_slice(
    alloc: Global,
    file: Bytes,
    slice: &Slice,
    keep: bool,
    found: &mut Option<Found>,
) -> Result<(), Refusal>
    requires { (slice_of slice.now).start + (slice_of slice.now).size ≤ length (bytes_of file) }
    ensures unbroken { OnOk result (NothingBreaks
        (BreaksImage (slice_bytes (bytes_of file.entry) (slice_of slice.now)) slice.now.arch)) }
    ensures found { OnOk result (IfSome found.old (WasFound (bytes_of file.entry))
        → IfSome found.new (WasFound (bytes_of file.entry))) }
    ensures refused { IfErr result (IsSliceRefusal (bytes_of file.entry) (slice_of slice.now)) }
{
    let bytes = file.slice(slice.span);
    match check_bytes(alloc, bytes, slice, keep, found) {
        Ok(()) => Ok(()),
        Err(Refusal::Broken(broken)) => Err(Refusal::Broken(in_file(broken, slice.span.start))),
        Err(Refusal::Memory) => Err(Refusal::Memory),
    }
}

// Decides the rules of the image in a slice, which has these bytes, and writes what was found of it, if
// that is to be kept.
fn check_bytes(
    alloc: Global,
    bytes: Bytes,
    slice: &Slice,
    keep: bool,
    found: &mut Option<Found>,
) -> Result<(), Refusal>
    ensures unbroken { OnOk result (NothingBreaks (BreaksImage (bytes_of bytes.entry) slice.now.arch)) }
    ensures landmarks { OnOk result ((found.new ≡ found.old) ⊎ IfSome found.new (λ found.
        (found.span ≡ slice.now.span) × HasLandmarks (bytes_of bytes.entry) found.landmarks)) }
    ensures refused { IfErr result (IsImageRefusal (bytes_of bytes.entry) slice.now.arch) }
{
    let image = Image::open(bytes, slice.arch)?;
    check_image(alloc, &image)?;
    if keep {
        *found = Some(Found {
            span: slice.span,
            landmarks: image.landmarks(),
        });
    }
    Ok(())
}

impl<'a> Verified<'a> {
    /// All bytes of the file. Its clauses `unbroken` and `sound` are the verdict.
    pub fn bytes(&self) -> Bytes<'a>
        ensures bytes { bytes_of result ≡ self.now }
        ensures unbroken { IsUnbroken self.now }
        ensures sound { IsSound self.now }
        ensures fits { length self.now < 2 ^ 64 }
    {
        prove!(self.file.len() <= u64::MAX);
        self.file
    }

    /// How many slices the file has. A file that is not universal has one, which is all of it.
    pub fn slice_count(&self) -> u64
        ensures { result ≡ length (slices_of self.now) }
    {
        self.slices.as_slice().len() as u64
    }

    /// The slice with this index, counted from 0 in the order of the table, or `None` past the last
    /// one.
    pub fn slice(&self, index: u64) -> Option<&Slice>
        ensures slice { option_map (λ slice. slice_of slice.now) result
            ≡ slice_get (slices_of self.now) index }
        ensures read { IfSome result (λ slice. IsTrue slice.now.read
            ↔ IsImage (slice_bytes self.now (slice_of slice.now))) }
    {
        self.slices.as_slice().get(index as usize)
    }

    /// The image in the slice with this index, or `None` if the slice is of another kind, or the file
    /// has none. It judges nothing. It rescans the commands of the image, unless its slice is the last one.
    pub fn image(&self, index: u64) -> Option<Image<'a>>
        ensures is_image { IsSome result ↔ HasImage self.now index }
        ensures image { IfSome result (λ image. IsSomeAnd (slice_get (slices_of self.now) index)
            (λ slice. image ≡ slice_bytes self.now slice)) }
        ensures unbroken { IfSome result (λ image. NothingBreaks (BreaksImage image None)) }
        ensures sound { IfSome result (λ image. IsSoundImage image (commands_of image)) }
    {
        let (span, bytes) = self.image_bytes(index)?;
        Some(self.reopen(span, bytes))
    }

    // The image of the bytes, which lie in the span of the file.
    fn reopen(&self, span: Span, bytes: Bytes<'a>) -> Image<'a>
        requires bytes { bytes_of bytes ≡ part span.start span.len self.now }
        requires unbroken { NothingBreaks (BreaksImage (bytes_of bytes) None) }
        ensures { result ≡ bytes_of bytes.entry }
    {
        if let Some(found) = self.found
            && found.span == span
        {
            return Image::with_landmarks(bytes, found.landmarks);
        }
        Image::reopen(bytes)
    }

    // Where the image in the slice with this index lies in the file, and its bytes, or `None` if the
    // slice is of another kind, or the file has none.
    fn image_bytes(&self, index: u64) -> Option<(Span, Bytes<'a>)>
        ensures is_image { IsSome result ↔ HasImage self.now index }
        ensures bytes { IfSome result (λ image. IsSomeAnd (slice_get (slices_of self.now) index)
            (λ slice. bytes_of image.1 ≡ slice_bytes self.now slice)) }
        ensures span { IfSome result (λ image.
            bytes_of image.1 ≡ part image.0.start image.0.len self.now) }
        ensures unbroken { IfSome result (λ image.
            NothingBreaks (BreaksImage (bytes_of image.1) None)) }
    {
        let slice = self.slice(index)?;
        if !slice.read {
            return None;
        }
        let bytes = self.bytes().slice(slice.span);
        Some((slice.span, bytes))
    }
}
