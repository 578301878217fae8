//! The rules of code signatures. (`cs_blobs.h`: `CS_SuperBlob`, `CS_BlobIndex`, `CS_CodeDirectory`)

ghost use Rattle.std.specs.Prelude.{◌≡◌, ◌≢◌, ◌+◌, ◌^◌, ◌≤◌, ◌<◌, ℕ, List, length, IfNone, IfSome, IsSomeAnd, MatchOption, Some};
ghost use Rattle.macho_fields.specs.Bytes.{bytes_of};
ghost use Rattle.macho_fields.specs.declared.rule.Rule.{Rule};
ghost use Rattle.macho_signature.specs.CodeDirectories.{code_directory};
ghost use Rattle.macho_signature.specs.Signature.{bytes_at};
ghost use Rattle.macho_signature.specs.Superblobs.{big_word, blob_at, blob_count, blob_end, entry_offset as entry_offset_of, least_offset, AreGoodBlobs, HasNoSuperblob, IsBadBlob};
ghost use Rattle.macho_explain.specs.Blobs.{IsFirstBad, IsOtherLimit};
ghost use Rattle.macho_explain.specs.Explained.{ExplainsIn, IsWithin};
ghost use Rattle.macho_spans.specs.declared.span.Span.{Span};
ghost use Rattle.macho_explain.specs.Wholes.{Opens};
ghost use Rattle.macho_explain.specs.Signatures.{Differ, IsBlobShown, IsSignatureOf, IsSuperblobShown};

use crate::conflict::Conflict;
use crate::directory::bad_directory;
use crate::explanation::Explanation;
use crate::item::short_item_at;
use crate::numbers::Numbers;
use crate::part::{Part, PartKind};
use crate::sliced::Sliced;
use crate::spot::Spot;
use crate::table::Bounded;
use crate::whole::{Whole, whole_table};
use macho_fields::header::cs_blobs::{
    CS_BLOB_INDEX_SIZE, CS_GENERIC_BLOB_SIZE, CS_SUPER_BLOB_SIZE, CSMAGIC_EMBEDDED_SIGNATURE,
};
use macho_fields::header::loader::LC_CODE_SIGNATURE;
use macho_fields::{Bytes, Order, Span};
use macho_signature::superblob::{
    COUNT, LENGTH, MAGIC, OFFSET, SUPER_BLOB_LENGTH, entry_offset, word_at,
};
use macho_signature::{Blob, CodeDirectory, Superblob};

// A code signature, and the table that it is.
#[derive(Clone, Copy)]
pub(crate) struct Signature<'a> {
    pub(crate) table: Bounded,
    pub(crate) bytes: Bytes<'a>,
}

// The code signature of an image, if its table lies in the image.
pub(crate) fn signature_of<'a>(sliced: &Sliced<'a>) -> Option<Signature<'a>>
    ensures { MatchOption result
        (Opens (bytes_of sliced.now.held.bytes) → (table : Span) (signature : List ℕ)
        → ¬ IsSignatureOf (bytes_of sliced.now.held.bytes) table signature)
        (λ s. IsSignatureOf (bytes_of sliced.now.held.bytes) s.table.span (bytes_of s.bytes)) }
{
    let Whole { table, bytes } = whole_table(sliced, LC_CODE_SIGNATURE)?;
    Some(Signature { table, bytes })
}

// The first byte of a signature that has no superblob; or an entry whose blob is misplaced.
#[inline(never)]
pub(crate) fn signature_blob(sliced: &Sliced) -> Option<Explanation>
    ensures { ExplainsIn Rule.SignatureBlob sliced.now result }
{
    let signature = signature_of(sliced)?;
    let within = place_in(sliced, &signature)?;
    match within {
        Within::Start(at) => {
            let numbers = superblob_numbers(signature.bytes)?;
            Some(at.shows(numbers.of(signature.table.part)))
        }
        Within::Entry(at, index) => Some(at.shows(misplaced_blob(sliced, &signature, index)?)),
    }
}

// The first byte of a signature without a code directory in the slot 0; or an entry whose blob is not a sound one.
#[inline(never)]
pub(crate) fn signature_directory(sliced: &Sliced) -> Option<Explanation>
    ensures { ExplainsIn Rule.SignatureDirectory sliced.now result }
{
    let signature = signature_of(sliced)?;
    let within = place_in(sliced, &signature)?;
    match within {
        Within::Start(at) => Some(at.shows(Conflict::alone(signature.table.part, 0, 1))),
        Within::Entry(at, index) => {
            let conflict = bad_directory(sliced, &signature, index)?;
            Some(at.shows(conflict))
        }
    }
}

// The entry of a code directory that does not cover the image up to the signature.
#[inline(never)]
pub(crate) fn signature_whole(sliced: &Sliced) -> Option<Explanation>
    ensures { ExplainsIn Rule.SignatureWhole sliced.now result }
{
    let signature = signature_of(sliced)?;
    match place_in(sliced, &signature)? {
        Within::Start(_) => None,
        Within::Entry(at, index) => Some(at.shows(other_limit(sliced, &signature, index)?)),
    }
}

// Where in a signature the place is: at its first byte, or at an entry with an index.
#[derive(Clone, Copy)]
pub(crate) enum Within {
    Start(Spot),
    Entry(Spot, u32),
}

// What is at the place.
pub(crate) fn place_in(sliced: &Sliced, signature: &Signature) -> Option<Within>
    ensures { MatchOption result ((sliced.now.place ≢ signature.now.table.span.start)
        × ((k : ℕ) → k < blob_count (bytes_of signature.now.bytes) → 12 ≤ length (bytes_of signature.now.bytes)
        → sliced.now.place ≢ signature.now.table.span.start + entry_offset_of k))
        (IsWithin sliced.now signature.now.table.span.start) }
{
    let offset = sliced.place.checked_sub(signature.table.span.start)?;
    if offset == 0 {
        let part = sliced.structure(PartKind::Byte, sliced.place, 1, None);
        return Some(Within::Start(sliced.at(part)));
    }
    let index = index_at(signature.bytes, offset)?;
    let size = CS_BLOB_INDEX_SIZE;
    let part = sliced.structure(PartKind::SignatureEntry, sliced.place, size, Some(index));
    Some(Within::Entry(sliced.at(part), index))
}

// The index of the entry at an offset of a signature.
fn index_at(signature: Bytes, offset: u64) -> Option<u32>
    ensures { MatchOption result ((k : ℕ) → k < blob_count (bytes_of signature.entry)
        → 12 ≤ length (bytes_of signature.entry) → offset ≢ entry_offset_of k)
        (λ index. offset ≡ entry_offset_of index) }
{
    let count = word(signature, COUNT)?;
    short_item_at(CS_SUPER_BLOB_SIZE, CS_BLOB_INDEX_SIZE, count, offset)
}

// Why a signature has no superblob: its size, its magic number, or where the superblob ends, or its index.
fn superblob_numbers(signature: Bytes) -> Option<Numbers>
    ensures { MatchOption result (¬ HasNoSuperblob (bytes_of signature.entry))
        (λ n. IsSuperblobShown (bytes_of signature.entry) n.value n.limit) }
{
    let size = signature.len();
    if size < CS_SUPER_BLOB_SIZE {
        return Numbers::below(size, CS_SUPER_BLOB_SIZE);
    }
    let magic = word_at(signature, MAGIC);
    if magic != CSMAGIC_EMBEDDED_SIGNATURE {
        return Numbers::differing(u64::from(magic), u64::from(CSMAGIC_EMBEDDED_SIGNATURE));
    }
    let length = u64::from(word_at(signature, SUPER_BLOB_LENGTH));
    if length > size {
        return Numbers::above(length, size);
    }
    Numbers::above(entry_offset(word_at(signature, COUNT)), length)
}

// Why a blob is misplaced: where it begins or ends, or its size.
fn misplaced_blob(sliced: &Sliced, signature: &Signature, index: u32) -> Option<Conflict>
    ensures { MatchOption result (¬ ((¬ HasNoSuperblob (bytes_of signature.now.bytes))
        × (index < blob_count (bytes_of signature.now.bytes)) × IsFirstBad (bytes_of signature.now.bytes) index))
        (λ c. IsBlobShown (bytes_of signature.now.bytes) index c.value c.limit) }
{
    let superblob = Superblob::read(signature.bytes)?;
    let whole = u64::from(superblob.length);
    let (before, least) = what_is_before(sliced, signature, index)?;
    let start = u64::from(word(signature.bytes, entry_offset(index) + OFFSET)?);
    let length = u64::from(length_at(signature.bytes, start, whole)?);
    let span = Span { start, len: length };
    let part = signature.blob_part(sliced, index, span);
    if start < least {
        return Some(Conflict::of(part, before, start, least));
    }
    let table = signature.table.part;
    if start + CS_GENERIC_BLOB_SIZE > whole {
        let head_end = start + CS_GENERIC_BLOB_SIZE;
        return Some(Conflict::of(part, table, head_end, whole));
    }
    if length < CS_GENERIC_BLOB_SIZE {
        return Some(Conflict::alone(part, length, CS_GENERIC_BLOB_SIZE));
    }
    if start + length <= whole {
        return None;
    }
    Some(Conflict::of(part, table, start + length, whole))
}

// The length of the blob at an offset; of one whose magic number and length are not in the superblob, which ends at
// `whole`, the size of these alone.
fn length_at(signature: Bytes, offset: u64, whole: u64) -> Option<u32>
    requires { offset < 2 ^ 32 }
    ensures { MatchOption result ((offset + 8 ≤ whole) × (length (bytes_of signature.entry) < offset + 8))
        (λ length. offset + 8 ≤ whole → length ≡ big_word (bytes_of signature.entry) (offset + 4)) }
{
    if offset + CS_GENERIC_BLOB_SIZE <= whole {
        word(signature, offset + LENGTH)
    } else {
        Some(CS_GENERIC_BLOB_SIZE as u32)
    }
}

// What is before the blob of an entry, and where it ends: the blob of the entry before it, or the index.
fn what_is_before(sliced: &Sliced, signature: &Signature, index: u32) -> Option<(Part, u64)>
    ensures { MatchOption result (¬ ((¬ HasNoSuperblob (bytes_of signature.now.bytes))
        × (index < blob_count (bytes_of signature.now.bytes))
        × ((j : ℕ) → j < index → ¬ IsBadBlob (bytes_of signature.now.bytes) j)))
        (λ before. before.1 ≡ least_offset (bytes_of signature.now.bytes) index) }
{
    let Some(earlier) = index.checked_sub(1) else {
        let count = word(signature.bytes, COUNT)?;
        return Some((signature.table.part, entry_offset(count)));
    };
    let blob = signature.placed_blob(earlier)?;
    let part = signature.blob_part(sliced, earlier, blob.span());
    Some((part, blob.end()))
}

// Up to where a code directory covers the image, and where the signature begins.
fn other_limit(sliced: &Sliced, signature: &Signature, index: u32) -> Option<Conflict>
    ensures { MatchOption result (¬ (AreGoodBlobs (bytes_of signature.now.bytes)
        × (index < blob_count (bytes_of signature.now.bytes))
        × IsOtherLimit signature.now.table.span.start (bytes_of signature.now.bytes) index))
        (λ c. IsSomeAnd (code_directory (bytes_at (bytes_of signature.now.bytes) index))
        (λ directory. Differ c.value c.limit directory.limit signature.now.table.span.start)) }
{
    let blob = signature.placed_blob(index)?;
    let directory = CodeDirectory::read(signature.bytes.slice(blob.span()))?;
    let start = signature.table.span.start;
    if directory.limit == start {
        return None;
    }
    let part = signature.blob_part(sliced, index, blob.span());
    Some(Conflict::of(part, signature.table.part, directory.limit, start))
}

impl<'a> Signature<'a> {
    // The blob of the entry with this index, if it is past the index and ends in the superblob.
    pub(crate) fn placed_blob(&self, index: u32) -> Option<Blob>
        ensures blob { IfSome result (λ blob. blob ≡ blob_at (bytes_of self.now.bytes) index) }
        ensures inside { IfSome result (λ blob. blob_end blob ≤ length (bytes_of self.now.bytes)) }
        ensures listed { IfSome result (λ blob. index < blob_count (bytes_of self.now.bytes)) }
        ensures none { IfNone result (¬ ((¬ HasNoSuperblob (bytes_of self.now.bytes))
            × (index < blob_count (bytes_of self.now.bytes))
            × ((j : ℕ) → j ≤ index → ¬ IsBadBlob (bytes_of self.now.bytes) j))) }
    {
        let superblob = Superblob::read(self.bytes)?;
        if index >= superblob.count {
            return None;
        }
        superblob.blob(self.bytes, index, superblob.index_end())
    }

    // Where a blob begins in the image.
    pub(crate) fn place_of_blob(&self, blob: Blob) -> u64 {
        self.table.span.start.saturating_add(u64::from(blob.offset))
    }

    // The bytes at the places of a blob, and the entry that describes it.
    pub(crate) fn blob_part(&self, sliced: &Sliced, index: u32, blob: Span) -> Part
        ensures { result.index ≡ Some index }
    {
        let start = self.table.span.start;
        let span = Span {
            start: start.saturating_add(blob.start),
            len: blob.len,
        };
        let entry = start.saturating_add(entry_offset(index));
        sliced.described(PartKind::SignatureBlob, span, entry, Some(index))
    }
}

// The number of 32 bits at an offset.
pub(crate) fn word(bytes: Bytes, offset: u64) -> Option<u32>
    ensures { MatchOption result (length (bytes_of bytes.entry) < offset + 4)
        (λ word. word ≡ big_word (bytes_of bytes.entry) offset) }
{
    bytes.u32_at(Order::Big, offset)
}
