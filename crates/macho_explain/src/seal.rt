//! The rules of the sealed profile: of what in an image its code signature has the hashes. (`cs_blobs.h`:
//! `CS_CodeDirectory`)

ghost use Rattle.std.specs.Prelude.{◌≡◌, ◌≢◌, ◌+◌, ◌≤◌, ◌<◌, ℕ, length, IfNone, IfSome, IsSome, IsSomeAnd, Some, true};
ghost use Rattle.macho_fields.specs.Bytes.{bytes_of};
ghost use Rattle.macho_fields.specs.declared.rule.Rule.{Rule};
ghost use Rattle.macho_seals.specs.Specials.{is_special_slot as is_special_slot_of, IsOtherSpecial, IsSpecialAt};
ghost use Rattle.macho_seals.specs.Pages.{page_at as page_of_directory, BadPage};
ghost use Rattle.macho_signature.specs.CodeDirectories.{HasSlots, IsSoundDirectory};
ghost use Rattle.macho_signature.specs.Signature.{bytes_at, IsDirectoryAt};
ghost use Rattle.macho_signature.specs.Superblobs.{blob_at, blob_count, blob_end, AreGoodBlobs};
ghost use Rattle.macho_explain.specs.Explained.{ExplainsIn};
ghost use Rattle.macho_explain.specs.Seals.{HasDiffering, HasOtherHash, IsDirectoryOf, IsHashed, IsHashShown, IsOther, IsOtherShown, IsPageShown, IsSpecialShown, place_of};
ghost use Rattle.macho_explain.specs.declared.seal.Hashed.TheVariants.{Special as of_special};

use crate::conflict::Conflict;
use crate::explanation::Explanation;
use crate::header::header_here;
use crate::part::{Part, PartKind};
use crate::signature::{Signature, Within, place_in, signature_of};
use crate::sliced::Sliced;
use crate::walk::{Sought, walk_to};
use macho_fields::header::loader::LC_CODE_SIGNATURE;
use macho_fields::{Bytes, Span};
use macho_seals::digest::has_hash;
use macho_seals::pages::{code_slot, page_at};
use macho_seals::specials::{has_special_hash, is_special_slot, special_slot};
use macho_signature::{Blob, CodeDirectory, Superblob};

// How many code directories are looked at: no signature with another in each slot has more.
const MOST_DIRECTORIES: u32 = 6;

// No code directory is in the slot 0: the command that should name a signature, if there is one.
#[inline(never)]
pub(crate) fn signature_missing(sliced: &Sliced) -> Option<Explanation>
    ensures { ExplainsIn Rule.SignatureMissing sliced.now result }
{
    let at = header_here(sliced)?;
    if sliced.place > 0 {
        return None;
    }
    let walked = walk_to(sliced.held.bytes, Sought::First(LC_CODE_SIGNATURE));
    Some(at.shows(Conflict {
        first: walked.map(|walked| sliced.command(&walked)),
        ..Conflict::numbers(0, 1)
    }))
}

// The entry at the place: an earlier one has the same slot of code directories.
#[inline(never)]
pub(crate) fn directory_repeated(sliced: &Sliced) -> Option<Explanation>
    ensures { ExplainsIn Rule.DirectoryRepeated sliced.now result }
{
    let signature = signature_of(sliced)?;
    let Within::Entry(at, index) = place_in(sliced, &signature)? else {
        return None;
    };
    let later = signature.placed_blob(index)?;
    let (first, earlier) = first_in_slot(&signature, later.slot)?;
    if first >= index || !later.is_directory() {
        return None;
    }
    let one = signature.blob_part(sliced, index, later.span());
    let other = signature.blob_part(sliced, first, earlier.span());
    let slot = u64::from(later.slot);
    Some(at.shows(Conflict::of(one, other, slot, slot)))
}

// The first blob in a slot, and the index of its entry.
pub(crate) fn first_in_slot(signature: &Signature, slot: u32) -> Option<(u32, Blob)>
    ensures blob { IfSome result (λ found. found.1 ≡ blob_at (bytes_of signature.now.bytes) found.0) }
    ensures slot { IfSome result (λ found. found.1.slot ≡ slot) }
    ensures none { IfNone result (AreGoodBlobs (bytes_of signature.now.bytes) → (j : ℕ)
        → j < blob_count (bytes_of signature.now.bytes) → (blob_at (bytes_of signature.now.bytes) j).slot ≢ slot) }
    ensures first { IfSome result (λ found. (j : ℕ) → j < found.0
        → (blob_at (bytes_of signature.now.bytes) j).slot ≢ slot) }
{
    for index in 0..Superblob::read(signature.bytes)?.count {
        let blob = signature.placed_blob(index)?;
        if blob.slot == slot {
            return Some((index, blob));
        }
    }
    None
}

// The byte at the place, which is past the start of the signature and in no part of it.
#[inline(never)]
pub(crate) fn signature_slack(sliced: &Sliced) -> Option<Explanation>
    ensures { ExplainsIn Rule.SignatureSlack sliced.now result }
{
    let (at, byte) = sliced.byte()?;
    let signature = signature_of(sliced)?;
    if sliced.place < signature.table.span.start {
        return None;
    }
    Some(at.shows(Conflict::alone(signature.table.part, byte, 0)))
}

// What code directories have a hash of.
#[derive(Clone, Copy)]
enum Hashed {
    // The page that begins at a place of the image.
    Page(u64),
    // The blob of the entry with an index, which is in a special slot.
    Special(u32, Blob),
}

// The page, or the blob of the signature, at the place: a code directory has another hash.
#[inline(never)]
pub(crate) fn signature_hash(sliced: &Sliced) -> Option<Explanation>
    ensures { ExplainsIn Rule.SignatureHash sliced.now result }
{
    let signature = signature_of(sliced)?;
    let hashed = hashed_at(sliced, &signature)?;
    let conflict = first_other_hash(sliced, &signature, hashed)?;
    Some(sliced.at(conflict.first?).shows(conflict))
}

// What code directories may have a hash of, at the place: a page before the signature, or a blob in it.
fn hashed_at(sliced: &Sliced, signature: &Signature) -> Option<Hashed>
    ensures hashed { IfSome result (IsHashed (bytes_of signature.now.bytes)) }
    ensures place { IfSome result (λ hashed. place_of signature.now.table.span.start hashed ≡ sliced.now.place) }
    ensures other { HasOtherHash (bytes_of sliced.now.held.bytes) signature.now.table.span (bytes_of signature.now.bytes)
        sliced.now.place → IsSomeAnd result (λ hashed. HasDiffering
        (IsOther (bytes_of sliced.now.held.bytes) (bytes_of signature.now.bytes) hashed)
        signature.now.table.span.start (bytes_of signature.now.bytes)) }
{
    match sliced.place.checked_sub(signature.table.span.start) {
        Some(offset) => special_at(signature, offset),
        None => Some(Hashed::Page(sliced.place)),
    }
}

// The first blob in a special slot that begins at an offset of a signature.
fn special_at(signature: &Signature, offset: u64) -> Option<Hashed>
    ensures hashed { IfSome result (IsHashed (bytes_of signature.now.bytes)) }
    ensures place { IfSome result (λ hashed. (start : ℕ) → place_of start hashed ≡ start + offset) }
    ensures only { AreGoodBlobs (bytes_of signature.now.bytes) → (k : ℕ) → k < blob_count (bytes_of signature.now.bytes)
        → (blob_at (bytes_of signature.now.bytes) k).offset ≡ offset → IsSpecialAt (bytes_of signature.now.bytes) k
        → result ≡ Some (of_special k (blob_at (bytes_of signature.now.bytes) k)) }
{
    for index in 0..Superblob::read(signature.bytes)?.count {
        let blob = signature.placed_blob(index)?;
        if u64::from(blob.offset) == offset && is_special_slot(blob.slot) {
            return Some(Hashed::Special(index, blob));
        }
    }
    None
}

// What conflicts with the first code directory of a signature that has another hash.
fn first_other_hash(sliced: &Sliced, signature: &Signature, hashed: Hashed) -> Option<Conflict>
    requires hashed { IsHashed (bytes_of signature.now.bytes) hashed }
    requires inside { signature.now.table.span.start ≤ length (bytes_of sliced.now.held.bytes) }
    ensures none { IfNone result (¬ HasDiffering
        (IsOther (bytes_of sliced.now.held.bytes) (bytes_of signature.now.bytes) hashed)
        signature.now.table.span.start (bytes_of signature.now.bytes)) }
    ensures first { IfSome result (λ c. IsSome c.first) }
    ensures shown { IfSome result (λ c. IsHashShown (bytes_of sliced.now.held.bytes) signature.now.table.span.start
        (bytes_of signature.now.bytes) (place_of signature.now.table.span.start hashed) c.value c.limit) }
{
    let mut left = MOST_DIRECTORIES;
    for index in 0..Superblob::read(signature.bytes)?.count {
        let blob = signature.placed_blob(index)?;
        if let Some(directory) = directory_of(signature, index, blob) {
            left = left.checked_sub(1)?;
            let conflict = other_hash(sliced, signature, &directory, hashed);
            if conflict.is_some() {
                return conflict;
            }
        }
    }
    None
}

// A sound code directory of a signature.
#[derive(Clone, Copy)]
struct Directory<'a> {
    // The index of its entry.
    index: u32,
    blob: Blob,
    bytes: Bytes<'a>,
    fields: CodeDirectory,
}

// The code directory that the blob of an entry is, if it is a sound one.
fn directory_of<'a>(signature: &Signature<'a>, index: u32, blob: Blob) -> Option<Directory<'a>>
    requires blob { blob ≡ blob_at (bytes_of signature.now.bytes) index }
    requires inside { blob_end blob ≤ length (bytes_of signature.now.bytes) }
    ensures some { IfSome result (IsDirectoryOf signature.now.table.span.start (bytes_of signature.now.bytes)) }
    ensures index { IfSome result (λ directory. directory.index ≡ index) }
    ensures none { IfNone result (¬ (IsDirectoryAt (bytes_of signature.now.bytes) index
        × IsSoundDirectory signature.now.table.span.start (bytes_at (bytes_of signature.now.bytes) index))) }
{
    let bytes = signature.bytes.slice(blob.span());
    let fields = CodeDirectory::read(bytes)?;
    if !blob.is_directory() || !fields.is_sound(bytes, signature.table.span.start) {
        return None;
    }
    Some(Directory {
        index,
        blob,
        bytes,
        fields,
    })
}

// What conflicts with a code directory, if it has another hash.
fn other_hash(
    sliced: &Sliced,
    signature: &Signature,
    directory: &Directory,
    hashed: Hashed,
) -> Option<Conflict>
    requires directory { IsDirectoryOf signature.now.table.span.start (bytes_of signature.now.bytes) directory.now }
    requires hashed { IsHashed (bytes_of signature.now.bytes) hashed }
    requires inside { signature.now.table.span.start ≤ length (bytes_of sliced.now.held.bytes) }
    ensures none { IfNone result (¬ IsOther (bytes_of sliced.now.held.bytes) (bytes_of signature.now.bytes) hashed
        (bytes_of directory.now.bytes) directory.now.fields) }
    ensures first { IfSome result (λ c. IsSome c.first) }
    ensures shown { IfSome result (λ c. IsOtherShown (bytes_of sliced.now.held.bytes) signature.now.table.span.start
        (bytes_of signature.now.bytes) (bytes_of directory.now.bytes) directory.now.fields
        (place_of signature.now.table.span.start hashed) c.value c.limit) }
{
    match hashed {
        Hashed::Page(place) => other_page(sliced, signature, directory, place),
        Hashed::Special(index, blob) => other_special(sliced, signature, directory, index, blob),
    }
}

// The page of a code directory at a place of the image, if the directory has another hash, and that.
fn other_page(
    sliced: &Sliced,
    signature: &Signature,
    directory: &Directory,
    place: u64,
) -> Option<Conflict>
    requires directory { IsDirectoryOf signature.now.table.span.start (bytes_of signature.now.bytes) directory.now }
    requires inside { signature.now.table.span.start ≤ length (bytes_of sliced.now.held.bytes) }
    ensures none { IfNone result (¬ BadPage (bytes_of sliced.now.held.bytes) (bytes_of directory.now.bytes)
        directory.now.fields place) }
    ensures first { IfSome result (λ c. IsSome c.first) }
    ensures shown { IfSome result (λ c. IsPageShown (bytes_of sliced.now.held.bytes) (bytes_of directory.now.bytes)
        directory.now.fields place c.value c.limit) }
{
    let fields = directory.fields;
    let index = page_index(fields, place)?;
    let page = page_at(fields, index);
    let slot = code_slot(fields, index);
    let message = sliced.held.bytes.part(page)?;
    let hash = directory.bytes.part(slot)?;
    if page.start != place || has_hash(fields.hash_type, message, hash) {
        return None;
    }
    let by = signature.place_of_blob(directory.blob);
    let first = sliced.described(PartKind::CodePage, page, by, Some(index));
    let second = hash_part(sliced, by, slot, index);
    let (number, count) = (u64::from(index), u64::from(fields.code_slots));
    Some(Conflict::of(first, second, number, count))
}

// The index of the page of a code directory that has a place.
fn page_index(directory: CodeDirectory, place: u64) -> Option<u32>
    requires { HasSlots directory }
    ensures listed { IfSome result (λ index. index < directory.code_slots) }
    ensures only { (k : ℕ) → k < directory.code_slots → place ≡ (page_of_directory directory k).start → result ≡ Some k }
{
    let index = if directory.page_size == 0 {
        0
    } else {
        place >> directory.page_size
    };
    if index >= u64::from(directory.code_slots) {
        return None;
    }
    Some(index as u32)
}

// The blob of an entry in a special slot, if a code directory has no such slot or another hash in it, and that.
fn other_special(
    sliced: &Sliced,
    signature: &Signature,
    directory: &Directory,
    index: u32,
    blob: Blob,
) -> Option<Conflict>
    requires directory { IsDirectoryOf signature.now.table.span.start (bytes_of signature.now.bytes) directory.now }
    requires blob { blob ≡ blob_at (bytes_of signature.now.bytes) index }
    requires inside { blob_end blob ≤ length (bytes_of signature.now.bytes) }
    requires special { is_special_slot_of blob.slot ≡ true }
    ensures none { IfNone result (¬ IsOtherSpecial (bytes_of signature.now.bytes) (bytes_of directory.now.bytes)
        directory.now.fields index) }
    ensures first { IfSome result (λ c. IsSome c.first) }
    ensures shown { IfSome result (λ c. IsSpecialShown signature.now.table.span.start (bytes_of signature.now.bytes)
        (bytes_of directory.now.bytes) directory.now.fields
        (signature.now.table.span.start + blob.offset) c.value c.limit) }
{
    let fields = directory.fields;
    let message = signature.bytes.part(blob.span())?;
    if has_special_hash(directory.bytes, fields, blob.slot, message) {
        return None;
    }
    let by = signature.place_of_blob(directory.blob);
    let first = signature.blob_part(sliced, index, blob.span());
    let second = if blob.slot <= fields.special_slots {
        hash_part(sliced, by, special_slot(fields, blob.slot), blob.slot)
    } else {
        signature.blob_part(sliced, directory.index, directory.blob.span())
    };
    let (slot, count) = (u64::from(blob.slot), u64::from(fields.special_slots));
    Some(Conflict::of(first, second, slot, count))
}

// A hash in the code directory that begins at a place of the image.
fn hash_part(sliced: &Sliced, directory: u64, slot: Span, index: u32) -> Part {
    let span = Span {
        start: directory.saturating_add(slot.start),
        len: slot.len,
    };
    sliced.described(PartKind::CodeHash, span, directory, Some(index))
}
