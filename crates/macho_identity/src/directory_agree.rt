//! The rule of what code directories say. An offset is one in the signature. (`cs_blobs.h`: `CS_CodeDirectory`)

ghost use Rattle.std.specs.Prelude.{◌≡◌, ◌↔◌, ◌<◌, None, Some, ℕ, IfSome, IsTrue, MatchOption};
ghost use Rattle.macho_fields.specs.Bytes.{bytes_of};
ghost use Rattle.macho_fields.specs.FirstPlace.{IsLeastPlace};
ghost use Rattle.macho_fields.specs.Layers.{NothingBreaks};
ghost use Rattle.macho_fields.specs.Rules.{BreaksImage as Breaks};
ghost use Rattle.macho_identity.specs.DirectoryAgree.{HasDirectory, HasTwoLimits, IsAmongFields, HasTextInFields, IsUnclear, DisagreeingDirectory, BreaksDirectoryAgree};
ghost use Rattle.macho_identity.specs.FirstDirectories.{DiffersFrom, IsUnclearAfter};
ghost use Rattle.macho_identity.specs.Identity.{HasFields};
ghost use Rattle.macho_signature.specs.Signature.{bytes_at, BreaksSignatureBlob};
ghost use Rattle.macho_signature.specs.Superblobs.{superblob_at, blob_count, AreGoodBlobs};

use crate::identity::{long_since, say_alike, word_since};
use macho_fields::Bytes;
use macho_fields::header::cs_blobs::{CS_SUPPORTSCODELIMIT64, CS_SUPPORTSTEAMID};
use macho_fields::header::loader::LC_CODE_SIGNATURE;
use macho_image::Image;
use macho_seals::signature::{blob_at, blob_bytes, superblob_of};
use macho_signature::code_directory::{
    CODE_LIMIT, CODE_LIMIT_64, HASH_TYPE, IDENT_OFFSET, PAGE_SIZE, TEAM_OFFSET, VERSION,
    fields_size,
};
use macho_signature::superblob::{entry_offset, word_at};
use macho_signature::{CodeDirectory, Superblob};
use macho_tables::data_table::data_table;
use macho_tables::place::place_from;

// How many types of hashes there may be.
const HASH_TYPES: usize = 256;

/// The place of the first entry of the index, in the code signature of an image, with a code directory that says
/// something else than the first one, has the type of hashes of an earlier one, or says two things by itself: by two
/// limits, by a page size of 0, or by a text among its fields. It takes time in the order of the entries and of the
/// texts, and no memory.
pub fn directory_agree(image: &Image) -> Option<u64>
    requires layout { NothingBreaks (Breaks image.now None) }
    requires blob { (place : ℕ) → ¬ BreaksSignatureBlob image.now place }
    ensures { IsLeastPlace (BreaksDirectoryAgree image.now) result }
{
    let Some(table) = data_table(image, LC_CODE_SIGNATURE) else {
        return None;
    };
    place_from(table.start, first_disagreeing(image.bytes().slice(table)))
}

// The offset of the first such entry of a signature.
fn first_disagreeing(signature: Bytes) -> Option<u64>
    requires { AreGoodBlobs (bytes_of signature) }
    ensures { IsLeastPlace (DisagreeingDirectory (bytes_of signature.entry)) result }
{
    let superblob = superblob_of(signature);
    let mut first = None;
    // Which types of hashes the directories of earlier entries have.
    let mut is_taken = [false; HASH_TYPES];
    for index in 0..superblob.count {
        if let Some(directory) = directory_at(signature, superblob, index) {
            let hash_type = directory.read_u8(HASH_TYPE) as usize;
            if is_taken[hash_type] {
                return Some(entry_offset(index));
            }
            if is_unclear_after(first, directory) {
                return Some(entry_offset(index));
            }
            is_taken[hash_type] = true;
            first = first_of(first, directory);
        }
    }
    None
}

// The blob of the entry with this index, if it is in a slot of code directories, and is one.
fn directory_at<'a>(signature: Bytes<'a>, superblob: Superblob, index: u32) -> Option<Bytes<'a>>
    requires superblob { superblob ≡ superblob_at (bytes_of signature) }
    requires blobs { AreGoodBlobs (bytes_of signature) }
    requires index { index < blob_count (bytes_of signature) }
    ensures directory { MatchOption result (¬ HasDirectory (bytes_of signature.entry) index)
        (λ blob. HasDirectory (bytes_of signature.entry) index
        × (bytes_of blob ≡ bytes_at (bytes_of signature.entry) index)) }
    ensures fields { IfSome result (λ blob. HasFields (bytes_of blob)) }
{
    let blob = blob_at(signature, superblob, index);
    if !blob.is_directory() {
        return None;
    }
    let bytes = Bytes::new(blob_bytes(signature, blob));
    CodeDirectory::read(bytes)?;
    Some(bytes)
}

// The first directory, and this one if none was before it.
fn first_of<'a>(first: Option<Bytes<'a>>, directory: Bytes<'a>) -> Option<Bytes<'a>>
    ensures { MatchOption first.entry (result ≡ Some directory.entry) (λ found. result ≡ Some found) }
{
    match first {
        Some(found) => Some(found),
        None => Some(directory),
    }
}

// Whether the directory says two things by itself, or something else than the first one, if there is one.
fn is_unclear_after(first: Option<Bytes>, directory: Bytes) -> bool
    requires first { IfSome first (λ found. HasFields (bytes_of found)) }
    requires fields { HasFields (bytes_of directory) }
    ensures { IsTrue result ↔ IsUnclearAfter first.entry (bytes_of directory.entry) }
{
    is_unclear(directory) || differs(first, directory)
}

// Whether there is a first directory, and this one says something else.
fn differs(first: Option<Bytes>, directory: Bytes) -> bool
    requires first { IfSome first (λ found. HasFields (bytes_of found)) }
    requires fields { HasFields (bytes_of directory) }
    ensures { IsTrue result ↔ DiffersFrom first.entry (bytes_of directory.entry) }
{
    match first {
        Some(found) => !say_alike(found, directory),
        None => false,
    }
}

// Whether the directory says two things by itself.
fn is_unclear(directory: Bytes) -> bool
    requires { HasFields (bytes_of directory) }
    ensures { IsTrue result ↔ IsUnclear (bytes_of directory.entry) }
{
    has_two_limits(directory) || directory.read_u8(PAGE_SIZE) == 0 || has_text_in_fields(directory)
}

// Whether there is a limit of 64 bits, and the limit of 32 bits is another.
fn has_two_limits(directory: Bytes) -> bool
    requires { HasFields (bytes_of directory) }
    ensures { IsTrue result ↔ HasTwoLimits (bytes_of directory.entry) }
{
    let limit = long_since(directory, CS_SUPPORTSCODELIMIT64, CODE_LIMIT_64);
    limit != 0 && limit != u64::from(word_at(directory, CODE_LIMIT))
}

// Whether the identifier begins among the fields, or the team does.
fn has_text_in_fields(directory: Bytes) -> bool
    requires { HasFields (bytes_of directory) }
    ensures { IsTrue result ↔ HasTextInFields (bytes_of directory.entry) }
{
    let team = word_since(directory, CS_SUPPORTSTEAMID, TEAM_OFFSET);
    is_among_fields(directory, word_at(directory, IDENT_OFFSET))
        || (team != 0 && is_among_fields(directory, team))
}

// Whether an offset is one of the fields of the directory.
fn is_among_fields(directory: Bytes, offset: u32) -> bool
    requires { HasFields (bytes_of directory) }
    ensures { IsTrue result ↔ IsAmongFields (bytes_of directory.entry) offset }
{
    u64::from(offset) < fields_size(word_at(directory, VERSION))
}
