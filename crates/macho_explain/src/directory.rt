//! Why a blob of a code signature is not a sound code directory. (`cs_blobs.h`: `CS_CodeDirectory`)

ghost use Rattle.std.specs.Prelude.{◌≡◌, ◌+◌, ◌≤◌, ◌<◌, ◌⊎◌, length, true, MatchOption};
ghost use Rattle.macho_fields.specs.Bytes.{bytes_of};
ghost use Rattle.macho_signature.specs.CodeDirectories.{is_directory, HasEarlierHashes, HasHashes, HasName, IsSound};
ghost use Rattle.macho_signature.specs.Signature.{bytes_at};
ghost use Rattle.macho_signature.specs.Superblobs.{blob_count, AreGoodBlobs};
ghost use Rattle.macho_explain.specs.Blobs.{IsNotSound};
ghost use Rattle.macho_explain.specs.Signatures.{AreEndsShown, AreHashesShown, IsFormShown, IsNameShown, IsSoundnessShown, IsUnsoundShown};

use crate::conflict::Conflict;
use crate::numbers::Numbers;
use crate::part::Part;
use crate::signature::{Signature, word};
use crate::sliced::Sliced;
use crate::table::Bounded;
use macho_fields::Bytes;
use macho_fields::header::cs_blobs::{
    CS_CODE_DIRECTORY_SIZE, CS_EARLIEST_VERSION, CS_HASHTYPE_SHA384, CS_SUPPORTSSCATTER,
    CSMAGIC_CODEDIRECTORY, MOST_PAGE_SIZE,
};
use macho_signature::CodeDirectory;
use macho_signature::code_directory::{
    SCATTER_OFFSET, VERSION, fields_size, has_name, size_of_hash, slots_of,
};
use macho_signature::superblob::MAGIC;

// Why the blob of an entry is not a code directory, or not a sound one.
pub(crate) fn bad_directory(sliced: &Sliced, signature: &Signature, index: u32) -> Option<Conflict>
    ensures { MatchOption result (¬ (AreGoodBlobs (bytes_of signature.now.bytes)
        × (index < blob_count (bytes_of signature.now.bytes))
        × IsNotSound signature.now.table.span.start (bytes_of signature.now.bytes) index))
        (λ c. IsUnsoundShown signature.now.table.span.start
        (bytes_at (bytes_of signature.now.bytes) index) c.value c.limit) }
{
    let blob = signature.placed_blob(index)?;
    let bytes = signature.bytes.slice(blob.span());
    let part = signature.blob_part(sliced, index, blob.span());
    match CodeDirectory::read(bytes) {
        Some(directory) => unsound(part, &signature.table, bytes, directory),
        None => {
            let numbers = form_numbers(bytes)?;
            Some(Conflict::alone(part, numbers.value, numbers.limit))
        }
    }
}

// Why a blob is not a code directory: its magic number, its size, its version, or its scatter vector.
fn form_numbers(blob: Bytes) -> Option<Numbers>
    ensures { MatchOption result (8 ≤ length (bytes_of blob.entry) → is_directory (bytes_of blob.entry) ≡ true)
        (λ n. IsFormShown (bytes_of blob.entry) n.value n.limit) }
{
    let size = blob.len();
    let magic = word(blob, MAGIC)?;
    if magic != CSMAGIC_CODEDIRECTORY {
        return Numbers::differing(u64::from(magic), u64::from(CSMAGIC_CODEDIRECTORY));
    }
    if size < CS_CODE_DIRECTORY_SIZE {
        return Numbers::below(size, CS_CODE_DIRECTORY_SIZE);
    }
    let version = word(blob, VERSION)?;
    if version < CS_EARLIEST_VERSION {
        return Numbers::below(u64::from(version), u64::from(CS_EARLIEST_VERSION));
    }
    let fields = fields_size(version);
    if size < fields {
        return Numbers::below(size, fields);
    }
    if version < CS_SUPPORTSSCATTER {
        return None;
    }
    Numbers::above(u64::from(word(blob, SCATTER_OFFSET)?), 0)
}

// Why a code directory is unsound: its hashes, up to where it covers the image, its names, or what else lies in it.
fn unsound(part: Part, table: &Bounded, blob: Bytes, directory: CodeDirectory) -> Option<Conflict>
    ensures { MatchOption result (IsSound table.now.span.start (bytes_of blob.entry) directory)
        (λ c. IsSoundnessShown table.now.span.start (bytes_of blob.entry) directory
        c.value c.limit) }
{
    if let Some(numbers) = hash_numbers(directory, blob.len()) {
        return Some(Conflict::alone(part, numbers.value, numbers.limit));
    }
    let page_size = u64::from(directory.page_size);
    if directory.page_size > MOST_PAGE_SIZE {
        return Some(Conflict::alone(part, page_size, u64::from(MOST_PAGE_SIZE)));
    }
    let start = table.span.start;
    if directory.limit > start {
        return Some(Conflict::of(part, table.part, directory.limit, start));
    }
    let slots = slots_of(directory.page_size, directory.limit);
    if u64::from(directory.code_slots) != slots {
        return Some(Conflict::alone(part, u64::from(directory.code_slots), slots));
    }
    let numbers = content_numbers(blob, directory)?;
    Some(Conflict::alone(part, numbers.value, numbers.limit))
}

// Why the hashes of a code directory of so many bytes are unsound: their type or size, or where they lie.
fn hash_numbers(directory: CodeDirectory, size: u64) -> Option<Numbers>
    ensures { MatchOption result (HasHashes size directory) (λ n. AreHashesShown size directory n.value n.limit) }
{
    let hash_size = u64::from(directory.hash_size);
    let Some(wanted) = size_of_hash(directory.hash_type) else {
        let value = u64::from(directory.hash_type);
        let limit = u64::from(CS_HASHTYPE_SHA384);
        return Some(Numbers { value, limit });
    };
    if directory.hash_size != wanted {
        return Numbers::differing(hash_size, u64::from(wanted));
    }
    let start = u64::from(directory.hash_offset);
    let special = u64::from(directory.special_slots) * hash_size;
    if special > start {
        return Numbers::above(special, start);
    }
    Numbers::above(start + u64::from(directory.code_slots) * hash_size, size)
}

// What of a code directory does not end in its blob, and the size of that: a name, or what else lies in it.
fn content_numbers(blob: Bytes, directory: CodeDirectory) -> Option<Numbers>
    ensures { MatchOption result (HasName (bytes_of blob.entry) directory.ident_offset
        × HasName (bytes_of blob.entry) directory.team_offset
        × HasEarlierHashes (length (bytes_of blob.entry)) directory
        × (directory.linkage_offset + directory.linkage_size ≤ length (bytes_of blob.entry)))
        (λ n. (IsNameShown (bytes_of blob.entry) directory n.value
        × (n.limit ≡ length (bytes_of blob.entry)))
        ⊎ AreEndsShown (length (bytes_of blob.entry)) directory n.value n.limit) }
{
    if let Some(numbers) = name_numbers(blob, directory) {
        return Some(numbers);
    }
    end_numbers(directory, blob.len())
}

// A name of a code directory that does not end in it, and the size of its blob.
fn name_numbers(blob: Bytes, directory: CodeDirectory) -> Option<Numbers>
    ensures { MatchOption result (HasName (bytes_of blob.entry) directory.ident_offset
        × HasName (bytes_of blob.entry) directory.team_offset)
        (λ n. IsNameShown (bytes_of blob.entry) directory n.value × (n.limit ≡ length (bytes_of blob.entry))) }
{
    let name = endless_name(blob, directory)?;
    let value = u64::from(name);
    let limit = blob.len();
    Some(Numbers { value, limit })
}

// Where the hashes before encryption or the linkage of a code directory of so many bytes end, past these.
fn end_numbers(directory: CodeDirectory, size: u64) -> Option<Numbers>
    ensures { MatchOption result (HasEarlierHashes size directory
        × (directory.linkage_offset + directory.linkage_size ≤ size))
        (λ n. AreEndsShown size directory n.value n.limit) }
{
    if !directory.has_earlier_hashes(size) {
        return Numbers::above(directory.earlier_hashes_end(), size);
    }
    Numbers::above(directory.linkage_end(), size)
}

// Where a name of a code directory begins that does not end in its blob.
fn endless_name(blob: Bytes, directory: CodeDirectory) -> Option<u32>
    ensures { MatchOption result (HasName (bytes_of blob.entry) directory.ident_offset
        × HasName (bytes_of blob.entry) directory.team_offset) (IsNameShown (bytes_of blob.entry) directory) }
{
    if !has_name(blob, directory.ident_offset) {
        return Some(directory.ident_offset);
    }
    if has_name(blob, directory.team_offset) {
        None
    } else {
        Some(directory.team_offset)
    }
}
