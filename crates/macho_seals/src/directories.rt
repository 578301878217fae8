//! The code directories of a signature, each at the number of its slot, and what all of them have hashes of.
//! (`cs_blobs.h`: `CS_CodeDirectory`)

ghost use Rattle.std.specs.Prelude.{◌≡◌, ◌↔◌, ◌<◌, IsTrue, MatchBool, MatchOption, true};
ghost use Rattle.macho_fields.specs.Bytes.{bytes_of};
ghost use Rattle.macho_seals.specs.Signature.{AreApart};
ghost use Rattle.macho_seals.specs.Directories.{EachDirectory, AnyDirectory, IsDirectoryOf, AreDirectories, HasHashesInside, HasOtherSize, HasSlotFor, HasPage, HasPageOfSize, LacksPageOfSize, HasSpecial, LacksSpecial, IsOneOfSize};
ghost use Rattle.macho_seals.specs.SideBySide.{IsDigestOf, UsesSha256, UsesNoSha256};
ghost use Rattle.macho_seals.specs.Specials.{is_special_slot};
ghost use Rattle.macho_signature.specs.Superblobs.{blob_count, AreGoodBlobs};

use crate::digest::{has_hash_with, is_sha256};
use crate::pages::code_slot;
use crate::signature::{blob_at, blob_bytes, superblob_of};
use crate::slots::{DIRECTORY_SLOTS, slot_number};
use crate::specials::has_special_hash;
use macho_fields::Bytes;
use macho_signature::CodeDirectory;

// A code directory, and the bytes of its blob.
#[derive(Clone, Copy)]
pub(crate) struct Directory<'a> {
    pub(crate) blob: Bytes<'a>,
    pub(crate) fields: CodeDirectory,
}

// The code directories of a signature, each at the number of its slot.
pub(crate) type Directories<'a> = [Option<Directory<'a>>; DIRECTORY_SLOTS];

// The directories of a signature that has at most one in each slot.
pub(crate) fn directories_of(signature: Bytes) -> Directories
    requires blobs { AreGoodBlobs (bytes_of signature) }
    requires apart { AreApart (bytes_of signature) }
    ensures { AreDirectories (bytes_of signature.entry) (blob_count (bytes_of signature.entry)) result }
{
    let superblob = superblob_of(signature);
    let mut directories = [None; DIRECTORY_SLOTS];
    for index in 0..superblob.count {
        let blob = blob_at(signature, superblob, index);
        if blob.is_directory() {
            directories[slot_number(blob.slot)] = directory_of(blob_bytes(signature, blob));
        }
    }
    directories
}

// The code directory that a blob is, if it is one.
fn directory_of(bytes: &[u8]) -> Option<Directory>
    ensures { IsDirectoryOf bytes.now result }
{
    let blob = Bytes::new(bytes);
    let fields = CodeDirectory::read(blob)?;
    Some(Directory { blob, fields })
}

// Whether each one with pages of this size has the hash of the page with this index, whose digest by SHA-256 may be
// known.
pub(crate) fn have_page(
    directories: &Directories,
    page_size: u8,
    index: u32,
    page: &[u8],
    known: Option<[u8; 32]>,
) -> bool
    requires slots { EachDirectory directories.now (HasSlotFor page_size index) }
    requires known { IsDigestOf page.now known }
    ensures { MatchBool result
        (EachDirectory directories.now (HasPageOfSize page_size index page.now))
        (AnyDirectory directories.now (LacksPageOfSize page_size index page.now)) }
{
    for directory in directories {
        if let Some(directory) = directory {
            if directory.fields.page_size == page_size
                && !has_page(*directory, index, page, known)
            {
                return false;
            }
        }
    }
    true
}

// Whether one has the hash of the page with this index.
fn has_page(directory: Directory, index: u32, page: &[u8], known: Option<[u8; 32]>) -> bool
    requires hashes { HasHashesInside directory }
    requires index { index < directory.fields.code_slots }
    requires known { IsDigestOf page.now known }
    ensures { IsTrue result ↔ HasPage index page.now directory.entry }
{
    let hash = directory.blob.read_part(code_slot(directory.fields, index));
    has_hash_with(directory.fields.hash_type, page, known, hash)
}

// Whether each has this special slot, and in it the hash of the message.
pub(crate) fn have_special(directories: &Directories, slot: u32, message: &[u8]) -> bool
    requires hashes { EachDirectory directories.now HasHashesInside }
    requires slot { is_special_slot slot ≡ true }
    ensures { MatchBool result
        (EachDirectory directories.now (HasSpecial slot message.now))
        (AnyDirectory directories.now (LacksSpecial slot message.now)) }
{
    for directory in directories {
        if let Some(directory) = directory {
            if !has_special_hash(directory.blob, directory.fields, slot, message) {
                return false;
            }
        }
    }
    true
}

// Whether one with pages of this size has hashes by SHA-256.
pub(crate) fn use_sha256(directories: &Directories, page_size: u8) -> bool
    ensures { MatchBool result
        (AnyDirectory directories.now (UsesSha256 page_size))
        (EachDirectory directories.now (UsesNoSha256 page_size)) }
{
    for directory in directories {
        if let Some(directory) = directory {
            if directory.fields.page_size == page_size && is_sha256(directory.fields.hash_type) {
                return true;
            }
        }
    }
    false
}

// One with pages of this size, if there is one.
pub(crate) fn one_of_size(directories: &Directories, page_size: u8) -> Option<CodeDirectory>
    ensures { MatchOption result
        (EachDirectory directories.now (HasOtherSize page_size))
        (IsOneOfSize directories.now page_size) }
{
    for directory in directories {
        if let Some(directory) = directory {
            if directory.fields.page_size == page_size {
                return Some(directory.fields);
            }
        }
    }
    None
}
