//! The cdhash of a code directory, by which `codesign` and servers name what is signed: the digest of its blob by its
//! own type. Of a longer digest they take the first 20 bytes. (`cs_blobs.h`: `CS_CDHASH_LEN`)

ghost use Rattle.std.specs.Prelude.{◌≡◌, ◌<◌};
ghost use Rattle.std.specs.Iterator.{YieldsFirst, item_count};
ghost use Rattle.macho_fields.specs.Bytes.{bytes_of};
ghost use Rattle.macho_seals.specs.Cdhashes.{cdhash, cdhash_at as cdhash_at_of, entry_count as entry_count_of};

use crate::digest::Digest;
use macho_fields::Bytes;
use macho_fields::header::cs_blobs::CS_CDHASH_LEN;
use macho_fields::header::loader::LC_CODE_SIGNATURE;
use macho_image::Image;
use macho_signature::{CodeDirectory, Superblob};
use macho_tables::data_table::data_table;
use std::marker::Model;

/// The cdhash of a blob, whole: the digest of all its bytes, by the type of its hashes. `None` if the blob is not a
/// code directory, or its type is not known.
pub fn cdhash_of(blob: &[u8]) -> Option<Digest>
    ensures { result ≡ cdhash blob.now }
{
    let directory = CodeDirectory::read(Bytes::new(blob))?;
    Digest::of(directory.hash_type, blob)
}

/// The cdhashes of the code directories of an image that remain, in the order of the index of its code signature.
#[derive(Drop)]
pub struct Cdhashes<'a> {
    signature: Bytes<'a>,
    // The next entry.
    index: u32,
    // How many there are.
    count: u32,
}

impl<'a> Model for Cdhashes<'a> {
    ghost use Rattle.std.specs.Prelude.{◌≡◌, ◌-◌, List};
    ghost use Rattle.macho_fields.specs.Bytes.{bytes_of};
    ghost use Rattle.macho_seals.specs.Cdhashes.{cdhashes_from, entry_count};
    ghost use Rattle.macho_seals.specs.declared.digest.Digest.{Digest};

    ghost Value = { List Digest };

    ghost view = { λ walk. cdhashes_from (bytes_of walk.signature) walk.index (walk.count - walk.index) };

    ghost invariant = { λ walk. walk.count ≡ entry_count (bytes_of walk.signature) };
}

impl<'a> Cdhashes<'a> {
    ghost use Rattle.std.specs.Prelude.{◌≡◌, None};
    ghost use Rattle.macho_fields.specs.Bytes.{bytes_of};
    ghost use Rattle.macho_fields.specs.Layers.{NothingBreaks};
    ghost use Rattle.macho_fields.specs.Rules.{BreaksImage as Breaks};
    ghost use Rattle.macho_seals.specs.Cdhashes.{image_cdhashes, signature_cdhashes};

    /// Those of an image that breaks no rule of the layout: one for each entry of its code signature that is in a slot
    /// of code directories, and whose blob is past the index, ends in the superblob, and has one.
    pub fn of(image: &Image<'a>) -> Cdhashes<'a>
        requires { NothingBreaks (Breaks image.now None) }
        ensures { result ≡ image_cdhashes image.now }
    {
        match data_table(image, LC_CODE_SIGNATURE) {
            Some(table) => Cdhashes::of_signature(image.bytes().slice(table)),
            None => Cdhashes::of_signature(Bytes::new(&[])),
        }
    }

    // Those of a signature.
    fn of_signature(signature: Bytes<'a>) -> Cdhashes<'a>
        ensures { result ≡ signature_cdhashes (bytes_of signature.entry) }
    {
        Cdhashes {
            signature,
            index: 0,
            count: entry_count(signature),
        }
    }
}

impl<'a> Iterator for Cdhashes<'a> {
    type Item = Digest;

    ghost next_gives = { YieldsFirst (λ left. left) };

    ghost remaining = { item_count (λ left. left) };

    fn next(&mut self) -> Option<Digest> {
        while self.index < self.count {
            let found = cdhash_at(self.signature, self.index);
            self.index += 1;
            if found.is_some() {
                return found;
            }
        }
        None
    }
}

// How many entries the index of a signature has.
fn entry_count(signature: Bytes) -> u32
    ensures { result ≡ entry_count_of (bytes_of signature.entry) }
{
    match Superblob::read(signature) {
        Some(superblob) => superblob.count,
        None => 0,
    }
}

// The cdhash of the entry with this index.
fn cdhash_at(signature: Bytes, index: u32) -> Option<Digest>
    requires { index < entry_count_of (bytes_of signature) }
    ensures { result ≡ cdhash_at_of (bytes_of signature.entry) index }
{
    let superblob = Superblob::read(signature)?;
    let blob = superblob.blob(signature, index, superblob.index_end())?;
    if !blob.is_directory() {
        return None;
    }
    cdhash_of(signature.read_part(blob.span()))
}
