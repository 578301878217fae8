//! The hash of a code directory. (`cs_blobs.h`: `CS_CodeDirectory`, `CS_CDHASH_LEN`)

ghost use Rattle.std.specs.Prelude.{◌≡◌};
ghost use Rattle.macho_c.specs.Cdhashes.{cdhash_row, IsAnswer};
ghost use Rattle.macho_rows.specs.Spans.{part_or_none};

use crate::blobs::KesvuotBlob;
use crate::layout::write_front;
use crate::status::answer;
use macho_fields::{Bytes, Span};
use macho_rows::parts::part_or_none;
use macho_seals::{Digest, cdhash_of};

// The size in bytes of the longest hash, which is by SHA-384.
const MOST_BYTES: usize = 48;

/// The hash of a code directory. (`struct kesvuot_cdhash`)
#[repr(C)]
#[derive(Clone, Copy)]
pub struct KesvuotCdhash {
    /// The hash, and zeros past it.
    pub digest: [u8; MOST_BYTES],
    /// How many bytes the hash has.
    pub size: u32,
    /// How it is made: the type of the hashes of the code directory.
    pub hash_type: u32,
}

/// Writes the hash of a blob, whole, if it is a code directory: by the type of the hashes in it. The status is `OK`, or
/// `NONE` if it is not, or the type is not known, and then all fields are 0.
#[unsafe(no_mangle)]
pub extern "C" fn kesvuot_read_cdhash(
    file: &[u8],
    blob: &KesvuotBlob,
    cdhash: &mut KesvuotCdhash,
) -> u32
    ensures { IsAnswer (part_or_none blob.now.bytes.offset blob.now.bytes.size file.now) result cdhash.new }
{
    let bytes = Span {
        start: blob.bytes.offset,
        len: blob.bytes.size,
    };
    let found = cdhash_of(part_or_none(Bytes::new(file), bytes)).map(|digest| row_of(&digest));
    answer(found, NO_CDHASH, cdhash)
}

// What is written of a blob without a hash.
const NO_CDHASH: KesvuotCdhash = KesvuotCdhash {
    digest: [0; MOST_BYTES],
    size: 0,
    hash_type: 0,
};

// The row of a hash.
fn row_of(digest: &Digest) -> KesvuotCdhash
    ensures { result ≡ cdhash_row digest.now }
{
    let bytes = digest.as_bytes();
    let mut row = KesvuotCdhash {
        size: bytes.len() as u32,
        hash_type: u32::from(digest.hash_type()),
        ..NO_CDHASH
    };
    write_front(bytes, &mut row.digest);
    row
}
