//! The blobs of a code signature that breaks no rule of the linked profile. An offset is one in the signature.
//! (`cs_blobs.h`: `CS_SuperBlob`)

ghost use Rattle.std.specs.Prelude.{◌≡◌, ◌≤◌, ◌<◌, length};
ghost use Rattle.macho_fields.specs.Bytes.{bytes_of};
ghost use Rattle.macho_signature.specs.Superblobs.{superblob_at, blob_at as blob_at_of, blob_bytes as blob_bytes_of, blob_count, blob_end, AreGoodBlobs};

use macho_fields::Bytes;
use macho_signature::{Blob, Superblob};

/// The superblob of the signature.
pub fn superblob_of(signature: Bytes) -> Superblob
    requires { AreGoodBlobs (bytes_of signature) }
    ensures { result ≡ superblob_at (bytes_of signature.entry) }
{
    Superblob::read(signature).unwrap()
}

/// The blob of the entry with this index.
pub fn blob_at(signature: Bytes, superblob: Superblob, index: u32) -> Blob
    requires superblob { superblob ≡ superblob_at (bytes_of signature) }
    requires blobs { AreGoodBlobs (bytes_of signature) }
    requires index { index < blob_count (bytes_of signature) }
    ensures blob { result ≡ blob_at_of (bytes_of signature.entry) index }
    ensures inside { blob_end result ≤ length (bytes_of signature.entry) }
{
    superblob
        .blob(signature, index, superblob.index_end())
        .unwrap()
}

/// The bytes of a blob, with its magic number and its length.
pub fn blob_bytes<'a>(signature: Bytes<'a>, blob: Blob) -> &'a [u8]
    requires { blob_end blob ≤ length (bytes_of signature) }
    ensures { result.now ≡ blob_bytes_of (bytes_of signature.entry) blob }
{
    signature.read_part(blob.span())
}
