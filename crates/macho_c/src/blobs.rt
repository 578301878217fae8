//! The blobs of the code signature of an image. (`mach-o/loader.h`: `LC_CODE_SIGNATURE`; `cs_blobs.h`)

ghost use Rattle.std.specs.Prelude.{◌≡◌, ◌+◌, ◌≤◌, length};
ghost use Rattle.macho_fields.specs.Bytes.{bytes_of};
ghost use Rattle.macho_c.specs.Blobs.{blob_row, first_blob, blobs_left, HasAllBlobs, IsFirstPlaced};
ghost use Rattle.macho_rows.specs.Cursor.{start, begun, IsBatch};
ghost use Rattle.macho_rows.specs.Image.{image_in, ShowsUnbroken};

use macho_fields::header::loader::LC_CODE_SIGNATURE;
use macho_fields::{Bytes, Order, Span};
use macho_rows::cursor::KesvuotCursor;
use macho_rows::image::KesvuotImage;
use macho_rows::linkedit::named_data;
use macho_rows::parts::part_or_none;
use macho_rows::span::{Held, KesvuotSpan};
use macho_rows::table::{Table, fill};
use macho_signature::{Blob, Superblob};

/// A blob of a code signature. (`CS_BlobIndex`, `CS_GenericBlob`)
#[repr(C)]
#[derive(Clone, Copy)]
pub struct KesvuotBlob {
    /// Where it lies in the file, with its magic number and its length.
    pub bytes: KesvuotSpan,
    /// Its kind in the signature, `type` of its entry.
    pub slot: u32,
    /// Its own kind, the magic number.
    pub magic: u32,
}

/// Writes the blobs of the code signature from the cursor on to the rows of the table, until either runs out, moves
/// the cursor past them, and returns how many it wrote. Later rows are unchanged. They are from the first
/// `LC_CODE_SIGNATURE`, in the order of its index, up to the first that is not past the index and the blob before it,
/// or does not end in the superblob. Only the first batch looks for the command.
#[unsafe(no_mangle)]
pub extern "C" fn kesvuot_read_blobs(
    file: &[u8],
    image: &KesvuotImage,
    cursor: &mut KesvuotCursor,
    rows: &mut [KesvuotBlob],
) -> usize
    ensures rows { IsBatch (blobs_left image.now.slice.offset (image_in file.now image.now)) cursor.old
        cursor.new result rows.old rows.new }
    ensures all { ShowsUnbroken file.now image.now
        → HasAllBlobs image.now.slice.offset (image_in file.now image.now)
        (blobs_left image.now.slice.offset (image_in file.now image.now) start) }
{
    let blobs = Blobs {
        image: image.held(file),
    };
    fill(&blobs, cursor, rows)
}

// The blobs of the code signature of an image.
#[derive(Clone, Copy)]
struct Blobs<'a> {
    image: Held<'a>,
}

impl<'a> Blobs<'a> {
    // Where the table is read on. The cursor has the index of the next entry, where the signature begins in the
    // image, its size, and the least offset of the next blob in it.
    fn begun(&self, cursor: &KesvuotCursor) -> KesvuotCursor
        ensures { result ≡ begun (first_blob (bytes_of self.now.image.bytes)) cursor.now }
    {
        if cursor.place != 0 {
            return *cursor;
        }
        let data = named_data(self.image.bytes, LC_CODE_SIGNATURE);
        KesvuotCursor {
            place: 0,
            commands: 0,
            segment: data.start,
            items: data.len,
        }
    }
}

impl<'a> Table for Blobs<'a> {
    ghost use Rattle.macho_fields.specs.Bytes.{bytes_of};
    ghost use Rattle.macho_c.specs.Blobs.{blobs_left};

    type Row = KesvuotBlob;

    ghost left = { λ t. blobs_left t.image.place (bytes_of t.image.bytes) };

    fn next(&self, cursor: &mut KesvuotCursor) -> Option<KesvuotBlob> {
        let at = self.begun(cursor);
        let data = Span {
            start: at.segment,
            len: at.items,
        };
        let signature = Bytes::new(part_or_none(self.image.bytes, data));
        let blob = blob_from(signature, at.place, at.commands)?;
        *cursor = KesvuotCursor {
            place: at.place + 1,
            commands: blob.end(),
            segment: at.segment,
            items: at.items,
        };
        Some(row_of(&self.image, at.segment, signature, blob))
    }
}

// The blob of the entry with this index, where it is in place, at an offset or past it.
fn blob_from(signature: Bytes, index: u64, least: u64) -> Option<Blob>
    ensures { IsFirstPlaced (bytes_of signature.entry) index least result }
{
    let superblob = Superblob::read(signature)?;
    if index >= u64::from(superblob.count) {
        return None;
    }
    superblob.blob(signature, index as u32, least.max(superblob.index_end()))
}

// The row of a blob, in a signature that begins at `start` in the image.
fn row_of(image: &Held, start: u64, signature: Bytes, blob: Blob) -> KesvuotBlob
    requires image { start + length (bytes_of signature) ≤ length (bytes_of image.now.bytes) }
    requires fields { blob.offset + 4 ≤ length (bytes_of signature) }
    ensures { result ≡ blob_row image.now.place (bytes_of image.now.bytes) start (bytes_of signature.entry) blob }
{
    let offset = u64::from(blob.offset);
    prove!(image.bytes.len() <= u64::MAX);
    KesvuotBlob {
        bytes: image.part(start + offset, u64::from(blob.length)),
        slot: blob.slot,
        magic: signature.read_u32(Order::Big, offset),
    }
}
