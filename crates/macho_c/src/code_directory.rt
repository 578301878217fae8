//! The code directory that a blob of a code signature is. (`cs_blobs.h`: `CS_CodeDirectory`)

ghost use Rattle.std.specs.Prelude.{◌≡◌, ◌*◌};
ghost use Rattle.std.specs.Option.{option_map};
ghost use Rattle.macho_fields.specs.Bytes.{bytes_of};
ghost use Rattle.macho_c.specs.CodeDirectories.{name_span, special_hashes as special_hashes_of, directory_row, IsAnswer};
ghost use Rattle.macho_rows.specs.Spans.{part_or_none};
ghost use Rattle.macho_signature.specs.CodeDirectories.{code_directory};

use crate::blobs::KesvuotBlob;
use crate::status::answer;
use macho_fields::Span;
use macho_rows::parts::{ended_string, rest};
use macho_rows::span::{Held, KesvuotSpan, NO_SPAN, held_at};
use macho_signature::CodeDirectory;

/// A code directory. (`CS_CodeDirectory`)
#[repr(C)]
#[derive(Clone, Copy)]
pub struct KesvuotCodeDirectory {
    /// Where the identifier lies in the file, without the zero byte past it: nowhere without one.
    pub identifier: KesvuotSpan,
    /// Where the team lies, as the identifier does.
    pub team: KesvuotSpan,
    /// Where the hashes of the code lie, one for each page: nowhere if they are not all in the blob.
    pub hashes: KesvuotSpan,
    /// Where the special hashes lie, the first special slot's last: nowhere if they are not all in the blob.
    pub special_hashes: KesvuotSpan,
    /// How many bytes of the image the hashes of the code are of.
    pub limit: u64,
    pub version: u32,
    pub flags: u32,
    /// How many hashes of the code there are.
    pub code_slots: u32,
    /// How many special hashes there are.
    pub special_slots: u32,
    /// The size in bytes of a hash.
    pub hash_size: u32,
    pub hash_type: u16,
    /// The log2 of the size in bytes of a page, or 0 if one page has all bytes.
    pub page_size: u16,
}

/// Writes what a blob says, if it is a code directory. The status is `OK`, or `NONE` if it is not, and then all
/// numbers are 0.
#[unsafe(no_mangle)]
pub extern "C" fn kesvuot_read_code_directory(
    file: &[u8],
    blob: &KesvuotBlob,
    directory: &mut KesvuotCodeDirectory,
) -> u32
    ensures { IsAnswer blob.now.bytes.offset
        (part_or_none blob.now.bytes.offset blob.now.bytes.size file.now) result directory.new }
{
    let held = held_at(file, blob.bytes.offset, blob.bytes.size);
    answer(directory_of(&held), NO_DIRECTORY, directory)
}

// What a blob says, if it is a code directory.
fn directory_of(blob: &Held) -> Option<KesvuotCodeDirectory>
    ensures { result ≡ option_map (directory_row blob.now.place (bytes_of blob.now.bytes))
        (code_directory (bytes_of blob.now.bytes)) }
{
    let found = CodeDirectory::read(blob.bytes)?;
    Some(row_of(blob, found))
}

// What is written of a blob that is not a code directory.
const NO_DIRECTORY: KesvuotCodeDirectory = KesvuotCodeDirectory {
    identifier: NO_SPAN,
    team: NO_SPAN,
    hashes: NO_SPAN,
    special_hashes: NO_SPAN,
    limit: 0,
    version: 0,
    flags: 0,
    code_slots: 0,
    special_slots: 0,
    hash_size: 0,
    hash_type: 0,
    page_size: 0,
};

// The row of a code directory.
fn row_of(blob: &Held, directory: CodeDirectory) -> KesvuotCodeDirectory
    ensures { result ≡ directory_row blob.now.place (bytes_of blob.now.bytes) directory }
{
    let hash_size = u64::from(directory.hash_size);
    let hashes = u64::from(directory.code_slots) * hash_size;
    let specials = u64::from(directory.special_slots) * hash_size;
    KesvuotCodeDirectory {
        identifier: name_at(blob, directory.ident_offset),
        team: name_at(blob, directory.team_offset),
        hashes: blob.part(u64::from(directory.hash_offset), hashes),
        special_hashes: special_hashes(blob, u64::from(directory.hash_offset), specials),
        limit: directory.limit,
        version: directory.version,
        flags: directory.flags,
        code_slots: directory.code_slots,
        special_slots: directory.special_slots,
        hash_size: u32::from(directory.hash_size),
        hash_type: u16::from(directory.hash_type),
        page_size: u16::from(directory.page_size),
    }
}

// Where the name at an offset of the blob lies in the file, without the zero byte past it.
fn name_at(blob: &Held, offset: u32) -> KesvuotSpan
    ensures { result ≡ name_span blob.now.place (bytes_of blob.now.bytes) offset }
{
    if offset == 0 {
        return NO_SPAN;
    }
    let start = u64::from(offset);
    let all = Span {
        start: 0,
        len: blob.bytes.len(),
    };
    let bytes = blob.bytes.read_part(all);
    blob.span_of(start, ended_string(rest(bytes, start)))
}

// Where the special hashes lie in the file, which end at an offset of the blob.
fn special_hashes(blob: &Held, offset: u64, size: u64) -> KesvuotSpan
    ensures { result ≡ special_hashes_of blob.now.place (bytes_of blob.now.bytes) offset size }
{
    if size <= offset {
        blob.part(offset - size, size)
    } else {
        NO_SPAN
    }
}
