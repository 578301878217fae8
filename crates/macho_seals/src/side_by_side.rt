//! The digests by SHA-256 of pages that are hashed side by side.

ghost use Rattle.std.specs.Prelude.{◌≡◌, ◌*◌, ◌/◌, ◌%◌, ◌≤◌, ◌<◌, length, get_or, IfSome, IsSomeAnd, []};
ghost use Rattle.macho_fields.specs.Bytes.{bytes_of};
ghost use Rattle.macho_seals.specs.SideBySide.{AreDigestsFrom};
ghost use Rattle.macho_signature.specs.CodeDirectories.{HasSlots};

use macho_fields::{Bytes, Span};
use macho_lanes::{LANES, pages_sha256};
use macho_signature::CodeDirectory;

// The digests of a group of pages, if they are known.
pub(crate) type Digests = Option<[[u8; 32]; LANES]>;

// The exponent of the size of a block. Smaller pages are hashed one by one.
const LEAST_PAGE_SIZE: u8 = 6;

// The digests of the group with this page: the digests of the page before, unless the group begins here.
pub(crate) fn digests_of_group(
    image: Bytes,
    directory: CodeDirectory,
    index: u32,
    are_wanted: bool,
    before: Digests,
) -> Digests
    requires slots { HasSlots directory }
    requires inside { directory.limit ≤ length (bytes_of image) }
    requires before { 0 < index % LANES → AreDigestsFrom (bytes_of image) directory (index / LANES * LANES) before }
    ensures { AreDigestsFrom (bytes_of image.entry) directory (index / LANES * LANES) result }
{
    if !are_wanted {
        return None;
    }
    if index as usize % LANES == 0 {
        digests_from(image, directory, index)
    } else {
        before
    }
}

// The digests of the group that begins with this page, if all its pages are whole and have 64 bytes or more.
fn digests_from(image: Bytes, directory: CodeDirectory, index: u32) -> Digests
    requires slots { HasSlots directory }
    requires inside { directory.limit ≤ length (bytes_of image) }
    ensures { AreDigestsFrom (bytes_of image.entry) directory index result }
{
    if directory.page_size < LEAST_PAGE_SIZE {
        return None;
    }
    let size: u64 = 1 << directory.page_size;
    let pages = Span {
        start: u64::from(index) * size,
        len: LANES as u64 * size,
    };
    if pages.start + pages.len > directory.limit {
        return None;
    }
    Some(pages_sha256(image.read_part(pages)))
}

// The digest of the page with this index, which its group has.
pub(crate) fn digest_in_group(digests: &Digests, index: u32) -> Option<[u8; 32]>
    ensures { IfSome result (λ digest. IsSomeAnd digests.now (λ these. digest ≡ get_or these (index % LANES) [])) }
{
    match digests {
        Some(these) => Some(these[index as usize % LANES]),
        None => None,
    }
}
