//! The pages of code directories, against their hashes. (`cs_blobs.h`: `CS_CodeDirectory`)

ghost use Rattle.std.specs.Prelude.{◌≡◌, ◌≤◌, ◌<◌};
ghost use Rattle.macho_fields.specs.Bytes.{bytes_of};
ghost use Rattle.macho_fields.specs.FirstPlace.{IsLeastPlace};
ghost use Rattle.macho_seals.specs.Directories.{AreWhole, HaveOtherPage, HaveOtherOfSize};
ghost use Rattle.macho_seals.specs.Pages.{page_at as page_at_of, code_slot as code_slot_of};
ghost use Rattle.macho_signature.specs.CodeDirectories.{HasSlots};
ghost use Rattle.macho_spans.specs.Span.{end_of};

use crate::directories::{Directories, have_page, one_of_size, use_sha256};
use crate::side_by_side::{digest_in_group, digests_of_group};
use macho_fields::header::cs_blobs::MOST_PAGE_SIZE;
use macho_fields::{Bytes, Span};
use macho_signature::CodeDirectory;
use macho_tables::place::lesser;

// The first byte of the first page of an image with another hash in a code directory. Those with pages of one size
// share a walk over the image.
#[tactic(auto, using(crate::proofs::SharedPages::one_size_more))]
pub(crate) fn first_other_page(image: Bytes, directories: &Directories) -> Option<u64>
    requires { AreWhole (bytes_of image) directories.now }
    ensures { IsLeastPlace (HaveOtherPage (bytes_of image.entry) directories.now) result }
{
    let mut least = None;
    for page_size in 0..MOST_PAGE_SIZE + 1 {
        least = lesser(least, first_other_of_size(image, directories, page_size));
    }
    least
}

// The same for the directories with pages of this size. Each page is read once, and hashed for each of them.
fn first_other_of_size(image: Bytes, directories: &Directories, page_size: u8) -> Option<u64>
    requires { AreWhole (bytes_of image) directories.now }
    ensures { IsLeastPlace (HaveOtherOfSize (bytes_of image.entry) directories.now page_size) result }
{
    let one = one_of_size(directories, page_size)?;
    let side_by_side = use_sha256(directories, page_size);
    let mut digests = None;
    for index in 0..one.code_slots {
        digests = digests_of_group(image, one, index, side_by_side, digests);
        let page = page_at(one, index);
        let known = digest_in_group(&digests, index);
        if !have_page(directories, page_size, index, image.read_part(page), known) {
            return Some(page.start);
        }
    }
    None
}

/// Where the page with this index is in the image: as many bytes as a page has, or those that are left up to the limit.
pub fn page_at(directory: CodeDirectory, index: u32) -> Span
    requires slots { HasSlots directory }
    requires index { index < directory.code_slots }
    ensures page { result ≡ page_at_of directory index }
    ensures inside { end_of result ≤ directory.limit }
{
    if directory.page_size == 0 {
        return Span {
            start: 0,
            len: directory.limit,
        };
    }
    let size: u64 = 1 << directory.page_size;
    let start = u64::from(index) * size;
    Span {
        start,
        len: size.min(directory.limit - start),
    }
}

/// Where the hash of the page with this index is in the blob of the directory.
pub fn code_slot(directory: CodeDirectory, index: u32) -> Span
    ensures { result ≡ code_slot_of directory index }
{
    let hash_size = u64::from(directory.hash_size);
    Span {
        start: u64::from(directory.hash_offset) + u64::from(index) * hash_size,
        len: hash_size,
    }
}
