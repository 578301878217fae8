//! The pages in which a kernel maps an image.

ghost use Rattle.std.specs.Prelude.{◌≡◌, ◌<◌};
ghost use Rattle.macho_readers.specs.Pages.{page_size as page_size_of};

use macho_fields::header::machine::CPU_TYPE_X86_64;

/// The size in bytes of a page of an x86-64 processor.
pub const SMALL_PAGE: u64 = 4096;

/// The size in bytes of a page of any other processor. Apple's ARM processors map pages of this size.
pub const LARGE_PAGE: u64 = 16_384;

/// The size in bytes of the pages in which an image with this `cputype` is mapped.
pub fn page_size(cputype: u32) -> u64
    ensures size { result ≡ page_size_of cputype }
    ensures some { 0 < result }
{
    if cputype == CPU_TYPE_X86_64 {
        SMALL_PAGE
    } else {
        LARGE_PAGE
    }
}
