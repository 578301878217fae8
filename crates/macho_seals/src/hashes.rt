//! What the code directories of a signature have other hashes of.

ghost use Rattle.std.specs.Prelude.{◌+◌, ◌≤◌, length};
ghost use Rattle.macho_fields.specs.Bytes.{bytes_of};
ghost use Rattle.macho_fields.specs.FirstPlace.{IsLeastPlace};
ghost use Rattle.macho_seals.specs.Signature.{AreApart};
ghost use Rattle.macho_seals.specs.Good.{IsWholeSignature};
ghost use Rattle.macho_seals.specs.Signature.{BadHash};

use crate::directories::directories_of;
use crate::pages::first_other_page;
use crate::specials::first_other_special;
use macho_fields::Bytes;
use macho_tables::place::place_from;

/// The least place of a page, or of a blob of the signature, with another hash in a code directory. The signature
/// begins at `start` in the image, past all pages. It reads each page once, and takes no memory.
pub fn first_other_hash(image: Bytes, start: u64, signature: Bytes) -> Option<u64>
    requires whole { IsWholeSignature start (bytes_of signature) }
    requires apart { AreApart (bytes_of signature) }
    requires inside { start + length (bytes_of signature) ≤ length (bytes_of image) }
    ensures { IsLeastPlace (BadHash (bytes_of image.entry) start (bytes_of signature.entry)) result }
{
    prove!(image.len() <= u64::MAX);
    let directories = directories_of(signature);
    let page = first_other_page(image, &directories);
    if page.is_some() {
        return page;
    }
    place_from(start, first_other_special(signature, &directories))
}
