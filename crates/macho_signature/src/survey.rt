//! Where the code signature of an image breaks its rules. (`mach-o/loader.h`: `LC_CODE_SIGNATURE`)

ghost use Rattle.std.specs.Prelude.{◌≢◌, ◌↔◌, IsTrue, IsSomeAnd};
ghost use Rattle.macho_fields.specs.Bytes.{bytes_of};
ghost use Rattle.macho_signature.specs.CodeDirectories.{IsSound};
ghost use Rattle.macho_signature.specs.Surveys.{AreLeastInSignature};

use crate::code_directory::CodeDirectory;
use crate::superblob::{Blob, Superblob, entry_offset};
use macho_fields::Bytes;
use macho_fields::header::cs_blobs::CSSLOT_CODEDIRECTORY;
use macho_fields::header::loader::LC_CODE_SIGNATURE;
use macho_image::Image;
use macho_tables::data_table::data_table;
use macho_tables::place::{note_if, place_from};

/// Where the code signature of an image first breaks each of its rules.
#[derive(Clone, Copy)]
pub struct SignatureSurvey {
    /// The signature, if it has no superblob that ends in it, or the first entry of the index whose blob begins
    /// before the blob before it ends, or does not end in the superblob.
    pub blob: Option<u64>,
    /// The signature, if no blob is in the slot of the code directory that each has, or the entry of the first code
    /// directory that is not sound.
    pub directory: Option<u64>,
    /// The entry of the first code directory whose hashes are of other bytes than those before the signature.
    pub whole: Option<u64>,
}

impl SignatureSurvey {
    ghost use Rattle.std.specs.Prelude.{◌≡◌, Some, None};
    ghost use Rattle.macho_fields.specs.Layers.{NothingBreaks};
    ghost use Rattle.macho_fields.specs.Rules.{BreaksImage as Breaks};
    ghost use Rattle.macho_signature.specs.Surveys.{AreLeastInImage};

    /// Goes over the signature of an image that breaks no rule of the layout, once. The places are those in the
    /// image.
    pub fn of(image: &Image) -> SignatureSurvey
        requires { NothingBreaks (Breaks image.now None) }
        ensures { AreLeastInImage image.now result }
    {
        let Some(table) = data_table(image, LC_CODE_SIGNATURE) else {
            return SignatureSurvey {
                blob: None,
                directory: None,
                whole: None,
            };
        };
        let found = survey(table.start, image.bytes().slice(table));
        SignatureSurvey {
            blob: place_from(table.start, found.blob),
            directory: place_from(table.start, found.directory),
            whole: place_from(table.start, found.whole),
        }
    }

    // A blob is bad, so the code directories are not judged.
    fn with_bad_blob(place: u64) -> SignatureSurvey
        ensures blob { result.blob ≡ Some place }
        ensures directory { result.directory ≡ None }
        ensures whole { result.whole ≡ None }
    {
        SignatureSurvey {
            blob: Some(place),
            directory: None,
            whole: None,
        }
    }
}

// Goes over the entries of a signature, which begins at a place of the image. The places are offsets in it.
fn survey(start: u64, signature: Bytes) -> SignatureSurvey
    ensures { AreLeastInSignature start (bytes_of signature.entry) result }
{
    let Some(superblob) = Superblob::read(signature) else {
        return SignatureSurvey::with_bad_blob(0);
    };
    let mut directories = Directories::none();
    let mut least = superblob.index_end();
    for index in 0..superblob.count {
        let Some(blob) = superblob.blob(signature, index, least) else {
            return SignatureSurvey::with_bad_blob(entry_offset(index));
        };
        directories.note(start, signature, index, blob);
        least = blob.end();
    }
    directories.survey()
}

// What the first entries of a signature say of its code directories. The places are offsets in the signature.
#[derive(Clone, Copy)]
struct Directories {
    // Whether one is in the slot that each signature has.
    has_main: bool,
    // The entry of the first that is not sound.
    unsound: Option<u64>,
    // The entry of the first whose limit is another place than the start of the signature.
    partial: Option<u64>,
}

impl Directories {
    ghost use Rattle.std.specs.Prelude.{◌≡◌, ◌≤◌, length};
    ghost use Rattle.macho_fields.specs.Bytes.{bytes_of};
    ghost use Rattle.macho_signature.specs.Superblobs.{blob_at, blob_end};
    ghost use Rattle.macho_signature.specs.Surveys.{AreNextDirectories, directories_before, survey_of};

    // Before the first entry.
    fn none() -> Directories
        ensures { result ≡ directories_before }
    {
        Directories {
            has_main: false,
            unsound: None,
            partial: None,
        }
    }

    // With the blob of the entry with this index, which lies in the signature.
    fn note(&mut self, start: u64, signature: Bytes, index: u32, blob: Blob)
        requires blob { blob ≡ blob_at (bytes_of signature) index }
        requires inside { blob_end blob ≤ length (bytes_of signature) }
        ensures { AreNextDirectories start (bytes_of signature.entry) index self.old self.new }
    {
        if !blob.is_directory() {
            return;
        }
        let place = entry_offset(index);
        let bytes = signature.slice(blob.span());
        let directory = CodeDirectory::read(bytes);
        if blob.slot == CSSLOT_CODEDIRECTORY {
            self.has_main = true;
        }
        note_if(&mut self.unsound, !is_sound(directory, bytes, start), place);
        note_if(&mut self.partial, has_other_limit(directory, start), place);
    }

    // All of them, in a signature without a bad blob.
    fn survey(self) -> SignatureSurvey
        ensures { result ≡ survey_of self }
    {
        let directory = if self.has_main { self.unsound } else { Some(0) };
        let whole = if directory.is_none() {
            self.partial
        } else {
            None
        };
        SignatureSurvey {
            blob: None,
            directory,
            whole,
        }
    }
}

// Whether the blob is a code directory, and sound.
fn is_sound(directory: Option<CodeDirectory>, blob: Bytes, start: u64) -> bool
    ensures { IsTrue result ↔ IsSomeAnd directory (IsSound start (bytes_of blob.entry)) }
{
    match directory {
        Some(directory) => directory.is_sound(blob, start),
        None => false,
    }
}

// Whether it is a code directory, and its limit another place than the start of the signature.
fn has_other_limit(directory: Option<CodeDirectory>, start: u64) -> bool
    ensures { IsTrue result ↔ IsSomeAnd directory (λ d. d.limit ≢ start) }
{
    match directory {
        Some(directory) => directory.limit != start,
        None => false,
    }
}
