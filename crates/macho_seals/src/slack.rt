//! The bytes of an image, from its code signature on, that are in no part of that.

ghost use Rattle.std.specs.Prelude.{◌+◌, ◌≤◌, length};
ghost use Rattle.macho_fields.specs.Bytes.{bytes_of};
ghost use Rattle.macho_fields.specs.FirstPlace.{IsLeastPlace};
ghost use Rattle.macho_seals.specs.Slack.{IsSlackAt};
ghost use Rattle.macho_signature.specs.Superblobs.{AreGoodBlobs};

use crate::signature::{blob_at, superblob_of};
use macho_fields::Bytes;
use macho_strict::slack::nonzero_within;

/// The first byte of an image, from its signature on, that is not zero, and lies neither in the superblob with its
/// index nor in a blob. The signature begins at `start` in the image.
pub fn first_slack(image: Bytes, start: u64, signature: Bytes) -> Option<u64>
    requires blobs { AreGoodBlobs (bytes_of signature) }
    requires inside { start + length (bytes_of signature) ≤ length (bytes_of image) }
    ensures { IsLeastPlace (IsSlackAt (bytes_of image.entry) start (bytes_of signature.entry)) result }
{
    prove!(image.len() <= u64::MAX);
    let superblob = superblob_of(signature);
    let mut end = start + superblob.index_end();
    for index in 0..superblob.count {
        let blob = blob_at(signature, superblob, index);
        let next = start + u64::from(blob.offset);
        let slack = nonzero_within(image, end, next);
        if slack.is_some() {
            return slack;
        }
        end = start + blob.end();
    }
    nonzero_within(image, end, image.len())
}
