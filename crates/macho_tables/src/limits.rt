//! What of an image can be written, how much that is, and how many libraries it loads.

ghost use Rattle.std.specs.Prelude.{◌≡◌};
ghost use Rattle.macho_tables.specs.Limits.{AreRooms, rooms_of as all_rooms, budget_of, room as room_of, library_count as library_count_of, loads_library as loads_library_of};

use crate::segment::is_writable;
use macho_fields::header::loader::LC_ID_DYLIB;
use macho_fields::names_library;
use macho_image::{Image, Segment};

/// The size in bytes of a pointer that is written.
pub const POINTER_SIZE: u64 = 8;

/// How many segments an opcode can name: its segment is four bits.
pub const SEGMENTS: usize = 16;

/// How many ordinals below 0 have a meaning. (`BIND_SPECIAL_DYLIB_WEAK_LOOKUP` is -3.)
pub const SPECIAL_ORDINALS: u8 = 3;

/// What can be written of the segments of an image.
#[derive(Clone, Copy)]
pub struct Rooms {
    /// How many bytes of each of the first segments can be written, from its start on.
    pub sizes: [u64; SEGMENTS],
    /// How many pointers fit into what can be written of all segments.
    pub budget: u128,
}

/// How many libraries the image loads.
pub fn library_count(image: &Image) -> u64
    ensures { result ≡ library_count_of image.now }
{
    // The commands lie in the image, so their number is below 2^64.
    prove!(image.bytes().len() <= u64::MAX);
    image
        .commands()
        .filter(|command| loads_library(command.cmd))
        .count() as u64
}

// Whether a command with this `cmd` names a library that is loaded.
#[tactic(auto, unfolding(crate::specs::Limits::loads_library))]
fn loads_library(cmd: u32) -> bool
    ensures { result ≡ loads_library_of cmd }
{
    names_library(cmd) && cmd != LC_ID_DYLIB
}

/// Goes over the segments of the image, once.
pub fn rooms_of(image: &Image) -> Rooms
    ensures sizes { AreRooms (all_rooms image.now) result.sizes }
    ensures budget { result.budget ≡ budget_of image.now }
{
    let mut sizes = [0; SEGMENTS];
    let mut index = 0;
    let mut budget: u128 = 0;
    for segment in image.segments() {
        let room = room(&segment);
        budget += u128::from(room / POINTER_SIZE);
        if index < SEGMENTS {
            sizes[index] = room;
            index += 1;
        }
    }
    Rooms { sizes, budget }
}

/// How many bytes of the segment can be written: those that it has in the file, if it is writable.
pub fn room(segment: &Segment) -> u64
    ensures { result ≡ room_of segment.now.image segment.now.place }
{
    if is_writable(segment) {
        segment.filesize()
    } else {
        0
    }
}
