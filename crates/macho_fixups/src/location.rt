//! Where the pointers lie that a loader writes.

ghost use Rattle.std.specs.Prelude.{◌≡◌, ◌+◌, ◌≤◌, length, IfSome};
ghost use Rattle.macho_fields.specs.Bytes.{bytes_of};
ghost use Rattle.macho_fixups.specs.Locations.{pointer_place, pointer_address, AreNear};

use macho_fields::header::loader::segment_command_64::{FILEOFF, FILESIZE, VMADDR};
use macho_fields::{Bytes, Order, Span};
use macho_rows::cursor::START;
use macho_rows::load::{Wanted, next_wanted};
use macho_tables::limits::{POINTER_SIZE, SEGMENTS};

/// The memory and the bytes of a segment.
#[derive(Clone, Copy)]
pub struct Room {
    /// Its first address.
    pub vmaddr: u64,
    /// Where its bytes begin in the image.
    pub fileoff: u64,
    /// How many bytes it has in the file: none if they do not all lie in the image.
    pub filesize: u64,
}

/// The room of no segment.
pub const NO_ROOM: Room = Room {
    vmaddr: 0,
    fileoff: 0,
    filesize: 0,
};

impl Room {
    ghost use Rattle.std.specs.Prelude.{◌≡◌, ◌+◌, ◌≤◌, length};
    ghost use Rattle.macho_fields.specs.Bytes.{bytes_of};
    ghost use Rattle.macho_fixups.specs.Locations.{room_of, place_in, address_in};

    /// The room of the segment whose structure begins at `segment`.
    pub fn of(image: Bytes, segment: u64) -> Room
        requires { segment + 72 ≤ length (bytes_of image) }
        ensures { result ≡ room_of (bytes_of image.entry) segment }
    {
        let fileoff = image.read_u64(Order::Little, segment + FILEOFF);
        let filesize = image.read_u64(Order::Little, segment + FILESIZE);
        let bytes = Span {
            start: fileoff,
            len: filesize,
        };
        Room {
            vmaddr: image.read_u64(Order::Little, segment + VMADDR),
            fileoff,
            filesize: if image.contains(bytes) { filesize } else { 0 },
        }
    }

    /// Where the pointer at an offset of the segment lies in the image. It is `None` unless its 8 bytes are among the
    /// bytes that the segment has in the file.
    pub fn place(self, offset: u64) -> Option<u64>
        ensures { result ≡ place_in self offset }
    {
        if self.filesize < POINTER_SIZE || offset > self.filesize - POINTER_SIZE {
            return None;
        }
        self.fileoff.checked_add(offset)
    }

    /// The address of that pointer, before any slide, modulo 2^64.
    pub fn address(self, offset: u64) -> u64
        ensures { result ≡ address_in self offset }
    {
        self.vmaddr.wrapping_add(offset)
    }
}

/// Where the pointer at an offset of a segment lies in the image, by its room. The structure of the segment begins at
/// `segment`.
pub fn pointer_place(image: Bytes, segment: u64, offset: u64) -> Option<u64>
    requires { segment + 72 ≤ length (bytes_of image) }
    ensures place { result ≡ pointer_place (bytes_of image.entry) segment offset }
    ensures inside { IfSome result (λ place. place + 8 ≤ length (bytes_of image.entry)) }
{
    Room::of(image, segment).place(offset)
}

/// The address of that pointer, before any slide, modulo 2^64.
pub fn pointer_address(image: Bytes, segment: u64, offset: u64) -> u64
    requires { segment + 72 ≤ length (bytes_of image) }
    ensures { result ≡ pointer_address (bytes_of image.entry) segment offset }
{
    Room::of(image, segment).address(offset)
}

/// The rooms of the segments that an opcode can name: the first ones, in the order of the load commands.
pub fn near_rooms(image: Bytes) -> [Room; SEGMENTS]
    ensures { AreNear (bytes_of image.entry) result }
{
    let mut rooms = [NO_ROOM; SEGMENTS];
    let mut cursor = START;
    let mut index = 0;
    while index < SEGMENTS {
        let Some(load) = next_wanted(image, &mut cursor, Wanted::Segments) else {
            return rooms;
        };
        rooms[index] = Room::of(image, load.place);
        index += 1;
    }
    rooms
}
