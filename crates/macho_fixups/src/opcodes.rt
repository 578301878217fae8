//! The fixups that the opcodes of an image ask for, and what they import. (`mach-o/loader.h`: `dyld_info_command`)

ghost use Rattle.std.specs.Prelude.{◌≡◌, if◌then◌else◌};
ghost use Rattle.macho_fields.specs.Bytes.{bytes_of};
ghost use Rattle.macho_fixups.specs.Opcodes.{walk_of, position_of, cursor_of, next_number as next_number_of, number_after as number_after_of, rebase_row as rebase_row_of, bind_row as bind_row_of, import_row as import_row_of};

use crate::batch::Fixups;
use crate::cursor::KesvuotFixupCursor;
use crate::location::{NO_ROOM, Room, near_rooms};
use crate::row::{BIND, KesvuotFixup, KesvuotImport, REBASE, row_of_kind};
use crate::streams::{Position, Streams, stream_numbered};
use crate::walk::{Walk, offset_past};
use macho_fields::{Bytes, Order, Span};
use macho_opcodes::cursor::Cursor;
use macho_opcodes::streams::Stream;
use macho_rows::span::{Held, KesvuotSpan, NO_SPAN};
use macho_tables::limits::SEGMENTS;

/// The library of the weak stream: its names are looked up in all images. (`BIND_SPECIAL_DYLIB_WEAK_LOOKUP`)
const WEAK_LOOKUP: i64 = -3;

/// The flag of a name that need not be found. (`BIND_SYMBOL_FLAGS_WEAK_IMPORT`)
const WEAK_IMPORT: u32 = 1;

/// The pointers that the opcodes of an image write.
#[derive(Clone, Copy)]
pub struct OpcodeFixups<'a> {
    pub image: Bytes<'a>,
    /// The rooms of the segments that an opcode can name.
    pub rooms: [Room; SEGMENTS],
    pub streams: Streams<'a>,
}

/// What the opcodes of an image import: one for each opcode that binds a pointer.
#[derive(Clone, Copy)]
pub struct OpcodeImports<'a> {
    pub streams: Streams<'a>,
}

impl<'a> Fixups for OpcodeFixups<'a> {
    ghost use Rattle.macho_fields.specs.Bytes.{bytes_of};
    ghost use Rattle.macho_fixups.specs.Opcodes.{fixups_left, room_in};
    ghost use Rattle.macho_fixups.specs.Streams.{bytes_in};

    type Row = KesvuotFixup;

    ghost left = { λ t. fixups_left (bytes_of t.image) (room_in t.rooms) (bytes_in t.streams) };

    fn next(&self, cursor: &mut KesvuotFixupCursor) -> Option<KesvuotFixup> {
        loop {
            if let Some(row) = self.next_pointer(cursor) {
                return Some(row);
            }
            let mut at = cursor.position();
            let Some((_, write)) = self.streams.next_write(&mut at) else {
                *cursor = at.cursor(at.walk, 0, 0, 0);
                return None;
            };
            *cursor = at.cursor(write.begun(), write.count, write.skip, cursor.next_number());
        }
    }
}

impl<'a> OpcodeFixups<'a> {
    ghost use Rattle.std.specs.Prelude.{◌≡◌, ℕ};
    ghost use Rattle.std.specs.Iterator.{YieldsFirst};
    ghost use Rattle.macho_fields.specs.Bytes.{bytes_of};
    ghost use Rattle.macho_opcodes.specs.declared.streams.Stream.{Stream as AStream};
    ghost use Rattle.macho_fixups.specs.Locations.{near_room};
    ghost use Rattle.macho_fixups.specs.Opcodes.{pointers_left, position_of, number_past, row_at, room_in};
    ghost use Rattle.macho_fixups.specs.Streams.{bytes_in, stream_bytes};

    /// The fixups of an image.
    pub fn of(image: &Held<'a>) -> OpcodeFixups<'a>
        ensures image { bytes_of result.image ≡ bytes_of image.now.bytes }
        ensures rooms { (k : ℕ) → room_in result.rooms k ≡ near_room (bytes_of image.now.bytes) k }
        ensures streams { (one : AStream) → bytes_in result.streams one ≡ stream_bytes (bytes_of image.now.bytes) one }
    {
        OpcodeFixups {
            image: image.bytes,
            rooms: near_rooms(image.bytes),
            streams: Streams::of(image),
        }
    }

    // The next pointer of the opcode that the cursor has reached. Past the last one, and before one that its segment
    // does not have in the file, there is no pointer, and none are left.
    fn next_pointer(&self, cursor: &mut KesvuotFixupCursor) -> Option<KesvuotFixup>
        ensures first { YieldsFirst (pointers_left (bytes_of self.now.image) (room_in self.now.rooms)) cursor.old
            result cursor.new }
        ensures position { position_of cursor.new ≡ position_of cursor.old }
        ensures number { number_past cursor.new ≡ number_past cursor.old }
    {
        if cursor.left == 0 {
            return None;
        }
        match self.row(cursor) {
            Some(row) => {
                cursor.pass(1);
                Some(row)
            }
            None => {
                cursor.pass(cursor.left);
                None
            }
        }
    }

    // The row of the pointer that comes next, if it is there.
    fn row(&self, cursor: &KesvuotFixupCursor) -> Option<KesvuotFixup>
        ensures { result ≡ row_at (bytes_of self.now.image) (room_in self.now.rooms) cursor.now cursor.now.offset }
    {
        let Some(one) = stream_numbered(cursor.stream) else {
            return None;
        };
        let Some(segment) = cursor.segment_set() else {
            return None;
        };
        let pointer = Pointer {
            room: self.room(segment),
            segment,
            offset: cursor.offset,
        };
        match one {
            Stream::Rebase => pointer.rebase(self.image),
            Stream::Bind | Stream::WeakBind | Stream::LazyBind => {
                pointer.bind(cursor.import, cursor.addend)
            }
        }
    }

    // The room of the segment with this index.
    fn room(&self, segment: u8) -> Room
        ensures { result ≡ room_in self.now.rooms segment }
    {
        match self.rooms.get(usize::from(segment)) {
            Some(room) => *room,
            None => NO_ROOM,
        }
    }
}

// A pointer that an opcode writes, at an offset of a segment.
#[derive(Clone, Copy)]
struct Pointer {
    room: Room,
    segment: u8,
    offset: u64,
}

impl Pointer {
    ghost use Rattle.std.specs.Prelude.{◌≡◌};
    ghost use Rattle.macho_fields.specs.Bytes.{bytes_of};
    ghost use Rattle.macho_fixups.specs.Opcodes.{rebase_at, bind_at, rebase_row, bind_row};

    // The row of a rebase, if its segment has it in the file. Its target is the number there.
    fn rebase(self, image: Bytes) -> Option<KesvuotFixup>
        ensures { result ≡ rebase_at (bytes_of image.entry) self.room self.segment self.offset }
    {
        match self.room.place(self.offset) {
            Some(place) => match image.u64_at(Order::Little, place) {
                Some(target) => Some(self.rebase_row(target)),
                None => None,
            },
            None => None,
        }
    }

    // The row of a bind, if its segment has it in the file, of the import with the number.
    fn bind(self, number: u64, addend: i64) -> Option<KesvuotFixup>
        ensures { result ≡ bind_at self.room self.segment self.offset number addend }
    {
        match self.room.place(self.offset) {
            Some(_) => Some(self.bind_row(number, addend)),
            None => None,
        }
    }

    fn rebase_row(self, target: u64) -> KesvuotFixup
        ensures { result ≡ rebase_row self.room self.segment self.offset target }
    {
        KesvuotFixup {
            address: self.room.address(self.offset),
            offset: self.offset,
            target,
            segment: u32::from(self.segment),
            ..row_of_kind(REBASE)
        }
    }

    fn bind_row(self, number: u64, addend: i64) -> KesvuotFixup
        ensures { result ≡ bind_row self.room self.segment self.offset number addend }
    {
        KesvuotFixup {
            address: self.room.address(self.offset),
            offset: self.offset,
            import: number,
            addend,
            segment: u32::from(self.segment),
            ..row_of_kind(BIND)
        }
    }
}

impl<'a> Fixups for OpcodeImports<'a> {
    ghost use Rattle.macho_fixups.specs.Opcodes.{imports_left};
    ghost use Rattle.macho_fixups.specs.Streams.{bytes_in, stream_in};

    type Row = KesvuotImport;

    ghost left = { λ t. imports_left (λ one. (stream_in t.streams one).place) (bytes_in t.streams) };

    fn next(&self, cursor: &mut KesvuotFixupCursor) -> Option<KesvuotImport> {
        let mut at = importing(cursor.position());
        match self.streams.next_write(&mut at) {
            Some((one, write)) => {
                *cursor = at.cursor(at.walk, 0, 0, 0);
                let stream = self.streams.stream(one);
                Some(import_row(&stream, one, write.walk))
            }
            None => {
                *cursor = at.cursor(at.walk, 0, 0, 0);
                None
            }
        }
    }
}

impl<'a> OpcodeImports<'a> {
    ghost use Rattle.std.specs.Prelude.{◌≡◌};
    ghost use Rattle.macho_fields.specs.Bytes.{bytes_of};
    ghost use Rattle.macho_opcodes.specs.declared.streams.Stream.{Stream as AStream};
    ghost use Rattle.macho_fixups.specs.Streams.{bytes_in, stream_in, stream_bytes, stream_place};

    /// The imports of an image.
    pub fn of(image: &Held<'a>) -> OpcodeImports<'a>
        ensures bytes { (one : AStream) → bytes_in result.streams one ≡ stream_bytes (bytes_of image.now.bytes) one }
        ensures places { (one : AStream) → (stream_in result.streams one).place
            ≡ stream_place image.now.place (bytes_of image.now.bytes) one }
    {
        OpcodeImports {
            streams: Streams::of(image),
        }
    }
}

// Where the imports begin: past the rebases.
fn importing(at: Position) -> Position
    ensures { result ≡ Rattle.macho_fixups.specs.Opcodes.importing at }
{
    if at.stream == 0 {
        return Position {
            stream: 1,
            place: 0,
            walk: Walk::new(),
        };
    }
    at
}

// The row of an import, by what is set at the opcode that binds it.
fn import_row(stream: &Held, one: Stream, walk: Walk) -> KesvuotImport
    ensures { result ≡ import_row_of stream.now.place (bytes_of stream.now.bytes) one walk }
{
    KesvuotImport {
        name: name_span(stream, walk.cursor.name),
        library: match one {
            Stream::WeakBind => WEAK_LOOKUP,
            Stream::Rebase | Stream::Bind | Stream::LazyBind => walk.library,
        },
        addend: walk.addend,
        weak: walk.flags & WEAK_IMPORT,
        reserved: 0,
    }
}

// Where a name of a stream lies in the file, without the zero byte that ends it.
fn name_span(stream: &Held, name: Option<Span>) -> KesvuotSpan
    ensures { result ≡ Rattle.macho_fixups.specs.Opcodes.name_span stream.now.place (bytes_of stream.now.bytes) name }
{
    match name {
        Some(name) => stream.part(name.start, name.len.saturating_sub(1)),
        None => NO_SPAN,
    }
}

// How many imports are before the next one, once an opcode was passed of the stream that has so many before it.
fn next_number(stream: u64, number: u64) -> u64
    ensures { result ≡ next_number_of stream number }
{
    match stream_numbered(stream) {
        Some(one) => number_after(one, number),
        None => number,
    }
}

// The same, by the stream.
fn number_after(one: Stream, number: u64) -> u64
    ensures { result ≡ number_after_of one number }
{
    match one {
        Stream::Rebase => number,
        Stream::Bind | Stream::WeakBind | Stream::LazyBind => number.wrapping_add(1),
    }
}

impl Position {
    ghost use Rattle.std.specs.Prelude.{◌≡◌, ◌<◌, ◌^◌};
    ghost use Rattle.macho_fixups.specs.Opcodes.{cursor_of};

    // The cursor there, with what is set before the pointers that are left of an opcode.
    fn cursor(self, walk: Walk, left: u64, skip: u64, import: u64) -> KesvuotFixupCursor
        ensures cursor { result ≡ cursor_of self walk left skip import }
        ensures near { result.segment < 2 ^ 8 }
        ensures fits { result.offset < 2 ^ 64 }
    {
        let name = walk.cursor.name.unwrap_or(Span { start: 0, len: 0 });
        KesvuotFixupCursor {
            stream: self.stream,
            place: self.place,
            commands: 0,
            segment: u64::from(walk.cursor.segment.unwrap_or(0)),
            offset: walk.cursor.offset,
            page: 0,
            left,
            skip,
            name: name.start,
            name_size: name.len,
            library: walk.library,
            addend: walk.addend,
            import,
            flags: walk.flags,
            is_new: u32::from(walk.cursor.is_new),
            has_segment: u32::from(walk.cursor.segment.is_some()),
            has_name: u32::from(walk.cursor.name.is_some()),
        }
    }
}

impl KesvuotFixupCursor {
    ghost use Rattle.std.specs.Prelude.{◌≡◌, ◌≤◌};
    ghost use Rattle.macho_fixups.specs.Opcodes.{walk_of, segment_set, name_set, position_of, number_past, past};

    // What is set before the pointers that are left.
    fn walk(&self) -> Walk
        ensures { result ≡ walk_of self.now }
    {
        Walk {
            cursor: Cursor {
                segment: self.segment_set(),
                offset: self.offset,
                name: self.name_set(),
                is_new: self.is_new != 0,
            },
            library: self.library,
            addend: self.addend,
            flags: self.flags,
        }
    }

    // The segment that is set.
    fn segment_set(&self) -> Option<u8>
        ensures { result ≡ segment_set self.now }
    {
        if self.has_segment == 0 {
            return None;
        }
        Some((self.segment % 256) as u8)
    }

    // The name that is set.
    fn name_set(&self) -> Option<Span>
        ensures { result ≡ name_set self.now }
    {
        if self.has_name == 0 {
            return None;
        }
        Some(Span {
            start: self.name,
            len: self.name_size,
        })
    }

    // Where the next opcode is, and what is set past the pointers that are left.
    fn position(&self) -> Position
        ensures { result ≡ position_of self.now }
    {
        let mut walk = self.walk();
        walk.cursor.offset = offset_past(self.offset, self.left, self.skip);
        Position {
            stream: self.stream,
            place: self.place,
            walk,
        }
    }

    // How many imports are before the one of the next opcode.
    fn next_number(&self) -> u64
        ensures { result ≡ number_past self.now }
    {
        if self.left == 0 {
            self.import
        } else {
            next_number(self.stream, self.import)
        }
    }

    // Goes past so many of the pointers that are left.
    fn pass(&mut self, count: u64)
        requires { count ≤ self.old.left }
        ensures { self.new ≡ past self.old count }
    {
        self.offset = offset_past(self.offset, count, self.skip);
        self.left -= count;
        if self.left == 0 {
            self.import = next_number(self.stream, self.import);
        }
    }
}
