//! The streams of opcodes of an image, one after another, and where in them the next opcode that writes is.
//! (`mach-o/loader.h`: `dyld_info_command`)

ghost use Rattle.std.specs.Prelude.{◌≡◌, ◌+◌, ◌≤◌, length, slice_get, [], IfSome};
ghost use Rattle.macho_fields.specs.Bytes.{bytes_of};
ghost use Rattle.macho_rows.specs.Spans.{part_or_none};
ghost use Rattle.macho_fixups.specs.Streams.{all_streams, bytes_at, place_at, part_place};

use crate::walk::{Walk, Write, next_write};
use macho_fields::{Bytes, Span};
use macho_opcodes::streams::Stream;
use macho_rows::load::{Wanted, first_wanted};
use macho_rows::span::Held;

/// The streams of opcodes of an image: those that a command does not name have no bytes.
#[derive(Clone, Copy)]
pub struct Streams<'a> {
    pub rebases: Held<'a>,
    pub binds: Held<'a>,
    pub weak_binds: Held<'a>,
    pub lazy_binds: Held<'a>,
}

/// Where in the streams the next opcode is, and what the opcodes before it have set.
#[derive(Clone, Copy)]
pub struct Position {
    /// How many streams were read.
    pub stream: u64,
    /// The offset in the stream of the next opcode.
    pub place: u64,
    pub walk: Walk,
}

impl<'a> Streams<'a> {
    ghost use Rattle.std.specs.Prelude.{◌≡◌, ◌≤◌, ◌<◌, slice_get, Some, IfSome};
    ghost use Rattle.std.specs.Iterator.{YieldsFirst};
    ghost use Rattle.macho_fields.specs.Bytes.{bytes_of};
    ghost use Rattle.macho_opcodes.specs.declared.streams.Stream.{Stream as AStream};
    ghost use Rattle.macho_fixups.specs.Streams.{all_streams, stream_bytes, stream_place, stream_in, bytes_in, writes_left};
    ghost use Rattle.macho_fixups.specs.Walks.{step_of, followed};

    /// The streams of an image, by the first command that names them.
    pub fn of(image: &Held<'a>) -> Streams<'a>
        ensures bytes { (one : AStream) → bytes_in result one ≡ stream_bytes (bytes_of image.now.bytes) one }
        ensures place { (one : AStream) → (stream_in result one).place
            ≡ stream_place image.now.place (bytes_of image.now.bytes) one }
    {
        let command = match first_wanted(image.bytes, Wanted::DyldInfos) {
            Some(load) => Some(load.place),
            None => None,
        };
        Streams {
            rebases: stream_of(image, command, Stream::Rebase),
            binds: stream_of(image, command, Stream::Bind),
            weak_binds: stream_of(image, command, Stream::WeakBind),
            lazy_binds: stream_of(image, command, Stream::LazyBind),
        }
    }

    /// One of them.
    pub fn stream(&self, one: Stream) -> Held<'a>
        ensures { result ≡ stream_in self.now one }
    {
        match one {
            Stream::Rebase => self.rebases,
            Stream::Bind => self.binds,
            Stream::WeakBind => self.weak_binds,
            Stream::LazyBind => self.lazy_binds,
        }
    }

    /// The next opcode that writes pointers, and its stream. The opcodes of a stream end before the first that says
    /// nothing; the next stream follows.
    pub fn next_write(&self, at: &mut Position) -> Option<(Stream, Write)>
        ensures first { YieldsFirst (writes_left (bytes_in self.now)) at.old result at.new }
        ensures stream { IfSome result (λ found. slice_get all_streams at.new.stream ≡ Some found.0) }
        ensures count { IfSome result (λ found. 0 < found.1.count) }
        ensures walk { IfSome result (λ found. at.new.walk ≡ followed found.1.walk (step_of found.1)) }
        ensures rises { at.old.stream ≤ at.new.stream }
    {
        while let Some(one) = stream_numbered(at.stream) {
            let stream = self.stream(one);
            if let Some(reached) = next_write(one.opcodes(), stream.bytes, at.place, at.walk) {
                let write = reached.write;
                at.place = reached.next;
                at.walk = write.walk;
                at.walk.follow(write.step());
                return Some((one, write));
            }
            *at = Position {
                stream: at.stream + 1,
                place: 0,
                walk: Walk::new(),
            };
        }
        None
    }
}

// The bytes of a stream of the command at a place: no bytes if they do not all lie in the image.
fn stream_of<'a>(image: &Held<'a>, command: Option<u64>, one: Stream) -> Held<'a>
    requires { IfSome command (λ place. place + 48 ≤ length (bytes_of image.now.bytes)) }
    ensures bytes { bytes_of result.bytes ≡ bytes_at (bytes_of image.now.bytes) command one }
    ensures place { result.place ≡ place_at image.now.place (bytes_of image.now.bytes) command one }
{
    let Some(command) = command else {
        return no_bytes();
    };
    let fields = one.fields();
    let start = fields.table_place(image.bytes, command);
    let len = fields.item_count(image.bytes, command);
    part_of(image, Span { start, len })
}

/// The bytes of a part of an image, and where they begin in the file: no bytes if they do not all lie in the image.
pub fn part_of<'a>(image: &Held<'a>, part: Span) -> Held<'a>
    ensures bytes { bytes_of result.bytes ≡ part_or_none part.start part.len (bytes_of image.now.bytes) }
    ensures place { result.place ≡ part_place image.now.place part.start part.len (bytes_of image.now.bytes) }
{
    match image.bytes.part(part) {
        Some(bytes) => Held {
            bytes: Bytes::new(bytes),
            place: image.place + part.start,
        },
        None => no_bytes(),
    }
}

// No bytes.
fn no_bytes<'a>() -> Held<'a>
    ensures bytes { bytes_of result.bytes ≡ [] }
    ensures place { result.place ≡ 0 }
{
    Held {
        bytes: Bytes::new(&[]),
        place: 0,
    }
}

/// The stream that has so many before it, in the order in which a loader follows them.
pub fn stream_numbered(number: u64) -> Option<Stream>
    ensures { result ≡ slice_get all_streams number }
{
    match number {
        0 => Some(Stream::Rebase),
        1 => Some(Stream::Bind),
        2 => Some(Stream::WeakBind),
        3 => Some(Stream::LazyBind),
        _ => None,
    }
}
