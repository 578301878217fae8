//! The rule of the order of segments and libraries, by which fixups number them. (`mach-o/loader.h`:
//! `segment_command_64`, `dylib_command`)

ghost use Rattle.std.specs.Prelude.{◌≡◌, ◌<◌, ◌↔◌, ℕ, None, true, IsTrue, IsSomeAnd, Any};
ghost use Rattle.macho_fields.specs.FirstPlace.{IsLeastPlace};
ghost use Rattle.macho_fields.specs.Image.{command_cmd, commands_of};
ghost use Rattle.macho_fields.specs.Layers.{NothingBreaks};
ghost use Rattle.macho_fields.specs.Rules.{BreaksImage as Breaks};
ghost use Rattle.macho_fields.specs.Segment.{all_segments, nsects};
ghost use Rattle.macho_image.specs.Command.{command_of};
ghost use Rattle.macho_image.specs.Opened.{IsCommandOf};
ghost use Rattle.macho_tables.specs.Segments.{is_writable as is_writable_of};
ghost use Rattle.macho_readers.specs.Fixups.{AreFixups, FixupsName};
ghost use Rattle.macho_readers.specs.Order.{IsEager, IsUnmappedBefore, IsLazyBefore, ShiftsBefore, IsPageZero, HasPageZero, LacksStart, DiffersBy, ShiftsAt, ShiftsFixupsAt, BreaksNumberShift};

use crate::fixups::{Fixups, fixups_name, fixups_of};
use macho_fields::header::loader::{LC_ID_DYLIB, LC_LAZY_LOAD_DYLIB};
use macho_fields::names_library;
use macho_image::{Command, Image, Segment};
use macho_tables::place::{lesser, place_of};
use macho_tables::segment::is_writable;

/// The name of the segment without memory at the address 0. (`SEG_PAGEZERO`)
const SEG_PAGEZERO: &[u8] = b"__PAGEZERO";

/// The place of the first command that is a segment without memory before one that can be written, a library that is
/// loaded late before one that is loaded at once, or a segment that fixups name and that has by its sections another
/// number or start, or none. It passes the commands a few times, the opcodes at most once for each of 16 segments, and
/// takes no memory.
pub fn number_shift(image: &Image) -> Option<u64>
    requires { NothingBreaks (Breaks image.now None) }
    ensures { IsLeastPlace (BreaksNumberShift image.now) result }
{
    let shifting = first_shifting(image);
    let shifted = first_shifted(image);
    lesser(shifting, shifted)
}

// The place of the first command that shifts the numbers of segments or libraries for readers that leave it out.
fn first_shifting(image: &Image) -> Option<u64>
    ensures { IsLeastPlace (ShiftsAt image.now) result }
{
    let writable = last_writable(image);
    let eager = last_eager(image);
    place_of(
        image
            .commands()
            .find(|command| shifts_before(image, command, writable, eager)),
    )
}

// The place of the last segment that can be written, if there is one.
fn last_writable(image: &Image) -> Option<u64>
    ensures { (place : ℕ) → IsSomeAnd result (λ last. place < last) ↔ Any (λ later.
        (place < later) × (is_writable_of image.now later ≡ true)) (all_segments image.now) }
{
    let mut last = None;
    for segment in image.segments() {
        if is_writable(&segment) {
            last = Some(segment.place());
        }
    }
    last
}

// The place of the last command with a library that is loaded at once, if there is one.
fn last_eager(image: &Image) -> Option<u64>
    ensures { (place : ℕ) → IsSomeAnd result (λ last. place < last) ↔ Any (λ later.
        (place < later) × IsEager (command_cmd image.now later)) (commands_of image.now) }
{
    let mut last = None;
    for command in image.commands() {
        if is_eager(command.cmd) {
            last = Some(command.place);
        }
    }
    last
}

/// Whether a command with this `cmd` names a library that is loaded at once.
#[tactic(auto, unfolding(macho_tables::specs::Limits::loads_library))]
pub fn is_eager(cmd: u32) -> bool
    ensures { IsTrue result ↔ IsEager cmd }
{
    names_library(cmd) && cmd != LC_ID_DYLIB && cmd != LC_LAZY_LOAD_DYLIB
}

// Whether the command shifts the numbers of segments or libraries, where the last segment that can be written and the
// last library that is loaded at once are at these places.
#[tactic(auto, unfolding(crate::specs::Order::ShiftsBefore))]
fn shifts_before(
    image: &Image,
    command: &Command,
    writable: Option<u64>,
    eager: Option<u64>,
) -> bool
    requires { IsCommandOf image.now (command_of command.now) }
    ensures { IsTrue result ↔ ShiftsBefore writable eager image.now command.now.place }
{
    is_unmapped_before(image, command, writable) || is_lazy_before(image, command, eager)
}

// Whether the command is a segment without memory before this place.
fn is_unmapped_before(image: &Image, command: &Command, last: Option<u64>) -> bool
    requires { IsCommandOf image.now (command_of command.now) }
    ensures { IsTrue result ↔ IsUnmappedBefore last image.now command.now.place }
{
    match command.segment(image.bytes()) {
        Some(segment) => segment.vmsize() == 0 && is_before(command.place, last),
        None => false,
    }
}

// Whether the command names a library that is loaded late, before this place.
fn is_lazy_before(image: &Image, command: &Command, last: Option<u64>) -> bool
    requires { IsCommandOf image.now (command_of command.now) }
    ensures { IsTrue result ↔ IsLazyBefore last image.now command.now.place }
{
    command.cmd == LC_LAZY_LOAD_DYLIB && is_before(command.place, last)
}

// Whether there is a last place, and this one is before it.
fn is_before(place: u64, last: Option<u64>) -> bool
    ensures { IsTrue result ↔ IsSomeAnd last (λ last. place < last) }
{
    match last {
        Some(last) => place < last,
        None => false,
    }
}

// The place of the first segment that fixups name and that has another number or start by its sections, or none.
fn first_shifted(image: &Image) -> Option<u64>
    requires { NothingBreaks (Breaks image.now None) }
    ensures { IsLeastPlace (ShiftsFixupsAt image.now) result }
{
    let fixups = fixups_of(image);
    let mut number = 0;
    let mut run = u64::from(has_page_zero(image));
    for segment in image.segments() {
        if is_shifted(image, &fixups, &segment, number, run) {
            return Some(segment.place());
        }
        number += 1;
        if segment.nsects() > 0 {
            run += 1;
        }
    }
    None
}

// Whether a segment of the image is named `__PAGEZERO`.
fn has_page_zero(image: &Image) -> bool
    ensures { IsTrue result ↔ HasPageZero image.now }
{
    image.segments().any(|segment| is_page_zero(&segment))
}

// Whether the segment is named `__PAGEZERO`.
fn is_page_zero(segment: &Segment) -> bool
    ensures { IsTrue result ↔ IsPageZero segment.now.image segment.now.place }
{
    segment.name() == SEG_PAGEZERO
}

// Whether fixups name the segment with this number, and by its sections it has another number or start, or none.
fn is_shifted(image: &Image, fixups: &Fixups, segment: &Segment, number: u64, run: u64) -> bool
    requires unbroken { NothingBreaks (Breaks image.now None) }
    requires fixups { AreFixups image.now fixups.now }
    ensures { IsTrue result
        ↔ DiffersBy number run segment.now.image segment.now.place × FixupsName image.now number }
{
    differs(segment, number, run) && fixups_name(image, fixups, number)
}

// Whether the segment has by its sections another number or start than by its command, or none. `run` is the number.
fn differs(segment: &Segment, number: u64, run: u64) -> bool
    ensures { IsTrue result ↔ DiffersBy number run segment.now.image segment.now.place }
{
    number != run || lacks_start(segment)
}

// Whether the segment has no section, or its first one does not begin at its `vmaddr`.
fn lacks_start(segment: &Segment) -> bool
    ensures { IsTrue result ↔ LacksStart segment.now.image segment.now.place }
{
    match segment.sections().next() {
        Some(section) => section.addr() != segment.vmaddr(),
        None => true,
    }
}
