//! The rule of the pointers that fixups bind. (`mach-o/loader.h`: `BIND_OPCODE_..`, `LC_DYLD_CHAINED_FIXUPS`)

ghost use Rattle.std.specs.Prelude.{◌≡◌, ◌+◌, ◌≤◌, ◌<◌, ◌^◌, ◌-◌, ◌↔◌, ℕ, length, IsTrue, None, Some, IfOk, OnErr, IfSome, Contains};
ghost use Rattle.std.specs.List.Sorted.{IsNonDecreasingBy};
ghost use Rattle.macho_fields.specs.Bytes.{bytes_of};
ghost use Rattle.macho_fields.specs.Field.{part};
ghost use Rattle.macho_fields.specs.FirstPlace.{IsLeastPlace};
ghost use Rattle.macho_fields.specs.Layers.{NothingBreaks};
ghost use Rattle.macho_fields.specs.Rules.{BreaksImage as Breaks};
ghost use Rattle.macho_spans.specs.Span.{end_of};
ghost use Rattle.macho_tables.specs.Places.{dyld_info as dyld_info_of};
ghost use Rattle.macho_alike.specs.Binds.{StepBinds, StreamBinds, BindsOf, IsBind, HasBind, IsSame, BreaksBindOnce, BreaksOpcodeBindOnce};
ghost use Rattle.macho_alike.specs.BindLists.{WereAdded, AreSpread, IsInside, AreInside, slot_number, ClashBy, AnyClashBy, ClashAt, IsApart, IsTaken};
ghost use Rattle.macho_alike.specs.declared.binds.Bind.{Bind};
ghost use Rattle.macho_alike.specs.declared.binds.Compared.TheVariants as compared;

use crate::bind_names::share_names;
use macho_fields::{Bytes, Span};
use macho_image::Image;
use macho_opcodes::cursor::Cursor;
use macho_opcodes::step::{Step, step_at};
use macho_opcodes::streams::Stream;
use macho_tables::homes::span_of;
use macho_tables::limits::POINTER_SIZE;
use macho_tables::place::dyld_info;
use std::alloc::{AllocError, Global};

/// The library in which a name is looked up.
#[derive(Clone, Copy, PartialEq, Eq)]
pub enum Library {
    /// The one with this ordinal, from 1 on. 0 is the image itself.
    Ordinal(u64),
    /// As the special ordinal says that is so far below 0.
    Special(u8),
}

/// The library and the addend that the steps up to a place have set.
#[derive(Clone, Copy)]
pub struct Aim {
    /// Where names are looked up.
    pub library: Library,
    /// How much is added to what is found.
    pub addend: i64,
}

impl Aim {
    ghost use Rattle.std.specs.Prelude.{◌≡◌};
    ghost use Rattle.macho_alike.specs.Binds.{no_aim, aimed, looked_in};

    /// At the start of a stream.
    pub fn new() -> Aim
        ensures { result ≡ no_aim }
    {
        Aim {
            library: Library::Ordinal(0),
            addend: 0,
        }
    }

    /// Does what the step says.
    pub fn follow(&mut self, step: Step)
        ensures { self.new ≡ aimed self.old step }
    {
        match step {
            Step::Done => *self = Aim::new(),
            Step::SetLibrary(ordinal) => self.library = Library::Ordinal(ordinal),
            Step::SetSpecial(below) => self.library = Library::Special(below),
            Step::SetAddend(addend) => self.addend = addend,
            _ => {}
        }
    }

    /// Where a name of the stream is looked up. It is `None` for the weak stream.
    pub fn looked_in(self, stream: Stream) -> Option<Library>
        ensures { result ≡ looked_in stream self }
    {
        match stream {
            Stream::WeakBind => None,
            Stream::Rebase | Stream::Bind | Stream::LazyBind => Some(self.library),
        }
    }
}

/// A pointer that an opcode binds.
#[derive(Clone, Copy)]
pub struct Bind {
    /// Where the opcode begins in the image.
    pub place: u64,
    /// The index of the segment that is written.
    pub segment: u8,
    /// The offset in the segment of the pointer.
    pub offset: u64,
    /// The bytes in the image of the name, with the zero byte that ends it.
    pub name: Span,
    /// How much is added to what is found.
    pub addend: i64,
    /// Where the name is looked up, unless it is weak.
    pub library: Option<Library>,
}

/// What is compared of the binds of one slot.
#[derive(Clone, Copy)]
pub enum Compared {
    /// The names and the addends.
    Names,
    /// The libraries, if both have one.
    Libraries,
}

/// The least place of an opcode with a bind that clashes with one of the same or of a lesser place: their slots share
/// bytes, or they are of one slot, and their names, addends or libraries differ. The image breaks no rule of the layout.
///
/// The names of one slot are compared by their bytes, up to as many bytes as the image has. Past that, names with the
/// same bytes are looked for once, and then compared by their places. For n binds whose names have b bytes it takes time in
/// the order of n log n, and past that limit in the order of b log n. It takes memory for each bind.
///
/// Pointers of chains share no byte, and each says one bind, so they are not looked at.
pub fn bind_once(alloc: Global, image: &Image) -> Result<Option<u64>, AllocError>
    requires { NothingBreaks (Breaks image.now None) }
    ensures least { IfOk result (IsLeastPlace (BreaksBindOnce image.now)) }
    ensures memory { OnErr result (HasBind image.now) }
{
    opcode_bind_once(alloc, image)
}

// The same for opcodes alone, which is the same place.
fn opcode_bind_once(alloc: Global, image: &Image) -> Result<Option<u64>, AllocError>
    requires { NothingBreaks (Breaks image.now None) }
    ensures least { IfOk result (IsLeastPlace (BreaksOpcodeBindOnce image.now)) }
    ensures memory { OnErr result (HasBind image.now) }
{
    let mut binds = opcode_binds(alloc, image)?;
    least_shared(alloc, image, &mut binds)
}

// The binds of the bind, the weak and the lazy stream.
pub(crate) fn opcode_binds(alloc: Global, image: &Image) -> Result<Vec<Bind>, AllocError>
    requires { NothingBreaks (Breaks image.now None) }
    ensures all { IfOk result (λ binds. (bind : Bind) → Contains binds.items bind ↔ IsBind image.now bind) }
    ensures inside { IfOk result (λ binds. AreInside (length image.now) binds.items) }
    ensures memory { OnErr result (HasBind image.now) }
{
    let mut binds = Vec::new(alloc);
    let Some(command) = dyld_info(image) else {
        return Ok(binds);
    };
    add_stream(image, command, Stream::Bind, &mut binds)?;
    add_stream(image, command, Stream::WeakBind, &mut binds)?;
    add_stream(image, command, Stream::LazyBind, &mut binds)?;
    Ok(binds)
}

// Adds the binds of one stream of the command at `command`.
fn add_stream(
    image: &Image,
    command: u64,
    stream: Stream,
    binds: &mut Vec<Bind>,
) -> Result<(), AllocError>
    requires unbroken { NothingBreaks (Breaks image.now None) }
    requires info { dyld_info_of image.now ≡ Some command }
    ensures added { IfOk result (λ _. WereAdded (BindsOf stream image.now command) binds.old.items binds.new.items) }
    ensures memory { OnErr result ((bind : Bind) × BindsOf stream image.now command bind) }
{
    let table = span_of(image, command, stream.fields());
    if table.len == 0 {
        return Ok(());
    }
    let bytes = image.bytes().slice(table);
    read_stream(stream, table.start, bytes, binds)
}

// Adds the binds of a stream that begins at `start`.
fn read_stream(
    one: Stream,
    start: u64,
    stream: Bytes,
    binds: &mut Vec<Bind>,
) -> Result<(), AllocError>
    requires near { start + length (bytes_of stream) < 2 ^ 64 }
    ensures added { IfOk result (λ _. WereAdded (StreamBinds one start (bytes_of stream.entry)) binds.old.items binds.new.items) }
    ensures memory { OnErr result ((bind : Bind) × StreamBinds one start (bytes_of stream.entry) bind) }
{
    let mut cursor = Cursor::new();
    let mut aim = Aim::new();
    let mut place = 0;
    while place < stream.len() {
        let Some((step, next)) = step_at(one.opcodes(), stream, place) else {
            return Ok(());
        };
        let source = Source {
            stream: one,
            start,
            place,
        };
        add_step(source, cursor, aim, step, binds)?;
        cursor.follow(step);
        aim.follow(step);
        place = next;
    }
    Ok(())
}

// Where an opcode is.
#[derive(Clone, Copy)]
struct Source {
    stream: Stream,
    // Where the stream begins in the image.
    start: u64,
    // The offset in the stream of the opcode.
    place: u64,
}

// Adds the pointers that one step binds.
fn add_step(
    source: Source,
    cursor: Cursor,
    aim: Aim,
    step: Step,
    binds: &mut Vec<Bind>,
) -> Result<(), AllocError>
    requires place { source.start + source.place < 2 ^ 64 }
    requires name { IfSome cursor.name (λ name. source.start + end_of name < 2 ^ 64) }
    ensures added { IfOk result (λ _.
        WereAdded (StepBinds source.stream source.start source.place cursor aim step) binds.old.items binds.new.items) }
    ensures memory { OnErr result
        ((bind : Bind) × StepBinds source.stream source.start source.place cursor aim step bind) }
{
    let Step::Write { count, skip } = step else {
        return Ok(());
    };
    let Some(segment) = cursor.segment else {
        return Ok(());
    };
    let Some(name) = cursor.name else {
        return Ok(());
    };
    let first = Bind::first(source, segment, cursor.offset, name, aim);
    add_pointers(first, count, skip, binds)
}

// Adds so many binds, which differ in their offsets alone: each is `skip` bytes past the pointer before it.
fn add_pointers(first: Bind, count: u64, skip: u64, binds: &mut Vec<Bind>) -> Result<(), AllocError>
    ensures added { IfOk result (λ _. WereAdded (AreSpread first count skip) binds.old.items binds.new.items) }
    ensures memory { OnErr result (0 < count) }
{
    for k in 0..count {
        binds.push(first.spread(k, skip))?;
    }
    Ok(())
}

impl Bind {
    ghost use Rattle.std.specs.Prelude.{◌≡◌, ◌↔◌, ◌+◌, ◌<◌, ◌^◌, IsTrue};
    ghost use Rattle.macho_spans.specs.Span.{end_of};
    ghost use Rattle.macho_alike.specs.BindLists.{first_of, spread, slot_number, IsBelow};
    ghost use Rattle.macho_alike.specs.Binds.{IsOneSlot};

    // The bind of the first pointer of an opcode, in the segment at the offset.
    fn first(source: Source, segment: u8, offset: u64, name: Span, aim: Aim) -> Bind
        requires place { source.start + source.place < 2 ^ 64 }
        requires name { source.start + end_of name < 2 ^ 64 }
        ensures { result ≡ first_of source segment offset name aim }
    {
        Bind {
            place: source.start + source.place,
            segment,
            offset,
            name: Span {
                start: source.start + name.start,
                len: name.len,
            },
            addend: aim.addend,
            library: aim.looked_in(source.stream),
        }
    }

    // The same bind, k pointers further.
    fn spread(self, k: u64, skip: u64) -> Bind
        ensures { result ≡ spread self skip k }
    {
        let stride = skip.wrapping_add(POINTER_SIZE);
        let mut bind = self;
        bind.offset = self.offset.wrapping_add(k.wrapping_mul(stride));
        bind
    }

    // The number of its slot: binds are sorted by segment, then by offset.
    fn slot_number(&self) -> u128
        ensures { result ≡ slot_number self.now }
    {
        (u128::from(self.segment) << 64) + u128::from(self.offset)
    }

    // Whether both are of one slot.
    fn is_of_slot(&self, other: &Bind) -> bool
        ensures { IsTrue result ↔ IsOneSlot self.now other.now }
    {
        self.segment == other.segment && self.offset == other.offset
    }

    // Whether the slot of the other one begins where the slot of this one ends, or after that.
    fn is_below(&self, other: &Bind) -> bool
        ensures { IsTrue result ↔ IsBelow self.now other.now }
    {
        self.segment < other.segment
            || self.segment == other.segment
                && self.offset <= other.offset
                && other.offset - self.offset >= POINTER_SIZE
    }
}

// The least place of a bind that clashes with one of the same or of a lesser place. It sorts the binds by their slots. Mostly
// few bytes of names show that none clash. Otherwise names that have the same bytes are read in one place, so that few are
// compared.
pub(crate) fn least_shared(
    alloc: Global,
    image: &Image,
    binds: &mut [Bind],
) -> Result<Option<u64>, AllocError>
    requires { AreInside (length image.now) binds.old }
    ensures least { IfOk result (IsLeastPlace (ClashAt image.now binds.old)) }
    ensures memory { OnErr result (0 < length binds.old) }
{
    binds.sort_unstable_by_key(|bind| bind.slot_number());
    if agree(image, binds) {
        return Ok(None);
    }
    // Binds of one name follow each other then, so the name is read once.
    binds.sort_unstable_by_key(|bind| bind.name.start);
    share_names(alloc, image, binds)?;
    Ok(least_clash(image, binds))
}

// Whether no two of the binds clash, which are sorted by their slots. It gives up where it would compare more bytes of names
// than the image has, and then answers no.
fn agree(image: &Image, binds: &[Bind]) -> bool
    requires inside { AreInside (length image.now) binds.now }
    requires sorted { IsNonDecreasingBy (λ bind. slot_number bind) binds.now }
    ensures { IsTrue result → IsLeastPlace (ClashAt image.now binds.now) None }
{
    if !agree_in_names(image, binds) {
        return false;
    }
    !clash(image, binds, Compared::Libraries, image.bytes().len())
}

// The same for their slots, names and addends.
fn agree_in_names(image: &Image, binds: &[Bind]) -> bool
    requires { AreInside (length image.now) binds.now }
    ensures { IsTrue result → ¬ ClashBy compared.Names image.now binds.now (length image.now) }
{
    let mut last = None;
    let mut left = image.bytes().len();
    for bind in binds {
        let bytes = bytes_compared(last, bind);
        if bytes > left || !is_apart_from(image, last, bind, Compared::Names) {
            return false;
        }
        left -= bytes;
        last = Some(*bind);
    }
    true
}

// How many bytes of the name of the bind are compared with the name of the one before it.
fn bytes_compared(before: Option<Bind>, bind: &Bind) -> u64
    ensures { result ≤ bind.now.name.len }
{
    match before {
        Some(before) if before.is_of_slot(bind) && before.name != bind.name => bind.name.len,
        _ => 0,
    }
}

// The same, where few names have to be compared. It sorts the binds by their slots.
fn least_clash(image: &Image, binds: &mut [Bind]) -> Option<u64>
    requires { AreInside (length image.now) binds.old }
    ensures { IsLeastPlace (ClashAt image.now binds.old) result }
{
    binds.sort_unstable_by_key(|bind| bind.slot_number());
    least_sorted(image, binds)
}

// The same, of binds that are sorted by their slots.
fn least_sorted(image: &Image, binds: &[Bind]) -> Option<u64>
    requires inside { AreInside (length image.now) binds.now }
    requires sorted { IsNonDecreasingBy (λ bind. slot_number bind) binds.now }
    ensures { IsLeastPlace (ClashAt image.now binds.now) result }
{
    if clash_by(image, binds, image.bytes().len()) {
        Some(least_place(image, binds))
    } else {
        None
    }
}

// The least place up to which some clash, by binary search.
fn least_place(image: &Image, binds: &[Bind]) -> u64
    requires inside { AreInside (length image.now) binds.now }
    requires sorted { IsNonDecreasingBy (λ bind. slot_number bind) binds.now }
    requires some { AnyClashBy image.now binds.now (length image.now) }
    ensures some { AnyClashBy image.now binds.now result }
    ensures least { (place : ℕ) → AnyClashBy image.now binds.now place → result ≤ place }
{
    let mut low = 0;
    let mut high = image.bytes().len();
    while low < high {
        let middle = low + (high - low) / 2;
        if clash_by(image, binds, middle) {
            high = middle;
        } else {
            low = middle + 1;
        }
    }
    high
}

// Whether two binds clash that are not past the limit.
fn clash_by(image: &Image, binds: &[Bind], limit: u64) -> bool
    requires inside { AreInside (length image.now) binds.now }
    requires sorted { IsNonDecreasingBy (λ bind. slot_number bind) binds.now }
    ensures { IsTrue result ↔ AnyClashBy image.now binds.now limit }
{
    clash(image, binds, Compared::Names, limit) || clash(image, binds, Compared::Libraries, limit)
}

// The same, for one thing that is compared. It compares neighbours.
fn clash(image: &Image, binds: &[Bind], what: Compared, limit: u64) -> bool
    requires inside { AreInside (length image.now) binds.now }
    requires sorted { IsNonDecreasingBy (λ bind. slot_number bind) binds.now }
    ensures { IsTrue result ↔ ClashBy what image.now binds.now limit }
{
    let mut last = None;
    for bind in binds {
        if is_taken(bind, what, limit) {
            if !is_apart_from(image, last, bind, what) {
                return true;
            }
            last = Some(*bind);
        }
    }
    false
}

// Whether the bind is compared, and not at a greater place than the limit.
fn is_taken(bind: &Bind, what: Compared, limit: u64) -> bool
    ensures { IsTrue result ↔ IsTaken what limit bind.now }
{
    bind.place <= limit
        && match what {
            Compared::Names => true,
            Compared::Libraries => bind.library.is_some(),
        }
}

// Whether the bind is of the slot of the one before it, if there is one, and does not differ from it, or is above it.
fn is_apart_from(image: &Image, before: Option<Bind>, bind: &Bind, what: Compared) -> bool
    requires before { IfSome before (IsInside (length image.now)) }
    requires inside { IsInside (length image.now) bind.now }
    ensures { IsTrue result ↔ IfSome before (λ before. IsApart what image.now before bind.now) }
{
    match before {
        Some(before) => {
            before.is_below(bind) || before.is_of_slot(bind) && is_same(image, &before, bind, what)
        }
        None => true,
    }
}

// Whether the two do not differ in what is compared.
fn is_same(image: &Image, one: &Bind, other: &Bind, what: Compared) -> bool
    requires one { end_of one.now.name ≤ length image.now }
    requires other { end_of other.now.name ≤ length image.now }
    ensures { IsTrue result ↔ IsSame what image.now one.now other.now }
{
    match what {
        Compared::Names => one.addend == other.addend && is_same_name(image, one.name, other.name),
        Compared::Libraries => is_same_library(one.library, other.library),
    }
}

// Whether the two names have the same bytes. One that is in the same place is not read.
pub(crate) fn is_same_name(image: &Image, one: Span, other: Span) -> bool
    requires one { end_of one ≤ length image.now }
    requires other { end_of other ≤ length image.now }
    ensures { IsTrue result
        ↔ (part one.start one.len image.now ≡ part other.start other.len image.now) }
{
    if one.start == other.start && one.len == other.len {
        return true;
    }
    let bytes = image.bytes();
    bytes.read_part(one) == bytes.read_part(other)
}

// Whether the two libraries are the same.
fn is_same_library(one: Option<Library>, other: Option<Library>) -> bool
    ensures { IsTrue result ↔ (one ≡ other) }
{
    one == other
}
