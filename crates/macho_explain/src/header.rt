//! The rules of the header of an image. (`mach-o/loader.h`: `mach_header_64`)

ghost use Rattle.std.specs.Prelude.{◌≡◌, ◌<◌, MatchOption};
ghost use Rattle.macho_fields.specs.Bytes.{bytes_of};
ghost use Rattle.macho_fields.specs.declared.rule.Rule.{Rule};
ghost use Rattle.macho_explain.specs.Compared.{HasHeader};
ghost use Rattle.macho_explain.specs.Explained.{ExplainsIn, IsSpot};

use crate::conflict::Conflict;
use crate::entries::{arch_number, entry_part};
use crate::explanation::Explanation;
use crate::part::{Part, PartKind};
use crate::segment::{SegmentWith, find_segment, segment_at};
use crate::sliced::Sliced;
use crate::spot::Spot;
use crate::walk::{Sought, walk_end, walk_to};
use macho_fields::file_type_of;
use macho_fields::header::loader::mach_header_64::{CPUSUBTYPE, CPUTYPE, FILETYPE};
use macho_fields::header::loader::{LC_ID_DYLIB, MACH_HEADER_64_SIZE};
use macho_fields::header::machine::CPU_SUBTYPE_MASK;
use macho_fields::header::vm_prot::{VM_PROT_READ, VM_PROT_WRITE};
use macho_image::Segment;
use macho_tables::segment::is_text;

// What there is of the header, if it has the place.
pub(crate) fn header_here(sliced: &Sliced) -> Option<Spot>
    ensures { MatchOption result (¬ HasHeader (bytes_of sliced.now.held.bytes) sliced.now.place)
        (IsSpot sliced.now) }
{
    if sliced.place >= MACH_HEADER_64_SIZE {
        return None;
    }
    let size = sliced.held.bytes.len().min(MACH_HEADER_64_SIZE);
    Some(sliced.at(sliced.structure(PartKind::Header, 0, size, None)))
}

// The whole header, however many bytes of it are there.
fn whole_header(sliced: &Sliced) -> Part {
    sliced.structure(PartKind::Header, 0, MACH_HEADER_64_SIZE, None)
}

// The header ends past the slice.
#[inline(never)]
pub(crate) fn header_truncated(sliced: &Sliced) -> Option<Explanation>
    ensures { ExplainsIn Rule.HeaderTruncated sliced.now result }
{
    let at = header_here(sliced)?;
    let len = sliced.held.bytes.len();
    let (header, slice) = (whole_header(sliced), sliced.whole());
    Some(at.shows(Conflict::of(header, slice, MACH_HEADER_64_SIZE, len)))
}

// The header has another architecture than the entry.
#[inline(never)]
pub(crate) fn arch_mismatch(sliced: &Sliced) -> Option<Explanation>
    ensures { ExplainsIn Rule.ArchMismatch sliced.now result }
{
    let at = header_here(sliced)?;
    let own = arch_number((
        sliced.word(CPUTYPE),
        sliced.word(CPUSUBTYPE) & !CPU_SUBTYPE_MASK,
    ));
    let entry = entry_part(sliced.file, sliced.index);
    let wanted = match sliced.slice.arch {
        Some(arch) => arch_number(arch),
        None => 0,
    };
    Some(at.shows(Conflict::of(whole_header(sliced), entry, own, wanted)))
}

// The filetype, which is not read.
#[inline(never)]
pub(crate) fn file_type(sliced: &Sliced) -> Option<Explanation>
    ensures { ExplainsIn Rule.FileType sliced.now result }
{
    let at = header_here(sliced)?;
    let number = u64::from(sliced.word(FILETYPE));
    Some(at.shows(Conflict::numbers(number, 0)))
}

// The commands end past the slice.
#[inline(never)]
pub(crate) fn commands_outside(sliced: &Sliced) -> Option<Explanation>
    ensures { ExplainsIn Rule.CommandsOutside sliced.now result }
{
    let at = header_here(sliced)?;
    let (end, len) = (sliced.commands_end(), sliced.held.bytes.len());
    Some(at.shows(Conflict::of(sliced.headers(), sliced.whole(), end, len)))
}

// How many `LC_ID_DYLIB` there are, and how many an image of this filetype has.
#[inline(never)]
pub(crate) fn dylib_id(sliced: &Sliced) -> Option<Explanation>
    ensures { ExplainsIn Rule.DylibId sliced.now result }
{
    let at = header_here(sliced)?;
    let limit = match file_type_of(sliced.word(FILETYPE)) {
        Some(file_type) => u64::from(file_type.names_itself),
        None => 0,
    };
    let walked = walk_to(sliced.held.bytes, Sought::First(LC_ID_DYLIB));
    let second = walked.map(|walked| sliced.command(&walked));
    Some(at.shows(Conflict {
        second,
        ..Conflict::numbers(u64::from(second.is_some()), limit)
    }))
}

// Where the last command ends, and where the header says that it does.
#[inline(never)]
pub(crate) fn commands_end(sliced: &Sliced) -> Option<Explanation>
    ensures { ExplainsIn Rule.CommandsEnd sliced.now result }
{
    let at = header_here(sliced)?;
    let end = walk_end(sliced.held.bytes)?;
    Some(at.shows(Conflict {
        first: end.last.map(|walked| sliced.command(&walked)),
        ..Conflict::against(sliced.headers(), end.place, sliced.commands_end())
    }))
}

// The first mapped segment with `fileoff` 0, which is too short for the headers.
#[inline(never)]
pub(crate) fn header_segment(sliced: &Sliced) -> Option<Explanation>
    ensures { ExplainsIn Rule.HeaderSegment sliced.now result }
{
    let at = header_here(sliced)?;
    let (headers, end) = (sliced.headers(), sliced.commands_end());
    Some(at.shows(match find_segment(sliced, SegmentWith::Start) {
        Some(segment) => {
            let part = sliced.segment(&segment);
            Conflict::of(headers, part, end, segment.row.filesize)
        }
        None => Conflict::alone(headers, end, 0),
    }))
}

// The segment that has the base, and its protection; or the address for which a loader takes the base.
#[inline(never)]
pub(crate) fn header_home(sliced: &Sliced) -> Option<Explanation>
    ensures { ExplainsIn Rule.HeaderHome sliced.now result }
{
    let at = header_here(sliced)?;
    let wanted = u64::from(VM_PROT_READ);
    let Some(segment) = find_segment(sliced, SegmentWith::Base) else {
        return Some(at.shows(Conflict::alone(sliced.headers(), 0, wanted)));
    };
    let initprot = segment.row.initprot;
    if initprot & VM_PROT_READ != 0 && initprot & VM_PROT_WRITE == 0 {
        return Some(at.shows(text_home(sliced, segment.row.vmaddr)));
    }
    let part = sliced.segment(&segment);
    Some(at.shows(Conflict::of(sliced.headers(), part, u64::from(initprot), wanted)))
}

// The first segment named `__TEXT` that is not at the base, if there is one, and its address.
fn text_home(sliced: &Sliced, base: u64) -> Conflict
    ensures { result.limit ≡ base }
{
    match text_elsewhere(sliced, base) {
        Some(segment) => Conflict {
            second: segment_at(sliced, segment.place()),
            ..Conflict::alone(sliced.headers(), segment.vmaddr(), base)
        },
        None => Conflict::alone(sliced.headers(), 0, base),
    }
}

// The first segment named `__TEXT` that is not at the base.
fn text_elsewhere<'a>(sliced: &Sliced<'a>, base: u64) -> Option<Segment<'a>> {
    let mut segments = sliced.held.open()?.segments();
    segments.find(|segment| is_text(segment) && segment.vmaddr() != base)
}
