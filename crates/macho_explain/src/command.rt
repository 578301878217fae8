//! The rules of load commands. (`mach-o/loader.h`)

ghost use Rattle.std.specs.Prelude.{◌≡◌, ◌+◌, ◌≤◌, ◌<◌, ◌⊎◌, ℕ, [], length, IfNone, IfSome, MatchOption};
ghost use Rattle.std.specs.Option.{option_map_or};
ghost use Rattle.macho_fields.specs.Bytes.{bytes_of};
ghost use Rattle.macho_fields.specs.Image.{command_cmd};
ghost use Rattle.macho_fields.specs.LoadCommands.{structure_of as structure_listed, table_fields};
ghost use Rattle.macho_fields.specs.declared.rule.Rule.{Rule};
ghost use Rattle.macho_explain.specs.Commanded.{symbols_shown};
ghost use Rattle.macho_explain.specs.Compared.{HasCommand, IsCountShown, IsObsoleteFound};
ghost use Rattle.macho_explain.specs.Explained.{ExplainsIn, IsSpot};
ghost use Rattle.macho_explain.specs.Explain.{word_at, IsSegment, IsSegmentFound, IsUncounted, IsWalked, MeetsLimit, NoneMeetsBefore};
ghost use Rattle.macho_explain.specs.Parts.{IsBefore};
ghost use Rattle.macho_explain.specs.Readers.{IsEncryptedShown};
ghost use Rattle.macho_explain.specs.declared.segment.SegmentWith.TheVariants as with;
ghost use Rattle.macho_explain.specs.declared.walk.Sought.TheVariants as sought;

use crate::conflict::Conflict;
use crate::explanation::Explanation;
use crate::part::{PartKind, index_of};
use crate::segment::{SegmentAt, SegmentWith, find_segment};
use crate::sliced::Sliced;
use crate::spot::Spot;
use crate::table::{symtab_table, table_by, table_with, tables_of};
use crate::walk::{Sought, Walked, platform_of, walk_end, walk_to};
use macho_commands::content_of;
use macho_fields::header::loader::dysymtab_command::{
    NEXTREFSYMS, NEXTREL, NLOCREL, NMODTAB, NTOC,
};
use macho_fields::header::loader::encryption_info_command_64::CRYPTID;
use macho_fields::header::loader::entry_point_command::ENTRYOFF;
use macho_fields::header::loader::load_command::CMDSIZE;
use macho_fields::header::loader::segment_command_64::FLAGS;
use macho_fields::header::loader::symtab_command::NSYMS;
use macho_fields::header::loader::{
    LC_DYLD_CHAINED_FIXUPS, LC_ENCRYPTION_INFO_64, LC_STR_OFFSET, LC_SYMTAB, LC_THREAD,
    LC_UNIXTHREAD, LOAD_COMMAND_SIZE, SG_PROTECTED_VERSION_1,
};
use macho_fields::{Span, structure_of};
use macho_rows::load::Load;

// The command that begins at the place.
pub(crate) fn command_here(sliced: &Sliced) -> Option<(Spot, Walked)>
    ensures { MatchOption result (¬ HasCommand (bytes_of sliced.now.held.bytes) sliced.now.place)
        (λ found. IsSpot sliced.now found.0
        × IsWalked (bytes_of sliced.now.held.bytes) (sought.From sliced.now.place) found.1) }
{
    let walked = walk_to(sliced.held.bytes, Sought::From(sliced.place))?;
    let at = sliced.at(sliced.command(&walked));
    Some((at.in_command(Some(walked.index)), walked))
}

// Where the walk over the commands finds none, and why: it ends past the commands, or no command has its size.
#[inline(never)]
pub(crate) fn command_walk(sliced: &Sliced) -> Option<Explanation>
    ensures { ExplainsIn Rule.CommandWalk sliced.now result }
{
    let end = walk_end(sliced.held.bytes)?;
    let (place, index) = (end.place, Some(end.count));
    if place != sliced.place {
        return None;
    }
    let limit = sliced.commands_end();
    let there = sliced.held.bytes.len().saturating_sub(place);
    let part = sliced.structure(
        PartKind::Command,
        place,
        there.min(LOAD_COMMAND_SIZE),
        index,
    );
    let at = sliced.at(part).in_command(index);
    let head_end = place.saturating_add(LOAD_COMMAND_SIZE);
    if head_end > limit {
        let head = sliced.structure(PartKind::Command, place, LOAD_COMMAND_SIZE, index);
        return Some(at.shows(Conflict::of(head, sliced.headers(), head_end, limit)));
    }
    let size = u64::from(sliced.word(place.saturating_add(CMDSIZE)));
    let command = sliced.structure(PartKind::Command, place, size, index);
    if size < LOAD_COMMAND_SIZE || size % LOAD_COMMAND_SIZE != 0 {
        return Some(at.shows(Conflict::alone(command, size, LOAD_COMMAND_SIZE)));
    }
    let end = place.saturating_add(size);
    Some(at.shows(Conflict::of(command, sliced.headers(), end, limit)))
}

// The size of a command, and the least one.
#[inline(never)]
pub(crate) fn command_short(sliced: &Sliced) -> Option<Explanation>
    ensures { ExplainsIn Rule.CommandShort sliced.now result }
{
    let (at, walked) = command_here(sliced)?;
    let (size, least) = (walked.load.size, least_size(sliced, walked.load));
    Some(at.shows(Conflict::alone(sliced.command(&walked), size, least)))
}

// The least size of a command, by its structure and its records.
fn least_size(sliced: &Sliced, load: Load) -> u64 {
    let Some(structure) = structure_of(load.cmd) else {
        return 0;
    };
    let size = structure.size();
    match structure.records() {
        Some(records) if records.count + 4 <= load.size => {
            let count = sliced.word(load.place.saturating_add(records.count));
            size.saturating_add(u64::from(count).saturating_mul(records.size))
        }
        _ => size,
    }
}

// The first command with this `cmd`.
#[inline(never)]
pub(crate) fn command_repeated(sliced: &Sliced) -> Option<Explanation>
    ensures { ExplainsIn Rule.CommandRepeated sliced.now result }
{
    let (at, walked) = command_here(sliced)?;
    Some(at.shows(repeated(sliced, &walked, Sought::First(walked.load.cmd))?))
}

// The first command that names linked data of this kind.
#[inline(never)]
pub(crate) fn table_repeated(sliced: &Sliced) -> Option<Explanation>
    ensures { ExplainsIn Rule.TableRepeated sliced.now result }
{
    let (at, walked) = command_here(sliced)?;
    Some(at.shows(repeated(sliced, &walked, Sought::OfKind(walked.load.cmd))?))
}

// The command that is sought, which comes before this one.
pub(crate) fn repeated(sliced: &Sliced, walked: &Walked, sought: Sought) -> Option<Conflict>
    ensures none { IfNone result (NoneMeetsBefore (bytes_of sliced.now.held.bytes) sought walked.now.index
        ⊎ IsUncounted (bytes_of sliced.now.held.bytes)) }
    ensures value { IfSome result (λ c. c.value ≡ walked.now.load.cmd) }
    ensures order { IfSome result IsBefore }
    ensures limit { IfSome result (λ c. MeetsLimit sought c.limit) }
{
    let earlier = walk_to(sliced.held.bytes, sought)?;
    if earlier.index >= walked.index {
        return None;
    }
    Some(Conflict::of(
        sliced.command(walked),
        sliced.command(&earlier),
        u64::from(walked.load.cmd),
        u64::from(earlier.load.cmd),
    ))
}

// A thread that comes before this one, or how many bytes this one has.
#[inline(never)]
pub(crate) fn thread(sliced: &Sliced) -> Option<Explanation>
    ensures { ExplainsIn Rule.Thread sliced.now result }
{
    let (at, walked) = command_here(sliced)?;
    let own = sliced.command(&walked);
    Some(at.shows(match first_thread(sliced) {
        Some(first) if first.index < walked.index => {
            let (cmd, earlier) = (u64::from(walked.load.cmd), u64::from(first.load.cmd));
            Conflict::of(own, sliced.command(&first), cmd, earlier)
        }
        _ => Conflict::alone(own, walked.load.size, 0),
    }))
}

// The first thread of the image.
fn first_thread(sliced: &Sliced) -> Option<Walked> {
    let bytes = sliced.held.bytes;
    let one = walk_to(bytes, Sought::First(LC_THREAD));
    let other = walk_to(bytes, Sought::First(LC_UNIXTHREAD));
    match (one, other) {
        (Some(one), Some(other)) if other.index < one.index => Some(other),
        (Some(one), _) => Some(one),
        (None, other) => other,
    }
}

// The size of a command, and the size of its structure, which is 0 if an image cannot have it.
#[inline(never)]
pub(crate) fn command_content(sliced: &Sliced) -> Option<Explanation>
    ensures { ExplainsIn Rule.CommandContent sliced.now result }
{
    let (at, walked) = command_here(sliced)?;
    let size = content_of(walked.load.cmd).map_or(0, |content| content.size);
    let own = sliced.command(&walked);
    Some(at.shows(Conflict::alone(own, walked.load.size, size)))
}

// The `cmd` of a command that no profile knows.
#[inline(never)]
pub(crate) fn command_known(sliced: &Sliced) -> Option<Explanation>
    ensures { ExplainsIn Rule.CommandKnown sliced.now result }
{
    let (at, walked) = command_here(sliced)?;
    let own = sliced.command(&walked);
    Some(at.shows(Conflict::alone(own, u64::from(walked.load.cmd), 0)))
}

// The first command with versions of the same platform, or with this `cmd`.
#[inline(never)]
pub(crate) fn command_once(sliced: &Sliced) -> Option<Explanation>
    ensures { ExplainsIn Rule.CommandOnce sliced.now result }
{
    let (at, walked) = command_here(sliced)?;
    let Some(platform) = platform_of(sliced.held.bytes, walked.load) else {
        return Some(at.shows(repeated(sliced, &walked, Sought::First(walked.load.cmd))?));
    };
    Some(at.shows(Conflict {
        value: u64::from(platform),
        limit: u64::from(platform),
        ..repeated(sliced, &walked, Sought::OfPlatform(platform))?
    }))
}

// The segment whose pages a kernel decrypts, and its flags; or the encrypted range, and how it is encrypted.
#[inline(never)]
pub(crate) fn bytes_encrypted(sliced: &Sliced) -> Option<Explanation>
    ensures { ExplainsIn Rule.BytesEncrypted sliced.now result }
{
    let (at, walked) = command_here(sliced)?;
    Some(at.shows(encryption(sliced, &walked)?))
}

// How the bytes of a segment, or of a range, are encrypted.
fn encryption(sliced: &Sliced, walked: &Walked) -> Option<Conflict>
    requires { IsWalked (bytes_of sliced.now.held.bytes) (sought.From sliced.now.place) walked.now }
    ensures { MatchOption result
        (¬ (IsSegment (bytes_of sliced.now.held.bytes) sliced.now.place
        ⊎ (command_cmd (bytes_of sliced.now.held.bytes) sliced.now.place ≡ LC_ENCRYPTION_INFO_64)))
        (IsEncryptedShown (bytes_of sliced.now.held.bytes) sliced.now.place) }
{
    match find_segment(sliced, SegmentWith::Command(sliced.place)) {
        Some(segment) => Some(protected(sliced, &segment)),
        None => encrypted(sliced, walked),
    }
}

// The segment, its flags, and the one by which a kernel decrypts its pages.
fn protected(sliced: &Sliced, segment: &SegmentAt) -> Conflict
    requires { IsSegmentFound (bytes_of sliced.now.held.bytes) (with.Command sliced.now.place) segment.now }
    ensures value { result.value ≡ word_at (bytes_of sliced.now.held.bytes) (sliced.now.place + 68) }
    ensures limit { result.limit ≡ SG_PROTECTED_VERSION_1 }
{
    let flags = u64::from(sliced.word(segment.place + FLAGS));
    let limit = u64::from(SG_PROTECTED_VERSION_1);
    Conflict::alone(sliced.segment(segment), flags, limit)
}

// The encrypted range, how it is encrypted, and the segment with its first byte.
fn encrypted(sliced: &Sliced, walked: &Walked) -> Option<Conflict>
    requires { IsWalked (bytes_of sliced.now.held.bytes) (sought.From sliced.now.place) walked.now }
    ensures { MatchOption result (length (option_map_or table_fields (structure_listed walked.now.load.cmd) []) ≤ 0)
        (λ c. (c.value ≡ word_at (bytes_of sliced.now.held.bytes) (sliced.now.place + 16)) × (c.limit ≡ 0)) }
{
    let range = table_with(sliced, walked.load, 0)?;
    let cryptid = u64::from(sliced.word(walked.load.place + CRYPTID));
    let found = find_segment(sliced, SegmentWith::FileByte(range.span.start));
    Some(Conflict {
        second: found.map(|segment| sliced.segment(&segment)),
        ..Conflict::alone(range.part, cryptid, 0)
    })
}

// The command that has variants of functions.
#[inline(never)]
pub(crate) fn function_variants(sliced: &Sliced) -> Option<Explanation>
    ensures { ExplainsIn Rule.FunctionVariants sliced.now result }
{
    let (at, walked) = command_here(sliced)?;
    Some(at.shows(Conflict::numbers(u64::from(walked.load.cmd), 0)))
}

// The offset of the name of a command, and the least one, or where the name has to end.
#[inline(never)]
pub(crate) fn name(sliced: &Sliced) -> Option<Explanation>
    ensures { ExplainsIn Rule.Name sliced.now result }
{
    let (at, walked) = command_here(sliced)?;
    let load = walked.load;
    let offset = u64::from(sliced.word(load.place + LC_STR_OFFSET));
    let least = structure_of(load.cmd).map_or(0, |structure| structure.size());
    if offset < least {
        return Some(at.shows(Conflict::numbers(offset, least)));
    }
    let rest = Span {
        start: load.place.saturating_add(offset),
        len: load.size.saturating_sub(offset),
    };
    let name = sliced.described(PartKind::Name, rest, load.place, None);
    Some(at.shows(Conflict::of(name, sliced.command(&walked), offset, load.size)))
}

// The first table of a command that ends past the image.
#[inline(never)]
pub(crate) fn table_range(sliced: &Sliced) -> Option<Explanation>
    ensures { ExplainsIn Rule.TableRange sliced.now result }
{
    let (at, walked) = command_here(sliced)?;
    let len = u128::from(sliced.held.bytes.len());
    let mut index: u64 = 0;
    for fields in tables_of(walked.load.cmd) {
        let table = table_by(sliced, sliced.place, *fields, index);
        if table.span.len > 0 && table.end > len {
            return Some(at.shows(Conflict::past(table.part, sliced.whole(), table.end, len)));
        }
        index = index.saturating_add(1);
    }
    None
}

// How many groups of symbols `dysymtab_command` has, the offset of the first, and their size there.
const GROUPS: u64 = 3;

const FIRST_GROUP: u64 = 8;

const GROUP_SIZE: u64 = 8;

// The first group of symbols that ends past the symbols.
#[inline(never)]
pub(crate) fn symbol_group(sliced: &Sliced) -> Option<Explanation>
    ensures { ExplainsIn Rule.SymbolGroup sliced.now result }
{
    let (at, walked) = command_here(sliced)?;
    let (symbols, _) = symtab_table(sliced, 0);
    let count = symbol_count(sliced);
    for index in 0..GROUPS {
        let place = walked
            .load
            .place
            .saturating_add(FIRST_GROUP + GROUP_SIZE * index);
        let span = Span {
            start: u64::from(sliced.word(place)),
            len: u64::from(sliced.word(place.saturating_add(4))),
        };
        if span.len > 0 && span.end() > u128::from(count) {
            let group = sliced.numbered(PartKind::Group, span, sliced.place, index_of(index));
            return Some(at.shows(Conflict {
                second: symbols,
                ..Conflict::alone(group, span.start + span.len, count)
            }));
        }
    }
    None
}

// How many symbols the first `LC_SYMTAB` has, or 0 without one.
fn symbol_count(sliced: &Sliced) -> u64
    ensures { ¬ IsUncounted (bytes_of sliced.now.held.bytes)
        → result ≡ symbols_shown (bytes_of sliced.now.held.bytes) }
{
    match walk_to(sliced.held.bytes, Sought::First(LC_SYMTAB)) {
        Some(symtab) => u64::from(sliced.word(symtab.load.place + NSYMS)),
        None => 0,
    }
}

// The first table of `LC_DYSYMTAB` that only older loaders follow, and how many entries it has; if it has relocations,
// also the command with the fixups that newer loaders follow.
#[inline(never)]
pub(crate) fn obsolete_table(sliced: &Sliced) -> Option<Explanation>
    ensures { ExplainsIn Rule.ObsoleteTable sliced.now result }
{
    let (at, walked) = command_here(sliced)?;
    let (index, count) = first_obsolete(sliced)?;
    let table = table_with(sliced, walked.load, index)?;
    let fixups = match index {
        0..=2 => None,
        _ => walk_to(sliced.held.bytes, Sought::OfKind(LC_DYLD_CHAINED_FIXUPS)),
    };
    Some(at.shows(Conflict {
        second: fixups.map(|walked| sliced.command(&walked)),
        ..Conflict::alone(table.part, count, 0)
    }))
}

// The index of the first such table of the command at the place, and how many entries it has.
fn first_obsolete(sliced: &Sliced) -> Option<(u64, u64)>
    ensures { MatchOption result
        ((count : ℕ) → ¬ IsCountShown (bytes_of sliced.now.held.bytes) sliced.now.place count)
        (λ found. (found.0 < 6) × IsCountShown (bytes_of sliced.now.held.bytes) sliced.now.place found.1) }
{
    obsolete(sliced, 0, NTOC)
        .or(obsolete(sliced, 1, NMODTAB))
        .or(obsolete(sliced, 2, NEXTREFSYMS))
        .or(obsolete(sliced, 4, NEXTREL))
        .or(obsolete(sliced, 5, NLOCREL))
}

// The index of a table of the command at the place, and how many entries it has by this field, if it has some.
fn obsolete(sliced: &Sliced, index: u64, field: u64) -> Option<(u64, u64)>
    ensures { IsObsoleteFound (bytes_of sliced.now.held.bytes) sliced.now.place index field result }
{
    let count = u64::from(sliced.word(sliced.place.saturating_add(field)));
    if count > 0 {
        Some((index, count))
    } else {
        None
    }
}

// The segment with the base, and the one with the address of the entry.
#[inline(never)]
pub(crate) fn entry(sliced: &Sliced) -> Option<Explanation>
    ensures { ExplainsIn Rule.Entry sliced.now result }
{
    let (at, walked) = command_here(sliced)?;
    let entryoff = sliced.long(walked.load.place + ENTRYOFF);
    let Some(base) = find_segment(sliced, SegmentWith::Base) else {
        return Some(at.shows(Conflict::numbers(entryoff, 0)));
    };
    let first = sliced.memory(&base);
    let address = base.row.vmaddr.saturating_add(entryoff);
    let Some(found) = find_segment(sliced, SegmentWith::Address(address)) else {
        return Some(at.shows(Conflict::alone(first, address, 0)));
    };
    let end = found.row.vmaddr.saturating_add(found.row.filesize);
    Some(at.shows(Conflict::of(first, sliced.memory(&found), address, end)))
}

// The encrypted range, and the headers in which it begins, or the segment in which it has to end.
#[inline(never)]
pub(crate) fn encrypted_range(sliced: &Sliced) -> Option<Explanation>
    ensures { ExplainsIn Rule.EncryptedRange sliced.now result }
{
    let (at, walked) = command_here(sliced)?;
    let range = table_with(sliced, walked.load, 0)?;
    let headers_end = sliced.commands_end();
    let start = range.span.start;
    if start < headers_end {
        return Some(at.shows(Conflict::of(range.part, sliced.headers(), start, headers_end)));
    }
    let Some(found) = find_segment(sliced, SegmentWith::FileByte(start)) else {
        return Some(at.shows(Conflict::alone(range.part, start, 0)));
    };
    let limit = found.file_part().end();
    let segment = sliced.segment(&found);
    Some(at.shows(Conflict::past(range.part, segment, range.end, limit)))
}
