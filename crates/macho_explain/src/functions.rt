//! The rules of function starts and of data in code. (`mach-o/loader.h`: `LC_FUNCTION_STARTS`,
//! `LC_DATA_IN_CODE`)

ghost use Rattle.std.specs.Prelude.{◌≡◌, ℕ, MatchOption};
ghost use Rattle.macho_fields.specs.Bytes.{bytes_of};
ghost use Rattle.macho_fields.specs.declared.rule.Rule.{Rule};
ghost use Rattle.macho_tables.specs.StartNumbers.{IsStartAt};
ghost use Rattle.macho_explain.specs.Compared.{IsEntryShown, IsStartShown};
ghost use Rattle.macho_explain.specs.Explained.{ExplainsIn};

use crate::conflict::Conflict;
use crate::explanation::Explanation;
use crate::part::{Part, PartKind, index_of};
use crate::section_item::{Item, section_item};
use crate::segment::{SegmentWith, find_segment};
use crate::sliced::Sliced;
use crate::table::Bounded;
use crate::whole::whole_table;
use macho_fields::header::loader::{
    DATA_IN_CODE_ENTRY_SIZE, DICE_KIND_ABS_JUMP_TABLE32, INIT_OFFSET_SIZE, LC_DATA_IN_CODE,
    LC_FUNCTION_STARTS,
};
use macho_fields::{Bytes, Span};
use macho_tables::data_in_code::{DataInCodeEntry, is_known_kind};
use macho_tables::numbers::read_uleb;

// The byte at the place: no number begins there, or it is past the last one and not 0.
#[inline(never)]
pub(crate) fn function_number(sliced: &Sliced) -> Option<Explanation>
    ensures { ExplainsIn Rule.FunctionNumber sliced.now result }
{
    let (at, byte) = sliced.byte()?;
    let whole = whole_table(sliced, LC_FUNCTION_STARTS)?;
    Some(at.shows(Conflict::alone(whole.table.part, byte, 0)))
}

// The number at the place: at the address of its function, no segment has a byte of the file.
#[inline(never)]
pub(crate) fn function_start(sliced: &Sliced) -> Option<Explanation>
    ensures { ExplainsIn Rule.FunctionStart sliced.now result }
{
    let whole = whole_table(sliced, LC_FUNCTION_STARTS)?;
    let base = sliced.held.open()?.base()?;
    let offset = sliced.place.checked_sub(whole.table.span.start)?;
    let (address, size) = start_at(whole.bytes, base, offset)?;
    let part = sliced.structure(PartKind::FunctionStart, sliced.place, size, None);
    let conflict = start_conflict(sliced, whole.table.part, address);
    Some(sliced.at(part).shows(conflict))
}

// The address of a function, and where the file bytes end of the segment that has it, if one has.
fn start_conflict(sliced: &Sliced, table: Part, address: u64) -> Conflict
    ensures { result.value ≡ address }
{
    match find_segment(sliced, SegmentWith::Address(address)) {
        Some(found) => {
            let end = found.row.vmaddr.saturating_add(found.row.filesize);
            Conflict::of(table, sliced.memory(&found), address, end)
        }
        None => Conflict::alone(table, address, 0),
    }
}

// The address of the function with the number at an offset of the table, and the size of the number.
fn start_at(table: Bytes, base: u64, offset: u64) -> Option<(u64, u64)>
    ensures { MatchOption result ((function : ℕ) → ¬ IsStartAt (bytes_of table.entry) base offset function)
        (λ found. IsStartShown (bytes_of table.entry) base offset found.0) }
{
    let mut address = base;
    let mut place = 0;
    while place < offset {
        let (distance, next) = read_uleb(table, place)?;
        if distance == 0 {
            return None;
        }
        address = address.saturating_add(distance);
        place = next;
    }
    let (distance, next) = read_uleb(table, offset)?;
    if place != offset || distance == 0 {
        return None;
    }
    Some((address.saturating_add(distance), next - offset))
}

// The section with the offset at the place, which is cut; or the address to which the offset leads, and where the file
// bytes end of the segment that has it; or the offset alone, if no segment has the base.
#[inline(never)]
pub(crate) fn init_offset(sliced: &Sliced) -> Option<Explanation>
    ensures { ExplainsIn Rule.InitOffset sliced.now result }
{
    let (at, _) = sliced.byte()?;
    let image = sliced.held.open()?;
    let item = section_item(sliced, &image, Item::InitOffset)?;
    let offset = Span {
        start: sliced.place,
        len: INIT_OFFSET_SIZE,
    };
    if !offset.inside(&item.bytes) {
        let conflict = Conflict::alone(item.part, item.bytes.len, INIT_OFFSET_SIZE);
        return Some(at.shows(conflict));
    }
    let word = u64::from(sliced.word(sliced.place));
    let Some(base) = image.base() else {
        return Some(at.shows(Conflict::alone(item.part, word, 0)));
    };
    let address = base.saturating_add(word);
    Some(at.shows(start_conflict(sliced, item.part, address)))
}

// The byte at the place of a table whose last entry is cut, or the entry at the place.
#[inline(never)]
pub(crate) fn data_in_code(sliced: &Sliced) -> Option<Explanation>
    ensures { ExplainsIn Rule.DataInCode sliced.now result }
{
    let whole = whole_table(sliced, LC_DATA_IN_CODE)?;
    let (table, size) = (whole.table, whole.table.span.len);
    if size % DATA_IN_CODE_ENTRY_SIZE != 0 {
        let (at, _) = sliced.byte()?;
        let conflict = Conflict::alone(table.part, size, DATA_IN_CODE_ENTRY_SIZE);
        return Some(at.shows(conflict));
    }
    let offset = sliced.place.checked_sub(table.span.start)?;
    if offset % DATA_IN_CODE_ENTRY_SIZE != 0 || offset >= size {
        return None;
    }
    let index = index_of(offset / DATA_IN_CODE_ENTRY_SIZE);
    let size = DATA_IN_CODE_ENTRY_SIZE;
    let part = sliced.structure(PartKind::DataInCodeEntry, sliced.place, size, index);
    let entry = DataInCodeEntry::read(sliced.held.bytes, sliced.place);
    let conflict = entry_conflict(sliced, &table, entry, index);
    Some(sliced.at(part).shows(conflict))
}

// Why the entry at the place, which has this index, is bad: its kind, or where its bytes end.
fn entry_conflict(
    sliced: &Sliced,
    table: &Bounded,
    entry: DataInCodeEntry,
    index: Option<u32>,
) -> Conflict
    ensures { IsEntryShown entry result }
{
    if !is_known_kind(entry.kind) {
        let limit = u64::from(DICE_KIND_ABS_JUMP_TABLE32);
        return Conflict::alone(table.part, u64::from(entry.kind), limit);
    }
    let bytes = entry.bytes();
    let end = bytes.start + bytes.len;
    let part = sliced.described(PartKind::DataInCode, bytes, sliced.place, index);
    match find_segment(sliced, SegmentWith::FileByte(bytes.start)) {
        Some(found) => {
            let limit = found.row.fileoff.saturating_add(found.row.filesize);
            Conflict::of(part, sliced.segment(&found), end, limit)
        }
        None => Conflict::alone(part, end, 0),
    }
}
