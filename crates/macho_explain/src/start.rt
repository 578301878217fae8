//! The rule of where a program begins. (`mach-o/loader.h`: `entry_point_command`, `thread_command`)

ghost use Rattle.std.specs.Prelude.{◌≡◌, ◌↔◌, ℕ, IsTrue, MatchOption, Some};
ghost use Rattle.macho_fields.specs.declared.rule.Rule.{Rule};
ghost use Rattle.macho_fields.specs.Bytes.{bytes_of};
ghost use Rattle.macho_explain.specs.Explained.{ExplainsIn};
ghost use Rattle.macho_explain.specs.Explain.{IsWalked};
ghost use Rattle.macho_explain.specs.Readers.{HasDataUpTo, IsByteOfAddress, IsDataUpTo, IsEntryAddress, IsEntryByte, IsEntryByteShown, IsDataEntry, IsMainAddress, IsNotAtOffset, IsOtherByteShown, IsOtherEntryShown};
ghost use Rattle.macho_explain.specs.Wholes.{Opens};
ghost use Rattle.macho_explain.specs.declared.walk.Sought.TheVariants as sought;

use crate::command::{command_here, repeated};
use crate::conflict::Conflict;
use crate::explanation::Explanation;
use crate::part::{Part, PartKind, index_of};
use crate::segment::{SegmentWith, find_segment};
use crate::sliced::Sliced;
use crate::walk::{Sought, Walked};
use crate::whole::whole_table;
use macho_commands::thread_entry;
use macho_fields::Bytes;
use macho_fields::header::loader::entry_point_command::ENTRYOFF;
use macho_fields::header::loader::mach_header_64::FILETYPE;
use macho_fields::header::loader::{
    DATA_IN_CODE_ENTRY_SIZE, LC_DATA_IN_CODE, LC_MAIN, MACH_HEADER_64_SIZE, MH_EXECUTE,
};
use macho_tables::data_in_code::DataInCodeEntry;

// An earlier command that says where the program begins; or the filetype; or where in the file the entry is, and
// `entryoff`; or where it is, and where the data ends that has it.
#[inline(never)]
pub(crate) fn entry_one(sliced: &Sliced) -> Option<Explanation>
    ensures { ExplainsIn Rule.EntryOne sliced.now result }
{
    let (at, walked) = command_here(sliced)?;
    Some(at.shows(match repeated(sliced, &walked, Sought::Entry) {
        Some(conflict) => conflict,
        None => other_entry(sliced, &walked),
    }))
}

// The filetype, if the image is no program; or where the entry is.
fn other_entry(sliced: &Sliced, walked: &Walked) -> Conflict
    requires { IsWalked (bytes_of sliced.now.held.bytes) (sought.From sliced.now.place) walked.now }
    ensures { IsOtherEntryShown (bytes_of sliced.now.held.bytes) sliced.now.place result }
{
    let filetype = sliced.word(FILETYPE);
    if filetype != MH_EXECUTE {
        let header = sliced.structure(PartKind::Header, 0, MACH_HEADER_64_SIZE, None);
        let (own, wanted) = (sliced.command(walked), u64::from(MH_EXECUTE));
        return Conflict::of(own, header, u64::from(filetype), wanted);
    }
    byte_conflict(sliced, walked)
}

// Where the entry is in the image, and where it should be.
fn byte_conflict(sliced: &Sliced, walked: &Walked) -> Conflict
    requires { IsWalked (bytes_of sliced.now.held.bytes) (sought.From sliced.now.place) walked.now }
    ensures { IsEntryByteShown (bytes_of sliced.now.held.bytes) sliced.now.place result }
{
    let own = sliced.command(walked);
    let Some((memory, place)) = entry_byte(sliced, walked) else {
        return Conflict::alone(own, 0, 0);
    };
    match other_byte(sliced, walked, memory, place) {
        Some(conflict) => conflict,
        None => Conflict::of(own, memory, place, 0),
    }
}

// Why the entry at this byte of the image, in these addresses, is another one to some readers: the byte is not at the
// `entryoff`, or it is data.
fn other_byte(sliced: &Sliced, walked: &Walked, memory: Part, place: u64) -> Option<Conflict>
    requires { IsWalked (bytes_of sliced.now.held.bytes) (sought.From sliced.now.place) walked.now }
    ensures { MatchOption result
        ((¬ IsNotAtOffset (bytes_of sliced.now.held.bytes) sliced.now.place place)
        × (Opens (bytes_of sliced.now.held.bytes) → (end : ℕ) → ¬ IsDataUpTo (bytes_of sliced.now.held.bytes) place end))
        (IsOtherByteShown (bytes_of sliced.now.held.bytes) sliced.now.place place) }
{
    let own = sliced.command(walked);
    if is_not_at_offset(sliced, walked, place) {
        let entryoff = sliced.long(walked.load.place + ENTRYOFF);
        return Some(Conflict::of(own, memory, entryoff, place));
    }
    let (data, end) = data_with(sliced, place)?;
    Some(Conflict::of(own, data, place, end))
}

// Whether the command is an `LC_MAIN` whose `entryoff` is not this byte of the image.
fn is_not_at_offset(sliced: &Sliced, walked: &Walked, place: u64) -> bool
    requires { IsWalked (bytes_of sliced.now.held.bytes) (sought.From sliced.now.place) walked.now }
    ensures { IsTrue result ↔ IsNotAtOffset (bytes_of sliced.now.held.bytes) sliced.now.place place }
{
    walked.load.cmd == LC_MAIN && sliced.long(walked.load.place + ENTRYOFF) != place
}

// The addresses of the segment that has the entry, and where its byte is in the image.
fn entry_byte(sliced: &Sliced, walked: &Walked) -> Option<(Part, u64)>
    requires { IsWalked (bytes_of sliced.now.held.bytes) (sought.From sliced.now.place) walked.now }
    ensures { MatchOption result
        ((byte : ℕ) → ¬ IsEntryByte (bytes_of sliced.now.held.bytes) sliced.now.place byte)
        (λ found. (byte : ℕ) → (found.1 ≡ byte) ↔ IsEntryByte (bytes_of sliced.now.held.bytes) sliced.now.place byte) }
{
    byte_of(sliced, entry_address(sliced, walked)?)
}

// The addresses of the first segment that has an address, and where the byte there is in the image.
fn byte_of(sliced: &Sliced, address: u64) -> Option<(Part, u64)>
    ensures { MatchOption result
        ((byte : ℕ) → ¬ IsByteOfAddress (bytes_of sliced.now.held.bytes) address byte)
        (λ found. (byte : ℕ) → (found.1 ≡ byte) ↔ IsByteOfAddress (bytes_of sliced.now.held.bytes) address byte) }
{
    let segment = find_segment(sliced, SegmentWith::Address(address))?;
    let past = address - segment.row.vmaddr;
    Some((
        sliced.memory(&segment),
        segment.row.fileoff.saturating_add(past),
    ))
}

// The address at which the program begins.
fn entry_address(sliced: &Sliced, walked: &Walked) -> Option<u64>
    requires { IsWalked (bytes_of sliced.now.held.bytes) (sought.From sliced.now.place) walked.now }
    ensures { (address : ℕ) → (result ≡ Some address)
        ↔ IsEntryAddress (bytes_of sliced.now.held.bytes) sliced.now.place address }
{
    if walked.load.cmd == LC_MAIN {
        return main_address(sliced, walked);
    }
    thread_entry(&sliced.held.open()?)
}

// The address at which an `entry_point_command` says that the program begins.
fn main_address(sliced: &Sliced, walked: &Walked) -> Option<u64>
    requires { IsWalked (bytes_of sliced.now.held.bytes) (sought.From sliced.now.place) walked.now }
    ensures { (address : ℕ) → (result ≡ Some address)
        ↔ IsMainAddress (bytes_of sliced.now.held.bytes) sliced.now.place address }
{
    let base = find_segment(sliced, SegmentWith::Base)?;
    let entryoff = sliced.long(walked.load.place + ENTRYOFF);
    Some(base.row.vmaddr.saturating_add(entryoff))
}

// The first data in code that has a byte of the image, and where it ends.
fn data_with(sliced: &Sliced, place: u64) -> Option<(Part, u64)>
    ensures { MatchOption result
        (Opens (bytes_of sliced.now.held.bytes) → (end : ℕ) → ¬ IsDataUpTo (bytes_of sliced.now.held.bytes) place end)
        (λ found. IsDataUpTo (bytes_of sliced.now.held.bytes) place found.1) }
{
    let whole = whole_table(sliced, LC_DATA_IN_CODE)?;
    let (index, entry) = entry_with(whole.bytes, place)?;
    let bytes = entry.bytes();
    let by = whole
        .table
        .span
        .start
        .saturating_add(index * DATA_IN_CODE_ENTRY_SIZE);
    let part = sliced.described(PartKind::DataInCode, bytes, by, index_of(index));
    Some((part, bytes.start + bytes.len))
}

// The first entry of a table of data in code that has a byte of the image, and its index.
fn entry_with(table: Bytes, place: u64) -> Option<(u64, DataInCodeEntry)>
    ensures { MatchOption result ((end : ℕ) → ¬ HasDataUpTo (bytes_of table.entry) place end)
        (λ found. IsDataEntry (bytes_of table.entry) found.0 found.1 place) }
{
    for index in 0..table.len() / DATA_IN_CODE_ENTRY_SIZE {
        let entry = DataInCodeEntry::read(table, index * DATA_IN_CODE_ENTRY_SIZE);
        if entry.bytes().holds(place) {
            return Some((index, entry));
        }
    }
    None
}
