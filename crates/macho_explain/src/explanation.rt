//! Why a file is refused: what is at the place of the verdict, and which parts and numbers conflict there.

ghost use Rattle.std.specs.Prelude.{◌≡◌, ◌≤◌, MatchOption};
ghost use Rattle.macho_fields.specs.Bytes.{bytes_of};
ghost use Rattle.macho_explain.specs.Compared.{shown};
ghost use Rattle.macho_explain.specs.Explained.{ExplainsBy, ExplainsIn, HasPlace, IsExplained, IsUnexplained};
ghost use Rattle.macho_explain.specs.Judged.{IsOfImage};

use crate::chains::{chain_header, chain_imports, chain_library, chain_starts, chain_total};
use crate::command::{
    bytes_encrypted, command_content, command_known, command_once, command_repeated, command_short,
    command_walk, encrypted_range, entry, function_variants, name, obsolete_table, symbol_group,
    table_range, table_repeated, thread,
};
use crate::conflict::Conflict;
use crate::definition::{export_symbol, symbol_total};
use crate::element::{command_slack, element_overlap, stray_byte, unclaimed_byte};
use crate::entries::{
    fat_align, fat_duplicate, fat_empty, fat_overlap, fat_slice_in_table, fat_slice_magic,
    fat_slice_outside, fat_stray_byte, fat_truncated, magic,
};
use crate::exports::{export_address, export_library, export_node, export_terminal, export_total};
use crate::functions::{data_in_code, function_number, function_start, init_offset};
use crate::header::{
    arch_mismatch, commands_end, commands_outside, dylib_id, file_type, header_home,
    header_segment, header_truncated,
};
use crate::home::table_home;
use crate::identity::{directory_agree, signature_slot};
use crate::labels::export_edge;
use crate::names::{section_name, segment_name};
use crate::order::number_shift;
use crate::part::Part;
use crate::pointers::{chain_bind, chain_slot};
use crate::relocation::relocation;
use crate::seal::{directory_repeated, signature_hash, signature_missing, signature_slack};
use crate::section::{indirect_range, section_address, section_file, section_relocs};
use crate::section_alone::section_alone;
use crate::segment::{
    segment_address, segment_file, segment_file_overlap, segment_overlap, segment_page,
    segment_protection, segment_size, signature_executable,
};
use crate::signature::{signature_blob, signature_directory, signature_whole};
use crate::sliced::{Sliced, image_with};
use crate::spot::Spot;
use crate::start::entry_one;
use crate::symbol_kind::symbol_kind;
use crate::universal::{fat_count, fat_header, fat_page};
use crate::{stream, symbol};
use macho_fields::{Bytes, Rule};

/// Why a file is refused.
#[derive(Clone, Copy)]
pub struct Explanation {
    /// The structure that has the place, or the byte there.
    pub at: Spot,
    pub conflict: Conflict,
}

/// Explains that a rule is broken at a place of the file, as a verdict says. `None` if nothing is at the place that the
/// rule is about.
pub fn explain(file: &[u8], rule: Rule, place: u64) -> Option<Explanation>
    ensures { MatchOption result (IsUnexplained rule file.now place) (IsExplained rule file.now place) }
{
    let len = file.len() as u64;
    if place > len {
        return None;
    }
    let image = image_with(file, rule, place);
    let found = explain_in(Bytes::new(file), rule, place, image)?;
    Some(placed(found, place, len))
}

// Explains a rule by the file, or by the image that has the place.
fn explain_in(bytes: Bytes, rule: Rule, place: u64, image: Option<Sliced>) -> Option<Explanation>
    ensures { ExplainsBy rule (bytes_of bytes.entry) place image.entry result }
{
    match rule {
        Rule::Magic => magic(bytes, place),
        Rule::FatTruncated => fat_truncated(bytes, place),
        Rule::FatSliceOutside => fat_slice_outside(bytes, place),
        Rule::FatSliceInTable => fat_slice_in_table(bytes, place),
        Rule::FatAlign => fat_align(bytes, place),
        Rule::FatOverlap => fat_overlap(bytes, place),
        Rule::FatDuplicate => fat_duplicate(bytes, place),
        Rule::FatSliceMagic => fat_slice_magic(bytes, place),
        Rule::FatEmpty => fat_empty(bytes, place),
        Rule::FatStrayByte => fat_stray_byte(bytes, place),
        Rule::FatCount => fat_count(bytes, place),
        Rule::FatHeader => fat_header(bytes, place),
        Rule::FatPage => fat_page(bytes, place),
        _ => explain_image(rule, &image?),
    }
}

// Explains a rule that is judged over each image. Each has its line here; a rule that is judged over the file has its
// line above.
fn explain_image(rule: Rule, image: &Sliced) -> Option<Explanation>
    requires { IsOfImage (shown rule) }
    ensures { ExplainsIn rule image.now result }
{
    match rule {
        Rule::Magic
        | Rule::FatTruncated
        | Rule::FatSliceOutside
        | Rule::FatSliceInTable
        | Rule::FatAlign
        | Rule::FatOverlap
        | Rule::FatDuplicate
        | Rule::FatSliceMagic
        | Rule::FatEmpty
        | Rule::FatStrayByte
        | Rule::FatCount
        | Rule::FatHeader
        | Rule::FatPage => None,
        Rule::HeaderTruncated => header_truncated(image),
        Rule::ArchMismatch => arch_mismatch(image),
        Rule::FileType => file_type(image),
        Rule::CommandsOutside => commands_outside(image),
        Rule::CommandWalk => command_walk(image),
        Rule::CommandShort => command_short(image),
        Rule::CommandRepeated => command_repeated(image),
        Rule::DylibId => dylib_id(image),
        Rule::Name => name(image),
        Rule::SegmentAddress => segment_address(image),
        Rule::SegmentSize => segment_size(image),
        Rule::SegmentFile => segment_file(image),
        Rule::SegmentOverlap => segment_overlap(image),
        Rule::SectionAddress => section_address(image),
        Rule::SectionFile => section_file(image),
        Rule::SectionRelocs => section_relocs(image),
        Rule::TableRange => table_range(image),
        Rule::SymbolGroup => symbol_group(image),
        Rule::SymbolName => symbol::symbol_name(image),
        Rule::SymbolSection => symbol::symbol_section(image),
        Rule::IndirectIndex => symbol::indirect_index(image),
        Rule::Entry => entry(image),
        Rule::CommandsEnd => commands_end(image),
        Rule::HeaderSegment => header_segment(image),
        Rule::SegmentFileOverlap => segment_file_overlap(image),
        Rule::ElementOverlap => element_overlap(image),
        Rule::StrayByte => stray_byte(image),
        Rule::EncryptedRange => encrypted_range(image),
        Rule::CommandSlack => command_slack(image),
        Rule::UnclaimedByte => unclaimed_byte(image),
        Rule::TableRepeated => table_repeated(image),
        Rule::FunctionVariants => function_variants(image),
        Rule::TableHome => table_home(image),
        Rule::HeaderHome => header_home(image),
        Rule::RebaseOpcode => stream::rebase_opcode(image),
        Rule::RebaseSlot => stream::rebase_slot(image),
        Rule::RebaseTotal => stream::rebase_total(image),
        Rule::BindOpcode => stream::bind_opcode(image),
        Rule::BindLibrary => stream::bind_library(image),
        Rule::BindSymbol => stream::bind_symbol(image),
        Rule::BindSlot => stream::bind_slot(image),
        Rule::BindTotal => stream::bind_total(image),
        Rule::BindNames => stream::bind_names(image),
        Rule::ChainHeader => chain_header(image),
        Rule::ChainStarts => chain_starts(image),
        Rule::ChainImports => chain_imports(image),
        Rule::ChainTotal => chain_total(image),
        Rule::ChainLibrary => chain_library(image),
        Rule::ChainSlot => chain_slot(image),
        Rule::ChainBind => chain_bind(image),
        Rule::ExportNode => export_node(image),
        Rule::ExportTotal => export_total(image),
        Rule::ExportTerminal => export_terminal(image),
        Rule::ExportLibrary => export_library(image),
        Rule::ExportAddress => export_address(image),
        Rule::FunctionNumber => function_number(image),
        Rule::FunctionStart => function_start(image),
        Rule::DataInCode => data_in_code(image),
        Rule::InitOffset => init_offset(image),
        Rule::SignatureBlob => signature_blob(image),
        Rule::SignatureDirectory => signature_directory(image),
        Rule::SignatureWhole => signature_whole(image),
        Rule::SymbolLibrary => symbol::symbol_library(image),
        Rule::SymbolValue => symbol::symbol_value(image),
        Rule::SymbolIndirect => symbol::symbol_indirect(image),
        Rule::IndirectRange => indirect_range(image),
        Rule::ObsoleteTable => obsolete_table(image),
        Rule::Relocation => relocation(image),
        Rule::Thread => thread(image),
        Rule::CommandContent => command_content(image),
        Rule::SignatureMissing => signature_missing(image),
        Rule::SignatureExecutable => signature_executable(image),
        Rule::DirectoryRepeated => directory_repeated(image),
        Rule::SignatureSlack => signature_slack(image),
        Rule::SignatureHash => signature_hash(image),
        Rule::CommandKnown => command_known(image),
        Rule::CommandOnce => command_once(image),
        Rule::SegmentName => segment_name(image),
        Rule::SegmentPage => segment_page(image),
        Rule::SegmentProtection => segment_protection(image),
        Rule::BytesEncrypted => bytes_encrypted(image),
        Rule::NumberShift => number_shift(image),
        Rule::SectionName => section_name(image),
        Rule::SectionAlone => section_alone(image),
        Rule::EntryOne => entry_one(image),
        Rule::BindOnce => stream::bind_once(image),
        Rule::ExportEdge => export_edge(image),
        Rule::SymbolKind => symbol_kind(image),
        Rule::SymbolTotal => symbol_total(image),
        Rule::ExportSymbol => export_symbol(image),
        Rule::IndirectName => symbol::indirect_name(image),
        Rule::ImportLibrary => symbol::import_library(image),
        Rule::SignatureSlot => signature_slot(image),
        Rule::DirectoryAgree => directory_agree(image),
    }
}

// What is found, with no more of its structure than is in a file of this length, and with the place.
fn placed(found: Explanation, place: u64, len: u64) -> Explanation
    requires { place ≤ len }
    ensures place { HasPlace len place result.at.part }
    ensures same { result ≡ record found { at = record found.at { part = result.at.part } } }
{
    let part = found.at.part;
    let end = part.start.saturating_add(part.size).min(len).max(place);
    let start = part.start.min(place);
    let part = Part {
        start,
        size: end - start,
        ..part
    };
    Explanation {
        at: Spot { part, ..found.at },
        ..found
    }
}
