//! The unambiguous rules of a file and of an image, in their order.

ghost use Rattle.std.specs.Prelude.{None, OnOk, IfErr};
ghost use Rattle.macho_fields.specs.First.{rank};
ghost use Rattle.macho_fields.specs.FirstPlace.{IsLeastPlace};
ghost use Rattle.macho_fields.specs.Layers.{NothingBreaks, KeptBelow, Continues};
ghost use Rattle.macho_fields.specs.Rules.{BreaksImage as Breaks};
ghost use Rattle.macho_fields.specs.Universal.{IsUniversal};
ghost use Rattle.macho_fields.specs.declared.rule.Rule.{Rule};
ghost use Rattle.macho_linked.specs.Rules.{BreaksImage as BreaksLinked};
ghost use Rattle.macho_rules.specs.Check.{ContinuesWithMemory};
ghost use Rattle.macho_rules.specs.Verdict.{IsRefusalOf};
ghost use Rattle.macho_unambiguous.specs.Rules.{BreaksFile, BreaksImage};
ghost use Rattle.macho_unambiguous.specs.Verdict.{TakesMemory};

use crate::profile::Unambiguous;
use macho_alike::export_symbol::export_symbol;
use macho_alike::symbol_total::symbol_total;
use macho_alike::{bind_once, export_edge, import_library, indirect_name, symbol_kind};
use macho_fields::{Break, Rule};
use macho_identity::directory_agree::directory_agree;
use macho_identity::signature_slot::signature_slot;
use macho_image::Image;
use macho_readers::commands::{bytes_encrypted, command_known};
use macho_readers::entry::entry_one;
use macho_readers::files::{fat_count, fat_header};
use macho_readers::once::command_once;
use macho_readers::order::number_shift;
use macho_readers::section_alone::section_alone;
use macho_readers::sections::section_name;
use macho_readers::segments::{segment_name, segment_page, segment_protection};
use macho_readers::slice_pages::fat_page;
use macho_rules::{ProfileRules, Refusal, Verified};
use std::alloc::Global;

// Decides the rules of the file itself, in their order. It returns the first broken one, with its place in the file.
pub(crate) fn check_file(alloc: Global, verified: &Verified) -> Result<(), Refusal>
    ensures unbroken { OnOk result (NothingBreaks (BreaksFile verified.now)) }
    ensures refused { IfErr result (IsRefusalOf (BreaksFile verified.now) (IsUniversal verified.now)) }
{
    judge_file(verified, Rule::FatCount, fat_count(verified.bytes()))?;
    judge_file(verified, Rule::FatHeader, fat_header(verified))?;
    let page = fat_page(alloc, verified)?;
    judge_file(verified, Rule::FatPage, page)?;
    Ok(())
}

// The answer of a rule of the file, by the least place at which the file breaks it, where all earlier ones are unbroken.
fn judge_file(verified: &Verified, rule: Rule, least: Option<u64>) -> Result<(), Break>
    requires kept { KeptBelow (BreaksFile verified.now) (rank rule) }
    requires least { IsLeastPlace (BreaksFile verified.now rule) least }
    ensures { Continues (BreaksFile verified.now) rule result }
{
    let _verified = verified;
    rule.judge(least)
}

// Decides the rules of an image that breaks no rule of the layout and no linked rule, in their order. It returns the first
// broken one, with its place in the image.
pub(crate) fn check_image(alloc: Global, image: &Image) -> Result<(), Refusal>
    requires layout { NothingBreaks (Breaks image.now None) }
    requires linked { NothingBreaks (BreaksLinked image.now) }
    ensures unbroken { OnOk result (NothingBreaks (BreaksImage image.now)) }
    ensures refused { IfErr result (IsRefusalOf (BreaksImage image.now) (TakesMemory image.now)) }
{
    check_commands(alloc, image)?;
    check_segments(alloc, image)?;
    check_sections(alloc, image)?;
    Unambiguous::judge(image, Rule::EntryOne, entry_one(image))?;
    check_names(alloc, image)?;
    check_signature(image)?;
    Ok(())
}

// The rules that say which commands there may be.
fn check_commands(alloc: Global, image: &Image) -> Result<(), Refusal>
    ensures { ContinuesWithMemory (BreaksImage image.now) Rule.CommandOnce (TakesMemory image.now) result }
{
    Unambiguous::judge(image, Rule::CommandKnown, command_known(image))?;
    let repeated = command_once(alloc, image)?;
    Unambiguous::judge(image, Rule::CommandOnce, repeated)?;
    Ok(())
}

// The rules of segments, of encryption and of the order of segments and libraries.
fn check_segments(alloc: Global, image: &Image) -> Result<(), Refusal>
    requires layout { NothingBreaks (Breaks image.now None) }
    requires kept { KeptBelow (BreaksImage image.now) (rank Rule.SegmentName) }
    ensures { ContinuesWithMemory (BreaksImage image.now) Rule.NumberShift (TakesMemory image.now) result }
{
    let name = segment_name(alloc, image)?;
    Unambiguous::judge(image, Rule::SegmentName, name)?;
    Unambiguous::judge(image, Rule::SegmentPage, segment_page(image))?;
    Unambiguous::judge(image, Rule::SegmentProtection, segment_protection(image))?;
    Unambiguous::judge(image, Rule::BytesEncrypted, bytes_encrypted(image))?;
    Unambiguous::judge(image, Rule::NumberShift, number_shift(image))?;
    Ok(())
}

// The rules of sections.
fn check_sections(alloc: Global, image: &Image) -> Result<(), Refusal>
    requires layout { NothingBreaks (Breaks image.now None) }
    requires kept { KeptBelow (BreaksImage image.now) (rank Rule.SectionName) }
    ensures { ContinuesWithMemory (BreaksImage image.now) Rule.SectionAlone (TakesMemory image.now) result }
{
    let name = section_name(alloc, image)?;
    Unambiguous::judge(image, Rule::SectionName, name)?;
    let alone = section_alone(alloc, image)?;
    Unambiguous::judge(image, Rule::SectionAlone, alone)?;
    Ok(())
}

// The rules of binds, exports and symbols.
fn check_names(alloc: Global, image: &Image) -> Result<(), Refusal>
    requires layout { NothingBreaks (Breaks image.now None) }
    requires linked { NothingBreaks (BreaksLinked image.now) }
    requires kept { KeptBelow (BreaksImage image.now) (rank Rule.BindOnce) }
    ensures { ContinuesWithMemory (BreaksImage image.now) Rule.ImportLibrary (TakesMemory image.now) result }
{
    let bind = bind_once(alloc, image)?;
    Unambiguous::judge(image, Rule::BindOnce, bind)?;
    let edge = export_edge(alloc, image)?;
    Unambiguous::judge(image, Rule::ExportEdge, edge)?;
    Unambiguous::judge(image, Rule::SymbolKind, symbol_kind(image))?;
    Unambiguous::judge(image, Rule::SymbolTotal, symbol_total(image))?;
    let symbol = export_symbol(alloc, image)?;
    Unambiguous::judge(image, Rule::ExportSymbol, symbol)?;
    let indirect = indirect_name(alloc, image)?;
    Unambiguous::judge(image, Rule::IndirectName, indirect)?;
    let library = import_library(alloc, image)?;
    Unambiguous::judge(image, Rule::ImportLibrary, library)?;
    Ok(())
}

// The rules of the code signature.
fn check_signature(image: &Image) -> Result<(), Break>
    requires layout { NothingBreaks (Breaks image.now None) }
    requires linked { NothingBreaks (BreaksLinked image.now) }
    requires kept { KeptBelow (BreaksImage image.now) (rank Rule.SignatureSlot) }
    ensures { Continues (BreaksImage image.now) Rule.DirectoryAgree result }
{
    Unambiguous::judge(image, Rule::SignatureSlot, signature_slot(image))?;
    Unambiguous::judge(image, Rule::DirectoryAgree, directory_agree(image))?;
    Ok(())
}
