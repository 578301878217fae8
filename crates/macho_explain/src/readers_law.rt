//! What follows from the definitions alone: where a rule of the unambiguous profile is broken, there is what the rule is
//! about.

ghost use Rattle.std.specs.Prelude.{ℕ};
ghost use Rattle.macho_fields.specs.declared.rule.Rule.{Rule};
ghost use Rattle.macho_alike.specs.Binds.{BreaksBindOnce};
ghost use Rattle.macho_alike.specs.Definitions.{BreaksDefinition};
ghost use Rattle.macho_alike.specs.ExportSymbols.{BreaksExportSymbol};
ghost use Rattle.macho_alike.specs.Exports.{BreaksExportEdge};
ghost use Rattle.macho_alike.specs.Imports.{BreaksImportLibrary};
ghost use Rattle.macho_alike.specs.Indirects.{BreaksIndirectName};
ghost use Rattle.macho_alike.specs.SymbolTotal.{BreaksSymbolTotal};
ghost use Rattle.macho_alike.specs.Symbols.{BreaksSymbolKind};
ghost use Rattle.macho_identity.specs.DirectoryAgree.{BreaksDirectoryAgree};
ghost use Rattle.macho_identity.specs.SignatureSlot.{BreaksSignatureSlot};
ghost use Rattle.macho_readers.specs.Commands.{BreaksBytesEncrypted, BreaksCommandKnown, BreaksCommandOnce};
ghost use Rattle.macho_readers.specs.Entry.{BreaksEntryOne};
ghost use Rattle.macho_readers.specs.Files.{BreaksFatCount, BreaksFatHeader, BreaksFatPage};
ghost use Rattle.macho_readers.specs.Order.{BreaksNumberShift};
ghost use Rattle.macho_readers.specs.Sections.{BreaksSectionAlone, BreaksSectionName};
ghost use Rattle.macho_readers.specs.Segments.{BreaksSegmentName, BreaksSegmentPage, BreaksSegmentProtection};
ghost use Rattle.macho_signature.specs.Signature.{BreaksSignatureBlob};
ghost use Rattle.macho_explain.specs.Linked.{AreThere, AreThereInFile};

/// A file that breaks no rule of the layout, and breaks one of these rules at a place, has there what the rule is about.
pub fn broken_slice_rule_is_about(file: &[u8])
    ensures fat_count { AreThereInFile file.now BreaksFatCount Rule.FatCount }
    ensures fat_header { AreThereInFile file.now BreaksFatHeader Rule.FatHeader }
    ensures fat_page { AreThereInFile file.now BreaksFatPage Rule.FatPage }
{}

/// The same of an image, and of the rules of commands.
pub fn broken_command_rule_is_about(image: &[u8])
    ensures command_known { AreThere image.now BreaksCommandKnown Rule.CommandKnown }
    ensures command_once { AreThere image.now BreaksCommandOnce Rule.CommandOnce }
    ensures bytes_encrypted { AreThere image.now BreaksBytesEncrypted Rule.BytesEncrypted }
    ensures number_shift { AreThere image.now BreaksNumberShift Rule.NumberShift }
    ensures entry_one { AreThere image.now BreaksEntryOne Rule.EntryOne }
{}

/// The same of the rules of segments and sections.
pub fn broken_segment_rule_is_about(image: &[u8])
    ensures segment_name { AreThere image.now BreaksSegmentName Rule.SegmentName }
    ensures segment_page { AreThere image.now BreaksSegmentPage Rule.SegmentPage }
    ensures segment_protection { AreThere image.now BreaksSegmentProtection Rule.SegmentProtection }
    ensures section_name { AreThere image.now BreaksSectionName Rule.SectionName }
    ensures section_alone { AreThere image.now BreaksSectionAlone Rule.SectionAlone }
{}

/// The same of the rules of binds, exports and symbols.
pub fn broken_name_rule_is_about(image: &[u8])
    ensures bind_once { AreThere image.now BreaksBindOnce Rule.BindOnce }
    ensures export_edge { AreThere image.now BreaksExportEdge Rule.ExportEdge }
    ensures symbol_kind { AreThere image.now BreaksSymbolKind Rule.SymbolKind }
    ensures definition { AreThere image.now BreaksDefinition Rule.ExportSymbol }
{}

/// The same of the rules of what symbols, exports and binds say of one name.
pub fn broken_symbol_rule_is_about(image: &[u8])
    ensures symbol_total { AreThere image.now BreaksSymbolTotal Rule.SymbolTotal }
    ensures export_symbol { AreThere image.now BreaksExportSymbol Rule.ExportSymbol }
    ensures indirect_name { AreThere image.now BreaksIndirectName Rule.IndirectName }
    ensures import_library { AreThere image.now BreaksImportLibrary Rule.ImportLibrary }
{}

/// The same of the rules of what a code signature says, if no blob of the signature is misplaced.
pub fn broken_signature_rule_is_about(image: &[u8])
    requires { (place : ℕ) → ¬ BreaksSignatureBlob image.now place }
    ensures signature_slot { AreThere image.now BreaksSignatureSlot Rule.SignatureSlot }
    ensures directory_agree { AreThere image.now BreaksDirectoryAgree Rule.DirectoryAgree }
{}
