//! What follows from the definitions alone: under each rule the readers that it is about give one answer. Each law is the
//! contract of a function that does nothing when it is called: the premises are its `requires`, the conclusion its
//! `ensures`.

ghost use Rattle.std.specs.Prelude.{ℕ};
ghost use Rattle.macho_exports.specs.Exports.{BreaksExportNode, BreaksExportTotal};
ghost use Rattle.macho_tables.specs.Kinds.{BreaksTableRepeated};
ghost use Rattle.macho_alike.specs.BindModels.{HasOneBind, HasOneSlot, HasChainSlotsApart, HasOneKindOfFixups};
ghost use Rattle.macho_alike.specs.Binds.{BreaksBindOnce};
ghost use Rattle.macho_alike.specs.DefinitionModels.{AllDefinitionsAgree, HasOneMeaningOfName};
ghost use Rattle.macho_alike.specs.Definitions.{BreaksDefinition};
ghost use Rattle.macho_alike.specs.ExportModels.{HasOneExportOfName};
ghost use Rattle.macho_alike.specs.Exports.{BreaksExportEdge};
ghost use Rattle.macho_alike.specs.ImportModels.{HasOneLibrary};
ghost use Rattle.macho_alike.specs.Imports.{BreaksImportLibrary};
ghost use Rattle.macho_alike.specs.IndirectModels.{HasOneNameOfPointer};
ghost use Rattle.macho_alike.specs.Indirects.{BreaksIndirectName};
ghost use Rattle.macho_alike.specs.SymbolModels.{HasOneKind, HasSameGroups, HasOneName};
ghost use Rattle.macho_alike.specs.Symbols.{BreaksSymbolKind};
ghost use Rattle.macho_alike.specs.TrieModels.{HasOneOrigin};
ghost use Rattle.macho_alike.specs.TrieSymbols.{BreaksTrieSymbol};

/// All readers see one kind of a symbol. Those that trust the groups show the same symbols of a kind as those that trust
/// the types.
pub fn symbol_has_one_kind(image: &[u8])
    requires { (place : ℕ) → ¬ BreaksSymbolKind image.now place }
    ensures kind { HasOneKind image.now }
    ensures groups { HasSameGroups image.now }
{}

/// No reader shows a name of a symbol without one.
pub fn symbol_has_one_name(image: &[u8])
    requires { (place : ℕ) → ¬ BreaksSymbolKind image.now place }
    ensures { HasOneName image.now }
{}

/// All readers find one export with a name: in a list of all exports, whichever they take, or by a look-up.
pub fn name_has_one_export(image: &[u8])
    requires node { (place : ℕ) → ¬ BreaksExportNode image.now place }
    requires total { (place : ℕ) → ¬ BreaksExportTotal image.now place }
    requires edge { (place : ℕ) → ¬ BreaksExportEdge image.now place }
    ensures { HasOneExportOfName image.now }
{}

/// All readers see one meaning of a name that the image defines: those that take its first definition, those that keep the
/// last, and any others.
pub fn name_has_one_meaning(image: &[u8])
    requires { (place : ℕ) → ¬ BreaksDefinition image.now place }
    ensures ends { HasOneMeaningOfName image.now }
    ensures all { AllDefinitionsAgree image.now }
{}

/// Where a look-up in the export trie finds an export of the image, all readers see one address of the name, and agree
/// that the image defines it, and whether weakly: those that look it up, and those that take an external symbol with
/// the name.
pub fn name_has_one_address(image: &[u8])
    requires { (place : ℕ) → ¬ BreaksTrieSymbol image.now place }
    ensures { HasOneOrigin image.now }
{}

/// All readers see one bind of a slot that opcodes bind: those that list all binds, and those that take the first or the
/// last. No byte is in two slots.
pub fn slot_has_one_bind(image: &[u8])
    requires { (place : ℕ) → ¬ BreaksBindOnce image.now place }
    ensures bind { HasOneBind image.now }
    ensures slot { HasOneSlot image.now }
{}

/// Pointers of chains share no byte, whatever the image is, so each slot has the one bind that its own bytes say.
pub fn chain_slot_has_one_pointer(image: &[u8])
    ensures { HasChainSlotsApart image.now }
{}

/// No image has opcodes and chains.
pub fn fixups_are_of_one_kind(image: &[u8])
    requires { (place : ℕ) → ¬ BreaksTableRepeated image.now place }
    ensures { HasOneKindOfFixups image.now }
{}

/// All readers see one library of an undefined symbol: those that trust the symbol, and those that take the library in
/// which fixups look its name up.
pub fn symbol_has_one_library(image: &[u8])
    requires { (place : ℕ) → ¬ BreaksImportLibrary image.now place }
    ensures { HasOneLibrary image.now }
{}

/// A bound pointer of a section has one name: loaders bind it to the name that disassemblers show, if they show one.
pub fn pointer_has_one_name(image: &[u8])
    requires { (place : ℕ) → ¬ BreaksIndirectName image.now place }
    ensures { HasOneNameOfPointer image.now }
{}
