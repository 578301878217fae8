//! What follows from the definitions alone: where a rule of linked data is broken, there is what the rule is about.

ghost use Rattle.macho_fields.specs.declared.rule.Rule.{Rule};
ghost use Rattle.macho_chains.specs.Chains.{BadImports, BadStarts, InChains, UnknownLibrary};
ghost use Rattle.macho_opcodes.specs.Images.{InBinds, InRebases, NoLibrary, NoName, NoSlot, TooLong, TooMany, Undecoded};
ghost use Rattle.macho_seals.specs.Signature.{BreaksSignatureSlack};
ghost use Rattle.macho_signature.specs.Signature.{BreaksSignatureDirectory, BreaksSignatureWhole};
ghost use Rattle.macho_symbols.specs.Relocations.{BreaksRelocation};
ghost use Rattle.macho_symbols.specs.Symbols.{BreaksSymbolIndirect, BreaksSymbolLibrary, BreaksSymbolValue};
ghost use Rattle.macho_tables.specs.DataInCode.{BreaksDataInCode};
ghost use Rattle.macho_tables.specs.InitOffsets.{BreaksInitOffset};
ghost use Rattle.macho_tables.specs.StartNumbers.{BreaksFunctionNumber, BreaksFunctionStart};
ghost use Rattle.macho_explain.specs.Linked.{AreThere};

/// An image that breaks no rule of the layout, and breaks one of these rules at a place, has there what the rule is
/// about.
pub fn broken_linked_rule_is_about(image: &[u8])
    ensures function_number { AreThere image.now BreaksFunctionNumber Rule.FunctionNumber }
    ensures function_start { AreThere image.now BreaksFunctionStart Rule.FunctionStart }
    ensures data_in_code { AreThere image.now BreaksDataInCode Rule.DataInCode }
    ensures signature_slack { AreThere image.now BreaksSignatureSlack Rule.SignatureSlack }
{}

/// The same of the rules of the streams of opcodes.
pub fn broken_opcode_rule_is_about(image: &[u8])
    ensures rebase_opcode { AreThere image.now (λ i. InRebases i Undecoded) Rule.RebaseOpcode }
    ensures rebase_slot { AreThere image.now (λ i. InRebases i NoSlot) Rule.RebaseSlot }
    ensures rebase_total { AreThere image.now (λ i. InRebases i TooMany) Rule.RebaseTotal }
    ensures bind_opcode { AreThere image.now (λ i. InBinds i Undecoded) Rule.BindOpcode }
    ensures bind_library { AreThere image.now (λ i. InBinds i NoLibrary) Rule.BindLibrary }
    ensures bind_symbol { AreThere image.now (λ i. InBinds i NoName) Rule.BindSymbol }
    ensures bind_slot { AreThere image.now (λ i. InBinds i NoSlot) Rule.BindSlot }
    ensures bind_total { AreThere image.now (λ i. InBinds i TooMany) Rule.BindTotal }
    ensures bind_names { AreThere image.now (λ i. InBinds i TooLong) Rule.BindNames }
{}

/// The same of the rules of symbols, relocations and initializers.
pub fn broken_symbol_rule_is_about(image: &[u8])
    ensures symbol_library { AreThere image.now BreaksSymbolLibrary Rule.SymbolLibrary }
    ensures symbol_value { AreThere image.now BreaksSymbolValue Rule.SymbolValue }
    ensures symbol_indirect { AreThere image.now BreaksSymbolIndirect Rule.SymbolIndirect }
    ensures relocation { AreThere image.now BreaksRelocation Rule.Relocation }
    ensures init_offset { AreThere image.now BreaksInitOffset Rule.InitOffset }
{}

/// The same of rules of chained fixups and of code signatures.
pub fn broken_table_rule_is_about(image: &[u8])
    ensures chain_starts { AreThere image.now (λ i. InChains i BadStarts) Rule.ChainStarts }
    ensures chain_imports { AreThere image.now (λ i. InChains i BadImports) Rule.ChainImports }
    ensures chain_library { AreThere image.now (λ i. InChains i UnknownLibrary) Rule.ChainLibrary }
    ensures signature_directory { AreThere image.now BreaksSignatureDirectory Rule.SignatureDirectory }
    ensures signature_whole { AreThere image.now BreaksSignatureWhole Rule.SignatureWhole }
{}
