//! The linked rules of an image, in their order.

ghost use Rattle.std.specs.Prelude.{None, OnOk, IfErr};
ghost use Rattle.macho_fields.specs.First.{rank};
ghost use Rattle.macho_fields.specs.Layers.{NothingBreaks, KeptBelow, Continues};
ghost use Rattle.macho_fields.specs.Rules.{BreaksImage as Breaks};
ghost use Rattle.macho_fields.specs.declared.rule.Rule.{Rule};
ghost use Rattle.macho_exports.specs.Exports.{AreLeastInImage as AreLeastExports};
ghost use Rattle.macho_linked.specs.Rules.{BreaksImage};
ghost use Rattle.macho_linked.specs.Verdict.{TakesMemory};
ghost use Rattle.macho_rules.specs.Check.{ContinuesWithMemory};
ghost use Rattle.macho_rules.specs.Verdict.{IsRefusalOf};
ghost use Rattle.macho_strict.specs.Rules.{BreaksStrictImage};
ghost use Rattle.macho_symbols.specs.Symbols.{IsLeastOfImage as AreLeastSymbols};

use crate::profile::Linked;
use macho_chains::chain_pages::PointerSurvey;
use macho_chains::chains::{ChainSurvey, ChainedFixups};
use macho_commands::CommandSurvey;
use macho_exports::exports::ExportSurvey;
use macho_fields::{Break, Rule};
use macho_image::Image;
use macho_opcodes::streams::StreamSurveys;
use macho_rules::{ProfileRules, Refusal};
use macho_signature::SignatureSurvey;
use macho_symbols::{SymbolSurvey, indirect_range, obsolete_table, relocation};
use macho_tables::data_in_code::data_in_code;
use macho_tables::function_starts::FunctionStartSurvey;
use macho_tables::homes::{header_home, table_home};
use macho_tables::init_offsets::init_offset;
use macho_tables::kinds::{function_variants, table_repeated};
use std::alloc::Global;

// Decides the linked rules of an image that breaks no rule of the layout and no strict rule, in their order. It
// returns the first broken one, with its place in the image.
//
// No group of rules is inlined, so that the call takes the stack of one group at a time.
pub(crate) fn check_image(alloc: Global, image: &Image) -> Result<(), Refusal>
    requires layout { NothingBreaks (Breaks image.now None) }
    requires strictly { NothingBreaks (BreaksStrictImage image.now) }
    ensures unbroken { OnOk result (NothingBreaks (BreaksImage image.now)) }
    ensures refused { IfErr result (IsRefusalOf (BreaksImage image.now) (TakesMemory image.now)) }
{
    check_fixups(image)?;
    check_exports(alloc, image)?;
    check_functions(alloc, image)?;
    check_signature(image)?;
    check_symbols(alloc, image)?;
    check_commands(image)?;
    Ok(())
}

// The rules of tables, of opcodes and of chained fixups.
#[inline(never)]
fn check_fixups(image: &Image) -> Result<(), Break>
    requires { NothingBreaks (Breaks image.now None) }
    ensures { Continues (BreaksImage image.now) Rule.ChainBind result }
{
    check_tables(image)?;
    check_opcodes(image)?;
    check_chains(image)
}

// The rules of repeated tables, and of the segments that back tables.
fn check_tables(image: &Image) -> Result<(), Break>
    requires { NothingBreaks (Breaks image.now None) }
    ensures { Continues (BreaksImage image.now) Rule.HeaderHome result }
{
    Linked::judge(image, Rule::TableRepeated, table_repeated(image))?;
    Linked::judge(image, Rule::FunctionVariants, function_variants(image))?;
    Linked::judge(image, Rule::TableHome, table_home(image))?;
    Linked::judge(image, Rule::HeaderHome, header_home(image))?;
    Ok(())
}

// The rules of the opcodes that rebase and bind.
fn check_opcodes(image: &Image) -> Result<(), Break>
    requires layout { NothingBreaks (Breaks image.now None) }
    requires kept { KeptBelow (BreaksImage image.now) (rank Rule.RebaseOpcode) }
    ensures { Continues (BreaksImage image.now) Rule.BindNames result }
{
    let StreamSurveys { rebases, binds } = StreamSurveys::of(image);
    Linked::judge(image, Rule::RebaseOpcode, rebases.opcode)?;
    Linked::judge(image, Rule::RebaseSlot, rebases.slot)?;
    Linked::judge(image, Rule::RebaseTotal, rebases.total)?;
    Linked::judge(image, Rule::BindOpcode, binds.opcode)?;
    Linked::judge(image, Rule::BindLibrary, binds.library)?;
    Linked::judge(image, Rule::BindSymbol, binds.symbol)?;
    Linked::judge(image, Rule::BindSlot, binds.slot)?;
    Linked::judge(image, Rule::BindTotal, binds.total)?;
    Linked::judge(image, Rule::BindNames, binds.names)?;
    Ok(())
}

// The rules of chained fixups.
fn check_chains(image: &Image) -> Result<(), Break>
    requires layout { NothingBreaks (Breaks image.now None) }
    requires kept { KeptBelow (BreaksImage image.now) (rank Rule.ChainHeader) }
    ensures { Continues (BreaksImage image.now) Rule.ChainBind result }
{
    let fixups = ChainedFixups::of(image);
    let chains = ChainSurvey::of(image, &fixups);
    Linked::judge(image, Rule::ChainHeader, chains.header)?;
    Linked::judge(image, Rule::ChainStarts, chains.starts)?;
    Linked::judge(image, Rule::ChainImports, chains.imports)?;
    Linked::judge(image, Rule::ChainTotal, chains.total)?;
    Linked::judge(image, Rule::ChainLibrary, chains.library)?;
    let pointers = PointerSurvey::of(image, &fixups);
    Linked::judge(image, Rule::ChainSlot, pointers.slot)?;
    Linked::judge(image, Rule::ChainBind, pointers.bind)?;
    Ok(())
}

// The rules of exports.
#[inline(never)]
fn check_exports(alloc: Global, image: &Image) -> Result<(), Refusal>
    requires layout { NothingBreaks (Breaks image.now None) }
    requires kept { KeptBelow (BreaksImage image.now) (rank Rule.ExportNode) }
    ensures { ContinuesWithMemory (BreaksImage image.now) Rule.ExportAddress (TakesMemory image.now) result }
{
    let exports = ExportSurvey::of(alloc, image)?;
    judge_exports(image, exports)?;
    Ok(())
}

// Those rules, by where they are first broken.
fn judge_exports(image: &Image, exports: ExportSurvey) -> Result<(), Break>
    requires kept { KeptBelow (BreaksImage image.now) (rank Rule.ExportNode) }
    requires exports { AreLeastExports image.now exports }
    ensures { Continues (BreaksImage image.now) Rule.ExportAddress result }
{
    Linked::judge(image, Rule::ExportNode, exports.node)?;
    Linked::judge(image, Rule::ExportTotal, exports.total)?;
    Linked::judge(image, Rule::ExportTerminal, exports.terminal)?;
    Linked::judge(image, Rule::ExportLibrary, exports.library)?;
    Linked::judge(image, Rule::ExportAddress, exports.address)?;
    Ok(())
}

// The rules of functions, of data in code and of initializers.
#[inline(never)]
fn check_functions(alloc: Global, image: &Image) -> Result<(), Refusal>
    requires layout { NothingBreaks (Breaks image.now None) }
    requires strictly { NothingBreaks (BreaksStrictImage image.now) }
    requires kept { KeptBelow (BreaksImage image.now) (rank Rule.FunctionNumber) }
    ensures { ContinuesWithMemory (BreaksImage image.now) Rule.InitOffset (TakesMemory image.now) result }
{
    let functions = FunctionStartSurvey::of(alloc, image)?;
    Linked::judge(image, Rule::FunctionNumber, functions.number)?;
    Linked::judge(image, Rule::FunctionStart, functions.start)?;
    Linked::judge(image, Rule::DataInCode, data_in_code(alloc, image)?)?;
    Linked::judge(image, Rule::InitOffset, init_offset(alloc, image)?)?;
    Ok(())
}

// The rules of code signatures.
#[inline(never)]
fn check_signature(image: &Image) -> Result<(), Break>
    requires layout { NothingBreaks (Breaks image.now None) }
    requires kept { KeptBelow (BreaksImage image.now) (rank Rule.SignatureBlob) }
    ensures { Continues (BreaksImage image.now) Rule.SignatureWhole result }
{
    let signature = SignatureSurvey::of(image);
    Linked::judge(image, Rule::SignatureBlob, signature.blob)?;
    Linked::judge(image, Rule::SignatureDirectory, signature.directory)?;
    Linked::judge(image, Rule::SignatureWhole, signature.whole)?;
    Ok(())
}

// The rules of symbols and of relocations.
#[inline(never)]
fn check_symbols(alloc: Global, image: &Image) -> Result<(), Refusal>
    requires layout { NothingBreaks (Breaks image.now None) }
    requires kept { KeptBelow (BreaksImage image.now) (rank Rule.SymbolLibrary) }
    ensures { ContinuesWithMemory (BreaksImage image.now) Rule.Relocation (TakesMemory image.now) result }
{
    let symbols = SymbolSurvey::of(alloc, image)?;
    judge_symbols(image, symbols)?;
    Ok(())
}

// These rules, by where the rules of symbols are first broken.
fn judge_symbols(image: &Image, symbols: SymbolSurvey) -> Result<(), Break>
    requires layout { NothingBreaks (Breaks image.now None) }
    requires kept { KeptBelow (BreaksImage image.now) (rank Rule.SymbolLibrary) }
    requires symbols { AreLeastSymbols image.now symbols }
    ensures { Continues (BreaksImage image.now) Rule.Relocation result }
{
    Linked::judge(image, Rule::SymbolLibrary, symbols.library)?;
    Linked::judge(image, Rule::SymbolValue, symbols.value)?;
    Linked::judge(image, Rule::SymbolIndirect, symbols.indirect)?;
    Linked::judge(image, Rule::IndirectRange, indirect_range(image))?;
    Linked::judge(image, Rule::ObsoleteTable, obsolete_table(image))?;
    Linked::judge(image, Rule::Relocation, relocation(image))?;
    Ok(())
}

// The rules of threads, and of what other commands hold.
#[inline(never)]
fn check_commands(image: &Image) -> Result<(), Break>
    requires layout { NothingBreaks (Breaks image.now None) }
    requires kept { KeptBelow (BreaksImage image.now) (rank Rule.Thread) }
    ensures { Continues (BreaksImage image.now) Rule.CommandContent result }
{
    let commands = CommandSurvey::of(image);
    Linked::judge(image, Rule::Thread, commands.thread)?;
    Linked::judge(image, Rule::CommandContent, commands.content)?;
    Ok(())
}
