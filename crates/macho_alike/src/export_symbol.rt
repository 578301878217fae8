//! The rule of the external symbols whose name is also of another definition, or of an export. (`mach-o/nlist.h`:
//! `nlist_64`; `mach-o/loader.h`: `symtab_command`, `LC_DYLD_EXPORTS_TRIE`)

ghost use Rattle.std.specs.Prelude.{◌≡◌, ℕ, None, IfOk, OnErr};
ghost use Rattle.macho_fields.specs.FirstPlace.{IsLeastPlace};
ghost use Rattle.macho_fields.specs.Layers.{NothingBreaks};
ghost use Rattle.macho_fields.specs.Rules.{BreaksImage as Breaks};
ghost use Rattle.macho_exports.specs.Exports.{BreaksExportNode, BreaksExportTotal};
ghost use Rattle.macho_alike.specs.Exports.{BreaksExportEdge};
ghost use Rattle.macho_alike.specs.ExportSymbols.{BreaksExportSymbol, HasSymbolsOrExports};

use crate::definitions::definition_among;
use crate::names::names_of;
use crate::trie::unlike_trie;
use macho_image::Image;
use macho_tables::place::lesser;
use std::alloc::{AllocError, Global};

/// The least place of an external symbol that says something else of its name than an earlier definition, or than an
/// export of the image. The image breaks no rule of the layout, its export trie none of the rules for its nodes, and no
/// labels of the trie clash.
///
/// A definition says something else by another value, another kind, or another weakness. An export of the image is
/// neither absolute nor a symbol of another library, and has no resolver. A symbol says something else than an export
/// where it is undefined, stands for another name (`N_INDR`), has another address, or is weak and the export is not, or
/// the reverse.
///
/// For n names it takes time in the order of their bytes and of the bytes of the trie, times log n. It takes memory if
/// the image has a symbol table or an export trie.
pub fn export_symbol(alloc: Global, image: &Image) -> Result<Option<u64>, AllocError>
    requires unbroken { NothingBreaks (Breaks image.now None) }
    requires node { (place : ℕ) → ¬ BreaksExportNode image.now place }
    requires total { (place : ℕ) → ¬ BreaksExportTotal image.now place }
    requires edge { (place : ℕ) → ¬ BreaksExportEdge image.now place }
    ensures least { IfOk result (IsLeastPlace (BreaksExportSymbol image.now)) }
    ensures memory { OnErr result (HasSymbolsOrExports image.now) }
{
    let names = names_of(alloc, image)?;
    let defined = definition_among(image, &names);
    let exported = unlike_trie(alloc, image, &names)?;
    Ok(lesser(defined, exported))
}
