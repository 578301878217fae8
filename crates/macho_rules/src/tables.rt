//! The rules of the tables that the commands of an image name, and of the groups of its symbols.
//! (`mach-o/loader.h`)

ghost use Rattle.std.specs.Prelude.{◌≡◌, ◌+◌, ◌≤◌, ◌↔◌, ℕ, List, length, IsTrue, Any, Contains};
ghost use Rattle.macho_fields.specs.Bytes.{bytes_of};
ghost use Rattle.macho_fields.specs.Image.{command_cmd, commands_of};
ghost use Rattle.macho_fields.specs.LoadCommands.{width_size};
ghost use Rattle.macho_fields.specs.Symbol.{table_at, tables_of, IsOutside};
ghost use Rattle.macho_fields.specs.Symbol.{groups_of, PassesSymbols};
ghost use Rattle.macho_fields.specs.declared.rule.Rule.{Rule};
ghost use Rattle.macho_image.specs.Opened.{IsOpened};
ghost use Rattle.macho_image.specs.Symbol.{dysymtab_at};
ghost use Rattle.macho_rules.specs.Check.{KeptBefore, JudgesUpTo};

use crate::symbols::symbol_count;
use macho_fields::{Break, Bytes, Rule, TableFields, structure_of};
use macho_image::{Dysymtab, Image};

/// Each table that a command names and that has items lies inside the image.
pub fn table_range(image: &Image) -> Result<(), Break>
    requires { KeptBefore image.now Rule.TableRange }
    ensures { JudgesUpTo image.now Rule.TableRange result }
{
    let bytes = image.bytes();
    for command in image.commands_with_tables() {
        if has_table_outside(bytes, command.cmd, command.place) {
            return Err(Break::at(Rule::TableRange, command.place));
        }
    }
    Ok(())
}

// Whether one of the tables that the command at the place `command` names, whose number is `cmd`,
// has items and ends past the image.
fn has_table_outside(image: Bytes, cmd: u32, command: u64) -> bool
    requires opened { IsOpened (bytes_of image) }
    requires listed { Contains (commands_of (bytes_of image)) command }
    requires cmd { cmd ≡ command_cmd (bytes_of image) command }
    ensures { IsTrue result
        ↔ Any (IsOutside (bytes_of image.entry)) (tables_of (bytes_of image.entry) command) }
{
    let Some(structure) = structure_of(cmd) else {
        return false;
    };
    for fields in structure.tables() {
        if is_outside(image, command, *fields) {
            return true;
        }
    }
    false
}

// Whether the table that these fields of the command bound has items and ends past the image.
fn is_outside(image: Bytes, command: u64, fields: TableFields) -> bool
    requires place { command + fields.place + width_size fields.width ≤ length (bytes_of image) }
    requires count { command + fields.count + width_size fields.width ≤ length (bytes_of image) }
    ensures { IsTrue result
        ↔ IsOutside (bytes_of image.entry) (table_at (bytes_of image.entry) command fields) }
{
    let start = fields.table_place(image, command);
    let count = fields.item_count(image, command);
    count > 0 && !image.contains_table(start, count, fields.item_size)
}

/// Each group of symbols that is not empty lies inside the symbol table.
pub fn symbol_group(image: &Image) -> Result<(), Break>
    requires { KeptBefore image.now Rule.SymbolGroup }
    ensures { JudgesUpTo image.now Rule.SymbolGroup result }
{
    let Some(dysymtab) = image.dysymtab() else {
        return Ok(());
    };
    if has_group_past(dysymtab, symbol_count(image)) {
        return Err(Break::at(Rule::SymbolGroup, dysymtab.place));
    }
    Ok(())
}

// Whether one of the three groups ends past `count` symbols.
fn has_group_past(dysymtab: Dysymtab, count: u64) -> bool
    ensures { (image : List ℕ) → dysymtab ≡ dysymtab_at image dysymtab.place
        → (IsTrue result ↔ Any (PassesSymbols count) (groups_of image dysymtab.place)) }
{
    is_past(dysymtab.ilocalsym, dysymtab.nlocalsym, count)
        || is_past(dysymtab.iextdefsym, dysymtab.nextdefsym, count)
        || is_past(dysymtab.iundefsym, dysymtab.nundefsym, count)
}

// Whether the group of `number` symbols from the index `first` on ends past `count` symbols.
fn is_past(first: u64, number: u64, count: u64) -> bool
    ensures { IsTrue result ↔ PassesSymbols count (first, number) }
{
    number > 0 && u128::from(first) + u128::from(number) > u128::from(count)
}
