//! The rule of the entry of an image. (`mach-o/loader.h`: `entry_point_command`)

ghost use Rattle.std.specs.Prelude.{◌≡◌, ◌↔◌, IsTrue};
ghost use Rattle.macho_fields.specs.Image.{commands_of};
ghost use Rattle.macho_fields.specs.Segment.{base_of, IsExecutable, HasNoEntry, RunsAt};
ghost use Rattle.macho_fields.specs.declared.rule.Rule.{Rule};
ghost use Rattle.macho_image.specs.Single.{main_command_at};
ghost use Rattle.macho_rules.specs.Check.{KeptBefore, JudgesUpTo};

use macho_fields::header::vm_prot::VM_PROT_EXECUTE;
use macho_fields::{Break, Rule, Span};
use macho_image::{Image, MainCommand, Segment};

/// The entry is at a byte of the file, in memory that may be executed. `base` is the base address of
/// the image.
pub fn entry(image: &Image, base: Option<u64>) -> Result<(), Break>
    requires kept { KeptBefore image.now Rule.Entry }
    requires base { base ≡ base_of image.now (commands_of image.now) }
    ensures { JudgesUpTo image.now Rule.Entry result }
{
    let Some(main) = image.main_command() else {
        return Ok(());
    };
    if has_no_entry(image, base, main) {
        return Err(Break::at(Rule::Entry, main.place));
    }
    Ok(())
}

// Whether the image has no base, or no segment runs at the address that `main` names. No segment has an
// address past the last one.
fn has_no_entry(image: &Image, base: Option<u64>, main: MainCommand) -> bool
    requires kept { KeptBefore image.now Rule.Entry }
    requires base { base ≡ base_of image.now (commands_of image.now) }
    requires main { main ≡ main_command_at image.now main.place }
    ensures { IsTrue result ↔ HasNoEntry image.now (commands_of image.now) main.place }
{
    let Some(base) = base else {
        return true;
    };
    let Some(address) = base.checked_add(main.entryoff) else {
        return true;
    };
    !is_executable(image, address)
}

/// Whether a segment of the image has a byte of the file at the address, and may be executed at first.
/// (`segment_command_64.initprot`)
pub fn is_executable(image: &Image, address: u64) -> bool
    ensures { IsTrue result
        ↔ IsExecutable image.now (commands_of image.now) address }
{
    for segment in image.segments() {
        if runs_at(&segment, address) {
            return true;
        }
    }
    false
}

// Whether the segment supplies the address, with a byte of the file, and may be executed.
fn runs_at(segment: &Segment, address: u64) -> bool
    ensures { IsTrue result ↔ RunsAt segment.now.image address segment.now.place }
{
    let from_file = Span {
        start: segment.vmaddr(),
        len: segment.filesize(),
    };
    let may_run = segment.initprot() & u64::from(VM_PROT_EXECUTE) != 0;
    segment.memory().holds(address) && from_file.holds(address) && may_run
}
