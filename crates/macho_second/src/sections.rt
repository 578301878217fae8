//! The rules of the sections of an image, each with its own search.

ghost use Rattle.std.specs.Prelude.{◌≤◌, ◌↔◌, Bool, IsTrue};
ghost use Rattle.std.specs.Fn.{FnReturnsAt};
ghost use Rattle.macho_fields.specs.First.{rank};
ghost use Rattle.macho_fields.specs.declared.rule.Rule.{Rule};
ghost use Rattle.macho_image.specs.Segment.{SectionView};
ghost use Rattle.macho_rules.specs.Check.{KeptBefore, JudgesUpTo};
ghost use Rattle.macho_rules.specs.Survey.{BreaksSection, IsSectionRule};

use macho_fields::{Break, Rule};
use macho_image::{Image, Section};
use macho_rules::sections::{has_relocs_outside, is_misplaced, is_outside_memory};

// Decides the rules of sections, in their order.
pub(crate) fn judge_sections(image: &Image) -> Result<(), Break>
    requires { KeptBefore image.now Rule.SectionAddress }
    ensures { JudgesUpTo image.now Rule.SectionRelocs result }
{
    judge(image, Rule::SectionAddress, is_outside_memory)?;
    judge(image, Rule::SectionFile, is_misplaced)?;
    judge(image, Rule::SectionRelocs, has_relocs_outside)
}

// Decides one rule of sections, which `is_broken` decides for one section.
fn judge<F: Fn(&Section) -> bool>(image: &Image, rule: Rule, is_broken: F) -> Result<(), Break>
    requires late { rank Rule.SegmentAddress ≤ rank rule }
    requires sections { IsSectionRule image.now rule }
    requires kept { KeptBefore image.now rule }
    requires callable { F.IsAlwaysCallable is_broken }
    requires decides { (section : SectionView) → (broken : Bool)
        → FnReturnsAt F.Fn is_broken section broken → (IsTrue broken ↔ BreaksSection rule section) }
    ensures { JudgesUpTo image.now rule result }
{
    for section in image.sections() {
        if is_broken(&section) {
            return Err(Break::at(rule, section.place()));
        }
    }
    Ok(())
}
