//! The strict rules of an image, in their order.

ghost use Rattle.std.specs.Prelude.{OnOk, IfErr, None};
ghost use Rattle.macho_fields.specs.Rules.{BreaksImage as Breaks};
ghost use Rattle.macho_fields.specs.Image.{commands_of, IsChain};
ghost use Rattle.macho_fields.specs.Layers.{NothingBreaks, Continues};
ghost use Rattle.macho_rules.specs.Verdict.{IsRefusalOf};
ghost use Rattle.macho_strict.specs.Rules.{BreaksStrictImage};
ghost use Rattle.macho_strict.specs.Verdict.{TakesMemory};
ghost use Rattle.macho_fields.specs.declared.rule.Rule.{Rule};

use crate::claims::Claims;
use crate::commands::NotedCommands;
use crate::encrypted::encrypted_range;
use crate::segments::{FilePartSurvey, header_segment};
use crate::unclaimed::unclaimed_byte;
use macho_fields::header::loader::mach_header_64::SIZEOFCMDS;
use macho_fields::{Break, Rule};
use macho_image::Image;
use macho_rules::Refusal;
use std::alloc::Global;

// Decides the strict rules of an image that breaks no other rule, in their order. It returns the first
// broken one, with its place in the image.
pub(crate) fn check_image(alloc: Global, image: &Image) -> Result<(), Refusal>
    requires { NothingBreaks (Breaks image.now None) }
    ensures unbroken { OnOk result (NothingBreaks (BreaksStrictImage image.now)) }
    ensures refused { IfErr result (IsRefusalOf (BreaksStrictImage image.now) (TakesMemory image.now)) }
{
    let noted = NotedCommands::of(alloc, image);
    commands_end(image, noted.end)?;
    header_segment(image)?;
    let survey = FilePartSurvey::of(alloc, image)?;
    survey.segment_file_overlap(alloc, image)?;
    let claims = Claims::of(alloc, image, noted.elements)?;
    Rule::ElementOverlap.judge(claims.broken)?;
    Rule::StrayByte.judge(survey.stray)?;
    let parts = survey.count;
    encrypted_range(alloc, image, survey, noted.encrypted)?;
    Rule::CommandSlack.judge(noted.slack)?;
    unclaimed_byte(alloc, image, &claims, parts)?;
    Ok(())
}

// The rule `commands-end`: the commands end where the header says that they end. The last one ends at
// `end`.
fn commands_end(image: &Image, end: u64) -> Result<(), Break>
    requires { IsChain image.now (commands_of image.now) end }
    ensures { Continues (BreaksStrictImage image.now) Rule.CommandsEnd result }
{
    if end != image.commands_end() {
        return Err(Break::at(Rule::CommandsEnd, SIZEOFCMDS));
    }
    Ok(())
}
