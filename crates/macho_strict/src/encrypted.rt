//! The rule of the encrypted range. (`mach-o/loader.h`: `encryption_info_command_64`)

ghost use Rattle.std.specs.Prelude.{◌≡◌, ◌↔◌, MatchOption, IsPermutation, IsTrue};
ghost use Rattle.macho_fields.specs.Bytes.{bytes_of};
ghost use Rattle.macho_fields.specs.FirstPlace.{IsLeastPlace};
ghost use Rattle.macho_fields.specs.Layers.{KeptBelow};
ghost use Rattle.macho_fields.specs.RuleList.{rank};
ghost use Rattle.macho_fields.specs.declared.rule.Rule.{Rule};
ghost use Rattle.macho_image.specs.Command.{command_of};
ghost use Rattle.macho_image.specs.Opened.{IsCommandOf};
ghost use Rattle.macho_rules.specs.Check.{ContinuesWithMemory};
ghost use Rattle.macho_strict.specs.Encrypted.{IsEncrypted, encrypted_span};
ghost use Rattle.macho_strict.specs.FileParts.{IsFilePartSurveyOf};
ghost use Rattle.macho_strict.specs.Passed.{occupied};
ghost use Rattle.macho_strict.specs.Rules.{BreaksStrictImage};
ghost use Rattle.macho_strict.specs.Verdict.{file_parts, HasEncrypted};

use crate::disjoint::Disjoint;
use crate::segments::FilePartSurvey;
use macho_fields::header::loader::LC_ENCRYPTION_INFO_64;
use macho_fields::header::loader::encryption_info_command_64::{CRYPTOFF, CRYPTSIZE};
use macho_fields::{Bytes, Order, Rule, Span};
use macho_image::{Command, Image};
use macho_rules::Refusal;
use std::alloc::Global;

// What is encrypted is bytes of one segment, past the headers.
//
// It takes memory only if something is encrypted, and the file parts were not sorted: 24 bytes for each.
pub(crate) fn encrypted_range(
    alloc: Global,
    image: &Image,
    survey: FilePartSurvey,
    encrypted: bool,
) -> Result<(), Refusal>
    requires survey { IsFilePartSurveyOf image.now survey }
    requires has { IsTrue encrypted ↔ HasEncrypted image.now }
    requires kept { KeptBelow (BreaksStrictImage image.now) (rank Rule.EncryptedRange) }
    ensures { ContinuesWithMemory (BreaksStrictImage image.now) Rule.EncryptedRange
        (HasEncrypted image.now) result }
{
    if !encrypted {
        return Ok(());
    }
    let parts = survey.parts(alloc, image)?;
    Rule::EncryptedRange.judge(first_misplaced(image, &parts))?;
    Ok(())
}

// The place of the first command whose encrypted range begins in the headers, or is not bytes of one
// segment.
fn first_misplaced(image: &Image, parts: &Disjoint) -> Option<u64>
    requires { IsPermutation (occupied (file_parts image.now)) parts.now }
    ensures { IsLeastPlace (BreaksStrictImage image.now Rule.EncryptedRange) result }
{
    let bytes = image.bytes();
    let commands_end = image.commands_end();
    for command in image.commands() {
        if let Some(range) = encrypted(bytes, &command)
            && (range.start < commands_end || !parts.has_range(range))
        {
            return Some(command.place);
        }
    }
    None
}

// The encrypted range of the command, or `None` if it has none.
pub(crate) fn encrypted(image: Bytes, command: &Command) -> Option<Span>
    requires { IsCommandOf (bytes_of image) (command_of command.now) }
    ensures { MatchOption result (¬ IsEncrypted (bytes_of image.entry) (command_of command.now))
        (λ range. IsEncrypted (bytes_of image.entry) (command_of command.now)
        × (range ≡ encrypted_span (bytes_of image.entry) command.now.place)) }
{
    if command.cmd != LC_ENCRYPTION_INFO_64 {
        return None;
    }
    let start = u64::from(image.read_u32(Order::Little, command.place + CRYPTOFF));
    let len = u64::from(image.read_u32(Order::Little, command.place + CRYPTSIZE));
    if len == 0 {
        return None;
    }
    Some(Span { start, len })
}
