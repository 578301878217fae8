//! The rules of an opened image, in their order.

ghost use Rattle.std.specs.Prelude.{OnOk, IfErr, None};
ghost use Rattle.macho_fields.specs.Rules.{BreaksImage};
ghost use Rattle.macho_fields.specs.Layers.{NothingBreaks};
ghost use Rattle.macho_rules.specs.Verdict.{IsImageRefusal};

use crate::entry::entry;
use crate::refusal::Refusal;
use crate::segments::segment_overlap;
use crate::survey::SegmentSurvey;
use crate::symbols::{SymbolSurvey, indirect_index};
use crate::tables::{symbol_group, table_range};
use macho_image::Image;
use std::alloc::Global;

/// Decides the rules of an opened image, in their order: the rules of its segments, its sections, its
/// tables, its symbols and its entry. It returns the first broken one, with its place in the image.
///
/// One walk over the segments and their sections, and one over the symbols, note where each of their
/// rules is first broken. The lines below read what they noted.
///
/// `Memory` is returned only if the rules up to `segment-file` are kept, and the addresses of the
/// mapped segments neither ascend nor descend in the order of the commands. It takes memory for
/// `segment-overlap` alone, and only there: 24 bytes for each mapped segment.
pub fn check_image(alloc: Global, image: &Image) -> Result<(), Refusal>
    ensures unbroken { OnOk result (NothingBreaks (BreaksImage image.now None)) }
    ensures refused { IfErr result (IsImageRefusal image.now None) }
{
    let survey = SegmentSurvey::of(image);
    survey.judge_segments()?;
    segment_overlap(alloc, image, &survey)?;
    survey.judge_sections()?;
    table_range(image)?;
    symbol_group(image)?;
    let symbols = SymbolSurvey::of(image, survey.section_count());
    symbols.judge()?;
    indirect_index(image)?;
    entry(image, survey.base())?;
    Ok(())
}
