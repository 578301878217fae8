//! The rules of the segments of an image, each with its own search. All pairs of segments are
//! compared.

ghost use Rattle.std.specs.Prelude.{◌≡◌, ◌≤◌, ◌↔◌, Bool, IsTrue};
ghost use Rattle.std.specs.Fn.{FnReturnsAt};
ghost use Rattle.macho_fields.specs.First.{rank};
ghost use Rattle.macho_fields.specs.Image.{commands_of};
ghost use Rattle.macho_fields.specs.Segment.{OverlapsEarlier};
ghost use Rattle.macho_fields.specs.declared.rule.Rule.{Rule};
ghost use Rattle.macho_image.specs.Segment.{SegmentView};
ghost use Rattle.macho_rules.specs.Check.{KeptBefore, JudgesUpTo};
ghost use Rattle.macho_rules.specs.Survey.{BreaksSegment, IsSegmentRule};

use macho_fields::{Break, Rule};
use macho_image::{Image, Segment};
use macho_rules::segments::{is_longer_in_file, passes_image, passes_last_address};

// Decides the rules of segments, in their order. The rules before them are unbroken in each opened
// image.
pub(crate) fn judge_segments(image: &Image) -> Result<(), Break>
    requires { KeptBefore image.now Rule.SegmentAddress }
    ensures { JudgesUpTo image.now Rule.SegmentOverlap result }
{
    judge(image, Rule::SegmentAddress, passes_last_address)?;
    judge(image, Rule::SegmentSize, is_longer_in_file)?;
    judge(image, Rule::SegmentFile, passes_image)?;
    judge(image, Rule::SegmentOverlap, |segment| {
        overlaps_earlier(image, segment)
    })
}

// Decides one rule of segments, which `is_broken` decides for one segment of the image.
fn judge<F: Fn(&Segment) -> bool>(image: &Image, rule: Rule, is_broken: F) -> Result<(), Break>
    requires late { rank Rule.SegmentAddress ≤ rank rule }
    requires segments { IsSegmentRule image.now rule }
    requires kept { KeptBefore image.now rule }
    requires callable { F.IsAlwaysCallable is_broken }
    requires decides { (segment : SegmentView) → segment.image ≡ image.now → (broken : Bool)
        → FnReturnsAt F.Fn is_broken segment broken → (IsTrue broken ↔ BreaksSegment rule segment) }
    ensures { JudgesUpTo image.now rule result }
{
    for segment in image.segments() {
        if is_broken(&segment) {
            return Err(Break::at(rule, segment.place()));
        }
    }
    Ok(())
}

// Whether the segment has an address in common with an earlier one. Each is compared with all earlier
// ones, which takes time in the order of n^2 for n segments.
fn overlaps_earlier(image: &Image, segment: &Segment) -> bool
    ensures { segment.now.image ≡ image.now → (IsTrue result
        ↔ OverlapsEarlier segment.now.image (commands_of segment.now.image) segment.now.place) }
{
    for earlier in image.segments() {
        if earlier.place() >= segment.place() {
            return false;
        }
        if earlier.memory().shares(&segment.memory()) {
            return true;
        }
    }
    false
}
