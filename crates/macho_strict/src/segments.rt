//! The strict rules of segments. (`mach-o/loader.h`: `segment_command_64`)

ghost use Rattle.std.specs.Prelude.{◌≡◌, ◌↔◌, ℕ, Any, IsPermutation, IsTrue, IfOk, OnErr};
ghost use Rattle.macho_fields.specs.Image.{commands_end as commands_end_of};
ghost use Rattle.macho_fields.specs.Layers.{KeptBelow, Continues};
ghost use Rattle.macho_fields.specs.RuleList.{rank};
ghost use Rattle.macho_fields.specs.declared.rule.Rule.{Rule};
ghost use Rattle.macho_strict.specs.Rules.{BreaksStrictImage, HoldsHeaders, all_segments};
ghost use Rattle.macho_strict.specs.Passed.{occupied};
ghost use Rattle.macho_strict.specs.Verdict.{file_parts};

use crate::by_start::{Passed, occupied_list, pass_sorted};
use crate::disjoint::Disjoint;
use crate::gaps::{CountedGaps, Wanted};
use crate::overlap::{FileParts, gaps_between, sorted_file_overlap};
use macho_fields::header::loader::mach_header_64::SIZEOFCMDS;
use macho_fields::{Break, Rule, SpanList, SpansByStart};
use macho_image::{Image, Segment};
use macho_rules::Refusal;
use std::alloc::{AllocError, Global};

// A mapped segment has the header and all commands.
pub(crate) fn header_segment(image: &Image) -> Result<(), Break>
    requires { KeptBelow (BreaksStrictImage image.now) (rank Rule.HeaderSegment) }
    ensures { Continues (BreaksStrictImage image.now) Rule.HeaderSegment result }
{
    let broken = if some_has_headers(image) {
        None
    } else {
        Some(SIZEOFCMDS)
    };
    Rule::HeaderSegment.judge(broken)
}

// Whether a mapped segment has the header and all commands.
fn some_has_headers(image: &Image) -> bool
    ensures { IsTrue result ↔ Any (HoldsHeaders image.now) (all_segments image.now) }
{
    let commands_end = image.commands_end();
    for segment in image.segments() {
        if has_headers(&segment, commands_end) {
            return true;
        }
    }
    false
}

// Whether the segment is mapped, and has the header and the commands, which end at `commands_end`.
fn has_headers(segment: &Segment, commands_end: u64) -> bool
    ensures { commands_end ≡ commands_end_of segment.now.image
        → (IsTrue result ↔ HoldsHeaders segment.now.image segment.now.place) }
{
    segment.fileoff() == 0 && commands_end <= segment.filesize() && segment.vmsize() > 0
}

// What is found of the file parts of the segments of an image.
#[derive(Drop)]
pub(crate) struct FilePartSurvey {
    // Whether no two of them share a place.
    apart: bool,
    // The least place of a byte that is not zero and lies in none of them.
    pub(crate) stray: Option<u64>,
    // Those that have bytes, by their starts, or `None` if all come in that order.
    sorted: Option<SpansByStart>,
    // How many have bytes, as far as they were counted.
    pub(crate) count: usize,
}

impl FilePartSurvey {
    ghost use Rattle.std.specs.Prelude.{◌≡◌, ◌≤◌, ℕ, List, length, true};
    ghost use Rattle.macho_fields.specs.Layers.{KeptBelow};
    ghost use Rattle.macho_fields.specs.RuleList.{rank};
    ghost use Rattle.macho_fields.specs.declared.rule.Rule.{Rule};
    ghost use Rattle.macho_image.specs.Opened.{IsOpened};
    ghost use Rattle.macho_rules.specs.Check.{ContinuesWithMemory};
    ghost use Rattle.macho_spans.specs.Overlap.{IsAscending, SharesEarlier};
    ghost use Rattle.macho_strict.specs.FileParts.{IsFilePartSurveyOf};
    ghost use Rattle.macho_strict.specs.Passed.{ArePassedBy, IsByStart, occupied};
    ghost use Rattle.macho_strict.specs.Rules.{BreaksStrictImage};
    ghost use Rattle.macho_strict.specs.Sharing.{IsFirstSharing, tagged_parts};
    ghost use Rattle.macho_strict.specs.Verdict.{file_parts};

    // Passes the file parts of the image. It needs memory only if they do not ascend: 24 bytes for each,
    // to sort them.
    pub(crate) fn of(alloc: Global, image: &Image) -> Result<FilePartSurvey, AllocError>
        ensures survey { IfOk result (IsFilePartSurveyOf image.now) }
        ensures memory { OnErr result (¬ IsAscending (file_parts image.now)) }
    {
        let CountedGaps { gaps, count } = gaps_between(
            image.bytes(),
            Wanted::NonZero,
            FileParts::of(image),
        );
        if gaps.ascend() {
            return Ok(FilePartSurvey::new(Passed { gaps, sorted: None }, count));
        }
        let list = part_list(alloc, image, count)?;
        Ok(FilePartSurvey::new(pass_sorted(image.bytes(), list), count))
    }

    // What is found of file parts that were passed. `count` of them have bytes.
    fn new(passed: Passed, count: usize) -> FilePartSurvey
        requires { passed.gaps.by_start ≡ true }
        ensures { (image : List ℕ) → IsOpened image
            → ArePassedBy image (file_parts image) passed.entry.gaps passed.entry.sorted
            → IsByStart (file_parts image) passed.entry.sorted
            → count ≤ length (occupied (file_parts image)) → IsFilePartSurveyOf image result }
    {
        FilePartSurvey {
            apart: passed.gaps.ascend(),
            stray: passed.gaps.stray(),
            sorted: passed.sorted,
            count,
        }
    }

    // No segment has a byte of the file in common with an earlier one.
    //
    // It takes memory only if one has: 24 bytes for each, to find the first.
    pub(crate) fn segment_file_overlap(&self, alloc: Global, image: &Image) -> Result<(), Refusal>
        requires survey { IsFilePartSurveyOf image.now self.now }
        requires kept { KeptBelow (BreaksStrictImage image.now) (rank Rule.SegmentFileOverlap) }
        ensures { ContinuesWithMemory (BreaksStrictImage image.now) Rule.SegmentFileOverlap
            (¬ IsAscending (file_parts image.now)) result }
    {
        let overlap = self.first_overlap(alloc, image)?;
        Rule::SegmentFileOverlap.judge(overlap)?;
        Ok(())
    }

    // Where the first segment is described that has a byte of the file in common with an earlier one, or
    // `None` if no two have one.
    fn first_overlap(&self, alloc: Global, image: &Image) -> Result<Option<u64>, AllocError>
        requires { IsFilePartSurveyOf image.now self.now }
        ensures first { IfOk result (IsFirstSharing (tagged_parts image.now)) }
        ensures memory { OnErr result (¬ IsAscending (file_parts image.now)) }
    {
        if self.apart {
            return Ok(None);
        }
        sorted_file_overlap(alloc, image)
    }

    // The file parts that have bytes. It needs memory only if they were not sorted: 24 bytes for each.
    pub(crate) fn parts(self, alloc: Global, image: &Image) -> Result<Disjoint, AllocError>
        requires survey { IsFilePartSurveyOf image.now self }
        requires apart { (j : ℕ) → ¬ SharesEarlier (file_parts image.now) j }
        ensures { IfOk result (IsPermutation (occupied (file_parts image.now))) }
    {
        match self.sorted {
            Some(sorted) => Ok(Disjoint::new(sorted)),
            None => Ok(Disjoint::new(part_list(alloc, image, self.count)?.sorted())),
        }
    }
}

// The file parts of the image that have bytes, in their order. The memory for `count` of them is allocated
// at once.
fn part_list(alloc: Global, image: &Image, count: usize) -> Result<SpanList, AllocError>
    ensures { IfOk result (λ list. list.spans ≡ occupied (file_parts image.now)) }
{
    occupied_list(alloc, count, FileParts::of(image))
}
