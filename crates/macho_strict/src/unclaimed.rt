//! The bytes of segments that lie in no element. (`mach-o/loader.h`)

ghost use Rattle.std.specs.Prelude.{◌≡◌, ◌++◌, IfOk, IsPermutation, OnOk, OnErr};
ghost use Rattle.macho_fields.specs.FirstPlace.{IsLeastPlace};
ghost use Rattle.macho_fields.specs.Layers.{KeptBelow};
ghost use Rattle.macho_fields.specs.RuleList.{rank};
ghost use Rattle.macho_fields.specs.declared.rule.Rule.{Rule};
ghost use Rattle.macho_image.specs.Opened.{IsOpened};
ghost use Rattle.macho_rules.specs.Check.{ContinuesWithMemory};
ghost use Rattle.macho_strict.specs.Claims.{AreClaims};
ghost use Rattle.macho_strict.specs.Passed.{CoverSame, occupied};
ghost use Rattle.macho_strict.specs.Rules.{BreaksStrictImage};
ghost use Rattle.macho_strict.specs.Unclaimed.{code_parts, is_code};
ghost use Rattle.macho_strict.specs.Verdict.{HasLooseNop};

use crate::claims::Claims;
use crate::disjoint::Disjoint;
use crate::gaps::Wanted;
use crate::nops::is_nop;
use crate::overlap::{FileParts, count_of};
use macho_fields::header::vm_prot::VM_PROT_EXECUTE;
use macho_fields::{Rule, SpanList};
use macho_image::{Image, Segment};
use macho_rules::Refusal;
use std::alloc::{AllocError, Global};

// Each byte of a segment is zero, a NOP of code, or lies in an element.
//
// It takes memory only if a NOP lies in no element: 24 bytes for each of the segments that have bytes,
// `parts` in number, to sort those that may be executed.
pub(crate) fn unclaimed_byte(
    alloc: Global,
    image: &Image,
    claims: &Claims,
    parts: usize,
) -> Result<(), Refusal>
    requires claims { AreClaims image.now claims.now }
    requires kept { KeptBelow (BreaksStrictImage image.now) (rank Rule.UnclaimedByte) }
    ensures { ContinuesWithMemory (BreaksStrictImage image.now) Rule.UnclaimedByte
        (HasLooseNop image.now) result }
{
    let unclaimed = first_unclaimed(alloc, image, claims, parts)?;
    Rule::UnclaimedByte.judge(unclaimed)?;
    Ok(())
}

// The least place of a byte that breaks the rule. Only if the first byte in no element is a NOP, the
// segments that may be executed have to be looked at, with memory for `parts` of them.
fn first_unclaimed(
    alloc: Global,
    image: &Image,
    claims: &Claims,
    parts: usize,
) -> Result<Option<u64>, AllocError>
    requires claims { AreClaims image.now claims.now }
    requires kept { KeptBelow (BreaksStrictImage image.now) (rank Rule.UnclaimedByte) }
    ensures found { IfOk result (IsLeastPlace (BreaksStrictImage image.now Rule.UnclaimedByte)) }
    ensures memory { OnErr result (HasLooseNop image.now) }
{
    let Some(place) = claims.loose else {
        return Ok(None);
    };
    let cpu = image.arch().0;
    if !is_nop(cpu, image.bytes(), place) {
        return Ok(Some(place));
    }
    let code = sorted_code(alloc, image, parts)?;
    Ok(claims.stray(image, Wanted::Unpadded(cpu, &code)))
}

/// The bytes of the segments that may be executed, if they have some. It takes memory: 24 bytes for each
/// segment.
pub fn code_of(alloc: Global, image: &Image) -> Result<Disjoint, AllocError>
    requires opened { IsOpened image.now }
    requires kept { KeptBelow (BreaksStrictImage image.now) (rank Rule.UnclaimedByte) }
    ensures cover { IfOk result (CoverSame (code_parts image.now)) }
    ensures parts { IfOk result (IsPermutation (occupied (code_parts image.now))) }
{
    sorted_code(alloc, image, count_of(FileParts::of(image)))
}

// The same. The memory for `count` spans is allocated at once.
fn sorted_code(alloc: Global, image: &Image, count: usize) -> Result<Disjoint, AllocError>
    requires opened { IsOpened image.now }
    requires kept { KeptBelow (BreaksStrictImage image.now) (rank Rule.UnclaimedByte) }
    ensures cover { IfOk result (CoverSame (code_parts image.now)) }
    ensures parts { IfOk result (IsPermutation (occupied (code_parts image.now))) }
{
    let mut list = SpanList::with_capacity(alloc, count)?;
    push_code(&mut list, image)?;
    Ok(Disjoint::new(list.sorted()))
}

// Adds the bytes of the segments that may be executed, if they have some.
fn push_code(list: &mut SpanList, image: &Image) -> Result<(), AllocError>
    ensures { OnOk result (list.new.spans ≡ list.old.spans ++ occupied (code_parts image.now)) }
{
    for segment in image.segments() {
        if is_code(&segment) {
            let part = segment.file_part();
            if part.len > 0 {
                list.push(part)?;
            }
        }
    }
    Ok(())
}

/// Whether the segment may be executed.
pub fn is_code(segment: &Segment) -> bool
    ensures { result ≡ is_code segment.now.image segment.now.place }
{
    segment.initprot() & u64::from(VM_PROT_EXECUTE) != 0
}
