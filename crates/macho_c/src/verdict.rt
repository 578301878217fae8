//! The verdict on a file.

ghost use Rattle.std.specs.Prelude.{◌≡◌, length, pos, IfNone, IfSome};
ghost use Rattle.macho_fields.specs.RuleList.{profile_numbered, rule_number};
ghost use Rattle.macho_fields.specs.Universal.{slices_of};
ghost use Rattle.macho_c.specs.Status.{KESVUOT_OK, KESVUOT_REFUSED, KESVUOT_NO_MEMORY, KESVUOT_UNKNOWN_PROFILE};
ghost use Rattle.macho_c.specs.Verdict.{Has, IsVerdict};

use crate::status::{NO_MEMORY, OK, REFUSED, UNKNOWN_PROFILE};
use macho_fields::{Break, Profile};
use macho_profiles::verify_by;
use macho_rules::{Refusal, Verified};
use std::alloc::Global;

/// A verdict. (`struct kesvuot_verdict`)
#[repr(C)]
#[derive(Clone, Copy)]
pub struct KesvuotVerdict {
    /// Where the first broken rule is broken in the file, in bytes, otherwise 0.
    pub place: u64,
    /// How many slices an accepted file has, otherwise 0.
    pub slices: u64,
    /// The number of the first broken rule, otherwise 0.
    pub rule: u32,
    /// Reserved: 0.
    pub reserved: u32,
}

/// Decides the rules of a file, of the profiles up to the one with this number. The status is `OK` if
/// the file is accepted, `REFUSED` if it breaks a rule, and `NO_MEMORY` if memory ran out. It is
/// `UNKNOWN_PROFILE` if no profile has the number, and then nothing is written.
#[unsafe(no_mangle)]
pub extern "C" fn kesvuot_verify(
    alloc: Global,
    file: &[u8],
    profile: u32,
    verdict: &mut KesvuotVerdict,
) -> i32
    ensures known { IfSome (profile_numbered profile) (λ by.
        IsVerdict by file.now result verdict.new) }
    ensures unknown { IfNone (profile_numbered profile)
        ((result ≡ pos KESVUOT_UNKNOWN_PROFILE) × (verdict.new ≡ verdict.old)) }
{
    match Profile::with_number(profile) {
        Some(profile) => judge(alloc, file, profile, verdict),
        None => UNKNOWN_PROFILE as i32,
    }
}

// Decides the rules of a file, of the profiles up to this one.
fn judge(alloc: Global, file: &[u8], profile: Profile, verdict: &mut KesvuotVerdict) -> i32
    ensures { IsVerdict profile file.now result verdict.new }
{
    match verify_by(alloc, profile, file) {
        Ok(verified) => accept(&verified, verdict),
        Err(Refusal::Broken(broken)) => refuse(broken, verdict),
        Err(Refusal::Memory) => give_up(verdict),
    }
}

// The file is accepted.
fn accept(verified: &Verified, verdict: &mut KesvuotVerdict) -> i32
    ensures status { result ≡ pos KESVUOT_OK }
    ensures verdict { Has verdict.new 0 0 (length (slices_of verified.now)) }
{
    *verdict = KesvuotVerdict {
        place: 0,
        slices: verified.slice_count(),
        rule: 0,
        reserved: 0,
    };
    OK as i32
}

// The file breaks a rule.
fn refuse(broken: Break, verdict: &mut KesvuotVerdict) -> i32
    ensures status { result ≡ pos KESVUOT_REFUSED }
    ensures verdict { Has verdict.new (rule_number broken.rule) broken.place 0 }
{
    *verdict = KesvuotVerdict {
        place: broken.place,
        slices: 0,
        rule: broken.rule.number(),
        reserved: 0,
    };
    REFUSED as i32
}

// There was no memory.
fn give_up(verdict: &mut KesvuotVerdict) -> i32
    ensures status { result ≡ pos KESVUOT_NO_MEMORY }
    ensures verdict { Has verdict.new 0 0 0 }
{
    *verdict = KesvuotVerdict {
        place: 0,
        slices: 0,
        rule: 0,
        reserved: 0,
    };
    NO_MEMORY as i32
}
