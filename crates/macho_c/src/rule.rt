//! The rules and the profiles by number.

ghost use Rattle.std.specs.Prelude.{◌≡◌, ◌⊎◌, [], IfNone, IfSome};
ghost use Rattle.macho_fields.specs.RuleList.{profile_name, profile_numbered};
ghost use Rattle.macho_c.specs.RuleNumbers.{IsNumbered, IsNoNumber, IsProfileOf};
ghost use Rattle.macho_c.specs.Status.{KESVUOT_OK, KESVUOT_NONE};

use crate::names::before_last;
use crate::status::{NONE, OK};
use macho_fields::{Profile, Rule};

/// Writes the name of the rule with this number, borrowed from the library. A zero byte, which is not
/// counted, follows it in memory. The status is `OK`, or `NONE` where no rule has the number.
#[unsafe(no_mangle)]
pub extern "C" fn kesvuot_find_rule(rule: u32, name: &mut &'static [u8]) -> u32
    ensures { ((result ≡ KESVUOT_OK) × IsNumbered rule name.new.now)
        ⊎ ((result ≡ KESVUOT_NONE) × IsNoNumber rule × (name.new.now ≡ [])) }
{
    match Rule::with_number(rule) {
        Some(rule) => {
            *name = before_last(rule.name_with_zero().as_bytes());
            OK
        }
        None => {
            *name = &[];
            NONE
        }
    }
}

/// The number of the profile that the rule with this number belongs to, or 0 where no rule has the
/// number.
#[unsafe(no_mangle)]
pub extern "C" fn kesvuot_rule_profile(rule: u32) -> u32
    ensures { IsProfileOf rule result ⊎ (IsNoNumber rule × (result ≡ 0)) }
{
    match Rule::with_number(rule) {
        Some(rule) => rule.profile().number(),
        None => 0,
    }
}

/// Writes the name of the profile with this number, borrowed from the library. A zero byte, which is
/// not counted, follows it in memory. The status is `OK`, or `NONE` where no profile has the number.
#[unsafe(no_mangle)]
pub extern "C" fn kesvuot_find_profile(profile: u32, name: &mut &'static [u8]) -> u32
    ensures known { IfSome (profile_numbered profile) (λ found.
        (result ≡ KESVUOT_OK) × (name.new.now ≡ profile_name found)) }
    ensures unknown { IfNone (profile_numbered profile)
        ((result ≡ KESVUOT_NONE) × (name.new.now ≡ [])) }
{
    match Profile::with_number(profile) {
        Some(profile) => {
            *name = before_last(profile.name_with_zero().as_bytes());
            OK
        }
        None => {
            *name = &[];
            NONE
        }
    }
}
