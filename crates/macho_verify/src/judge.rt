//! Who decides whether a file is accepted, and what the report says of code directories.

ghost use Rattle.macho_profiles.specs.Profiles.{IsAcceptedBy};
ghost use Rattle.macho_verify.specs.Judge.{IsRefusedFor, said_by};

use crate::cdhashes::write_cdhashes;
use macho_fields::Profile;
use macho_image::Image;
use macho_profiles::verify_by;
use macho_report::Judge;
use macho_rules::{Refusal, Verified};
use macho_text::{Line, Output, WriteFault};
use std::alloc::Global;

/// Accepts the files that break no rule of the profiles up to this one, as [`verify_by`] decides. By the
/// sealed profile the report has the cdhash of each code directory.
#[derive(Clone, Copy)]
pub struct ProfileRules {
    pub profile: Profile,
}

impl Judge for ProfileRules {
    ghost accepts = { λ rules. IsAcceptedBy rules.profile };

    ghost refuses = { λ rules. IsRefusedFor rules.profile };

    ghost says = { λ rules. said_by rules.profile };

    fn judge<'a>(&self, alloc: Global, file: &'a [u8]) -> Result<Verified<'a>, Refusal> {
        verify_by(alloc, self.profile, file)
    }

    fn write_more<W: Output>(
        &self,
        image: &Image,
        line: &mut Line,
        writer: &mut W,
    ) -> Result<(), WriteFault> {
        match self.profile {
            Profile::Layout | Profile::Strict | Profile::Linked | Profile::Unambiguous => Ok(()),
            Profile::Sealed => write_cdhashes(image, line, writer),
        }
    }
}
