//! The base address of an image and the address of its entry point. (`mach-o/loader.h`:
//! `segment_command_64`, `entry_point_command`)

ghost use Rattle.std.specs.Prelude.{◌≡◌};
ghost use Rattle.macho_fields.specs.Image.{commands_of};
ghost use Rattle.macho_fields.specs.Segment.{base_of};
ghost use Rattle.macho_image.specs.Entry.{entry_of};

use crate::image::Image;

impl<'a> Image<'a> {
    /// The base address of the image: the `vmaddr` of the first segment with a `fileoff` of 0 whose
    /// `filesize` and `vmsize` are not 0. `None` without such a segment.
    pub fn base(&self) -> Option<u64>
        ensures { result ≡ base_of self.now (commands_of self.now) }
    {
        for segment in self.segments() {
            if segment.shows_start() {
                return Some(segment.vmaddr());
            }
        }
        None
    }

    /// The address of the entry point: the base address and the `entryoff` of `LC_MAIN`. `None` if
    /// the image has no `LC_MAIN` or no base, or if the sum is 2^64 or more.
    pub fn entry(&self) -> Option<u64>
        ensures { result ≡ entry_of self.now (commands_of self.now) }
    {
        let base = self.base()?;
        let main = self.main_command()?;
        base.checked_add(main.entryoff)
    }
}
