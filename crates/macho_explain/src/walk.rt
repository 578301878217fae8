//! Where a load command is, among those of any bytes.

ghost use Rattle.std.specs.Prelude.{◌≡◌, ◌↔◌, ◌⊎◌, IsTrue, MatchOption};
ghost use Rattle.macho_fields.specs.Bytes.{bytes_of};
ghost use Rattle.macho_rows.specs.Loads.{IsLoad};
ghost use Rattle.macho_explain.specs.Commanded.{IsEnd};
ghost use Rattle.macho_explain.specs.Explain.{IsUncounted, IsWalked, Meets, NoneMeets, platform_shown};

use macho_fields::header::loader::build_version_command::PLATFORM;
use macho_fields::header::loader::{LC_BUILD_VERSION, MACH_HEADER_64_SIZE};
use macho_fields::{Bytes, Order};
use macho_readers::entry::is_entry;
use macho_readers::order::is_eager;
use macho_rows::cursor::START;
use macho_rows::load::{Load, Wanted, next_wanted, version_min_platform};
use macho_rows::sections::nsects_at;
use macho_tables::kinds::share_kind;

// Which command is sought.
#[derive(Clone, Copy)]
pub(crate) enum Sought {
    // The one that begins at a place.
    From(u64),
    // The one that has the byte at a place.
    At(u64),
    // The first one with a `cmd`.
    First(u32),
    // The first one that names linked data of a kind of the commands with a `cmd`.
    OfKind(u32),
    // The first one with versions of a platform.
    OfPlatform(u32),
    // The first one after a place that names a library that is loaded at once.
    EagerPast(u64),
    // The first one that says where the program begins.
    Entry,
}

// A load command, with its index, and how many sections are before it.
#[derive(Clone, Copy)]
pub(crate) struct Walked {
    pub(crate) load: Load,
    pub(crate) index: u32,
    pub(crate) sections: u64,
}

// The command that is sought, if there is one.
pub(crate) fn walk_to(image: Bytes, sought: Sought) -> Option<Walked>
    ensures { MatchOption result (NoneMeets (bytes_of image.entry) sought ⊎ IsUncounted (bytes_of image.entry))
        (IsWalked (bytes_of image.entry) sought) }
{
    let mut cursor = START;
    let mut index: u32 = 0;
    let mut sections: u64 = 0;
    while let Some(load) = next_wanted(image, &mut cursor, Wanted::All) {
        if is_sought(image, load, sought) {
            return Some(Walked {
                load,
                index,
                sections,
            });
        }
        index = index.checked_add(1)?;
        sections = sections.checked_add(nsects_at(image, load.place))?;
    }
    None
}

// Whether the command is the one that is sought.
fn is_sought(image: Bytes, load: Load, sought: Sought) -> bool
    requires { IsLoad (bytes_of image) load }
    ensures { IsTrue result ↔ Meets (bytes_of image.entry) sought load.place }
{
    match sought {
        Sought::From(place) => load.place == place,
        Sought::At(place) => load.place <= place && place - load.place < load.size,
        Sought::First(cmd) => load.cmd == cmd,
        Sought::OfKind(cmd) => share_kind(load.cmd, cmd),
        Sought::OfPlatform(platform) => platform_of(image, load) == Some(platform),
        Sought::EagerPast(place) => place < load.place && is_eager(load.cmd),
        Sought::Entry => is_entry(load.cmd),
    }
}

// The platform whose versions a command has, if it has some.
pub(crate) fn platform_of(image: Bytes, load: Load) -> Option<u32>
    requires { IsLoad (bytes_of image) load }
    ensures { result ≡ platform_shown (bytes_of image.entry) load.place }
{
    if load.cmd != LC_BUILD_VERSION {
        return version_min_platform(load.cmd);
    }
    image.u32_at(Order::Little, load.place + PLATFORM)
}

// Where the walk over the commands ends, and the last command.
#[derive(Clone, Copy)]
pub(crate) struct WalkEnd {
    pub(crate) place: u64,
    pub(crate) count: u32,
    pub(crate) last: Option<Walked>,
}

// Walks over all commands.
pub(crate) fn walk_end(image: Bytes) -> Option<WalkEnd>
    ensures { MatchOption result (IsUncounted (bytes_of image.entry)) (IsEnd (bytes_of image.entry)) }
{
    let mut cursor = START;
    let mut place = MACH_HEADER_64_SIZE;
    let mut count: u32 = 0;
    let mut last = None;
    while let Some(load) = next_wanted(image, &mut cursor, Wanted::All) {
        last = Some(Walked {
            load,
            index: count,
            sections: 0,
        });
        place = load.place + load.size;
        count = count.checked_add(1)?;
    }
    Some(WalkEnd { place, count, last })
}
