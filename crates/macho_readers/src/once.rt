//! The rule of the commands that readers expect once. (`mach-o/loader.h`)

ghost use Rattle.std.specs.Prelude.{◌≡◌, ◌+◌, ◌≤◌, ◌<◌, ◌↔◌, Contains, IfOk, OnOk, OnErr, IsTrue, length, map, Any};
ghost use Rattle.macho_fields.specs.FirstPlace.{IsLeastPlace};
ghost use Rattle.macho_fields.specs.Image.{commands_of};
ghost use Rattle.macho_image.specs.Command.{command_of};
ghost use Rattle.macho_image.specs.Opened.{IsOpened, IsCommandOf};
ghost use Rattle.macho_readers.specs.Commands.{is_single as is_single_of, version_platform as version_platform_of, platform_of, platform_span as platform_span_of, RepeatsCmd, RepeatsSingle, RepeatsPlatform, HasPlatform, FollowsPlatform, HasSeveralPlatforms, BreaksCommandOnce};

use macho_fields::header::loader::build_version_command::PLATFORM;
use macho_fields::header::loader::{
    LC_BUILD_VERSION, LC_DYLIB_CODE_SIGN_DRS, LC_ENCRYPTION_INFO_64, LC_ID_DYLINKER,
    LC_LINKER_OPTIMIZATION_HINT, LC_LOAD_DYLINKER, LC_PREBIND_CKSUM, LC_SEGMENT_SPLIT_INFO,
    LC_SOURCE_VERSION, LC_SUB_FRAMEWORK, LC_TARGET_TRIPLE, LC_VERSION_MIN_IPHONEOS,
    LC_VERSION_MIN_MACOSX, LC_VERSION_MIN_TVOS, LC_VERSION_MIN_WATCHOS, PLATFORM_IOS,
    PLATFORM_MACOS, PLATFORM_TVOS, PLATFORM_WATCHOS,
};
use macho_fields::{Order, Span, SpanList};
use macho_image::{Command, Image};
use macho_tables::place::{lesser, place_of};
use std::alloc::{AllocError, Global};

/// The place of the first command that readers expect once, if an earlier command has the same `cmd`, or has versions of
/// the same platform. For n commands it takes time in the order of n log n, and memory for each only if several have a
/// platform, to sort these.
pub fn command_once(alloc: Global, image: &Image) -> Result<Option<u64>, AllocError>
    ensures least { IfOk result (IsLeastPlace (BreaksCommandOnce image.now)) }
    ensures memory { OnErr result (HasSeveralPlatforms image.now) }
{
    let single = single_repeated(image);
    let platform = platform_repeated(alloc, image)?;
    Ok(lesser(single, platform))
}

// The place of the first command that readers expect once and that an earlier command repeats.
fn single_repeated(image: &Image) -> Option<u64>
    ensures { IsLeastPlace (λ place.
        Contains (commands_of image.now) place × RepeatsSingle image.now place) result }
{
    place_of(
        image
            .commands()
            .find(|command| repeats_single(image, command)),
    )
}

// Whether an earlier command is of the same such kind. A command of another kind is not compared, so the work is linear.
fn repeats_single(image: &Image, command: &Command) -> bool
    requires { IsCommandOf image.now (command_of command.now) }
    ensures { IsTrue result ↔ RepeatsSingle image.now command.now.place }
{
    is_single(command.cmd) && repeats_earlier(image, command)
}

// Whether readers expect a command with this `cmd` once.
fn is_single(cmd: u32) -> bool
    ensures { result ≡ is_single_of cmd }
{
    matches!(
        cmd,
        LC_LOAD_DYLINKER
            | LC_ID_DYLINKER
            | LC_SUB_FRAMEWORK
            | LC_PREBIND_CKSUM
            | LC_SEGMENT_SPLIT_INFO
            | LC_SOURCE_VERSION
            | LC_DYLIB_CODE_SIGN_DRS
            | LC_ENCRYPTION_INFO_64
            | LC_LINKER_OPTIMIZATION_HINT
            | LC_TARGET_TRIPLE
    )
}

// Whether an earlier command has the same `cmd`.
fn repeats_earlier(image: &Image, command: &Command) -> bool
    ensures { IsTrue result ↔ RepeatsCmd image.now command.now.cmd command.now.place }
{
    image.commands().any(|earlier| earlier.place < command.place && earlier.cmd == command.cmd)
}

// The place of the first command with versions of a platform, if an earlier command has versions of it too.
fn platform_repeated(alloc: Global, image: &Image) -> Result<Option<u64>, AllocError>
    ensures least { IfOk result (IsLeastPlace (λ place.
        Contains (commands_of image.now) place × RepeatsPlatform image.now place)) }
    ensures memory { OnErr result (HasSeveralPlatforms image.now) }
{
    if !has_several_platforms(image) {
        return Ok(None);
    }
    let platforms = platforms(alloc, image)?;
    let Some(index) = platforms.least_overlap() else {
        return Ok(None);
    };
    Ok(place_of(image.commands().nth(index as usize)))
}

// Whether several commands have versions of a platform.
fn has_several_platforms(image: &Image) -> bool
    ensures { IsTrue result ↔ HasSeveralPlatforms image.now }
{
    image
        .commands()
        .any(|command| follows_platform(image, &command))
}

// Whether the command has versions of a platform, and so has an earlier one. Only the first command with a platform has
// none before it, so the work of all is linear.
#[tactic(auto, unfolding(crate::specs::Commands::FollowsPlatform))]
fn follows_platform(image: &Image, command: &Command) -> bool
    requires { IsCommandOf image.now (command_of command.now) }
    ensures { IsTrue result ↔ FollowsPlatform image.now command.now.place }
{
    has_platform(image, command) && has_earlier_platform(image, command.place)
}

// Whether a command at a lesser place has versions of a platform.
fn has_earlier_platform(image: &Image, place: u64) -> bool
    ensures { IsTrue result ↔ Any (λ earlier. (earlier < place) × HasPlatform image.now earlier)
        (commands_of image.now) }
{
    image.commands().any(|earlier| earlier.place < place && has_platform(image, &earlier))
}

// Whether the command has versions of a platform.
fn has_platform(image: &Image, command: &Command) -> bool
    requires { IsCommandOf image.now (command_of command.now) }
    ensures { IsTrue result ↔ HasPlatform image.now command.now.place }
{
    platform(image, command).is_some()
}

// The platforms of all commands, as spans that share a place exactly if the platforms are the same.
fn platforms(alloc: Global, image: &Image) -> Result<SpanList, AllocError>
    ensures spans { IfOk result (λ list.
        list.spans ≡ map (platform_span_of image.now) (commands_of image.now)) }
    ensures opened { OnOk result (IsOpened image.now) }
    ensures memory { OnErr result (0 < length (commands_of image.now)) }
{
    let mut list = SpanList::with_capacity(alloc, 0)?;
    for command in image.commands() {
        list.push(platform_span(image, &command))?;
    }
    Ok(list)
}

// The place that numbers the platform whose versions the command has, or no place.
fn platform_span(image: &Image, command: &Command) -> Span
    requires { IsCommandOf image.now (command_of command.now) }
    ensures { result ≡ platform_span_of image.now command.now.place }
{
    match platform(image, command) {
        Some(platform) => Span {
            start: u64::from(platform),
            len: 1,
        },
        None => Span { start: 0, len: 0 },
    }
}

// The platform whose versions the command has, if it has some.
fn platform(image: &Image, command: &Command) -> Option<u32>
    requires { IsCommandOf image.now (command_of command.now) }
    ensures { result ≡ platform_of image.now command.now.place }
{
    if command.cmd == LC_BUILD_VERSION {
        return Some(
            image
                .bytes()
                .read_u32(Order::Little, command.place + PLATFORM),
        );
    }
    version_platform(command.cmd)
}

// The platform of a `version_min_command`, by its `cmd`.
fn version_platform(cmd: u32) -> Option<u32>
    ensures { result ≡ version_platform_of cmd }
{
    match cmd {
        LC_VERSION_MIN_MACOSX => Some(PLATFORM_MACOS),
        LC_VERSION_MIN_IPHONEOS => Some(PLATFORM_IOS),
        LC_VERSION_MIN_TVOS => Some(PLATFORM_TVOS),
        LC_VERSION_MIN_WATCHOS => Some(PLATFORM_WATCHOS),
        _ => None,
    }
}
