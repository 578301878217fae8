//! What a code directory says of a program: its identifier and its team, and how it is to run. An offset is one in the
//! blob of the directory. (`cs_blobs.h`: `CS_CodeDirectory`)

ghost use Rattle.std.specs.Prelude.{◌≡◌, ◌↔◌, ◌+◌, ◌≤◌, IsTrue, MatchOption, None, Some};
ghost use Rattle.macho_fields.specs.Bytes.{bytes_of};
ghost use Rattle.macho_fields.specs.Field.{string_from};
ghost use Rattle.macho_identity.specs.Identity.{HasFields, identifier_of, team_of, settings_of, long_since as long_since_of, SayAlike};
ghost use Rattle.macho_signature.specs.CodeDirectories.{fields_size as fields_size_of, word_since as word_since_of, version_of};

use macho_fields::header::cs_blobs::{CS_SUPPORTSEXECSEG, CS_SUPPORTSRUNTIME, CS_SUPPORTSTEAMID};
use macho_fields::{Bytes, Order, Span};
use macho_signature::code_directory::{FLAGS, IDENT_OFFSET, TEAM_OFFSET, VERSION};
use macho_signature::superblob::word_at;

/// The offset of `CS_CodeDirectory.platform`.
pub const PLATFORM: u64 = 38;
/// That of `execSegBase`.
pub const EXEC_SEG_BASE: u64 = 64;
/// That of `execSegLimit`.
pub const EXEC_SEG_LIMIT: u64 = 72;
/// That of `execSegFlags`.
pub const EXEC_SEG_FLAGS: u64 = 80;
/// That of `runtime`.
pub const RUNTIME: u64 = 88;

/// How a program is to run, as a code directory says. A field that its version lacks is 0.
#[derive(Clone, Copy, PartialEq, Eq)]
pub struct Settings {
    /// The flags of the signature.
    pub flags: u32,
    /// The platform that the program is a part of, or 0.
    pub platform: u8,
    /// Where the executable segment begins in the file.
    pub exec_seg_base: u64,
    /// How many bytes it has.
    pub exec_seg_limit: u64,
    /// Its flags.
    pub exec_seg_flags: u64,
    /// The version of the hardened runtime.
    pub runtime: u32,
}

/// Whether two code directories, with these blobs, say the same of a program.
pub fn say_alike(one: Bytes, other: Bytes) -> bool
    requires one { HasFields (bytes_of one) }
    requires other { HasFields (bytes_of other) }
    ensures { IsTrue result ↔ SayAlike (bytes_of one.entry) (bytes_of other.entry) }
{
    identifier(one) == identifier(other)
        && has_same_team(one, other)
        && read_settings(one) == read_settings(other)
}

/// How the program is to run.
#[tactic(auto, unfolding(crate::specs::Identity::settings_of))]
pub fn read_settings(blob: Bytes) -> Settings
    requires { HasFields (bytes_of blob) }
    ensures { result ≡ settings_of (bytes_of blob.entry) }
{
    Settings {
        flags: word_at(blob, FLAGS),
        platform: blob.read_u8(PLATFORM),
        exec_seg_base: segment_field(blob, EXEC_SEG_BASE),
        exec_seg_limit: segment_field(blob, EXEC_SEG_LIMIT),
        exec_seg_flags: segment_field(blob, EXEC_SEG_FLAGS),
        runtime: word_since(blob, CS_SUPPORTSRUNTIME, RUNTIME),
    }
}

/// The identifier of the code directory with this blob: the bytes at its `identOffset`, up to the first zero byte.
#[tactic(auto, unfolding(crate::specs::Identity::identifier_of))]
pub fn identifier(blob: Bytes) -> &[u8]
    requires { HasFields (bytes_of blob) }
    ensures { result.now ≡ identifier_of (bytes_of blob.entry) }
{
    text(blob, word_at(blob, IDENT_OFFSET))
}

/// The team of the code directory with this blob, if it has one: the bytes at its `teamOffset`, up to the first zero
/// byte.
#[tactic(auto, unfolding(crate::specs::Identity::team_of))]
pub fn team(blob: Bytes) -> Option<&[u8]>
    requires { HasFields (bytes_of blob) }
    ensures { MatchOption result (team_of (bytes_of blob.entry) ≡ None)
        (λ team. team_of (bytes_of blob.entry) ≡ Some team.now) }
{
    let offset = word_since(blob, CS_SUPPORTSTEAMID, TEAM_OFFSET);
    if offset == 0 {
        return None;
    }
    Some(text(blob, offset))
}

// Whether both have the same team, or none.
fn has_same_team(one: Bytes, other: Bytes) -> bool
    requires one { HasFields (bytes_of one) }
    requires other { HasFields (bytes_of other) }
    ensures { IsTrue result ↔ (team_of (bytes_of one.entry) ≡ team_of (bytes_of other.entry)) }
{
    match (team(one), team(other)) {
        (Some(one), Some(other)) => one == other,
        (None, None) => true,
        _ => false,
    }
}

// A field of the executable segment.
fn segment_field(blob: Bytes, offset: u64) -> u64
    requires fields { HasFields (bytes_of blob) }
    requires since { offset + 8 ≤ fields_size_of CS_SUPPORTSEXECSEG }
    ensures { result ≡ long_since_of CS_SUPPORTSEXECSEG offset (bytes_of blob.entry) }
{
    long_since(blob, CS_SUPPORTSEXECSEG, offset)
}

// The field of 32 bits at an offset, which a directory has since a version. It is 0 in one of an earlier version.
pub(crate) fn word_since(blob: Bytes, version: u32, offset: u64) -> u32
    requires fields { HasFields (bytes_of blob) }
    requires since { offset + 4 ≤ fields_size_of version }
    ensures { result ≡ word_since_of version offset (bytes_of blob.entry) }
{
    if word_at(blob, VERSION) >= version {
        word_at(blob, offset)
    } else {
        0
    }
}

// The same of 64 bits.
pub(crate) fn long_since(blob: Bytes, version: u32, offset: u64) -> u64
    requires fields { HasFields (bytes_of blob) }
    requires since { offset + 8 ≤ fields_size_of version }
    ensures { result ≡ long_since_of version offset (bytes_of blob.entry) }
{
    if word_at(blob, VERSION) >= version {
        blob.read_u64(Order::Big, offset)
    } else {
        0
    }
}

// The bytes from an offset on, up to the first zero byte, or all bytes if no byte is zero.
fn text(blob: Bytes, offset: u32) -> &[u8]
    ensures { result.now ≡ string_from offset (bytes_of blob.entry) }
{
    let start = u64::from(offset).min(blob.len());
    let rest = Span {
        start,
        len: blob.len() - start,
    };
    match blob.string_in(rest) {
        Some(text) => text,
        None => blob.read_part(rest),
    }
}
