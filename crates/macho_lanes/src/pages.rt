//! The digests of pages that are one past the other.

ghost use Rattle.std.specs.Prelude.{◌≡◌, ℕ, ◌+◌, ◌*◌, ◌/◌, ◌%◌, ◌<◌, length, get_or, slice_index, take, drop, []};
ghost use Rattle.sha2.specs.Sha256.{digest_bytes, padding, sha256};
ghost use Rattle.macho_lanes.specs.Lanes.{lane};

use crate::block256::{block_words, compress};
use std::simd::u32x4;

/// How many pages are hashed side by side.
pub const LANES: usize = 4;

const BLOCK_LEN: usize = 64;

// The initial hash value. (5.3.3)
const INITIAL: [u32; 8] = [
    0x6a09_e667,
    0xbb67_ae85,
    0x3c6e_f372,
    0xa54f_f53a,
    0x510e_527f,
    0x9b05_688c,
    0x1f83_d9ab,
    0x5be0_cd19,
];

/// The digests by SHA-256 of four pages of one size, a multiple of 64. The pages are one past the other.
pub fn pages_sha256(pages: &[u8]) -> [[u8; 32]; LANES]
    requires { length pages.now % 256 ≡ 0 }
    ensures { (j : ℕ) → j < LANES → let size = length pages.now / LANES in
        get_or result j [] ≡ sha256 (take size (drop (j * size) pages.now)) }
{
    let size = pages.len() / LANES;
    let mut state = initial();
    'whole: for index in 0..size / BLOCK_LEN {
        compress(&mut state, block_words(pages, BLOCK_LEN * index, size));
    }
    compress(&mut state, block_words(&padding(size), 0, 0));
    [
        digest(&state, 0),
        digest(&state, 1),
        digest(&state, 2),
        digest(&state, 3),
    ]
}

// The initial hash value of each message.
fn initial() -> [u32x4; 8]
    ensures { (j : ℕ) → j < 4 → lane j result ≡ INITIAL }
{
    [
        u32x4::splat(INITIAL[0]),
        u32x4::splat(INITIAL[1]),
        u32x4::splat(INITIAL[2]),
        u32x4::splat(INITIAL[3]),
        u32x4::splat(INITIAL[4]),
        u32x4::splat(INITIAL[5]),
        u32x4::splat(INITIAL[6]),
        u32x4::splat(INITIAL[7]),
    ]
}

// The padding of a message of so many bytes, a multiple of 64. (5.1.1)
fn padding(len: usize) -> [u8; BLOCK_LEN]
    requires { len % 64 ≡ 0 }
    ensures { result ≡ padding len }
{
    let mut block = [0; BLOCK_LEN];
    block[0] = 0x80;
    block[BLOCK_LEN - 8..].copy_from_slice(&(len as u64).wrapping_mul(8).to_be_bytes());
    block
}

// The digest of a message, from the hash values.
fn digest(state: &[u32x4; 8], j: usize) -> [u8; 32]
    requires { j < 4 }
    ensures { result ≡ digest_bytes (lane j state.now) 8 }
{
    let mut bytes = [0; 32];
    'words: for i in 0..8 {
        bytes[4 * i..4 * i + 4].copy_from_slice(&state[i].to_array()[j].to_be_bytes());
    }
    bytes
}
