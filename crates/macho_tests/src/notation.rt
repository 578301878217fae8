//! Files for tests, written out.

use std::alloc::Global;
use std::process::Abort;

/// The bytes of pairs of hexadecimal digits, with `.N` for N zeros.
pub(crate) fn written(rt: &(impl Abort + AllocGlobal), text: &str) -> Vec<u8> {
    bytes_of(rt.alloc(), text).expect(rt, "pairs of digits, and memory")
}

/// The bytes, or `None` if the text is not of this form, or if memory ran out.
fn bytes_of(alloc: Global, text: &str) -> Option<Vec<u8>> {
    let mut bytes = Vec::new(alloc);
    for word in text.split_whitespace() {
        append_word(&mut bytes, word)?;
    }
    Some(bytes)
}

fn append_word(bytes: &mut Vec<u8>, word: &str) -> Option<()> {
    match word.strip_prefix('.') {
        Some(count) => append_zeros(bytes, count.parse().ok()?),
        None => append_pairs(bytes, word),
    }
}

fn append_zeros(bytes: &mut Vec<u8>, count: u32) -> Option<()> {
    for _ in 0..count {
        bytes.push(0).ok()?;
    }
    Some(())
}

fn append_pairs(bytes: &mut Vec<u8>, digits: &str) -> Option<()> {
    for pair in digits.as_bytes().chunks(2) {
        bytes.push(byte(pair)?).ok()?;
    }
    Some(())
}

/// The byte of a pair of hexadecimal digits.
fn byte(pair: &[u8]) -> Option<u8> {
    u8::from_str_radix(str::from_utf8(pair).ok()?, 16).ok()
}

/// A header alone, which keeps every rule.
pub(crate) const BARE_HEADER: &[u8; 32] =
    b"\xcf\xfa\xed\xfe\x07\0\0\x01\x03\0\0\0\x02\0\0\0\0\0\0\0\0\0\0\0\0\0\0\0\0\0\0\0";

/// What is written of it: three lines of 19, 40 and 13 bytes.
pub(crate) const BARE_LAYOUT: &str = "\
accepted, slices 1
slice 0 x86_64 at 0x0 size 0x20 execute
  entry none
";

/// An executable with segments, symbols, a library, versions and an entry: 0x202c bytes.
pub(crate) fn executable(rt: &(impl Abort + AllocGlobal)) -> Vec<u8> {
    written(rt, EXECUTABLE)
}

const EXECUTABLE: &str = "\
    cffaedfe 07000001 03000000 02000000 0a000000 c8020000 .8 19000000 48000000 5f5f5041 47455a45 \
    524f0000 .16 01000000 .32 19000000 98000000 5f5f5445 58540000 .12 01000000 00100000 .12 \
    00100000 .4 05000000 05000000 01000000 .4 5f5f7465 78740000 .8 5f5f5445 58540000 .8 000f0000 \
    01000000 00010000 .4 000f0000 .28 19000000 e8000000 5f5f4441 54410000 .8 00100000 01000000 \
    00200000 .4 00100000 .4 00100000 .4 03000000 03000000 02000000 .4 5f5f6461 74610000 .8 \
    5f5f4441 54410000 .8 00100000 01000000 10000000 .4 00100000 .28 5f5f6273 73000000 .8 \
    5f5f4441 54410000 .8 10100000 01000000 20000000 .20 01000000 .12 19000000 48000000 5f5f4c49 \
    4e4b4544 49540000 .4 00300000 01000000 00100000 .4 00200000 .4 2c000000 .4 01000000 01000000 \
    .8 02000000 18000000 00200000 02000000 20200000 0c000000 0e000000 20000000 0c000000 2f757372 \
    2f6c6962 2f64796c 64000000 .4 1b000000 18000000 00112233 44556677 8899aabb ccddeeff 32000000 \
    18000000 01000000 00000b00 00010d00 .4 28000080 18000000 000f0000 .12 0c000000 38000000 \
    18000000 02000000 00002705 00000100 2f757372 2f6c6962 2f6c6962 53797374 656d2e42 2e64796c \
    69620000 .7452 01000000 0f010000 000f0000 01000000 07000000 0f020000 00100000 01000000 \
    005f6d61 696e005f 78000000";
