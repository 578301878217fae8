//! The numbers of linked data, as LEB128 encodes them: seven bits in each byte, the lowest first. Bit
//! 0x80 of a byte says that another one follows.

ghost use Rattle.std.specs.Prelude.{◌≡◌, ◌^◌, ◌≤◌, ◌<◌};
ghost use Rattle.macho_fields.specs.Bytes.{bytes_of};
ghost use Rattle.macho_tables.specs.Numbers.{unsigned_at, signed_at, twos_complement, IsEncoded};

use macho_fields::Bytes;

/// How many bytes a number has at most: as many as 64 bits need.
pub const MOST_BYTES: u64 = 10;

// From here on a byte has its highest bit: another one follows it.
const CONTINUES: u8 = 0x80;

// The bits of a byte that are a digit.
const DIGIT: u8 = 0x7f;

// The base of the digits.
const BASE: u128 = 0x80;

/// Reads the unsigned number at `place`, a ULEB128. It returns the number and the first place past it, or
/// `None` if the number does not end within the bytes, has more than [`MOST_BYTES`], or is 2^64 or more.
#[inline(always)]
pub fn read_uleb(bytes: Bytes, place: u64) -> Option<(u64, u64)>
    ensures { result ≡ unsigned_at (bytes_of bytes.entry) place }
{
    let first = bytes.u8_at(place)?;
    if first < CONTINUES {
        return Some((u64::from(first), place + 1));
    }
    read_long_uleb(bytes, place)
}

// Reads an unsigned number of any length. Most numbers have one byte, which needs less work.
fn read_long_uleb(bytes: Bytes, place: u64) -> Option<(u64, u64)>
    ensures { result ≡ unsigned_at (bytes_of bytes.entry) place }
{
    let encoded = Encoded::read(bytes, place)?;
    let Ok(value) = u64::try_from(encoded.value) else {
        return None;
    };
    Some((value, encoded.next))
}

/// Reads the signed number at `place`, an SLEB128, as `read_uleb` does. It is `None` where the number is
/// not of 64 signed bits.
pub fn read_sleb(bytes: Bytes, place: u64) -> Option<(i64, u64)>
    ensures { result ≡ signed_at (bytes_of bytes.entry) place }
{
    let encoded = Encoded::read(bytes, place)?;
    let Ok(value) = i64::try_from(encoded.signed()) else {
        return None;
    };
    Some((value, encoded.next))
}

// A number as its bytes encode it.
#[derive(Clone, Copy)]
struct Encoded {
    // The number that the digits are.
    value: u128,
    // The power of the base that the digits stay below.
    scale: u128,
    // The first place past it.
    next: u64,
}

impl Encoded {
    // Reads the bytes of the number at `place`.
    fn read(bytes: Bytes, place: u64) -> Option<Encoded>
        ensures { IsEncoded (bytes_of bytes.entry) place result }
    {
        let mut value = 0;
        let mut scale = 1;
        for index in 0..MOST_BYTES {
            let byte = bytes.u8_at(place + index)?;
            value += u128::from(byte & DIGIT) * scale;
            scale *= BASE;
            if byte < CONTINUES {
                let next = place + index + 1;
                return Some(Encoded { value, scale, next });
            }
        }
        None
    }

    // The number in two's complement: the highest bit of its digits is the sign.
    fn signed(self) -> i128
        requires below { self.value < self.scale }
        requires few { self.scale ≤ 2 ^ 70 }
        ensures { result ≡ twos_complement self.value self.scale }
    {
        let value = self.value as i128;
        if 2 * self.value < self.scale {
            value
        } else {
            value - self.scale as i128
        }
    }
}
