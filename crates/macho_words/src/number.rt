//! The numbers among the words.

ghost use Rattle.std.specs.Prelude.{◌≡◌, ◌≤◌};
ghost use Rattle.macho_words.specs.Number.{number_in, word_number};

// How many hexadecimal digits a number has at most.
const HEXADECIMAL_DIGITS: usize = 16;
// How many decimal digits a number has at most.
const DECIMAL_DIGITS: usize = 20;

/// The number of a text: `0x` and 1 to 16 hexadecimal digits of either case, or 1 to 20 decimal
/// digits, below 2^64. Every other text is `None`.
pub fn read_number(text: &str) -> Option<u64>
    ensures { result ≡ word_number text.now }
{
    match text.strip_prefix("0x") {
        Some(digits) => digits_in(16, HEXADECIMAL_DIGITS, digits),
        None => digits_in(10, DECIMAL_DIGITS, text),
    }
}

// The number of at most so many digits of this base.
fn digits_in(base: u32, most: usize, digits: &str) -> Option<u64>
    requires least { 2 ≤ base }
    requires greatest { base ≤ 36 }
    ensures { result ≡ number_in base most digits.now }
{
    // A plus, which Rust takes before a number, is not a digit.
    if digits.len() > most || digits.starts_with('+') {
        return None;
    }
    u64::from_str_radix(digits, base).ok()
}
