//! Hexadecimal digits of either case.

ghost use Rattle.std.specs.Prelude.{◌≡◌, ◌<◌, ◌≤◌, ◌*◌, length, IfSome};
ghost use Rattle.std.specs.List.{list_all};
ghost use Rattle.hex.specs.Hex.{hex_digit_value, is_hex_digit};
ghost use Rattle.gw_log.specs.LogFrames.{digit, pairs, spelled};

use arrayvec::ArrayVec;

/// Stands in the table for an octet that is no digit.
const NONE: u8 = 255;

/// The values of all octets as digits. A table reads a digit of either case without a jump that depends on it.
const VALUES: [u8; 256] = [
    NONE, NONE, NONE, NONE, NONE, NONE, NONE, NONE, NONE, NONE, NONE, NONE, NONE, NONE, NONE, NONE,
    NONE, NONE, NONE, NONE, NONE, NONE, NONE, NONE, NONE, NONE, NONE, NONE, NONE, NONE, NONE, NONE,
    NONE, NONE, NONE, NONE, NONE, NONE, NONE, NONE, NONE, NONE, NONE, NONE, NONE, NONE, NONE, NONE,
    0, 1, 2, 3, 4, 5, 6, 7, 8, 9, NONE, NONE, NONE, NONE, NONE, NONE, NONE, 10, 11, 12, 13, 14, 15,
    NONE, NONE, NONE, NONE, NONE, NONE, NONE, NONE, NONE, NONE, NONE, NONE, NONE, NONE, NONE, NONE,
    NONE, NONE, NONE, NONE, NONE, NONE, NONE, NONE, NONE, NONE, 10, 11, 12, 13, 14, 15, NONE, NONE,
    NONE, NONE, NONE, NONE, NONE, NONE, NONE, NONE, NONE, NONE, NONE, NONE, NONE, NONE, NONE, NONE,
    NONE, NONE, NONE, NONE, NONE, NONE, NONE, NONE, NONE, NONE, NONE, NONE, NONE, NONE, NONE, NONE,
    NONE, NONE, NONE, NONE, NONE, NONE, NONE, NONE, NONE, NONE, NONE, NONE, NONE, NONE, NONE, NONE,
    NONE, NONE, NONE, NONE, NONE, NONE, NONE, NONE, NONE, NONE, NONE, NONE, NONE, NONE, NONE, NONE,
    NONE, NONE, NONE, NONE, NONE, NONE, NONE, NONE, NONE, NONE, NONE, NONE, NONE, NONE, NONE, NONE,
    NONE, NONE, NONE, NONE, NONE, NONE, NONE, NONE, NONE, NONE, NONE, NONE, NONE, NONE, NONE, NONE,
    NONE, NONE, NONE, NONE, NONE, NONE, NONE, NONE, NONE, NONE, NONE, NONE, NONE, NONE, NONE, NONE,
    NONE, NONE, NONE, NONE, NONE, NONE, NONE, NONE, NONE, NONE, NONE, NONE, NONE, NONE, NONE, NONE,
    NONE, NONE, NONE, NONE, NONE, NONE, NONE, NONE, NONE, NONE, NONE, NONE, NONE, NONE, NONE, NONE,
    NONE, NONE, NONE, NONE, NONE, NONE, NONE,
];

/// The value of a digit.
fn value(c: u8) -> Option<u8>
    ensures value { result ≡ hex_digit_value c }
    ensures small { IfSome result (λ v. v < 16) }
{
    let value = VALUES[usize::from(c)];
    if value < 16 { Some(value) } else { None }
}

/// The value of a digit, and 0 for another octet.
pub fn digit(c: u8) -> u8
    ensures value { result ≡ digit c }
    ensures small { result < 16 }
{
    value(c).unwrap_or(0)
}

/// Whether this is a digit.
pub fn is_digit(c: u8) -> bool
    ensures { result ≡ is_hex_digit c }
{
    value(c).is_some()
}

/// Whether all are digits.
pub fn are_digits(text: &[u8]) -> bool
    ensures { result ≡ list_all is_hex_digit text.now }
{
    text.iter().all(|c| is_digit(*c))
}

/// The number that at most eight digits spell.
#[tactic(auto, using(crate::proofs::DigitValues::spelled_small))]
pub fn spelled(digits: &[u8]) -> u32
    requires { length digits.now ≤ 8 }
    ensures { result ≡ spelled digits.now }
{
    let mut n = 0;
    for c in digits {
        n = 16 * n + u32::from(digit(*c));
    }
    n
}

/// The octets that digits spell, two an octet.
pub fn octets<const N: usize>(digits: &[u8]) -> ArrayVec<u8, N>
    requires { length digits.now ≤ 2 * N }
    ensures { result.items ≡ pairs digits.now }
{
    let mut octets = ArrayVec::new();
    let mut left = digits;
    while let [high, low, more @ ..] = left {
        octets.push(16 * digit(*high) + digit(*low));
        left = more;
    }
    octets
}
