//! Numbers.

ghost use Rattle.std.specs.Prelude.{◌≡◌, ◌≤◌, ◌<◌, length};
ghost use Rattle.std.specs.Option.{option_and_then};
ghost use Rattle.gw_text.specs.AssemblerTokens.{digits_in, number_value};
ghost use Rattle.gw_text.specs.AssemblerForms.{within};

/// The value of a number token, if it is well-formed and at most 4294967295.
pub fn value(token: &[u8]) -> Option<u32>
    ensures { result ≡ option_and_then (within 0 0xffffffff) (number_value token.now) }
{
    if token.len() < 2 || token[0] != b'0' {
        value_in(10, token)
    } else {
        match token[1] {
            b'x' | b'X' => value_in(16, &token[2..]),
            b'b' | b'B' => value_in(2, &token[2..]),
            _ => value_in(8, &token[1..]),
        }
    }
}

/// The value of digits in a base, if there are any, no other character is among them, and it is at most 4294967295.
fn value_in(base: u32, digits: &[u8]) -> Option<u32>
    requires { (2 ≤ base) × (base ≤ 16) }
    ensures { result ≡ option_and_then (within 0 0xffffffff) (digits_in base digits.now) }
{
    if digits.is_empty() {
        return None;
    }
    let mut value: u64 = 0;
    for c in digits {
        let Some(digit) = char::from(*c).to_digit(base) else {
            return None;
        };
        value = value * u64::from(base) + u64::from(digit);
        if value > 0xffff_ffff {
            return None;
        }
    }
    Some(value as u32)
}
