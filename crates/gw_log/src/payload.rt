//! What stands behind the `#` of a frame.

ghost use Rattle.std.specs.Prelude.{◌≡◌, ◌==◌, ◌<◌, ◌≤◌, ◌%◌, ◌&&◌, nat_le, Ok, Err, length, option_map, position};
ghost use Rattle.std.specs.Prelude.{IfSome, MatchOption, MatchResult};
ghost use Rattle.std.specs.List.{list_all, list_any, slice_split};
ghost use Rattle.hex.specs.Hex.{is_hex_digit};
ghost use Rattle.gw_log.specs.LogFrames.{
  parted,
  is_dot,
  is_payload_character,
  is_bad_part,
  without_dots,
  payload,
  is_code,
  coded_payload,
  remote_length,
};

use crate::digits::{are_digits, digit, is_digit, octets};
use crate::refusal::LogRefusal;
use arrayvec::ArrayVec;

/// What stands before the first octet of this value and behind it, if there is one.
pub fn parted(octet: u8, text: &[u8]) -> Option<(&[u8], &[u8])>
    ensures { option_map (λ parts. (parts.0.now, parts.1.now)) result ≡ parted octet text.now }
{
    let at = position_of(octet, text)?;
    Some((&text[..at], &text[at + 1..]))
}

/// Where the first octet of this value stands.
pub fn position_of(octet: u8, text: &[u8]) -> Option<usize>
    ensures position { result ≡ position (λ c. c == octet) text.now }
    ensures within { IfSome result (λ at. at < length text.now) }
{
    text.iter().position(|c| *c == octet)
}

/// The octets of a payload, behind which a raw length code may stand.
pub fn coded_payload(text: &[u8]) -> Result<ArrayVec<u8, 8>, LogRefusal>
    ensures { MatchResult result (λ octets. coded_payload text.now ≡ Ok octets.items)
        (λ why. coded_payload text.now ≡ Err why) }
{
    // So nearly every payload of a log is written, and it is read in two passes.
    if is_plain(text) {
        return Ok(octets(text));
    }
    let Some((digits, code)) = parted(b'_', text) else {
        return payload(text);
    };
    let octets = payload(digits)?;
    if octets.len() < 8 || !is_code(code) {
        return Err(LogRefusal::BadCode);
    }
    Ok(octets)
}

/// Whether a text is digits alone, two an octet, of at most 8 octets.
fn is_plain(text: &[u8]) -> bool
    ensures { result ≡ (list_all is_hex_digit text.now && (nat_le (length text.now) 16 && (length text.now % 2 == 0))) }
{
    text.len() <= 16 && text.len() % 2 == 0 && are_digits(text)
}

/// The octets of pairs of digits with dots between octets.
fn payload(text: &[u8]) -> Result<ArrayVec<u8, 8>, LogRefusal>
    ensures { MatchResult result (λ octets. payload text.now ≡ Ok octets.items) (λ why. payload text.now ≡ Err why) }
{
    if text.is_empty() {
        return Ok(ArrayVec::new());
    }
    if !has_payload_characters(text) {
        return Err(LogRefusal::NoDigit);
    }
    if has_bad_part(text) {
        return Err(LogRefusal::OddDigits);
    }
    let Some(digits) = without_dots(text) else {
        return Err(LogRefusal::BadLength);
    };
    Ok(octets(digits.as_slice()))
}

/// Whether digits and dots alone stand in a text.
fn has_payload_characters(text: &[u8]) -> bool
    ensures { result ≡ list_all is_payload_character text.now }
{
    text.iter().all(|c| is_digit(*c) || *c == b'.')
}

/// Whether a dot does not stand between octets, or an octet has one digit.
fn has_bad_part(text: &[u8]) -> bool
    ensures { result ≡ list_any is_bad_part (slice_split is_dot text.now) }
{
    text.split(|c| *c == b'.').any(|part| is_bad_part(part))
}

/// Whether this is no octet of two digits, nor several.
fn is_bad_part(part: &[u8]) -> bool
    ensures { result ≡ is_bad_part part.now }
{
    part.is_empty() || part.len() % 2 == 1
}

/// The digits between the dots, if they are at most sixteen.
fn without_dots(text: &[u8]) -> Option<ArrayVec<u8, 16>>
    ensures { MatchOption result (16 < length (without_dots text.now)) (λ digits. digits.items ≡ without_dots text.now) }
{
    let mut digits = ArrayVec::new();
    for c in text {
        if *c != b'.' {
            if digits.is_full() {
                return None;
            }
            digits.push(*c);
        }
    }
    Some(digits)
}

/// Whether this is a raw length code, one digit of 9 to F.
fn is_code(code: &[u8]) -> bool
    ensures { result ≡ is_code code.now }
{
    match code {
        [c] => digit(*c) >= 9,
        _ => false,
    }
}

/// The payload length that stands behind an `R`.
pub fn remote_length(text: &[u8]) -> Option<usize>
    ensures len { result ≡ remote_length text.now }
    ensures bound { IfSome result (λ len. len ≤ 8) }
{
    match text {
        [] => Some(0),
        [c @ b'0'..=b'8'] => Some(usize::from(c - b'0')),
        [b'8', b'_', code @ ..] if is_code(code) => Some(8),
        _ => None,
    }
}
