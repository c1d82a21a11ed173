//! Records in hexadecimal digits.

ghost use Rattle.std.specs.Prelude.{◌≡◌};
ghost use Rattle.gw_log.specs.LogLines.{is_recorded, recorded};

use crate::digits::{are_digits, octets};
use crate::refusal::LogRefusal;
use gw_frame::{Frame, RECORD_OCTETS};

/// How many digits the least record has.
const LEAST_DIGITS: usize = 16;

/// Whether a word is digits, as many as the least record has or more.
pub fn is_recorded(word: &[u8]) -> bool
    ensures { result ≡ is_recorded word.now }
{
    word.len() >= LEAST_DIGITS && are_digits(word)
}

/// The frame of a record in digits, two an octet.
pub fn recorded(word: &[u8]) -> Result<Frame, LogRefusal>
    ensures { result ≡ recorded word.now }
{
    if word.len() % 2 == 1 {
        return Err(LogRefusal::OddDigits);
    }
    if word.len() > 2 * RECORD_OCTETS {
        return Err(LogRefusal::BadLength);
    }
    match Frame::read(octets::<RECORD_OCTETS>(word).as_slice()) {
        Ok(frame) => Ok(frame),
        Err(_) => Err(LogRefusal::BadLength),
    }
}
