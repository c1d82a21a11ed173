//! Frames in candump's form, written.

ghost use Rattle.std.specs.Prelude.{◌≡◌, ◌+◌, ◌*◌, ◌<◌, ◌≤◌, ◌++◌, length};
ghost use Rattle.hex.specs.Hex.{encode_upper};
ghost use Rattle.gw_log.specs.LogFrames.{has_flag};
ghost use Rattle.gw_log.specs.LogTexts.{upper_digit, three_digits, identifier_text, is_remote, body_text, text_of};

use arrayvec::ArrayVec;
use gw_frame::{Frame, PAYLOAD_START};
use gw_ident::{ERROR_FLAG, EXTENDED_FLAG, GREATEST_STANDARD, REMOTE_FLAG};
use std::marker::Model;

/// The most octets of a frame in candump's form: 8 digits, `#`, and 16 digits.
const ROOM: usize = 25;

/// The digits, in capitals.
const DIGITS: &[u8; 16] = b"0123456789ABCDEF";

/// A frame in candump's form.
#[derive(Drop)]
pub struct FrameText {
    octets: ArrayVec<u8, ROOM>,
}

impl Model for FrameText {
    ghost use Rattle.std.specs.Prelude.{List, ℕ};

    ghost Value = { List ℕ };

    ghost view = { λ text. text.octets.items };
}

impl FrameText {
    /// The octets.
    pub fn as_bytes(&self) -> &[u8]
        ensures { result.now ≡ self.now }
    {
        self.octets.as_slice()
    }
}

/// A frame in candump's form, in capitals and without dots.
#[tactic(auto, unfolding(crate::specs::LogTexts::text_of))]
pub fn frame_text(frame: &Frame) -> FrameText
    ensures { result ≡ text_of frame.now }
{
    let word = frame.id().word();
    let record = frame.bytes();
    let payload = &record[PAYLOAD_START..PAYLOAD_START + usize::from(record[4])];
    let mut octets = identifier_text(word);
    octets.push(b'#');
    FrameText {
        octets: with_body(octets, word, payload),
    }
}

/// The digits of an identifier word: eight, or three of an identifier of 11 bits.
fn identifier_text(word: u32) -> ArrayVec<u8, ROOM>
    ensures octets { result.items ≡ identifier_text word }
    ensures len { length result.items ≤ 8 }
{
    if is_set(ERROR_FLAG, word) {
        return with_octets(ArrayVec::new(), &(word % REMOTE_FLAG).to_be_bytes());
    }
    if is_set(EXTENDED_FLAG, word) {
        return with_octets(ArrayVec::new(), &(word % ERROR_FLAG).to_be_bytes());
    }
    three_digits(word % (GREATEST_STANDARD + 1))
}

/// Three digits of a number.
fn three_digits(n: u32) -> ArrayVec<u8, ROOM>
    requires { n < 0x800 }
    ensures octets { result.items ≡ three_digits n }
    ensures len { length result.items ≤ 8 }
{
    let mut text = ArrayVec::new();
    text.push(upper_digit((n / 256) as u8));
    text.push(upper_digit((n / 16 % 16) as u8));
    text.push(upper_digit((n % 16) as u8));
    text
}

/// A text with what stands behind `#` behind it.
fn with_body(mut text: ArrayVec<u8, ROOM>, word: u32, payload: &[u8]) -> ArrayVec<u8, ROOM>
    requires room { length text.items ≤ 9 }
    requires few { length payload.now ≤ 8 }
    ensures { result.items ≡ text.items ++ body_text word payload.now }
{
    if !is_remote(word) {
        return with_octets(text, payload);
    }
    text.push(b'R');
    if !payload.is_empty() {
        text.push(b'0' + payload.len() as u8);
    }
    text
}

/// A text with two digits for each octet behind it.
fn with_octets(mut text: ArrayVec<u8, ROOM>, octets: &[u8]) -> ArrayVec<u8, ROOM>
    requires { length text.items + 2 * length octets.now ≤ 25 }
    ensures octets { result.items ≡ text.items ++ encode_upper octets.now }
    ensures len { length result.items ≡ length text.items + 2 * length octets.now }
{
    for octet in octets {
        text.push(upper_digit(octet / 16));
        text.push(upper_digit(octet % 16));
    }
    text
}

/// Whether a frame is remote, and no error frame.
fn is_remote(word: u32) -> bool
    ensures { result ≡ is_remote word }
{
    is_set(REMOTE_FLAG, word) && !is_set(ERROR_FLAG, word)
}

/// Whether a flag of an identifier word is set.
fn is_set(flag: u32, word: u32) -> bool
    requires { 0 < flag }
    ensures { result ≡ has_flag flag word }
{
    word / flag % 2 == 1
}

/// The digit of a value.
fn upper_digit(value: u8) -> u8
    requires { value < 16 }
    ensures { result ≡ upper_digit value }
{
    DIGITS[usize::from(value)]
}
