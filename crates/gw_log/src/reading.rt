//! Frames from candump's form.

ghost use Rattle.std.specs.Prelude.{◌≡◌, ◌==◌, ◌<◌, ◌≤◌, Some, length, slice_index, IfOk};
ghost use Rattle.gw_log.specs.LogFrames.{
  record_of,
  has_flag,
  short_word,
  long_word,
  identifier,
  coded_payload,
  with_word,
  remote_length,
  remote_of,
  body,
  frame_of,
};

use crate::digits::{are_digits, spelled};
use crate::payload;
use crate::refusal::LogRefusal;
use arrayvec::ArrayVec;
use gw_frame::{Frame, RECORD_OCTETS};
use gw_ident::{ERROR_FLAG, EXTENDED_FLAG, GREATEST_STANDARD, REMOTE_FLAG};

/// The frame that a text in candump's form means: `18FEF100#0102030405060708`, `123#R3`.
///
/// Eight digits make an extended identifier. Where they have 0x20000000 set, they are an error frame's word as it stands.
/// Three digits make an identifier of 11 bits.
///
/// Any other text is refused: 101 for a frame of CAN FD, 103 where no `#` stands, and 106 to 112 (`LogRefusal`).
#[tactic(auto, unfolding(crate::specs::LogFrames::frame_of))]
pub fn read_frame(text: &[u8]) -> Result<Frame, LogRefusal>
    ensures { result ≡ frame_of text.now }
{
    let Some((digits, behind)) = payload::parted(b'#', text) else {
        return Err(LogRefusal::NoFrame);
    };
    if is_can_fd(behind) {
        return Err(LogRefusal::CanFd);
    }
    let word = identifier(digits)?;
    carried(word, behind)
}

/// Whether a second `#` stands behind the first.
fn is_can_fd(behind: &[u8]) -> bool
    ensures { result ≡ (slice_index behind.now 0 == 35) }
{
    matches!(behind, [b'#', ..])
}

/// The frame of an identifier word and of what stands behind `#`.
fn carried(word: u32, behind: &[u8]) -> Result<Frame, LogRefusal>
    requires { word < 0xA000_0000 }
    ensures { result ≡ body word behind.now }
{
    match behind {
        [b'R' | b'r', len @ ..] => remote_frame(word, len),
        _ => data_frame(word, behind),
    }
}

/// The identifier word of 3 or 8 digits.
pub fn identifier(digits: &[u8]) -> Result<u32, LogRefusal>
    ensures word { result ≡ identifier digits.now }
    ensures bound { IfOk result (λ word. word < 0xA000_0000) }
{
    if !are_digits(digits) {
        return Err(LogRefusal::NoDigit);
    }
    match digits.len() {
        3 => short_word(spelled(digits)),
        8 => long_word(spelled(digits)),
        _ => Err(LogRefusal::BadDigits),
    }
}

/// The identifier word of the number that 3 digits spell.
fn short_word(n: u32) -> Result<u32, LogRefusal>
    ensures word { result ≡ short_word n }
    ensures bound { IfOk result (λ word. word < 0xA000_0000) }
{
    if n <= GREATEST_STANDARD {
        Ok(n)
    } else {
        Err(LogRefusal::WideId)
    }
}

/// The identifier word of the number that 8 digits spell: an extended one, or an error frame's as it stands.
fn long_word(n: u32) -> Result<u32, LogRefusal>
    ensures word { result ≡ long_word n }
    ensures bound { IfOk result (λ word. word < 0xA000_0000) }
{
    if n < ERROR_FLAG {
        Ok(n + EXTENDED_FLAG)
    } else if n < REMOTE_FLAG {
        Ok(n)
    } else {
        Err(LogRefusal::WideId)
    }
}

/// The frame of an identifier word and of what stands behind `#`, which is no remote frame's.
fn data_frame(word: u32, text: &[u8]) -> Result<Frame, LogRefusal>
    ensures { result ≡ with_word word (coded_payload text.now) }
{
    let octets = payload::coded_payload(text)?;
    Ok(frame(word, octets.as_slice()))
}

/// The remote frame of an identifier word and of what stands behind `R`.
fn remote_frame(word: u32, text: &[u8]) -> Result<Frame, LogRefusal>
    requires { word < 0xA000_0000 }
    ensures { result ≡ remote_of word (remote_length text.now) }
{
    match payload::remote_length(text) {
        Some(len) => requested(word, len),
        None => Err(LogRefusal::BadRemote),
    }
}

/// The remote frame of an identifier word and a length.
pub fn requested(word: u32, len: usize) -> Result<Frame, LogRefusal>
    requires bound { word < 0xA000_0000 }
    requires few { len ≤ 8 }
    ensures { result ≡ remote_of word (Some len) }
{
    if word / ERROR_FLAG % 2 == 1 {
        return Err(LogRefusal::BadRemote);
    }
    Ok(frame(word + REMOTE_FLAG, &[0; 8][..len]))
}

/// The frame of an identifier word and a payload.
pub fn frame(word: u32, payload: &[u8]) -> Frame
    requires { length payload.now ≤ 8 }
    ensures { result ≡ record_of word payload.now }
{
    let [a, b, c, d] = word.to_be_bytes();
    let mut record = ArrayVec::<u8, RECORD_OCTETS>::new();
    let _fits = record.try_extend_from_slice(&[a, b, c, d, payload.len() as u8, 0, 0, 0]);
    let _fits = record.try_extend_from_slice(payload);
    match Frame::read(record.as_slice()) {
        Ok(frame) => frame,
        Err(_) => unreachable!(),
    }
}
