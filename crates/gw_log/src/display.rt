//! The display form of candump: `can0  18FEF100   [2]  01 02`.

ghost use Rattle.std.specs.Prelude.{◌≡◌, ◌<◌, ◌≤◌, true, false, [], ◌∷◌, Ok, Err, length, IfOk, MatchOption, MatchResult};
ghost use Rattle.gw_log.specs.LogFrames.{identifier, pairs};
ghost use Rattle.gw_log.specs.LogLines.{
  words_of,
  bracketed,
  is_direction,
  is_mark_of,
  has_direction,
  named,
  is_octet_word,
  octets_shown,
  is_request,
  shown_frame,
};

use crate::digits::{digit, is_digit};
use crate::line::is_torn;
use crate::reading;
use crate::refusal::LogRefusal;
use crate::words::word_at;
use arrayvec::ArrayVec;
use gw_frame::Frame;

/// The payload length that a word in brackets says.
pub fn bracketed(word: &[u8]) -> Result<usize, LogRefusal>
    ensures len { result ≡ bracketed word.now }
    ensures bound { IfOk result (λ len. len ≤ 8) }
{
    match word {
        [_, c @ b'0'..=b'8', b']'] => Ok(usize::from(c - b'0')),
        [_, b'0'..=b'9', b'0'..=b'9', b']'] => Err(LogRefusal::CanFd),
        _ => Err(LogRefusal::BadLength),
    }
}

/// The interface and the identifier before the brackets, which are the word with this index.
pub fn named(text: &[u8], index: usize) -> Result<(&[u8], &[u8]), LogRefusal>
    ensures { MatchResult result (λ names. named (words_of text.now) index ≡ Ok (names.0.now, names.1.now))
        (λ why. named (words_of text.now) index ≡ Err why) }
{
    match index {
        0 => Err(LogRefusal::NoFrame),
        1 => Ok((&[], word_at(text, 0))),
        2 => Ok((word_at(text, 0), word_at(text, 1))),
        5 if has_direction(text) => Ok((word_at(text, 0), word_at(text, 4))),
        _ => Err(LogRefusal::WordsBefore),
    }
}

/// Whether the words behind the interface are a direction and the marks of CAN FD.
fn has_direction(text: &[u8]) -> bool
    ensures { result ≡ has_direction (words_of text.now) }
{
    is_direction(word_at(text, 1))
        && is_mark_of(b'B', word_at(text, 2))
        && is_mark_of(b'E', word_at(text, 3))
}

/// Whether this is `RX` or `TX`.
fn is_direction(word: &[u8]) -> bool
    ensures { result ≡ is_direction word.now }
{
    word == b"RX".as_slice() || word == b"TX".as_slice()
}

/// Whether this is a mark of CAN FD, set or not.
fn is_mark_of(letter: u8, word: &[u8]) -> bool
    ensures { result ≡ is_mark_of letter word.now }
{
    match word {
        [c] => *c == b'-' || *c == letter,
        _ => false,
    }
}

/// The frame of an identifier and of the words from an index on, behind the brackets.
pub fn shown_frame(id: &[u8], text: &[u8], index: usize, len: usize) -> Result<Frame, LogRefusal>
    requires index { index ≤ length text.now }
    requires few { len ≤ 8 }
    ensures { result ≡ shown_frame (identifier id.now) (words_of text.now) index len }
{
    let word = reading::identifier(id)?;
    if is_request(text, index) {
        return reading::requested(word, len);
    }
    let octets = octets_shown(text, index, len)?;
    Ok(reading::frame(word, octets.as_slice()))
}

/// Whether the words from an index on are `remote request`.
fn is_request(text: &[u8], index: usize) -> bool
    requires { index ≤ length text.now }
    ensures { result ≡ is_request (words_of text.now) index }
{
    word_at(text, index) == b"remote".as_slice()
        && word_at(text, index + 1) == b"request".as_slice()
}

/// The octets of `len` words from an index on, each of two digits.
fn octets_shown(text: &[u8], index: usize, len: usize) -> Result<ArrayVec<u8, 8>, LogRefusal>
    requires index { index ≤ length text.now }
    requires few { len ≤ 8 }
    ensures { MatchResult result (λ octets. octets_shown (words_of text.now) index len ≡ Ok octets.items)
        (λ why. octets_shown (words_of text.now) index len ≡ Err why) }
{
    let mut octets = ArrayVec::new();
    for i in 0..len {
        match octet(word_at(text, index + i)) {
            Some(octet) => octets.push(octet),
            None => return Err(LogRefusal::BadLength),
        }
    }
    if is_torn(word_at(text, index + len)) {
        return Err(LogRefusal::DigitsBehind);
    }
    Ok(octets)
}

/// The octet that a word of two digits spells.
fn octet(word: &[u8]) -> Option<u8>
    ensures { MatchOption result (is_octet_word word.now ≡ false)
        (λ octet. (is_octet_word word.now ≡ true) × (pairs word.now ≡ octet ∷ [])) }
{
    match word {
        [high, low] if is_digit(*high) && is_digit(*low) => Some(16 * digit(*high) + digit(*low)),
        _ => None,
    }
}
