//! Lines of a log.

ghost use Rattle.std.specs.Prelude.{◌≡◌, ◌<◌, [], length};
ghost use Rattle.gw_log.specs.LogLines.{
  words_of,
  entry,
  is_torn,
  alone,
  displayed,
  in_words,
  timed,
  said,
  line_of,
};

use crate::digits::are_digits;
use crate::display;
use crate::payload::position_of;
use crate::reading::read_frame;
use crate::recorded::{is_recorded, recorded};
use crate::refusal::LogRefusal;
use crate::words::{behind_blanks, find_marked, is_bracketed, word_at};
use gw_frame::Frame;
use std::marker::Model;

/// The most octets of a line.
pub const MAX_LINE: usize = 65_536;

/// What a line of a log says.
#[derive(Drop)]
pub struct LogLine<'a> {
    time: &'a [u8],
    interface: &'a [u8],
    frame: Frame,
}

impl<'a> Model for LogLine<'a> {
    ghost use Rattle.gw_log.specs.LogLines.{Entry};

    ghost Value = { Entry };

    ghost view = { λ l. record { time = l.time.now; interface = l.interface.now; octets = l.frame } };
}

impl<'a> LogLine<'a> {
    /// The time as it stands, brackets and all. Where the line has none, no octets.
    pub fn time(&self) -> &'a [u8]
        ensures { result.now ≡ self.now.time }
    {
        self.time
    }

    /// The interface. Where the line has none, no octets.
    pub fn interface(&self) -> &'a [u8]
        ensures { result.now ≡ self.now.interface }
    {
        self.interface
    }

    /// The frame.
    pub fn frame(&self) -> &Frame
        ensures { result.now ≡ self.now.octets }
    {
        &self.frame
    }
}

/// What a line of a log says, with its end or without it. None for blanks alone, and for a comment, which `#` begins.
///
/// `(time) interface frame` and the display form of candump are read, a frame alone too, and a record in digits. 101 to 113
/// (`LogRefusal`) refuse any other line.
#[tactic(auto, unfolding(crate::specs::LogLines::line_of))]
pub fn read_line(line: &[u8]) -> Result<Option<LogLine<'_>>, LogRefusal>
    ensures { result ≡ line_of line.now }
{
    if line.len() > MAX_LINE {
        return Err(LogRefusal::LongLine);
    }
    said(behind_blanks(line))
}

/// What a line says whose first octet is no blank.
fn said(text: &[u8]) -> Result<Option<LogLine<'_>>, LogRefusal>
    ensures { result ≡ said text.now }
{
    match text {
        [] | [b'#', ..] => Ok(None),
        [b'(', ..] => timed(text),
        _ => in_words(&[], text),
    }
}

/// What a line says that begins with a time.
fn timed(text: &[u8]) -> Result<Option<LogLine<'_>>, LogRefusal>
    ensures { result ≡ timed text.now }
{
    let Some(end) = position_of(b')', text) else {
        return Err(LogRefusal::OpenTime);
    };
    in_words(&text[..end + 1], &text[end + 1..])
}

/// What the words behind a time say.
#[tactic(auto, using(crate::proofs::WordByWord::interface_before))]
fn in_words<'a>(time: &'a [u8], text: &'a [u8]) -> Result<Option<LogLine<'a>>, LogRefusal>
    ensures { result ≡ in_words time.now (words_of text.now) }
{
    let Some(marked) = find_marked(text) else {
        return alone(time, text);
    };
    if is_bracketed(marked.word) {
        return displayed(time, text, marked.index);
    }
    if marked.index > 1 {
        return Err(LogRefusal::WordsBefore);
    }
    if is_torn(word_at(marked.behind, 0)) {
        return Err(LogRefusal::DigitsBehind);
    }
    entry(time, marked.before, read_frame(marked.word))
}

/// What a line says without a frame in candump's form: a record in digits may stand alone.
fn alone<'a>(time: &'a [u8], text: &'a [u8]) -> Result<Option<LogLine<'a>>, LogRefusal>
    ensures { result ≡ alone time.now (words_of text.now) }
{
    let word = word_at(text, 0);
    if is_recorded(word) && word_at(text, 1).is_empty() {
        entry(time, &[], recorded(word))
    } else {
        Err(LogRefusal::NoFrame)
    }
}

/// What a line of the display says.
fn displayed<'a>(
    time: &'a [u8],
    text: &'a [u8],
    index: usize,
) -> Result<Option<LogLine<'a>>, LogRefusal>
    requires { index < length text.now }
    ensures { result ≡ displayed time.now (words_of text.now) index }
{
    let len = display::bracketed(word_at(text, index))?;
    let (interface, id) = display::named(text, index)?;
    entry(
        time,
        interface,
        display::shown_frame(id, text, index + 1, len),
    )
}

/// Whether a word is octets of a payload that a blank has split off their frame.
pub fn is_torn(word: &[u8]) -> bool
    ensures { result ≡ is_torn word.now }
{
    word.len() >= 2 && are_digits(word)
}

/// The line of a time, an interface and a frame.
fn entry<'a>(
    time: &'a [u8],
    interface: &'a [u8],
    frame: Result<Frame, LogRefusal>,
) -> Result<Option<LogLine<'a>>, LogRefusal>
    ensures { result ≡ entry time.now interface.now frame }
{
    match frame {
        Ok(frame) => Ok(Some(LogLine {
            time,
            interface,
            frame,
        })),
        Err(why) => Err(why),
    }
}
