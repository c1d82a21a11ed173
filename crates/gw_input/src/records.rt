//! Records as text: hexadecimal digits, two for an octet.

ghost use Rattle.std.specs.Prelude.{◌≡◌, ◌%◌, IfOk, IfErr, OnOk, length};
ghost use Rattle.std.specs.List.{AllPass};
ghost use Rattle.hex.specs.Hex.{is_hex_digit};
ghost use Rattle.gw_input.specs.Records.{NamesRecord, IsRecordFault};

use gw_frame::{Frame, FrameRefusal, RECORD_FORM, RECORD_OCTETS};
use std::error::Error;
use std::fmt;
use std::fmt::{Display, Formatter};

/// Why a text is no record. Of several causes the first of these is given.
#[derive(Clone, Copy, PartialEq, Eq, Debug)]
pub enum RecordFault {
    /// 97: the first octet that is no hexadecimal digit, and its place, counted from 0.
    NoDigit { at: usize, octet: u8 },
    /// 97: an odd number of digits.
    OddDigits { digits: usize },
    /// 1 to 4: octets that are no record.
    NoRecord(FrameRefusal),
}

impl RecordFault {
    ghost use Rattle.gw_input.specs.Records.{record_number};

    /// The number that the fault is told by.
    pub fn number(&self) -> u32
        ensures { result ≡ record_number self.now }
    {
        match self {
            RecordFault::NoDigit { .. } => 97,
            RecordFault::OddDigits { .. } => 97,
            RecordFault::NoRecord(why) => why.number(),
        }
    }
}

impl Display for RecordFault {
    fn fmt<W: fmt::Write>(&self, f: &mut Formatter<W>) -> fmt::Result {
        match self {
            RecordFault::NoDigit { at, octet } => no_digit(f, *at, *octet),
            RecordFault::OddDigits { digits } => write!(
                f,
                "the record has {digits} hexadecimal digits, an odd number; two make an octet"
            ),
            RecordFault::NoRecord(why) => write!(f, "{why}"),
        }
    }
}

impl Error for RecordFault {}

fn no_digit<W: fmt::Write>(f: &mut Formatter<W>, at: usize, octet: u8) -> fmt::Result {
    match octet {
        b' '..=b'~' => write!(f, "`{}`", char::from(octet))?,
        _ => write!(f, "octet {octet}")?,
    }
    write!(
        f,
        " at place {at} of the record is no hexadecimal digit; a record is written {RECORD_FORM}"
    )
}

/// Reads the record that hexadecimal digits spell. It takes no memory.
pub fn record(text: &[u8]) -> Result<Frame, RecordFault>
    ensures named { IfOk result (λ frame. NamesRecord text.now frame) }
    ensures refused { IfErr result (IsRecordFault text.now) }
{
    spelled(text)?;
    let len = text.len() / 2;
    if len > RECORD_OCTETS {
        return Err(RecordFault::NoRecord(FrameRefusal::TooLong { len }));
    }
    let mut octets = [0; RECORD_OCTETS];
    let _decoded = hex::decode_to_slice(text, &mut octets[..len]);
    match Frame::read(&octets[..len]) {
        Ok(frame) => Ok(frame),
        Err(why) => Err(RecordFault::NoRecord(why)),
    }
}

/// Refuses a text that is not an even number of hexadecimal digits.
fn spelled(text: &[u8]) -> Result<(), RecordFault>
    ensures digits { OnOk result (AllPass is_hex_digit text.now) }
    ensures even { OnOk result (length text.now % 2 ≡ 0) }
    ensures refused { IfErr result (IsRecordFault text.now) }
{
    for (at, c) in text.iter().enumerate() {
        if !c.is_ascii_hexdigit() {
            return Err(RecordFault::NoDigit { at, octet: *c });
        }
    }
    if text.len() % 2 == 1 {
        return Err(RecordFault::OddDigits { digits: text.len() });
    }
    Ok(())
}
