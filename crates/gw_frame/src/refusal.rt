//! Why octets are no record.

ghost use Rattle.std.specs.Prelude.{◌≡◌};

use crate::frame::RECORD_OCTETS;
use std::error::Error;
use std::fmt;
use std::fmt::{Display, Formatter};

/// How a record is written for a person, in hexadecimal digits: the identifier word with its flags, the payload length,
/// three octets of 0, and the payload.
pub const RECORD_FORM: &str = "98FEF100 08 000000 and the payload, without spaces";

/// Why octets are no record. Of several causes the first of these is given.
#[derive(Clone, Copy, PartialEq, Eq, Debug)]
pub enum FrameRefusal {
    /// Refusal 1: below 8 octets.
    TooShort {
        /// How many there are.
        len: usize,
    },
    /// Refusal 2: above 16 octets.
    TooLong {
        /// How many there are.
        len: usize,
    },
    /// Refusal 3: the payload length, octet 4, is above 8.
    BadLength {
        /// What octet 4 says.
        said: u8,
    },
    /// Refusal 4: fewer octets than 8 and the payload length together.
    PayloadCut {
        /// What octet 4 says.
        said: u8,
        /// How many octets follow octet 7.
        there: usize,
    },
}

impl FrameRefusal {
    ghost use Rattle.gw_frame.specs.Record.{refusal_number};

    /// The number of the refusal, 1 to 4.
    pub fn number(self) -> u32
        ensures { result ≡ refusal_number self }
    {
        match self {
            FrameRefusal::TooShort { .. } => 1,
            FrameRefusal::TooLong { .. } => 2,
            FrameRefusal::BadLength { .. } => 3,
            FrameRefusal::PayloadCut { .. } => 4,
        }
    }
}

impl Display for FrameRefusal {
    fn fmt<W: fmt::Write>(&self, f: &mut Formatter<W>) -> fmt::Result {
        match self {
            FrameRefusal::TooShort { len } => write!(
                f,
                "a record has at least 8 octets, and this one has {len}"
            )?,
            FrameRefusal::TooLong { len } => write!(
                f,
                "a record has at most {RECORD_OCTETS} octets, and this one has {len}"
            )?,
            FrameRefusal::BadLength { said } => write!(
                f,
                "a payload has at most 8 octets, and octet 4 says {said}"
            )?,
            FrameRefusal::PayloadCut { said, there } => {
                write!(
                    f,
                    "the payload has {there} of the {said} octets that octet 4 says"
                )?
            }
        }
        write!(f, "; a record is written {RECORD_FORM}")
    }
}

impl Error for FrameRefusal {}
