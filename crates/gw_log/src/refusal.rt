//! Why a text is no frame in candump's form, and a line of a log says none.

ghost use Rattle.std.specs.Prelude.{◌≡◌};

use std::error::Error;
use std::fmt;
use std::fmt::{Display, Formatter};

/// How a frame is written for a person, in candump's form.
pub const FRAME_FORM: &str = "18FEF100#0102, or 123#R for a remote one";

/// Why a text is no classic frame in candump's form, or a line of a log says none. Of several causes the first of these is
/// given, but that those of a line (113, 102 to 105) come before a frame's, and an identifier's (106 to 108) before a payload's.
#[derive(Clone, Copy, PartialEq, Eq, Debug)]
pub enum LogRefusal {
    /// 101: a frame of CAN FD, with `##`, or with a length of two digits in brackets.
    CanFd,
    /// 102: a time without its `)`.
    OpenTime,
    /// 103: no `#`; in a line no word with one, none of brackets behind an identifier, and no record in digits alone.
    NoFrame,
    /// 104: more than an interface between the time and the frame.
    WordsBefore,
    /// 105: a word of two hexadecimal digits or more right behind the frame.
    DigitsBehind,
    /// 106: an octet that is no hexadecimal digit, in the identifier or in the payload.
    NoDigit,
    /// 107: an identifier of neither 3 nor 8 digits.
    BadDigits,
    /// 108: an identifier of 3 digits above 7FF, or of 8 above 3FFFFFFF.
    WideId,
    /// 109: an octet of one digit, also in a record, or a dot that does not stand between octets.
    OddDigits,
    /// 110: more than 8 octets, or not as many as the brackets or the record say.
    BadLength,
    /// 111: behind the `R` of a remote frame no length of 0 to 8; or a remote frame that is an error frame.
    BadRemote,
    /// 112: a raw length code that is not one digit of 9 to F behind 8 octets.
    BadCode,
    /// 113: a line of more than 65536 octets.
    LongLine,
}

impl LogRefusal {
    ghost use Rattle.gw_log.specs.LogFrames.{refusal_number};

    /// All of them, by their numbers.
    pub const ALL: [LogRefusal; 13] = [
        LogRefusal::CanFd,
        LogRefusal::OpenTime,
        LogRefusal::NoFrame,
        LogRefusal::WordsBefore,
        LogRefusal::DigitsBehind,
        LogRefusal::NoDigit,
        LogRefusal::BadDigits,
        LogRefusal::WideId,
        LogRefusal::OddDigits,
        LogRefusal::BadLength,
        LogRefusal::BadRemote,
        LogRefusal::BadCode,
        LogRefusal::LongLine,
    ];

    /// The number of the refusal, 101 to 113.
    pub fn number(self) -> u32
        ensures { result ≡ refusal_number self }
    {
        match self {
            LogRefusal::CanFd => 101,
            LogRefusal::OpenTime => 102,
            LogRefusal::NoFrame => 103,
            LogRefusal::WordsBefore => 104,
            LogRefusal::DigitsBehind => 105,
            LogRefusal::NoDigit => 106,
            LogRefusal::BadDigits => 107,
            LogRefusal::WideId => 108,
            LogRefusal::OddDigits => 109,
            LogRefusal::BadLength => 110,
            LogRefusal::BadRemote => 111,
            LogRefusal::BadCode => 112,
            LogRefusal::LongLine => 113,
        }
    }

    fn words(self) -> &'static str {
        match self {
            LogRefusal::CanFd => "`##` begins a frame of CAN FD, and a classic one has one `#`",
            LogRefusal::OpenTime => "a time ends with `)`",
            LogRefusal::NoFrame => "no `#` stands between an identifier and a payload",
            LogRefusal::WordsBefore => "between the time and the frame stands an interface at most",
            LogRefusal::DigitsBehind => "a blank stands between the octets of a payload",
            LogRefusal::NoDigit => {
                "something else than a hexadecimal digit stands in the identifier or the payload"
            }
            LogRefusal::BadDigits => "an identifier has 3 digits, or 8 for an extended one",
            LogRefusal::WideId => {
                "3 digits are at most 7FF and 8 at most 3FFFFFFF, without the flag of an extended one"
            }
            LogRefusal::OddDigits =>
                "an octet has two digits, and a dot stands between octets alone",
            LogRefusal::BadLength => {
                "a payload has at most 8 octets, and as many as its line says"
            }
            LogRefusal::BadRemote => {
                "behind `R` stands a length of 0 to 8 or nothing, and no error frame is remote"
            }
            LogRefusal::BadCode => "behind `_` stands one digit of 9 to F, and before it 8 octets",
            LogRefusal::LongLine => "a line has at most 65536 octets",
        }
    }
}

impl Display for LogRefusal {
    fn fmt<W: fmt::Write>(&self, f: &mut Formatter<W>) -> fmt::Result {
        write!(f, "{}; a frame is written {FRAME_FORM}", self.words())
    }
}

impl Error for LogRefusal {}
