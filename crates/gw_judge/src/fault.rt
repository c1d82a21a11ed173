//! Why judging ends before the end of its log.

ghost use Rattle.std.specs.Prelude.{◌≡◌};
ghost use Rattle.gw_judge.specs.declared.fault.JudgeFault.TheVariants as judging;

use gw_io::ReadFault;
use gw_log::LogRefusal;
use std::error::Error;
use std::fmt;
use std::fmt::{Display, Formatter};

/// A line that says no classic frame.
#[derive(Clone, Copy, PartialEq, Eq, Debug)]
pub struct RefusedLine {
    /// Its number, counted from 1 up to 18446744073709551615.
    pub line: u64,
    pub why: LogRefusal,
}

/// Why judging ended before the end of its log.
#[derive(Clone, Copy, PartialEq, Eq, Debug)]
pub enum JudgeFault {
    /// 96: a read failed, or a log has more than 18446744073709551615 octets.
    ReadFault,
    /// 99: a write failed.
    WriteFault,
    /// 101 to 113: strictly, the first line that is refused.
    Refused(RefusedLine),
}

impl JudgeFault {
    ghost use Rattle.gw_judge.specs.Judged.{fault_number};

    /// The number of the fault: 96, 99, or that of the line's refusal.
    pub fn number(self) -> u32
        ensures { result ≡ fault_number self }
    {
        match self {
            JudgeFault::ReadFault => 96,
            JudgeFault::WriteFault => 99,
            JudgeFault::Refused(refused) => refused.why.number(),
        }
    }
}

impl Display for JudgeFault {
    fn fmt<W: fmt::Write>(&self, f: &mut Formatter<W>) -> fmt::Result {
        match self {
            JudgeFault::ReadFault => f.write_str("the log could not be read to its end"),
            JudgeFault::WriteFault => f.write_str("the lines could not be written"),
            JudgeFault::Refused(refused) => write!(f, "line {}: {}", refused.line, refused.why),
        }
    }
}

impl Error for JudgeFault {}

impl From<ReadFault> for JudgeFault {
    ghost from_gives = { λ _ fault. fault ≡ judging.ReadFault };

    fn from(_: ReadFault) -> JudgeFault {
        JudgeFault::ReadFault
    }
}
