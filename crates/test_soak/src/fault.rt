//! Why nothing was soaked or timed, or not told.

use gw_ports::RunRefusal;
use std::alloc::{AllocError, AllocFailed};
use std::fmt::{Display, Formatter};
use std::{fmt, io};

/// Why nothing was soaked or timed, or not told.
#[derive(Clone, Copy)]
pub enum Fault {
    /// A write, or the reading of the words or of the clock, failed.
    Io,
    /// The words are neither two numbers above 0 nor `times`.
    WrongWords,
    /// Memory, a frame or a policy was refused.
    Unprepared,
    /// More frames, or more batches, than a gateway takes.
    TooMany,
    /// Two ways to judge a frame, or to read the board, disagree.
    Disagrees,
    /// The gateway did not run.
    NoRun(RunRefusal),
}

impl Fault {
    /// The exit status that tells the fault.
    pub fn status(self) -> u8 {
        match self {
            Fault::Io => 1,
            Fault::WrongWords => 2,
            Fault::Unprepared => 3,
            Fault::TooMany => 2,
            Fault::Disagrees => 1,
            Fault::NoRun(_) => 4,
        }
    }
}

impl Display for Fault {
    fn fmt<W: fmt::Write>(&self, f: &mut Formatter<W>) -> fmt::Result {
        match self {
            Fault::Io => f.write_str("a write failed, or the words or the clock could not be read"),
            Fault::WrongWords => f.write_str(
                "the words are how many frames each port offers and after how many offers each replacement comes, or `times`",
            ),
            Fault::Unprepared => f.write_str("memory was refused, or the input is no table"),
            Fault::TooMany => f.write_str(
                "at most 65534 replacements, and 4294967295 frames at a port",
            ),
            Fault::Disagrees => f.write_str(
                "two ways to judge a frame, or to read the board, disagree",
            ),
            Fault::NoRun(why) => write!(f, "{why}"),
        }
    }
}

impl From<AllocError> for Fault {
    fn from(_: AllocError) -> Fault {
        Fault::Unprepared
    }
}

impl<T: Drop> From<AllocFailed<T>> for Fault {
    fn from(_: AllocFailed<T>) -> Fault {
        Fault::Unprepared
    }
}

impl From<io::Error> for Fault {
    fn from(_: io::Error) -> Fault {
        Fault::Io
    }
}
