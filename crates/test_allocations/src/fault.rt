//! Why a call was not made, or its answer not told.

use std::alloc::AllocFailed;
use std::fmt::{Display, Formatter};
use std::{fmt, io};

/// Why a call was not made, or its answer not told.
#[derive(Clone, Copy)]
pub enum Fault {
    /// A write failed.
    WriteFailed,
    /// The words name no call.
    WrongWords,
    /// The words, or the arguments of a call, could not be prepared: memory was refused.
    Unprepared,
}

impl Fault {
    /// The exit status that tells the fault.
    pub fn status(self) -> u8 {
        match self {
            Fault::WriteFailed => 1,
            Fault::WrongWords => 2,
            Fault::Unprepared => 3,
        }
    }
}

impl Display for Fault {
    fn fmt<W: fmt::Write>(&self, f: &mut Formatter<W>) -> fmt::Result {
        f.write_str(match self {
            Fault::WriteFailed => "a write failed",
            Fault::WrongWords => "the words name no call",
            Fault::Unprepared => "memory was refused before the call",
        })
    }
}

impl<T: Drop> From<AllocFailed<T>> for Fault {
    fn from(_: AllocFailed<T>) -> Fault {
        Fault::Unprepared
    }
}

impl From<io::Error> for Fault {
    fn from(_: io::Error) -> Fault {
        Fault::WriteFailed
    }
}
