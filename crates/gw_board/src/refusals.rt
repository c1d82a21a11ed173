//! Why a call of the board was refused.

ghost use Rattle.std.specs.Prelude.{◌≡◌};

use gw_policy::Batch;
use std::error::Error;
use std::fmt;
use std::fmt::{Debug, Display, Formatter};

/// Why no board was made.
#[derive(Clone, Copy, PartialEq, Eq, Debug)]
pub enum BoardRefusal {
    /// 80: the memory for its ends was refused.
    Unavailable,
}

impl BoardRefusal {
    /// The number of the refusal, 80.
    pub const fn number(self) -> u32
        ensures { result ≡ 80 }
    {
        80
    }
}

impl Display for BoardRefusal {
    fn fmt<W: fmt::Write>(&self, f: &mut Formatter<W>) -> fmt::Result {
        f.write_str("no memory for the board: ask again, or for fewer ports")
    }
}

impl Error for BoardRefusal {}

/// Refusal 77: the policies in force could not be read.
#[derive(Clone, Copy, PartialEq, Eq, Debug)]
pub struct NoReading;

impl NoReading {
    /// The number of the refusal, 77.
    pub const fn number(self) -> u32
        ensures { result ≡ 77 }
    {
        77
    }
}

impl Display for NoReading {
    fn fmt<W: fmt::Write>(&self, f: &mut Formatter<W>) -> fmt::Result {
        f.write_str("the policies in force could not be read: ask again")
    }
}

impl Error for NoReading {}

/// Why a batch was not published. It comes back, except in one case.
#[derive(Drop)]
pub enum ReplaceRefusal {
    /// 81: a pair names a port that the gateway does not have.
    NoSuchPort(Batch),
    /// 75: as many batches are published as may be.
    VersionsSpent(Batch),
    /// 84: an earlier batch was refused without coming back, and the operator publishes no more.
    Stopped(Batch),
    /// 82: memory was refused. Where no batch comes back, the operator is stopped from now on.
    OutOfMemory(Option<Batch>),
}

impl ReplaceRefusal {
    ghost use Rattle.gw_board.specs.Refusals.{refusal_number};

    /// The number by which the refusal is known outside: 75, 81, 82 or 84.
    pub fn number(&self) -> u32
        ensures { result ≡ refusal_number self.now }
    {
        match self {
            ReplaceRefusal::NoSuchPort(_) => 81,
            ReplaceRefusal::VersionsSpent(_) => 75,
            ReplaceRefusal::Stopped(_) => 84,
            ReplaceRefusal::OutOfMemory(_) => 82,
        }
    }
}

impl Display for ReplaceRefusal {
    fn fmt<W: fmt::Write>(&self, f: &mut Formatter<W>) -> fmt::Result {
        f.write_str(match self {
            ReplaceRefusal::NoSuchPort(_) => {
                "the batch names a port that the gateway does not have: name ports below its number of ports"
            }
            ReplaceRefusal::VersionsSpent(_) => {
                "all versions are published: make the gateway with a greater limit of versions"
            }
            ReplaceRefusal::Stopped(_) => {
                "the operator stopped when a batch was lost: make another gateway to replace policies"
            }
            ReplaceRefusal::OutOfMemory(Some(_)) =>
                "no memory to publish the batch: hand it in again",
            ReplaceRefusal::OutOfMemory(None) => {
                "no memory to publish the batch, which is lost: the operator is stopped"
            }
        })
    }
}

// A batch has no text of its own.
impl Debug for ReplaceRefusal {
    fn fmt<W: fmt::Write>(&self, f: &mut Formatter<W>) -> fmt::Result {
        Display::fmt(self, f)
    }
}

impl Error for ReplaceRefusal {}
