//! Why there is no verdict, or no outcome.

use j1939_gateway::{
    Cause, CloseRefusal, FrameRefusal, ListRefusal, MakeRefusal, OfferRefusal, ReplaceRefusal,
    TableRefusal,
};
use std::alloc::AllocError;
use std::fmt::{Display, Formatter};
use std::{fmt, io};

/// Why there is no verdict, or no outcome.
#[derive(Drop)]
pub enum Fault {
    /// 1 to 4: octets that are no record.
    Record(FrameRefusal),
    /// 10 to 13: a text that is no listing.
    Listing(ListRefusal),
    /// 20 to 30: code that is not accepted, and the place.
    Program { why: Cause, place: usize },
    /// 50 to 55: a text that is no table.
    Table(TableRefusal),
    /// 100: memory was refused for a policy, or for an owner of one.
    OutOfMemory,
    /// 71, 80 or 83: the memory for a gateway was refused.
    NotMade(MakeRefusal),
    /// 75, 81, 82 or 84: a batch that was not published.
    NotPublished(ReplaceRefusal),
    /// 76 or 77: a frame that was not taken.
    NotTaken(OfferRefusal),
    /// 77 or 85: a gateway that was not closed.
    NotClosed(CloseRefusal),
    /// 86: no thread could be started.
    NoThread,
    /// 99: a write failed.
    WriteFailed,
}

impl Fault {
    /// The number by which the fault is known.
    fn number(&self) -> u32 {
        match self {
            Fault::Record(why) => why.number(),
            Fault::Listing(why) => why.number(),
            Fault::Program { why, .. } => why.number(),
            Fault::Table(why) => why.number(),
            Fault::OutOfMemory => 100,
            Fault::NotMade(why) => why.number(),
            Fault::NotPublished(why) => why.number(),
            Fault::NotTaken(why) => why.number(),
            Fault::NotClosed(why) => why.number(),
            Fault::NoThread => 86,
            Fault::WriteFailed => 99,
        }
    }
}

impl Display for Fault {
    fn fmt<W: fmt::Write>(&self, f: &mut Formatter<W>) -> fmt::Result {
        let number = self.number();
        match self {
            Fault::Program { place, .. } => write!(f, "refused {number} {place}"),
            _ => write!(f, "refused {number}"),
        }
    }
}

impl From<io::Error> for Fault {
    fn from(_: io::Error) -> Fault {
        Fault::WriteFailed
    }
}

impl From<AllocError> for Fault {
    fn from(_: AllocError) -> Fault {
        Fault::OutOfMemory
    }
}
