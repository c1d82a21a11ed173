//! Numbers and texts of the refusals.

ghost use Rattle.std.specs.Prelude.{◌≡◌};
ghost use Rattle.gw_core.specs.Refusals.{out_of_memory_number, refusal_number, renew_refusal_number};

use crate::event::EventRefusal;
use std::error::Error;
use std::fmt;
use std::fmt::{Display, Formatter};

/// Refusal 71: the memory that a gateway or the answers of its events need was refused.
#[derive(Clone, Copy, PartialEq, Eq, Debug)]
pub struct OutOfMemory;

impl OutOfMemory {
    /// The number of the refusal, 71.
    pub const fn number(self) -> u32
        ensures { result ≡ out_of_memory_number }
    {
        71
    }
}

impl Display for OutOfMemory {
    fn fmt<W: fmt::Write>(&self, f: &mut Formatter<W>) -> fmt::Result {
        f.write_str(
            "no memory for the gateway: ask again, for fewer ports, shorter lanes or fewer versions",
        )
    }
}

impl Error for OutOfMemory {}

/// Why a gateway does not begin anew: the first of these, in this order.
#[derive(Clone, Copy, PartialEq, Eq, Debug)]
pub enum RenewRefusal {
    /// 73: a frame is unfinished.
    Busy,
    /// 126: a copy waits.
    CopiesWait,
    /// 100: a policy in force has too many owners.
    TooManyOwners,
}

impl RenewRefusal {
    /// The number of the refusal: 73, 126 or 100.
    pub const fn number(self) -> u32
        ensures { result ≡ renew_refusal_number self }
    {
        match self {
            RenewRefusal::Busy => 73,
            RenewRefusal::CopiesWait => 126,
            RenewRefusal::TooManyOwners => 100,
        }
    }
}

impl Display for RenewRefusal {
    fn fmt<W: fmt::Write>(&self, f: &mut Formatter<W>) -> fmt::Result {
        f.write_str(match self {
            RenewRefusal::Busy => "a frame is unfinished: step each port's frame to its end first",
            RenewRefusal::CopiesWait => "a copy waits: send the copies of all ports first",
            RenewRefusal::TooManyOwners => "a policy in force has too many owners: let one go",
        })
    }
}

impl Error for RenewRefusal {}

impl EventRefusal {
    /// The number of the refusal, 72 to 76.
    pub const fn number(self) -> u32
        ensures { result ≡ refusal_number self }
    {
        match self {
            EventRefusal::NoSuchPort => 72,
            EventRefusal::Busy => 73,
            EventRefusal::Idle => 74,
            EventRefusal::VersionsSpent => 75,
            EventRefusal::FramesSpent => 76,
        }
    }
}

impl Display for EventRefusal {
    fn fmt<W: fmt::Write>(&self, f: &mut Formatter<W>) -> fmt::Result {
        f.write_str(match self {
            EventRefusal::NoSuchPort => {
                "the event names a port that is not there: ports count from 0, and a copy is sent at another port \
                 than its frame was taken at"
            }
            EventRefusal::Busy =>
                "a frame of the port is unfinished: step it to its end before the next is taken",
            EventRefusal::Idle => "the port has no unfinished frame to step: take one first",
            EventRefusal::VersionsSpent =>
                "as many batches were published as the limits allow: make a gateway of more versions",
            EventRefusal::FramesSpent =>
                "as many frames were taken at the port as the limits allow: make a gateway of more frames",
        })
    }
}

impl Error for EventRefusal {}
