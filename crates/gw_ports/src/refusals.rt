//! Why a call of the gateway was refused.

ghost use Rattle.std.specs.Prelude.{◌≡◌};

use std::error::Error;
use std::fmt;
use std::fmt::{Display, Formatter};

/// Why a gateway was not made.
#[derive(Clone, Copy, PartialEq, Eq, Debug)]
pub enum MakeRefusal {
    /// 71: the memory for the ends of the ports was refused.
    OutOfMemory,
    /// 80: the board could not be made.
    Unavailable,
    /// 83: the memory for the lanes was refused.
    NoLanes,
}

impl MakeRefusal {
    ghost use Rattle.gw_ports.specs.Refusals.{make_refusal_number};

    /// The number by which the refusal is known outside: 71, 80 or 83.
    pub const fn number(self) -> u32
        ensures { result ≡ make_refusal_number self }
    {
        match self {
            MakeRefusal::OutOfMemory => 71,
            MakeRefusal::Unavailable => 80,
            MakeRefusal::NoLanes => 83,
        }
    }
}

impl Display for MakeRefusal {
    fn fmt<W: fmt::Write>(&self, f: &mut Formatter<W>) -> fmt::Result {
        f.write_str(match self {
            MakeRefusal::OutOfMemory =>
                "no memory for the ends of the ports: ask again, or for fewer ports",
            MakeRefusal::Unavailable => "no memory for the board: ask again, or for fewer ports",
            MakeRefusal::NoLanes => {
                "no memory for the lanes: ask again, for fewer ports or for shorter lanes"
            }
        })
    }
}

impl Error for MakeRefusal {}

/// Why a frame was not taken.
#[derive(Clone, Copy, PartialEq, Eq, Debug)]
pub enum OfferRefusal {
    /// 76: as many frames were taken at the port as may be.
    FramesSpent,
    /// 77: the policies in force could not be read.
    NoReading,
}

impl OfferRefusal {
    ghost use Rattle.gw_ports.specs.Refusals.{offer_refusal_number};

    /// The number by which the refusal is known outside: 76 or 77.
    pub const fn number(self) -> u32
        ensures { result ≡ offer_refusal_number self }
    {
        match self {
            OfferRefusal::FramesSpent => 76,
            OfferRefusal::NoReading => 77,
        }
    }
}

impl Display for OfferRefusal {
    fn fmt<W: fmt::Write>(&self, f: &mut Formatter<W>) -> fmt::Result {
        f.write_str(match self {
            OfferRefusal::FramesSpent => {
                "all frames of the port are taken: make the gateway with a greater limit of frames"
            }
            OfferRefusal::NoReading =>
                "the policies in force could not be read: offer the frame again",
        })
    }
}

impl Error for OfferRefusal {}
