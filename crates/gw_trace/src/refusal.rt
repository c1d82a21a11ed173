//! Why a trace is refused.

ghost use Rattle.std.specs.Prelude.{◌≡◌};
ghost use Rattle.gw_trace.specs.Refusals.{refusal_number};
ghost use Rattle.gw_trace.specs.declared.refusal.TraceRefusal.TheVariants as refusal;

use gw_frame::FrameRefusal;
use gw_io::ReadFault;
use std::error::Error;
use std::fmt;
use std::fmt::{Display, Formatter};

/// Why octets are no trace, or why they could not be read.
#[derive(Clone, Copy, PartialEq, Eq, Debug)]
pub enum TraceRefusal {
    /// Refusal 90: the file does not begin with a magic number of classic pcap.
    BadMagic,
    /// Refusal 91: the version is not 2.4.
    BadVersion,
    /// Refusal 92: the link type is not 227 (LINKTYPE_CAN_SOCKETCAN).
    BadLink,
    /// Refusal 93: a record is no frame. The index counts from 0, and stays at 18446744073709551615.
    BadRecord { index: usize, why: FrameRefusal },
    /// Refusal 94: memory was refused.
    OutOfMemory,
    /// Refusal 95: the trace ends inside its header or inside a record.
    Cut,
    /// Refusal 96: a read failed, or 16777216 reads did not reach the end.
    ReadFault,
}

impl TraceRefusal {
    /// The number of the refusal, 90 to 96.
    pub fn number(self) -> u32
        ensures { result ≡ refusal_number self }
    {
        match self {
            TraceRefusal::BadMagic => 90,
            TraceRefusal::BadVersion => 91,
            TraceRefusal::BadLink => 92,
            TraceRefusal::BadRecord { .. } => 93,
            TraceRefusal::OutOfMemory => 94,
            TraceRefusal::Cut => 95,
            TraceRefusal::ReadFault => 96,
        }
    }
}

impl Display for TraceRefusal {
    fn fmt<W: fmt::Write>(&self, f: &mut Formatter<W>) -> fmt::Result {
        match *self {
            TraceRefusal::BadMagic => f.write_str(
                "the trace is no classic pcap: it begins with none of the magic numbers a1b2c3d4 and a1b23c4d",
            ),
            TraceRefusal::BadVersion => f.write_str(
                "the trace has another version of pcap than 2.4",
            ),
            TraceRefusal::BadLink => {
                f.write_str("the trace has another link type than 227 (LINKTYPE_CAN_SOCKETCAN)")
            }
            TraceRefusal::BadRecord { index, why } => {
                write!(
                    f,
                    "record {index} of the trace, counted from 0, is no frame: {why}"
                )
            }
            TraceRefusal::OutOfMemory => f.write_str("memory was refused"),
            TraceRefusal::Cut => f.write_str("the trace ends inside its header or inside a record"),
            TraceRefusal::ReadFault => f.write_str("the trace could not be read to its end"),
        }
    }
}

impl Error for TraceRefusal {}

impl From<ReadFault> for TraceRefusal {
    ghost from_gives = { λ _ e. e ≡ refusal.ReadFault };

    fn from(_: ReadFault) -> TraceRefusal {
        TraceRefusal::ReadFault
    }
}
