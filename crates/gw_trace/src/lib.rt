//! Traces of CAN frames: classic pcap of link type 227 (LINKTYPE_CAN_SOCKETCAN), read whole, in pieces as they come, or as
//! shares of octets that were checked once.
#![tactic(auto)]

mod byte_order;
mod checked;
mod decoded_piece;
mod partial;
mod read_frames;
mod record;
mod records;
mod refusal;
mod scan;
mod share;
mod stage;
mod trace;
mod trace_frames;

pub use byte_order::is_magic;
pub use checked::Checked;
pub use gw_io::{Tried, WriteFault, write_all};
pub use read_frames::frames;
pub use records::{Records, Taken};
pub use refusal::TraceRefusal;
pub use share::Share;
pub use trace::Trace;
pub use trace_frames::TraceFrames;
