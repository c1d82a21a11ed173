//! CAN frames as the records of LINKTYPE_CAN_SOCKETCAN.
#![tactic(auto)]

mod frame;
mod refusal;

pub use frame::{Frame, PAYLOAD_START, RECORD_OCTETS};
pub use refusal::{FrameRefusal, RECORD_FORM};
