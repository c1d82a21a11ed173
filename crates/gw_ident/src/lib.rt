//! Identifiers of CAN frames and NAMEs of devices on SAE J1939 networks.
#![tactic(auto)]

mod can_id;
mod name;

pub use can_id::{
    CanId, ERROR_FLAG, EXTENDED_FLAG, GLOBAL, GREATEST_EXTENDED, GREATEST_STANDARD, LEAST_PDU2,
    REMOTE_FLAG,
};
pub use name::Name;
