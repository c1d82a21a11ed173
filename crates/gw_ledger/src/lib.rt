//! Limits of a gateway, sets of ports, outcomes of frames, and the counts that balance.
#![tactic(auto)]

mod balancing;
mod ledger;
mod limits;
mod outcome;
mod port_set;

pub use balancing::balance;
pub use ledger::{InLedger, OutLedger};
pub use limits::{BadLimit, Limits};
pub use outcome::{FrameCopy, Outcome};
pub use port_set::{MAX_PORTS, PortSet, Ports};
