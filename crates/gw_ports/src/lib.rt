//! The ends of a gateway's ports, which threads of the caller's may use, each in its own.
#![tactic(auto)]

mod closing;
mod enqueue;
mod gate;
mod parts;
mod port_in;
mod port_out;
mod refusals;
mod running;
mod sink;

pub use closing::{CloseRefusal, LaneLeft, Report, close};
pub use gate::Gate;
pub use parts::{Parts, gateway};
pub use port_in::PortIn;
pub use port_out::PortOut;
pub use refusals::{MakeRefusal, OfferRefusal};
pub use running::{RunEnd, RunRefusal, RunReport, outcome_lists, run, run_from, run_with};
pub use sink::Sink;
