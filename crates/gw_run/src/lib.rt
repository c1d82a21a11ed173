#![tactic(auto)]
//! The command `run` of the program `gw`: the frames of a trace, forwarded by a gateway that runs in threads.

mod batch;
mod dealing;
mod dealt;
mod dealt_run;
mod egress_command;
mod files;
mod first;
mod forwarding;
mod front;
mod inputs;
mod json;
mod kept;
mod lines;
mod log;
mod log_notes;
mod losses;
mod notes;
mod observing;
mod octets;
mod policy_lines;
mod port_files;
mod port_input;
mod refusal;
mod running;
mod stops;
mod taking;
mod tally;
mod waits;

pub use egress_command::{egress_named, write_egress_under};
pub use files::forward_named;
pub use forwarding::forward;
pub use gw_judge::NamedInterface;
pub use lines::Shown;
pub use observing::{NoObserver, Observer, ProgressOnStderr, Waiting};
pub use port_files::forward_files;
pub use refusal::ForwardRefusal;
pub use taking::Taking;
