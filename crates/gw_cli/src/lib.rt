#![tactic(auto)]
//! The command line of the program `gw`: what its arguments ask for is done by gw_commands and gw_run.

mod differing;
mod dispatch;
mod judging;
mod running;

pub use differing::diff_command;
pub use dispatch::command;
pub use judging::judge_command;
pub use running::{Console, run_command};
