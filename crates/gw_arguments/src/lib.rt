#![tactic(auto)]
//! The arguments of the command line of the program `gw`: what `clap` reads of them, and shows as help.

mod arguments;
mod ask_arguments;
mod diff_arguments;
mod egress_arguments;
mod form;
mod forms;
mod input_arguments;
mod judge_arguments;
mod port_files;
mod run_arguments;
mod source_arguments;
mod taking_arguments;

pub use arguments::{Request, read_arguments};
pub use diff_arguments::{DiffRequest, read_diff};
pub use egress_arguments::EgressRequest;
pub use judge_arguments::{JudgeRequest, read_judge};
pub use run_arguments::{RunRequest, read_run};
