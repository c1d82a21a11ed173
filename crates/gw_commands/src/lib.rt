#![tactic(auto)]
//! The commands of the program `gw`, each over a reader and two writers, without the arguments of the command line.

mod answer_lines;
mod ask_command;
mod asm_command;
mod capture_command;
mod check_command;
mod claims_command;
mod claims_log_command;
mod crossing_lines;
mod diff_command;
mod diff_ports_command;
mod difference_lines;
mod frames_line;
mod json_counts;
mod judge_command;
mod list_command;
mod log_counts;
mod log_diff_command;
mod notes;
mod query;
mod replay_command;
mod segments;
mod show_command;
mod stated;
mod table_command;
mod verdict_command;

pub use claims_log_command::{claims_log, claims_log_named};
pub use diff_command::{diff_named, diff_texts};
pub use diff_ports_command::{PortTexts, diff_ports, diff_ports_named};
pub use judge_command::{judge_log, judge_named};
pub use log_diff_command::{diff_log, diff_log_named};
pub use query::{answer_named, answer_query};
pub use replay_command::replay;
