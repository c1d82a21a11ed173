//! Replay scripts: a gateway's events as lines of text, each with its answer.
#![tactic(auto)]

mod command;
mod fault;
mod laws;
mod policies;
mod said;
mod script;
mod script_reader;
mod session;
mod whole;

pub use laws::{scripts_are_answered, scripts_have_one_answer};
pub use whole::{ReplayFault, replay, replay_told};
