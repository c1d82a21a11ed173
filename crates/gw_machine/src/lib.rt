//! The machine that runs accepted programs on frames (Linux, Documentation/networking/filter).
#![tactic(auto)]

mod law;
mod loads;
mod registers;
mod running;
mod shifts;
mod state;

pub use law::{one_answer, soundness};
pub use running::run;
pub use state::State;
