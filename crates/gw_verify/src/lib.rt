//! Accepted programs: the checks of classic BPF code, and paths that explain a refusal.
#![tactic(auto)]

mod arrival;
mod cause;
mod checks;
mod law;
mod marks;
mod next;
mod own_fault;
mod path;
mod program;
mod refused;

pub use cause::Cause;
pub use law::{accepted_is_orderly, one_refusal};
pub use path::{Path, explain, holds};
pub use program::Program;
pub use refused::Refused;
