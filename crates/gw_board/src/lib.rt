//! The board: policies that one operator publishes, and that ports read without waiting.
#![tactic(auto)]

mod count;
mod history;
mod make;
mod operator;
mod refusals;
mod shelf;
mod watch;

pub use make::board;
pub use operator::Operator;
pub use refusals::{BoardRefusal, NoReading, ReplaceRefusal};
pub use watch::{Told, Watch};
