//! Lanes for copies of frames: one for each ordered pair of different ports.
#![tactic(auto)]

mod lane;
mod make;

pub use lane::{LaneIn, LaneOut, finish};
pub use make::{LaneEnds, OutOfMemory, lanes};
