//! Boxes of four ranges, and a point of a box that lies in none of others.
#![tactic(auto)]

mod boxes;
mod search;

pub use boxes::{Block, Point, Range};
pub use search::free_point;
