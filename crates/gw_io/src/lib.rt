//! Readers and writers that remember whether a call failed, what a reader gives piece by piece, and whole texts, written.
#![tactic(auto)]

mod full_write;
mod pieces;
mod reading;
mod tried;
mod writing;

pub use full_write::{WriteFault, write_all};
pub use pieces::{MAX_READS, Pieces, ReadFault};
pub use tried::Tried;
