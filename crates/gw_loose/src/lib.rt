//! A box as its pointer, for a struct that C keeps.
#![tactic(auto)]

mod loose;

pub use loose::Loose;
