//! Instructions of classic BPF: the 49 forms, their four fields, and listings of them.
#![tactic(auto)]

mod bounds;
mod code;
mod insn;
mod reading;
mod writing;

pub use bounds::{
    INTERFACE, MAX_INSNS, NEGATIVE_OFFSETS, SCRATCH_WORDS, bounds_are_those_of_linux,
};
pub use code::{decode, encode};
pub use insn::{Insn, Raw};
pub use reading::{ListRefusal, decimal_value, read_listing};
pub use writing::write_listing;
