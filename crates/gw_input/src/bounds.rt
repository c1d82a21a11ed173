//! What the texts that are read are bounded by.

/// The most octets of an input, and of a line of a script.
pub const MAX_INPUT: usize = 1_048_576;
