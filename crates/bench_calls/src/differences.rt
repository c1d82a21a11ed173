//! What two tables differ in. The call promises no more than that it returns: the driver compares the counts that it answers.

use crate::loading::load_table;
use std::alloc::Global;

/// How many pairs of parts of the tables of two TOML texts decide some frame unlike. `None`: a text is no table, or memory was
/// refused.
pub fn count_differences(alloc: Global, old: &[u8], new: &[u8]) -> Option<usize> {
    let old = load_table(alloc, old)?;
    let new = load_table(alloc, new)?;
    Some(old.differences(alloc, &new).ok()?.len())
}
