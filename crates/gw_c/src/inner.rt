//! What a handle holds.

use gw_claims::Claims;
use gw_core::Core;
use gw_policy::{Batch, Policy};
use std::marker::Send;
use std::sync::Arc;

/// What a handle of C's holds. Its variant is the handle's kind.
#[derive(Drop)]
pub enum Inner {
    /// A policy, which other handles may share.
    Policy(Arc<Policy>),
    /// The addresses that are held on a segment.
    Claims(Claims),
    /// A gateway in one thread.
    Gateway(Core),
    /// Policies that are to come into force together.
    Batch(Batch),
}

/// What a handle holds may move to another thread, and so may the handle.
pub fn may_move() {
    moves::<Inner>();
}

fn moves<T: Send>() {}
