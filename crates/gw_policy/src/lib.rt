//! Policies, batches of them for ports, and the set of policies in force.
#![tactic(auto)]

mod batch;
mod in_force;
mod law;
mod policy;
mod verdict_cache;

pub use batch::{Batch, BatchRefusal};
pub use in_force::PolicySet;
pub use law::policies_return;
pub use policy::Policy;
pub use verdict_cache::VerdictCache;
