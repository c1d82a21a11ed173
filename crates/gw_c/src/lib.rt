//! The crates for C: policies, verdicts, address claims and gateways behind handles.
#![tactic(auto)]

mod batches;
mod can;
mod claims;
mod counting;
mod fault;
mod handle;
mod inner;
mod message;
mod offering;
mod opening;
mod policies;
mod programs;
mod renewing;
mod rules;
mod sending;
mod slot;
mod stepping;
mod verdict;
mod verdicts;

ghost use Rattle.std.specs.Prelude.{◌≡◌, None};

pub use batches::{jgw_call_batch_add, jgw_call_batch_new, jgw_call_gateway_publish};
pub use can::CanFrame;
pub use claims::{
    jgw_call_claims_address, jgw_call_claims_hear, jgw_call_claims_holder, jgw_call_claims_local,
    jgw_call_claims_new,
};
pub use counting::{
    CCountersIn, CCountersOut, jgw_call_gateway_counters_in, jgw_call_gateway_counters_out,
    jgw_call_gateway_waiting,
};
pub use fault::{Names, Told};
pub use handle::Handle;
pub use offering::{COutcome, jgw_call_gateway_offer};
pub use opening::jgw_call_gateway_open;
pub use policies::{
    SockFilter, jgw_call_policy_from_assembler, jgw_call_policy_from_code,
    jgw_call_policy_from_listing, jgw_call_policy_from_table, jgw_call_policy_share,
};
pub use programs::{jgw_call_answer, jgw_call_policy_code};
pub use renewing::jgw_call_gateway_renew;
pub use rules::{jgw_call_decides, jgw_call_policy_rule_never, jgw_call_policy_rules};
pub use sending::{
    CCopy, jgw_call_gateway_next, jgw_call_gateway_next_many, jgw_call_gateway_peek,
};
use std::alloc::Global;
pub use stepping::{CStep, CTaken, jgw_call_gateway_step, jgw_call_gateway_take};
pub use verdict::jgw_call_verdict;
pub use verdicts::jgw_call_verdicts;

/// Drops what a handle holds. It holds nothing afterwards.
#[unsafe(no_mangle)]
pub extern "C" fn jgw_call_free(alloc: Global, handle: &mut Handle)
    ensures { handle.new.slot.value ≡ None }
{
    drop(handle.take(alloc));
}
