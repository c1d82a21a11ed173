//! The rules of a policy's table, by handle.

ghost use Rattle.std.specs.Prelude.{◌≡◌, ◌≢◌, ◌≤◌, Some, IsSomeAnd};
ghost use Rattle.gw_c.specs.Held.{policy_in};
ghost use Rattle.gw_c.specs.Rules.{
  table_in,
  rules_refusal,
  rules_count,
  never_refusal,
  deciding_refusal,
  why_number,
  covering_rule,
  part_number,
  IsNeverTold,
  IsDecidedTold,
};

use crate::can::{CanFrame, frame_of};
use crate::handle::Handle;
use crate::inner::Inner;
use gw_policy::Policy;
use gw_table::{Part, WhyDead};
use std::alloc::Global;

/// Where a cause names no earlier rule.
const NOWHERE: u32 = u32::MAX;

/// `JGW_DEFAULT` and `JGW_OTHER`: the parts of a table that are no rules.
const DEFAULT: u32 = u32::MAX - 1;

const OTHER: u32 = u32::MAX - 2;

/// How many rules the table of a policy has. 0: `count` has it. 121: the handle holds no policy. 127: its policy is a program.
#[unsafe(no_mangle)]
pub extern "C" fn jgw_call_policy_rules(alloc: Global, policy: &mut Handle, count: &mut u32) -> u32
    ensures refusal { result ≡ rules_refusal (policy_in policy.old.slot.value) }
    ensures count { count.new ≡ rules_count (policy_in policy.old.slot.value) count.old }
    ensures kept { policy.new.slot.value ≡ policy.old.slot.value }
{
    let Some(held) = policy.take(alloc) else {
        return 121;
    };
    let refusal = match &*held {
        Inner::Policy(policy) => count_rules(policy, count),
        _ => 121,
    };
    policy.put(held);
    refusal
}

fn count_rules(policy: &Policy, count: &mut u32) -> u32
    ensures refusal { result ≡ rules_refusal (Some policy.now) }
    ensures count { count.new ≡ rules_count (Some policy.now) count.old }
{
    let Some(table) = policy.table() else {
        return 127;
    };
    *count = table.table().rules().len() as u32;
    0
}

/// Why the rule of this number, counted from 0, can never decide. 0: `why` and `by` tell it. 121: the handle holds no policy.
/// 127: its policy is a program. 128: its table has no rule of this number.
#[unsafe(no_mangle)]
pub extern "C" fn jgw_call_policy_rule_never(
    alloc: Global,
    policy: &mut Handle,
    rule: u32,
    why: &mut u32,
    by: &mut u32,
) -> u32
    ensures refusal { result ≡ never_refusal (policy_in policy.old.slot.value) rule }
    ensures told { result ≡ 0
        → IsSomeAnd (table_in (policy_in policy.old.slot.value)) (λ table. IsNeverTold table rule why.new by.new) }
    ensures unwritten_why { result ≢ 0 → why.new ≡ why.old }
    ensures unwritten_by { result ≢ 0 → by.new ≡ by.old }
    ensures kept { policy.new.slot.value ≡ policy.old.slot.value }
{
    let Some(held) = policy.take(alloc) else {
        return 121;
    };
    let refusal = match &*held {
        Inner::Policy(policy) => judge_rule(policy, rule, why, by),
        _ => 121,
    };
    policy.put(held);
    refusal
}

fn judge_rule(policy: &Policy, rule: u32, why: &mut u32, by: &mut u32) -> u32
    ensures refusal { result ≡ never_refusal (Some policy.now) rule }
    ensures told { result ≡ 0 → IsSomeAnd policy.now.table (λ table. IsNeverTold table rule why.new by.new) }
    ensures unwritten_why { result ≢ 0 → why.new ≡ why.old }
    ensures unwritten_by { result ≢ 0 → by.new ≡ by.old }
{
    let Some(table) = policy.table() else {
        return 127;
    };
    let table = table.table();
    if table.rules().len() <= rule as usize {
        return 128;
    }
    let cause = table.why_dead(rule as usize);
    *why = why_number(cause);
    *by = covering_rule(cause);
    0
}

fn why_number(cause: Option<WhyDead>) -> u32
    ensures { result ≡ why_number cause }
{
    match cause {
        None => 0,
        Some(WhyDead::NoGroup) => 1,
        Some(WhyDead::NoPort) => 2,
        Some(WhyDead::NoDestination) => 3,
        Some(WhyDead::Covered { .. }) => 4,
    }
}

/// The earlier rule that a cause names. A table has at most 256.
fn covering_rule(cause: Option<WhyDead>) -> u32
    requires { covering_rule cause ≤ 4294967295 }
    ensures { result ≡ covering_rule cause }
{
    match cause {
        Some(WhyDead::Covered { by }) => by as u32,
        _ => NOWHERE,
    }
}

/// The part of a policy's table that decides a frame which was taken at a port. 0: `part` has it. 3: the frame's length is above
/// 8. 121: the handle holds no policy. 127: its policy is a program.
#[unsafe(no_mangle)]
pub extern "C" fn jgw_call_decides(
    alloc: Global,
    policy: &mut Handle,
    can: &CanFrame,
    port: u8,
    part: &mut u32,
) -> u32
    ensures refusal { result ≡ deciding_refusal (policy_in policy.old.slot.value) can.now }
    ensures told { result ≡ 0
        → IsSomeAnd (table_in (policy_in policy.old.slot.value)) (λ table. IsDecidedTold table can.now port part.new) }
    ensures unwritten { result ≢ 0 → part.new ≡ part.old }
    ensures kept { policy.new.slot.value ≡ policy.old.slot.value }
{
    let Some(held) = policy.take(alloc) else {
        return 121;
    };
    let refusal = match &*held {
        Inner::Policy(policy) => decide(policy, can, port, part),
        _ => 121,
    };
    policy.put(held);
    refusal
}

fn decide(policy: &Policy, can: &CanFrame, port: u8, part: &mut u32) -> u32
    ensures refusal { result ≡ deciding_refusal (Some policy.now) can.now }
    ensures told { result ≡ 0 → IsSomeAnd policy.now.table (λ table. IsDecidedTold table can.now port part.new) }
    ensures unwritten { result ≢ 0 → part.new ≡ part.old }
{
    let Some(table) = policy.table() else {
        return 127;
    };
    let Some(frame) = frame_of(can) else {
        return 3;
    };
    // A table has at most 256 rules.
    let _rules = table.table().rules();
    *part = part_number(table.decides(&frame, port));
    0
}

/// A part of a table as C is told it.
fn part_number(part: Part) -> u32
    requires { part_number part ≤ 4294967295 }
    ensures { result ≡ part_number part }
{
    match part {
        Part::Rule(number) => number as u32,
        Part::Default => DEFAULT,
        Part::Other => OTHER,
    }
}
