//! The verdicts of many frames, by handle.

ghost use Rattle.std.specs.Prelude.{◌≡◌, ◌≢◌, ◌++◌, length, map, drop, Some};
ghost use Rattle.gw_c.specs.Held.{policy_in};
ghost use Rattle.gw_c.specs.Verdicts.{judged, verdict_of, answer_for};

use crate::can::CanFrame;
use crate::handle::Handle;
use crate::inner::Inner;
use crate::verdict::judge;
use gw_policy::Policy;
use std::alloc::Global;

/// Judges frames that were taken at a port. 0: each has its verdict, as of `jgw_call_verdict`. 121: the handle holds no policy.
/// 123: there is room for fewer verdicts.
#[unsafe(no_mangle)]
pub extern "C" fn jgw_call_verdicts(
    alloc: Global,
    policy: &mut Handle,
    frames: &[CanFrame],
    port: u8,
    verdicts: &mut [u32],
) -> u32
    ensures answer { result ≡ answer_for (policy_in policy.old.slot.value) (length frames.now) (length verdicts.old) }
    ensures judged { result ≡ 0 → verdicts.new ≡ map (λ can. verdict_of (policy_in policy.old.slot.value) can port) frames.now
        ++ drop (length frames.now) verdicts.old }
    ensures refused { result ≢ 0 → verdicts.new ≡ verdicts.old }
    ensures kept { policy.new.slot.value ≡ policy.old.slot.value }
{
    let Some(held) = policy.take(alloc) else {
        return 121;
    };
    let done = match &*held {
        Inner::Policy(policy) => judge_within(policy, frames, port, verdicts),
        _ => 121,
    };
    policy.put(held);
    done
}

/// The verdicts of frames, where there is room for them.
fn judge_within(policy: &Policy, frames: &[CanFrame], port: u8, verdicts: &mut [u32]) -> u32
    ensures answer { result ≡ answer_for (Some policy.now) (length frames.now) (length verdicts.old) }
    ensures judged { result ≡ 0 → verdicts.new ≡ map (λ can. judged policy.now can port) frames.now
        ++ drop (length frames.now) verdicts.old }
    ensures refused { result ≢ 0 → verdicts.new ≡ verdicts.old }
{
    if verdicts.len() < frames.len() {
        return 123;
    }
    judge_each(policy, frames, port, &mut verdicts[..frames.len()]);
    0
}

/// The verdict of each frame.
fn judge_each(policy: &Policy, frames: &[CanFrame], port: u8, verdicts: &mut [u32])
    requires { length verdicts.old ≡ length frames.now }
    ensures { verdicts.new ≡ map (λ can. judged policy.now can port) frames.now }
{
    for (i, verdict) in verdicts.iter_mut().enumerate() {
        *verdict = judge(policy, &frames[i], port);
    }
}
