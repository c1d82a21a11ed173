//! The verdict of a frame, by handle.

ghost use Rattle.std.specs.Prelude.{◌≡◌};
ghost use Rattle.gw_c.specs.Held.{policy_in};
ghost use Rattle.gw_c.specs.Verdicts.{judged, verdict_of};

use crate::can::{CanFrame, frame_of};
use crate::handle::Handle;
use crate::inner::Inner;
use gw_policy::Policy;
use std::alloc::Global;

/// Whether a policy passes a frame that was taken at a port: 1, or 0. 3: the frame's length is above 8. 121: the handle holds no
/// policy.
#[unsafe(no_mangle)]
pub extern "C" fn jgw_call_verdict(
    alloc: Global,
    policy: &mut Handle,
    can: &CanFrame,
    port: u8,
) -> u32
    ensures verdict { result ≡ verdict_of (policy_in policy.old.slot.value) can.now port }
    ensures kept { policy.new.slot.value ≡ policy.old.slot.value }
{
    let Some(held) = policy.take(alloc) else {
        return 121;
    };
    let verdict = match &*held {
        Inner::Policy(policy) => judge(policy, can, port),
        _ => 121,
    };
    policy.put(held);
    verdict
}

/// The verdict of a policy.
pub fn judge(policy: &Policy, can: &CanFrame, port: u8) -> u32
    ensures { result ≡ judged policy.now can.now port }
{
    let Some(frame) = frame_of(can) else {
        return 3;
    };
    if policy.verdict(&frame, port) { 1 } else { 0 }
}
