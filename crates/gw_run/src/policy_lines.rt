//! What the policies of a run did: a line for each port.

ghost use Rattle.std.specs.Prelude.{◌≡◌, ◌++◌, ◌<◌, ◌^◌, string_bytes, OnOk};
ghost use Rattle.gw_run.specs.Forwarding.{count_others, count_to, policy_line, policy_lines};

use crate::tally::{Counted, LaneTally};
use std::alloc::AllocError;

/// A line for each port's policy, in ascending order.
pub(crate) fn push_policies(
    text: &mut String,
    ports: u8,
    lanes: &[LaneTally],
) -> Result<(), AllocError>
    ensures { OnOk result (string_bytes text.new ≡ string_bytes text.old ++ policy_lines ports lanes.now) }
{
    for to in 0..ports {
        push_policy(text, to, lanes)?;
    }
    Ok(())
}

/// The line of what a port's policy judged, passed and lost.
fn push_policy(text: &mut String, to: u8, lanes: &[LaneTally]) -> Result<(), AllocError>
    ensures { OnOk result (string_bytes text.new ≡ string_bytes text.old ++ policy_line lanes.now to) }
{
    let judged = count_others(Counted::Judged, to, lanes);
    let passed = count_others(Counted::Passed, to, lanes);
    let lost = count_others(Counted::Lost, to, lanes);
    write!(
        text,
        "policy {to} judged {judged} passed {passed} lost {lost}\n"
    )
}

/// How many of the frames of all other ports are counted for a port.
pub(crate) fn count_others(what: Counted, to: u8, lanes: &[LaneTally]) -> u128
    ensures { result ≡ count_others what to lanes.now }
{
    let mut count = 0u128;
    for lane in lanes {
        count += count_to(what, to, lane);
    }
    count
}

/// How many frames are counted for a port on a lane.
fn count_to(what: Counted, to: u8, lane: &LaneTally) -> u128
    ensures count { result ≡ count_to what to lane.now }
    ensures few { result < 2 ^ 65 }
{
    if lane.to == to { lane.count(what) } else { 0 }
}
