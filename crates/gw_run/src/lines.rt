//! What a run is told by: a line for each port, one for each policy, and one for each lane; or one object.

ghost use Rattle.std.specs.Prelude.{◌≡◌, ◌++◌, map, string_bytes, IfOk, OnOk};
ghost use Rattle.gw_run.specs.Forwarding.{
  port_line,
  port_lines,
  lane_line,
  lane_lines,
  report_lines,
  report_text,
};

use crate::json::report_json;
use crate::kept::Kept;
use crate::policy_lines::push_policies;
use crate::tally::LaneTally;
use gw_ledger::InLedger;
use std::alloc::{AllocError, Global};

/// What a run is told by.
#[derive(Clone, Copy, PartialEq, Eq, Debug)]
pub enum Shown {
    /// A line for each port, and what is asked for behind them.
    Lines {
        /// For each port, how many frames its policy judged and let leave, and how many copies of these were lost.
        policies: bool,
        /// For each lane, how many copies were placed on it, and how many were lost there.
        lanes: bool,
    },
    /// One JSON object, which has the ports, the policies and the lanes.
    Json,
}

/// What so many ports, their policies and their lanes did, as it is to be shown.
pub(crate) fn report_text(
    alloc: Global,
    ports: u8,
    kept: &Kept,
    shown: Shown,
) -> Result<String, AllocError>
    ensures { IfOk result (λ text. string_bytes text
        ≡ report_text ports shown kept.now.ledgers.items kept.now.lanes.items) }
{
    match shown {
        Shown::Lines { policies, lanes } => report_lines(alloc, ports, kept, policies, lanes),
        Shown::Json => report_json(alloc, ports, kept),
    }
}

/// The lines of so many ports, and behind them those that are asked for of the policies and of the lanes.
fn report_lines(
    alloc: Global,
    ports: u8,
    kept: &Kept,
    policies: bool,
    lanes: bool,
) -> Result<String, AllocError>
    ensures { IfOk result (λ text. string_bytes text
        ≡ report_lines ports policies lanes kept.now.ledgers.items kept.now.lanes.items) }
{
    let mut text = String::new(alloc);
    push_ports(&mut text, &kept.ledgers)?;
    if policies {
        push_policies(&mut text, ports, &kept.lanes)?;
    }
    if lanes {
        push_lanes(&mut text, &kept.lanes)?;
    }
    Ok(text)
}

/// A line for each port, in ascending order.
fn push_ports(text: &mut String, ledgers: &[InLedger]) -> Result<(), AllocError>
    ensures { OnOk result (string_bytes text.new ≡ string_bytes text.old ++ port_lines ledgers.now) }
{
    for port in 0..ledgers.len() {
        push_port(text, port, &ledgers[port])?;
    }
    Ok(())
}

/// The line of what a port counted.
fn push_port(text: &mut String, port: usize, ledger: &InLedger) -> Result<(), AllocError>
    ensures { OnOk result (string_bytes text.new ≡ string_bytes text.old ++ port_line port ledger.now) }
{
    let (taken, local, allowed) = (ledger.taken, ledger.local, ledger.allowed);
    write!(
        text,
        "port {port} taken {taken} local {local} allowed {allowed}\n"
    )
}

/// A line for each lane, by ingress port and then egress port.
fn push_lanes(text: &mut String, lanes: &[LaneTally]) -> Result<(), AllocError>
    ensures { OnOk result (string_bytes text.new ≡ string_bytes text.old ++ lane_lines lanes.now) }
{
    for lane in lanes {
        push_lane(text, lane)?;
    }
    Ok(())
}

/// The line of what was placed on a lane, and what was lost there.
fn push_lane(text: &mut String, lane: &LaneTally) -> Result<(), AllocError>
    ensures { OnOk result (string_bytes text.new ≡ string_bytes text.old ++ lane_line lane.now) }
{
    let (from, to) = (lane.from, lane.to);
    let (placed, lost) = (lane.placed, lane.lost);
    write!(text, "lane {from} {to} placed {placed} lost {lost}\n")
}
