//! What a run is told by to a machine: one JSON object that has its ports, its policies and its lanes.

ghost use Rattle.std.specs.Prelude.{◌≡◌, ◌++◌, codes, map, string_bytes, IfOk};
ghost use Rattle.gw_run.specs.Forwarding.{
  port_object,
  port_objects,
  policy_object,
  policy_objects,
  lane_object,
  lane_objects,
  report_json,
};

use crate::kept::Kept;
use crate::policy_lines::count_others;
use crate::tally::{Counted, LaneTally};
use gw_ledger::InLedger;
use std::alloc::{AllocError, Global};

/// The object of so many ports.
pub(crate) fn report_json(alloc: Global, ports: u8, kept: &Kept) -> Result<String, AllocError>
    ensures { IfOk result (λ text. string_bytes text
        ≡ report_json ports kept.now.ledgers.items kept.now.lanes.items) }
{
    let taken = port_objects(alloc, &kept.ledgers)?.join(alloc, ",")?;
    let judged = policy_objects(alloc, ports, &kept.lanes)?.join(alloc, ",")?;
    let placed = lane_objects(alloc, &kept.lanes)?.join(alloc, ",")?;
    with_arrays(alloc, &taken, &judged, &placed)
}

/// The object with these texts of arrays.
fn with_arrays(alloc: Global, taken: &str, judged: &str, placed: &str) -> Result<String, AllocError>
    ensures { IfOk result (λ text. string_bytes text ≡ codes "{\"ports\":[" ++ taken.now ++ codes "],\"policies\":["
        ++ judged.now ++ codes "],\"lanes\":[" ++ placed.now ++ codes "]}\n") }
{
    let mut text = String::new(alloc);
    write!(
        text,
        "{{\"ports\":[{taken}],\"policies\":[{judged}],\"lanes\":[{placed}]}}\n"
    )?;
    Ok(text)
}

/// An object for each port, in ascending order.
fn port_objects(alloc: Global, ledgers: &[InLedger]) -> Result<Vec<String>, AllocError>
    ensures { IfOk result (λ objects. map string_bytes objects.items ≡ port_objects ledgers.now) }
{
    let mut objects = Vec::new(alloc);
    for port in 0..ledgers.len() {
        objects.push(port_object(alloc, port, &ledgers[port])?)?;
    }
    Ok(objects)
}

/// What a port counted.
fn port_object(alloc: Global, port: usize, ledger: &InLedger) -> Result<String, AllocError>
    ensures { IfOk result (λ text. string_bytes text ≡ port_object port ledger.now) }
{
    let mut text = String::new(alloc);
    let (taken, local, allowed) = (ledger.taken, ledger.local, ledger.allowed);
    write!(
        text,
        "{{\"port\":{port},\"taken\":{taken},\"local\":{local},\"allowed\":{allowed}}}"
    )?;
    Ok(text)
}

/// An object for each port's policy, in ascending order.
fn policy_objects(alloc: Global, ports: u8, lanes: &[LaneTally]) -> Result<Vec<String>, AllocError>
    ensures { IfOk result (λ objects. map string_bytes objects.items ≡ policy_objects ports lanes.now) }
{
    let mut objects = Vec::new(alloc);
    for to in 0..ports {
        objects.push(policy_object(alloc, to, lanes)?)?;
    }
    Ok(objects)
}

/// What a port's policy judged, passed and lost.
fn policy_object(alloc: Global, to: u8, lanes: &[LaneTally]) -> Result<String, AllocError>
    ensures { IfOk result (λ text. string_bytes text ≡ policy_object lanes.now to) }
{
    let judged = count_others(Counted::Judged, to, lanes);
    let passed = count_others(Counted::Passed, to, lanes);
    let lost = count_others(Counted::Lost, to, lanes);
    let mut text = String::new(alloc);
    write!(
        text,
        "{{\"port\":{to},\"judged\":{judged},\"passed\":{passed},\"lost\":{lost}}}"
    )?;
    Ok(text)
}

/// An object for each lane, by ingress port and then egress port.
fn lane_objects(alloc: Global, lanes: &[LaneTally]) -> Result<Vec<String>, AllocError>
    ensures { IfOk result (λ objects. map string_bytes objects.items ≡ lane_objects lanes.now) }
{
    let mut objects = Vec::new(alloc);
    for lane in lanes {
        objects.push(lane_object(alloc, lane)?)?;
    }
    Ok(objects)
}

/// What was placed on a lane, and what was lost there.
fn lane_object(alloc: Global, lane: &LaneTally) -> Result<String, AllocError>
    ensures { IfOk result (λ text. string_bytes text ≡ lane_object lane.now) }
{
    let (from, to) = (lane.from, lane.to);
    let (placed, lost) = (lane.placed, lane.lost);
    let mut text = String::new(alloc);
    write!(
        text,
        "{{\"from\":{from},\"to\":{to},\"placed\":{placed},\"lost\":{lost}}}"
    )?;
    Ok(text)
}
