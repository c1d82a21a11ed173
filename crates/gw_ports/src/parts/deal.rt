//! Dealing out the ends of the lanes to the ports.

ghost use Rattle.std.specs.Prelude.{
  ◌≡◌,
  ◌≢◌,
  ◌+◌,
  ◌*◌,
  ◌-◌,
  ◌<◌,
  ◌≤◌,
  ◌∷◌,
  ◌++◌,
  [],
  ℕ,
  length,
  map,
  slice_index_or,
  vec_len,
  IfOk,
  IsSome,
  OnOk,
  All,
  option_map,
};
ghost use Rattle.std.specs.Vec.Iter.{into_iter_items};
ghost use Rattle.gw_board.specs.Ends.{known_of};
ghost use Rattle.gw_lanes.specs.Ends.{new_inlet, new_outlet};
ghost use Rattle.gw_ports.specs.Ends.{Egress, HasLanes, lane_at};
ghost use Rattle.gw_ports.specs.Making.{AreNewEnds, IsNewLane, known_at, new_egress, egress_with};

use crate::{PortIn, PortOut};
use gw_board::Watch;
use gw_lanes::{LaneEnds, LaneIn, LaneOut};
use gw_ledger::Limits;
use std::alloc::{AllocError, Global};
use std::vec::IntoIter;

// The ends of the ports, of these watches and lanes. Both lists of lanes are walked once, side by side, by ingress port.
pub(super) fn deal(
    alloc: Global,
    limits: Limits,
    watches: Vec<Watch>,
    ends: LaneEnds,
) -> Result<(Vec<PortIn>, Vec<PortOut>), AllocError>
    requires watches { vec_len watches ≡ limits.ports }
    requires count { vec_len ends.ins ≡ limits.ports * (limits.ports - 1) }
    requires new { All (λ inlet. inlet ≡ new_inlet inlet.ring limits.lane) ends.ins.items }
    requires paired { ends.outs.items ≡ map new_outlet ends.ins.items }
    ensures known { IfOk result (λ dealt. map known_at dealt.0.items ≡ map known_of watches.items) }
    ensures ends { IfOk result (λ dealt. AreNewEnds limits.ports limits.frames limits.lane dealt.0.items dealt.1.items) }
{
    let LaneEnds { ins, outs } = ends;
    let mut froms = ins.into_iter();
    let mut tos = outs.into_iter();
    let mut port_outs = without_lanes(alloc, limits.ports() as u8)?;
    let mut port_ins = Vec::new(alloc);
    let mut port = 0;
    for watch in watches {
        let lanes = deal_from(alloc, port, &mut froms, &mut tos, &mut port_outs)?;
        port_ins.push(PortIn::new(port, limits.frames(), watch, lanes))?;
        port += 1;
    }
    Ok((port_ins, port_outs))
}

// An end for each port, without lanes.
fn without_lanes(alloc: Global, ports: u8) -> Result<Vec<PortOut>, AllocError>
    ensures count { IfOk result (λ outs. vec_len outs ≡ ports) }
    ensures new { IfOk result (λ outs. (k : ℕ) (d : Egress) → k < length outs.items
        → slice_index_or outs.items k d ≡ new_egress k []) }
{
    let mut outs = Vec::new(alloc);
    for port in 0..ports {
        outs.push(PortOut::new(alloc, port))?;
    }
    Ok(outs)
}

// Deals out the lanes from an ingress port. The answer has its ends of them, by egress port; each egress port gets the other end.
fn deal_from(
    alloc: Global,
    ingress: u8,
    froms: &mut IntoIter<LaneIn>,
    tos: &mut IntoIter<LaneOut>,
    outs: &mut [PortOut],
) -> Result<Vec<Option<LaneIn>>, AllocError>
    requires few { (ingress < length outs.old) × (length outs.old ≤ 16) }
    requires count { length outs.old ≤ length (into_iter_items froms.old) + 1 }
    requires paired { into_iter_items tos.old ≡ map new_outlet (into_iter_items froms.old) }
    requires outs { (k : ℕ) (d : Egress) → k < length outs.old
        → ((slice_index_or outs.old k d).port ≡ k) × (length (slice_index_or outs.old k d).lanes ≡ ingress) }
    ensures lanes { IfOk result (λ lanes. (vec_len lanes ≡ length outs.old) × HasLanes ingress lanes.items) }
    ensures taken { IfOk result (λ lanes. (room : ℕ)
        → All (λ inlet. inlet ≡ new_inlet inlet.ring room) (into_iter_items froms.old)
        → All (IsNewLane room) lanes.items × All (λ inlet. inlet ≡ new_inlet inlet.ring room) (into_iter_items froms.new)) }
    ensures paired { OnOk result (into_iter_items tos.new ≡ map new_outlet (into_iter_items froms.new)) }
    ensures left { OnOk result (length (into_iter_items froms.new) + length outs.old ≡ length (into_iter_items froms.old) + 1) }
    ensures size { length outs.new ≡ length outs.old }
    ensures dealt { IfOk result (λ lanes. (k : ℕ) (d : Egress) → k < length outs.old → slice_index_or outs.new k d
        ≡ egress_with (slice_index_or outs.old k d) (option_map new_outlet (lane_at lanes.items k))) }
{
    let mut lanes = Vec::new(alloc);
    for egress in 0..outs.len() {
        if egress == usize::from(ingress) {
            lanes.push(None)?;
            outs[egress].add(None)?;
        } else {
            let (from, to) = next_lane(froms, tos);
            lanes.push(Some(from))?;
            outs[egress].add(Some(to))?;
        }
    }
    Ok(lanes)
}

fn next_lane(froms: &mut IntoIter<LaneIn>, tos: &mut IntoIter<LaneOut>) -> (LaneIn, LaneOut)
    requires there { 0 < length (into_iter_items froms.old) }
    requires paired { into_iter_items tos.old ≡ map new_outlet (into_iter_items froms.old) }
    ensures from { into_iter_items froms.old ≡ result.0 ∷ into_iter_items froms.new }
    ensures to { result.1 ≡ new_outlet result.0 }
    ensures paired { into_iter_items tos.new ≡ map new_outlet (into_iter_items froms.new) }
{
    let Some(from) = froms.next() else {
        unreachable!()
    };
    let Some(to) = tos.next() else { unreachable!() };
    (from, to)
}
