//! Room for what is left on the lanes.

ghost use Rattle.std.specs.Prelude.{◌≡◌, ◌+◌, ◌<◌, ◌≤◌, ◌++◌, ℕ, List, length, map, drop, IfOk, OnOk};
ghost use Rattle.gw_ports.specs.Closing.{
  AreRooms,
  Match,
  column_at,
  columns_of,
  lane_of,
  lanes_of,
  lanes_to,
  rows_of,
};
ghost use Rattle.gw_ports.specs.Ends.{lane_at, ring_to, ring_from};

use super::LaneLeft;
use crate::{PortIn, PortOut};
use std::alloc::{AllocError, Global};

// Room for what waits on each lane, by ingress port and then egress port. The ends stay as they are.
pub(super) fn rooms(
    alloc: Global,
    ins: &mut [PortIn],
    outs: &mut [PortOut],
) -> Result<Vec<LaneLeft>, AllocError>
    requires few { (length ins.old ≤ 16) × (length outs.old ≤ 16) }
    requires lanes { Match (rows_of ins.old) (columns_of outs.old) }
    ensures same { (ins.new ≡ ins.old) × (outs.new ≡ outs.old) }
    ensures rooms { IfOk result (λ rooms. AreRooms (lanes_of 0 (rows_of ins.old) (columns_of outs.old)) rooms.items) }
{
    let mut rooms = Vec::new(alloc);
    for ingress in 0..ins.len() {
        rooms_from(alloc, ingress as u8, &mut ins[ingress], outs, &mut rooms)?;
    }
    Ok(rooms)
}

// The same for the lanes from one port, behind what there is.
fn rooms_from(
    alloc: Global,
    ingress: u8,
    from: &mut PortIn,
    outs: &mut [PortOut],
    rooms: &mut Vec<LaneLeft>,
) -> Result<(), AllocError>
    requires few { length outs.old ≤ 16 }
    requires lanes { map ring_to from.old.lanes ≡ map ring_from (column_at ingress outs.old) }
    ensures same { (from.new ≡ from.old) × (outs.new ≡ outs.old) }
    ensures rooms { OnOk result ((new : List LaneLeft) × (rooms.new.items ≡ rooms.old.items ++ new)
        × AreRooms (lanes_to ingress 0 from.old.lanes (column_at ingress outs.old)) new) }
{
    for egress in 0..outs.len() {
        room_for(alloc, ingress, from, egress as u8, &mut outs[egress], rooms)?;
    }
    Ok(())
}

// The same for the lane between two ports, if there is one.
fn room_for(
    alloc: Global,
    ingress: u8,
    from: &mut PortIn,
    egress: u8,
    to: &mut PortOut,
    rooms: &mut Vec<LaneLeft>,
) -> Result<(), AllocError>
    requires { ring_to (lane_at from.old.lanes egress) ≡ ring_from (lane_at to.old.lanes ingress) }
    ensures same { (from.new ≡ from.old) × (to.new ≡ to.old) }
    ensures room { OnOk result ((one : List LaneLeft) × (rooms.new.items ≡ rooms.old.items ++ one)
        × AreRooms (lane_of ingress egress (lane_at from.old.lanes egress) (lane_at to.old.lanes ingress)) one) }
{
    let Some(waiting) = to.waiting_from(ingress, from, egress) else {
        return Ok(());
    };
    let left = Vec::with_capacity(alloc, waiting)?;
    rooms.push(LaneLeft {
        from: ingress,
        to: egress,
        left,
    })?;
    Ok(())
}
