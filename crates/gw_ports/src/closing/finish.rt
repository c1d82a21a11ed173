//! Ending the lanes. It takes no memory.

ghost use Rattle.std.specs.Prelude.{
  ◌≡◌,
  ◌+◌,
  ◌<◌,
  ◌≤◌,
  ◌++◌,
  ℕ,
  List,
  [],
  length,
  map,
  drop,
  slice_index_or,
  vec_len,
  vec_capacity,
};
ghost use Rattle.std.specs.Vec.Iter.{into_iter_items};
ghost use Rattle.gw_ports.specs.Ends.{lane_at, ring_to, ring_from};
ghost use Rattle.gw_ports.specs.Closing.{
  AreLeft,
  AreRooms,
  Finishes,
  Lane,
  Match,
  columns_of,
  heads,
  tails,
  lane_of,
  lanes_of,
  lanes_to,
  rows_of,
};

use super::LaneLeft;
use crate::{PortIn, PortOut};
use gw_lanes::{LaneIn, LaneOut, finish};
use std::vec::IntoIter;

// The lanes of each port out, by ingress port.
pub(super) fn take_columns(
    outs: Vec<PortOut>,
    mut columns: Vec<IntoIter<Option<LaneOut>>>,
) -> Vec<IntoIter<Option<LaneOut>>>
    requires empty { columns.items ≡ [] }
    requires enough { vec_len outs ≤ vec_capacity columns }
    ensures { map into_iter_items result.items ≡ columns_of outs.items }
{
    for port in outs {
        columns.push_reserved(port.into_lanes().into_iter());
    }
    columns
}

// What is left of each lane, by ingress port and then egress port.
pub(super) fn finish_all(
    ins: Vec<PortIn>,
    mut columns: Vec<IntoIter<Option<LaneOut>>>,
    rooms: Vec<LaneLeft>,
    mut lanes: Vec<LaneLeft>,
) -> Vec<LaneLeft>
    requires pairs { Match (rows_of ins.items) (map into_iter_items columns.items) }
    requires rooms { AreRooms (lanes_of 0 (rows_of ins.items) (map into_iter_items columns.items)) rooms.items }
    requires empty { lanes.items ≡ [] }
    requires enough { vec_len rooms ≤ vec_capacity lanes }
    ensures { AreLeft (lanes_of 0 (rows_of ins.items) (map into_iter_items columns.items)) result.items }
{
    let mut rooms = rooms.into_iter();
    for port in ins {
        finish_from(port.into_lanes(), &mut columns, &mut rooms, &mut lanes);
    }
    lanes
}

// The lanes from one port, by egress port: from each of the columns comes its next lane.
fn finish_from(
    row: Vec<Option<LaneIn>>,
    columns: &mut [IntoIter<Option<LaneOut>>],
    rooms: &mut IntoIter<LaneLeft>,
    lanes: &mut Vec<LaneLeft>,
)
    requires pairs { map ring_to row.items ≡ map ring_from (heads (map into_iter_items columns.old)) }
    requires rooms { (ingress : ℕ) × (others : List Lane)
        × AreRooms (lanes_to ingress 0 row.items (heads (map into_iter_items columns.old)) ++ others)
        (into_iter_items rooms.old) }
    requires enough { vec_len lanes.old + length (into_iter_items rooms.old) ≤ vec_capacity lanes.old }
    ensures columns { map into_iter_items columns.new ≡ tails (map into_iter_items columns.old) }
    ensures left { (ingress : ℕ) → Finishes (lanes_to ingress 0 row.items (heads (map into_iter_items columns.old)))
        (into_iter_items rooms.old) (into_iter_items rooms.new) lanes.old.items lanes.new.items }
    ensures enough { vec_len lanes.new + length (into_iter_items rooms.new) ≤ vec_capacity lanes.new }
{
    let mut egress = 0;
    for from in row {
        let to = next_lane(&mut columns[egress]);
        finish_one(from, to, rooms, lanes);
        egress += 1;
    }
}

fn next_lane(column: &mut IntoIter<Option<LaneOut>>) -> Option<LaneOut>
    ensures head { result ≡ lane_at (into_iter_items column.old) 0 }
    ensures tail { into_iter_items column.new ≡ drop 1 (into_iter_items column.old) }
{
    match column.next() {
        Some(lane) => lane,
        None => None,
    }
}

// The lane of which these are the ends, if there is one.
fn finish_one(
    from: Option<LaneIn>,
    to: Option<LaneOut>,
    rooms: &mut IntoIter<LaneLeft>,
    lanes: &mut Vec<LaneLeft>,
)
    requires pair { ring_to from ≡ ring_from to }
    requires rooms { (ingress : ℕ) × (egress : ℕ) × (others : List Lane)
        × AreRooms (lane_of ingress egress from to ++ others) (into_iter_items rooms.old) }
    requires enough { vec_len lanes.old + length (into_iter_items rooms.old) ≤ vec_capacity lanes.old }
    ensures left { (ingress egress : ℕ) → Finishes (lane_of ingress egress from to)
        (into_iter_items rooms.old) (into_iter_items rooms.new) lanes.old.items lanes.new.items }
    ensures enough { vec_len lanes.new + length (into_iter_items rooms.new) ≤ vec_capacity lanes.new }
{
    let Some(from) = from else {
        return;
    };
    let Some(to) = to else {
        return;
    };
    let Some(room) = rooms.next() else {
        unreachable!()
    };
    lanes.push_reserved(finished(from, to, room));
}

// What is left of a lane, in the room that was made for it.
fn finished(from: LaneIn, to: LaneOut, mut room: LaneLeft) -> LaneLeft
    requires lane { from.ring ≡ to.ring }
    requires empty { room.left.items ≡ [] }
    requires enough { length from.placed ≤ vec_capacity room.left + length to.taken }
    ensures ports { (result.from ≡ room.from) × (result.to ≡ room.to) }
    ensures copies { to.taken ++ result.left.items ≡ from.placed }
{
    finish(from, to, &mut room.left);
    room
}
