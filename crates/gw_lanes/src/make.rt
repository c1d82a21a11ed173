//! Making the lanes.

ghost use Rattle.std.specs.Prelude.{◌≡◌, ◌*◌, ◌-◌, IfOk, All, map, vec_len};
ghost use Rattle.gw_lanes.specs.Ends.{new_inlet, new_outlet};

use crate::{LaneIn, LaneOut};
use gw_ledger::Limits;
use rtrb::RingBuffer;
use std::alloc::{AllocError, Global};
use std::error::Error;
use std::fmt;
use std::fmt::{Display, Formatter};

/// Refusal 83: the memory for the lanes was refused.
#[derive(Clone, Copy, PartialEq, Eq, Debug)]
pub struct OutOfMemory;

impl OutOfMemory {
    /// The number of the refusal, 83.
    pub const fn number(self) -> u32
        ensures { result ≡ 83 }
    {
        83
    }
}

impl Display for OutOfMemory {
    fn fmt<W: fmt::Write>(&self, f: &mut Formatter<W>) -> fmt::Result {
        f.write_str("no memory for the lanes: ask again, for fewer ports or for shorter lanes")
    }
}

impl Error for OutOfMemory {}

/// The ends of the lanes, one lane for each ordered pair of different ports, both by source and then destination.
#[derive(Drop)]
pub struct LaneEnds {
    pub ins: Vec<LaneIn>,
    pub outs: Vec<LaneOut>,
}

/// The lanes of a gateway, each empty. At one place stand the two ends of one lane.
pub fn lanes(alloc: Global, limits: Limits) -> Result<LaneEnds, OutOfMemory>
    ensures count { IfOk result (λ ends. vec_len ends.ins ≡ limits.ports * (limits.ports - 1)) }
    ensures ins { IfOk result (λ ends. All (λ inlet. inlet ≡ new_inlet inlet.ring limits.lane) ends.ins.items) }
    ensures outs { IfOk result (λ ends. ends.outs.items ≡ map new_outlet ends.ins.items) }
{
    match ends(alloc, limits) {
        Ok(made) => Ok(made),
        Err(_) => Err(OutOfMemory),
    }
}

// An end knows neither of its ports: they are its place in the list.
fn ends(alloc: Global, limits: Limits) -> Result<LaneEnds, AllocError>
    ensures count { IfOk result (λ ends. vec_len ends.ins ≡ limits.ports * (limits.ports - 1)) }
    ensures ins { IfOk result (λ ends. All (λ inlet. inlet ≡ new_inlet inlet.ring limits.lane) ends.ins.items) }
    ensures outs { IfOk result (λ ends. ends.outs.items ≡ map new_outlet ends.ins.items) }
{
    let count = limits.ports() * (limits.ports() - 1);
    let mut ins = Vec::new(alloc);
    let mut outs = Vec::new(alloc);
    for _ in 0..count {
        let (from, to) = lane(alloc, limits.lane() as usize)?;
        ins.push(from)?;
        outs.push(to)?;
    }
    Ok(LaneEnds { ins, outs })
}

// A lane with room for as many copies as are asked for.
fn lane(alloc: Global, room: usize) -> Result<(LaneIn, LaneOut), AllocError>
    ensures from { IfOk result (λ ends. ends.0 ≡ new_inlet ends.0.ring room) }
    ensures to { IfOk result (λ ends. ends.1 ≡ new_outlet ends.0) }
{
    let (producer, consumer) = RingBuffer::new(alloc, room)?;
    Ok((LaneIn { producer, room }, LaneOut { consumer }))
}
