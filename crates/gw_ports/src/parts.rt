//! The parts of a gateway.

ghost use Rattle.std.specs.Prelude.{◌≡◌, [], false, IfOk, All};
ghost use Rattle.gw_board.specs.Ends.{new_operator};
ghost use Rattle.gw_ports.specs.Making.{AreNewEnds, AreOfOneGateway};

use crate::refusals::MakeRefusal;
use crate::{PortIn, PortOut};
use deal::deal;
use gw_board::{Operator, board};
use gw_lanes::lanes;
use gw_ledger::Limits;
use std::alloc::Global;

mod deal;

/// The parts of a gateway: the end that publishes, and for each port both its ends, in the order of the ports.
#[derive(Drop)]
pub struct Parts {
    pub operator: Operator,
    pub ins: Vec<PortIn>,
    pub outs: Vec<PortOut>,
}

/// The parts of a new gateway: nothing is published, known, heard, placed or counted.
pub fn gateway(alloc: Global, limits: Limits) -> Result<Parts, MakeRefusal>
    ensures operator { IfOk result (λ parts. parts.operator ≡ new_operator parts.operator.board limits) }
    ensures known { IfOk result (λ parts. All
        (λ ingress. (ingress.board ≡ parts.operator.board) × (ingress.known ≡ [])) parts.ins.items) }
    ensures ends { IfOk result (λ parts. AreNewEnds limits.ports limits.frames limits.lane parts.ins.items parts.outs.items) }
    ensures one { IfOk result (λ parts. AreOfOneGateway parts.operator parts.ins.items parts.outs.items) }
{
    let Ok((operator, watches)) = board(alloc, limits) else {
        return Err(MakeRefusal::Unavailable);
    };
    let Ok(ends) = lanes(alloc, limits) else {
        return Err(MakeRefusal::NoLanes);
    };
    match deal(alloc, limits, watches, ends) {
        Ok((ins, outs)) => Ok(Parts {
            operator,
            ins,
            outs,
        }),
        Err(_) => Err(MakeRefusal::OutOfMemory),
    }
}
