//! The calling thread publishes.

use crate::Gate;
use gw_board::{Operator, ReplaceRefusal};
use gw_policy::Batch;
use std::sync::Wait;

/// An operator that is to publish batches, with room for their fronts.
#[derive(Drop)]
pub(super) struct Publishing {
    pub operator: Operator,
    pub batches: Vec<Batch>,
    pub fronts: Vec<u32>,
}

/// An operator that has published batches, up to the one that was refused.
#[derive(Drop)]
pub(super) struct Published {
    pub operator: Operator,
    pub fronts: Vec<u32>,
    pub refused: Option<ReplaceRefusal>,
}

impl Publishing {
    ghost use Rattle.std.specs.Prelude.{◌≡◌, ◌≤◌, [], vec_len, vec_capacity};
    ghost use Rattle.gw_ports.specs.Running.{Publishes};

    /// Publishes the batches in order, until one is refused.
    pub fn publish<R: Wait, G: Gate>(self, rt: &R, gate: &G) -> Published
        requires { (self.fronts.items ≡ []) × (vec_len self.batches ≤ vec_capacity self.fronts) }
        ensures { Publishes self.operator self.batches.items result.fronts.items result.refused result.operator }
    {
        let Publishing {
            mut operator,
            batches,
            mut fronts,
        } = self;
        for batch in batches {
            let index = fronts.len();
            gate.before_replace(index);
            let replaced = operator.replace(rt, batch);
            gate.replaced(index);
            match replaced {
                Ok(front) => fronts.push_reserved(front),
                Err(why) => {
                    return Published {
                        operator,
                        fronts,
                        refused: Some(why),
                    };
                }
            }
        }
        Published {
            operator,
            fronts,
            refused: None,
        }
    }
}
