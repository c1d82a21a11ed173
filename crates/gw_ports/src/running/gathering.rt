//! Gathers what the threads of a run did, port by port. It takes no memory.

use super::drain::Drain;
use super::feed::Done;
use crate::{OfferRefusal, PortIn, PortOut};
use std::alloc::{AllocError, Global};

/// The ingress ports by number, with what is left of their inputs, their sinks, and why they stopped.
#[derive(Drop)]
pub(super) struct IngressPorts<I, O> {
    pub ports: Vec<PortIn>,
    pub inputs: Vec<I>,
    pub outcomes: Vec<O>,
    pub stops: Vec<Option<OfferRefusal>>,
}

impl<I: Drop, O: Drop> IngressPorts<I, O> {
    ghost use Rattle.std.specs.Prelude.{◌≡◌, ◌≤◌, [], IfOk, map, vec_capacity, vec_len};
    ghost use Rattle.gw_ports.specs.Running.{HasRoomIn};

    /// None yet, and room for so many.
    pub fn with_room(alloc: Global, ports: usize) -> Result<IngressPorts<I, O>, AllocError>
        ensures { IfOk result (HasRoomIn ports) }
    {
        Ok(IngressPorts {
            ports: Vec::with_capacity(alloc, ports)?,
            inputs: Vec::with_capacity(alloc, ports)?,
            outcomes: Vec::with_capacity(alloc, ports)?,
            stops: Vec::with_capacity(alloc, ports)?,
        })
    }

    pub fn gather(self, done: Vec<Done<I, O>>) -> IngressPorts<I, O>
        requires { HasRoomIn (vec_len done) self }
        ensures ports { result.ports.items ≡ map (λ one. one.port) done.items }
        ensures inputs { result.inputs.items ≡ map (λ one. one.input) done.items }
        ensures outcomes { result.outcomes.items ≡ map (λ one. one.outcomes) done.items }
        ensures stops { result.stops.items ≡ map (λ one. one.stop) done.items }
    {
        let mut gathered = self;
        for one in done {
            gathered.ports.push_reserved(one.port);
            gathered.inputs.push_reserved(one.input);
            gathered.outcomes.push_reserved(one.outcomes);
            gathered.stops.push_reserved(one.stop);
        }
        gathered
    }
}

/// The egress ports by number, and their sinks.
#[derive(Drop)]
pub(super) struct EgressPorts<C> {
    pub ports: Vec<PortOut>,
    pub out: Vec<C>,
}

impl<C: Drop> EgressPorts<C> {
    ghost use Rattle.std.specs.Prelude.{◌≡◌, ◌≤◌, [], IfOk, map, vec_capacity, vec_len};
    ghost use Rattle.gw_ports.specs.Running.{HasRoomOut};

    /// None yet, and room for so many.
    pub fn with_room(alloc: Global, ports: usize) -> Result<EgressPorts<C>, AllocError>
        ensures { IfOk result (HasRoomOut ports) }
    {
        Ok(EgressPorts {
            ports: Vec::with_capacity(alloc, ports)?,
            out: Vec::with_capacity(alloc, ports)?,
        })
    }

    pub fn gather(self, drained: Vec<Drain<C>>) -> EgressPorts<C>
        requires { HasRoomOut (vec_len drained) self }
        ensures ports { result.ports.items ≡ map (λ one. one.port) drained.items }
        ensures out { result.out.items ≡ map (λ one. one.out) drained.items }
    {
        let mut gathered = self;
        for one in drained {
            gathered.ports.push_reserved(one.port);
            gathered.out.push_reserved(one.out);
        }
        gathered
    }
}
