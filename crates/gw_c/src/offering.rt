//! Frames that are offered to a gateway, by handle.

ghost use Rattle.std.specs.Prelude.{◌≡◌, ◌≢◌, ◌<◌, ◌^◌, if◌then◌else◌, List, MatchOption};
ghost use Rattle.gw_core.specs.Start.{Heard, begun};
ghost use Rattle.gw_core.specs.Gateway.{Stands};
ghost use Rattle.gw_core.specs.declared.event.Event.{Event};
ghost use Rattle.gw_c.specs.Gateways.{gateway_in, StandsIn, Changes};
ghost use Rattle.gw_c.specs.Offers.{mask_of, outcome_told, offer_answer, IsOffered};

use crate::can::{CanFrame, frame_of};
use crate::handle::Handle;
use crate::inner::Inner;
use gw_core::Core;
use gw_ledger::{MAX_PORTS, Outcome, PortSet};
use std::alloc::Global;

/// `struct jgw_outcome`: what became of a frame. Bit p of a mask is port p.
#[repr(C)]
#[derive(Clone, Copy)]
pub struct COutcome {
    pub number: u32,
    pub front: u32,
    /// 1 or 0.
    pub local: u32,
    pub allowed: u32,
    pub placed: u32,
}

/// Takes a frame at a port, judges it, and places its copies. 0: `outcome` tells what became of it. 3: the frame's length is
/// above 8. 72: there is no such port. 73: a frame of the port is unfinished. 76: as many frames as may be were taken at the
/// port. 121: the handle holds no gateway.
#[unsafe(no_mangle)]
pub extern "C" fn jgw_call_gateway_offer(
    alloc: Global,
    gateway: &mut Handle,
    port: u8,
    can: &CanFrame,
    outcome: &mut COutcome,
) -> u32
    ensures answer { (known : Heard) (history : List Event)
        → MatchOption (gateway_in gateway.old.slot.value) (result ≡ 121) (λ core.
        Stands core known history → result ≡ offer_answer (begun core.limits known) history port can.now) }
    ensures offered { (known : Heard) (history : List Event) → StandsIn known history gateway.old.slot.value → result ≡ 0
        → Changes (IsOffered known history port can.now outcome.new) gateway.old.slot.value gateway.new.slot.value }
    ensures refused { result ≢ 0 → gateway.new.slot.value ≡ gateway.old.slot.value }
    ensures unwritten { result ≢ 0 → outcome.new ≡ outcome.old }
{
    let Some(mut held) = gateway.take(alloc) else {
        return 121;
    };
    let done = match &mut *held {
        Inner::Gateway(core) => offer(core, port, can, outcome),
        _ => 121,
    };
    gateway.put(held);
    done
}

fn offer(core: &mut Core, port: u8, can: &CanFrame, outcome: &mut COutcome) -> u32
    ensures answer { (known : Heard) (history : List Event) → Stands core.old known history
        → result ≡ offer_answer (begun core.old.limits known) history port can.now }
    ensures offered { (known : Heard) (history : List Event) → Stands core.old known history → result ≡ 0
        → IsOffered known history port can.now outcome.new core.old core.new }
    ensures refused { result ≢ 0 → core.new ≡ core.old }
    ensures unwritten { result ≢ 0 → outcome.new ≡ outcome.old }
{
    let Some(frame) = frame_of(can) else {
        return 3;
    };
    match core.forward(port, frame) {
        Ok(forwarded) => {
            *outcome = outcome_told(&forwarded);
            0
        }
        Err(why) => why.number(),
    }
}

/// An outcome as C is told it.
pub fn outcome_told(outcome: &Outcome) -> COutcome
    ensures { result ≡ outcome_told outcome.now }
{
    COutcome {
        number: outcome.number,
        front: outcome.front,
        local: u32::from(outcome.local),
        allowed: mask_of(outcome.allowed),
        placed: mask_of(outcome.placed),
    }
}

/// A set of ports as a mask.
fn mask_of(ports: PortSet) -> u32
    ensures { result ≡ mask_of ports }
{
    // The set's ports are below 16.
    let _count = ports.len();
    let mut mask = 0;
    for port in 0..MAX_PORTS as u8 {
        mask += bit_of(ports.has(port), port);
    }
    mask
}

/// The bit of a port, where it is there.
fn bit_of(is_there: bool, port: u8) -> u32
    requires { port < 16 }
    ensures { result ≡ (if is_there then 2 ^ port else 0) }
{
    if is_there { 1 << port } else { 0 }
}
