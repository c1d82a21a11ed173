//! A frame that is taken, and makes its steps one by one, by handle.

ghost use Rattle.std.specs.Prelude.{◌≡◌, ◌≢◌, List, MatchOption};
ghost use Rattle.gw_core.specs.Start.{Heard, begun};
ghost use Rattle.gw_core.specs.Events.{reply};
ghost use Rattle.gw_core.specs.Gateway.{Stands};
ghost use Rattle.gw_core.specs.declared.event.Event.{Event};
ghost use Rattle.gw_c.specs.Gateways.{gateway_in, StandsIn, Changes, number_of};
ghost use Rattle.gw_c.specs.Offers.{offer_answer};
ghost use Rattle.gw_c.specs.Steps.{step_told, IsTaken, IsStepped};

use crate::can::{CanFrame, frame_of};
use crate::handle::Handle;
use crate::inner::Inner;
use crate::offering::{COutcome, outcome_told};
use gw_core::{Answer, Core, Event};
use std::alloc::Global;

/// Where a step names no port.
const NOWHERE: u32 = u32::MAX;

/// `struct jgw_taken`: how a frame that was taken is judged.
#[repr(C)]
#[derive(Clone, Copy)]
pub struct CTaken {
    pub number: u32,
    pub front: u32,
    /// 1 or 0.
    pub local: u32,
}

/// `struct jgw_step`: what a step did.
#[repr(C)]
#[derive(Clone, Copy)]
pub struct CStep {
    /// 0: an instruction was made. 1: a copy was placed. 2: it was lost. 3: the step was the frame's last, whatever it did.
    pub what: u32,
    /// Where the copy was placed or lost.
    pub to: u32,
    /// Of the frame's last step, else all 0.
    pub outcome: COutcome,
}

/// Takes a frame at a port, of which `jgw_call_gateway_step` makes the steps. A local one is finished. Refusals are those of
/// `jgw_call_gateway_offer`.
#[unsafe(no_mangle)]
pub extern "C" fn jgw_call_gateway_take(
    alloc: Global,
    gateway: &mut Handle,
    port: u8,
    can: &CanFrame,
    taken: &mut CTaken,
) -> u32
    ensures answer { (known : Heard) (history : List Event)
        → MatchOption (gateway_in gateway.old.slot.value) (result ≡ 121) (λ core.
        Stands core known history → result ≡ offer_answer (begun core.limits known) history port can.now) }
    ensures taken { (known : Heard) (history : List Event) → StandsIn known history gateway.old.slot.value → result ≡ 0
        → Changes (IsTaken known history port can.now taken.new) gateway.old.slot.value gateway.new.slot.value }
    ensures refused { result ≢ 0 → gateway.new.slot.value ≡ gateway.old.slot.value }
    ensures unwritten { result ≢ 0 → taken.new ≡ taken.old }
{
    let Some(mut held) = gateway.take(alloc) else {
        return 121;
    };
    let done = match &mut *held {
        Inner::Gateway(core) => take(core, port, can, taken),
        _ => 121,
    };
    gateway.put(held);
    done
}

fn take(core: &mut Core, port: u8, can: &CanFrame, taken: &mut CTaken) -> u32
    ensures answer { (known : Heard) (history : List Event) → Stands core.old known history
        → result ≡ offer_answer (begun core.old.limits known) history port can.now }
    ensures taken { (known : Heard) (history : List Event) → Stands core.old known history → result ≡ 0
        → IsTaken known history port can.now taken.new core.old core.new }
    ensures refused { result ≢ 0 → core.new ≡ core.old }
    ensures unwritten { result ≢ 0 → taken.new ≡ taken.old }
{
    let Some(frame) = frame_of(can) else {
        return 3;
    };
    match core.event(Event::Take(port, frame)) {
        Ok(answer) => {
            if let Answer::Taken {
                number,
                front,
                local,
            } = answer
            {
                *taken = CTaken {
                    number,
                    front,
                    local: u32::from(local),
                };
            }
            0
        }
        Err(why) => why.number(),
    }
}

/// Makes a step of the frame that was taken last at a port. 0: `step` tells what it did. 72: there is no such port. 74: the port
/// has no unfinished frame. 121: the handle holds no gateway.
#[unsafe(no_mangle)]
pub extern "C" fn jgw_call_gateway_step(
    alloc: Global,
    gateway: &mut Handle,
    port: u8,
    step: &mut CStep,
) -> u32
    ensures answer { (known : Heard) (history : List Event)
        → MatchOption (gateway_in gateway.old.slot.value) (result ≡ 121) (λ core.
        Stands core known history → result ≡ number_of (reply (begun core.limits known) history (Event.Step port))) }
    ensures stepped { (known : Heard) (history : List Event) → StandsIn known history gateway.old.slot.value → result ≡ 0
        → Changes (IsStepped known history port step.new) gateway.old.slot.value gateway.new.slot.value }
    ensures refused { result ≢ 0 → gateway.new.slot.value ≡ gateway.old.slot.value }
    ensures unwritten { result ≢ 0 → step.new ≡ step.old }
{
    let Some(mut held) = gateway.take(alloc) else {
        return 121;
    };
    let done = match &mut *held {
        Inner::Gateway(core) => make_step(core, port, step),
        _ => 121,
    };
    gateway.put(held);
    done
}

fn make_step(core: &mut Core, port: u8, step: &mut CStep) -> u32
    ensures answer { (known : Heard) (history : List Event) → Stands core.old known history
        → result ≡ number_of (reply (begun core.old.limits known) history (Event.Step port)) }
    ensures stepped { (known : Heard) (history : List Event) → Stands core.old known history → result ≡ 0
        → IsStepped known history port step.new core.old core.new }
    ensures refused { result ≢ 0 → core.new ≡ core.old }
    ensures unwritten { result ≢ 0 → step.new ≡ step.old }
{
    match core.event(Event::Step(port)) {
        Ok(answer) => {
            *step = step_told(answer);
            0
        }
        Err(why) => why.number(),
    }
}

/// What a step answers, as C is told it.
fn step_told(answer: Answer) -> CStep
    ensures { result ≡ step_told answer }
{
    let stepped = CStep {
        what: 0,
        to: NOWHERE,
        outcome: COutcome {
            number: 0,
            front: 0,
            local: 0,
            allowed: 0,
            placed: 0,
        },
    };
    match answer {
        Answer::Placed { to } => CStep {
            what: 1,
            to: u32::from(to),
            ..stepped
        },
        Answer::Lost { to } => CStep {
            what: 2,
            to: u32::from(to),
            ..stepped
        },
        Answer::Finished(outcome) => CStep {
            what: 3,
            outcome: outcome_told(&outcome),
            ..stepped
        },
        _ => stepped,
    }
}
