//! Copies that a port of a gateway sends, by handle.

ghost use Rattle.std.specs.Prelude.{◌≡◌, ◌≢◌, ◌<◌, List, None, MatchOption, IsSomeAnd};
ghost use Rattle.gw_core.specs.Start.{Heard};
ghost use Rattle.gw_core.specs.Gateway.{Stands};
ghost use Rattle.gw_core.specs.declared.event.Event.{Event};
ghost use Rattle.gw_c.specs.Gateways.{gateway_in, StandsIn, Changes};
ghost use Rattle.gw_c.specs.Counts.{port_answer};
ghost use Rattle.gw_c.specs.Sendings.{IsCopyTold, SendsTold, SendsAllTold, SendsOneOrNone, PeeksTold};

use crate::can::{CanFrame, can_of};
use crate::fault::counted;
use crate::handle::Handle;
use crate::inner::Inner;
use gw_core::Core;
use gw_ledger::FrameCopy;
use std::alloc::Global;

/// `struct jgw_copy`: a copy of a frame, and the number of the frame at its ingress port.
#[repr(C)]
#[derive(Clone, Copy)]
pub struct CCopy {
    pub frame: CanFrame,
    pub number: u32,
    pub from: u8,
}

/// Sends the next copy that waits for a port. 0: `copy` tells it. 72: there is no such port. 121: the handle holds no gateway.
/// 125: no copy waits for the port.
#[unsafe(no_mangle)]
pub extern "C" fn jgw_call_gateway_next(
    alloc: Global,
    gateway: &mut Handle,
    to: u8,
    copy: &mut CCopy,
) -> u32
    ensures wrong { gateway_in gateway.old.slot.value ≡ None
        → (result ≡ 121) × (gateway.new.slot.value ≡ gateway.old.slot.value) }
    ensures sends { (known : Heard) (history : List Event) → StandsIn known history gateway.old.slot.value
        → Changes (SendsTold known history to result copy.old copy.new) gateway.old.slot.value gateway.new.slot.value }
    ensures refused { (known : Heard) (history : List Event) → StandsIn known history gateway.old.slot.value → result ≢ 0
        → gateway.new.slot.value ≡ gateway.old.slot.value }
    ensures unwritten { result ≢ 0 → copy.new ≡ copy.old }
{
    let Some(mut held) = gateway.take(alloc) else {
        return 121;
    };
    let done = match &mut *held {
        Inner::Gateway(core) => next(core, to, copy),
        _ => 121,
    };
    gateway.put(held);
    done
}

fn next(core: &mut Core, to: u8, copy: &mut CCopy) -> u32
    ensures sends { (known : Heard) (history : List Event) → Stands core.old known history
        → SendsTold known history to result copy.old copy.new core.old core.new }
    ensures refused { (known : Heard) (history : List Event) → Stands core.old known history → result ≢ 0 → core.new ≡ core.old }
    ensures unwritten { result ≢ 0 → copy.new ≡ copy.old }
{
    match core.next(to) {
        Ok(Some(sent)) => {
            *copy = told(&sent);
            0
        }
        Ok(None) => 125,
        Err(why) => why.number(),
    }
}

/// Sends as many of the copies that wait for a port as there is room for, in the order of `jgw_call_gateway_next`, and at most
/// 4294967295. 0: `count` says how many, and `copies` tells them. The room behind them is left. 72: there is no such port. 121:
/// the handle holds no gateway.
#[unsafe(no_mangle)]
pub extern "C" fn jgw_call_gateway_next_many(
    alloc: Global,
    gateway: &mut Handle,
    to: u8,
    copies: &mut [CCopy],
    count: &mut u32,
) -> u32
    ensures answer { MatchOption (gateway_in gateway.old.slot.value) (result ≡ 121)
        (λ core. result ≡ port_answer core.limits to) }
    ensures sends { (known : Heard) (history : List Event) → StandsIn known history gateway.old.slot.value → result ≡ 0
        → Changes (SendsAllTold known history to count.new copies.old copies.new) gateway.old.slot.value gateway.new.slot.value }
    ensures refused { result ≢ 0 → gateway.new.slot.value ≡ gateway.old.slot.value }
    ensures unwritten { result ≢ 0 → copies.new ≡ copies.old }
    ensures uncounted { result ≢ 0 → count.new ≡ count.old }
{
    let Some(mut held) = gateway.take(alloc) else {
        return 121;
    };
    let done = match &mut *held {
        Inner::Gateway(core) => next_many(core, to, copies, count),
        _ => 121,
    };
    gateway.put(held);
    done
}

fn next_many(core: &mut Core, to: u8, copies: &mut [CCopy], count: &mut u32) -> u32
    ensures answer { result ≡ port_answer core.old.limits to }
    ensures sends { (known : Heard) (history : List Event) → Stands core.old known history → result ≡ 0
        → SendsAllTold known history to count.new copies.old copies.new core.old core.new }
    ensures refused { result ≢ 0 → core.new ≡ core.old }
    ensures unwritten { result ≢ 0 → copies.new ≡ copies.old }
    ensures uncounted { result ≢ 0 → count.new ≡ count.old }
{
    if u32::from(to) >= core.limits().ports() {
        return 72;
    }
    *count = send_each(core, to, copies);
    0
}

/// Sends copies until there is no room for more or none waits, and says how many it sent.
fn send_each(core: &mut Core, to: u8, copies: &mut [CCopy]) -> u32
    requires { to < core.old.limits.ports }
    ensures { (known : Heard) (history : List Event) → Stands core.old known history
        → SendsAllTold known history to result copies.old copies.new core.old core.new }
{
    let room = counted(copies.len());
    for count in 0..room {
        let Some(copy) = send_next(core, to) else {
            return count;
        };
        copies[count as usize] = copy;
    }
    room
}

/// Sends the next copy, where one waits.
fn send_next(core: &mut Core, to: u8) -> Option<CCopy>
    requires { to < core.old.limits.ports }
    ensures sends { (known : Heard) (history : List Event) → Stands core.old known history
        → SendsOneOrNone known to result core.old history core.new }
    ensures limits { core.new.limits ≡ core.old.limits }
{
    let Ok(sent) = core.next(to) else {
        return None;
    };
    Some(told(&sent?))
}

/// Tells the copy that `jgw_call_gateway_next` would send, which stays where it waits, and answers as that does.
#[unsafe(no_mangle)]
pub extern "C" fn jgw_call_gateway_peek(
    alloc: Global,
    gateway: &mut Handle,
    to: u8,
    copy: &mut CCopy,
) -> u32
    ensures wrong { gateway_in gateway.old.slot.value ≡ None → result ≡ 121 }
    ensures peeks { (known : Heard) (history : List Event) → StandsIn known history gateway.old.slot.value
        → IsSomeAnd (gateway_in gateway.old.slot.value) (PeeksTold known history to result copy.old copy.new) }
    ensures unwritten { result ≢ 0 → copy.new ≡ copy.old }
    ensures kept { gateway.new.slot.value ≡ gateway.old.slot.value }
{
    let Some(held) = gateway.take(alloc) else {
        return 121;
    };
    let done = match &*held {
        Inner::Gateway(core) => peek(core, to, copy),
        _ => 121,
    };
    gateway.put(held);
    done
}

fn peek(core: &Core, to: u8, copy: &mut CCopy) -> u32
    ensures peeks { (known : Heard) (history : List Event) → Stands core.now known history
        → PeeksTold known history to result copy.old copy.new core.now }
    ensures unwritten { result ≢ 0 → copy.new ≡ copy.old }
{
    match core.peek(to) {
        Ok(Some(first)) => {
            *copy = told(&first);
            0
        }
        Ok(None) => 125,
        Err(why) => why.number(),
    }
}

/// A copy as C is told it.
fn told(copy: &FrameCopy) -> CCopy
    ensures { IsCopyTold copy.now result }
{
    CCopy {
        frame: can_of(&copy.frame),
        number: copy.number,
        from: copy.from,
    }
}
