//! Counters of a gateway, by handle.

ghost use Rattle.std.specs.Prelude.{◌≡◌, ◌≢◌, List, MatchOption, IsSomeAnd};
ghost use Rattle.gw_core.specs.Start.{Heard};
ghost use Rattle.gw_core.specs.Gateway.{Stands};
ghost use Rattle.gw_core.specs.declared.event.Event.{Event};
ghost use Rattle.gw_c.specs.Gateways.{gateway_in, StandsIn};
ghost use Rattle.gw_c.specs.Counts.{port_answer, lane_answer, waiting_count, ingress_counters, AreEgressCounters};

use crate::handle::Handle;
use crate::inner::Inner;
use gw_core::Core;
use gw_ledger::MAX_PORTS;
use std::alloc::Global;

/// `struct jgw_counters_in`: what a port counts of the frames taken there that are finished.
#[repr(C)]
#[derive(Clone, Copy)]
pub struct CCountersIn {
    pub taken: u64,
    pub local: u64,
    pub allowed: u64,
    pub placed: u64,
    pub lost: u64,
}

/// `struct jgw_counters_out`: what a port counts of the copies sent there, by the ingress ports of their frames.
#[repr(C)]
#[derive(Clone, Copy)]
pub struct CCountersOut {
    pub sent: [u64; MAX_PORTS],
}

/// How many copies wait at one port for another. 72: there is no such port. 121: the handle holds no gateway.
#[unsafe(no_mangle)]
pub extern "C" fn jgw_call_gateway_waiting(
    alloc: Global,
    gateway: &mut Handle,
    from: u8,
    to: u8,
    count: &mut u64,
) -> u32
    ensures answer { MatchOption (gateway_in gateway.old.slot.value) (result ≡ 121)
        (λ core. result ≡ lane_answer core.limits from to) }
    ensures counted { (known : Heard) (history : List Event) → StandsIn known history gateway.old.slot.value → result ≡ 0
        → IsSomeAnd (gateway_in gateway.old.slot.value) (λ core. count.new ≡ waiting_count core known history from to) }
    ensures unwritten { result ≢ 0 → count.new ≡ count.old }
    ensures kept { gateway.new.slot.value ≡ gateway.old.slot.value }
{
    let Some(held) = gateway.take(alloc) else {
        return 121;
    };
    let done = match &*held {
        Inner::Gateway(core) => waiting(core, from, to, count),
        _ => 121,
    };
    gateway.put(held);
    done
}

fn waiting(core: &Core, from: u8, to: u8, count: &mut u64) -> u32
    ensures answer { result ≡ lane_answer core.now.limits from to }
    ensures counted { (known : Heard) (history : List Event) → Stands core.now known history → result ≡ 0
        → count.new ≡ waiting_count core.now known history from to }
    ensures unwritten { result ≢ 0 → count.new ≡ count.old }
{
    let ports = core.limits().ports();
    if u32::from(from) >= ports || u32::from(to) >= ports {
        return 72;
    }
    *count = core.waiting(from, to) as u64;
    0
}

/// What a port counts of the frames taken there. 72: there is no such port. 121: the handle holds no gateway.
#[unsafe(no_mangle)]
pub extern "C" fn jgw_call_gateway_counters_in(
    alloc: Global,
    gateway: &mut Handle,
    port: u8,
    counters: &mut CCountersIn,
) -> u32
    ensures answer { MatchOption (gateway_in gateway.old.slot.value) (result ≡ 121)
        (λ core. result ≡ port_answer core.limits port) }
    ensures counted { (known : Heard) (history : List Event) → StandsIn known history gateway.old.slot.value → result ≡ 0
        → IsSomeAnd (gateway_in gateway.old.slot.value) (λ core. counters.new ≡ ingress_counters core known history port) }
    ensures unwritten { result ≢ 0 → counters.new ≡ counters.old }
    ensures kept { gateway.new.slot.value ≡ gateway.old.slot.value }
{
    let Some(held) = gateway.take(alloc) else {
        return 121;
    };
    let done = match &*held {
        Inner::Gateway(core) => ingress(core, port, counters),
        _ => 121,
    };
    gateway.put(held);
    done
}

fn ingress(core: &Core, port: u8, counters: &mut CCountersIn) -> u32
    ensures answer { result ≡ port_answer core.now.limits port }
    ensures counted { (known : Heard) (history : List Event) → Stands core.now known history → result ≡ 0
        → counters.new ≡ ingress_counters core.now known history port }
    ensures unwritten { result ≢ 0 → counters.new ≡ counters.old }
{
    if u32::from(port) >= core.limits().ports() {
        return 72;
    }
    let ledger = core.ledger(port);
    *counters = CCountersIn {
        taken: ledger.taken,
        local: ledger.local,
        allowed: ledger.allowed,
        placed: ledger.placed,
        lost: ledger.lost,
    };
    0
}

/// What a port counts of the copies sent there. 72: there is no such port. 121: the handle holds no gateway.
#[unsafe(no_mangle)]
pub extern "C" fn jgw_call_gateway_counters_out(
    alloc: Global,
    gateway: &mut Handle,
    port: u8,
    counters: &mut CCountersOut,
) -> u32
    ensures answer { MatchOption (gateway_in gateway.old.slot.value) (result ≡ 121)
        (λ core. result ≡ port_answer core.limits port) }
    ensures counted { (known : Heard) (history : List Event) → StandsIn known history gateway.old.slot.value → result ≡ 0
        → IsSomeAnd (gateway_in gateway.old.slot.value) (λ core. AreEgressCounters core known history port counters.new) }
    ensures unwritten { result ≢ 0 → counters.new ≡ counters.old }
    ensures kept { gateway.new.slot.value ≡ gateway.old.slot.value }
{
    let Some(held) = gateway.take(alloc) else {
        return 121;
    };
    let done = match &*held {
        Inner::Gateway(core) => egress(core, port, counters),
        _ => 121,
    };
    gateway.put(held);
    done
}

fn egress(core: &Core, port: u8, counters: &mut CCountersOut) -> u32
    ensures answer { result ≡ port_answer core.now.limits port }
    ensures counted { (known : Heard) (history : List Event) → Stands core.now known history → result ≡ 0
        → AreEgressCounters core.now known history port counters.new }
    ensures unwritten { result ≢ 0 → counters.new ≡ counters.old }
{
    if u32::from(port) >= core.limits().ports() {
        return 72;
    }
    counters.sent = core.sent(port).sent;
    0
}
