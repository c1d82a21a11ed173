//! A gateway by handle, from its limits on.

ghost use Rattle.std.specs.Prelude.{◌≡◌, ◌≢◌, ◌↔◌, Some, IsSomeAnd, IfSome};
ghost use Rattle.gw_ledger.specs.Bounds.{IsWithinBounds};
ghost use Rattle.gw_c.specs.Gateways.{gateway_in, limits_of, IsOpened};

use crate::handle::Handle;
use crate::inner::Inner;
use gw_core::Core;
use gw_ledger::Limits;
use std::alloc::Global;

/// Makes a gateway of these limits, with all the memory that it will need. 0: `gateway` holds it, and what it held is dropped.
/// 70: a limit is outside its range. 71: memory was refused.
#[unsafe(no_mangle)]
pub extern "C" fn jgw_call_gateway_open(
    alloc: Global,
    ports: u32,
    lane: u32,
    frames: u32,
    versions: u32,
    gateway: &mut Handle,
) -> u32
    ensures opened { result ≡ 0
        → IsSomeAnd (gateway_in gateway.new.slot.value) (IsOpened (limits_of ports lane frames versions)) }
    ensures limits { result ≢ 70 ↔ IsWithinBounds (limits_of ports lane frames versions) }
    ensures refused { result ≢ 0 → result ≢ 70 → result ≡ 71 }
    ensures kept { result ≢ 0 → gateway.new.slot.value ≡ gateway.old.slot.value }
{
    let Ok(limits) = Limits::new(ports, lane, versions, frames) else {
        return 70;
    };
    match opened(alloc, limits) {
        Some(made) => {
            gateway.put(made);
            0
        }
        None => 71,
    }
}

/// A gateway of these limits, where there is memory for it.
fn opened(alloc: Global, limits: Limits) -> Option<Box<Inner>>
    ensures { IfSome result (λ made. IsSomeAnd (gateway_in (Some made.value)) (IsOpened limits)) }
{
    let Ok(core) = Core::new(alloc, limits) else {
        return None;
    };
    match Box::new(alloc, Inner::Gateway(core)) {
        Ok(made) => Some(made),
        Err(_) => None,
    }
}
