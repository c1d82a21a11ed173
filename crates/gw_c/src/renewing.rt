//! A gateway that begins anew, by handle.

ghost use Rattle.std.specs.Prelude.{◌≡◌, ◌≢◌, List, None};
ghost use Rattle.gw_core.specs.Start.{Heard};
ghost use Rattle.gw_core.specs.Gateway.{Stands};
ghost use Rattle.gw_core.specs.declared.event.Event.{Event};
ghost use Rattle.gw_c.specs.Gateways.{gateway_in, StandsIn, Changes};
ghost use Rattle.gw_c.specs.Renewals.{RenewsTold};

use crate::handle::Handle;
use crate::inner::Inner;
use gw_core::Core;
use std::alloc::Global;

/// Counts batches, frames and copies from 0 again. 0: the policies in force are the first batch, and the claims stay. 73: a frame
/// is unfinished. 126: a copy waits. 100: a policy in force has too many owners. 121: the handle holds no gateway.
#[unsafe(no_mangle)]
pub extern "C" fn jgw_call_gateway_renew(alloc: Global, gateway: &mut Handle) -> u32
    ensures wrong { gateway_in gateway.old.slot.value ≡ None → result ≡ 121 }
    ensures renews { (known : Heard) (history : List Event) → StandsIn known history gateway.old.slot.value
        → Changes (RenewsTold known history result) gateway.old.slot.value gateway.new.slot.value }
    ensures refused { result ≢ 0 → gateway.new.slot.value ≡ gateway.old.slot.value }
{
    let Some(mut held) = gateway.take(alloc) else {
        return 121;
    };
    let done = match &mut *held {
        Inner::Gateway(core) => renew(core),
        _ => 121,
    };
    gateway.put(held);
    done
}

fn renew(core: &mut Core) -> u32
    ensures renews { (known : Heard) (history : List Event) → Stands core.old known history
        → RenewsTold known history result core.old core.new }
    ensures refused { result ≢ 0 → core.new ≡ core.old }
{
    match core.renew() {
        Ok(()) => 0,
        Err(why) => why.number(),
    }
}
