//! Batches of policies by handle, and their publishing.

ghost use Rattle.std.specs.Prelude.{◌≡◌, ◌≢◌, List, [], ◌∷◌, Some, None, MatchOption, IsSomeAnd, IfSome};
ghost use Rattle.gw_core.specs.Start.{Heard, begun};
ghost use Rattle.gw_core.specs.Events.{reply};
ghost use Rattle.gw_core.specs.Gateway.{Stands};
ghost use Rattle.gw_core.specs.declared.event.Event.{Event};
ghost use Rattle.gw_c.specs.Held.{policy_in};
ghost use Rattle.gw_c.specs.Gateways.{
  gateway_in,
  batch_in,
  StandsIn,
  Changes,
  number_of,
  joining_answer,
  joined,
  AnswersPublish,
  IsPublished,
};

use crate::handle::Handle;
use crate::inner::Inner;
use gw_core::{Answer, Core, Event};
use gw_policy::{Batch, Policy};
use std::alloc::Global;
use std::sync::Arc;

/// Begins a batch without policies. 0: `batch` holds it, and what it held is dropped. 100: memory was refused.
#[unsafe(no_mangle)]
pub extern "C" fn jgw_call_batch_new(alloc: Global, batch: &mut Handle) -> u32
    ensures made { result ≡ 0 → batch_in batch.new.slot.value ≡ Some [] }
    ensures refused { result ≢ 0 → result ≡ 100 }
    ensures kept { result ≢ 0 → batch.new.slot.value ≡ batch.old.slot.value }
{
    match Box::new(alloc, Inner::Batch(Batch::new())) {
        Ok(made) => {
            batch.put(made);
            0
        }
        Err(_) => 100,
    }
}

/// Joins a policy to a batch for a port; its handle goes on holding it. 60: the batch has a policy for the port. 61: it has
/// sixteen. 100: the policy has too many owners. 121: a handle holds no batch, or no policy.
#[unsafe(no_mangle)]
pub extern "C" fn jgw_call_batch_add(
    alloc: Global,
    batch: &mut Handle,
    port: u8,
    policy: &mut Handle,
) -> u32
    ensures answer { MatchOption (policy_in policy.old.slot.value) (result ≡ 121) (λ _.
        MatchOption (batch_in batch.old.slot.value) (result ≡ 121) (λ pairs. result ≢ 100 → result ≡ joining_answer port pairs)) }
    ensures added { result ≡ 0 → IsSomeAnd (policy_in policy.old.slot.value) (λ policy.
        IsSomeAnd (batch_in batch.old.slot.value) (λ pairs. batch_in batch.new.slot.value ≡ Some (joined port policy pairs))) }
    ensures refused { result ≢ 0 → batch.new.slot.value ≡ batch.old.slot.value }
    ensures kept { policy.new.slot.value ≡ policy.old.slot.value }
{
    let Some(held) = policy.take(alloc) else {
        return 121;
    };
    let done = match &*held {
        Inner::Policy(policy) => join(alloc, batch, port, policy),
        _ => 121,
    };
    policy.put(held);
    done
}

/// Joins a policy to the batch in a handle.
fn join(alloc: Global, batch: &mut Handle, port: u8, policy: &Arc<Policy>) -> u32
    ensures answer { MatchOption (batch_in batch.old.slot.value) (result ≡ 121)
        (λ pairs. result ≢ 100 → result ≡ joining_answer port pairs) }
    ensures added { result ≡ 0 → IsSomeAnd (batch_in batch.old.slot.value)
        (λ pairs. batch_in batch.new.slot.value ≡ Some (joined port policy.now.value pairs)) }
    ensures refused { result ≢ 0 → batch.new.slot.value ≡ batch.old.slot.value }
{
    let Some(mut held) = batch.take(alloc) else {
        return 121;
    };
    let done = match &mut *held {
        Inner::Batch(batch) => add(batch, port, policy),
        _ => 121,
    };
    batch.put(held);
    done
}

fn add(batch: &mut Batch, port: u8, policy: &Arc<Policy>) -> u32
    ensures answer { result ≢ 100 → result ≡ joining_answer port batch.old }
    ensures added { result ≡ 0 → batch.new ≡ joined port policy.now.value batch.old }
    ensures refused { result ≢ 0 → batch.new ≡ batch.old }
{
    let Ok(owner) = Arc::try_clone(policy) else {
        return 100;
    };
    match batch.add(port, owner) {
        Ok(()) => 0,
        Err(why) => why.number(),
    }
}

/// Publishes a batch. 0: its policies are in force for frames that are taken from now on, `front` tells how many batches were
/// published so far, and the batch's handle holds nothing. 72: the batch names a port that is not there. 75: as many batches as
/// may be were published. 100: a policy has too many owners. 121: a handle holds no gateway, or no batch. Refused, both hold
/// what they held.
#[unsafe(no_mangle)]
pub extern "C" fn jgw_call_gateway_publish(
    alloc: Global,
    gateway: &mut Handle,
    batch: &mut Handle,
    front: &mut u32,
) -> u32
    ensures answer { (known : Heard) (history : List Event)
        → AnswersPublish known history (batch_in batch.old.slot.value) (gateway_in gateway.old.slot.value) result }
    ensures published { (known : Heard) (history : List Event) → StandsIn known history gateway.old.slot.value → result ≡ 0
        → IsSomeAnd (batch_in batch.old.slot.value) (λ pairs.
        Changes (IsPublished known history pairs front.new) gateway.old.slot.value gateway.new.slot.value) }
    ensures spent { result ≡ 0 → batch.new.slot.value ≡ None }
    ensures kept { result ≢ 0 → batch.new.slot.value ≡ batch.old.slot.value }
    ensures refused { result ≢ 0 → gateway.new.slot.value ≡ gateway.old.slot.value }
    ensures unwritten { result ≢ 0 → front.new ≡ front.old }
{
    let Some(held) = batch.take(alloc) else {
        return 121;
    };
    let done = publish_in(alloc, gateway, &held, front);
    if done == 0 {
        drop(held);
    } else {
        batch.put(held);
    }
    done
}

/// Publishes what another handle held, at the gateway in a handle.
fn publish_in(alloc: Global, gateway: &mut Handle, batch: &Inner, front: &mut u32) -> u32
    ensures answer { (known : Heard) (history : List Event)
        → AnswersPublish known history (batch_in (Some batch.now)) (gateway_in gateway.old.slot.value) result }
    ensures published { (known : Heard) (history : List Event) → StandsIn known history gateway.old.slot.value → result ≡ 0
        → IsSomeAnd (batch_in (Some batch.now)) (λ pairs.
        Changes (IsPublished known history pairs front.new) gateway.old.slot.value gateway.new.slot.value) }
    ensures refused { result ≢ 0 → gateway.new.slot.value ≡ gateway.old.slot.value }
    ensures unwritten { result ≢ 0 → front.new ≡ front.old }
{
    let Inner::Batch(batch) = batch else {
        return 121;
    };
    let Some(mut held) = gateway.take(alloc) else {
        return 121;
    };
    let done = match &mut *held {
        Inner::Gateway(core) => publish(core, batch, front),
        _ => 121,
    };
    gateway.put(held);
    done
}

/// Publishes a copy of a batch: a refused one is dropped.
fn publish(core: &mut Core, batch: &Batch, front: &mut u32) -> u32
    ensures answer { (known : Heard) (history : List Event) → Stands core.old known history → result ≢ 100
        → result ≡ number_of (reply (begun core.old.limits known) history (Event.Publish batch.now)) }
    ensures published { (known : Heard) (history : List Event) → Stands core.old known history → result ≡ 0
        → IsPublished known history batch.now front.new core.old core.new }
    ensures refused { result ≢ 0 → core.new ≡ core.old }
    ensures unwritten { result ≢ 0 → front.new ≡ front.old }
{
    let Some(copy) = copied(batch) else {
        return 100;
    };
    match core.event(Event::Publish(copy)) {
        Ok(answer) => {
            if let Answer::Published { front: now } = answer {
                *front = now;
            }
            0
        }
        Err(why) => why.number(),
    }
}

/// A batch of the same policies, each with an owner more.
fn copied(batch: &Batch) -> Option<Batch>
    ensures { IfSome result (λ copy. copy ≡ batch.now) }
{
    let mut copy = Batch::new();
    for index in 0..batch.len() {
        let Some((port, policy)) = batch.pair(index) else {
            unreachable!()
        };
        if add(&mut copy, port, policy) != 0 {
            return None;
        }
    }
    Some(copy)
}
