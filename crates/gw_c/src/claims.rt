//! Address claims by handle.

ghost use Rattle.std.specs.Prelude.{◌≡◌, ◌≢◌, ℕ, List, [], ◌∷◌, Some, None, MatchOption, IsSomeAnd};
ghost use Rattle.gw_claims.specs.Holders.{holder_of, HoldsAfter};
ghost use Rattle.gw_c.specs.Frames.{record_of};
ghost use Rattle.gw_c.specs.Held.{claims_in, HasHeard};
ghost use Rattle.gw_c.specs.Hearing.{hearing_answer, local_answer};

use crate::can::{CanFrame, frame_of};
use crate::handle::Handle;
use crate::inner::Inner;
use gw_claims::Claims;
use gw_ident::Name;
use std::alloc::Global;

/// Makes the claims of a segment on which nothing was heard. 0: `claims` holds them, and what it held is dropped. 100: memory was
/// refused.
#[unsafe(no_mangle)]
pub extern "C" fn jgw_call_claims_new(alloc: Global, claims: &mut Handle) -> u32
    ensures made { result ≡ 0 → HasHeard [] claims.new.slot.value }
    ensures refused { result ≢ 0 → result ≡ 100 }
    ensures kept { result ≢ 0 → claims.new.slot.value ≡ claims.old.slot.value }
{
    match Box::new(alloc, Inner::Claims(Claims::new())) {
        Ok(made) => {
            claims.put(made);
            0
        }
        Err(_) => 100,
    }
}

/// Hears a frame of the segment. 3: the frame's length is above 8. 121: the handle holds no claims.
#[unsafe(no_mangle)]
pub extern "C" fn jgw_call_claims_hear(alloc: Global, claims: &mut Handle, can: &CanFrame) -> u32
    ensures answer { result ≡ hearing_answer (claims_in claims.old.slot.value) can.now }
    ensures heard { (heard : List (List ℕ)) → result ≡ 0 → HasHeard heard claims.old.slot.value
        → HasHeard (record_of can.now ∷ heard) claims.new.slot.value }
    ensures refused { result ≢ 0 → claims.new.slot.value ≡ claims.old.slot.value }
{
    let Some(mut held) = claims.take(alloc) else {
        return 121;
    };
    let done = match &mut *held {
        Inner::Claims(claims) => hear(claims, can),
        _ => 121,
    };
    claims.put(held);
    done
}

fn hear(claims: &mut Claims, can: &CanFrame) -> u32
    ensures answer { result ≡ hearing_answer (Some claims.old) can.now }
    ensures heard { (heard : List (List ℕ)) → result ≡ 0 → HoldsAfter claims.old heard
        → HoldsAfter claims.new (record_of can.now ∷ heard) }
    ensures refused { result ≢ 0 → claims.new ≡ claims.old }
{
    match frame_of(can) {
        Some(frame) => {
            claims.hear(&frame);
            0
        }
        None => 3,
    }
}

/// The NAME that holds an address. 121: the handle holds no claims. 124: none holds it.
#[unsafe(no_mangle)]
pub extern "C" fn jgw_call_claims_holder(
    alloc: Global,
    claims: &mut Handle,
    address: u8,
    name: &mut u64,
) -> u32
    ensures holder { MatchOption (claims_in claims.old.slot.value) (result ≡ 121)
        (λ table. MatchOption (holder_of table address) (result ≡ 124) (λ holder. (result ≡ 0) × (name.new ≡ holder))) }
    ensures unwritten { result ≢ 0 → name.new ≡ name.old }
    ensures kept { claims.new.slot.value ≡ claims.old.slot.value }
{
    let Some(held) = claims.take(alloc) else {
        return 121;
    };
    let done = match &*held {
        Inner::Claims(claims) => holder(claims, address, name),
        _ => 121,
    };
    claims.put(held);
    done
}

fn holder(claims: &Claims, address: u8, name: &mut u64) -> u32
    ensures holder { MatchOption (holder_of claims.now address) (result ≡ 124) (λ holder. (result ≡ 0) × (name.new ≡ holder)) }
    ensures unwritten { result ≢ 0 → name.new ≡ name.old }
{
    match claims.holder(address) {
        Some(holder) => {
            *name = holder.value();
            0
        }
        None => 124,
    }
}

/// The address that a NAME holds. 121: the handle holds no claims. 124: it holds none.
#[unsafe(no_mangle)]
pub extern "C" fn jgw_call_claims_address(
    alloc: Global,
    claims: &mut Handle,
    name: u64,
    address: &mut u8,
) -> u32
    ensures found { result ≡ 0 → IsSomeAnd (claims_in claims.old.slot.value) (λ table. holder_of table address.new ≡ Some name) }
    ensures none { result ≡ 124 → IsSomeAnd (claims_in claims.old.slot.value)
        (λ table. (other : ℕ) → holder_of table other ≢ Some name) }
    ensures wrong { result ≢ 0 → result ≢ 124 → (result ≡ 121) × (claims_in claims.old.slot.value ≡ None) }
    ensures unwritten { result ≢ 0 → address.new ≡ address.old }
    ensures kept { claims.new.slot.value ≡ claims.old.slot.value }
{
    let Some(held) = claims.take(alloc) else {
        return 121;
    };
    let done = match &*held {
        Inner::Claims(claims) => address_of(claims, name, address),
        _ => 121,
    };
    claims.put(held);
    done
}

fn address_of(claims: &Claims, name: u64, address: &mut u8) -> u32
    ensures found { result ≡ 0 → holder_of claims.now address.new ≡ Some name }
    ensures none { result ≢ 0 → (result ≡ 124) × ((other : ℕ) → holder_of claims.now other ≢ Some name) }
    ensures unwritten { result ≢ 0 → address.new ≡ address.old }
{
    match claims.address_of(named(name)) {
        Some(found) => {
            *address = found;
            0
        }
        None => 124,
    }
}

/// Whether a frame of the segment is for an address that is held there: 1, or 0. Ask it before the frame is heard. 3: the frame's
/// length is above 8. 121: the handle holds no claims.
#[unsafe(no_mangle)]
pub extern "C" fn jgw_call_claims_local(alloc: Global, claims: &mut Handle, can: &CanFrame) -> u32
    ensures local { (heard : List (List ℕ)) → HasHeard heard claims.old.slot.value → result ≡ local_answer heard can.now }
    ensures wrong { claims_in claims.old.slot.value ≡ None → result ≡ 121 }
    ensures kept { claims.new.slot.value ≡ claims.old.slot.value }
{
    let Some(held) = claims.take(alloc) else {
        return 121;
    };
    let local = match &*held {
        Inner::Claims(claims) => is_local(claims, can),
        _ => 121,
    };
    claims.put(held);
    local
}

fn is_local(claims: &Claims, can: &CanFrame) -> u32
    ensures { (heard : List (List ℕ)) → HoldsAfter claims.now heard → result ≡ local_answer heard can.now }
{
    let Some(frame) = frame_of(can) else {
        return 3;
    };
    if claims.is_local(&frame) { 1 } else { 0 }
}

/// The NAME of a number.
fn named(value: u64) -> Name
    ensures { result ≡ value }
{
    Name::from_bytes(value.to_le_bytes())
}
