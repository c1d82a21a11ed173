//! The addresses that are held on one segment: SAE J1939-81, address claim and contention.

ghost use Rattle.std.specs.Prelude.{◌≡◌, ◌≢◌, ◌<◌, ℕ, List, [], ◌∷◌, length, Some, None, IfSome, IfNone, IsTrue};
ghost use Rattle.gw_claims.specs.Claims.{Claim, claims_taken, claims_with, without_name, is_local, is_local_among};
ghost use Rattle.gw_claims.specs.Holders.{holder_of, IsTable, IsTableOf, HoldsAfter, GivesUp, table_taken};

use crate::address_claimed::claim_of;
use gw_frame::Frame;
use gw_ident::Name;
use std::marker::Model;

/// How many addresses can be held: 0 to 253.
const ADDRESSES: usize = 254;

/// Which NAME holds each address of one segment, by the Address Claimed messages heard on it.
///
/// An address is held by at most one NAME, and a NAME holds at most one address. A NAME gives up its
/// address when it claims another or says that it can claim none (source 254). Of two NAMEs that
/// claim one address the lower holds it.
#[derive(Debug, Drop)]
pub struct Claims {
    holders: [Option<Name>; ADDRESSES],
}

impl Model for Claims {
    ghost use Rattle.std.specs.Prelude.{ℕ, List, Option};

    ghost Value = { List (Option ℕ) };

    ghost use Rattle.gw_claims.specs.Holders.{IsTable};

    ghost view = { λ claims. claims.holders };

    ghost invariant = { λ claims. IsTable claims.holders };
}

impl Claims {
    /// A segment on which nothing was heard: no address is held.
    pub fn new() -> Claims
        ensures empty { (address : ℕ) → holder_of result address ≡ None }
        ensures start { HoldsAfter result [] }
    {
        Claims {
            holders: [None; ADDRESSES],
        }
    }

    /// Hears a frame of the segment. Only an Address Claimed to everyone (an extended data frame of
    /// PGN 60928 and destination 255) with a payload of 8 octets changes what is held: its NAME gives
    /// up what it held, and takes the source where that is at most 253 and no lower NAME holds it.
    pub fn hear(&mut self, frame: &Frame)
        ensures heard { (heard : List (List ℕ)) → HoldsAfter self.old heard → HoldsAfter self.new (frame.now ∷ heard) }
        ensures step { (claims : List Claim) → IsTableOf self.old claims → IsTableOf self.new (claims_with frame.now claims) }
    {
        if let Some(claim) = claim_of(frame) {
            self.claim(claim.address, claim.name);
        }
    }

    /// The NAME claims an address. Most claims are heard again of who holds it: they change nothing, and no table is walked.
    fn claim(&mut self, address: u8, name: Name)
        ensures { (claims : List Claim) → IsTableOf self.old claims
            → IsTableOf self.new (claims_taken address name (without_name name claims)) }
    {
        if self.is_held_by(address, name) {
            return;
        }
        self.give_up(name);
        self.take(address, name);
    }

    /// The NAME that holds an address, if any: none holds one above 253.
    pub fn holder(&self, address: u8) -> Option<Name>
        ensures holder { result ≡ holder_of self.now address }
        ensures above { 253 < address → result ≡ None }
    {
        let &holder = self.holders.get(usize::from(address))?;
        holder
    }

    /// The address that a NAME holds, if any.
    pub fn address_of(&self, name: Name) -> Option<u8>
        ensures found { IfSome result (λ address. holder_of self.now address ≡ Some name) }
        ensures only { IfSome result (λ address. (other : ℕ) → holder_of self.now other ≡ Some name → other ≡ address) }
        ensures none { IfNone result ((address : ℕ) → holder_of self.now address ≢ Some name) }
    {
        let address = self
            .holders
            .iter()
            .position(|holder| *holder == Some(name))?;
        Some(address as u8)
    }

    /// Whether a frame of the segment is local: a PDU1 extended data frame to an address that is
    /// held here.
    pub fn is_local(&self, frame: &Frame) -> bool
        ensures heard { (heard : List (List ℕ)) → HoldsAfter self.now heard → result ≡ is_local heard frame.now }
        ensures step { (claims : List Claim) → IsTableOf self.now claims → result ≡ is_local_among claims frame.now }
    {
        let Some(address) = frame.id().destination() else {
            return false;
        };
        self.holder(address).is_some()
    }

    /// Whether the NAME holds the address.
    fn is_held_by(&self, address: u8, name: Name) -> bool
        ensures held { IsTrue result → holder_of self.now address ≡ Some name }
        ensures table { IsTable self.now }
    {
        let index = usize::from(address);
        index < ADDRESSES && self.holders[index] == Some(name)
    }

    /// The NAME holds no address any more.
    fn give_up(&mut self, name: Name)
        ensures others { GivesUp self.old self.new name }
        ensures addresses { length self.new ≡ ADDRESSES }
    {
        if let Some(address) = self.address_of(name) {
            self.holders[usize::from(address)] = None;
        }
    }

    /// The NAME, which holds no address, takes this one where it can be held and no lower NAME holds it.
    fn take(&mut self, address: u8, name: Name)
        requires { (other : ℕ) → holder_of self.old other ≢ Some name }
        ensures { self.new ≡ table_taken self.old address name }
    {
        let index = usize::from(address);
        if index < ADDRESSES && self.holder(address).is_none_or(|held| name < held) {
            self.holders[index] = Some(name);
        }
    }
}
