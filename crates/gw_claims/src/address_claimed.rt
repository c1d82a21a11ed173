//! The message Address Claimed: SAE J1939-81.

ghost use Rattle.std.specs.Prelude.{◌≡◌, ℕ, Some, None, if◌then◌else◌};
ghost use Rattle.gw_claims.specs.Claims.{is_address_claimed, is_claim, claimed_address, claimed_name};

use gw_frame::Frame;
use gw_ident::{CanId, Name};

/// What an Address Claimed says.
#[derive(Clone, Copy)]
pub struct Claim {
    pub address: u8,
    pub name: Name,
}

/// The claim that a frame makes: an Address Claimed to everyone with a payload of 8 octets.
pub fn claim_of(frame: &Frame) -> Option<Claim>
    ensures { result ≡ (if is_claim frame.now
        then Some (record { address = claimed_address frame.now; name = claimed_name frame.now }) else None) }
{
    let id = frame.id();
    if !is_address_claimed(id) {
        return None;
    }
    let Ok(octets) = <[u8; 8]>::try_from(frame.payload()) else {
        return None;
    };
    Some(Claim {
        address: id.source(),
        name: Name::from_bytes(octets),
    })
}

/// Whether the identifier is that of an Address Claimed to everyone: the flags, the pages, PF 238 and PS 255 are fixed, and the
/// priority and the source are free. Each frame of a segment comes here, and the two tests compile to one comparison of a
/// masked word.
fn is_address_claimed(id: CanId) -> bool
    ensures { result ≡ is_address_claimed id }
{
    let word = id.word();
    word >> 29 == 4 && (word >> 8) % (1 << 18) == 0xEEFF
}
