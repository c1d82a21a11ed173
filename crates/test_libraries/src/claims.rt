//! The address that a NAME holds, and addresses that none can hold.

use gw_claims::Claims;
use gw_frame::{Frame, FrameRefusal};
use gw_ident::Name;
use std::test::Fail;

/// An Address Claimed to everyone, by a NAME below 256.
fn claim(source: u8, name: u8) -> Result<Frame, FrameRefusal> {
    Frame::read(&[
        0x98, 0xEE, 0xFF, source, 8, 0, 0, 0, name, 0, 0, 0, 0, 0, 0, 0,
    ])
}

fn name(value: u8) -> Name {
    Name::from_bytes([value, 0, 0, 0, 0, 0, 0, 0])
}

#[test]
fn the_address_of_a_name(rt: HostRuntime) -> Result<(), Fail> {
    let mut claims = Claims::new();
    for claimant in [5, 7, 5] {
        claims.hear(&claim(128, claimant)?);
    }
    assert!(rt; claims.address_of(name(5)) == Some(128));
    claims.hear(&claim(254, 5)?);
    assert!(rt; claims.address_of(name(5)).is_none());
    Ok(())
}

#[test]
fn nobody_holds_254_and_255(rt: HostRuntime) -> Result<(), Fail> {
    let mut claims = Claims::new();
    claims.hear(&claim(253, 5)?);
    claims.hear(&claim(255, 6)?);
    assert!(rt; claims.holder(254).is_none() && claims.holder(255).is_none());
    Ok(())
}
