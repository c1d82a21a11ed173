//! Records.

use crate::octets::{RUNS, Runs};
use gw_frame::Frame;
use std::test::Fail;

#[test]
fn a_record_of_15_octets(rt: HostRuntime) -> Result<(), Fail> {
    let octets = b"\x8C\xF0\x04\x00\x07\x00\x00\x00\x01\x02\x03\x04\x05\x06\x07";
    let frame = Frame::read(octets)?;
    assert!(rt; frame.len() == 15);
    assert!(rt; frame.payload() == b"\x01\x02\x03\x04\x05\x06\x07".as_slice());
    assert!(rt; frame.bytes() == octets.as_slice());
    assert!(rt; frame.id().word() == 0x8CF00400);
    Ok(())
}

/// The commands refuse so many digits before they are a record.
#[test]
fn a_record_of_17_octets(rt: HostRuntime) -> Result<(), Fail> {
    let octets = b"\x98\xFE\xF1\x00\x08\x00\x00\x00\x01\x02\x03\x04\x05\x06\x07\x08\x09";
    let Err(refusal) = Frame::read(octets) else {
        return Err(Fail::from("a record"));
    };
    assert!(rt; refusal.number() == 2);
    let text = format!(in rt.alloc(); "{refusal}")?;
    let expected =
        "a record has at most 16 octets, and this one has 17; a record is written 98FEF100 08 000000 and the payload, \
        without spaces";
    assert!(rt; text.as_str() == expected);
    Ok(())
}

#[test]
fn broken_input(rt: HostRuntime) {
    let mut runs = Runs::new();
    for number in 0..RUNS {
        let run = runs.next();
        if let Ok(frame) = Frame::read(run) {
            assert!(rt; frame.bytes() == run, "run {number}");
        }
    }
    assert!(rt; runs.left() == 0);
}
