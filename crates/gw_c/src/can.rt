//! Frames as Linux lays them out.

ghost use Rattle.std.specs.Prelude.{◌≡◌, ◌<◌, MatchOption};
ghost use Rattle.gw_c.specs.Frames.{record_of, whole};

use gw_frame::{Frame, RECORD_OCTETS};

/// `struct can_frame` of `<linux/can.h>`: the identifier word is in the order of the machine.
#[repr(C)]
#[derive(Clone, Copy)]
pub struct CanFrame {
    pub id: u32,
    pub len: u8,
    pub pad: u8,
    pub reserved: u8,
    pub len8_dlc: u8,
    pub data: [u8; 8],
}

/// The record of a frame, or none where its length is above 8.
pub fn frame_of(can: &CanFrame) -> Option<Frame>
    ensures { MatchOption result (8 < can.now.len) (λ frame. frame ≡ record_of can.now) }
{
    match Frame::read(&octets_of(can)) {
        Ok(frame) => Some(frame),
        Err(_) => None,
    }
}

/// The octets of the record.
fn octets_of(can: &CanFrame) -> [u8; RECORD_OCTETS]
    ensures { result ≡ record_of can.now }
{
    let word = can.id.to_be_bytes();
    let data = can.data;
    [
        word[0],
        word[1],
        word[2],
        word[3],
        can.len,
        can.pad,
        can.reserved,
        can.len8_dlc,
        data[0],
        data[1],
        data[2],
        data[3],
        data[4],
        data[5],
        data[6],
        data[7],
    ]
}

/// The frame of a record. Where the record is shorter than 16 octets, the last octets are 0.
pub fn can_of(frame: &Frame) -> CanFrame
    ensures { record_of result ≡ whole frame.now }
{
    let octets = all_octets(frame);
    CanFrame {
        id: u32::from_be_bytes([octets[0], octets[1], octets[2], octets[3]]),
        len: octets[4],
        pad: octets[5],
        reserved: octets[6],
        len8_dlc: octets[7],
        data: [
            octets[8], octets[9], octets[10], octets[11], octets[12], octets[13], octets[14],
            octets[15],
        ],
    }
}

/// Sixteen octets of a record.
fn all_octets(frame: &Frame) -> [u8; RECORD_OCTETS]
    ensures { result ≡ whole frame.now }
{
    let octets = frame.bytes();
    let mut all = [0; RECORD_OCTETS];
    all[..octets.len()].copy_from_slice(octets);
    all
}
