//! A frame, as the octets of its record.

ghost use Rattle.std.specs.Prelude.{◌≡◌, length, IfOk};
ghost use Rattle.std.specs.Result.{result_err};
ghost use Rattle.gw_frame.specs.Record.{IsRecord, refusal_of, word_of, payload_length, payload_of};

use crate::refusal::FrameRefusal;
use byteorder::{BigEndian, ByteOrder};
use gw_ident::CanId;
use std::marker::Model;

/// The most octets of a record (LINKTYPE_CAN_SOCKETCAN).
pub const RECORD_OCTETS: usize = 16;

/// Where the payload begins in a record (LINKTYPE_CAN_SOCKETCAN).
pub const PAYLOAD_START: usize = 8;

/// A CAN frame: the 8 to 16 octets of a record of LINKTYPE_CAN_SOCKETCAN (link type 227), unchanged.
///
/// Octets 0 to 3 are the identifier word, big-endian, octet 4 is the payload length (at most 8), and
/// the payload begins at octet 8. Octets 5 to 7 and what follows the payload (padding) may hold
/// anything and are kept.
#[derive(Clone, Copy, PartialEq, Eq, Debug)]
pub struct Frame {
    octets: [u8; RECORD_OCTETS],
    len: usize,
}

impl Model for Frame {
    ghost use Rattle.std.specs.Prelude.{ℕ, List};

    ghost Value = { List ℕ };

    ghost use Rattle.gw_frame.specs.Kept.{Holds, inside_of, inside_of-octets_of, octets_of};

    ghost view = { octets_of };

    ghost invariant = { Holds };

    ghost inverse = { inside_of };

    ghost inverse_ok = { inside_of-octets_of };
}

impl Frame {
    /// Reads a record: all octets of the slice, no more and no fewer.
    pub fn read(octets: &[u8]) -> Result<Frame, FrameRefusal>
        ensures read { IfOk result (λ frame. IsRecord octets.now × (frame ≡ octets.now)) }
        ensures refused { refusal_of octets.now ≡ result_err result }
    {
        let len = octets.len();
        if len < PAYLOAD_START {
            return Err(FrameRefusal::TooShort { len });
        }
        if len > RECORD_OCTETS {
            return Err(FrameRefusal::TooLong { len });
        }
        let said = octets[4];
        if said > 8 {
            return Err(FrameRefusal::BadLength { said });
        }
        let there = len - PAYLOAD_START;
        if there < usize::from(said) {
            return Err(FrameRefusal::PayloadCut { said, there });
        }
        let mut kept = [0; RECORD_OCTETS];
        kept[..len].copy_from_slice(octets);
        Ok(Frame { octets: kept, len })
    }

    /// The octets of the record, with its padding.
    pub fn bytes(&self) -> &[u8]
        ensures octets { result.now ≡ self.now }
        ensures record { IsRecord result.now }
    {
        &self.octets[..self.len]
    }

    /// How many octets the record has, 8 to 16.
    pub fn len(&self) -> usize
        ensures { result ≡ length self.now }
    {
        self.len
    }

    /// The identifier, with its flags.
    pub fn id(&self) -> CanId
        ensures { result ≡ word_of self.now }
    {
        CanId::from_word(BigEndian::read_u32(self.bytes()))
    }

    /// The payload, 0 to 8 octets, without the padding behind it.
    pub fn payload(&self) -> &[u8]
        ensures octets { result.now ≡ payload_of self.now }
        ensures len { length result.now ≡ payload_length self.now }
    {
        let octets = self.bytes();
        &octets[PAYLOAD_START..PAYLOAD_START + usize::from(octets[4])]
    }
}
