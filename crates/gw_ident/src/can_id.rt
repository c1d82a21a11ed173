//! The identifier of a CAN frame and its fields: SAE J1939-21, protocol data unit.

ghost use Rattle.std.specs.Prelude.{◌≡◌};
ghost use Rattle.gw_ident.specs.Identifier.{
  identifier,
  priority,
  page,
  extended_data_page,
  data_page,
  pdu_format,
  pdu_specific,
  is_pdu1,
  source_address,
  parameter_group,
  is_extended_data,
  destination,
};

use std::marker::Model;

/// The flag of an identifier of 29 bits, in the identifier word (CAN_EFF_FLAG of Linux's include/uapi/linux/can.h).
pub const EXTENDED_FLAG: u32 = 0x8000_0000;

/// The flag of a request for a frame (CAN_RTR_FLAG of include/uapi/linux/can.h).
pub const REMOTE_FLAG: u32 = 0x4000_0000;

/// The flag of a report of the controller's (CAN_ERR_FLAG of include/uapi/linux/can.h).
pub const ERROR_FLAG: u32 = 0x2000_0000;

/// The greatest identifier of 29 bits (CAN_EFF_MASK of include/uapi/linux/can.h).
pub const GREATEST_EXTENDED: u32 = 0x1fff_ffff;

/// The greatest identifier of 11 bits (CAN_SFF_MASK of include/uapi/linux/can.h).
pub const GREATEST_STANDARD: u32 = 0x7ff;

/// The least PDU format of PDU2. Below it a frame is a PDU1 (SAE J1939-21, PDU format).
pub const LEAST_PDU2: u8 = 240;

/// The destination of a frame that is sent to every address (SAE J1939-21, global address).
pub const GLOBAL: u8 = 255;

/// The identifier word of a CAN frame: an identifier of 29 bits, and above it the flags of
/// LINKTYPE_CAN_SOCKETCAN (`0x80000000` extended, `0x40000000` remote, `0x20000000` error).
///
/// The fields are those of SAE J1939-21, protocol data unit. They are read from the low 29 bits of
/// every word, whatever its flags say: [`CanId::is_extended_data`] says whether they mean anything.
#[derive(Clone, Copy, PartialEq, Eq, Debug)]
pub struct CanId {
    word: u32,
}

impl Model for CanId {
    ghost use Rattle.std.specs.Prelude.{ℕ};

    ghost Value = { ℕ };

    ghost view = { λ id. id.word };

    ghost inverse = { λ word. record { word = word } };
}

impl CanId {
    /// The identifier with this word.
    pub const fn from_word(word: u32) -> CanId
        ensures { result ≡ word }
    {
        CanId { word }
    }

    /// The whole word, with its flags.
    pub const fn word(self) -> u32
        ensures { result ≡ self }
    {
        self.word
    }

    /// Whether the frame is a data frame with an identifier of 29 bits: of the three flags the
    /// extended one alone is set.
    pub fn is_extended_data(self) -> bool
        ensures { result ≡ is_extended_data self }
    {
        self.word >> 29 == EXTENDED_FLAG >> 29
    }

    /// The priority, 0 (highest) to 7.
    pub fn priority(self) -> u8
        ensures { result ≡ priority self }
    {
        (self.identifier() >> 26) as u8
    }

    /// The extended data page (EDP), 0 or 1.
    pub fn edp(self) -> u8
        ensures { result ≡ extended_data_page self }
    {
        self.page() / 2
    }

    /// The data page (DP), 0 or 1.
    pub fn dp(self) -> u8
        ensures { result ≡ data_page self }
    {
        self.page() % 2
    }

    /// The PDU format (PF): 0 to 239 for PDU1, 240 to 255 for PDU2.
    pub fn pf(self) -> u8
        ensures { result ≡ pdu_format self }
    {
        ((self.identifier() >> 16) % 256) as u8
    }

    /// The PDU specific field (PS): the destination address for PDU1, the group extension for PDU2.
    pub fn ps(self) -> u8
        ensures { result ≡ pdu_specific self }
    {
        ((self.identifier() >> 8) % 256) as u8
    }

    /// The source address (SA).
    pub fn source(self) -> u8
        ensures { result ≡ source_address self }
    {
        (self.identifier() % 256) as u8
    }

    /// The parameter group number (PGN), 0 to 262143: the pages, the PDU format, and for PDU2 the
    /// PDU specific field.
    pub fn pgn(self) -> u32
        ensures { result ≡ parameter_group self }
    {
        let extension = if self.is_pdu1() { 0 } else { self.ps() };
        65536 * u32::from(self.page()) + 256 * u32::from(self.pf()) + u32::from(extension)
    }

    /// The address that the frame is sent to: the PDU specific field for PDU1, 255 (global) for
    /// PDU2. `None` unless this is the identifier of an extended data frame.
    pub fn destination(self) -> Option<u8>
        ensures { result ≡ destination self }
    {
        if !self.is_extended_data() {
            return None;
        }
        Some(if self.is_pdu1() { self.ps() } else { GLOBAL })
    }

    /// The 29 bits below the flags.
    fn identifier(self) -> u32
        ensures { result ≡ identifier self }
    {
        self.word % (GREATEST_EXTENDED + 1)
    }

    /// The extended data page and the data page, as one number of two bits.
    fn page(self) -> u8
        ensures { result ≡ page self }
    {
        ((self.identifier() >> 24) % 4) as u8
    }

    /// Whether PS is a destination: PF is below 240.
    fn is_pdu1(self) -> bool
        ensures { result ≡ is_pdu1 self }
    {
        self.pf() < LEAST_PDU2
    }
}
