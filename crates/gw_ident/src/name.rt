//! The NAME of a device and its fields: SAE J1939-81, NAME.

ghost use Rattle.std.specs.Prelude.{◌≡◌};
ghost use Rattle.gw_ident.specs.DeviceName.{
  name_value,
  identity,
  manufacturer,
  ecu_instance,
  function_instance,
  function,
  reserved,
  vehicle_system,
  vehicle_system_instance,
  industry_group,
  arbitrary_capable,
};

use byteorder::{ByteOrder, LittleEndian};
use std::marker::Model;

/// The NAME by which a device claims its address: 64 bits, whose fields are those of SAE J1939-81.
///
/// NAMEs are ordered by their numbers: the lower one has priority and wins a contested address.
#[derive(Clone, Copy, PartialEq, Eq, PartialOrd, Ord, Debug)]
pub struct Name {
    value: u64,
}

impl Model for Name {
    ghost use Rattle.std.specs.Prelude.{ℕ};

    ghost Value = { ℕ };

    ghost view = { λ name. name.value };

    ghost inverse = { λ value. record { value = value } };
}

impl Name {
    /// The NAME in the payload of an Address Claimed, least significant octet first.
    pub fn from_bytes(octets: [u8; 8]) -> Name
        ensures { result ≡ name_value octets }
    {
        Name {
            value: LittleEndian::read_u64(&octets),
        }
    }

    /// The 64 bits as one number.
    pub const fn value(self) -> u64
        ensures { result ≡ self }
    {
        self.value
    }

    /// The identity number: 21 bits that tell apart the devices of one manufacturer.
    pub fn identity(self) -> u32
        ensures { result ≡ identity self }
    {
        (self.value % (1 << 21)) as u32
    }

    /// The manufacturer code, 11 bits.
    pub fn manufacturer(self) -> u16
        ensures { result ≡ manufacturer self }
    {
        ((self.value >> 21) % (1 << 11)) as u16
    }

    /// The ECU instance, 3 bits.
    pub fn ecu_instance(self) -> u8
        ensures { result ≡ ecu_instance self }
    {
        ((self.value >> 32) % (1 << 3)) as u8
    }

    /// The function instance, 5 bits.
    pub fn function_instance(self) -> u8
        ensures { result ≡ function_instance self }
    {
        ((self.value >> 35) % (1 << 5)) as u8
    }

    /// The function, 8 bits.
    pub fn function(self) -> u8
        ensures { result ≡ function self }
    {
        ((self.value >> 40) % (1 << 8)) as u8
    }

    /// The reserved bit, 0 or 1.
    pub fn reserved(self) -> u8
        ensures { result ≡ reserved self }
    {
        ((self.value >> 48) % (1 << 1)) as u8
    }

    /// The vehicle system, 7 bits.
    pub fn vehicle_system(self) -> u8
        ensures { result ≡ vehicle_system self }
    {
        ((self.value >> 49) % (1 << 7)) as u8
    }

    /// The vehicle system instance, 4 bits.
    pub fn vehicle_system_instance(self) -> u8
        ensures { result ≡ vehicle_system_instance self }
    {
        ((self.value >> 56) % (1 << 4)) as u8
    }

    /// The industry group, 3 bits.
    pub fn industry_group(self) -> u8
        ensures { result ≡ industry_group self }
    {
        ((self.value >> 60) % (1 << 3)) as u8
    }

    /// Whether the device can take another address than the one that it claims first.
    pub fn arbitrary_capable(self) -> bool
        ensures { result ≡ arbitrary_capable self }
    {
        self.value >> 63 == 1
    }
}
