//! The header of a trace, and the byte order that it shows.

ghost use Rattle.std.specs.Prelude.{◌≡◌, ◌≤◌, length};
ghost use Rattle.gw_trace.specs.Traces.{number, is_magic, order_of, header_of};

use crate::refusal::TraceRefusal;
use byteorder::{BigEndian, ByteOrder, LittleEndian};

/// How many octets the header of a trace has.
pub const HEADER: usize = 24;

/// The byte order in which a trace was written.
#[derive(Clone, Copy)]
pub enum Endian {
    Big,
    Little,
}

impl Endian {
    /// The number in the first two octets.
    fn read_u16(self, octets: &[u8]) -> u16
        requires { 2 ≤ length octets.now }
        ensures { result ≡ number self 2 octets.now }
    {
        match self {
            Endian::Big => BigEndian::read_u16(octets),
            Endian::Little => LittleEndian::read_u16(octets),
        }
    }

    /// The number in the first four octets.
    pub fn read_u32(self, octets: &[u8]) -> u32
        requires { 4 ≤ length octets.now }
        ensures { result ≡ number self 4 octets.now }
    {
        match self {
            Endian::Big => BigEndian::read_u32(octets),
            Endian::Little => LittleEndian::read_u32(octets),
        }
    }
}

/// Whether a word is a magic number of classic pcap, with times in microseconds or in nanoseconds.
pub fn is_magic(word: u32) -> bool
    ensures { result ≡ is_magic word }
{
    word == 0xA1B2_C3D4 || word == 0xA1B2_3C4D
}

// Finds the byte order in which the octets begin with a magic number.
fn shown_order(octets: &[u8]) -> Option<Endian>
    requires { 4 ≤ length octets.now }
    ensures { result ≡ order_of octets.now }
{
    let magic = &octets[0..4];
    if is_magic(Endian::Big.read_u32(magic)) {
        Some(Endian::Big)
    } else if is_magic(Endian::Little.read_u32(magic)) {
        Some(Endian::Little)
    } else {
        None
    }
}

/// Reads the header of a trace. Returns its byte order, or what is wrong with it.
#[tactic(auto, unfolding(crate::specs::Traces::header_of))]
pub fn header(octets: &[u8]) -> Result<Endian, TraceRefusal>
    requires { HEADER ≤ length octets.now }
    ensures { result ≡ header_of octets.now }
{
    let Some(order) = shown_order(octets) else {
        return Err(TraceRefusal::BadMagic);
    };
    if order.read_u16(&octets[4..6]) != 2 || order.read_u16(&octets[6..8]) != 4 {
        return Err(TraceRefusal::BadVersion);
    }
    if order.read_u32(&octets[20..24]) != 227 {
        return Err(TraceRefusal::BadLink);
    }
    Ok(order)
}
