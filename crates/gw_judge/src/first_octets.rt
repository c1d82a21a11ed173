//! The first octets of an input, which tell a capture from a log.

ghost use Rattle.std.specs.Prelude.{◌≡◌, ◌<◌, ◌≤◌, ℕ, List, length, true, IfOk, OnOk, OnErr};
ghost use Rattle.std.specs.Io.KnownBytes.{Consumes};
ghost use Rattle.gw_io.specs.Tries.{inner_of, has_failed};
ghost use Rattle.gw_judge.specs.FirstOctets.{Opens, is_capture};

use byteorder::{BigEndian, ByteOrder, LittleEndian};
use gw_io::{ReadFault, Tried};
use gw_trace::is_magic;
use std::io::Read;
use std::marker::Model;

/// How many octets a magic number has.
const MAGIC: usize = 4;

/// The first octets of an input: four, or all where there are fewer.
#[derive(Drop)]
pub struct FirstOctets {
    octets: [u8; MAGIC],
    len: usize,
}

impl Model for FirstOctets {
    ghost use Rattle.std.specs.Prelude.{◌≤◌, ℕ, List, take};

    ghost Value = { List ℕ };

    ghost view = { λ o. take o.len o.octets };

    ghost invariant = { λ o. o.len ≤ 4 };
}

impl FirstOctets {
    /// Reads the first octets of an input, by as many reads as they need.
    pub fn read<R: Read>(reader: &mut Tried<R>) -> Result<FirstOctets, ReadFault>
        ensures opened { IfOk result (λ first.
            Opens (R.remaining (inner_of reader.old)) (R.remaining (inner_of reader.new)) first) }
        ensures part { OnErr result ((got : List ℕ)
            × Consumes (R.remaining (inner_of reader.old)) (R.remaining (inner_of reader.new)) got × (length got < 4)) }
        ensures whole { OnOk result (has_failed reader.new ≡ has_failed reader.old) }
        ensures fault { OnErr result (has_failed reader.new ≡ true) }
    {
        let mut octets = [0; MAGIC];
        let mut len = 0;
        'octets: while len < MAGIC {
            match reader.read(&mut octets[len..]) {
                Ok(0) => return Ok(FirstOctets { octets, len }),
                Ok(n) => len += n,
                Err(_) => return Err(ReadFault),
            }
        }
        Ok(FirstOctets { octets, len })
    }

    /// The octets.
    pub fn octets(&self) -> &[u8]
        ensures octets { result.now ≡ self.now }
        ensures few { length result.now ≤ 4 }
    {
        &self.octets[..self.len]
    }

    /// Whether they are a magic number of classic pcap.
    pub fn is_capture(&self) -> bool
        ensures { result ≡ is_capture self.now }
    {
        is_capture(self.octets())
    }
}

fn is_capture(octets: &[u8]) -> bool
    ensures { result ≡ is_capture octets.now }
{
    if octets.len() < MAGIC {
        return false;
    }
    let magic = &octets[0..4];
    is_magic(BigEndian::read_u32(magic)) || is_magic(LittleEndian::read_u32(magic))
}
