//! Parts of lines, as a reader gives them.

ghost use Rattle.std.specs.Prelude.{◌≡◌, ◌<◌, ◌≤◌, ◌==◌, [], true, length, take, OnOk, OnErr};
ghost use Rattle.gw_io.specs.Tries.{inner_of, has_failed};
ghost use Rattle.gw_judge.specs.LineParts.{IsLinePart};

use gw_input::position_of;
use gw_io::{ReadFault, Tried};
use std::io::Read;
use std::marker::Model;

/// How many octets are asked of the reader at once.
const PIECE: usize = 65536;

/// Reads a log piece by piece, and parts each piece behind its line feeds.
#[derive(Drop)]
pub struct Parts {
    octets: [u8; PIECE],
    // where the part begins and ends, and how many octets the piece has
    begin: usize,
    end: usize,
    len: usize,
}

impl Model for Parts {
    ghost use Rattle.std.specs.Prelude.{◌-◌, ◌≤◌, take, drop};
    ghost use Rattle.gw_judge.specs.LineParts.{Ahead};

    ghost Value = { Ahead };

    ghost view = { λ p. record {
      part = take (p.end - p.begin) (drop p.begin p.octets);
      rest = take (p.len - p.end) (drop p.end p.octets);
    } };

    ghost invariant = { λ p. (p.begin ≤ p.end) × (p.end ≤ p.len) × (p.len ≤ 65536) };
}

impl Parts {
    ghost use Rattle.gw_judge.specs.LineParts.{GivesPart, Fills};

    /// Holds octets that were read before, and no part yet.
    pub fn behind(first: &[u8]) -> Parts
        requires { length first.now ≤ 65536 }
        ensures { result.rest ≡ first.now }
    {
        let mut octets = [0; PIECE];
        octets[..first.len()].copy_from_slice(first);
        Parts {
            octets,
            begin: 0,
            end: 0,
            len: first.len(),
        }
    }

    /// Goes on to the next part: up to the next line feed, with it, or to the piece's end. The next piece is read only where
    /// nothing of the last one is left. At the end of the log it returns false.
    pub fn next<R: Read>(&mut self, reader: &mut Tried<R>) -> Result<bool, ReadFault>
        ensures part { GivesPart (R.remaining (inner_of reader.old)) (R.remaining (inner_of reader.new))
            self.old.rest self.new result }
        ensures whole { OnOk result (has_failed reader.new ≡ has_failed reader.old) }
        ensures fault { OnErr result (has_failed reader.new ≡ true) }
    {
        if !self.fill(reader)? {
            return Ok(false);
        }
        self.begin = self.end;
        self.end += part_len(&self.octets[self.begin..self.len]);
        Ok(true)
    }

    /// Reads the next piece where nothing of the last one is left. At the end of the log it returns false.
    fn fill<R: Read>(&mut self, reader: &mut Tried<R>) -> Result<bool, ReadFault>
        ensures piece { Fills (R.remaining (inner_of reader.old)) (R.remaining (inner_of reader.new))
            self.old.rest self.new.rest result }
        ensures whole { OnOk result (has_failed reader.new ≡ has_failed reader.old) }
        ensures fault { OnErr result (has_failed reader.new ≡ true) }
    {
        if self.end < self.len {
            return Ok(true);
        }
        self.begin = 0;
        self.end = 0;
        self.len = 0;
        match reader.read(&mut self.octets) {
            Ok(0) => Ok(false),
            Ok(n) => {
                self.len = n;
                Ok(true)
            }
            Err(_) => Err(ReadFault),
        }
    }

    /// Whether nothing that was read is left behind the part, so that the next part is read.
    pub fn is_used_up(&self) -> bool
        ensures { result ≡ (length self.now.rest == 0) }
    {
        self.end == self.len
    }

    /// The part.
    pub fn part(&self) -> &[u8]
        ensures { result.now ≡ self.now.part }
    {
        &self.octets[self.begin..self.end]
    }
}

/// How many octets stand before the first line feed, and with it.
fn part_len(text: &[u8]) -> usize
    requires { 0 < length text.now }
    ensures line { IsLinePart (take result text.now) }
    ensures bound { result ≤ length text.now }
{
    let end = position_of(b'\n', text);
    if end < text.len() { end + 1 } else { end }
}
