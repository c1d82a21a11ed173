//! What a reader gives, piece by piece.

ghost use Rattle.std.specs.Prelude.{◌≡◌, ◌≤◌, ◌+◌, ◌⊎◌, ◌||◌, not, true, length, OnOk, OnErr, IfOk};
ghost use Rattle.gw_io.specs.Pieces.{IsNextPiece, most_reads};
ghost use Rattle.gw_io.specs.Tries.{inner_of, has_failed, has_ended, reads_of};

use crate::tried::Tried;
use std::io::Read;
use std::marker::Model;

/// The most reads of one input.
pub const MAX_READS: u32 = 16_777_216;

/// How many octets are asked of the reader at once.
const PIECE: usize = 65536;

/// A read failed, or 16777216 reads did not reach the end.
#[derive(Clone, Copy, PartialEq, Eq, Debug)]
pub struct ReadFault;

/// Reads an input piece by piece, and counts its reads down.
#[derive(Drop)]
pub struct Pieces {
    octets: [u8; PIECE],
    len: usize,
    left: u32,
}

impl Model for Pieces {
    ghost use Rattle.std.specs.Prelude.{◌≤◌, take};
    ghost use Rattle.gw_io.specs.Pieces.{Known};

    ghost Value = { Known };

    ghost view = { λ p. record { piece = take p.len p.octets; left = p.left } };

    ghost invariant = { λ p. p.len ≤ 65536 };
}

impl Pieces {
    /// Holds no piece yet, and has 16777216 reads left.
    pub fn new() -> Pieces
        ensures { result.left ≡ most_reads }
    {
        Pieces {
            octets: [0; PIECE],
            len: 0,
            left: MAX_READS,
        }
    }

    /// Reads the next piece, of at most 65536 octets, by one call of the reader. At the end of the input it returns false.
    /// Where no read is left, it refuses and calls nothing.
    pub fn read<R: Read>(&mut self, reader: &mut Tried<R>) -> Result<bool, ReadFault>
        ensures piece { IsNextPiece (R.remaining (inner_of reader.old)) (R.remaining (inner_of reader.new))
            self.new.piece result }
        ensures short { length self.new.piece ≤ 65536 }
        ensures whole { OnOk result (has_failed reader.new ≡ has_failed reader.old) }
        ensures ended { IfOk result (λ more. has_ended reader.new ≡ (has_ended reader.old || not more)) }
        ensures unended { OnErr result (has_ended reader.new ≡ has_ended reader.old) }
        ensures fault { OnErr result ((has_failed reader.new ≡ true) ⊎ (self.old.left ≡ 0)) }
        ensures left { OnOk result (self.new.left + 1 ≡ self.old.left) }
        ensures fewer { self.new.left ≤ self.old.left }
        ensures reads { reads_of reader.old + self.old.left ≤ 4294967295
            → reads_of reader.new + self.new.left ≡ reads_of reader.old + self.old.left }
    {
        if self.left == 0 {
            return Err(ReadFault);
        }
        self.left -= 1;
        match reader.read(&mut self.octets) {
            Ok(n) => {
                self.len = n;
                Ok(n > 0)
            }
            Err(_) => Err(ReadFault),
        }
    }

    /// The piece that was read last.
    pub fn piece(&self) -> &[u8]
        ensures { result.now ≡ self.now.piece }
    {
        &self.octets[..self.len]
    }
}
