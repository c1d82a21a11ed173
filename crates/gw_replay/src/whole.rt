//! Whole scripts, from a reader to a writer.

ghost use Rattle.std.specs.Prelude.{◌≡◌, ◌≤◌, false};
ghost use Rattle.gw_io.specs.Pieces.{most_reads};
ghost use Rattle.gw_io.specs.Tries.{inner_of, has_failed, reads_of, unended_reads};
ghost use Rattle.gw_replay.specs.Written.{HasReplayed};
ghost use Rattle.gw_replay.specs.declared.whole.ReplayFault.TheVariants as replay;

use crate::script_reader::ScriptReader;
use gw_io::{Pieces, ReadFault, Tried, WriteFault};
use std::alloc::{AllocError, Global};
use std::io;
use std::io::{Read, Write};
use thiserror::Error;

/// Why a replay ended before the end of its script.
#[derive(Clone, Copy, PartialEq, Eq, Debug, Error)]
pub enum ReplayFault {
    /// 96: a read failed, or 16777216 reads did not reach the end.
    #[error("the script could not be read to its end")]
    ReadFault,
    /// 99: a write failed.
    #[error("the answers could not be written")]
    WriteFault,
    /// 100: the memory that a line needs was refused.
    #[error("memory was refused")]
    OutOfMemory,
}

impl ReplayFault {
    ghost use Rattle.gw_replay.specs.Written.{fault_number};

    /// The number of the fault: 96, 99 or 100.
    pub fn number(self) -> u32
        ensures { result ≡ fault_number self }
    {
        match self {
            ReplayFault::ReadFault => 96,
            ReplayFault::WriteFault => 99,
            ReplayFault::OutOfMemory => 100,
        }
    }
}

impl From<ReadFault> for ReplayFault {
    ghost from_gives = { λ _ fault. fault ≡ replay.ReadFault };

    fn from(_: ReadFault) -> ReplayFault {
        ReplayFault::ReadFault
    }
}

impl From<WriteFault> for ReplayFault {
    ghost from_gives = { λ _ fault. fault ≡ replay.WriteFault };

    fn from(_: WriteFault) -> ReplayFault {
        ReplayFault::WriteFault
    }
}

impl From<AllocError> for ReplayFault {
    ghost from_gives = { λ _ fault. fault ≡ replay.OutOfMemory };

    fn from(_: AllocError) -> ReplayFault {
        ReplayFault::OutOfMemory
    }
}

/// Runs a script, and returns whether a line of it was refused. The line that answers a command is written as soon as the piece
/// that ends the command was read. Answers that stand before a fault are written.
pub fn replay<R: Read, W: Write>(
    alloc: Global,
    reader: &mut Tried<R>,
    writer: &mut Tried<W>,
) -> Result<bool, ReplayFault>
    requires reader { has_failed reader.old ≡ false }
    requires unread { reads_of reader.old ≡ 0 }
    requires writer { has_failed writer.old ≡ false }
    ensures replayed { HasReplayed (R.remaining (inner_of reader.old)) (R.remaining (inner_of reader.new))
        (W.contents (inner_of writer.old)) (W.contents (inner_of writer.new))
        (has_failed reader.new) (unended_reads reader.old reader.new) (has_failed writer.new) result }
    ensures reads { reads_of reader.new ≤ most_reads }
{
    replay_told(alloc, reader, writer, &mut Tried::new(io::sink()))
}

/// Runs a script as `replay` does, and tells on stderr why lines are refused.
pub fn replay_told<R: Read, W: Write, F: Write>(
    alloc: Global,
    reader: &mut Tried<R>,
    writer: &mut Tried<W>,
    faults: &mut Tried<F>,
) -> Result<bool, ReplayFault>
    requires reader { has_failed reader.old ≡ false }
    requires unread { reads_of reader.old ≡ 0 }
    requires writer { has_failed writer.old ≡ false }
    ensures replayed { HasReplayed (R.remaining (inner_of reader.old)) (R.remaining (inner_of reader.new))
        (W.contents (inner_of writer.old)) (W.contents (inner_of writer.new))
        (has_failed reader.new) (unended_reads reader.old reader.new) (has_failed writer.new) result }
    ensures reads { reads_of reader.new ≤ most_reads }
{
    let mut script_reader = ScriptReader::new(alloc);
    let mut pieces = Pieces::new();
    'pieces: while pieces.read(reader)? {
        let fed = script_reader.feed(alloc, pieces.piece(), faults);
        script_reader.write(writer)?;
        fed?;
    }
    script_reader.end(alloc, writer, faults)
}
