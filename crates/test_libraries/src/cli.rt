//! What the tests of the command line share: texts and records, and what a command did.

use crate::streams::{Sink, Source, WHOLE};
use gw_cli::{Console, command, run_command};
use gw_io::Tried;
use std::alloc::{AllocError, Global};
use std::marker::{Send, Sync};
use std::rt::{Clock, Files};
use std::sync::Wait;
use std::thread::Threads;

pub const R: &str = "8CF0040008000000FFFFFFFFFFFFFFFF";

pub const FIRST_RUN: &str =
    "8CF0040008000000FFFFFFFFFFFFFFFF\n4,48 0 0 1,21 0 1 240,6 0 0 1,6 0 0 0,\n";

/// The listing of the empty table.
pub const EMPTY_TABLE: &str =
    "22,32 0 0 0,84 0 0 3758096384,21 1 0 2147483648,6 0 0 0,48 0 0 3,2 0 0 1,48 0 0 1,53 7 0 240,48 0 0 2,2 0 0 2,\
    32 0 0 0,116 0 0 8,84 0 0 261888,2 0 0 0,5 0 0 6,0 0 0 255,2 0 0 2,32 0 0 0,116 0 0 8,84 0 0 262143,2 0 0 0,\
    6 0 0 0,\n";

/// The little-endian header of a trace by microseconds, and that of a record of 16 octets.
pub const HEADER: &[u8] = b"\xD4\xC3\xB2\xA1\x02\0\x04\0\0\0\0\0\0\0\0\0\0\0\x04\0\xE3\0\0\0";

const RECORD: &[u8] = b"\0\0\0\0\0\0\0\0\x10\0\0\0\x10\0\0\0";

/// The engine's speed (PGN 61444) from address 0.
pub const SPEED: &[u8] = b"\x8C\xF0\x04\0\x08\0\0\0\xFF\xFF\xFF\xFF\xFF\xFF\xFF\xFF";

/// The words of the worked example of `run`.
pub const TWO_PORTS: &[&str] = &["run", "--ports", "2", "--program", "1,6 0 0 1,"];

/// A trace of these records.
pub fn trace_of(alloc: Global, records: &[&[u8]]) -> Result<Vec<u8>, AllocError> {
    let mut trace = Vec::from_slice(alloc, HEADER)?;
    for record in records {
        trace.extend_from_slice(RECORD)?;
        trace.extend_from_slice(record)?;
    }
    Ok(trace)
}

/// What a command did: its status, and what it wrote to the output and to stderr.
#[derive(Drop)]
pub struct Outcome {
    pub status: u8,
    pub output: Vec<u8>,
    pub stderr: Vec<u8>,
}

impl Outcome {
    /// Whether the command failed, and wrote just this.
    pub fn is_failure(&self, output: &[u8]) -> bool {
        self.status == 1 && self.output.as_slice() == output
    }

    /// Whether the output took just this, and stderr tells that it took no more.
    pub fn is_cut(&self, output: &[u8]) -> bool {
        self.is_failure(output)
            && self.stderr.as_slice() == b"gw: the output could not be written\n".as_slice()
    }
}

/// What `command` did on an input.
pub fn outcome_of<R: Files>(rt: &R, alloc: Global, words: &[&str], input: &[u8]) -> Outcome {
    outcome_on(rt, alloc, words, Source::new(input, WHOLE), WHOLE, WHOLE)
}

/// What `command` did with a reader, and writers that take one octet a call and have so much room.
pub fn outcome_on<R: Files>(
    rt: &R,
    alloc: Global,
    words: &[&str],
    input: Source<'_>,
    room: usize,
    stderr_room: usize,
) -> Outcome {
    let mut output = Sink::new(alloc, 1, room);
    let mut stderr = Sink::new(alloc, 1, stderr_room);
    let status = command(
        rt,
        alloc,
        words,
        &mut Tried::new(input),
        &mut Tried::new(&mut output),
        &mut Tried::new(&mut stderr),
    );
    Outcome {
        status,
        output: output.taken,
        stderr: stderr.taken,
    }
}

/// What `run_command` did with a reader, and an output that takes one octet a call and has so much room.
pub fn run_outcome_on<R>(
    rt: &R,
    alloc: Global,
    words: &[&str],
    input: Source<'_>,
    room: usize,
) -> Outcome
where
    R: Threads + Wait + Sync + Files + Clock + Eprint + Console,
    R::File: Send,
{
    let mut output = Sink::new(alloc, 1, room);
    let mut stderr = Sink::new(alloc, 1, WHOLE);
    let status = run_command(
        rt,
        alloc,
        words,
        &mut Tried::new(input),
        &mut Tried::new(&mut output),
        &mut Tried::new(&mut stderr),
    );
    Outcome {
        status,
        output: output.taken,
        stderr: stderr.taken,
    }
}
