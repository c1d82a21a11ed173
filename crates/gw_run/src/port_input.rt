//! What a port takes its frames from while a run goes on.

ghost use Rattle.std.specs.Prelude.{◌≡◌, ◌++◌, ℕ, List, [], Option, Some, IsTrue};
ghost use Rattle.std.specs.Borrow.{Bor};
ghost use Rattle.gw_trace.specs.TraceFrames.{HasTaken, has_ended};
ghost use Rattle.gw_judge.specs.declared.head.NoLog.TheVariants.{Pcap};
ghost use Rattle.gw_run.specs.Logs.{no_log};
ghost use Rattle.gw_run.specs.PortInputs.{EndsAs, HasGiven, IsFoundOf, IsSpent, trace_refusal};
ghost use Rattle.gw_run.specs.PortInputs.Found.{Held};

use crate::notes::note_input;
use crate::refusal::ForwardRefusal;
use gw_answers::{Refusal, note_unread};
use gw_frame::Frame;
use gw_io::Tried;
use gw_trace::{TraceFrames, TraceRefusal};
use std::io::{Read, Write};
use std::vec::IntoIter;

/// A file from which a port takes its frames.
#[derive(Clone, Copy)]
pub(crate) struct PortFile<'a> {
    pub port: usize,
    pub file: &'a str,
}

/// What a port takes its frames from.
#[derive(Drop)]
pub(crate) enum PortInput<'a, R> {
    /// From a list: the frames of a log, or none where no file is named.
    Listed(IntoIter<Frame>),
    /// From a trace, which is read while its frames are taken.
    Streamed(PortFile<'a>, TraceFrames<R>),
}

impl<R: Read + Drop> Iterator for PortInput<'_, R> {
    type Item = Frame;

    ghost use Rattle.gw_run.specs.PortInputs.{GivesNext, most_left};

    ghost next_gives = { GivesNext R.remaining };

    ghost remaining = { most_left };

    fn next(&mut self) -> Option<Frame> {
        match self {
            PortInput::Listed(frames) => frames.next(),
            PortInput::Streamed(_, frames) => frames.next(),
        }
    }
}

impl<R: Read + Drop> PortInput<'_, R> {
    /// Reads on to the end of the file, and tells why it is refused, if it is: 91 to 93 and 95 of a trace, 96 where a read
    /// failed, and 100 where memory was wanting. A person is told which port's file that is.
    pub fn finish<F: Write>(self, faults: &mut Tried<F>) -> Result<(), ForwardRefusal>
        ensures { (file : Option (Bor (List ℕ))) (given : List (List ℕ)) → HasGiven R.remaining file given self.entry
            → (left : List (List ℕ)) × EndsAs file (given ++ left) result × (IsSpent self.entry → left ≡ []) }
    {
        match self {
            PortInput::Listed(_) => Ok(()),
            PortInput::Streamed(named, frames) => finish_trace(named, frames, faults),
        }
    }
}

/// Reads on to the end of a trace.
fn finish_trace<R: Read + Drop, F: Write>(
    named: PortFile,
    frames: TraceFrames<R>,
    faults: &mut Tried<F>,
) -> Result<(), ForwardRefusal>
    ensures { (file : Option (Bor (List ℕ))) (before : Option (List ℕ)) (octets : List ℕ) (given : List (List ℕ))
        → IsFoundOf file (Held octets) → no_log octets ≡ Some Pcap → HasTaken R.remaining before octets given frames
        → (left : List (List ℕ)) × EndsAs file (given ++ left) result × (IsTrue (has_ended frames) → left ≡ []) }
{
    let mut frames = frames;
    let Err(why) = frames.finish() else {
        return Ok(());
    };
    if let Some(error) = frames.error() {
        note_unread(named.file, &error, faults);
    }
    note_input(named.port, named.file, faults);
    Err(trace_refusal(why))
}

/// What refuses a port's trace: a failed read is told as that of any file is.
pub(crate) fn trace_refusal(why: TraceRefusal) -> ForwardRefusal
    ensures { result ≡ trace_refusal why }
{
    match why {
        TraceRefusal::ReadFault => ForwardRefusal::Command(Refusal::ReadFault),
        TraceRefusal::OutOfMemory => ForwardRefusal::Command(Refusal::OutOfMemory),
        why => ForwardRefusal::Trace(why),
    }
}
