//! The frames of a trace that is read while they are taken.

ghost use Rattle.std.specs.Prelude.{◌≡◌, ◌≢◌, ◌≤◌, ◌<◌, ◌++◌, ℕ, List, [], Option, Some, None, Err, IfOk, IfErr, IsTrue, false};
ghost use Rattle.std.specs.Io.KnownBytes.{Consumes};
ghost use Rattle.std.specs.Iterator.{size};
ghost use Rattle.std.specs.Vec.Iter.{into_iter_items, into_iter_len};
ghost use Rattle.gw_io.specs.Tries.{inner_of, error_of};
ghost use Rattle.gw_trace.specs.TraceFrames.{HasTaken, has_ended, most_of};
ghost use Rattle.gw_trace.specs.Traces.{whole_trace};
ghost use Rattle.gw_trace.specs.declared.refusal.TraceRefusal.TheVariants.{OutOfMemory};

use crate::refusal::TraceRefusal;
use crate::trace::Trace;
use gw_frame::Frame;
use gw_io::{Pieces, ReadFault, Tried};
use std::alloc::Global;
use std::io::{Error, Read};
use std::vec::IntoIter;

/// The frames of a trace in order. It reads a piece of at most 65536 octets once the frames before are taken, and keeps no more
/// than one piece and its frames. A fault ends it behind the frames before; `finish` tells the fault.
#[derive(Drop)]
pub struct TraceFrames<R> {
    alloc: Global,
    reader: Tried<R>,
    pieces: Pieces,
    trace: Trace,
    /// Those of the piece that was read last.
    frames: IntoIter<Frame>,
    /// How the trace ended, once none of its frames is left.
    end: Option<Result<(), TraceRefusal>>,
}

impl<R: Read + Drop> TraceFrames<R> {
    /// The frames of a trace whose reader gave these first octets before. None of it is taken yet. 90 to 93 is a fault of these
    /// octets with no frame before it, and 94 is no memory.
    pub fn new(
        alloc: Global,
        front: &[u8],
        reader: Tried<R>,
    ) -> Result<TraceFrames<R>, TraceRefusal>
        ensures begins { (before : Option (List ℕ)) → Consumes before (R.remaining (inner_of reader)) front.now
            → IfOk result (HasTaken R.remaining before front.now []) }
        ensures refused { IfErr result (λ e. e ≢ OutOfMemory → whole_trace front.now ≡ Err e) }
    {
        let mut trace = Trace::new();
        let frames = trace.feed(alloc, front)?;
        Ok(TraceFrames {
            alloc,
            reader,
            pieces: Pieces::new(),
            trace,
            frames: frames.into_iter(),
            end: None,
        })
    }

    /// Reads the next piece, where no frame of those before is left.
    pub fn read_ahead(&mut self)
        ensures read { (before : Option (List ℕ)) (octets : List ℕ) (given : List (List ℕ))
            → HasTaken R.remaining before octets given self.old
            → (more : List ℕ) × HasTaken R.remaining before (octets ++ more) given self.new }
        ensures ahead { into_iter_len self.old.frames ≡ 0 → has_ended self.new ≡ false
            → self.new.pieces.left < self.old.pieces.left }
    {
        if self.end.is_none() && self.frames.len() == 0 {
            self.read_on();
        }
    }

    /// Reads on to the end of the trace, and tells how it ended: 90 to 93 and 95 is a fault of its octets, 94 is no memory for
    /// the frames of a piece, and 96 is a failed read, or an end that 16777216 reads did not reach. The frames that are left
    /// are dropped.
    pub fn finish(&mut self) -> Result<(), TraceRefusal>
        ensures left { (before : Option (List ℕ)) (octets : List ℕ) (given : List (List ℕ))
            → HasTaken R.remaining before octets given self.old
            → (more : List ℕ) × (left : List (List ℕ)) × HasTaken R.remaining before (octets ++ more) (given ++ left) self.new
            × (IsTrue (has_ended self.old) → left ≡ []) }
        ensures ended { self.new.end ≡ Some result }
    {
        'left: while let Some(_frame) = self.next() {}
        self.end.unwrap()
    }

    /// The error by which a read failed, if one did.
    pub fn error(&self) -> Option<Error>
        ensures { result ≡ error_of self.now.reader }
    {
        self.reader.error()
    }

    // Reads the next piece, where none of the frames before is left.
    fn read_on(&mut self)
        requires none { into_iter_items self.old.frames ≡ [] }
        requires going { self.old.end ≡ None }
        ensures read { (before : Option (List ℕ)) (octets : List ℕ) (given : List (List ℕ))
            → HasTaken R.remaining before octets given self.old
            → (more : List ℕ) × HasTaken R.remaining before (octets ++ more) given self.new }
        ensures most { size (most_of self.new) ≤ size (most_of self.old) }
        ensures fewer { has_ended self.new ≡ false → self.new.pieces.left < self.old.pieces.left }
    {
        match self.pieces.read(&mut self.reader) {
            Ok(true) => match self.trace.feed(self.alloc, self.pieces.piece()) {
                Ok(frames) => self.frames = frames.into_iter(),
                Err(why) => self.end = Some(Err(why)),
            },
            Ok(false) => self.end = Some(self.trace.end()),
            Err(ReadFault) => self.end = Some(Err(TraceRefusal::ReadFault)),
        }
    }
}

impl<R: Read + Drop> Iterator for TraceFrames<R> {
    type Item = Frame;

    ghost use Rattle.gw_trace.specs.TraceFrames.{TakesNext, most_of};

    ghost next_gives = { TakesNext R.remaining };

    ghost remaining = { most_of };

    fn next(&mut self) -> Option<Frame> {
        'pieces: while self.end.is_none() {
            if let Some(frame) = self.frames.next() {
                return Some(frame);
            }
            self.read_on();
        }
        None
    }
}
