//! Deals the frames of a trace among the ports while it is read.

ghost use Rattle.std.specs.Prelude.{◌≡◌, ◌<◌, ◌++◌, ◌∷◌, ℕ, List, [], None, Ok, length, slice_index_or};
ghost use Rattle.std.specs.Prelude.{false, IfErr, OnOk};
ghost use Rattle.gw_io.specs.Tries.{inner_of, has_failed, reads_of, unended_reads};
ghost use Rattle.gw_trace.specs.Progress.{HasRead};
ghost use Rattle.gw_trace.specs.Traces.{reading, whole_trace};
ghost use Rattle.gw_trace.specs.declared.refusal.TraceRefusal.TheVariants.{OutOfMemory};
ghost use Rattle.gw_run.specs.Dealing.{AreSameRings, IsDealt, RefusesReading};
ghost use Rattle.gw_run.specs.Dealt.{Puts, Putting};
ghost use Rattle.gw_run.specs.Forwarding.{IsTraceInput};

use crate::dealt::DealtIn;
use crate::front::Front;
use crate::stops::Stops;
use gw_frame::Frame;
use gw_io::{Pieces, Tried};
use gw_trace::{Trace, TraceRefusal};
use std::alloc::Global;
use std::io::Read;
use std::sync::Wait;

/// The ends at which the ports' frames are put, and the port whose turn it is.
#[derive(Drop)]
pub(crate) struct Dealer<'a, R> {
    pub rt: &'a R,
    pub stops: &'a Stops,
    pub ports: Vec<DealtIn>,
    pub turn: usize,
}

impl<R: Wait> Dealer<'_, R> {
    /// Reads a trace to its end, and deals its frames: frame i to port i mod the number of ports. It refuses 90 to 93 and 95,
    /// what is wrong with the trace, 94, no memory, and 96, that a read failed or 16777216 reads did not reach the end. `front`
    /// sees how the trace begins. It may wait.
    pub fn deal_trace<I: Read>(
        &mut self,
        alloc: Global,
        reader: &mut Tried<I>,
        front: &mut Front,
    ) -> Result<(), TraceRefusal>
        requires turn { self.old.turn < length self.old.ports.items }
        requires whole { has_failed reader.old ≡ false }
        requires unread { reads_of reader.old ≡ 0 }
        ensures rings { AreSameRings self.old.ports.items self.new.ports.items }
        ensures dealt { IsDealt [] self.old → OnOk result ((octets : List ℕ) × (frames : List (List ℕ))
            × IsTraceInput (I.remaining (inner_of reader.old)) (I.remaining (inner_of reader.new)) (has_failed reader.new) octets
            × (whole_trace octets ≡ Ok frames) × IsDealt frames self.new) }
        ensures refused { IfErr result (RefusesReading (I.remaining (inner_of reader.old)) (I.remaining (inner_of reader.new))
            (has_failed reader.new) (unended_reads reader.old reader.new)) }
    {
        let mut trace = Trace::new();
        let mut pieces = Pieces::new();
        'pieces: while pieces.read(reader)? {
            let piece = pieces.piece();
            front.see(piece);
            self.deal_piece(alloc, &mut trace, piece)?;
        }
        trace.end()
    }

    /// Deals the frames that become whole with the next piece of a trace. Of a fault nothing is told here.
    fn deal_piece(
        &mut self,
        alloc: Global,
        trace: &mut Trace,
        piece: &[u8],
    ) -> Result<(), TraceRefusal>
        requires turn { self.old.turn < length self.old.ports.items }
        ensures turn { self.new.turn < length self.new.ports.items }
        ensures rings { AreSameRings self.old.ports.items self.new.ports.items }
        ensures read { (octets : List ℕ) → HasRead trace.old octets → OnOk result (HasRead trace.new (octets ++ piece.now)) }
        ensures dealt { (octets : List ℕ) → HasRead trace.old octets → IsDealt (reading octets).frames self.old
            → OnOk result (IsDealt (reading (octets ++ piece.now)).frames self.new) }
        ensures refused { IfErr result (λ why. why ≡ OutOfMemory) }
    {
        match trace.feed(alloc, piece) {
            Ok(frames) => {
                self.deal_all(frames);
                self.flush();
            }
            Err(why) => {
                if why == TraceRefusal::OutOfMemory {
                    return Err(why);
                }
            }
        }
        Ok(())
    }

    /// Deals these frames.
    fn deal_all(&mut self, frames: Vec<Frame>)
        requires turn { self.old.turn < length self.old.ports.items }
        ensures turn { self.new.turn < length self.new.ports.items }
        ensures rings { AreSameRings self.old.ports.items self.new.ports.items }
        ensures dealt { (given : List (List ℕ)) → IsDealt given self.old → IsDealt (given ++ frames.items) self.new }
    {
        for frame in frames {
            self.deal(frame);
        }
    }

    /// Deals a frame to the port whose turn it is.
    fn deal(&mut self, frame: Frame)
        requires turn { self.old.turn < length self.old.ports.items }
        ensures turn { self.new.turn < length self.new.ports.items }
        ensures rings { AreSameRings self.old.ports.items self.new.ports.items }
        ensures dealt { (given : List (List ℕ)) → IsDealt given self.old → IsDealt (given ++ frame ∷ []) self.new }
    {
        let port = self.turn;
        self.ports[port].put(self.rt, Some(frame), port, self.stops);
        self.turn = if port + 1 == self.ports.len() {
            0
        } else {
            port + 1
        };
    }

    /// Lets each port take what it was dealt.
    fn flush(&mut self)
        ensures turn { self.new.turn ≡ self.old.turn }
        ensures rings { AreSameRings self.old.ports.items self.new.ports.items }
        ensures dealt { (given : List (List ℕ)) → IsDealt given self.old → IsDealt given self.new }
    {
        for port in 0..self.ports.len() {
            self.ports[port].flush(self.rt, port, self.stops);
        }
    }

    /// Tells each port that no other frame follows.
    pub fn end(&mut self)
        ensures rings { AreSameRings self.old.ports.items self.new.ports.items }
        ensures ended { (k : ℕ) (d : Putting) → k < length self.old.ports.items
            → Puts (slice_index_or self.old.ports.items k d) None (slice_index_or self.new.ports.items k d) }
    {
        for port in 0..self.ports.len() {
            self.ports[port].end(self.rt, port, self.stops);
        }
    }
}
