//! What is told of the records of a capture.

ghost use Rattle.std.specs.Prelude.{◌≡◌, ◌+◌, [], ℕ, List, Result, Some, length};
ghost use Rattle.gw_frame.specs.declared.refusal.FrameRefusal.{FrameRefusal};
ghost use Rattle.gw_judge.specs.declared.fate.Fate.{Fate};
ghost use Rattle.gw_judge.specs.Captures.{AreTold, with_refused};
ghost use Rattle.gw_judge.specs.CapturesUnderWay.{CountsRecord};
ghost use Rattle.std.specs.Option.{option_map_or};
ghost use Rattle.gw_judge.specs.Tallies.{up_to_most};
ghost use Rattle.gw_judge.specs.Grouped.{no_groups};
ghost use Rattle.gw_trace.specs.Traces.{index_of};

use crate::capture_fault::CaptureFault;
use crate::decider::Decider;
use crate::groups::Groups;
use crate::tally::Tally;
use gw_frame::{Frame, FrameRefusal};
use gw_trace::TraceRefusal;

/// A record that is no frame.
#[derive(Clone, Copy, PartialEq, Eq, Debug)]
pub struct NoFrame {
    /// Its number, counted from 0 up to 18446744073709551615.
    pub index: usize,
    pub why: FrameRefusal,
}

/// What is told of the records of a capture.
#[derive(Drop)]
pub struct CaptureTally {
    /// The tally of its frames.
    pub frames: Tally,
    /// How many records are no frames, up to 18446744073709551615.
    pub refused: u64,
    /// The first of them.
    pub first: Option<NoFrame>,
}

impl CaptureTally {
    /// No record yet.
    pub(crate) fn new(groups: Groups) -> CaptureTally
        requires { groups ≡ no_groups groups.grouping }
        ensures told { (fate : List ℕ → Fate) → AreTold fate [] result }
        ensures grouping { result.frames.groups.grouping ≡ groups.grouping }
    {
        CaptureTally {
            frames: Tally::new(groups),
            refused: 0,
            first: None,
        }
    }

    /// The tally of all records, where those that are no frames count as refused lines.
    pub fn lines(self) -> Tally
        ensures { result ≡ with_refused self.refused self.frames }
    {
        let mut tally = self.frames;
        tally.lines = tally.lines.saturating_add(self.refused);
        tally.counts.refused = tally.counts.refused.saturating_add(self.refused);
        tally
    }

    /// Counts a record of this number: a frame by its fate. Strictly, one that is no frame ends the judging.
    pub(crate) fn count<D: Decider>(
        &mut self,
        decider: &D,
        from: u8,
        strict: bool,
        index: usize,
        said: Result<Frame, FrameRefusal>,
    ) -> Result<(), CaptureFault>
        ensures counted { (records : List (Result (List ℕ) FrameRefusal)) → index ≡ index_of (length records)
            → AreTold (D.fate_by decider.now from) records self.old
            → CountsRecord (D.fate_by decider.now from) strict records said result self.new }
        ensures grouping { self.new.frames.groups.grouping ≡ self.old.frames.groups.grouping }
    {
        match said {
            Ok(frame) => {
                self.frames.count(decider.fate(&frame, from));
                Ok(())
            }
            Err(why) if strict => Err(self.fault(TraceRefusal::BadRecord { index, why })),
            Err(why) => {
                self.refuse(NoFrame { index, why });
                Ok(())
            }
        }
    }

    // Counts a record that is no frame.
    fn refuse(&mut self, no_frame: NoFrame)
        ensures refused { self.new.refused ≡ up_to_most (self.old.refused + 1) }
        ensures first { self.new.first ≡ option_map_or Some self.old.first (Some no_frame) }
        ensures frames { self.new.frames ≡ self.old.frames }
    {
        self.refused = self.refused.saturating_add(1);
        if self.first.is_none() {
            self.first = Some(no_frame);
        }
    }

    /// Why judging ends, and how many frames were judged before.
    pub(crate) fn fault(&self, why: TraceRefusal) -> CaptureFault
        ensures why { result.why ≡ why }
        ensures judged { result.judged ≡ self.now.frames.lines }
    {
        CaptureFault {
            why,
            judged: self.frames.lines,
        }
    }
}
