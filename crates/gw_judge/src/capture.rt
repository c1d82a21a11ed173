//! Captures, judged: classic pcap traces, from a reader.

ghost use Rattle.std.specs.Prelude.{◌≡◌, ◌<◌, [], ◌++◌, ℕ, Bool, List, length, false, IfOk, IfErr, OnOk};
ghost use Rattle.gw_io.specs.Tries.{inner_of, has_failed};
ghost use Rattle.gw_judge.specs.declared.fate.Fate.{Fate};
ghost use Rattle.gw_judge.specs.Captures.{IsCaptureJudged, IsCapturePartlyJudged};
ghost use Rattle.gw_judge.specs.Grouped.{no_groups};

use crate::capture_fault::CaptureFault;
use crate::capture_tally::CaptureTally;
use crate::decider::Decider;
use crate::groups::Groups;
use gw_io::Tried;
use gw_trace::{Records, Taken, TraceRefusal};
use std::io::Read;

/// How many octets are asked of the reader at once.
const PIECE: usize = 65536;

/// A trace that comes in pieces, and what is told of its records.
#[derive(Drop)]
pub struct CaptureJudging {
    pub records: Records,
    pub told: CaptureTally,
}

impl CaptureJudging {
    ghost use Rattle.gw_judge.specs.CapturesUnderWay.{HasCounted, Counts, Closes, Refuses, Steps};

    /// Starts before the first octet.
    fn new(groups: Groups) -> CaptureJudging
        requires { groups ≡ no_groups groups.grouping }
        ensures counted { (fate : List ℕ → Fate) → (strict : Bool) → HasCounted fate strict [] result }
        ensures grouping { result.told.frames.groups.grouping ≡ groups.grouping }
    {
        CaptureJudging {
            records: Records::new(),
            told: CaptureTally::new(groups),
        }
    }

    /// Takes the next piece, and counts the records that become whole with it.
    fn take<D: Decider>(
        &mut self,
        decider: &D,
        from: u8,
        strict: bool,
        piece: &[u8],
    ) -> Result<(), CaptureFault>
        ensures counted { (octets : List ℕ) → HasCounted (D.fate_by decider.now from) strict octets self.old
            → Counts (D.fate_by decider.now from) strict (octets ++ piece.now) result self.new }
        ensures grouping { self.new.told.frames.groups.grouping ≡ self.old.told.frames.groups.grouping }
    {
        let mut rest = piece;
        'records: while !rest.is_empty() {
            match self.step(decider, from, strict, rest) {
                Ok(others) => rest = others,
                Err(fault) => return Err(fault),
            }
        }
        Ok(())
    }

    /// Takes octets of a piece, and counts the record that is whole with them, if one is. Returns the octets behind them.
    fn step<'a, D: Decider>(
        &mut self,
        decider: &D,
        from: u8,
        strict: bool,
        piece: &'a [u8],
    ) -> Result<&'a [u8], CaptureFault>
        ensures counted { (octets : List ℕ) → HasCounted (D.fate_by decider.now from) strict octets self.old
            → IfOk result (λ rest. Steps (D.fate_by decider.now from) strict octets piece.now rest.now self.new) }
        ensures shorter { IfOk result (λ rest. 0 < length piece.now → length rest.now < length piece.now) }
        ensures refused { (octets : List ℕ) → HasCounted (D.fate_by decider.now from) strict octets self.old
            → IfErr result (λ fault. Refuses strict (octets ++ piece.now) fault.judged fault.why) }
        ensures grouping { self.new.told.frames.groups.grouping ≡ self.old.told.frames.groups.grouping }
    {
        let index = self.records.count();
        match self.records.take(piece) {
            Ok(Taken { whole, rest }) => match whole {
                Some(said) => match self.told.count(decider, from, strict, index, said) {
                    Ok(()) => Ok(rest),
                    Err(fault) => Err(fault),
                },
                None => Ok(rest),
            },
            Err(why) => Err(self.told.fault(why)),
        }
    }

    /// What is told of a trace that ends here, or what is wrong with it.
    fn end(self) -> Result<CaptureTally, CaptureFault>
        ensures closed { (fate : List ℕ → Fate) → (strict : Bool) → (octets : List ℕ) → HasCounted fate strict octets self
            → Closes fate strict octets result }
        ensures grouping { IfOk result (λ told. told.frames.groups.grouping ≡ self.told.frames.groups.grouping) }
    {
        match self.records.end() {
            Ok(()) => Ok(self.told),
            Err(why) => Err(self.told.fault(why)),
        }
    }
}

/// Judges the records of a classic pcap trace, each frame taken at the port `from`, and counts the frames in their groups.
/// `first` are the octets that were read before. All records of a piece are judged before the next read, in the memory of a piece
/// of 65536 octets. A record that is no frame passes nowhere and is counted; strictly it ends the judging, by 93. So does,
/// whether strictly or not, what is wrong with the trace's header, a record that is cut, or a failed read.
pub fn judge_capture<D: Decider, R: Read>(
    decider: &D,
    from: u8,
    strict: bool,
    groups: Groups,
    first: &[u8],
    reader: &mut Tried<R>,
) -> Result<CaptureTally, CaptureFault>
    requires reader { has_failed reader.old ≡ false }
    requires groups { groups ≡ no_groups groups.grouping }
    ensures judged { IfOk result (IsCaptureJudged (D.fate_by decider.now from) strict first.now
        (R.remaining (inner_of reader.old)) (R.remaining (inner_of reader.new))) }
    ensures part { IfErr result (λ fault. IsCapturePartlyJudged strict first.now
        (R.remaining (inner_of reader.old)) (R.remaining (inner_of reader.new)) (has_failed reader.new) fault.judged fault.why) }
    ensures read { OnOk result (has_failed reader.new ≡ false) }
    ensures grouping { IfOk result (λ told. told.frames.groups.grouping ≡ groups.grouping) }
{
    let mut judging = CaptureJudging::new(groups);
    judging.take(decider, from, strict, first)?;
    let mut piece = [0; PIECE];
    let mut left = u64::MAX;
    'pieces: while left > 0 {
        left -= 1;
        match reader.read(&mut piece) {
            Ok(0) => return judging.end(),
            Ok(n) => judging.take(decider, from, strict, &piece[..n])?,
            Err(_) => return Err(judging.told.fault(TraceRefusal::ReadFault)),
        }
    }
    Err(judging.told.fault(TraceRefusal::ReadFault))
}
