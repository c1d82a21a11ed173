//! The verdicts of policies that judge by identifiers alone, kept by the identifiers of the last frames.

ghost use Rattle.std.specs.Prelude.{◌≡◌, ◌<◌, ℕ, List};
ghost use Rattle.gw_frame.specs.Record.{IsRecord, word_of};
ghost use Rattle.gw_policy.specs.Batches.{PortPolicies};
ghost use Rattle.gw_policy.specs.Cached.{Keeps, ArePassing};

use gw_frame::Frame;
use gw_ledger::PortSet;

/// So many verdicts are kept. A segment has some hundred identifiers, and one takes the place of another that falls on it.
const PLACES: usize = 1024;

/// A golden section of 2 to the 32nd: words that lie close together are spread (D. E. Knuth, 1973, section 6.4).
const GOLDEN: u32 = 0x9E37_79B1;

/// Of the ports that were judged those that pass the frames of an identifier word which were taken at the port `from`.
#[derive(Clone, Copy)]
pub(crate) struct Verdicts {
    pub word: u32,
    pub from: u8,
    pub judged: PortSet,
    pub passing: PortSet,
}

impl Verdicts {
    // No port was judged.
    fn none() -> Verdicts
        ensures { (set : PortPolicies) (frame : List ℕ) (port : ℕ)
            → ArePassing set frame port result.judged result.passing }
    {
        Verdicts {
            word: 0,
            from: 0,
            judged: PortSet::new(),
            passing: PortSet::new(),
        }
    }
}

/// Which ports the policies of a set allow to the last frames, by identifier and ingress port. A table judges by these alone, and
/// so does a program that loads nothing else. A frame with the identifier of an earlier one need not be judged again by them.
#[derive(Drop)]
pub struct VerdictCache {
    places: [Verdicts; PLACES],
}

impl VerdictCache {
    /// Keeps no verdict.
    pub fn new() -> VerdictCache
        ensures { (set : PortPolicies) → Keeps set result }
    {
        VerdictCache {
            places: [Verdicts::none(); PLACES],
        }
    }

    /// Keeps no verdict any more. So it may be used with another set of policies.
    pub fn clear(&mut self)
        ensures { (set : PortPolicies) → Keeps set self.new }
    {
        let places = [Verdicts::none(); PLACES];
        self.places = places;
    }

    // What is kept of frames that have the identifier of this one and were taken at the port `from`.
    pub(crate) fn get(&self, frame: &Frame, from: u8) -> Verdicts
        ensures { (set : PortPolicies) → Keeps set self.now → ArePassing set frame.now from result.judged result.passing }
    {
        // What is kept is told of records.
        let _octets = frame.bytes();
        let word = frame.id().word();
        let kept = self.places[place_of(word)];
        if kept.word == word && kept.from == from {
            kept
        } else {
            Verdicts::none()
        }
    }

    // Keeps which ports passed a frame that was taken at the port `from`, of those that were judged by its identifier.
    pub(crate) fn put(&mut self, frame: &Frame, from: u8, judged: PortSet, passing: PortSet)
        ensures { (set : PortPolicies) → Keeps set self.old
            → ((other : List ℕ) → IsRecord other → word_of other ≡ word_of frame.now → ArePassing set other from judged passing)
            → Keeps set self.new }
    {
        let word = frame.id().word();
        self.places[place_of(word)] = Verdicts {
            word,
            from,
            judged,
            passing,
        };
    }
}

// The place for the verdicts of a word.
fn place_of(word: u32) -> usize
    ensures { result < 1024 }
{
    (word.wrapping_mul(GOLDEN) >> 22) as usize % PLACES
}
