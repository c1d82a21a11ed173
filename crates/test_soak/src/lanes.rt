//! The copies of a lane beside the outcomes of its source.

use crate::frames::Drawn;
use gw_frame::Frame;
use gw_ledger::{FrameCopy, Outcome};

/// The copies of a lane: those that were taken out at its destination, among those of other sources, and those left there.
#[derive(Clone, Copy, Drop)]
pub struct LaneCopies<'a> {
    pub from: u8,
    pub to: u8,
    pub out: &'a [FrameCopy],
    pub left: &'a [FrameCopy],
}

impl LaneCopies<'_> {
    /// Whether these are the copies that the source placed on the lane, each once and in order.
    pub fn are_placed(&self, frames: Drawn, outcomes: &[Outcome]) -> bool {
        let from = self.from;
        let taken = self.out.iter().filter(|copy| copy.from == from);
        let mut copies = taken.chain(self.left.iter());
        for (frame, outcome) in frames.zip(outcomes.iter()) {
            if outcome.placed.has(self.to) && !self.is_of(copies.next(), &frame, outcome.number) {
                return false;
            }
        }
        copies.next().is_none()
    }

    /// Whether there is a copy, and it is that of the source's frame of a number.
    fn is_of(&self, copy: Option<&FrameCopy>, frame: &Frame, number: u32) -> bool {
        match copy {
            Some(copy) => {
                copy.from == self.from && copy.number == number && copy.frame == *frame
            }
            None => false,
        }
    }
}
