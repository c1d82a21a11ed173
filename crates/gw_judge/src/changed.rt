//! The frames that two tables treat unlike.

ghost use Rattle.std.specs.Prelude.{ℕ, List};
ghost use Rattle.gw_judge.specs.Fates.{changed_fate};

use crate::decider::Decider;
use crate::fate::Fate;
use gw_frame::Frame;
use gw_table::Table;

/// A new table beside the old one. Of a frame that the two treat unlike it says what the new one decides, and of another nothing.
#[derive(Clone, Copy)]
pub struct Changed<'a> {
    pub old: &'a Table,
    pub new: &'a Table,
}

impl<'a> Decider for Changed<'a> {
    ghost fate_by = { λ c. changed_fate c.old.now c.new.now };

    fn fate(&self, frame: &Frame, from: u8) -> Fate {
        match (self.old.verdict(frame, from), self.new.verdict(frame, from)) {
            (true, true) | (false, false) => Fate::Silent,
            _ => self.new.fate(frame, from),
        }
    }
}
