//! Why judging ends before the end of a capture.

use gw_trace::TraceRefusal;
use std::error::Error;
use std::fmt;
use std::fmt::{Display, Formatter};

/// Why judging ended before the end of a capture: the refusal of a trace, 90 to 96.
#[derive(Clone, Copy, PartialEq, Eq, Debug)]
pub struct CaptureFault {
    pub why: TraceRefusal,
    /// How many frames were judged before, up to 18446744073709551615.
    pub judged: u64,
}

impl Display for CaptureFault {
    fn fmt<W: fmt::Write>(&self, f: &mut Formatter<W>) -> fmt::Result {
        write!(f, "{}; frames judged before: {}", self.why, self.judged)
    }
}

impl Error for CaptureFault {}
