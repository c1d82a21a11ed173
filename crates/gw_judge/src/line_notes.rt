//! What is seen of a log's lines by whoever tells a person of them.

use gw_log::LogRefusal;

/// Sees the lines of a log. No clause speaks of it: it is for a person's message alone.
pub trait LineNotes {
    /// A line was read.
    fn see_line(&mut self);

    /// The last line says no classic frame.
    fn see_refused(&mut self, why: LogRefusal);

    /// The last line says a frame of an interface that is named for no port.
    fn see_untaken(&mut self, interface: &[u8]);
}
