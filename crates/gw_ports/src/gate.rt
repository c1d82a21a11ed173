//! What holds the threads of a run back, or watches them.

ghost use Rattle.std.specs.Prelude.{◌≡◌, Bool};

/// Is called by the threads of a run around their steps. It may hold them back, so that a run has one schedule.
pub trait Gate: Sync {
    // Whether a copy that finds its lane full waits for room. Where it does not, it is lost.
    ghost waits: { Bool };

    /// Whether an offer waits until each of its copies is placed. Where it does not, a copy that finds its lane full is lost.
    fn waits_for_room(&self) -> bool
        ensures { result ≡ waits };

    /// Before a port offers the frame of this index.
    fn enter(&self, port: u8, index: usize);

    /// After that offer.
    fn leave(&self, port: u8, index: usize);

    /// Where a port stopped at a frame that was refused: it takes no other.
    fn stopped(&self, _port: u8) {}

    /// Before the batch of this index is published.
    fn before_replace(&self, index: usize);

    /// After that, published or refused.
    fn replaced(&self, index: usize);
}
