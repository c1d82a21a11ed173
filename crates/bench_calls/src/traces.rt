//! Traces. That the tallies are right is not promised: the driver compares them with libpcap's.

ghost use Rattle.std.specs.Bool.{OnTrue};
ghost use Rattle.bench_calls.specs.Calls.{IsWhole};

use gw_frame::Frame;
use gw_trace::{Checked, Trace};
use std::alloc::Global;

/// Frames, as the driver compares them.
#[repr(C)]
#[derive(Clone, Copy)]
pub struct Tally {
    /// How many there are.
    pub frames: u64,
    /// The exclusive or of their identifier words.
    pub word: u32,
}

impl Tally {
    fn add(&mut self, frame: &Frame) {
        self.frames = self.frames.saturating_add(1);
        self.word ^= frame.id().word();
    }
}

/// Checks the octets of a trace, and then adds each port's share among so many ports to a tally, port by port. False: the
/// octets are no whole trace.
pub fn tally_shares(octets: &[u8], ports: usize, tally: &mut Tally) -> bool
    ensures { OnTrue result (IsWhole octets.now) }
{
    let Ok(checked) = Checked::new(octets) else {
        return false;
    };
    for port in 0..ports {
        for frame in checked.share(port, ports) {
            tally.add(&frame);
        }
    }
    true
}

/// Feeds a trace with octets in pieces of so many, and adds its frames to a tally. False: the octets are no whole trace, a
/// piece has no octets, or memory was refused.
pub fn tally_pieces(alloc: Global, octets: &[u8], piece: usize, tally: &mut Tally) -> bool {
    if piece == 0 {
        return false;
    }
    let mut trace = Trace::new();
    for piece in octets.chunks(piece) {
        let Ok(frames) = trace.feed(alloc, piece) else {
            return false;
        };
        for frame in &frames {
            tally.add(frame);
        }
    }
    trace.end().is_ok()
}
