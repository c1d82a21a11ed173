//! The first octets of what is judged: a capture or a compressed file, which is no log, begins with a number of its own.

use arrayvec::ArrayVec;

/// What an input is that is no log.
#[derive(Clone, Copy, PartialEq, Eq, Debug)]
pub enum NoLog {
    /// A classic pcap capture: `a1b2c3d4`, or `a1b23c4d` for times in nanoseconds, in either order of octets.
    Pcap,
    /// A pcapng capture: `0a0d0d0a`.
    PcapNg,
    /// What gzip compressed: `1f8b`.
    Gzip,
}

/// The first octets of what is judged. No clause speaks of them: they are for a person's message alone.
#[derive(Drop)]
pub struct Head {
    octets: ArrayVec<u8, 4>,
}

impl Head {
    /// Before the first octet.
    pub fn new() -> Head {
        Head {
            octets: ArrayVec::new(),
        }
    }

    /// Keeps the first octets of all parts.
    pub(crate) fn see(&mut self, part: &[u8]) {
        let room = self.octets.remaining_capacity().min(part.len());
        let _fits = self.octets.try_extend_from_slice(&part[..room]);
    }

    /// What begins so, if it is known to be no log.
    pub fn no_log(&self) -> Option<NoLog> {
        match self.octets.as_slice() {
            [0xa1, 0xb2, 0xc3, 0xd4] | [0xd4, 0xc3, 0xb2, 0xa1] => Some(NoLog::Pcap),
            [0xa1, 0xb2, 0x3c, 0x4d] | [0x4d, 0x3c, 0xb2, 0xa1] => Some(NoLog::Pcap),
            [0x0a, 0x0d, 0x0d, 0x0a] => Some(NoLog::PcapNg),
            [0x1f, 0x8b, ..] => Some(NoLog::Gzip),
            _ => None,
        }
    }
}
