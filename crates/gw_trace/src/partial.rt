//! The front of a header or a record, until the rest comes.

ghost use Rattle.std.specs.Prelude.{◌≡◌, ◌≤◌, ◌++◌, [], length, take};

use crate::record::RECORD_HEADER;
use gw_frame::RECORD_OCTETS;
use std::marker::Model;

/// The most octets of a header or a record that is not whole yet: the longest record behind its header.
pub const MAX_PARTIAL: usize = RECORD_HEADER + RECORD_OCTETS;

/// The octets of a header or a record that is not whole yet, 32 at most.
#[derive(Drop)]
pub struct Partial {
    octets: [u8; MAX_PARTIAL],
    len: usize,
}

impl Model for Partial {
    ghost use Rattle.std.specs.Prelude.{◌≤◌, ℕ, List, take};

    ghost Value = { List ℕ };

    ghost view = { λ h. take h.len h.octets };

    ghost invariant = { λ h. h.len ≤ 32 };
}

impl Partial {
    /// Holds no octets.
    pub fn new() -> Self
        ensures { result ≡ [] }
    {
        Partial {
            octets: [0; MAX_PARTIAL],
            len: 0,
        }
    }

    /// Holds these octets.
    pub fn of(octets: &[u8]) -> Self
        requires { length octets.now ≤ MAX_PARTIAL }
        ensures { result ≡ octets.now }
    {
        Partial::new().joined(octets, MAX_PARTIAL)
    }

    /// The octets.
    pub fn octets(&self) -> &[u8]
        ensures octets { result.now ≡ self.now }
        ensures len { length result.now ≤ 32 }
    {
        &self.octets[..self.len]
    }

    /// Returns the octets with a piece behind them, cut to `most` octets.
    pub fn joined(&self, piece: &[u8], most: usize) -> Partial
        requires within { length self.now ≤ most }
        requires room { most ≤ MAX_PARTIAL }
        ensures { result ≡ take most (self.now ++ piece.now) }
    {
        let mut octets = self.octets;
        let more = piece.len().min(most - self.len);
        let len = self.len + more;
        octets[self.len..len].copy_from_slice(&piece[..more]);
        Partial { octets, len }
    }
}
