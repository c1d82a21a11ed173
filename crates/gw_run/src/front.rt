//! The first octets of an input that is not kept.

use arrayvec::ArrayVec;

/// The first octets of an input: a line of a log has fewer. No clause speaks of them: they are for a person's message alone.
#[derive(Drop)]
pub(crate) struct Front {
    octets: ArrayVec<u8, 256>,
}

impl Front {
    /// Before the first octet.
    pub fn new() -> Front {
        Front {
            octets: ArrayVec::new(),
        }
    }

    /// Keeps the first octets of all pieces.
    pub fn see(&mut self, piece: &[u8]) {
        let room = self.octets.remaining_capacity().min(piece.len());
        let _fits = self.octets.try_extend_from_slice(&piece[..room]);
    }

    /// Those that were seen.
    pub fn octets(&self) -> &[u8] {
        self.octets.as_slice()
    }
}
