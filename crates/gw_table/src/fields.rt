//! A frame with the fields that tables look up.

ghost use Rattle.std.specs.Prelude.{◌≡◌};
ghost use Rattle.gw_ident.specs.Identifier.{parameter_group, source_address, destination};
ghost use Rattle.gw_frame.specs.Record.{word_of};

use gw_frame::Frame;
use std::marker::Model;

/// A frame, and the fields of its identifier that tables look up: found once, where the tables of many ports judge it.
#[derive(Drop)]
pub struct FrameFields {
    frame: Frame,
    pgn: u32,
    source: u8,
    // Extended data frames alone have one.
    destination: Option<u8>,
}

impl Model for FrameFields {
    ghost use Rattle.std.specs.Prelude.{ℕ, List};
    ghost use Rattle.gw_table.specs.FrameFields.{HasFields};

    ghost Value = { List ℕ };

    ghost view = { λ fields. fields.frame };

    ghost invariant = { HasFields };
}

impl FrameFields {
    /// A frame with its fields.
    pub fn new(frame: &Frame) -> FrameFields
        ensures { result ≡ frame.now }
    {
        let id = frame.id();
        FrameFields {
            frame: *frame,
            pgn: id.pgn(),
            source: id.source(),
            destination: id.destination(),
        }
    }

    /// The frame.
    pub fn frame(&self) -> &Frame
        ensures { result.now ≡ self.now }
    {
        &self.frame
    }

    pub(crate) fn pgn(&self) -> u32
        ensures { result ≡ parameter_group (word_of self.now) }
    {
        self.pgn
    }

    pub(crate) fn source(&self) -> u8
        ensures { result ≡ source_address (word_of self.now) }
    {
        self.source
    }

    // `None` unless it is an extended data frame.
    pub(crate) fn destination(&self) -> Option<u8>
        ensures { result ≡ destination (word_of self.now) }
    {
        self.destination
    }
}
