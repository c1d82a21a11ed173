//! The addresses that are held at each interface of a log.

ghost use Rattle.std.specs.Prelude.{◌≡◌, ◌++◌, ◌∷◌, [], ℕ, List, IfOk, OnOk};
ghost use Rattle.std.specs.List.{position};
ghost use Rattle.std.specs.Str.{bytes_eq};
ghost use Rattle.gw_claims.specs.Holders.{HoldsAfter};
ghost use Rattle.gw_commands.specs.LogClaims.{AreSegments, interface_front, line_of, segment_lines, segments_lines};
ghost use Rattle.gw_commands.specs.ClaimLines.{holder_line};

use crate::claims_command::push_holder;
use gw_claims::Claims;
use gw_frame::Frame;
use gw_ident::Name;
use gw_judge::Listener;
use gw_log::LogLine;
use std::alloc::{AllocError, Global};
use std::marker::Model;

/// The claims that were heard at one interface.
#[derive(Drop)]
pub(crate) struct Segment {
    interface: Vec<u8>,
    claims: Claims,
}

impl Model for Segment {
    ghost use Rattle.gw_commands.specs.LogClaims as log;

    ghost Value = { log.Segment };

    ghost view = { λ s. record { interface = s.interface.items; table = s.claims } };
}

impl Segment {
    /// The segment of an interface, at which a first frame was heard.
    fn first(alloc: Global, interface: &[u8], frame: &Frame) -> Result<Segment, AllocError>
        ensures interface { IfOk result (λ segment. segment.interface ≡ interface.now) }
        ensures heard { IfOk result (λ segment. HoldsAfter segment.table (frame.now ∷ [])) }
    {
        let mut name = Vec::new(alloc);
        name.extend_from_slice(interface)?;
        let mut claims = Claims::new();
        claims.hear(frame);
        Ok(Segment {
            interface: name,
            claims,
        })
    }

    /// Hears one more frame of the interface.
    fn hear(&mut self, frame: &Frame)
        ensures interface { self.new.interface ≡ self.old.interface }
        ensures heard { (records : List (List ℕ)) → HoldsAfter self.old.table records
            → HoldsAfter self.new.table (frame.now ∷ records) }
    {
        self.claims.hear(frame);
    }

    /// Appends the lines of the addresses that are held, in ascending order, each behind the interface.
    fn push_lines(&self, alloc: Global, text: &mut Vec<u8>) -> Result<(), AllocError>
        ensures { OnOk result (text.new.items ≡ text.old.items ++ segment_lines self.now) }
    {
        for address in 0..254u8 {
            self.push_line(alloc, text, address)?;
        }
        Ok(())
    }

    /// Appends the line of an address, where it is held.
    fn push_line(&self, alloc: Global, text: &mut Vec<u8>, address: u8) -> Result<(), AllocError>
        ensures { OnOk result (text.new.items ≡ text.old.items ++ line_of self.now address) }
    {
        match self.claims.holder(address) {
            Some(name) => push_behind(alloc, text, self.interface.as_slice(), address, name),
            None => Ok(()),
        }
    }
}

/// Appends the line of a holder behind its interface.
fn push_behind(
    alloc: Global,
    text: &mut Vec<u8>,
    interface: &[u8],
    address: u8,
    name: Name,
) -> Result<(), AllocError>
    ensures { OnOk result (text.new.items ≡ text.old.items ++ interface_front interface.now ++ holder_line address name) }
{
    if !interface.is_empty() {
        text.extend_from_slice(interface)?;
        text.push(b' ')?;
    }
    let mut line = String::new(alloc);
    push_holder(&mut line, address, name)?;
    text.extend_from_slice(line.as_bytes())
}

/// The segments of a log, in the order of their first frames.
#[derive(Drop)]
pub(crate) struct Segments {
    segments: Vec<Segment>,
}

impl Model for Segments {
    ghost use Rattle.std.specs.Prelude.{List};
    ghost use Rattle.gw_commands.specs.LogClaims as log;

    ghost Value = { List log.Segment };

    ghost view = { λ s. s.segments.items };
}

impl Listener for Segments {
    ghost has_heard = { λ segments entries. AreSegments entries segments };

    fn hear(&mut self, alloc: Global, said: &LogLine) -> Result<(), AllocError> {
        let interface = said.interface();
        match self.place(interface) {
            Some(place) => {
                self.segments[place].hear(said.frame());
                Ok(())
            }
            None => self.add(Segment::first(alloc, interface, said.frame())?),
        }
    }
}

impl Segments {
    /// Nothing was heard.
    pub(crate) fn new(alloc: Global) -> Segments
        ensures { result ≡ [] }
    {
        Segments {
            segments: Vec::new(alloc),
        }
    }

    /// The place of an interface, where a frame was heard there.
    fn place(&self, interface: &[u8]) -> Option<usize>
        ensures { result ≡ position (λ segment. bytes_eq interface.now segment.interface) self.now }
    {
        self.segments
            .iter()
            .position(|segment| interface == segment.interface.as_slice())
    }

    /// Adds the segment of an interface at which no frame was heard before.
    fn add(&mut self, segment: Segment) -> Result<(), AllocError>
        ensures { OnOk result (self.new ≡ self.old ++ segment ∷ []) }
    {
        match self.segments.push(segment) {
            Ok(()) => Ok(()),
            Err(_) => Err(AllocError),
        }
    }

    /// The lines of the addresses that are held at each interface.
    pub(crate) fn lines(&self, alloc: Global) -> Result<Vec<u8>, AllocError>
        ensures { IfOk result (λ text. text.items ≡ segments_lines self.now) }
    {
        lines_of(alloc, self.segments.as_slice())
    }
}

/// The lines of segments, in order.
fn lines_of(alloc: Global, segments: &[Segment]) -> Result<Vec<u8>, AllocError>
    ensures { IfOk result (λ text. text.items ≡ segments_lines segments.now) }
{
    let mut text = Vec::new(alloc);
    for segment in segments {
        segment.push_lines(alloc, &mut text)?;
    }
    Ok(text)
}
