//! Boxes in which each point is an extended data frame and its ingress port.

ghost use Rattle.std.specs.Prelude.{◌≡◌, ℕ, ◌+◌, ◌<◌, true};
ghost use Rattle.gw_frame.specs.Record.{IsRecord, word_of};
ghost use Rattle.gw_boxes.specs.Boxes.{holds};
ghost use Rattle.gw_table.specs.Table.{IsRule};
ghost use Rattle.gw_table.specs.Universes.{formats_in, range_of, whole, block_of, universe_at, word_at, IsFrameAt};

use crate::table::{GREATEST_OCTET, PDU2, Rule, Span};
use byteorder::{BigEndian, ByteOrder};
use gw_boxes::{Block, Point, Range};
use gw_frame::Frame;
use gw_ident::EXTENDED_FLAG;
use gw_ledger::MAX_PORTS;

/// So many universes there are: of each kind of groups one for each of the four pages (SAE J1939-21).
pub const UNIVERSES: u32 = 8;

const PAGES: u32 = 4;

/// So many numbers has an octet.
const OCTETS: u32 = GREATEST_OCTET + 1;

/// The extended data frames of a page whose groups are of one kind, and the ports. The first number of a point is the PDU
/// format with the page above it where the groups are PDU1, and the parameter group where they are PDU2.
#[derive(Clone, Copy)]
pub struct Universe {
    pub pdu1: bool,
    pub page: u32,
}

impl Universe {
    pub fn at(number: u32) -> Universe
        requires { number < 8 }
        ensures { result ≡ universe_at number }
    {
        Universe {
            pdu1: number < PAGES,
            page: number % PAGES,
        }
    }

    /// The box of its points. A PDU1 group goes to any destination, and a PDU2 group to 255 alone.
    pub fn block(self) -> Block
        requires { self.page < 4 }
        ensures { result ≡ whole self }
    {
        let (group, destination) = if self.pdu1 {
            let low = self.page * OCTETS;
            (
                Range {
                    low,
                    end: low + PDU2,
                },
                0,
            )
        } else {
            let low = (self.page * OCTETS + PDU2) * OCTETS;
            let end = (self.page + 1) * OCTETS * OCTETS;
            (Range { low, end }, GREATEST_OCTET)
        };
        Block {
            group,
            source: Range {
                low: 0,
                end: OCTETS,
            },
            destination: Range {
                low: destination,
                end: OCTETS,
            },
            port: Range {
                low: 0,
                end: MAX_PORTS as u32,
            },
        }
    }

    /// The box of the points whose frames a rule holds of.
    pub fn block_of(self, rule: &Rule) -> Block
        requires { IsRule rule.now }
        ensures { result ≡ block_of self.pdu1 rule.now }
    {
        let groups = if self.pdu1 {
            formats_in(rule.pgn)
        } else {
            rule.pgn
        };
        Block {
            group: range_of(groups),
            source: range_of(rule.source),
            destination: range_of(rule.destination),
            port: range_of(rule.from),
        }
    }

    /// The frame of a point: without payload, and of priority 0.
    pub fn frame_at(self, point: Point) -> Frame
        requires page { self.page < 4 }
        requires inside { holds point (whole self) ≡ true }
        ensures { IsFrameAt self.pdu1 point result }
    {
        empty_frame(EXTENDED_FLAG + self.identifier_at(point))
    }

    fn identifier_at(self, point: Point) -> u32
        requires page { self.page < 4 }
        requires inside { holds point (whole self) ≡ true }
        ensures { 2147483648 + result ≡ word_at self.pdu1 point }
    {
        if self.pdu1 {
            (point.group * OCTETS + point.destination) * OCTETS + point.source
        } else {
            point.group * OCTETS + point.source
        }
    }
}

/// The formats whose PDU1 group lies in a range of groups: the last octet of such a group is 0.
fn formats_in(groups: Span) -> Span
    requires { groups.low < 262144 }
    ensures { result ≡ formats_in groups }
{
    Span {
        low: groups.low.div_ceil(OCTETS),
        high: groups.high / OCTETS,
    }
}

fn range_of(span: Span) -> Range
    requires { span.high < 262144 }
    ensures { result ≡ range_of span }
{
    Range {
        low: span.low,
        end: span.high + 1,
    }
}

/// The frame with an identifier word and no payload.
pub fn empty_frame(word: u32) -> Frame
    ensures word { word_of result ≡ word }
    ensures record { IsRecord result }
{
    let mut octets = [0; 8];
    BigEndian::write_u32(&mut octets, word);
    match Frame::read(&octets) {
        Ok(frame) => frame,
        Err(_) => unreachable!(),
    }
}
