//! Shares of checked octets among ports.

ghost use Rattle.std.specs.Prelude.{◌≡◌, ◌≤◌, ◌<◌, ◌+◌, ◌∷◌, drop, length};
ghost use Rattle.std.specs.Iterator.{YieldsFirst, item_count};
ghost use Rattle.gw_trace.specs.Traces.{captured_length, contents};
ghost use Rattle.gw_trace.specs.Wholes.{AreRecords};

use crate::byte_order::Endian;
use crate::record::{RECORD_HEADER, captured_len};
use gw_frame::{Frame, RECORD_OCTETS};
use std::marker::Model;

/// One port's frames of checked octets, in order.
#[derive(Drop)]
pub struct Share<'a> {
    pub(crate) order: Endian,
    /// The records from the one behind the last frame given.
    pub(crate) records: &'a [u8],
    /// How many of these stand before the next frame.
    pub(crate) skip: usize,
    /// How many records of other ports stand between two frames.
    pub(crate) others: usize,
}

impl<'a> Model for Share<'a> {
    ghost use Rattle.std.specs.Prelude.{ℕ, List};

    ghost Value = { List (List ℕ) };

    ghost use Rattle.gw_trace.specs.Kept.{shared_of, IsShare};

    ghost view = { shared_of };

    ghost invariant = { IsShare };
}

impl<'a> Iterator for Share<'a> {
    type Item = Frame;

    ghost next_gives = { YieldsFirst (λ s. s) };

    ghost remaining = { item_count (λ s. s) };

    fn next(&mut self) -> Option<Frame> {
        let records = passed(self.order, self.records, self.skip);
        if records.is_empty() {
            self.records = records;
            return None;
        }
        let (frame, rest) = first(self.order, records);
        self.records = rest;
        self.skip = self.others;
        Some(frame)
    }
}

// The length of the first record, behind its header.
fn first_len(order: Endian, records: &[u8]) -> usize
    requires whole { AreRecords order records.now }
    requires some { 0 < length records.now }
    ensures len { result ≡ captured_length order records.now }
    ensures within { RECORD_HEADER + result ≤ length records.now }
    ensures few { result ≤ 16 }
{
    captured_len(order, records)
}

// The first record's frame, and the records behind it. A record of the longest form has an arm of its own, as in `passed`.
fn first<'a>(order: Endian, records: &'a [u8]) -> (Frame, &'a [u8])
    requires whole { AreRecords order records.now }
    requires some { 0 < length records.now }
    ensures frames { (contents order records.now).frames ≡ result.0 ∷ (contents order result.1.now).frames }
    ensures others { AreRecords order result.1.now }
{
    match first_len(order, records) {
        RECORD_OCTETS => parted(order, records, RECORD_OCTETS),
        len => parted(order, records, len),
    }
}

// The frame of the first record, which has this length, and the records behind it.
fn parted<'a>(order: Endian, records: &'a [u8], len: usize) -> (Frame, &'a [u8])
    requires whole { AreRecords order records.now }
    requires some { 0 < length records.now }
    requires len { len ≡ captured_length order records.now }
    requires within { RECORD_HEADER + len ≤ length records.now }
    ensures frames { (contents order records.now).frames ≡ result.0 ∷ (contents order result.1.now).frames }
    ensures others { AreRecords order result.1.now }
{
    let (record, rest) = records.split_at(RECORD_HEADER + len);
    let frame = Frame::read(&record[RECORD_HEADER..]).unwrap();
    (frame, rest)
}

// Skips so many records, or all of them where there are no more. Records of the longest form have a loop of their own: the
// processor need not wait for a record's length before it looks for the next one.
fn passed<'a>(order: Endian, records: &'a [u8], count: usize) -> &'a [u8]
    requires { AreRecords order records.now }
    ensures frames { (contents order result.now).frames ≡ drop count (contents order records.now).frames }
    ensures whole { AreRecords order result.now }
{
    let mut rest = records;
    'longest: for i in 0..count {
        if rest.is_empty() || first_len(order, rest) != RECORD_OCTETS {
            return passed_any(order, rest, count - i);
        }
        let (_record, others) = rest.split_at(RECORD_HEADER + RECORD_OCTETS);
        rest = others;
    }
    rest
}

// Skips so many records of any length, or all of them where there are no more.
fn passed_any<'a>(order: Endian, records: &'a [u8], count: usize) -> &'a [u8]
    requires { AreRecords order records.now }
    ensures frames { (contents order result.now).frames ≡ drop count (contents order records.now).frames }
    ensures whole { AreRecords order result.now }
{
    let mut rest = records;
    'passed: for _i in 0..count {
        if rest.is_empty() {
            break;
        }
        let (_record, others) = rest.split_at(RECORD_HEADER + first_len(order, rest));
        rest = others;
    }
    rest
}
