//! Octets of a whole trace, checked once.

ghost use Rattle.std.specs.Prelude.{◌≡◌, ◌≤◌, ◌<◌, ◌+◌, ◌*◌, ◌^◌, ◌++◌, length, vec_len, vec_capacity};
ghost use Rattle.std.specs.Prelude.{None, Ok, Err, IfOk, IfErr};
ghost use Rattle.gw_trace.specs.Traces.{whole_trace};
ghost use Rattle.gw_trace.specs.Shares.{share_of};

use crate::byte_order::{Endian, HEADER};
use crate::refusal::TraceRefusal;
use crate::share::Share;
use crate::{byte_order, scan};
use gw_frame::Frame;
use std::marker::Model;

/// The frames of octets that were checked to be whole records. It borrows the octets, and copies none.
#[derive(Drop)]
pub struct Checked<'a> {
    pub(crate) order: Endian,
    pub(crate) records: &'a [u8],
    pub(crate) len: usize,
}

impl<'a> Model for Checked<'a> {
    ghost use Rattle.std.specs.Prelude.{ℕ, List};

    ghost Value = { List (List ℕ) };

    ghost use Rattle.gw_trace.specs.Kept.{frames_of, IsCounted};

    ghost view = { frames_of };

    ghost invariant = { IsCounted };
}

impl<'a> Checked<'a> {
    /// Checks the octets of a whole trace: its header and each of its records. The refusals are 90 to 93 and 95.
    pub fn new(octets: &'a [u8]) -> Result<Checked<'a>, TraceRefusal>
        ensures frames { IfOk result (λ checked. whole_trace octets.now ≡ Ok checked) }
        ensures refused { IfErr result (λ e. whole_trace octets.now ≡ Err e) }
    {
        if octets.len() < HEADER {
            return Err(TraceRefusal::Cut);
        }
        let (header, records) = octets.split_at(HEADER);
        let order = match byte_order::header(header) {
            Ok(order) => order,
            Err(why) => return Err(why),
        };
        let scan = scan::over(order, records);
        match scan.fault {
            Some(why) => Err(TraceRefusal::BadRecord {
                index: scan.whole.len(),
                why,
            }),
            None => {
                if scan.rest.is_empty() {
                    Ok(scan.whole)
                } else {
                    Err(TraceRefusal::Cut)
                }
            }
        }
    }

    /// How many frames there are. Each has at least 24 octets.
    pub fn len(&self) -> usize
        ensures len { result ≡ length self.now }
        ensures few { 24 * result < 2 ^ 64 }
    {
        self.len
    }

    /// Returns the port's share among so many ports, in order: each frame whose number modulo `ports` is `port`. Numbers count
    /// from 0.
    pub fn share(&self, port: usize, ports: usize) -> Share<'a>
        requires { port < ports }
        ensures { result ≡ share_of port ports self.now }
    {
        Share {
            order: self.order,
            records: self.records,
            skip: port,
            others: ports - 1,
        }
    }

    // Appends the frames to a vector that has room for them.
    pub(crate) fn append_to(&self, frames: &mut Vec<Frame>)
        requires { vec_len frames.old + length self.now ≤ vec_capacity frames.old }
        ensures { frames.new.items ≡ frames.old.items ++ self.now }
    {
        'all: for frame in self.all() {
            frames.push_reserved(frame);
        }
    }

    // All frames.
    fn all(&self) -> Share<'a>
        ensures { result ≡ self.now }
    {
        self.share(0, 1)
    }
}
