//! The whole records at the front of octets.

ghost use Rattle.std.specs.Prelude.{◌≡◌, ◌≤◌, take, drop};
ghost use Rattle.gw_trace.specs.Traces.{contents};
ghost use Rattle.gw_trace.specs.Scans.{IsFront, found};

use crate::byte_order::Endian;
use crate::checked::Checked;
use crate::record::{Beginning, RECORD_HEADER, begins, begins_longest};
use gw_frame::{FrameRefusal, RECORD_OCTETS};

/// The whole records at the front of octets, what stands behind them, and what is wrong with the record there.
#[derive(Drop)]
pub struct Scan<'a> {
    pub whole: Checked<'a>,
    pub rest: &'a [u8],
    pub fault: Option<FrameRefusal>,
}

/// Whole records in front of octets: where the last of them ends, and how many they are.
#[derive(Clone, Copy)]
pub struct Front {
    pub end: usize,
    pub count: usize,
}

impl<'a> Scan<'a> {
    // A scan that ends behind these records.
    fn ended(order: Endian, octets: &'a [u8], front: Front, fault: Option<FrameRefusal>) -> Scan<'a>
        requires { IsFront order octets.now front }
        ensures whole { result.whole ≡ (contents order (take front.end octets.now)).frames }
        ensures rest { result.rest.now ≡ drop front.end octets.now }
        ensures fault { result.fault ≡ fault }
    {
        let (records, rest) = octets.split_at(front.end);
        Scan {
            whole: Checked {
                order,
                records,
                len: front.count,
            },
            rest,
            fault,
        }
    }
}

/// Scans records as far as they are whole and without fault.
pub fn over<'a>(order: Endian, octets: &'a [u8]) -> Scan<'a>
    ensures { found result ≡ contents order octets.now }
{
    let mut front = Front { end: 0, count: 0 };
    'records: loop {
        front = past_longest(order, octets, front);
        match begins(order, &octets[front.end..]) {
            Beginning::Whole(captured) => {
                front = Front {
                    end: front.end + RECORD_HEADER + captured,
                    count: front.count + 1,
                };
            }
            Beginning::Unfinished => return Scan::ended(order, octets, front, None),
            Beginning::Bad(why) => return Scan::ended(order, octets, front, Some(why)),
        }
    }
}

// Goes past records of the longest form. They have a loop of their own: the processor need not wait for a record's length
// before it looks for the next one.
fn past_longest(order: Endian, octets: &[u8], front: Front) -> Front
    requires { IsFront order octets.now front }
    ensures front { IsFront order octets.now result }
    ensures further { front.end ≤ result.end }
{
    let mut front = front;
    'longest: while begins_longest(order, &octets[front.end..]) {
        front = Front {
            end: front.end + RECORD_HEADER + RECORD_OCTETS,
            count: front.count + 1,
        };
    }
    front
}
