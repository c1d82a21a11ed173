//! The frames of a soak, drawn from a pool by a fixed sequence of numbers.

ghost use Rattle.std.specs.Prelude.{◌≡◌, ◌<◌};
ghost use Rattle.std.specs.Iterator.{at_most};

use crate::fault::Fault;
use gw_frame::Frame;
use std::alloc::Global;

/// How many frames a pool has.
const POOL: u32 = 1024;

/// Knuth's linear congruential sequence for MMIX, of which the high bits are used.
#[derive(Clone, Copy)]
struct Sequence(u64);

impl Sequence {
    /// The next number, which is below another.
    fn below(&mut self, most: u32) -> u32
        requires { 0 < most }
        ensures { result < most }
    {
        self.0 = self
            .0
            .wrapping_mul(6364136223846793005)
            .wrapping_add(1442695040888963407);
        ((self.0 >> 32) % u64::from(most)) as u32
    }
}

/// Address claims of eight NAMEs on sixteen addresses, requests to one of 32 addresses, and broadcasts.
pub fn pool(alloc: Global) -> Result<Vec<Frame>, Fault> {
    let mut numbers = Sequence(1);
    let mut pool = Vec::new(alloc);
    for _ in 0..POOL {
        pool.push(frame(&mut numbers)?)?;
    }
    Ok(pool)
}

fn frame(numbers: &mut Sequence) -> Result<Frame, Fault> {
    let source = 0x80 + numbers.below(16);
    let (word, payload) = match numbers.below(16) {
        0 => (0x98EE_FF00 + source, numbers.below(8)),
        1..=5 => (
            0x98EA_8000 + 256 * numbers.below(32) + source,
            numbers.below(0x0100_0000),
        ),
        _ => (
            0x98F0_0000 + 256 * numbers.below(8) + source,
            numbers.below(u32::MAX),
        ),
    };
    let [a, b, c, d] = word.to_be_bytes();
    let [p, q, r, s, t, u, v, w] = u64::from(payload).to_le_bytes();
    Frame::read(&[a, b, c, d, 8, 0, 0, 0, p, q, r, s, t, u, v, w]).map_err(|_| Fault::Unprepared)
}

/// As many frames of a pool as are left, drawn with what a port's number begins.
#[derive(Clone, Copy, Drop)]
pub struct Drawn<'a> {
    pool: &'a [Frame],
    numbers: Sequence,
    left: usize,
}

impl<'a> Drawn<'a> {
    pub fn new(pool: &'a [Frame], port: u8, count: usize) -> Drawn<'a>
        ensures { result.left ≡ count }
    {
        Drawn {
            pool,
            numbers: Sequence(u64::from(port)),
            left: count,
        }
    }
}

impl Iterator for Drawn<'_> {
    type Item = Frame;

    ghost remaining = { λ s. at_most s.left };

    fn next(&mut self) -> Option<Frame> {
        if self.left == 0 {
            return None;
        }
        self.left -= 1;
        let place = self.numbers.below(POOL) as usize;
        self.pool.get(place).copied()
    }
}
