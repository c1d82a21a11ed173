//! The fixed sequence of octets that broken input is made of.

use gw_insn::Raw;

/// The high octets of the states of a linear congruential generator that begins with 1.
#[derive(Drop)]
pub struct Octets {
    state: u64,
}

impl Octets {
    pub fn new() -> Self {
        Octets { state: 1 }
    }

    pub fn next(&mut self) -> u8 {
        self.state = self
            .state
            .wrapping_mul(6364136223846793005)
            .wrapping_add(1442695040888963407);
        (self.state >> 56) as u8
    }

    /// Eight octets as an instruction: code, jt, jf and k, big-endian.
    pub fn next_raw(&mut self) -> Raw {
        Raw {
            code: u16::from_be_bytes([self.next(), self.next()]),
            jt: self.next(),
            jf: self.next(),
            k: u32::from_be_bytes([self.next(), self.next(), self.next(), self.next()]),
        }
    }
}

/// How many runs there are.
pub const RUNS: usize = 2030;

/// The first 65536 octets in runs of 1, 2, .. 64 octets and so on again; the last run is what is left.
#[derive(Drop)]
pub struct Runs {
    octets: Octets,
    run: [u8; 64],
    last: usize,
    left: usize,
}

impl Runs {
    pub fn new() -> Self {
        Runs {
            octets: Octets::new(),
            run: [0; 64],
            last: 0,
            left: 65536,
        }
    }

    pub fn next(&mut self) -> &[u8] {
        self.last = self.last % 64 + 1;
        let size = self.last.min(self.left);
        self.left -= size;
        let mut run = [0; 64];
        for octet in run[..size].iter_mut() {
            *octet = self.octets.next();
        }
        self.run = run;
        &self.run[..size]
    }

    /// How many octets are left.
    pub fn left(&self) -> usize {
        self.left
    }
}
