//! The limits within which a gateway is made.

ghost use Rattle.std.specs.Prelude.{◌≡◌, ◌≤◌, ◌↔◌, IsOk, IfOk};
ghost use Rattle.gw_ledger.specs.Bounds.{IsWithinBounds, bad_limit_number};

use crate::MAX_PORTS;
use std::error::Error;
use std::fmt;
use std::fmt::{Display, Formatter};
use std::marker::Model;

/// Refusal 70: a limit is outside its range.
#[derive(Clone, Copy, PartialEq, Eq, Debug)]
pub struct BadLimit;

impl BadLimit {
    /// The number of the refusal, 70.
    pub const fn number(self) -> u32
        ensures { result ≡ bad_limit_number }
    {
        70
    }
}

impl Display for BadLimit {
    fn fmt<W: fmt::Write>(&self, f: &mut Formatter<W>) -> fmt::Result {
        f.write_str(
            "a limit is outside its range: 2 to 16 ports, 1 to 1024 copies in a lane, 1 to 65535 versions, \
             and 1 to 4294967295 frames at a port",
        )
    }
}

impl Error for BadLimit {}

/// The limits of a gateway, each within its range.
#[derive(Clone, Copy, PartialEq, Eq, Debug)]
pub struct Limits {
    ports: u32,
    lane: u32,
    versions: u32,
    frames: u32,
}

impl Model for Limits {
    ghost use Rattle.gw_ledger.specs.Bounds.{Bounds, IsWithinBounds};

    ghost Value = { Bounds };

    ghost view = { λ l. record { ports = l.ports; lane = l.lane; versions = l.versions; frames = l.frames } };

    ghost invariant = { λ l.
        IsWithinBounds (record { ports = l.ports; lane = l.lane; versions = l.versions; frames = l.frames }) };

    ghost inverse = { λ b. record { ports = b.ports; lane = b.lane; versions = b.versions; frames = b.frames } };
}

impl Limits {
    /// The limits of these numbers: 2 to 16 ports, 1 to 1024 copies that may wait in a lane, 1 to
    /// 65535 published batches of policies (versions), and at least one frame per port.
    pub fn new(ports: u32, lane: u32, versions: u32, frames: u32) -> Result<Limits, BadLimit>
        ensures made { IfOk result (λ limits.
            limits ≡ record { ports = ports; lane = lane; versions = versions; frames = frames }) }
        ensures within { IsOk result
            ↔ IsWithinBounds (record { ports = ports; lane = lane; versions = versions; frames = frames }) }
    {
        let within = (2..=MAX_PORTS as u32).contains(&ports)
            && (1..=1024).contains(&lane)
            && (1..=65535).contains(&versions)
            && frames >= 1;
        if !within {
            return Err(BadLimit);
        }
        Ok(Limits {
            ports,
            lane,
            versions,
            frames,
        })
    }

    /// The number of ports, 2 to 16.
    pub fn ports(self) -> u32
        ensures ports { result ≡ self.ports }
        ensures within { IsWithinBounds self }
    {
        self.ports
    }

    /// How many copies may wait in a lane, 1 to 1024.
    pub fn lane(self) -> u32
        ensures lane { result ≡ self.lane }
        ensures within { IsWithinBounds self }
    {
        self.lane
    }

    /// How many batches of policies may be published, 1 to 65535.
    pub fn versions(self) -> u32
        ensures versions { result ≡ self.versions }
        ensures within { IsWithinBounds self }
    {
        self.versions
    }

    /// How many frames may be taken at each port, at least 1.
    pub fn frames(self) -> u32
        ensures frames { result ≡ self.frames }
        ensures within { IsWithinBounds self }
    {
        self.frames
    }
}
