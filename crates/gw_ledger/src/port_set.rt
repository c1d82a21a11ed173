//! Sets of ports.

ghost use Rattle.std.specs.Prelude.{◌≡◌, ◌<◌, ◌≤◌, ◌==◌, ◌&&◌, ◌||◌, ◌↔◌, not, true, false, ℕ, [], ◌∷◌, ◌++◌, length, All};
ghost use Rattle.std.specs.Prelude.{IsTrue, MatchOption};
ghost use Rattle.gw_ledger.specs.Ports.{has_port, with_port, ports_below, IsPortSet};

use std::marker::Model;

/// The most ports of a gateway (its limits in docs/FORMATS.md).
pub const MAX_PORTS: usize = 16;

/// A set of ports below 16.
#[derive(Clone, Copy, PartialEq, Eq, Debug)]
pub struct PortSet {
    // the port p is in the set where bit p is set
    word: u16,
}

impl Model for PortSet {
    ghost use Rattle.std.specs.Prelude.{ℕ, List};

    ghost Value = { List ℕ };

    ghost use Rattle.gw_ledger.specs.PortWord.{FitsWord, ports_of, inside_of, inside_of-ports_of};

    ghost view = { ports_of };

    ghost invariant = { FitsWord };

    ghost inverse = { inside_of };

    ghost inverse_ok = { inside_of-ports_of };
}

impl PortSet {
    /// The empty set.
    pub const fn new() -> PortSet
        ensures { result ≡ [] }
    {
        PortSet { word: 0 }
    }

    /// The ports below a number.
    pub fn below(ports: u8) -> PortSet
        requires { ports ≤ 16 }
        ensures { result ≡ ports_below ports (λ _. true) }
    {
        PortSet {
            word: ((1_u32 << ports) - 1) as u16,
        }
    }

    /// Adds a port, which may be there already.
    pub fn add(&mut self, port: u8)
        requires { port < 16 }
        ensures ports { self.new ≡ with_port port self.old }
        ensures members { (other : ℕ) → has_port other self.new ≡ ((port == other) || has_port other self.old) }
        ensures greatest { All (λ other. other < port) self.old → self.new ≡ self.old ++ port ∷ [] }
    {
        self.word |= 1 << port;
    }

    /// Whether a port is in the set: no port above 15 is.
    pub fn has(self, port: u8) -> bool
        ensures { result ≡ has_port port self }
    {
        usize::from(port) < MAX_PORTS && (self.word >> port) & 1 == 1
    }

    /// The set without a port.
    pub fn without(self, port: u8) -> PortSet
        ensures { result ≡ ports_below 16 (λ other. not (other == port) && has_port other self) }
    {
        if usize::from(port) < MAX_PORTS {
            PortSet {
                word: self.word & !(1 << port),
            }
        } else {
            self
        }
    }

    /// The ports that are in both sets.
    pub fn intersection(self, other: PortSet) -> PortSet
        ensures { result ≡ ports_below 16 (λ port. has_port port self && has_port port other) }
    {
        PortSet {
            word: self.word & other.word,
        }
    }

    /// The ports that are in one of two sets, or in both.
    pub fn union(self, other: PortSet) -> PortSet
        ensures { result ≡ ports_below 16 (λ port. has_port port self || has_port port other) }
    {
        PortSet {
            word: self.word | other.word,
        }
    }

    /// The ports of this set that are not in the other.
    pub fn difference(self, other: PortSet) -> PortSet
        ensures { result ≡ ports_below 16 (λ port. has_port port self && not (has_port port other)) }
    {
        PortSet {
            word: self.word & !other.word,
        }
    }

    /// The least port.
    pub fn first(self) -> Option<u8>
        ensures least { MatchOption result (self ≡ []) (λ port. (port < 16) × (has_port port self ≡ true)
            × ((other : ℕ) → other < port → has_port other self ≡ false)) }
        ensures set { IsPortSet self }
    {
        if self.word == 0 {
            return None;
        }
        Some(self.word.trailing_zeros() as u8)
    }

    /// The ports, from the least up.
    pub fn iter(self) -> Ports
        ensures { result ≡ self }
    {
        Ports { left: self }
    }

    /// Whether no port is in the set.
    pub fn is_empty(self) -> bool
        ensures { IsTrue result ↔ (self ≡ []) }
    {
        self.word == 0
    }

    /// How many ports are in the set, 0 to 16.
    pub fn len(self) -> u32
        ensures len { result ≡ length self }
        ensures most { result ≤ 16 }
        ensures set { IsPortSet self }
    {
        self.word.count_ones()
    }
}

/// The ports of a set, from the least up.
#[derive(Drop)]
pub struct Ports {
    left: PortSet,
}

impl Model for Ports {
    ghost use Rattle.std.specs.Prelude.{ℕ, List};

    ghost Value = { List ℕ };

    ghost view = { λ ports. ports.left };
}

impl Iterator for Ports {
    type Item = u8;

    ghost use Rattle.std.specs.Iterator.{YieldsFirst, item_count};

    ghost next_gives = { YieldsFirst (λ ports. ports) };

    ghost remaining = { item_count (λ ports. ports) };

    fn next(&mut self) -> Option<u8> {
        let port = self.left.first()?;
        self.left = self.left.without(port);
        Some(port)
    }
}
