//! The ports at which frames are taken.

ghost use Rattle.std.specs.Prelude.{◌≡◌, ℕ, IfOk, MatchOption};
ghost use Rattle.gw_table.specs.Ingress.{IsIngress, all_ports, at_ports, guarded_rules};

use crate::table::{Action, GREATEST_GROUP, GREATEST_OCTET, Rule, Span};
use gw_ledger::MAX_PORTS;
use std::alloc::{AllocError, Global};

/// The ports below a number, except one.
#[derive(Clone, Copy)]
pub struct Ingress {
    pub below: u8,
    pub without: u8,
}

impl Ingress {
    /// All ports of the largest gateway.
    pub fn all() -> Ingress
        ensures { result ≡ all_ports }
    {
        Ingress {
            below: MAX_PORTS as u8,
            without: MAX_PORTS as u8,
        }
    }

    /// The least of these ports, if there is one.
    pub fn first(self) -> Option<u8>
        ensures { MatchOption result ((port : ℕ) → ¬ IsIngress self port) (IsIngress self) }
    {
        let port = if self.without == 0 { 1 } else { 0 };
        if port < self.below { Some(port) } else { None }
    }

    /// Two rules that hold of every extended data frame at the other ports, and these rules behind them.
    pub fn guarded(self, alloc: Global, rules: &[Rule]) -> Result<Vec<Rule>, AllocError>
        ensures { IfOk result (λ list. list.items ≡ guarded_rules self rules.now) }
    {
        let mut list = Vec::new(alloc);
        list.push(at_ports(self.without, self.without))?;
        list.push(at_ports(self.below, u8::MAX))?;
        list.extend_from_slice(rules)?;
        Ok(list)
    }
}

/// A rule that holds of every extended data frame at ports of a range.
fn at_ports(low: u8, high: u8) -> Rule
    ensures { result ≡ at_ports low high }
{
    let address = Span {
        low: 0,
        high: GREATEST_OCTET,
    };
    Rule {
        action: Action::Block,
        pgn: Span {
            low: 0,
            high: GREATEST_GROUP,
        },
        source: address,
        destination: address,
        from: Span {
            low: u32::from(low),
            high: u32::from(high),
        },
    }
}
