//! Whether the ledgers of a gateway balance.

ghost use Rattle.std.specs.Prelude.{◌≡◌, ◌≤◌, ◌<◌, ◌*◌, ◌^◌, ◌↔◌, IsTrue, length, sum, sum_by};
ghost use Rattle.gw_ledger.specs.Ledgers.{AreBalanced};

use crate::{InLedger, OutLedger};

/// Whether each allowed copy was placed or lost, and all copies placed are those that were sent
/// together with those that are left.
pub fn balance(ins: &[InLedger], outs: &[OutLedger], left: u64) -> bool
    requires ins { length ins.now ≤ 16 }
    requires outs { length outs.now ≤ 16 }
    ensures { IsTrue result ↔ AreBalanced ins.now outs.now left }
{
    let even = ins.iter().all(|ledger| {
        u128::from(ledger.allowed) == u128::from(ledger.placed) + u128::from(ledger.lost)
    });
    even && placed_in(ins) == sent_in(outs) + u128::from(left)
}

/// The copies that were placed: a sum of at most 16 counts of 64 bits, which fits 128 bits.
fn placed_in(ins: &[InLedger]) -> u128
    requires { length ins.now ≤ 16 }
    ensures placed { result ≡ sum_by (λ ledger. ledger.placed) ins.now }
    ensures bound { result ≤ 16 * 2 ^ 64 }
{
    let mut placed = 0;
    for ledger in ins {
        placed += u128::from(ledger.placed);
    }
    placed
}

/// The copies that were sent: a sum of at most 256 counts of 64 bits.
fn sent_in(outs: &[OutLedger]) -> u128
    requires { length outs.now ≤ 16 }
    ensures sent { result ≡ sum_by (λ ledger. sum ledger.sent) outs.now }
    ensures bound { result ≤ 256 * 2 ^ 64 }
{
    let mut sent = 0;
    for ledger in outs {
        sent += sent_by(ledger);
    }
    sent
}

/// The copies that were sent to one port.
fn sent_by(ledger: &OutLedger) -> u128
    ensures sent { result ≡ sum ledger.now.sent }
    ensures bound { result ≤ 16 * 2 ^ 64 }
{
    let mut sent = 0;
    for count in &ledger.sent {
        sent += u128::from(*count);
    }
    sent
}
