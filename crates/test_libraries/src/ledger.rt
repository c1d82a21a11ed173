//! Sets of ports and counts.

use gw_ledger::{InLedger, OutLedger, PortSet, balance};

#[test]
fn ports_of_a_set(rt: HostRuntime) {
    let mut set = PortSet::new();
    assert!(rt; set.len() == 0);
    for port in [15, 3, 0, 3] {
        set.add(port);
    }
    assert!(rt; set.len() == 3);
    for port in 0..=255 {
        let expected = port == 0 || port == 3 || port == 15;
        assert!(rt; set.has(port) == expected, "{port}");
    }
}

#[test]
fn a_count_at_its_end(rt: HostRuntime) {
    let mut ledger = OutLedger {
        sent: [18446744073709551614; 16],
    };
    for _ in 0..3 {
        ledger.add_sent(15);
    }
    assert!(rt; ledger.sent[15] == 18446744073709551615);
    assert!(rt; ledger.sent[14] == 18446744073709551614);
}

#[test]
fn a_copy_that_is_left(rt: HostRuntime) {
    let ins = [InLedger {
        allowed: 1,
        placed: 1,
        ..InLedger::new()
    }];
    let outs = [OutLedger::new()];
    assert!(rt; !balance(&ins, &outs, 0));
    assert!(rt; balance(&ins, &outs, 1));
}
