//! Listings.

use crate::made::raw;
use crate::octets::{RUNS, Runs};
use gw_insn::{ListRefusal, Raw, read_listing};
use std::alloc::{AllocError, Global};
use std::process::Abort;
use std::test::Fail;

/// `ldh [12]`, `jeq #0x806, l2, l3`, `ret #0xffffffff`, `ret #0x0`.
const LISTING: &str = "4,40 0 0 12,21 0 1 2054,6 0 0 4294967295,6 0 0 0,";

const RETURN_ONE: Raw = Raw {
    code: 6,
    jt: 0,
    jf: 0,
    k: 1,
};

/// A listing must be of just this code.
fn assert_listed(rt: &impl Abort, alloc: Global, text: &str, want: &[Raw]) {
    let code = read_listing(alloc, text.as_bytes()).expect(rt, "code");
    assert!(rt; code.as_slice() == want, "at {text:?}");
}

#[test]
fn reads_the_spellings_of_a_listing(rt: HostRuntime) {
    for text in [
        "1,6 0 0 1",
        "1,6 0 0 1,",
        "1,6 0 0 1\n",
        "1,6 0 0 1, \t\r\n",
        "0000000001,0000000006 00 000 01,",
    ] {
        assert_listed(&rt, rt.alloc(), text, &[RETURN_ONE]);
    }
    for text in ["0,", "00, \n"] {
        assert_listed(&rt, rt.alloc(), text, &[]);
    }
    let want = [
        raw((40, 0, 0, 12)),
        raw((21, 0, 1, 2054)),
        raw((6, 0, 0, 4294967295)),
        raw((6, 0, 0, 0)),
    ];
    assert_listed(&rt, rt.alloc(), LISTING, &want);
}

#[test]
fn reads_the_longest_listing(rt: HostRuntime) -> Result<(), Fail> {
    let mut text = Vec::from_slice(rt.alloc(), b"65535,")?;
    for _ in 0..65535 {
        text.extend_from_slice(b"6 0 0 1,")?;
    }
    let code = read_listing(rt.alloc(), &text)?;
    assert!(rt; code.len() == 65535);
    assert!(rt; code.iter().all(|raw| *raw == RETURN_ONE));
    Ok(())
}

#[test]
fn returns_on_any_octets(rt: HostRuntime) {
    let mut runs = Runs::new();
    for _ in 0..RUNS {
        let _ = read_listing(rt.alloc(), runs.next());
    }
    assert!(rt; runs.left() == 0);
}

#[test]
fn want_of_memory(rt: HostRuntime) -> Result<(), AllocError> {
    let text = format!(in rt.alloc(); "{}", ListRefusal::OutOfMemory)?;
    assert!(rt; text.as_str() == "memory was refused for the listing's instructions");
    Ok(())
}
