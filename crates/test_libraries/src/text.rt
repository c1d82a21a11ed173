//! Assembler texts.

use crate::octets::{RUNS, Runs};
use gw_text::{AsmRefusal, assemble};
use std::str;

#[test]
fn returns_on_any_text(rt: HostRuntime) {
    let mut runs = Runs::new();
    for _ in 0..RUNS {
        if let Ok(text) = str::from_utf8(runs.next()) {
            let _ = assemble(rt.alloc(), text);
        }
    }
    assert!(rt; runs.left() == 0);
}

#[test]
fn want_of_memory(rt: HostRuntime) {
    assert!(rt; AsmRefusal::OutOfMemory.number() == 49);
    assert!(rt; AsmRefusal::OutOfMemory.line().is_none());
}
