//! Tables.

use crate::octets::{RUNS, Runs};
use gw_table::{Action, Table, TableRefusal};
use std::alloc::AllocError;
use std::str;
use std::test::Fail;

#[test]
fn parts_of_a_table(rt: HostRuntime) -> Result<(), Fail> {
    let table = Table::read(rt.alloc(), "default = \"pass\"")?;
    assert!(rt; table.default() == Action::Pass);
    assert!(rt; table.other() == Action::Block);
    assert!(rt; table.rules().is_empty());
    Ok(())
}

#[test]
fn returns_on_any_text(rt: HostRuntime) {
    let mut runs = Runs::new();
    let mut has_read = false;
    for _ in 0..RUNS {
        if let Ok(text) = str::from_utf8(runs.next()) {
            let _ = Table::read(rt.alloc(), text);
            has_read = true;
        }
    }
    assert!(rt; runs.left() == 0);
    assert!(rt; has_read);
}

#[test]
fn notes_no_rule_that_is_not_there(rt: HostRuntime) -> Result<(), Fail> {
    let text = r#"
        [[rule]]
        action = "pass"
        pgn = [61185, 61439]  # 0xef01 to 0xefff
        [[rule]]
        action = "pass"
        pgn = [61185, 61440]  # 0xef01 to 0xf000
        [[rule]]
        action = "pass"
        from = 16
        [[rule]]
        action = "pass"
        from = [15, 255]
        [[rule]]
        action = "pass"
        pgn = [65280, 65535]  # 0xff00 to 0xffff
        destination = [0, 254]
        [[rule]]
        action = "pass"
        pgn = [65280, 65536]  # 0xff00 to 0x10000
        destination = [0, 254]
        [[rule]]
        action = "block"
        from = 15
        pgn = 65260
        [[rule]]
        action = "block"
    "#;
    let table = Table::read(rt.alloc(), text)?;
    assert!(rt; table.why_dead(8).is_none());
    Ok(())
}

#[test]
fn want_of_memory(rt: HostRuntime) -> Result<(), AllocError> {
    let want = TableRefusal::OutOfMemory;
    assert!(rt; want.number() == 55);
    let says = format!(in rt.alloc(); "{want}")?;
    assert!(rt; says.as_str() == "memory was refused for the table");
    Ok(())
}
