//! What two tables differ in.

use gw_table::{Difference, Part, Table};
use std::alloc::Global;
use std::process::Abort;

/// Requests (PGN 59904) of the tool at 249 are blocked, and the engine at 0 may send three groups.
const OLD: &str = r#"
    [[rule]]
    action = "block"
    pgn = 59904
    source = 249
    [[rule]]
    action = "pass"
    pgn = 59904
    destination = 0
    [[rule]]
    action = "pass"
    pgn = 65262
    source = 0
    [[rule]]
    action = "pass"
    pgn = 65265
    source = 0
    from = 1
    [[rule]]
    action = "pass"
    pgn = 65226
"#;

/// The same with its second rule moved up, its last dropped, and its fourth widened.
const NEW: &str = r#"
    [[rule]]
    action = "pass"
    pgn = 59904
    destination = 0
    [[rule]]
    action = "block"
    pgn = 59904
    source = 249
    [[rule]]
    action = "pass"
    pgn = 65262
    source = 0
    [[rule]]
    action = "pass"
    pgn = 65265
    source = 0
    from = [1, 2]
"#;

/// The parts of each difference, and the word and port of its frame. The requests to 0 passed by the second rule and pass by the
/// first, so they are none.
const EXPECTED: [(Part, Part, u32, u8); 3] = [
    (Part::Rule(0), Part::Rule(0), 0x80EA00F9, 0),
    (Part::Rule(4), Part::Default, 0x80FECA00, 0),
    (Part::Default, Part::Rule(3), 0x80FEF100, 2),
];

fn is_expected(found: &Difference, expected: (Part, Part, u32, u8)) -> bool {
    let (old, new, word, port) = expected;
    found.old == old
        && found.new == new
        && found.frame.id().word() == word
        && found.frame.payload().is_empty()
        && found.port == port
}

/// What tables of two texts differ in.
fn differences(rt: &impl Abort, alloc: Global, old: &str, new: &str) -> Vec<Difference> {
    let old = Table::read(alloc, old).expect(rt, "a table");
    let new = Table::read(alloc, new).expect(rt, "a table");
    old.differences(alloc, &new).expect(rt, "memory")
}

#[test]
fn a_rule_moved_one_dropped_and_one_widened(rt: HostRuntime) {
    let found = differences(&rt, rt.alloc(), OLD, NEW);
    assert!(rt; found.len() == 3);
    for index in 0..3 {
        assert!(rt; is_expected(&found[index], EXPECTED[index]));
    }
}

#[test]
fn a_table_and_itself(rt: HostRuntime) {
    let table = Table::read(rt.alloc(), OLD).expect(&rt, "a table");
    let found = table.differences(rt.alloc(), &table).expect(&rt, "memory");
    assert!(rt; found.is_empty());
}

#[test]
fn other_frames(rt: HostRuntime) {
    let found = differences(&rt, rt.alloc(), "other = \"pass\"", "");
    assert!(rt; found.len() == 1);
    assert!(rt; is_expected(&found[0], (Part::Other, Part::Other, 0, 0)));
}
