//! Tables by their index.

use crate::made::{frame, push_range};
use gw_frame::{Frame, FrameRefusal};
use gw_table::{IndexedTable, Rule, Span, Table};
use std::alloc::{AllocError, Global};
use std::process::Abort;

fn indexed(rt: &impl Abort, alloc: Global, text: &str) -> IndexedTable {
    let table = Table::read(alloc, text).expect(rt, "a table");
    let Ok(table) = IndexedTable::new(alloc, table) else {
        panic!(rt; "no memory");
    };
    table
}

/// A text with rules behind its own that no frame of the worked examples meets, so that the table is not judged rule by rule.
fn prolonged(alloc: Global, text: &str) -> Result<String, AllocError> {
    let mut long = String::from_str(alloc, text)?;
    for _ in 0..64 {
        long.push_str("[[rule]]\naction = \"pass\"\nsource = 77\n")?;
    }
    Ok(long)
}

const TWO_RULES: &str =
    "default = \"pass\"\n[[rule]]\naction = \"pass\"\npgn = 61184\nsource = 1\n[[rule]]\naction = \"block\"\npgn = 61184\n";

const TAKING_PORT: &str = "[[rule]]\naction = \"pass\"\nfrom = 1\n";

/// A table, the identifier word of a frame and the port that took it, and whether it passes.
const EXAMPLES: [(&str, u32, u8, bool); 7] = [
    ("default = \"pass\"\n", 0x8CF00400, 0, true),
    ("default = \"pass\"\n", 0x00000123, 0, false),
    (TAKING_PORT, 0x8CF00400, 1, true),
    (TAKING_PORT, 0x8CF00400, 0, false),
    (TWO_RULES, 0x98EF1201, 0, true),
    (TWO_RULES, 0x98EF1202, 0, false),
    (TWO_RULES, 0x98F01201, 0, true),
];

/// Whether a table passes a frame, by its index.
fn passes(rt: &impl Abort, alloc: Global, text: &str, word: u32, from: u8) -> bool {
    let frame = frame(word).expect(rt, "a frame");
    indexed(rt, alloc, text).verdict(&frame, from)
}

#[test]
fn the_worked_examples(rt: HostRuntime) {
    let alloc = rt.alloc();
    for (text, word, from, expected) in EXAMPLES {
        assert!(rt;
            passes(&rt, alloc, text, word, from) == expected,
            "{word:x}"
        );
        let long = prolonged(alloc, text).expect(&rt, "memory");
        assert!(rt;
            passes(&rt, alloc, long.as_str(), word, from) == expected,
            "{word:x}"
        );
    }
}

/// A table of so many rules that block the source 1, and one that passes groups from 61184 to 61458.
fn long_text(alloc: Global, blocking: usize) -> Result<String, AllocError> {
    let mut text = String::from_str(alloc, "other = \"pass\"\n")?;
    for _ in 0..blocking {
        text.push_str("[[rule]]\naction = \"block\"\nsource = 1\n")?;
    }
    text.push_str("[[rule]]\naction = \"pass\"\npgn = [61184, 61458]\n")?;
    Ok(text)
}

/// The index of that table.
fn long_table(rt: &impl Abort, alloc: Global, blocking: usize) -> IndexedTable {
    let text = long_text(alloc, blocking).expect(rt, "memory");
    indexed(rt, alloc, text.as_str())
}

/// Frames of source 52, one of source 1, one of 11 bits and a remote one, and whether the table of 256 rules passes each.
const FRAMES: [(u32, bool); 6] = [
    (0x98EF1234, true),
    (0x98F01234, true),
    (0x98F01334, false),
    (0x98EF1201, false),
    (0x00000123, true),
    (0xD8EF1234, true),
];

#[test]
fn the_table_of_256_rules(rt: HostRuntime) {
    let table = long_table(&rt, rt.alloc(), 255);
    for (word, passes) in FRAMES {
        let frame = frame(word).expect(&rt, "a frame");
        assert!(rt; table.verdict(&frame, 0) == passes, "{word:x}");
    }
}

/// From 16 rules on there is an index.
#[test]
fn tables_of_several_lengths(rt: HostRuntime) {
    let passed = frame(0x98EF1234).expect(&rt, "a frame");
    let blocked = frame(0x98F01334).expect(&rt, "a frame");
    for blocking in [0, 14, 15, 99, 254] {
        let table = long_table(&rt, rt.alloc(), blocking);
        assert!(rt; table.verdict(&passed, 0), "{blocking}");
        assert!(rt; !table.verdict(&blocked, 0), "{blocking}");
    }
}

/// The rule of a number, of the table below.
fn push_overlapping(text: &mut String, rule: u8) -> Result<(), AllocError> {
    let rule = u32::from(rule);
    let action = if rule % 3 == 0 { "pass" } else { "block" };
    let pgn = 61000 + rule * 17;
    let source = rule % 200;
    let destination = rule % 90;
    let from = rule % 14;
    write!(text, "[[rule]]\naction = \"{action}\"\n")?;
    push_range(text, "pgn", pgn, pgn + 900 - rule)?;
    push_range(text, "source", source, source + 50)?;
    push_range(text, "destination", destination, destination + 165)?;
    push_range(text, "from", from, from + 1)
}

/// 256 rules whose ranges overlap: each has some range in common with most others, and no two have the same four.
fn overlapping(alloc: Global) -> Result<String, AllocError> {
    let mut text = String::from_str(alloc, "default = \"pass\"\n")?;
    for rule in 0..=255 {
        push_overlapping(&mut text, rule)?;
    }
    Ok(text)
}

/// A parameter group, a source, a destination and an ingress port.
type Place = [u32; 4];

/// A frame of a place's parameter group, or of one of its page where it is none; for PDU2 the destination is 255.
fn frame_at([pgn, source, destination, _]: Place) -> Result<Frame, FrameRefusal> {
    let page = pgn / 256 % 1024;
    let specific = if page % 256 < 240 {
        destination % 256
    } else {
        pgn % 256
    };
    frame(0x98000000 + page * 65536 + specific * 256 + source % 256)
}

/// The numbers at both ends of a range, and beside them.
fn ends(span: Span) -> [u32; 4] {
    [
        span.low.saturating_sub(1),
        span.low,
        span.high,
        span.high.saturating_add(1),
    ]
}

/// Both tables must judge alike.
fn assert_same(rt: &impl Abort, tables: (&IndexedTable, &Table), place: Place) {
    let frame = frame_at(place).expect(rt, "a frame");
    let from = (place[3] % 256) as u8;
    assert!(rt; tables.0.verdict(&frame, from) == tables.1.verdict(&frame, from));
}

/// Both tables must judge alike at the ends of each range of a rule, and beside them.
fn assert_same_at_ends(rt: &impl Abort, tables: (&IndexedTable, &Table), rule: &Rule) {
    let spans = [rule.pgn, rule.source, rule.destination, rule.from];
    let inside = [
        rule.pgn.low,
        rule.source.high,
        rule.destination.low,
        rule.from.low,
    ];
    for field in 0..4 {
        for end in ends(spans[field]) {
            let mut place = inside;
            place[field] = end;
            assert_same(rt, tables, place);
        }
    }
}

#[test]
fn the_ends_of_256_overlapping_rules(rt: HostRuntime) {
    let text = overlapping(rt.alloc()).expect(&rt, "memory");
    let index = indexed(&rt, rt.alloc(), text.as_str());
    let table = Table::read(rt.alloc(), text.as_str()).expect(&rt, "a table");
    assert!(rt; table.rules().len() == 256);
    for rule in table.rules() {
        assert_same_at_ends(&rt, (&index, &table), rule);
    }
}
