//! What a table passes of the frames that a question asks for.

use gw_table::{Answer, Part, Question, Span, Table};
use std::alloc::Global;
use std::process::Abort;

/// Requests (PGN 59904) of the tool at 249 are blocked, and those of others to the engine at 0 pass. So do engine hours.
const TABLE: &str = r#"
    [[rule]]
    action = "block"
    pgn = 59904
    source = 249
    [[rule]]
    action = "pass"
    pgn = 59904
    destination = 0
    [[rule]]
    action = "pass"
    pgn = 65253
"#;

/// A question of one PGN.
fn of_group(number: u32) -> Question {
    Question {
        pgn: one(number),
        source: None,
        destination: None,
        from: None,
    }
}

fn one(number: u32) -> Option<Span> {
    Some(Span {
        low: number,
        high: number,
    })
}

fn answer(rt: &impl Abort, alloc: Global, question: &Question) -> Answer {
    let table = Table::read(alloc, TABLE).expect(rt, "a table");
    table.answers(alloc, question).expect(rt, "memory")
}

#[test]
fn some_pass_and_some_do_not(rt: HostRuntime) {
    let to_engine = Question {
        destination: one(0),
        ..of_group(59904)
    };
    let Answer::SomePass { passing, blocked } = answer(&rt, rt.alloc(), &to_engine) else {
        panic!(rt; "another answer");
    };
    assert!(rt; passing.by == Part::Rule(1));
    assert!(rt; passing.frame.id().source() != 249);
    assert!(rt; passing.frame.id().destination() == Some(0));
    assert!(rt; blocked.by == Part::Rule(0));
    assert!(rt; blocked.frame.id().source() == 249);
}

#[test]
fn all_pass(rt: HostRuntime) {
    let Answer::AllPass(sample) = answer(&rt, rt.alloc(), &of_group(65253)) else {
        panic!(rt; "another answer");
    };
    assert!(rt; sample.by == Part::Rule(2));
}

#[test]
fn none_passes(rt: HostRuntime) {
    let of_tool = Question {
        source: one(249),
        ..of_group(59904)
    };
    let Answer::NonePass(sample) = answer(&rt, rt.alloc(), &of_tool) else {
        panic!(rt; "another answer");
    };
    assert!(rt; sample.by == Part::Rule(0));
}

/// Why a question asks for no frame, in words.
fn cause_in_words(rt: &impl Abort, alloc: Global, question: &Question) -> String {
    let Answer::NoFrame(why) = answer(rt, alloc, question) else {
        panic!(rt; "another answer");
    };
    format!(in alloc; "{why}").expect(rt, "memory")
}

/// 59905 is in the range of PDU1 groups, whose last octet is 0, and addresses end at 255. The first cause is told.
#[test]
fn no_group_and_no_source(rt: HostRuntime) {
    let of_source = Question {
        source: one(256),
        ..of_group(59904)
    };
    let of_neither = Question {
        pgn: one(59905),
        ..of_source
    };
    assert!(rt;
        cause_in_words(&rt, rt.alloc(), &of_neither).as_str()
            == "`pgn` has no parameter group: below PDU format 240 the last octet of a PGN is 0, and the destination \
                is no part of it"
    );
    assert!(rt;
        cause_in_words(&rt, rt.alloc(), &of_source).as_str()
            == "`source` has no address: addresses are 0 to 255"
    );
}

/// 65253 is a PDU2 group, which goes to 255 alone, and ports end at 15.
#[test]
fn no_port_and_no_destination(rt: HostRuntime) {
    let to_engine = Question {
        destination: one(0),
        ..of_group(65253)
    };
    let of_neither = Question {
        from: one(16),
        ..to_engine
    };
    assert!(rt;
        cause_in_words(&rt, rt.alloc(), &of_neither).as_str()
            == "`from` has no port: ports are 0 to 15"
    );
    assert!(rt;
        cause_in_words(&rt, rt.alloc(), &to_engine).as_str()
            == "`destination` has no address that these groups go to: addresses are 0 to 255, and PDU2 groups go to 255 alone"
    );
}
