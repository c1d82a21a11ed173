//! The texts of the refusals that no command shows, each whole.

use gw_board::{BoardRefusal, NoReading, ReplaceRefusal};
use gw_judge::JudgeFault;
use gw_ledger::Limits;
use gw_log::LogRefusal;
use gw_policy::Batch;
use gw_ports::{CloseRefusal, MakeRefusal, OfferRefusal, RunRefusal, gateway};
use gw_replay::ReplayFault;
use gw_run::ForwardRefusal;
use gw_text::AsmRefusal;
use gw_trace::TraceRefusal;
use std::alloc::Global;
use std::fmt::Display;
use std::process::Abort;
use std::test::Fail;

/// Each refusal must be told by just the text beside it and what stands behind each text.
fn assert_told_with<T: Display>(rt: &impl Abort, alloc: Global, texts: &[(T, &str)], behind: &str) {
    for (refusal, text) in texts {
        let told = format!(in alloc; "{refusal}").expect(rt, "memory");
        assert!(rt; told.as_str().strip_suffix(behind) == Some(*text), "{told}");
    }
}

/// Each refusal must be told by just the text beside it.
fn assert_told<T: Display>(rt: &impl Abort, alloc: Global, texts: &[(T, &str)]) {
    assert_told_with(rt, alloc, texts, "");
}

const NOT_BOARD: [(BoardRefusal, &str); 1] = [(
    BoardRefusal::Unavailable,
    "no memory for the board: ask again, or for fewer ports",
)];

const NOT_READ: [(NoReading, &str); 1] = [(
    NoReading,
    "the policies in force could not be read: ask again",
)];

/// Each with an empty batch that comes back.
fn not_replaced() -> [(ReplaceRefusal, &'static str); 5] {
    [
        (
            ReplaceRefusal::NoSuchPort(Batch::new()),
            "the batch names a port that the gateway does not have: name ports below its number of ports",
        ),
        (
            ReplaceRefusal::VersionsSpent(Batch::new()),
            "all versions are published: make the gateway with a greater limit of versions",
        ),
        (
            ReplaceRefusal::Stopped(Batch::new()),
            "the operator stopped when a batch was lost: make another gateway to replace policies",
        ),
        (
            ReplaceRefusal::OutOfMemory(Some(Batch::new())),
            "no memory to publish the batch: hand it in again",
        ),
        (
            ReplaceRefusal::OutOfMemory(None),
            "no memory to publish the batch, which is lost: the operator is stopped",
        ),
    ]
}

#[test]
fn of_boards(rt: HostRuntime) {
    let alloc = rt.alloc();
    assert_told(&rt, alloc, &NOT_BOARD);
    assert_told(&rt, alloc, &NOT_READ);
    assert_told(&rt, alloc, &not_replaced());
}

const NOT_MADE: [(MakeRefusal, &str); 3] = [
    (
        MakeRefusal::OutOfMemory,
        "no memory for the ends of the ports: ask again, or for fewer ports",
    ),
    (
        MakeRefusal::Unavailable,
        "no memory for the board: ask again, or for fewer ports",
    ),
    (
        MakeRefusal::NoLanes,
        "no memory for the lanes: ask again, for fewer ports or for shorter lanes",
    ),
];

const NO_LANES: [(gw_lanes::OutOfMemory, &str); 1] = [(
    gw_lanes::OutOfMemory,
    "no memory for the lanes: ask again, for fewer ports or for shorter lanes",
)];

const NO_CORE: [(gw_core::OutOfMemory, &str); 1] = [(
    gw_core::OutOfMemory,
    "no memory for the gateway: ask again, for fewer ports, shorter lanes or fewer versions",
)];

const NOT_TAKEN: [(OfferRefusal, &str); 2] = [
    (
        OfferRefusal::FramesSpent,
        "all frames of the port are taken: make the gateway with a greater limit of frames",
    ),
    (
        OfferRefusal::NoReading,
        "the policies in force could not be read: offer the frame again",
    ),
];

#[test]
fn of_gateways(rt: HostRuntime) {
    let alloc = rt.alloc();
    assert_told(&rt, alloc, &NOT_MADE);
    assert_told(&rt, alloc, &NO_LANES);
    assert_told(&rt, alloc, &NO_CORE);
    assert_told(&rt, alloc, &NOT_TAKEN);
}

#[test]
fn of_closes(rt: HostRuntime) -> Result<(), Fail> {
    let alloc = rt.alloc();
    let limits = Limits::new(2, 1, 1, 1)?;
    let parts = gateway(alloc, limits).expect(&rt, "a gateway");
    let no_memory = [(
        CloseRefusal::OutOfMemory(parts),
        "no memory for the report: close the gateway again",
    )];
    assert_told(&rt, alloc, &no_memory);
    let parts = gateway(alloc, limits).expect(&rt, "a gateway");
    let no_reading = [(
        CloseRefusal::NoReading(parts),
        "the policies in force could not be read: close the gateway again",
    )];
    assert_told(&rt, alloc, &no_reading);
    Ok(())
}

const NOT_RUN: [(RunRefusal, &str); 6] = [
    (
        RunRefusal::NotMade(MakeRefusal::Unavailable),
        "no memory for the board: ask again, or for fewer ports",
    ),
    (
        RunRefusal::NoSuchPort,
        "the first batch names a port that the gateway does not have: name ports below its number of ports",
    ),
    (
        RunRefusal::NotPublished,
        "no memory to publish the first batch: run again",
    ),
    (
        RunRefusal::OutOfMemory,
        "no memory for the report: run again, on fewer frames",
    ),
    (
        RunRefusal::NoThread,
        "no thread for a port: run again, with fewer ports",
    ),
    (
        RunRefusal::NoReading,
        "the policies in force could not be read: run again",
    ),
];

const NO_TRACE: [(TraceRefusal, &str); 2] = [
    (TraceRefusal::OutOfMemory, "memory was refused"),
    (
        TraceRefusal::ReadFault,
        "the trace could not be read to its end",
    ),
];

const NOT_FORWARDED: [(ForwardRefusal, &str); 1] = [(
    ForwardRefusal::Stopped {
        port: 3,
        why: OfferRefusal::NoReading,
    },
    "port 3 stopped: the policies in force could not be read: offer the frame again",
)];

#[test]
fn of_runs(rt: HostRuntime) {
    assert_told(&rt, rt.alloc(), &NOT_RUN);
    assert_told(&rt, rt.alloc(), &NO_TRACE);
    assert_told(&rt, rt.alloc(), &NOT_FORWARDED);
}

const NOT_REPLAYED: [(ReplayFault, &str); 3] = [
    (
        ReplayFault::ReadFault,
        "the script could not be read to its end",
    ),
    (ReplayFault::WriteFault, "the answers could not be written"),
    (ReplayFault::OutOfMemory, "memory was refused"),
];

#[test]
fn of_replays(rt: HostRuntime) {
    assert_told(&rt, rt.alloc(), &NOT_REPLAYED);
}

const NO_PROGRAM: [(AsmRefusal, &str); 10] = [
    (
        AsmRefusal::BadToken { line: 3 },
        "line 3: a character that is no part of a token, or a comment without its */",
    ),
    (
        AsmRefusal::UnknownWord { line: 3 },
        "line 3: no instruction has this word",
    ),
    (
        AsmRefusal::BadOperand { line: 3 },
        "line 3: the instruction does not take these operands",
    ),
    (
        AsmRefusal::BadNumber { line: 3 },
        "line 3: a number that is malformed or out of range",
    ),
    (
        AsmRefusal::LabelTwice { line: 3 },
        "line 3: a label that is defined on an earlier line already",
    ),
    (
        AsmRefusal::NoSuchLabel { line: 3 },
        "line 3: a jump to a label that is not defined",
    ),
    (
        AsmRefusal::Backward { line: 3 },
        "line 3: a jump to its own place or backwards; only jumps ahead are read",
    ),
    (
        AsmRefusal::TooFar { line: 3 },
        "line 3: a conditional jump that passes more than 255 instructions",
    ),
    (
        AsmRefusal::TooMany { line: 3 },
        "line 3: instruction 4097; at most 4096 fit",
    ),
    (AsmRefusal::OutOfMemory, "memory was refused"),
];

#[test]
fn of_assembler_texts(rt: HostRuntime) {
    assert_told(&rt, rt.alloc(), &NO_PROGRAM);
}

const NOT_JUDGED: [(JudgeFault, &str); 2] = [
    (
        JudgeFault::ReadFault,
        "the log could not be read to its end",
    ),
    (JudgeFault::WriteFault, "the lines could not be written"),
];

#[test]
fn of_judging(rt: HostRuntime) {
    assert_told(&rt, rt.alloc(), &NOT_JUDGED);
}

const NO_FRAME: [(LogRefusal, &str); 13] = [
    (
        LogRefusal::CanFd,
        "`##` begins a frame of CAN FD, and a classic one has one `#`",
    ),
    (LogRefusal::OpenTime, "a time ends with `)`"),
    (
        LogRefusal::NoFrame,
        "no `#` stands between an identifier and a payload",
    ),
    (
        LogRefusal::WordsBefore,
        "between the time and the frame stands an interface at most",
    ),
    (
        LogRefusal::DigitsBehind,
        "a blank stands between the octets of a payload",
    ),
    (
        LogRefusal::NoDigit,
        "something else than a hexadecimal digit stands in the identifier or the payload",
    ),
    (
        LogRefusal::BadDigits,
        "an identifier has 3 digits, or 8 for an extended one",
    ),
    (
        LogRefusal::WideId,
        "3 digits are at most 7FF and 8 at most 3FFFFFFF, without the flag of an extended one",
    ),
    (
        LogRefusal::OddDigits,
        "an octet has two digits, and a dot stands between octets alone",
    ),
    (
        LogRefusal::BadLength,
        "a payload has at most 8 octets, and as many as its line says",
    ),
    (
        LogRefusal::BadRemote,
        "behind `R` stands a length of 0 to 8 or nothing, and no error frame is remote",
    ),
    (
        LogRefusal::BadCode,
        "behind `_` stands one digit of 9 to F, and before it 8 octets",
    ),
    (LogRefusal::LongLine, "a line has at most 65536 octets"),
];

#[test]
fn of_logs(rt: HostRuntime) {
    let form = "; a frame is written 18FEF100#0102, or 123#R for a remote one";
    assert_told_with(&rt, rt.alloc(), &NO_FRAME, form);
}
