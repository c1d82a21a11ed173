//! What random tables differ in and answer, beside trying a frame of each kind that their rules can tell apart at each port.

use crate::made::{frame, push_range};
use gw_frame::Frame;
use gw_table::{
    Answer, Change, Crossing, Difference, Part, Question, Sample, Span, Table, crossings,
};
use std::alloc::{AllocError, Global};
use std::process::Abort;

/// The bounds of each field's ranges. 61184 is the last group of PDU1 below 61440, the first of PDU2; 65536 is of the next page.
const GROUPS: [u32; 8] = [0, 59904, 61184, 61440, 61441, 65535, 65536, 262143];

const SOURCES: [u32; 8] = [0, 0, 3, 3, 249, 249, 255, 255];

const DESTINATIONS: [u32; 8] = [0, 0, 0, 16, 16, 255, 255, 255];

const PORTS: [u32; 8] = [0, 0, 1, 1, 7, 7, 15, 15];

/// Frames of PDU1 with the groups 0, 256, 59904, 60160, 61184, 65536 and 65792, without destination and source.
const TO_ONE: [u32; 7] = [
    0x98000000, 0x98010000, 0x98EA0000, 0x98EB0000, 0x98EF0000, 0x99000000, 0x99010000,
];

/// Frames of PDU2 with the groups 61440 to 61442, 65535, 126976 and 262143, without source.
const TO_ALL: [u32; 6] = [
    0x98F00000, 0x98F00100, 0x98F00200, 0x98FFFF00, 0x99F00000, 0x9BFFFF00,
];

/// The bounds' own numbers, and one between each two.
const TRIED_DESTINATIONS: [u32; 5] = [0x0000, 0x0100, 0x1000, 0x6400, 0xFF00];

const TRIED_SOURCES: [u32; 7] = [0, 1, 3, 100, 249, 250, 255];

/// A linear congruential generator.
#[derive(Drop)]
struct Generator {
    state: u32,
}

impl Generator {
    fn next(&mut self) -> usize {
        self.state = self.state.wrapping_mul(1664525).wrapping_add(1013904223);
        (self.state >> 16) as usize
    }

    fn coin(&mut self) -> bool {
        self.next() % 2 == 0
    }

    fn range(&mut self, bounds: &[u32; 8]) -> Span {
        let one = bounds[self.next() % 8];
        let other = bounds[self.next() % 8];
        Span {
            low: one.min(other),
            high: one.max(other),
        }
    }

    fn range_or_none(&mut self, bounds: &[u32; 8]) -> Option<Span> {
        let range = self.range(bounds);
        if self.coin() { Some(range) } else { None }
    }

    fn action(&mut self) -> &'static str {
        if self.coin() { "pass" } else { "block" }
    }

    fn push_action(&mut self, text: &mut String, key: &str) -> Result<(), AllocError> {
        let action = self.action();
        write!(text, "{key} = \"{action}\"\n")
    }

    fn push_range(
        &mut self,
        text: &mut String,
        key: &str,
        bounds: &[u32; 8],
    ) -> Result<(), AllocError> {
        let range = self.range(bounds);
        push_range(text, key, range.low, range.high)
    }

    fn push_rule(&mut self, text: &mut String) -> Result<(), AllocError> {
        text.push_str("[[rule]]\n")?;
        self.push_action(text, "action")?;
        self.push_range(text, "pgn", &GROUPS)?;
        self.push_range(text, "source", &SOURCES)?;
        self.push_range(text, "destination", &DESTINATIONS)?;
        self.push_range(text, "from", &PORTS)
    }

    fn push_table(&mut self, text: &mut String) -> Result<(), AllocError> {
        self.push_action(text, "default")?;
        self.push_action(text, "other")?;
        for _ in 0..self.next() % 7 {
            self.push_rule(text)?;
        }
        Ok(())
    }

    /// A table of at most six rules.
    fn table(&mut self, rt: &impl Abort, alloc: Global) -> Table {
        let mut text = String::new(alloc);
        assert!(rt; self.push_table(&mut text).is_ok());
        Table::read(alloc, text.as_str()).expect(rt, "a table")
    }

    fn question(&mut self) -> Question {
        Question {
            pgn: self.range_or_none(&GROUPS),
            source: self.range_or_none(&SOURCES),
            destination: self.range_or_none(&DESTINATIONS),
            from: self.range_or_none(&PORTS),
        }
    }
}

fn push_frame(rt: &impl Abort, frames: &mut Vec<Frame>, word: u32) {
    let frame = frame(word).expect(rt, "a frame");
    assert!(rt; frames.push(frame).is_ok());
}

fn push_sources(rt: &impl Abort, frames: &mut Vec<Frame>, word: u32) {
    for source in TRIED_SOURCES {
        push_frame(rt, frames, word | source);
    }
}

fn push_destinations(rt: &impl Abort, frames: &mut Vec<Frame>, word: u32) {
    for destination in TRIED_DESTINATIONS {
        push_sources(rt, frames, word | destination);
    }
}

/// A frame of 11 bits, and one of each kind of 29 bits.
fn tried_frames(rt: &impl Abort, alloc: Global) -> Vec<Frame> {
    let mut frames = Vec::new(alloc);
    push_frame(rt, &mut frames, 0x123);
    for word in TO_ONE {
        push_destinations(rt, &mut frames, word);
    }
    for word in TO_ALL {
        push_sources(rt, &mut frames, word);
    }
    frames
}

fn is_unlike(old: &Table, new: &Table, frame: &Frame, port: u8) -> bool {
    old.verdict(frame, port) != new.verdict(frame, port)
}

fn is_difference(found: &Difference, old: &Table, new: &Table) -> bool {
    is_unlike(old, new, &found.frame, found.port)
        && old.decides(&found.frame, found.port) == found.old
        && new.decides(&found.frame, found.port) == found.new
}

fn has_pair(found: &[Difference], old: Part, new: Part) -> bool {
    for found in found {
        if found.old == old && found.new == new {
            return true;
        }
    }
    false
}

/// Whether a frame is treated alike at each port, or its pair of deciders was found.
fn is_told(found: &[Difference], old: &Table, new: &Table, frame: &Frame) -> bool {
    for port in 0..16 {
        if is_unlike(old, new, frame, port)
            && !has_pair(found, old.decides(frame, port), new.decides(frame, port))
        {
            return false;
        }
    }
    true
}

/// The differences must be just those that a frame shows.
fn assert_differences(rt: &impl Abort, alloc: Global, frames: &[Frame], old: &Table, new: &Table) {
    let found = old.differences(alloc, new).expect(rt, "memory");
    for found in &found {
        assert!(rt; is_difference(found, old, new));
    }
    for frame in frames {
        assert!(rt; is_told(&found, old, new, frame));
    }
}

#[test]
fn differences_of_random_tables(rt: HostRuntime) {
    let frames = tried_frames(&rt, rt.alloc());
    let mut generator = Generator { state: 1 };
    for _ in 0..40 {
        let old = generator.table(&rt, rt.alloc());
        let new = generator.table(&rt, rt.alloc());
        assert_differences(&rt, rt.alloc(), &frames, &old, &new);
    }
}

/// Whether a crossing is of the tables of its egress port, and taken at another port below 3.
fn is_crossing(found: &Crossing, changes: &[Change; 3]) -> bool {
    let Some(change) = changes.get(usize::from(found.egress)) else {
        return false;
    };
    found.difference.port < 3
        && found.difference.port != found.egress
        && is_difference(&found.difference, change.old, change.new)
}

fn has_crossing(found: &[Crossing], egress: u8, old: Part, new: Part) -> bool {
    for found in found {
        let difference = &found.difference;
        if found.egress == egress && difference.old == old && difference.new == new {
            return true;
        }
    }
    false
}

/// Whether a frame leaves alike at a port, wherever else it is taken, or its pairs of deciders were found.
fn is_told_at(found: &[Crossing], change: &Change, egress: u8, frame: &Frame) -> bool {
    let Change { old, new } = *change;
    for port in 0..3 {
        if port != egress
            && is_unlike(old, new, frame, port)
            && !has_crossing(
                found,
                egress,
                old.decides(frame, port),
                new.decides(frame, port),
            )
        {
            return false;
        }
    }
    true
}

/// The crossings must be just those that a frame shows, and none at port 1, whose table stays.
fn assert_crossings(rt: &impl Abort, alloc: Global, frames: &[Frame], changes: &[Change; 3]) {
    let found = crossings(alloc, changes).expect(rt, "memory");
    for found in &found {
        assert!(rt; is_crossing(found, changes));
        assert!(rt; found.egress != 1);
    }
    for frame in frames {
        assert!(rt; is_told_at(&found, &changes[0], 0, frame));
        assert!(rt; is_told_at(&found, &changes[2], 2, frame));
    }
}

/// The next four tables, at three ports.
fn assert_next_crossings(
    rt: &impl Abort,
    alloc: Global,
    frames: &[Frame],
    generator: &mut Generator,
) {
    let a = generator.table(rt, alloc);
    let b = generator.table(rt, alloc);
    let c = generator.table(rt, alloc);
    let d = generator.table(rt, alloc);
    let first = Change { old: &a, new: &b };
    let second = Change { old: &c, new: &c };
    let third = Change { old: &b, new: &d };
    assert_crossings(rt, alloc, frames, &[first, second, third]);
}

#[test]
fn crossings_of_random_tables(rt: HostRuntime) {
    let frames = tried_frames(&rt, rt.alloc());
    let mut generator = Generator { state: 2 };
    for _ in 0..60 {
        assert_next_crossings(&rt, rt.alloc(), &frames, &mut generator);
    }
}

fn lies_in(number: u32, range: Option<Span>) -> bool {
    match range {
        Some(range) => range.low <= number && number <= range.high,
        None => true,
    }
}

fn is_asked(question: &Question, frame: &Frame, port: u8) -> bool {
    let id = frame.id();
    let by_frame = match id.destination() {
        Some(destination) => {
            lies_in(id.pgn(), question.pgn)
                && lies_in(u32::from(id.source()), question.source)
                && lies_in(u32::from(destination), question.destination)
        }
        None => {
            question.pgn.is_none() && question.source.is_none() && question.destination.is_none()
        }
    };
    by_frame && lies_in(u32::from(port), question.from)
}

/// Whether a frame is asked for at some port where the table passes it, or does not.
fn is_asked_so(table: &Table, question: &Question, frame: &Frame, passes: bool) -> bool {
    for port in 0..16 {
        if is_asked(question, frame, port) && table.verdict(frame, port) == passes {
            return true;
        }
    }
    false
}

/// Whether any of the frames is.
fn is_any_so(frames: &[Frame], table: &Table, question: &Question, passes: bool) -> bool {
    for frame in frames {
        if is_asked_so(table, question, frame, passes) {
            return true;
        }
    }
    false
}

fn is_sample(sample: &Sample, table: &Table, question: &Question, passes: bool) -> bool {
    is_asked(question, &sample.frame, sample.port)
        && table.verdict(&sample.frame, sample.port) == passes
        && table.decides(&sample.frame, sample.port) == sample.by
}

/// Whether the answer is that of a table that passes some of the frames, and blocks some.
fn is_answer(answer: &Answer, table: &Table, question: &Question, some: (bool, bool)) -> bool {
    match (answer, some) {
        (Answer::AllPass(sample), (true, false)) => is_sample(sample, table, question, true),
        (Answer::NonePass(sample), (false, true)) => is_sample(sample, table, question, false),
        (Answer::SomePass { passing, blocked }, (true, true)) => {
            is_sample(passing, table, question, true) && is_sample(blocked, table, question, false)
        }
        (Answer::NoFrame(_), (false, false)) => true,
        _ => false,
    }
}

/// The answer must be what the frames show.
fn assert_answer(
    rt: &impl Abort,
    alloc: Global,
    frames: &[Frame],
    table: &Table,
    question: &Question,
) {
    let answer = table.answers(alloc, question).expect(rt, "memory");
    let passing = is_any_so(frames, table, question, true);
    let blocked = is_any_so(frames, table, question, false);
    assert!(rt; is_answer(&answer, table, question, (passing, blocked)));
}

#[test]
fn answers_of_random_tables(rt: HostRuntime) {
    let frames = tried_frames(&rt, rt.alloc());
    let mut generator = Generator { state: 3 };
    for _ in 0..60 {
        let table = generator.table(&rt, rt.alloc());
        assert_answer(&rt, rt.alloc(), &frames, &table, &generator.question());
    }
}
