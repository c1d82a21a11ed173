//! What a person should know of an input that is not refused.

use crate::stated::StatedTable;
use gw_answers::{Refusal, note_file};
use gw_frame::Frame;
use gw_input::line_of_rule;
use gw_insn::read_listing;
use gw_io::Tried;
use gw_judge::{Head, NoFrame, NoLog, Tally};
use gw_log::LogRefusal;
use gw_table::{Part, Rule};
use std::alloc::Global;
use std::io::Write;

/// Tells which rule of a table decides a frame that was taken at a port, or that `default` or `other` does.
pub fn note_decision<F: Write>(
    stated: &StatedTable,
    frame: &Frame,
    port: u8,
    faults: &mut Tried<F>,
) {
    let part = stated.table.decides(frame, port);
    let _ = match place_of(stated, part) {
        Some(line) => writeln!(faults, "gw: {part} (line {line}) decides"),
        None => writeln!(faults, "gw: {part} decides"),
    };
}

/// Tells of each rule of a table that can never decide.
pub fn note_dead_rules<F: Write>(stated: &StatedTable, faults: &mut Tried<F>) {
    for rule in 0..stated.table.rules().len() {
        if let Some(why) = stated.table.why_dead(rule) {
            let part = Part::Rule(rule);
            let _ = match place_of(stated, part) {
                Some(line) => writeln!(faults, "gw: {part} (line {line}) never decides: {why}"),
                None => writeln!(faults, "gw: {part} never decides: {why}"),
            };
        }
    }
}

/// The line of a table's text at which a part of it stands, where that is a rule.
fn place_of(stated: &StatedTable, part: Part) -> Option<usize> {
    match part {
        Part::Rule(number) => line_of_rule(stated.lines.as_slice(), number),
        Part::Default | Part::Other => None,
    }
}

/// Tells of a file's name that begins with a port, as where each port has a file.
pub fn note_port_form<F: Write>(file: &str, faults: &mut Tried<F>) {
    if let Some((port, _)) = file.split_once('=') {
        if !port.is_empty() && port.bytes().all(|c| c.is_ascii_digit()) {
            let _ = writeln!(
                faults,
                "gw: P=FILE names the file of port P for `gw run` and `gw judge --out`; one policy is --table FILE, and --port P \
                is the ingress port"
            );
        }
    }
}

/// Tells of rules that all ask for another ingress port than 0, where a log is judged as heard there: mostly `--port` is missing.
pub fn note_unasked_port<F: Write>(rules: &[Rule], port: u8, faults: &mut Tried<F>) {
    if port == 0 && !rules.is_empty() && rules.iter().all(|rule| rule.from.low > 0) {
        let _ = writeln!(
            faults,
            "gw: the frames are judged as taken at port 0, which no rule has in its `from`; --port P names another"
        );
    }
}

/// Tells of a text that is to be a table, and lists a program.
pub fn note_program<F: Write>(alloc: Global, text: &[u8], faults: &mut Tried<F>) {
    if read_listing(alloc, text).is_ok() {
        let _ = writeln!(
            faults,
            "gw: it lists a program, which may read the payload, so it is not compared over every frame; \
            `gw judge --listing FILE` judges a log by it"
        );
    }
}

/// Tells which file is refused, except where the frame that an argument says is refused.
pub fn note_refused_file<F: Write>(file: &str, refusal: &Refusal, faults: &mut Tried<F>) {
    match refusal {
        Refusal::Record(_) | Refusal::Candump(_) => (),
        _ => note_file(file, refusal, faults),
    }
}

/// Tells for each cause how many lines of a log say no classic frame, and which is the first; and of a log without lines.
pub fn note_refused_lines<F: Write>(tally: &Tally, faults: &mut Tried<F>) {
    let lines = tally.lines;
    if lines == 0 {
        let _ = writeln!(faults, "gw: the log is empty");
    }
    for why in LogRefusal::ALL {
        let cause = tally.cause(why);
        let (count, first, number) = (cause.count, cause.first, why.number());
        if count > 0 {
            let _ = writeln!(
                faults,
                "gw: {number}: {count} of {lines} lines, the first is line {first}: {why}"
            );
        }
    }
}

/// Tells of an input that is no log but a capture or a compressed file, and which command takes it.
pub fn note_no_log<F: Write>(head: &Head, faults: &mut Tried<F>) {
    let told = match head.no_log() {
        Some(NoLog::Pcap) =>
            "the input is a pcap capture and no log of candump; `gw judge` and `gw run` take one of link type 227",
        Some(NoLog::PcapNg) => {
            "the input is a pcapng capture and no log of candump; `editcap -F pcap` makes a pcap capture of it for `gw run`"
        }
        Some(NoLog::Gzip) =>
            "the input is compressed; `gzip -dc FILE | gw judge ..` judges what it holds",
        None => return,
    };
    let _ = writeln!(faults, "gw: {told}");
}

/// Tells of a capture that it has no lines.
pub fn note_no_lines<F: Write>(faults: &mut Tried<F>) {
    let _ = writeln!(
        faults,
        "gw: the input is a pcap capture and has no lines to write: without --passed, --blocked and --each its frames are counted"
    );
}

/// Tells how many records of a capture are no frames, and which is the first; and of a capture without records.
pub fn note_refused_records<F: Write>(
    tally: &Tally,
    first: Option<NoFrame>,
    faults: &mut Tried<F>,
) {
    let (count, records) = (tally.counts.refused, tally.lines);
    if records == 0 {
        let _ = writeln!(faults, "gw: the capture is empty");
    }
    if let Some(NoFrame { index, why }) = first {
        let _ = writeln!(
            faults,
            "gw: 93: {count} of {records} records, the first is record {index}, counted from 0: {why}"
        );
    }
}
