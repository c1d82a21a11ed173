//! What a person should know of the lines of a log that no port takes.

use arrayvec::ArrayVec;
use gw_io::Tried;
use gw_judge::{Cause, LineNotes};
use gw_log::LogRefusal;
use std::io::Write;
use std::str;

/// So many interfaces are told by their names.
const MAX_TOLD: usize = 16;

/// The most octets of an interface that is told by its name: more than a bus system takes.
const MAX_NAME: usize = 64;

/// An interface that is not named, and how many frames its lines say.
#[derive(Default, Drop)]
struct Untaken {
    interface: ArrayVec<u8, MAX_NAME>,
    frames: u64,
}

/// What a person should know of the lines of a log that no port takes. No clause speaks of it.
#[derive(Drop)]
pub(crate) struct LogNotes {
    lines: u64,
    causes: [Cause; LogRefusal::ALL.len()],
    untaken: ArrayVec<Untaken, MAX_TOLD>,
    // the frames of interfaces that are not told by their names
    others: u64,
}

impl LogNotes {
    /// Before the first line.
    pub fn new() -> LogNotes {
        LogNotes {
            lines: 0,
            causes: [Cause { count: 0, first: 0 }; LogRefusal::ALL.len()],
            untaken: ArrayVec::new(),
            others: 0,
        }
    }

    /// Tells a person.
    pub fn tell<F: Write>(&self, faults: &mut Tried<F>) {
        self.tell_refused(faults);
        for untaken in self.untaken.as_slice() {
            tell_untaken(untaken, faults);
        }
        let others = self.others;
        if others > 0 {
            let _ = writeln!(
                faults,
                "gw: frames of further interfaces, not taken since no --interface names them: {others}"
            );
        }
    }

    /// Tells a person of the log of a port, a file of this name, where there is something to tell.
    pub fn tell_of<F: Write>(&self, port: usize, file: &str, faults: &mut Tried<F>) {
        if self.lines == 0 || self.causes.iter().any(|cause| cause.count > 0) {
            let _ = writeln!(faults, "gw: the log of port {port}, {file}:");
            self.tell_refused(faults);
        }
    }

    // Tells for each cause how many lines say no classic frame, and which is the first; and of a log without lines.
    fn tell_refused<F: Write>(&self, faults: &mut Tried<F>) {
        let lines = self.lines;
        if lines == 0 {
            let _ = writeln!(faults, "gw: the log is empty");
        }
        for (cause, why) in self.causes.iter().zip(LogRefusal::ALL) {
            let (count, first, number) = (cause.count, cause.first, why.number());
            if count > 0 {
                let _ = writeln!(
                    faults,
                    "gw: {number}: {count} of {lines} lines, the first is line {first}: {why}"
                );
            }
        }
    }
}

impl LineNotes for LogNotes {
    /// Counts a line.
    fn see_line(&mut self) {
        self.lines = self.lines.saturating_add(1);
    }

    /// Counts the last line as one that says no classic frame.
    fn see_refused(&mut self, why: LogRefusal) {
        let line = self.lines;
        for (cause, of) in self.causes.iter_mut().zip(LogRefusal::ALL) {
            if of == why {
                cause.count = cause.count.saturating_add(1);
                if cause.first == 0 {
                    cause.first = line;
                }
            }
        }
    }

    /// Counts a frame of an interface that is not named.
    fn see_untaken(&mut self, interface: &[u8]) {
        for known in self.untaken.as_mut_slice() {
            if known.interface.as_slice() == interface {
                known.frames = known.frames.saturating_add(1);
                return;
            }
        }
        let mut name = ArrayVec::new();
        let fits = name.try_extend_from_slice(interface).is_ok();
        let first = Untaken {
            interface: name,
            frames: 1,
        };
        if !fits || self.untaken.try_push(first).is_err() {
            self.others = self.others.saturating_add(1);
        }
    }
}

fn tell_untaken<F: Write>(untaken: &Untaken, faults: &mut Tried<F>) {
    let frames = untaken.frames;
    if untaken.interface.is_empty() {
        let _ = writeln!(
            faults,
            "gw: frames of lines without an interface, not taken since no `--interface =P` is given: {frames}"
        );
        return;
    }
    let interface = str::from_utf8(untaken.interface.as_slice()).unwrap_or("?");
    let _ = writeln!(
        faults,
        "gw: frames of interface {interface}, not taken since no --interface names it: {frames}"
    );
}
