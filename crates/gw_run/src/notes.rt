//! What a person should know of a run that is no part of its answer. No clause speaks of it.

use crate::log::first_line;
use crate::refusal::ForwardRefusal;
use gw_io::Tried;
use gw_judge::Head;
use gw_ledger::InLedger;
use gw_log::read_line;
use std::io::Write;

/// Tells of an input that is no trace, and whose first line is that of a log, how a log is taken.
pub(crate) fn note_log<F: Write>(octets: &[u8], faults: &mut Tried<F>) {
    if octets.is_empty() {
        return;
    }
    let (line, _) = first_line(octets);
    if let Ok(Some(_)) = read_line(line) {
        let _ = writeln!(
            faults,
            "gw: the input begins as a log of candump: say which port takes the frames of which interface, by --interface NAME=P"
        );
    }
}

/// Tells that the frames of a trace were dealt to so many ports in turn.
pub(crate) fn note_dealt<F: Write>(ports: u32, faults: &mut Tried<F>) {
    let _ = writeln!(
        faults,
        "gw: frame i of the trace was taken at port i mod {ports}, whatever interface it came from"
    );
}

/// Tells of an input that is no log but another file.
pub(crate) fn note_no_log<F: Write>(head: &Head, faults: &mut Tried<F>) {
    if let Some(why) = head.no_log() {
        let _ = writeln!(faults, "gw: {}", ForwardRefusal::NoLog(why));
    }
}

/// Tells of a capture that it has no lines.
pub(crate) fn note_no_lines<F: Write>(faults: &mut Tried<F>) {
    let _ = writeln!(
        faults,
        "gw: the input is a pcap capture and has no lines to write: `gw run --ports N` deals its frames to the ports in turn"
    );
}

/// Tells which file of a port's frames is refused, before its refusal.
pub(crate) fn note_input<F: Write>(port: usize, file: &str, faults: &mut Tried<F>) {
    let _ = writeln!(faults, "gw: the input of port {port}, {file}, is refused:");
}

/// Tells how many copies were lost on full lanes, if any were.
pub(crate) fn note_lost<F: Write>(ledgers: &[InLedger], faults: &mut Tried<F>) {
    let mut lost = 0u64;
    for ledger in ledgers {
        lost = lost.saturating_add(ledger.lost);
    }
    if lost > 0 {
        let _ = writeln!(
            faults,
            "gw: copies lost on full lanes: {lost}; a run in memory fills lanes faster than a bus does, and --lane N makes them \
            longer"
        );
    }
}
