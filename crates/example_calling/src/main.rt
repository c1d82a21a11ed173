//! How the crates are called: a listing and a table become policies, a batch puts both in force, and frames are judged.
//!
//! The program takes three frames at port 0 and tells which of them leave at port 1, whose policy is a program, and at port 2,
//! whose policy is a table. Then it replaces the policy of port 1 between two offers of a frame, and again while threads forward
//! frames. docs/CALLING.md goes through it.
#![tactic(auto)]

mod every_order;
mod fault;
mod gateway;
mod operator_thread;
mod policies;
mod replacing;
mod threads;

use every_order::finished;
use fault::Fault;
use gateway::{batch_for, judge};
use j1939_gateway::{Batch, Frame, FrameCopy, Outcome, PortSet, Report};
use policies::{program_policy, table_policy};
use replacing::replace_between;
use std::alloc::Global;
use std::io;
use std::io::Write;
use std::marker::Sync;
use std::process::ExitCode;
use std::sync::Wait;
use std::thread::Threads;
use threads::{Forwarded, forward_in_threads};

/// Passes the frames of PDU2 groups, whose PDU format, octet 1 of the record, is 240 or more.
const PROGRAM: &[u8] = b"4,48 0 0 1,53 0 1 240,6 0 0 1,6 0 0 0,";

/// The port whose policy is replaced.
const PORT: u8 = 1;

/// Passes engine hours alone.
const TABLE: &str = "[[rule]]\naction = \"pass\"\npgn = 65253\n";

const EEC1: [u8; 16] = [
    0x8C, 0xF0, 0x04, 0x00, 8, 0, 0, 0, 0xFF, 0xFF, 0xFF, 0xE0, 0x2E, 0xFF, 0xFF, 0xFF,
];

const ENGINE_HOURS: [u8; 16] = [
    0x98, 0xFE, 0xE5, 0x00, 8, 0, 0, 0, 0x40, 0xE2, 0x01, 0x00, 0xFF, 0xFF, 0xFF, 0xFF,
];

/// EEC1 (61444), engine hours (65253) and a request (59904), as the engine and an instrument cluster send them.
const RECORDS: [(&str, [u8; 16]); 3] = [
    ("EEC1", EEC1),
    ("engine hours", ENGINE_HOURS),
    (
        "request",
        [
            0x98, 0xEA, 0x00, 0x17, 3, 0, 0, 0, 0xE5, 0xFE, 0x00, 0x00, 0x00, 0x00, 0x00, 0x00,
        ],
    ),
];

fn main(rt: HostRuntime) -> ExitCode {
    match tell_all(&rt, rt.alloc(), &mut rt.stdout()) {
        Ok(()) => ExitCode::SUCCESS,
        Err(fault) => tell_fault(fault, &mut rt.stderr()),
    }
}

/// Writes why the program ends early.
fn tell_fault<W: Write>(fault: Fault, output: &mut W) -> ExitCode {
    let _ = writeln!(output, "{fault}");
    ExitCode::FAILURE
}

/// Writes what becomes of the records, of a frame around a replacement, of a frame in the model, and of frames in threads.
fn tell_all<R: Threads + Wait + Sync, W: Write>(
    rt: &R,
    alloc: Global,
    output: &mut W,
) -> Result<(), Fault> {
    tell_verdicts(alloc, output)?;
    tell_outcomes(rt, alloc, output)?;
    tell_model(alloc, output)?;
    tell_threads(rt, alloc, output)
}

/// Writes a line for each record: its name, and where it leaves.
fn tell_verdicts<W: Write>(alloc: Global, output: &mut W) -> Result<(), Fault> {
    for (name, octets) in &RECORDS {
        let verdicts = judge(alloc, PROGRAM, TABLE, octets)?;
        let by_program = verdict_word(verdicts.by_program);
        let by_table = verdict_word(verdicts.by_table);
        writeln!(output, "{name}: port 1 {by_program}, port 2 {by_table}")?;
    }
    Ok(())
}

fn verdict_word(passes: bool) -> &'static str {
    if passes { "pass" } else { "block" }
}

/// Writes a line for each offer of EEC1: before the table that is port 1's policy is replaced by the program, and after.
fn tell_outcomes<R: Wait, W: Write>(rt: &R, alloc: Global, output: &mut W) -> Result<(), Fault> {
    let frame = read_frame(&EEC1)?;
    let (table, program) = batches(alloc)?;
    let replaced = replace_between(rt, alloc, frame, table, program)?;
    tell_outcome(&replaced.before, output)?;
    tell_outcome(&replaced.after, output)?;
    Ok(())
}

/// The frame of a record.
fn read_frame(record: &[u8]) -> Result<Frame, Fault> {
    match Frame::read(record) {
        Ok(frame) => Ok(frame),
        Err(why) => Err(Fault::Record(why)),
    }
}

/// The batches with the table, and with the program, as port 1's policy.
fn batches(alloc: Global) -> Result<(Batch, Batch), Fault> {
    let table = batch_for(alloc, PORT, table_policy(alloc, TABLE)?)?;
    Ok((table, program_batch(alloc)?))
}

/// The batch with the program as port 1's policy.
fn program_batch(alloc: Global) -> Result<Batch, Fault> {
    batch_for(alloc, PORT, program_policy(alloc, PROGRAM)?)
}

/// Writes a line for EEC1 in the model of every order of events, where the program is port 1's policy.
fn tell_model<W: Write>(alloc: Global, output: &mut W) -> Result<(), Fault> {
    let frame = read_frame(&EEC1)?;
    if let Some(outcome) = finished(alloc, frame, program_batch(alloc)?)? {
        tell_outcome(&outcome, output)?;
    }
    Ok(())
}

/// Writes what threads did with frames that both policies of port 1 pass: the table, and the program that replaces it meanwhile.
fn tell_threads<R: Threads + Wait + Sync, W: Write>(
    rt: &R,
    alloc: Global,
    output: &mut W,
) -> Result<(), Fault> {
    let forwarded = forward_hours(rt, alloc)?;
    tell_report(&forwarded.report, output)?;
    tell_copies(&forwarded, output)?;
    Ok(())
}

/// Offers the engine's hours four times in a thread, while the program replaces the table.
fn forward_hours<R: Threads + Wait + Sync>(rt: &R, alloc: Global) -> Result<Forwarded, Fault> {
    let frame = read_frame(&ENGINE_HOURS)?;
    let frames = Vec::from_slice(alloc, &[frame; 4])?;
    let (table, program) = batches(alloc)?;
    forward_in_threads(rt, alloc, frames, table, program)
}

/// Writes how many batches were published, and what became of the frames of port 0.
fn tell_report<W: Write>(report: &Report, output: &mut W) -> io::Result<()> {
    let front = report.front;
    let Some(counts) = report.ins.first() else {
        return Ok(());
    };
    let (taken, placed, lost) = (counts.taken, counts.placed, counts.lost);
    writeln!(
        output,
        "threads: front {front}, taken {taken}, placed {placed}, lost {lost}"
    )
}

/// Writes the numbers of the copies, those that were taken out and then those that are left.
fn tell_copies<W: Write>(forwarded: &Forwarded, output: &mut W) -> io::Result<()> {
    write!(output, "copies:")?;
    tell_numbers(&forwarded.copies, output)?;
    for lane in &forwarded.report.lanes {
        tell_numbers(&lane.left, output)?;
    }
    writeln!(output, "")
}

fn tell_numbers<W: Write>(copies: &[FrameCopy], output: &mut W) -> io::Result<()> {
    for copy in copies {
        let number = copy.number;
        write!(output, " {number}")?;
    }
    Ok(())
}

/// Writes the number of a frame, by how many batches it was judged, and for which ports a copy was placed.
fn tell_outcome<W: Write>(outcome: &Outcome, output: &mut W) -> io::Result<()> {
    let (number, front) = (outcome.number, outcome.front);
    write!(output, "frame {number}: front {front}, placed for")?;
    tell_ports(outcome.placed, output)?;
    writeln!(output, "")
}

/// Writes the ports of a set, or that there is none.
fn tell_ports<W: Write>(ports: PortSet, output: &mut W) -> io::Result<()> {
    if ports.len() == 0 {
        return write!(output, " none");
    }
    for port in 0..16 {
        if ports.has(port) {
            write!(output, " {port}")?;
        }
    }
    Ok(())
}
