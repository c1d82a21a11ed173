//! What several calls are made on, and how it is prepared.

ghost use Rattle.std.specs.Prelude.{◌≡◌, ◌≤◌, length, Ok, IfOk};

use crate::fault::Fault;
use gw_frame::Frame;
use gw_insn::{Raw, read_listing};
use gw_policy::{Batch, Policy};
use gw_verify::Program;
use std::alloc::Global;
use std::io::Write;
use std::sync::Arc;

/// `ret #1`.
pub(crate) const PASS: &str = "1,6 0 0 1,";

/// EEC1 of an engine.
pub(crate) const ENGINE_SPEED: [u8; 16] = [
    0x8C, 0xF0, 0x04, 0x00, 8, 0, 0, 0, 255, 255, 255, 255, 255, 255, 255, 255,
];

/// The port whose policy is replaced.
pub(crate) const PORT: u8 = 3;

/// A batch of one pair: the port whose policy is replaced, and the policy of a listing.
pub(crate) fn batch_of(alloc: Global, listing: &str) -> Result<Batch, Fault> {
    batch_for(alloc, PORT, listing)
}

/// A batch of one pair: a port, and the policy of a listing.
pub(crate) fn batch_for(alloc: Global, port: u8, listing: &str) -> Result<Batch, Fault> {
    match policy_of(alloc, listing) {
        Ok(policy) => batch_with(port, policy),
        Err(fault) => Err(fault),
    }
}

/// A batch of one pair: a port and a policy.
fn batch_with(port: u8, policy: Arc<Policy>) -> Result<Batch, Fault> {
    let mut batch = Batch::new();
    match batch.add(port, policy) {
        Ok(()) => Ok(batch),
        Err(_) => Err(Fault::Unprepared),
    }
}

/// The policy of a listing.
fn policy_of(alloc: Global, listing: &str) -> Result<Arc<Policy>, Fault> {
    let Ok(program) = program_of(alloc, listing) else {
        return Err(Fault::Unprepared);
    };
    match Arc::new(alloc, Policy::from_program(program)) {
        Ok(policy) => Ok(policy),
        Err(_) => Err(Fault::Unprepared),
    }
}

/// The program of a listing.
pub(crate) fn program_of(alloc: Global, listing: &str) -> Result<Program, Fault> {
    let Ok(code) = code_of(alloc, listing) else {
        return Err(Fault::Unprepared);
    };
    match Program::check(alloc, code) {
        Ok(program) => Ok(program),
        Err(_) => Err(Fault::Unprepared),
    }
}

/// EEC1 of an engine, as a frame.
pub(crate) fn frame_of() -> Result<Frame, Fault> {
    Frame::read(&ENGINE_SPEED).map_err(|_| Fault::Unprepared)
}

/// Says that a call's arguments are there, and gives them back. It says nothing where they could not be prepared.
pub(crate) fn ready<A: Drop, W: Write>(output: &mut W, made: Result<A, Fault>) -> Result<A, Fault>
    ensures { IfOk result (λ arguments. made ≡ Ok arguments) }
{
    let arguments = made?;
    say_ready(output)?;
    Ok(arguments)
}

/// Says that a call's arguments are there.
pub(crate) fn say_ready<W: Write>(output: &mut W) -> Result<(), Fault> {
    writeln!(output, "ready")?;
    Ok(())
}

/// The code of a listing.
pub(crate) fn code_of(alloc: Global, listing: &str) -> Result<Vec<Raw>, Fault>
    ensures { IfOk result (λ code. length code.items ≤ 65535) }
{
    match read_listing(alloc, listing.as_bytes()) {
        Ok(code) if code.len() <= 65535 => Ok(code),
        _ => Err(Fault::Unprepared),
    }
}
