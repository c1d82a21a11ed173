//! What the tests of several crates are made of.

ghost use Rattle.std.specs.Prelude.{◌≡◌, length, vec_len, IfOk};

use gw_frame::{Frame, FrameRefusal};
use gw_insn::Raw;
use gw_ledger::PortSet;
use gw_policy::{Batch, Policy};
use gw_verify::Program;
use std::alloc::{AllocError, Global};
use std::process::Abort;
use std::sync::Arc;

/// EEC1 of the engine, its speed, with no value known.
pub const ENGINE_SPEED: [u8; 16] = [
    0x8C, 0xF0, 0x04, 0x00, 8, 0, 0, 0, 255, 255, 255, 255, 255, 255, 255, 255,
];

/// A line of a table that gives a key a range.
pub fn push_range(text: &mut String, key: &str, low: u32, high: u32) -> Result<(), AllocError> {
    write!(text, "{key} = [{low}, {high}]\n")
}

/// A record of 16 octets with this identifier word.
pub fn frame(word: u32) -> Result<Frame, FrameRefusal> {
    let [a, b, c, d] = word.to_be_bytes();
    Frame::read(&[a, b, c, d, 8, 0, 0, 0, 0, 0, 0, 0, 0, 0, 0, 0])
}

/// The fields code, jt, jf and k of an instruction.
pub type Row = (u16, u8, u8, u32);

pub fn raw(row: Row) -> Raw {
    let (code, jt, jf, k) = row;
    Raw { code, jt, jf, k }
}

pub fn raws(alloc: Global, rows: &[Row]) -> Result<Vec<Raw>, AllocError>
    ensures { IfOk result (λ code. vec_len code ≡ length rows.now) }
{
    let mut code = Vec::new(alloc);
    for &row in rows {
        code.push(raw(row))?;
    }
    Ok(code)
}

/// The policy of an accepted program.
pub fn policy(alloc: Global, rows: &[Row]) -> Result<Arc<Policy>, AllocError> {
    let Ok(program) = Program::check(alloc, raws(alloc, rows)?) else {
        return Err(AllocError);
    };
    match Arc::new(alloc, Policy::from_program(program)) {
        Ok(policy) => Ok(policy),
        Err(_) => Err(AllocError),
    }
}

/// A batch with one accepted program for these ports. A test that cannot have it stops: a `?` in the test would ask of the
/// prover what becomes of all else that the test holds.
pub fn batch(rt: &impl Abort, alloc: Global, ports: &[u8], rows: &[Row]) -> Batch {
    let mut batch = Batch::new();
    for port in ports {
        let policy = policy(alloc, rows).expect(rt, "a policy");
        assert!(rt; batch.add(*port, policy).is_ok());
    }
    batch
}

/// The program `ret #answer`.
pub fn returning(answer: u32) -> [Row; 1] {
    [(6, 0, 0, answer)]
}

/// A set of ports, as the bits of a number.
pub fn bits(ports: PortSet) -> u32 {
    let mut bits = 0;
    for port in 0..16 {
        if ports.has(port) {
            bits |= 1 << port;
        }
    }
    bits
}
