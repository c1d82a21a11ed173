//! Whole runs, and runs of one step after another.

use crate::made::{ENGINE_SPEED as R, raw};
use crate::octets::Octets;
use gw_frame::Frame;
use gw_insn::Raw;
use gw_machine::{State, run};
use gw_verify::Program;
use std::alloc::Global;
use std::process::Abort;

/// The answer of a program that makes one step after another, and the number of steps.
fn answer_by_steps(program: &Program, frame: &Frame, port: u8) -> Option<(u32, u32)> {
    let mut state = State::start();
    for n in 0..4096 {
        if let Some(answer) = state.step(program, frame, port) {
            return Some((answer, n + 1));
        }
    }
    None
}

/// The codes of classic BPF.
const CODES: [u16; 49] = [
    0x20, 0x28, 0x30, 0x40, 0x48, 0x50, 0x80, 0x81, 0x00, 0x01, 0x60, 0x61, 0x02, 0x03, 0xb1, 0x04,
    0x0c, 0x14, 0x1c, 0x24, 0x2c, 0x34, 0x3c, 0x94, 0x9c, 0x44, 0x4c, 0x54, 0x5c, 0xa4, 0xac, 0x64,
    0x6c, 0x74, 0x7c, 0x84, 0x05, 0x15, 0x1d, 0x25, 0x2d, 0x35, 0x3d, 0x45, 0x4d, 0x06, 0x16, 0x07,
    0x87,
];

/// An instruction of a known code with small fields: code of such instructions is often accepted.
fn tamed(raw: &Raw) -> Raw {
    Raw {
        code: CODES[(raw.code % 49) as usize],
        jt: raw.jt % 3,
        jf: raw.jf % 3,
        k: raw.k % 16,
    }
}

/// Whether code and a last `ret #1`, if they are accepted, have one answer by `run` and by `step`; None where they are
/// refused.
fn agrees(rt: &impl Abort, mut code: Vec<Raw>) -> Option<bool> {
    let alloc = *code.allocator();
    assert!(rt; code.push(raw((6, 0, 0, 1))).is_ok());
    let frame = Frame::read(&R).expect(rt, "a frame");
    let Ok(program) = Program::check(alloc, code) else {
        return None;
    };
    let answer = run(&program, &frame, 0);
    match answer_by_steps(&program, &frame, 0) {
        Some((by_steps, _)) => Some(by_steps == answer),
        None => Some(false),
    }
}

/// The instructions of the fixed sequence.
fn sequence(rt: &impl Abort, alloc: Global) -> Vec<Raw> {
    let mut octets = Octets::new();
    let mut raws = Vec::new(alloc);
    for _ in 0..8192 {
        assert!(rt; raws.push(octets.next_raw()).is_ok());
    }
    raws
}

/// Code must have one answer, as it is and tamed; whether it is accepted once it is tamed.
fn tamed_is_accepted(rt: &impl Abort, alloc: Global, code: &[Raw]) -> bool {
    let any: Vec<Raw> = code.iter().copied().collect(alloc).expect(rt, "memory");
    assert!(rt; agrees(rt, any) != Some(false));
    let known: Vec<Raw> = code.iter().map(tamed).collect(alloc).expect(rt, "memory");
    let one_answer = agrees(rt, known);
    assert!(rt; one_answer != Some(false));
    one_answer.is_some()
}

#[test]
fn run_and_step(rt: HostRuntime) {
    let raws = sequence(&rt, rt.alloc());
    let mut one_accepted = false;
    for code in raws.chunks(12) {
        one_accepted |= tamed_is_accepted(&rt, rt.alloc(), code);
    }
    assert!(rt; one_accepted);
}
