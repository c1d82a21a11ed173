//! The calls that read, check and write programs.

ghost use Rattle.std.specs.Prelude.{◌≤◌, length};

use crate::answer::Answer;
use crate::fault::Fault;
use crate::inputs::{PASS, code_of, program_of, ready, say_ready};
use gw_insn::{Raw, read_listing, write_listing};
use gw_text::{assemble, disassemble};
use gw_verify::{Program, explain};
use std::alloc::Global;
use std::io::Write;

/// `ldh [12]`, `jne #0x806, drop`, `ret #-1`, `drop: ret #0`.
const LISTING: &str = "4,40 0 0 12,21 0 1 2054,6 0 0 4294967295,6 0 0 0,";

/// The same as assembler text.
const ASSEMBLER_TEXT: &str = "ldh [12]\njne #0x806, drop\nret #-1\ndrop: ret #0\n";

/// The same, cut within instruction 2.
const CUT_LISTING: &str = "4,40 0 0 12,21 0 1 2054,6 0 0 42949";

/// A load of an unset word that no path reaches: accepted.
const UNREACHABLE_LOAD: &str = "3,5 0 0 1,96 0 0 3,6 0 0 1,";

/// A load, at place 2, of word 3, which one branch leaves unset: not accepted.
const UNSET_WORD: &str = "4,21 0 1 0,2 0 0 3,96 0 0 3,22 0 0 0,";

pub fn make_read_listing<W: Write>(alloc: Global, output: &mut W) -> Result<Answer, Fault> {
    read(alloc, LISTING, output)
}

pub fn make_read_cut_listing<W: Write>(alloc: Global, output: &mut W) -> Result<Answer, Fault> {
    read(alloc, CUT_LISTING, output)
}

fn read<W: Write>(alloc: Global, text: &str, output: &mut W) -> Result<Answer, Fault> {
    match say_ready(output) {
        Ok(()) => Ok(count_read(alloc, text)),
        Err(fault) => Err(fault),
    }
}

/// How many instructions a text lists.
fn count_read(alloc: Global, text: &str) -> Answer {
    match read_listing(alloc, text.as_bytes()) {
        Ok(code) => Answer::count(code.len(), " instructions"),
        Err(why) => Answer::NoListing(why),
    }
}

pub fn make_write_listing<W: Write>(alloc: Global, output: &mut W) -> Result<Answer, Fault> {
    match ready(output, code_of(alloc, LISTING)) {
        Ok(code) => Ok(listing_of(alloc, &code)),
        Err(fault) => Err(fault),
    }
}

/// The listing of code.
fn listing_of(alloc: Global, code: &[Raw]) -> Answer
    requires { length code.now ≤ 65535 }
{
    match write_listing(alloc, code) {
        Ok(listing) => Answer::Listing(listing),
        Err(_) => Answer::OUT_OF_MEMORY,
    }
}

pub fn make_check<W: Write>(alloc: Global, output: &mut W) -> Result<Answer, Fault> {
    check(alloc, UNREACHABLE_LOAD, output)
}

pub fn make_check_unset_word<W: Write>(alloc: Global, output: &mut W) -> Result<Answer, Fault> {
    check(alloc, UNSET_WORD, output)
}

fn check<W: Write>(alloc: Global, listing: &str, output: &mut W) -> Result<Answer, Fault> {
    match ready(output, code_twice(alloc, listing)) {
        Ok((code, copy)) => Ok(checked(alloc, code, &copy)),
        Err(fault) => Err(fault),
    }
}

/// What the check says of code. The copy tells whether the code comes back.
fn checked(alloc: Global, code: Vec<Raw>, copy: &[Raw]) -> Answer {
    match Program::check(alloc, code) {
        Ok(program) => Answer::Number("accepted ", program.len() as u64, ""),
        Err(refused) => Answer::NotAccepted {
            why: refused.why,
            place: refused.place,
            is_back: refused.code.as_slice() == copy,
        },
    }
}

/// The code of a listing, and a copy of it.
fn code_twice(alloc: Global, listing: &str) -> Result<(Vec<Raw>, Vec<Raw>), Fault> {
    let Ok(code) = code_of(alloc, listing) else {
        return Err(Fault::Unprepared);
    };
    match code.clone() {
        Ok(copy) => Ok((code, copy)),
        Err(_) => Err(Fault::Unprepared),
    }
}

pub fn make_explain<W: Write>(alloc: Global, output: &mut W) -> Result<Answer, Fault> {
    match ready(output, code_of(alloc, UNSET_WORD)) {
        Ok(code) => Ok(match explain(alloc, &code, 2, 3) {
            Ok(Some(path)) => Answer::Path(path),
            Ok(None) => Answer::Said("no path"),
            Err(_) => Answer::OUT_OF_MEMORY,
        }),
        Err(fault) => Err(fault),
    }
}

pub fn make_assemble<W: Write>(alloc: Global, output: &mut W) -> Result<Answer, Fault> {
    match say_ready(output) {
        Ok(()) => Ok(count_assembled(alloc)),
        Err(fault) => Err(fault),
    }
}

/// How many instructions the assembler text has.
fn count_assembled(alloc: Global) -> Answer {
    match assemble(alloc, ASSEMBLER_TEXT) {
        Ok(code) => Answer::count(code.len(), " instructions"),
        Err(why) => Answer::refused(why.number()),
    }
}

pub fn make_disassemble<W: Write>(alloc: Global, output: &mut W) -> Result<Answer, Fault> {
    match ready(output, program_of(alloc, PASS)) {
        Ok(program) => Ok(match disassemble(alloc, &program) {
            Ok(text) => Answer::Listing(text.into_bytes()),
            Err(_) => Answer::OUT_OF_MEMORY,
        }),
        Err(fault) => Err(fault),
    }
}
