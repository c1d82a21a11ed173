//! Verdicts whose table, index and program are in no cache. The call promises no more than that it returns: the driver compares
//! the counts that it answers.

use crate::interchange::Record;
use crate::loading::{load_frames, load_index, load_table};
use gw_frame::Frame;
use gw_machine::run;
use gw_table::{IndexedTable, Table, compile};
use gw_verify::Program;
use std::alloc::Global;

/// One of many forms of a table, which share no memory.
#[derive(Drop)]
enum Form {
    Rules(Table),
    Index(IndexedTable),
    Program(Program),
}

impl Form {
    fn passes(&self, frame: &Frame) -> bool {
        match self {
            Form::Rules(table) => table.verdict(frame, 0),
            Form::Index(table) => table.verdict(frame, 0),
            Form::Program(program) => run(program, frame, 0) != 0,
        }
    }
}

/// Adds up the numbers of `walk` in each round, and then judges each record by a table of its own, which is that of a TOML
/// text: by its rules (`way` 1), by its index (2), by its program (3), or not at all. Answers how many frames passed, with
/// that sum. `None`: the text is no table, the octets of a record are no record, or memory was refused.
pub fn pass_cold(
    alloc: Global,
    text: &[u8],
    records: &[Record],
    walk: &[u64],
    rounds: u32,
    way: u32,
) -> Option<u64> {
    let frames = load_frames(alloc, records)?;
    let forms = forms_of(alloc, text, if way > 0 { frames.len() } else { 0 }, way)?;
    let mut passed = 0;
    for _ in 0..rounds {
        passed = walk
            .iter()
            .fold(passed, |sum: u64, word| sum.wrapping_add(*word));
        passed = pass_each(&forms, &frames, passed);
    }
    Some(passed)
}

/// So many forms of a table.
fn forms_of(alloc: Global, text: &[u8], count: usize, way: u32) -> Option<Vec<Form>> {
    let mut forms = Vec::new(alloc);
    for _ in 0..count {
        forms.push(form_of(alloc, text, way)?).ok()?;
    }
    Some(forms)
}

fn form_of(alloc: Global, text: &[u8], way: u32) -> Option<Form> {
    Some(match way {
        1 => Form::Rules(load_table(alloc, text)?),
        2 => Form::Index(load_index(alloc, text)?),
        _ => Form::Program(compile(alloc, &load_table(alloc, text)?).ok()?),
    })
}

fn pass_each(forms: &[Form], frames: &[Frame], passed: u64) -> u64 {
    let mut passed = passed;
    for (form, frame) in forms.iter().zip(frames) {
        passed = passed.wrapping_add(u64::from(form.passes(frame)));
    }
    passed
}
