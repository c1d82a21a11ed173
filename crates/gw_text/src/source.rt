//! A text as its labels and its instructions.

ghost use Rattle.std.specs.Prelude.{◌≡◌, ◌≢◌, ◌++◌, [], Some, map, option_to_list, IfOk, IfErr, OnOk};
ghost use Rattle.gw_text.specs.declared.refusal.AsmRefusal.{AsmRefusal as Refusal};
ghost use Rattle.gw_text.specs.Assembly.{definitions, instructions, line_faults, lines_from, first_of, defined_at};
ghost use Rattle.gw_text.specs.Sources.{instruction_view, label_view};

use crate::line::{Instruction, ParsedLine, parse};
use crate::refusal::AsmRefusal;
use std::alloc::{AllocError, Global};

/// A label, with the place of the next instruction and the line where it stands.
#[derive(Clone, Copy)]
pub struct Label<'a> {
    pub name: &'a [u8],
    pub place: usize,
    pub line: usize,
}

/// The labels and the instructions of a text, in order.
#[derive(Drop)]
pub struct Source<'a> {
    pub labels: Vec<Label<'a>>,
    pub instructions: Vec<Instruction<'a>>,
}

/// Reads lines, of which the first has the number 1. Refusals: that of the first line with one of 40 to 43, and 49.
pub fn read<'a>(alloc: Global, lines: &[&'a [u8]]) -> Result<Source<'a>, AsmRefusal>
    ensures faultless { OnOk result (line_faults (lines_from 1 (map (λ t. t.now) lines.now)) ≡ []) }
    ensures labels { IfOk result (λ source. map label_view source.labels.items
        ≡ definitions (lines_from 1 (map (λ t. t.now) lines.now))) }
    ensures instructions { IfOk result (λ source.
        map instruction_view source.instructions.items ≡ instructions (lines_from 1 (map (λ t. t.now) lines.now))) }
    ensures refused { IfErr result (λ e. e ≢ Refusal.OutOfMemory →
        first_of (line_faults (lines_from 1 (map (λ t. t.now) lines.now))) ≡ Some e) }
{
    let mut labels = Vec::new(alloc);
    let mut instructions = Vec::new(alloc);
    for (index, text) in lines.iter().enumerate() {
        let ParsedLine {
            labels: names,
            instruction,
        } = parse(alloc, index + 1, text)?;
        let place = instructions.as_slice().len();
        define(&mut labels, &names, place, index + 1)?;
        add(&mut instructions, instruction)?;
    }
    Ok(Source {
        labels,
        instructions,
    })
}

/// Adds the instruction of a line that has one.
fn add<'a>(
    instructions: &mut Vec<Instruction<'a>>,
    instruction: Option<Instruction<'a>>,
) -> Result<(), AllocError>
    ensures { OnOk result (instructions.new.items ≡ instructions.old.items ++ option_to_list instruction.entry) }
{
    if let Some(instruction) = instruction {
        instructions.push(instruction)?;
    }
    Ok(())
}

/// Adds the labels of a line, at a place.
fn define<'a>(
    labels: &mut Vec<Label<'a>>,
    names: &[&'a [u8]],
    place: usize,
    line: usize,
) -> Result<(), AllocError>
    ensures { OnOk result (map label_view labels.new.items
        ≡ map label_view labels.old.items ++ defined_at place line (map (λ t. t.now) names.now)) }
{
    for name in names {
        labels.push(Label { name, place, line })?;
    }
    Ok(())
}
