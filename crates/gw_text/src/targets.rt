//! The targets of jumps: whether each can be reached, and how far it is.

ghost use Rattle.std.specs.Prelude.{◌≡◌, ◌≤◌, ◌-◌, ◌+◌, [], ℕ, List, None, map, unwrap_or, IfOk, not, ◌<◌};
ghost use Rattle.std.specs.List.{enumerate_from};
ghost use Rattle.gw_text.specs.Assembly as spec;
ghost use Rattle.gw_text.specs.Assembly.{all_target_faults, first_of, is_always, raw_at, target_fault, target_faults};
ghost use Rattle.gw_text.specs.Sources.{instruction_view, place_in};

use crate::forms::Jump;
use crate::line::Instruction;
use crate::places::place_of;
use crate::refusal::AsmRefusal;
use gw_insn::Raw;
use std::alloc::{AllocError, Global};
use std::collections::BTreeMap;

/// The first refusal of a target, of the first instruction that has one: 45, 46 or 47.
pub fn first_bad_target(
    places: &BTreeMap<&[u8], usize>,
    instructions: &[Instruction<'_>],
) -> Option<AsmRefusal>
    ensures { result ≡ first_of (all_target_faults (place_in places.now) (map instruction_view instructions.now)) }
{
    for (place, instruction) in instructions.iter().enumerate() {
        if let Some(refusal) = bad_target(places, place, instruction) {
            return Some(refusal);
        }
    }
    None
}

/// The first refusal of a target of the instruction at a place.
fn bad_target(
    places: &BTreeMap<&[u8], usize>,
    place: usize,
    instruction: &Instruction<'_>,
) -> Option<AsmRefusal>
    ensures { result ≡ first_of (target_faults (place_in places.now) (place, instruction_view instruction.now)) }
{
    for name in &instruction.targets {
        if let Some(refusal) = refuse_target(places, place, instruction, name) {
            return Some(refusal);
        }
    }
    None
}

/// Why the instruction at a place can't jump to a label.
fn refuse_target(
    places: &BTreeMap<&[u8], usize>,
    place: usize,
    instruction: &Instruction<'_>,
    name: &[u8],
) -> Option<AsmRefusal>
    ensures { result ≡ target_fault (place_in places.now) place (instruction_view instruction.now) name.now }
{
    let line = instruction.line;
    let Some(target) = place_of(places, name) else {
        return Some(AsmRefusal::NoSuchLabel { line });
    };
    if target <= place {
        return Some(AsmRefusal::Backward { line });
    }
    if is_conditional(instruction.jump) && target - place - 1 > 255 {
        return Some(AsmRefusal::TooFar { line });
    }
    None
}

/// Whether a jump has its distances in `jt` and `jf`.
fn is_conditional(jump: Jump) -> bool
    ensures { result ≡ not (is_always jump) }
{
    !matches!(jump, Jump::Always)
}

/// The code of instructions whose targets can all be reached.
pub fn encode(
    alloc: Global,
    places: &BTreeMap<&[u8], usize>,
    instructions: &[Instruction<'_>],
) -> Result<Vec<Raw>, AllocError>
    requires near { all_target_faults (place_in places.now) (map instruction_view instructions.now) ≡ [] }
    requires inside { (name : List ℕ) → unwrap_or (place_in places.now name) 0 ≤ 4096 }
    ensures { IfOk result (λ code. code.items
        ≡ map (raw_at (place_in places.now)) (enumerate_from 0 (map instruction_view instructions.now))) }
{
    let mut code = Vec::with_capacity(alloc, instructions.len())?;
    for (place, instruction) in instructions.iter().enumerate() {
        code.push(raw(places, place, instruction))?;
    }
    Ok(code)
}

/// The four fields of the instruction at a place.
fn raw(places: &BTreeMap<&[u8], usize>, place: usize, instruction: &Instruction<'_>) -> Raw
    requires near { target_faults (place_in places.now) (place, instruction_view instruction.now) ≡ [] }
    requires inside { (name : List ℕ) → unwrap_or (place_in places.now name) 0 ≤ 4096 }
    ensures { result ≡ raw_at (place_in places.now) (place, instruction_view instruction.now) }
{
    let plain = Raw {
        code: instruction.code,
        jt: 0,
        jf: 0,
        k: instruction.k,
    };
    match (instruction.jump, instruction.targets.as_slice()) {
        (Jump::Always, [target, ..]) => Raw {
            k: distance(places, place, target) as u32,
            ..plain
        },
        (Jump::IfTrue, [target, ..]) => Raw {
            jt: distance(places, place, target) as u8,
            ..plain
        },
        (Jump::IfFalse, [target, ..]) => Raw {
            jf: distance(places, place, target) as u8,
            ..plain
        },
        (Jump::Either, [target, other, ..]) => Raw {
            jt: distance(places, place, target) as u8,
            jf: distance(places, place, other) as u8,
            ..plain
        },
        _ => plain,
    }
}

/// How many instructions a jump from a place to a label passes.
fn distance(places: &BTreeMap<&[u8], usize>, place: usize, name: &[u8]) -> usize
    ensures { result ≡ spec.distance (place_in places.now) place name.now }
{
    let target = place_of(places, name).unwrap_or(0);
    target.saturating_sub(place).saturating_sub(1)
}
