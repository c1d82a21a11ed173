//! The text of a program.

ghost use Rattle.std.specs.Prelude.{◌≡◌, ◌<◌, ◌≤◌, ◌++◌, length, map, OnOk, IfOk, string_bytes};
ghost use Rattle.gw_insn.specs.Table.{raw_of};
ghost use Rattle.gw_text.specs.Assembly.{Assembles};
ghost use Rattle.gw_text.specs.Disassembly.{FieldsFit, branches_at, disassembly, instruction_text, line_of, operand_text};
ghost use Rattle.gw_text.specs.OperandView.{operand_view};

use crate::spelling::{Operand, spelling};
use gw_insn::{Insn, Raw, encode};
use gw_verify::Program;
use std::alloc::{AllocError, Global};

/// The text of a program, a line for each instruction: its label `l<place>:`, a tab, and the instruction with `#k` in
/// hexadecimal and everything else in decimal. The assembler reads it back to the program's code, with 0 in the fields that
/// an instruction does not use.
pub fn disassemble(alloc: Global, program: &Program) -> Result<String, AllocError>
    ensures text { IfOk result (λ text. string_bytes text ≡ disassembly (map raw_of program.now)) }
    ensures read_back { IfOk result (λ text. Assembles (string_bytes text) (map raw_of program.now)) }
{
    let mut text = String::new(alloc);
    for (place, insn) in program.code().iter().enumerate() {
        write_line(&mut text, place, *insn)?;
    }
    Ok(text)
}

/// Writes the line of an instruction.
fn write_line(text: &mut String, place: usize, insn: Insn) -> Result<(), AllocError>
    requires { place < 4096 }
    ensures line { OnOk result (string_bytes text.new ≡ string_bytes text.old ++ line_of (place, raw_of insn)) }
    ensures fits { FieldsFit (raw_of insn) }
{
    write!(text, "l{place}:\t")?;
    write_instruction(text, place, insn)?;
    text.push('\n')
}

/// Writes an instruction.
fn write_instruction(text: &mut String, place: usize, insn: Insn) -> Result<(), AllocError>
    requires { place < 4096 }
    ensures text { OnOk result (string_bytes text.new ≡ string_bytes text.old ++ instruction_text place (raw_of insn)) }
    ensures fits { FieldsFit (raw_of insn) }
{
    let raw = encode(insn);
    let (word, operand) = spelling(insn);
    text.push_str(word)?;
    write_operand(text, place, operand, raw)
}

/// Writes what stands behind the word of an instruction with these fields.
fn write_operand(
    text: &mut String,
    place: usize,
    operand: Operand,
    raw: Raw,
) -> Result<(), AllocError>
    requires { place < 4096 }
    ensures { OnOk result (string_bytes text.new ≡ string_bytes text.old ++ operand_text (operand_view operand) place raw) }
{
    let k = raw.k;
    match operand {
        Operand::Nothing => Ok(()),
        Operand::Fixed(word) => write!(text, " {word}"),
        Operand::Bracket => write!(text, " [{k}]"),
        Operand::BracketX => write!(text, " [x + {k}]"),
        Operand::Scratch => write!(text, " M[{k}]"),
        Operand::Number => write!(text, " #0x{k:x}"),
        Operand::HeaderLength => write!(text, " 4*([{k}]&0xf)"),
        Operand::Target => write!(text, " l{}", place + 1 + k as usize),
        Operand::TargetsX => {
            text.push_str(" x")?;
            branches(text, place, raw.jt, raw.jf)
        }
        Operand::TargetsNumber => {
            write!(text, " #0x{k:x}")?;
            branches(text, place, raw.jt, raw.jf)
        }
    }
}

/// Writes the labels of a conditional jump.
fn branches(text: &mut String, place: usize, jt: u8, jf: u8) -> Result<(), AllocError>
    requires { place < 4096 }
    ensures { OnOk result (string_bytes text.new ≡ string_bytes text.old ++ branches_at place jt jf) }
{
    let holds = place + 1 + usize::from(jt);
    let fails = place + 1 + usize::from(jf);
    write!(text, ", l{holds}, l{fails}")
}
