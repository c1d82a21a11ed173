//! How each instruction is spelled.

ghost use Rattle.std.specs.Prelude.{◌≡◌, ◌++◌, ℕ};
ghost use Rattle.gw_insn.specs.Table.{raw_of};
ghost use Rattle.gw_text.specs.Disassembly.{instruction_text, operand_text};
ghost use Rattle.gw_text.specs.OperandView.{operand_view};

use Operand::{
    Bracket, BracketX, Fixed, HeaderLength, Nothing, Number, Scratch, Target, TargetsNumber,
    TargetsX,
};
use gw_insn::Insn;

/// What stands behind an instruction's word.
#[derive(Clone, Copy)]
pub enum Operand {
    /// Nothing.
    Nothing,
    /// This word.
    Fixed(&'static str),
    /// `[k]`.
    Bracket,
    /// `[x + k]`.
    BracketX,
    /// `M[k]`.
    Scratch,
    /// `#k`.
    Number,
    /// `4*([k]&0xf)`.
    HeaderLength,
    /// The label of a jump.
    Target,
    /// `x`, and the labels of a conditional jump.
    TargetsX,
    /// `#k`, and the labels of a conditional jump.
    TargetsNumber,
}

/// The word of an instruction, and what stands behind it.
pub fn spelling(insn: Insn) -> (&'static str, Operand)
    ensures { (place : ℕ) → result.0.now ++ operand_text (operand_view result.1) place (raw_of insn)
        ≡ instruction_text place (raw_of insn) }
{
    match insn {
        Insn::LoadWord(0xffff_f008) => ("ld", Fixed("ifidx")),
        Insn::LoadWord(_) => ("ld", Bracket),
        Insn::LoadHalf(_) => ("ldh", Bracket),
        Insn::LoadByte(_) => ("ldb", Bracket),
        Insn::LoadWordIndexed(_) => ("ld", BracketX),
        Insn::LoadHalfIndexed(_) => ("ldh", BracketX),
        Insn::LoadByteIndexed(_) => ("ldb", BracketX),
        Insn::LoadLengthA => ("ld", Fixed("len")),
        Insn::LoadLengthX => ("ldx", Fixed("len")),
        Insn::LoadConstantA(_) => ("ld", Number),
        Insn::LoadConstantX(_) => ("ldx", Number),
        Insn::LoadScratchA(_) => ("ld", Scratch),
        Insn::LoadScratchX(_) => ("ldx", Scratch),
        Insn::StoreA(_) => ("st", Scratch),
        Insn::StoreX(_) => ("stx", Scratch),
        Insn::LoadNibble(_) => ("ldx", HeaderLength),
        Insn::AddConstant(_) => ("add", Number),
        Insn::AddIndex => ("add", Fixed("x")),
        Insn::SubConstant(_) => ("sub", Number),
        Insn::SubIndex => ("sub", Fixed("x")),
        Insn::MulConstant(_) => ("mul", Number),
        Insn::MulIndex => ("mul", Fixed("x")),
        Insn::DivConstant(_) => ("div", Number),
        Insn::DivIndex => ("div", Fixed("x")),
        Insn::ModConstant(_) => ("mod", Number),
        Insn::ModIndex => ("mod", Fixed("x")),
        Insn::OrConstant(_) => ("or", Number),
        Insn::OrIndex => ("or", Fixed("x")),
        Insn::AndConstant(_) => ("and", Number),
        Insn::AndIndex => ("and", Fixed("x")),
        Insn::XorConstant(_) => ("xor", Number),
        Insn::XorIndex => ("xor", Fixed("x")),
        Insn::LshConstant(_) => ("lsh", Number),
        Insn::LshIndex => ("lsh", Fixed("x")),
        Insn::RshConstant(_) => ("rsh", Number),
        Insn::RshIndex => ("rsh", Fixed("x")),
        Insn::Negate => ("neg", Nothing),
        Insn::Jump(_) => ("jmp", Target),
        Insn::JumpEqualConstant(..) => ("jeq", TargetsNumber),
        Insn::JumpEqualIndex(..) => ("jeq", TargetsX),
        Insn::JumpGreaterConstant(..) => ("jgt", TargetsNumber),
        Insn::JumpGreaterIndex(..) => ("jgt", TargetsX),
        Insn::JumpAtLeastConstant(..) => ("jge", TargetsNumber),
        Insn::JumpAtLeastIndex(..) => ("jge", TargetsX),
        Insn::JumpSharesBitConstant(..) => ("jset", TargetsNumber),
        Insn::JumpSharesBitIndex(..) => ("jset", TargetsX),
        Insn::ReturnConstant(_) => ("ret", Number),
        Insn::ReturnA => ("ret", Fixed("a")),
        Insn::Tax => ("tax", Nothing),
        Insn::Txa => ("txa", Nothing),
    }
}
