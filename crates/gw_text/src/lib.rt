//! Assembler text of classic BPF, read and written: the language of Linux's `bpf_asm` in the spellings of this project.
#![tactic(auto)]

mod assembler;
mod comments;
mod disassembler;
mod explained;
mod forms;
mod line;
mod lines;
mod numbers;
mod parts;
mod places;
mod refusal;
mod source;
mod spelling;
mod targets;
mod tokens;

pub use assembler::assemble;
pub use disassembler::disassemble;
pub use explained::Explained;
pub use refusal::AsmRefusal;
