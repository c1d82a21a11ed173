//! Why a text is refused.

ghost use Rattle.std.specs.Prelude.{◌≡◌};
ghost use Rattle.gw_text.specs.declared.refusal.AsmRefusal.TheVariants.{OutOfMemory};

use std::alloc::{AllocError, AllocFailed};
use std::error::Error;
use std::fmt;
use std::fmt::{Display, Formatter};

/// Why `assemble` refuses a text, with the line, counted from 1. (`Explained` names the word, label or number too.)
#[derive(Clone, Copy, Debug, PartialEq, Eq)]
pub enum AsmRefusal {
    /// 40: a character that is no part of a token, or a comment that is never closed.
    BadToken { line: usize },
    /// 41: what follows the labels begins with no word of the language.
    UnknownWord { line: usize },
    /// 42: what follows the word is none of its operands.
    BadOperand { line: usize },
    /// 43: a number that is malformed or out of range.
    BadNumber { line: usize },
    /// 44: a label with the name of an earlier one.
    LabelTwice { line: usize },
    /// 45: a jump to a name that no label has.
    NoSuchLabel { line: usize },
    /// 46: a jump to its own place or an earlier one.
    Backward { line: usize },
    /// 47: a conditional jump over more than 255 instructions.
    TooFar { line: usize },
    /// 48: the 4097th instruction.
    TooMany { line: usize },
    /// 49: want of memory, which may stand in place of any answer.
    OutOfMemory,
}

impl AsmRefusal {
    ghost use Rattle.gw_text.specs.Assembly.{refusal_line, refusal_number};

    /// The number of the refusal, 40 to 49.
    pub fn number(self) -> u32
        ensures { result ≡ refusal_number self }
    {
        match self {
            AsmRefusal::BadToken { .. } => 40,
            AsmRefusal::UnknownWord { .. } => 41,
            AsmRefusal::BadOperand { .. } => 42,
            AsmRefusal::BadNumber { .. } => 43,
            AsmRefusal::LabelTwice { .. } => 44,
            AsmRefusal::NoSuchLabel { .. } => 45,
            AsmRefusal::Backward { .. } => 46,
            AsmRefusal::TooFar { .. } => 47,
            AsmRefusal::TooMany { .. } => 48,
            AsmRefusal::OutOfMemory => 49,
        }
    }

    /// The line, counted from 1, that the refusal is about.
    // By reference, since a proof pays for each variant of a copy.
    pub fn line(&self) -> Option<usize>
        ensures { result ≡ refusal_line self.now }
    {
        match *self {
            AsmRefusal::BadToken { line }
            | AsmRefusal::UnknownWord { line }
            | AsmRefusal::BadOperand { line }
            | AsmRefusal::BadNumber { line }
            | AsmRefusal::LabelTwice { line }
            | AsmRefusal::NoSuchLabel { line }
            | AsmRefusal::Backward { line }
            | AsmRefusal::TooFar { line }
            | AsmRefusal::TooMany { line } => Some(line),
            AsmRefusal::OutOfMemory => None,
        }
    }

    /// What is told of the refusal behind the line.
    fn text(&self) -> &'static str {
        match self {
            AsmRefusal::BadToken { .. } =>
                "a character that is no part of a token, or a comment without its */",
            AsmRefusal::UnknownWord { .. } => "no instruction has this word",
            AsmRefusal::BadOperand { .. } => "the instruction does not take these operands",
            AsmRefusal::BadNumber { .. } => "a number that is malformed or out of range",
            AsmRefusal::LabelTwice { .. } => "a label that is defined on an earlier line already",
            AsmRefusal::NoSuchLabel { .. } => "a jump to a label that is not defined",
            AsmRefusal::Backward { .. } =>
                "a jump to its own place or backwards; only jumps ahead are read",
            AsmRefusal::TooFar { .. } =>
                "a conditional jump that passes more than 255 instructions",
            AsmRefusal::TooMany { .. } => "instruction 4097; at most 4096 fit",
            AsmRefusal::OutOfMemory => "memory was refused",
        }
    }
}

impl Display for AsmRefusal {
    fn fmt<W: fmt::Write>(&self, f: &mut Formatter<W>) -> fmt::Result {
        if let Some(line) = self.line() {
            write!(f, "line {line}: ")?;
        }
        f.write_str(self.text())
    }
}

impl Error for AsmRefusal {}

impl From<AllocError> for AsmRefusal {
    ghost from_gives = { λ _ e. e ≡ OutOfMemory };

    fn from(_: AllocError) -> AsmRefusal {
        AsmRefusal::OutOfMemory
    }
}

impl<T: Drop> From<AllocFailed<T>> for AsmRefusal {
    ghost from_gives = { λ _ e. e ≡ OutOfMemory };

    fn from(_: AllocFailed<T>) -> AsmRefusal {
        AsmRefusal::OutOfMemory
    }
}
