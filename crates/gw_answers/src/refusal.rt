//! Why the program refuses what it was given.

ghost use Rattle.std.specs.Prelude.{◌≡◌};
ghost use Rattle.gw_input.specs.Refused.{refused_line};
ghost use Rattle.gw_answers.specs.declared.refusal.Refusal.TheVariants as refusal;
ghost use Rattle.gw_answers.specs.Refusals.{line_details};

use gw_input::{Line, Place, RecordFault, refused, refused_code};
use gw_insn::ListRefusal;
use gw_io::ReadFault;
use gw_log::LogRefusal;
use gw_table::TableRefusal;
use gw_text::AsmRefusal;
use gw_verify::{Path, Refused};
use std::alloc::{AllocError, AllocFailed};

/// Why the program refuses what it was given.
#[derive(Drop, Debug)]
pub enum Refusal {
    /// 1 to 4 and 97: a text that is no record.
    Record(RecordFault),
    /// The same of a line of the input, counted from 1.
    RecordOnLine {
        line: usize,
        fault: RecordFault,
    },
    /// 101, 103 and 106 to 112: a text that is no frame in candump's form.
    Candump(LogRefusal),
    /// 10 to 13: a text that is no listing.
    Listing(ListRefusal),
    /// 20 to 30: code that is not accepted. For a scratch word that may be unset there is a path that leaves it unset,
    /// unless memory was refused for it.
    Program {
        refused: Refused,
        path: Option<Path>,
    },
    /// 29 of the command `check`: a scratch word that may be unset, a path that leaves it unset, and the lines that tell both.
    Explained {
        refused: Refused,
        path: Path,
        lines: Vec<u8>,
    },
    /// 96: a read failed.
    ReadFault,
    /// 40 to 49: a text that means no code, and the text.
    Assembler {
        why: AsmRefusal,
        text: Vec<u8>,
    },
    /// 50 to 55: a text that is no table, and where it is wrong, if that is known.
    Table {
        why: TableRefusal,
        place: Option<Place>,
    },
    /// 98: an input of more than 1048576 octets.
    TooMuchInput,
    /// 98: a text that is not UTF-8.
    NotUtf8,
    /// 100: a growth of the program's own was refused.
    OutOfMemory,
}

impl Refusal {
    ghost use Rattle.gw_answers.specs.Refusals.{number_of, refusal_line};

    /// The number that the refusal is told by.
    pub fn number(&self) -> u32
        ensures { result ≡ number_of self.now }
    {
        match self {
            Refusal::Record(fault) => fault.number(),
            Refusal::RecordOnLine { fault, .. } => fault.number(),
            Refusal::Candump(why) => why.number(),
            Refusal::Listing(why) => why.number(),
            Refusal::Program { refused, .. } | Refusal::Explained { refused, .. } => refused
                .why
                .number(),
            Refusal::Assembler { why, .. } => why.number(),
            Refusal::ReadFault => 96,
            Refusal::Table { why, .. } => why.number(),
            Refusal::TooMuchInput => 98,
            Refusal::NotUtf8 => 98,
            Refusal::OutOfMemory => 100,
        }
    }

    /// The line that tells the refusal.
    pub fn line(&self) -> Line
        ensures { result ≡ refusal_line self.now }
    {
        let number = self.number();
        match self {
            Refusal::RecordOnLine { line, .. } => refused(number, &[*line as u64]),
            Refusal::Listing(ListRefusal::BadField { index }) => refused(number, &[*index as u64]),
            Refusal::Assembler { why, .. } => refused_on_line(number, why.line()),
            Refusal::Table {
                why: TableRefusal::BadRange { rule, .. },
                ..
            } => refused(number, &[*rule as u64]),
            Refusal::Program { refused, .. } | Refusal::Explained { refused, .. } => {
                refused_code(refused.why, refused.place)
            }
            _ => refused(number, &[]),
        }
    }
}

/// The line of a refusal that is about a line of a text, if it is about one.
fn refused_on_line(number: u32, at: Option<usize>) -> Line
    ensures { result ≡ refused_line number (line_details at) }
{
    match at {
        Some(at) => refused(number, &[at as u64]),
        None => refused(number, &[]),
    }
}

impl From<AllocError> for Refusal {
    ghost from_gives = { λ _ e. e ≡ refusal.OutOfMemory };

    fn from(_: AllocError) -> Refusal {
        Refusal::OutOfMemory
    }
}

impl<T: Drop> From<AllocFailed<T>> for Refusal {
    ghost from_gives = { λ _ e. e ≡ refusal.OutOfMemory };

    fn from(_: AllocFailed<T>) -> Refusal {
        Refusal::OutOfMemory
    }
}

impl From<ReadFault> for Refusal {
    ghost from_gives = { λ _ e. e ≡ refusal.ReadFault };

    fn from(_: ReadFault) -> Refusal {
        Refusal::ReadFault
    }
}
