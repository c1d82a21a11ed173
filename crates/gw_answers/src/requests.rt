//! What the commands are asked for: what the arguments of the command line say.

ghost use Rattle.std.specs.Prelude.{◌≡◌};

use crate::frames::FrameWord;
use gw_judge::Grouping;
use gw_table::Question;

/// A command that reads its input whole, with what its arguments name.
#[derive(Clone, Copy)]
pub enum Query<'a> {
    /// The verdict of a listing's program on a frame that was taken at a port. Without a word for the frame, its record stands on
    /// the first line of the input. With `tells` the status 3 tells that the frame is blocked.
    Verdict {
        port: u8,
        frame: Option<FrameWord<'a>>,
        tells: bool,
    },
    /// How many instructions a listing's accepted program has. A path to the read of an unset word stands before its refusal.
    Check,
    /// The listing of the code that an assembler text means.
    Asm,
    /// The text of a listing's accepted program.
    List,
    /// Who holds which address after the records that were heard.
    Claims,
    /// The listing of a table's program, or the table's verdict on a frame that was taken at a port. With `why` a person is told
    /// which rule decides the frame. With `tells` the status 3 tells that the frame is blocked.
    Table {
        port: u8,
        frame: Option<FrameWord<'a>>,
        why: bool,
        tells: bool,
    },
    /// What the rules of a table say, in words.
    Show,
    /// What a table does to the frames that are asked for.
    Ask(Question),
}

impl<'a> Query<'a> {
    ghost use Rattle.gw_answers.specs.Requests.{tells_blocked};

    /// Whether the exit status is to tell that a frame is blocked.
    pub fn tells_blocked(self) -> bool
        ensures { result ≡ tells_blocked self.entry }
    {
        match self {
            Query::Verdict { tells, .. } | Query::Table { tells, .. } => tells,
            _ => false,
        }
    }
}

/// What a policy's file holds.
#[derive(Clone, Copy, PartialEq, Eq, Debug)]
pub enum PolicyKind {
    Table,
    Listing,
}

/// How counts are written.
#[derive(Clone, Copy, PartialEq, Eq, Debug)]
pub enum CountForm {
    /// As lines of words and numbers.
    Lines,
    /// As one JSON object of numbers.
    Json,
}

/// What is written of a log.
#[derive(Clone, Copy, PartialEq, Eq, Debug)]
pub enum Shown {
    /// How many frames passed and were blocked, by which part of a table, or in which group, in this form.
    Counts(CountForm),
    /// The lines whose frame passes.
    Passed,
    /// The lines whose frame is blocked.
    Blocked,
    /// The lines that say a frame, each behind its verdict and what decides it.
    Each,
}

/// What is asked of a log.
#[derive(Clone, Copy, PartialEq, Eq, Debug)]
pub struct LogQuery {
    pub kind: PolicyKind,
    /// The port at which the frames were taken.
    pub port: u8,
    pub shown: Shown,
    /// In which groups frames are counted, where counts are shown. By nothing they are counted by the parts of a table.
    pub by: Grouping,
    /// Whether the first line that says no classic frame, or the first record that is none, ends the command.
    pub strict: bool,
}

/// The names of the files of two tables.
#[derive(Clone, Copy, PartialEq, Eq, Debug)]
pub struct TableFiles<'a> {
    pub old: &'a str,
    pub new: &'a str,
}

/// The files of an egress port's tables: before a change, and after it. Where no file is named, the table is that of an empty
/// text, which blocks every frame.
#[derive(Clone, Copy, PartialEq, Eq, Debug)]
pub struct PortFiles<'a> {
    pub old: Option<&'a str>,
    pub new: Option<&'a str>,
}
