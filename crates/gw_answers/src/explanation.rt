//! What a refusal says to a person.

use crate::refusal::Refusal;
use gw_input::{ExplainedCode, Place, RecordFault};
use gw_table::TableRefusal;
use gw_text::{AsmRefusal, Explained};
use gw_verify::{Path, Refused};
use std::error::Error;
use std::fmt;
use std::fmt::{Display, Formatter};

impl Display for Refusal {
    fn fmt<W: fmt::Write>(&self, f: &mut Formatter<W>) -> fmt::Result {
        match self {
            Refusal::Record(fault) => tell_record(f, fault),
            Refusal::Candump(why) => write!(f, "{why}"),
            Refusal::RecordOnLine { line, fault } => tell_line(f, *line, fault),
            Refusal::Listing(why) => write!(f, "{why}"),
            Refusal::Explained { refused, path, .. } => explain(f, refused, Some(path)),
            Refusal::Program { refused, path } => explain(f, refused, path.as_ref()),
            Refusal::Assembler { why, text } => tell_assembler(f, *why, text.as_slice()),
            Refusal::ReadFault => f.write_str("the input could not be read"),
            Refusal::Table { why, place } => tell_table(f, why, place.as_ref()),
            Refusal::NotUtf8 => f.write_str("the input is no text: it is not UTF-8"),
            Refusal::TooMuchInput => f.write_str(
                "the input has more than 1048576 octets, the most that are read",
            ),
            Refusal::OutOfMemory => f.write_str("memory was refused"),
        }
    }
}

impl Error for Refusal {}

/// A text that is no record. It may be candump's form of a frame.
fn tell_record<W: fmt::Write>(f: &mut Formatter<W>, fault: &RecordFault) -> fmt::Result {
    write!(f, "{fault}")?;
    match fault {
        RecordFault::NoDigit { octet: b'#', .. } => {
            f.write_str("; `gw verdict --can` and `gw table --can` read candump's form")
        }
        _ => Ok(()),
    }
}

/// A line that is no record. It may be that of a log.
fn tell_line<W: fmt::Write>(f: &mut Formatter<W>, line: usize, fault: &RecordFault) -> fmt::Result {
    write!(f, "line {line}: {fault}")?;
    match fault {
        RecordFault::NoDigit { octet: b'(', .. } => f.write_str("; `gw claims --log` reads a log"),
        _ => Ok(()),
    }
}

/// A text that means no code, with the line of the text.
fn tell_assembler<W: fmt::Write>(
    f: &mut Formatter<W>,
    refusal: AsmRefusal,
    text: &[u8],
) -> fmt::Result {
    match str::from_utf8(text) {
        Ok(text) => write!(f, "{}", Explained { text, refusal }),
        Err(_) => write!(f, "{refusal}"),
    }
}

/// A text that is no table, and where it is wrong. Where a text is no TOML, its error says so itself.
fn tell_table<W: fmt::Write>(
    f: &mut Formatter<W>,
    why: &TableRefusal,
    place: Option<&Place>,
) -> fmt::Result {
    match (why, place) {
        (TableRefusal::BadToml(_), _) | (_, None) => write!(f, "{why}"),
        (_, Some(Place { line, column })) => write!(f, "line {line}, column {column}: {why}"),
    }
}

/// A refusal of code, with a path that shows it where there is one.
fn explain<W: fmt::Write>(
    f: &mut Formatter<W>,
    refused: &Refused,
    path: Option<&Path>,
) -> fmt::Result {
    write!(f, "{}", ExplainedCode { refused, path })
}

/// A file's name, and behind it the line and the column where its text is refused, if they are known: `display.toml:12:3`.
#[derive(Clone, Copy)]
pub struct RefusedFile<'a> {
    pub file: &'a str,
    pub refusal: &'a Refusal,
}

impl<'a> Display for RefusedFile<'a> {
    fn fmt<W: fmt::Write>(&self, f: &mut Formatter<W>) -> fmt::Result {
        let file = self.file;
        match self.refusal {
            Refusal::Table {
                place: Some(place),
                ..
            } => write!(f, "{file}:{place}"),
            Refusal::Assembler { why, .. } => match why.line() {
                Some(line) => write!(f, "{file}:{line}"),
                None => f.write_str(file),
            },
            _ => f.write_str(file),
        }
    }
}
