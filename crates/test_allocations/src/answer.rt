//! What a call answered, as one line without memory.

use gw_insn::ListRefusal;
use gw_verify::{Cause, Path};
use std::fmt;
use std::fmt::{Display, Formatter};

/// What a call answered.
#[derive(Drop)]
pub enum Answer {
    /// A number, and the words before and behind it.
    Number(&'static str, u64, &'static str),
    /// What the words say.
    Said(&'static str),
    /// The listing or the assembler text that was written.
    Listing(Vec<u8>),
    /// Code that was refused, and whether the very code came back.
    NotAccepted {
        why: Cause,
        place: usize,
        is_back: bool,
    },
    /// The path that leaves the scratch word unset.
    Path(Path),
    /// A run that took so many frames, how many batches were published, and why the next was not.
    Ran {
        taken: usize,
        front: u32,
        refused: Option<u32>,
    },
    /// Why a text is no listing.
    NoListing(ListRefusal),
}

impl Answer {
    /// Want of memory, where the call has no number of its own for it.
    pub const OUT_OF_MEMORY: Answer = Answer::Number("refused ", 100, "");

    /// So many of what the word behind a space names.
    pub fn count(count: usize, what: &'static str) -> Answer {
        Answer::Number("", count as u64, what)
    }

    /// A refusal by its number alone.
    pub fn refused(number: u32) -> Answer {
        Answer::Number("refused ", u64::from(number), "")
    }
}

impl Display for Answer {
    fn fmt<W: fmt::Write>(&self, f: &mut Formatter<W>) -> fmt::Result {
        match self {
            Answer::Number(before, number, behind) => write!(f, "{before}{number}{behind}"),
            Answer::Said(words) => f.write_str(words),
            Answer::Listing(octets) => f.write_str(str::from_utf8(octets).unwrap_or("no text")),
            Answer::NotAccepted {
                why,
                place,
                is_back,
            } => not_accepted(f, *why, *place, *is_back),
            Answer::Path(path) => places(f, path),
            Answer::Ran {
                taken,
                front,
                refused,
            } => ran(f, *taken, *front, *refused),
            Answer::NoListing(why) => no_listing(f, *why),
        }
    }
}

fn not_accepted<W: fmt::Write>(
    f: &mut Formatter<W>,
    why: Cause,
    place: usize,
    is_back: bool,
) -> fmt::Result {
    refusal(f, why, place)?;
    f.write_str(if is_back {
        ", the code is back"
    } else {
        ", other code is back"
    })
}

/// The number of a cause, and the place and the word that belong to it.
fn refusal<W: fmt::Write>(f: &mut Formatter<W>, why: Cause, place: usize) -> fmt::Result {
    let number = why.number();
    match why {
        Cause::OutOfMemory => write!(f, "refused {number}"),
        Cause::UnsetWord { word } => write!(f, "refused {number} {place} {word}"),
        _ => write!(f, "refused {number} {place}"),
    }
}

fn places<W: fmt::Write>(f: &mut Formatter<W>, path: &Path) -> fmt::Result {
    f.write_str("path")?;
    for place in &path.places {
        write!(f, " {place}")?;
    }
    Ok(())
}

fn ran<W: fmt::Write>(
    f: &mut Formatter<W>,
    taken: usize,
    front: u32,
    refused: Option<u32>,
) -> fmt::Result {
    write!(f, "{taken} frames taken, front {front}")?;
    match refused {
        Some(why) => write!(f, ", then refused {why}"),
        None => Ok(()),
    }
}

fn no_listing<W: fmt::Write>(f: &mut Formatter<W>, why: ListRefusal) -> fmt::Result {
    let number = why.number();
    match why {
        ListRefusal::BadField { index } => write!(f, "refused {number} {index}"),
        _ => write!(f, "refused {number}"),
    }
}
