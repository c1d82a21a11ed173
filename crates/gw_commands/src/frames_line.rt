//! The frames of a question, as a line.

ghost use Rattle.std.specs.Prelude.{◌≡◌, ◌++◌, string_bytes, IfOk, OnOk};
ghost use Rattle.gw_commands.specs.Shown.{asked_line, given_groups, given_numbers};

use crate::show_command::{push_groups, push_numbers};
use gw_table::{Question, Span};
use std::alloc::{AllocError, Global};

/// The line of the frames that the ranges of a question hold of; a range that leaves nothing out is not told.
pub fn asked_line(alloc: Global, question: &Question) -> Result<String, AllocError>
    ensures { IfOk result (λ text. string_bytes text ≡ asked_line question.now) }
{
    let mut text = String::new(alloc);
    text.push_str("    these and no others: extended data frames")?;
    push_given_groups(&mut text, question.pgn)?;
    push_given_numbers(&mut text, "source", question.source)?;
    push_given_numbers(&mut text, "destination", question.destination)?;
    push_given_numbers(&mut text, "from port", question.from)?;
    text.push_str("\n")?;
    Ok(text)
}

/// A range of parameter groups, if one is given.
fn push_given_groups(text: &mut String, range: Option<Span>) -> Result<(), AllocError>
    ensures { OnOk result (string_bytes text.new ≡ string_bytes text.old ++ given_groups range) }
{
    match range {
        Some(range) => push_groups(text, range),
        None => Ok(()),
    }
}

/// A range of addresses or ports, if one is given.
fn push_given_numbers(text: &mut String, word: &str, range: Option<Span>) -> Result<(), AllocError>
    ensures { OnOk result (string_bytes text.new ≡ string_bytes text.old ++ given_numbers word.now range) }
{
    match range {
        Some(range) => push_numbers(text, word, range),
        None => Ok(()),
    }
}
