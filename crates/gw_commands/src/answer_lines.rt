//! What a table does to the frames of a question, as text.

ghost use Rattle.std.specs.Prelude.{◌≡◌, ◌++◌, IfOk, OnOk};
ghost use Rattle.gw_commands.specs.Questions.{sample_line, table_answer_text};

use crate::difference_lines::{push_place, with_side};
use crate::stated::StatedTable;
use gw_input::Line;
use gw_table::{Answer, Sample};
use std::alloc::{AllocError, Global};

/// A line for the answer, or where some frames pass and some do not a line for one of each.
pub fn table_answer_text(
    alloc: Global,
    stated: &StatedTable,
    answer: &Answer,
) -> Result<Vec<u8>, AllocError>
    ensures { IfOk result (λ text. text.items ≡ table_answer_text stated.now answer.now) }
{
    let mut text = Vec::new(alloc);
    match answer {
        Answer::AllPass(_) => text.extend_from_slice(b"all pass\n")?,
        Answer::NonePass(_) => text.extend_from_slice(b"none pass\n")?,
        Answer::SomePass { passing, blocked } => {
            push_sample(&mut text, stated, passing, true)?;
            push_sample(&mut text, stated, blocked, false)?;
        }
        Answer::NoFrame(why) => {
            text.extend_from_slice(b"no frame: ")?;
            text.extend_from_slice(why.text().as_bytes())?;
            text.push(b'\n')?;
        }
    }
    Ok(text)
}

/// The line of a frame: what decides it and what it does, the frame, and its port.
fn push_sample(
    text: &mut Vec<u8>,
    stated: &StatedTable,
    sample: &Sample,
    passes: bool,
) -> Result<(), AllocError>
    ensures { OnOk result (text.new.items ≡ text.old.items ++ sample_line stated.now passes sample.now) }
{
    let side = with_side(Line::new(), stated, sample.by, passes).text(": ");
    text.extend_from_slice(side.as_bytes())?;
    push_place(text, &sample.frame, sample.port)
}
