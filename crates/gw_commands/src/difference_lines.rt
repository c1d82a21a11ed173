//! What two tables differ in, as text.

ghost use Rattle.std.specs.Prelude.{◌≡◌, ◌+◌, ◌≤◌, ◌++◌, length, IfOk, OnOk};
ghost use Rattle.gw_commands.specs.Differences.{
  Appends,
  IsDifferenceLine,
  IsDifferencesText,
  IsTextOf,
  frames_line,
  place_text,
  side_text,
};

use crate::frames_line::asked_line;
use crate::stated::StatedTable;
use gw_frame::Frame;
use gw_input::Line;
use gw_log::frame_text;
use gw_table::{Difference, Part, Question};
use std::alloc::{AllocError, Global};

/// A line for each difference of two tables, in their order, or `alike` where there is none.
pub fn differences_text(
    alloc: Global,
    old: &StatedTable,
    new: &StatedTable,
    found: &[Difference],
) -> Result<Vec<u8>, AllocError>
    ensures { IfOk result (λ text. IsDifferencesText old.now new.now found.now text.items) }
{
    let mut text = Vec::new(alloc);
    if found.is_empty() {
        text.extend_from_slice(b"alike\n")?;
    } else {
        push_lines(alloc, &mut text, old, new, found)?;
    }
    Ok(text)
}

/// A line for each difference.
fn push_lines(
    alloc: Global,
    text: &mut Vec<u8>,
    old: &StatedTable,
    new: &StatedTable,
    found: &[Difference],
) -> Result<(), AllocError>
    ensures { OnOk result (Appends (IsTextOf (IsDifferenceLine old.now new.now) found.now) text.old.items text.new.items) }
{
    for difference in found {
        push_difference(alloc, text, old, new, difference)?;
    }
    Ok(())
}

/// The line of a difference: what decides the frame in each table and what it does, the frame, and its port. A second line tells
/// which frames the two parts decide, where ranges say it.
pub fn push_difference(
    alloc: Global,
    text: &mut Vec<u8>,
    old: &StatedTable,
    new: &StatedTable,
    difference: &Difference,
) -> Result<(), AllocError>
    ensures { OnOk result (Appends (IsDifferenceLine old.now new.now difference.now) text.old.items text.new.items) }
{
    let (frame, port) = (&difference.frame, difference.port);
    let did = old.table.verdict(frame, port);
    let does = new.table.verdict(frame, port);
    let line = with_side(Line::new(), old, difference.old, did).text(", ");
    let line = with_side(line, new, difference.new, does).text(": ");
    text.extend_from_slice(line.as_bytes())?;
    push_place(text, frame, port)?;
    let frames = old
        .table
        .pair_frames(difference.old, &new.table, difference.new);
    push_frames(alloc, text, frames)
}

/// A frame and its port, at the end of a line.
pub fn push_place(text: &mut Vec<u8>, frame: &Frame, port: u8) -> Result<(), AllocError>
    ensures { OnOk result (text.new.items ≡ text.old.items ++ place_text frame.now port) }
{
    let place = Line::new().text(" at port ").port(port).text("\n");
    text.extend_from_slice(frame_text(frame).as_bytes())?;
    text.extend_from_slice(place.as_bytes())?;
    Ok(())
}

/// The line of the frames that a question asks for, where there is one.
fn push_frames(
    alloc: Global,
    text: &mut Vec<u8>,
    frames: Option<Question>,
) -> Result<(), AllocError>
    ensures { OnOk result (text.new.items ≡ text.old.items ++ frames_line frames) }
{
    if let Some(question) = frames {
        text.extend_from_slice(asked_line(alloc, &question)?.as_bytes())?;
    }
    Ok(())
}

/// A line with what decides a frame in a table, where that stands, and what it does, behind it.
pub fn with_side(line: Line, stated: &StatedTable, part: Part, passes: bool) -> Line
    requires { length line + 60 ≤ 192 }
    ensures octets { result ≡ line ++ side_text stated.now part passes }
    ensures len { length result ≤ length line + 60 }
{
    let line = match part {
        Part::Rule(number) => line.rule(number, stated.lines.as_slice()),
        Part::Default => line.text("default"),
        Part::Other => line.text("other"),
    };
    line.text(if passes { " passes" } else { " blocks" })
}
