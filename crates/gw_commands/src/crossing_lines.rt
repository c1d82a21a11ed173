//! What the tables of a gateway's ports differ in, as text.

ghost use Rattle.std.specs.Prelude.{◌≡◌, ◌<◌, ◌++◌, All, length, IfOk, OnOk};
ghost use Rattle.gw_commands.specs.Differences.{Appends, IsTextOf};
ghost use Rattle.gw_commands.specs.PortDifferences.{IsCrossingLine, IsCrossingsText, port_text};

use crate::difference_lines::push_difference;
use crate::stated::StatedChange;
use gw_input::Line;
use gw_table::Crossing;
use std::alloc::{AllocError, Global};

/// A line for each crossing, in their order, or `alike` where there is none.
pub fn crossings_text(
    alloc: Global,
    stated: &[StatedChange],
    found: &[Crossing],
) -> Result<Vec<u8>, AllocError>
    requires { All (λ crossing. crossing.egress < length stated.now) found.now }
    ensures { IfOk result (λ text. IsCrossingsText stated.now found.now text.items) }
{
    let mut text = Vec::new(alloc);
    if found.is_empty() {
        text.extend_from_slice(b"alike\n")?;
    } else {
        push_crossings(alloc, &mut text, stated, found)?;
    }
    Ok(text)
}

/// A line for each crossing.
fn push_crossings(
    alloc: Global,
    text: &mut Vec<u8>,
    stated: &[StatedChange],
    found: &[Crossing],
) -> Result<(), AllocError>
    requires { All (λ crossing. crossing.egress < length stated.now) found.now }
    ensures { OnOk result (Appends (IsTextOf (IsCrossingLine stated.now) found.now) text.old.items text.new.items) }
{
    for crossing in found {
        push_crossing(alloc, text, stated, crossing)?;
    }
    Ok(())
}

/// The line of a crossing: its egress port, and what the tables of this port differ in.
fn push_crossing(
    alloc: Global,
    text: &mut Vec<u8>,
    stated: &[StatedChange],
    crossing: &Crossing,
) -> Result<(), AllocError>
    requires { crossing.now.egress < length stated.now }
    ensures { OnOk result (Appends (IsCrossingLine stated.now crossing.now) text.old.items text.new.items) }
{
    let change = &stated[usize::from(crossing.egress)];
    push_port(text, crossing.egress)?;
    push_difference(alloc, text, &change.old, &change.new, &crossing.difference)?;
    Ok(())
}

/// The port at which frames leave, in front of what is told of them.
fn push_port(text: &mut Vec<u8>, egress: u8) -> Result<(), AllocError>
    ensures { OnOk result (text.new.items ≡ text.old.items ++ port_text egress) }
{
    let port = Line::new().text("to port ").port(egress).text(": ");
    text.extend_from_slice(port.as_bytes())
}
