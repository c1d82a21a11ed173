//! Which port takes which frame of an input.

use gw_judge::NamedInterface;

/// Which port takes which frame of an input.
#[derive(Clone, Copy, Debug)]
pub enum Taking<'a> {
    /// Frame i of a trace is taken at port i mod the number of ports.
    InTurn,
    /// The frame of a log's line is taken at the port that the first of these names gives the line's interface.
    ByInterface(&'a [NamedInterface<'a>]),
}
