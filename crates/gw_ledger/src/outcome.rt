//! What became of a frame, and its copies.

use crate::PortSet;
use gw_frame::Frame;

/// What became of a frame that was taken and is finished.
#[derive(Clone, Copy, PartialEq, Eq, Debug)]
pub struct Outcome {
    /// The number of the frame at its port, from 0 on.
    pub number: u32,
    /// How many batches of policies had been published when it was taken.
    pub front: u32,
    /// Whether its destination is held on its own segment, so that it was offered to no port.
    pub local: bool,
    /// The ports whose policies pass it.
    pub allowed: PortSet,
    /// Those of them to which it was copied. The others had a full lane.
    pub placed: PortSet,
}

/// A copy of a frame on its way to another port.
#[derive(Clone, Copy, PartialEq, Eq, Debug)]
pub struct FrameCopy {
    /// The port at which the frame was taken.
    pub from: u8,
    /// The number of the frame at that port, from 0 on.
    pub number: u32,
    pub frame: Frame,
}
