//! How far a trace was read.

use crate::byte_order::Endian;
use crate::refusal::TraceRefusal;

/// Where the octets read so far end.
#[derive(Clone, Copy)]
pub enum Stage {
    /// Within the header.
    Header,
    /// Behind the header, among records in this byte order.
    Records(Endian),
    /// At a fault, or behind it.
    Failed(TraceRefusal),
}
