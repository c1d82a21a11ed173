//! Streams that fail. One type reads and one writes, for a command is compiled anew for each type of its streams.

use std::alloc::Global;
use std::io;
use std::io::{ErrorKind, Read, Write};

/// Every octet at once.
pub const WHOLE: usize = usize::MAX;

/// A reader of octets that fails at some of its calls.
#[derive(Drop)]
pub struct Source<'a> {
    octets: &'a [u8],
    /// The most octets of a call.
    piece: usize,
    /// The calls that fail, counted from 0: from this one on, and before that one.
    failing: (usize, usize),
    calls: usize,
}

impl<'a> Source<'a> {
    /// A reader that never fails.
    pub fn new(octets: &'a [u8], piece: usize) -> Source<'a> {
        Source::failing(octets, piece, (0, 0))
    }

    /// A reader that gives one octet a call, and fails for good once it gave so many.
    pub fn breaking(octets: &'a [u8], left: usize) -> Source<'a> {
        Source::failing(octets, 1, (left, usize::MAX))
    }

    /// A reader that fails at its first call and then goes on.
    pub fn stumbling(octets: &'a [u8]) -> Source<'a> {
        Source::failing(octets, WHOLE, (0, 1))
    }

    fn failing(octets: &'a [u8], piece: usize, failing: (usize, usize)) -> Source<'a> {
        Source {
            octets,
            piece,
            failing,
            calls: 0,
        }
    }
}

impl Read for Source<'_> {
    fn read(&mut self, buf: &mut [u8]) -> io::Result<usize> {
        let (first, end) = self.failing;
        let fails = first <= self.calls && self.calls < end;
        self.calls = self.calls.saturating_add(1);
        if fails {
            return Err(io::Error::from(ErrorKind::Other));
        }
        let n = self.piece.min(buf.len()).min(self.octets.len());
        buf[..n].copy_from_slice(&self.octets[..n]);
        self.octets = &self.octets[n..];
        Ok(n)
    }
}

/// A writer that keeps what it took, and fails once it took as much as it has room for.
#[derive(Drop)]
pub struct Sink {
    pub taken: Vec<u8>,
    /// The most octets of a call.
    piece: usize,
    room: usize,
}

impl Sink {
    /// A writer that takes so many octets a call, and so many in all.
    pub fn new(alloc: Global, piece: usize, room: usize) -> Sink {
        Sink {
            taken: Vec::new(alloc),
            piece,
            room,
        }
    }
}

impl Write for Sink {
    fn write(&mut self, buf: &[u8]) -> io::Result<usize> {
        let n = self.piece.min(self.room).min(buf.len());
        if n == 0 && !buf.is_empty() {
            return Err(io::Error::from(ErrorKind::Other));
        }
        self.taken.extend_from_slice(&buf[..n])?;
        self.room -= n;
        Ok(n)
    }

    fn flush(&mut self) -> io::Result<()> {
        Ok(())
    }
}
