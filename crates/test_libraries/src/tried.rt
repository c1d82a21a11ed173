//! Each call is handed on, and few are made, which no clause can say in full.

use crate::streams::{Source, WHOLE};
use gw_io::{Pieces, Tried, write_all};
use std::io;
use std::io::{ErrorKind, Read, Write};
use std::test::Fail;

/// A stream that counts its calls, and fails once it had so many.
#[derive(Drop)]
struct Counting {
    calls: u32,
    most: u32,
}

impl Counting {
    fn new(most: u32) -> Self {
        Counting { calls: 0, most }
    }

    fn count(&mut self) -> io::Result<()> {
        if self.calls >= self.most {
            return Err(io::Error::from(ErrorKind::Other));
        }
        self.calls = self.calls.saturating_add(1);
        Ok(())
    }
}

impl Read for Counting {
    fn read(&mut self, _buf: &mut [u8]) -> io::Result<usize> {
        self.count()?;
        Ok(0)
    }
}

impl Write for Counting {
    fn write(&mut self, buf: &[u8]) -> io::Result<usize> {
        self.count()?;
        Ok(buf.len())
    }

    fn flush(&mut self) -> io::Result<()> {
        self.count()
    }
}

#[test]
fn hands_reads_on(rt: HostRuntime) -> Result<(), Fail> {
    let mut stream = Counting::new(2);
    let mut reader = Tried::new(&mut stream);
    let mut octet = [0];
    for reads in 1..=2 {
        assert!(rt; reader.ended() == (reads > 1));
        assert!(rt; reader.read(&mut octet)? == 0);
        assert!(rt; reader.reads() == reads);
        assert!(rt; !reader.failed());
    }
    for reads in 3..=4 {
        assert!(rt; reader.read(&mut octet).is_err());
        assert!(rt; reader.reads() == reads);
        assert!(rt; reader.failed());
    }
    assert!(rt; stream.calls == 2);
    Ok(())
}

#[test]
fn hands_writes_and_flushes_on(rt: HostRuntime) -> Result<(), Fail> {
    let mut stream = Counting::new(2);
    let mut writer = Tried::new(&mut stream);
    assert!(rt; writer.write(b"ab")? == 2);
    writer.flush()?;
    assert!(rt; !writer.failed());
    assert!(rt; writer.flush().is_err());
    assert!(rt; writer.failed());
    assert!(rt; writer.reads() == 0);
    assert!(rt; stream.calls == 2);
    Ok(())
}

#[test]
fn a_write_that_takes_nothing_is_a_failure(rt: HostRuntime) -> Result<(), Fail> {
    let mut room = [0; 1];
    let mut full: &mut [u8] = &mut room;
    let mut writer = Tried::new(&mut full);
    assert!(rt; writer.write(b"a")? == 1);
    assert!(rt; writer.write(b"")? == 0);
    assert!(rt; !writer.failed());
    assert!(rt; writer.write(b"b")? == 0);
    assert!(rt; writer.failed());
    Ok(())
}

#[test]
fn a_whole_text_is_one_write(rt: HostRuntime) {
    let mut stream = Counting::new(1);
    assert!(rt; write_all(&mut Tried::new(&mut stream), &[0; 100_000]).is_ok());
    assert!(rt; stream.calls == 1);
}

#[test]
fn two_hundred_thousand_octets_are_four_pieces(rt: HostRuntime) {
    let octets = [0; 200_000];
    let mut reader = Tried::new(Source::new(&octets, WHOLE));
    let mut pieces = Pieces::new();
    for piece in 0..4 {
        assert!(rt; pieces.read(&mut reader) == Ok(true), "piece {piece}");
    }
    assert!(rt; pieces.read(&mut reader) == Ok(false));
}
