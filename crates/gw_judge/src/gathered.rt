//! Texts that are written together.

ghost use Rattle.std.specs.Prelude.{◌≡◌, [], false, OnOk};
ghost use Rattle.gw_io.specs.Tries.{inner_of, has_failed};
ghost use Rattle.gw_judge.specs.Judged.{behind_front};
ghost use Rattle.gw_judge.specs.UnderWay.{Puts};

use crate::fault::JudgeFault;
use arrayvec::ArrayVec;
use gw_input::Line;
use gw_io::{Tried, WriteFault, write_all};
use std::io::Write;

/// How many octets are held at most before they are written.
const MAX_HELD: usize = 65_536;

/// Holds texts until they are written, a write for many.
#[derive(Drop)]
pub struct Gathered {
    pub held: ArrayVec<u8, MAX_HELD>,
}

impl Gathered {
    /// Holds nothing.
    pub fn new() -> Gathered
        ensures { result.held.items ≡ [] }
    {
        Gathered {
            held: ArrayVec::new(),
        }
    }

    /// Puts a line behind its front, if it has one. A line without one is not written.
    pub fn put_line<W: Write>(
        &mut self,
        front: Option<Line>,
        line: &[u8],
        writer: &mut Tried<W>,
    ) -> Result<(), JudgeFault>
        requires { has_failed writer.old ≡ false }
        ensures { Puts (W.contents (inner_of writer.old)) (W.contents (inner_of writer.new)) (has_failed writer.new)
            self.old.held.items (behind_front front line.now) result self.new.held.items }
    {
        let Some(front) = front else {
            return Ok(());
        };
        self.put(front.as_bytes(), writer)?;
        self.put(line, writer)
    }

    /// Puts a text behind what is held. Where it does not fit, what is held is written first.
    pub fn put<W: Write>(&mut self, text: &[u8], writer: &mut Tried<W>) -> Result<(), JudgeFault>
        requires { has_failed writer.old ≡ false }
        ensures { Puts (W.contents (inner_of writer.old)) (W.contents (inner_of writer.new)) (has_failed writer.new)
            self.old.held.items text.now result self.new.held.items }
    {
        if text.len() <= self.held.remaining_capacity() {
            let _fits = self.held.try_extend_from_slice(text);
            return Ok(());
        }
        self.flush(writer)?;
        self.put_first(text, writer)
    }

    /// Holds a text where nothing is held. One that does not fit is written.
    fn put_first<W: Write>(&mut self, text: &[u8], writer: &mut Tried<W>) -> Result<(), JudgeFault>
        requires writer { has_failed writer.old ≡ false }
        requires empty { self.old.held.items ≡ [] }
        ensures { Puts (W.contents (inner_of writer.old)) (W.contents (inner_of writer.new)) (has_failed writer.new)
            [] text.now result self.new.held.items }
    {
        if text.len() <= self.held.remaining_capacity() {
            let _fits = self.held.try_extend_from_slice(text);
            return Ok(());
        }
        written(text, writer)
    }

    /// Writes what is held.
    pub fn flush<W: Write>(&mut self, writer: &mut Tried<W>) -> Result<(), JudgeFault>
        requires { has_failed writer.old ≡ false }
        ensures written { Puts (W.contents (inner_of writer.old)) (W.contents (inner_of writer.new)) (has_failed writer.new)
            self.old.held.items [] result self.new.held.items }
        ensures empty { self.new.held.items ≡ [] }
    {
        let flushed = written(self.held.as_slice(), writer);
        self.held.clear();
        flushed
    }
}

/// Writes a text.
fn written<W: Write>(text: &[u8], writer: &mut Tried<W>) -> Result<(), JudgeFault>
    requires { has_failed writer.old ≡ false }
    ensures { Puts (W.contents (inner_of writer.old)) (W.contents (inner_of writer.new)) (has_failed writer.new)
        text.now [] result [] }
{
    match write_all(writer, text) {
        Ok(()) => Ok(()),
        Err(WriteFault) => Err(JudgeFault::WriteFault),
    }
}
