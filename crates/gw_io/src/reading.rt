//! Reads that are remembered.

ghost use Rattle.std.specs.Prelude.{◌≡◌, ◌+◌, ◌||◌, min, is_err, length};
ghost use Rattle.std.specs.Io.{ReadsAtMost};
ghost use Rattle.std.specs.Io.KnownBytes.{ReadConsumes};
ghost use Rattle.gw_io.specs.Calls.{gave_nothing, last_error};

use crate::tried::Tried;
use std::io::{Read, Result};

impl<T: Read> Read for Tried<T> {
    ghost use Rattle.gw_io.specs.Tries.{inner_of, has_failed, error_of, has_ended, reads_of};

    ghost remaining = { λ t. T.remaining (inner_of t) };

    fn read(&mut self, buf: &mut [u8]) -> Result<usize>
        ensures bound { ReadsAtMost result buf.new }
        ensures bytes { ReadConsumes (T.remaining (inner_of self.old)) (T.remaining (inner_of self.new)) result buf.new }
        ensures failed { has_failed self.new ≡ (has_failed self.old || is_err result) }
        ensures error { error_of self.new ≡ last_error (error_of self.old) result }
        ensures ended { has_ended self.new ≡ (has_ended self.old || gave_nothing result (length buf.new)) }
        ensures reads { reads_of self.new ≡ min (reads_of self.old + 1) 4294967295 }
    {
        self.reads = self.reads.saturating_add(1);
        let result = self.inner.read(buf);
        match &result {
            Ok(n) => self.ended |= *n == 0 && !buf.is_empty(),
            Err(why) => self.fail(*why),
        }
        result
    }
}
