//! Writes that are remembered.

ghost use Rattle.std.specs.Prelude.{◌≡◌, ◌||◌, is_err};
ghost use Rattle.std.specs.Io.{WritesAtMost};
ghost use Rattle.std.specs.Io.KnownBytes.{WriteAppends, Keeps};
ghost use Rattle.gw_io.specs.Calls.{took_nothing, last_error};

use crate::tried::Tried;
use std::io::{Result, Write};

impl<T: Write> Write for Tried<T> {
    ghost use Rattle.gw_io.specs.Tries.{inner_of, has_failed, error_of, has_ended, reads_of};

    ghost contents = { λ t. T.contents (inner_of t) };

    fn write(&mut self, buf: &[u8]) -> Result<usize>
        ensures bound { WritesAtMost result buf.now }
        ensures bytes { WriteAppends (T.contents (inner_of self.old)) (T.contents (inner_of self.new)) result buf.now }
        ensures failed { has_failed self.new ≡ (has_failed self.old || took_nothing result buf.now) }
        ensures error { error_of self.new ≡ last_error (error_of self.old) result }
        ensures ended { has_ended self.new ≡ has_ended self.old }
        ensures reads { reads_of self.new ≡ reads_of self.old }
    {
        let result = self.inner.write(buf);
        match &result {
            Ok(n) => self.failed |= *n == 0 && !buf.is_empty(),
            Err(why) => self.fail(*why),
        }
        result
    }

    fn flush(&mut self) -> Result<()>
        ensures bytes { Keeps (T.contents (inner_of self.old)) (T.contents (inner_of self.new)) }
        ensures failed { has_failed self.new ≡ (has_failed self.old || is_err result) }
        ensures error { error_of self.new ≡ last_error (error_of self.old) result }
        ensures ended { has_ended self.new ≡ has_ended self.old }
        ensures reads { reads_of self.new ≡ reads_of self.old }
    {
        let result = self.inner.flush();
        if let Err(why) = &result {
            self.fail(*why);
        }
        result
    }
}
