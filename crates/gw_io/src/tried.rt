//! Readers and writers that remember whether a call failed and why, and whether a read met the end.

ghost use Rattle.std.specs.Prelude.{◌≡◌, true, false, Some, None};

use std::io::Error;

/// Wraps a reader or a writer, and hands each call on to it. It remembers whether a call failed, by which error, and whether a
/// read met the end, and counts the reads.
#[derive(Drop)]
pub struct Tried<T> {
    pub(crate) inner: T,
    pub(crate) failed: bool,
    pub(crate) error: Option<Error>,
    pub(crate) ended: bool,
    pub(crate) reads: u32,
}

impl<T> Tried<T> {
    ghost use Rattle.gw_io.specs.Tries.{inner_of, has_failed, error_of, has_ended, reads_of};

    /// Wraps a reader or a writer that was not called before.
    pub fn new(inner: T) -> Self
        ensures inner { inner_of result ≡ inner }
        ensures failed { has_failed result ≡ false }
        ensures error { error_of result ≡ None }
        ensures ended { has_ended result ≡ false }
        ensures reads { reads_of result ≡ 0 }
    {
        Tried {
            inner,
            failed: false,
            error: None,
            ended: false,
            reads: 0,
        }
    }

    /// Whether a call failed, or a write of at least one octet took nothing. It stays true.
    pub fn failed(&self) -> bool
        ensures { result ≡ has_failed self.now }
    {
        self.failed
    }

    /// The error by which a call failed last. None where none did, and where a write took nothing.
    pub fn error(&self) -> Option<Error>
        ensures { result ≡ error_of self.now }
    {
        self.error
    }

    /// Whether a read of at least one octet gave none: the end of the input. It stays true.
    pub fn ended(&self) -> bool
        ensures { result ≡ has_ended self.now }
    {
        self.ended
    }

    /// How many read calls there were, up to 4294967295.
    pub fn reads(&self) -> u32
        ensures { result ≡ reads_of self.now }
    {
        self.reads
    }

    /// Remembers that a call failed.
    pub(crate) fn fail(&mut self, why: Error)
        ensures { self.new ≡ record self.old { failed = true; error = Some why } }
    {
        (self.failed, self.error) = (true, Some(why));
    }
}
