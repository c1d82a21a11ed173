//! Whole logs that are heard, from a reader.

ghost use Rattle.std.specs.Prelude.{◌≡◌, ◌++◌, ◌∷◌, [], ℕ, List, false, IfOk, IfErr, OnOk};
ghost use Rattle.gw_io.specs.Tries.{inner_of, has_failed};
ghost use Rattle.gw_log.specs.LogLines.{Entry};
ghost use Rattle.gw_judge.specs.Counting.{no_tally, tally_with};
ghost use Rattle.gw_judge.specs.Grouped.{no_groups};
ghost use Rattle.gw_judge.specs.Heard.{IsHeard, IsPartlyHeard, entries_on, unjudged};
ghost use Rattle.gw_judge.specs.Judged.{log_lines};
ghost use Rattle.gw_judge.specs.LineParts.{IsLinePart};
ghost use Rattle.gw_judge.specs.HearingUnderWay.{AreHeard, HasHeard};
ghost use Rattle.gw_judge.specs.declared.groups.Grouping.TheVariants.{Nothing};

use crate::fate::Fate;
use crate::groups::{Grouping, Groups};
use crate::head::Head;
use crate::kept::{MAX_KEPT, ends_line, keep};
use crate::listener::{ListenFault, Listener};
use crate::parts::Parts;
use crate::tally::Tally;
use arrayvec::ArrayVec;
use gw_io::Tried;
use gw_log::read_line;
use std::alloc::{AllocError, Global};
use std::io::Read;

/// Hears each line as soon as its last part comes.
#[derive(Drop)]
pub struct Listening {
    // the line that is unfinished, or its beginning where it is too long
    pub kept: ArrayVec<u8, MAX_KEPT>,
    pub tally: Tally,
}

impl Listening {
    /// Starts before the first octet.
    fn new(groups: Groups) -> Listening
        ensures kept { result.kept.items ≡ [] }
        ensures tally { result.tally ≡ no_tally groups }
    {
        Listening {
            kept: ArrayVec::new(),
            tally: Tally::new(groups),
        }
    }

    /// Takes a part of a line. Where a line feed ends it, the line is heard.
    fn take<L: Listener>(
        &mut self,
        alloc: Global,
        part: &[u8],
        listener: &mut L,
    ) -> Result<(), AllocError>
        requires { IsLinePart part.now }
        ensures { (octets : List ℕ) → HasHeard (L.has_heard listener.old) octets self.old
            → OnOk result (HasHeard (L.has_heard listener.new) (octets ++ part.now) self.new) }
    {
        let is_ended = ends_line(part);
        if is_ended && self.kept.is_empty() && part.len() <= MAX_KEPT {
            // A whole line, as most are, is heard where it stands.
            return hear_line(alloc, part, &mut self.tally, listener);
        }
        keep(&mut self.kept, part);
        if !is_ended {
            return Ok(());
        }
        let heard = hear_line(alloc, self.kept.as_slice(), &mut self.tally, listener);
        self.kept.clear();
        heard
    }

    /// Hears the last line, if no line feed ended it, and returns the tally.
    fn end<L: Listener>(mut self, alloc: Global, listener: &mut L) -> Result<Tally, AllocError>
        ensures { (octets : List ℕ) → HasHeard (L.has_heard listener.old) octets self
            → IfOk result (AreHeard (L.has_heard listener.new) (log_lines octets)) }
    {
        if self.kept.is_empty() {
            return Ok(self.tally);
        }
        match hear_line(alloc, self.kept.as_slice(), &mut self.tally, listener) {
            Ok(()) => Ok(self.tally),
            Err(AllocError) => Err(AllocError),
        }
    }
}

/// Hears a line, and counts it. A line that says no classic frame is counted by its cause.
fn hear_line<L: Listener>(
    alloc: Global,
    line: &[u8],
    tally: &mut Tally,
    listener: &mut L,
) -> Result<(), AllocError>
    ensures tally { tally.new ≡ tally_with (unjudged line.now) tally.old }
    ensures heard { (entries : List Entry) → L.has_heard listener.old entries
        → OnOk result (L.has_heard listener.new (entries ++ entries_on (line.now ∷ []))) }
{
    match read_line(line) {
        Ok(said) => {
            tally.count(Fate::Silent);
            match said {
                Some(said) => listener.hear(alloc, &said),
                None => Ok(()),
            }
        }
        Err(why) => {
            tally.count(Fate::Refused(why));
            Ok(())
        }
    }
}

/// Has a listener hear what the lines of a log say, in order, and returns what is told of the lines: how many there are, and how
/// many say no classic frame for which cause. `head` is given the first octets.
///
/// All lines that a read ended are heard before the next read, in the memory of one line and 65536 octets more, beside what the
/// listener takes. 96 is a failed read, and 100 want of memory.
pub fn listen<L: Listener, R: Read>(
    alloc: Global,
    listener: &mut L,
    head: &mut Head,
    reader: &mut Tried<R>,
) -> Result<Tally, ListenFault>
    requires reader { has_failed reader.old ≡ false }
    requires silent { L.has_heard listener.old [] }
    ensures heard { IfOk result (IsHeard (L.has_heard listener.new)
        (R.remaining (inner_of reader.old)) (R.remaining (inner_of reader.new))) }
    ensures part { IfErr result (IsPartlyHeard
        (R.remaining (inner_of reader.old)) (R.remaining (inner_of reader.new)) (has_failed reader.new)) }
    ensures read { OnOk result (has_failed reader.new ≡ false) }
{
    let mut listening = Listening::new(no_groups(alloc));
    let mut parts = Parts::behind(&[]);
    let mut left = u64::MAX;
    'parts: while left > 0 {
        left -= 1;
        if !parts.next(reader)? {
            return match listening.end(alloc, listener) {
                Ok(tally) => Ok(tally),
                Err(AllocError) => Err(ListenFault::OutOfMemory),
            };
        }
        let part = parts.part();
        head.see(part);
        if listening.take(alloc, part, listener).is_err() {
            return Err(ListenFault::OutOfMemory);
        }
    }
    Err(ListenFault::ReadFault)
}

/// No frame is counted in a group.
fn no_groups(alloc: Global) -> Groups
    ensures { result ≡ no_groups Nothing }
{
    let Ok(groups) = Groups::new(alloc, Grouping::Nothing) else {
        unreachable!()
    };
    groups
}
