//! How many batches are published: the number that `left_right` shows to the watches.

ghost use Rattle.std.specs.Prelude.{◌≡◌, ◌^◌, ◌<◌, [], ◌∷◌, ◌++◌, drop, fold, max, IfOk, IsOk, MatchResult};
ghost use Rattle.gw_board.specs.Ends.{no_visits, Finds};
ghost use Rattle.gw_board.specs.Rules.{FoundBelow};

use core::mem::replace_with;
use crossbeam_utils::rule::{Outcome, Protocol};
use left_right::Absorb;
use left_right::reader::{Reader, Reading};
use left_right::writer::Writer;
use std::alloc::{AllocError, Global};
use std::marker::Model;
use std::mem::ManuallyDrop;
use std::sync::Wait;

/// How many batches are published. An operation is the next such number, and it never falls.
#[derive(Clone, Copy)]
pub struct Count(pub u64);

impl Absorb<u64> for Count {
    type State = u64;

    ghost state = { λ c. c.0 };

    ghost applied = { max };

    ghost never_fails = { Unit {0} };

    fn absorb_first(&mut self, operation: &u64, _other: &Count) -> Result<(), AllocError> {
        self.0 = self.0.max(*operation);
        Ok(())
    }
}

/// How often an end entered, and the number that it found the last time. No value of it is made.
pub struct Visits {
    pub entered: u64,
    pub found: u64,
}

/// The rule that `left_right` keeps: no end found a greater number than the one that is shown.
pub struct NeverFalls;

impl Protocol<Count, Visits> for NeverFalls {
    ghost use Rattle.gw_board.specs.Ends.{no_visits};
    ghost use Rattle.gw_board.specs.Rules.{FoundBelow};

    ghost holds = { λ count. FoundBelow count.0 };

    ghost first = { no_visits };
}

// What the step tells by which a watch enters.
struct Entering;

impl Outcome<Count, Visits> for Entering {
    ghost use Rattle.gw_board.specs.Ends.{Finds};

    ghost then = { λ before count _ after. Finds count.0 before after };
}

// The step by which the operator shows the next number tells nothing.
struct ShowingNext;

impl Outcome<Count, Visits> for ShowingNext {
    ghost then = { λ _ _ _ _. Unit {0} };
}

/// A watch's end, which never waits. Contracts see it as `Visits`.
#[derive(Drop)]
pub struct CountReader {
    reader: Reader<Count, Visits, NeverFalls>,
}

impl Model for CountReader {
    ghost use Rattle.left_right.specs.Sides.{view as view_of};
    ghost use Rattle.gw_board.specs.declared.count.Visits.{Visits};

    ghost Value = { Visits };

    ghost view = { λ r. view_of r.reader.place };
}

impl CountReader {
    /// Enters, and takes the number that is shown at that step. The reader comes back where the operator is at its end.
    #[inline(always)]
    pub fn enter(self) -> Result<(CountReading, u64), CountReader>
        ensures { MatchResult result (λ entered. Finds entered.1 self entered.0) (λ back. back ≡ self) }
    {
        match self.reader.enter_as::<Entering>() {
            Ok(reading) => {
                let count = reading.get().0;
                Ok((CountReading { reading }, count))
            }
            Err(reader) => Err(CountReader { reader }),
        }
    }
}

/// A watch's end that has entered: the number that it found is not replaced by the next but one before it leaves. It is not
/// `Drop`: end it by `leave`. Contracts see it as `Visits`.
pub struct CountReading {
    reading: Reading<Count, Visits, NeverFalls>,
}

impl Model for CountReading {
    ghost use Rattle.left_right.specs.Sides.{view as view_of};
    ghost use Rattle.gw_board.specs.declared.count.Visits.{Visits};

    ghost Value = { Visits };

    ghost view = { λ r. view_of r.reading.place };
}

impl CountReading {
    ghost use Rattle.std.specs.Prelude.{◌≡◌};

    #[inline(always)]
    pub fn leave(self) -> CountReader
        ensures { result ≡ self }
    {
        let CountReading { reading } = self;
        CountReader {
            reader: reading.leave(),
        }
    }
}

/// The operator's end. Contracts see it as `Showing`.
pub struct CountWriter {
    writer: Writer<Count, u64, Visits, NeverFalls>,
}

impl Model for CountWriter {
    ghost use Rattle.std.specs.Prelude.{drop};
    ghost use Rattle.gw_board.specs.Ends.{Showing};

    ghost Value = { Showing };

    ghost view = { λ w. record { shown = w.writer.desk.shown.value.0; pending = drop w.writer.behind w.writer.log.items } };
}

impl CountWriter {
    ghost use Rattle.gw_board.specs.Ends.{Showing};

    /// Shows 0, to as many readers as are asked for.
    pub fn new(alloc: Global, readers: usize) -> Result<CountWriter, AllocError>
        requires { (0 < readers) × (readers < 2 ^ 32) }
        ensures { IfOk result (λ w. w ≡ record { shown = 0; pending = [] }) }
    {
        let writer = Writer::new(alloc, Count(0), Count(0), readers)?;
        Ok(CountWriter { writer })
    }

    /// A reader that never entered.
    pub fn reader(&self) -> Result<CountReader, AllocError>
        ensures { IfOk result (λ reader. reader ≡ no_visits) }
    {
        let reader = self.writer.factory().reader()?;
        Ok(CountReader { reader })
    }

    /// Takes in the next count, which readers do not find yet. It comes back where memory was refused.
    pub fn append(&mut self, count: u64) -> Result<(), u64>
        ensures { MatchResult result
            (λ _. self.new ≡ record self.old { pending = self.old.pending ++ count ∷ [] })
            (λ back. (self.new ≡ self.old) × (back ≡ count)) }
    {
        self.writer.append(count)
    }

    /// Shows the greatest count that was taken in, and waits until no reader has the one before.
    pub fn publish<R: Wait>(&mut self, rt: &R)
        ensures { self.new ≡ record { shown = fold max self.old.shown self.old.pending; pending = [] } }
    {
        let published = replace_with(
            &mut self.writer,
            rt,
            |writer: Writer<Count, u64, Visits, NeverFalls>, rt: &R| show_next(writer, rt),
        );
        match published {
            Ok(()) => (),
            Err(_) => unreachable!(),
        }
    }

    /// Gives its memory back, once no reader is inside.
    pub fn end<R: Wait>(self, rt: &R) {
        let CountWriter { writer } = self;
        writer.take(rt);
    }
}

// Shows what was taken in. The number does not fall, which the rule asks for.
fn show_next<R: Wait>(
    writer: Writer<Count, u64, Visits, NeverFalls>,
    rt: &R,
) -> (
    Writer<Count, u64, Visits, NeverFalls>,
    Result<(), AllocError>,
)
    ensures succeeds { IsOk result.1 }
    ensures shown { result.0.desk.shown.value.0 ≡ fold max writer.desk.shown.value.0 (drop writer.behind writer.log.items) }
    ensures pending { drop result.0.behind result.0.log.items ≡ [] }
{
    writer.publish_as::<ShowingNext, R>(rt)
}

// A writer ends by waiting for its readers, which a drop may not do: it has no `Wait`. So where an operator is dropped the
// writer's few blocks (the two numbers, a short log, the table of readers) stay; `end` gives them back.
impl Drop for CountWriter {
    fn drop(self) {
        let CountWriter { writer } = self;
        let _kept = unsafe { ManuallyDrop::new_unchecked(writer) };
    }
}
