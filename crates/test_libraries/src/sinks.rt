//! A run whose sinks count what they are handed, and keep nothing.

ghost use Rattle.std.specs.Prelude.{◌≡◌, ◌≤◌, All, IfOk, length, vec_len};
ghost use Rattle.std.specs.Iterator.Adapters.{repeat_n_count};

use crate::made::{ENGINE_SPEED, batch, returning};
use gw_frame::Frame;
use gw_ledger::Limits;
use gw_ports::{Gate, Sink, run_with};
use std::alloc::{AllocError, Global};
use std::iter::{RepeatN, repeat_n};
use std::test::Fail;

/// How many frames each of three ports offers.
const FRAMES: usize = 1000;

/// How many items it was handed.
#[derive(Drop)]
struct Counter {
    items: u64,
}

impl<T: Drop> Sink<T> for Counter {
    ghost use Rattle.std.specs.Prelude.{◌≡◌, ◌+◌, ◌-◌};
    ghost use Rattle.std.specs.Iterator.{at_most};

    ghost takes = { λ old _ new. new.items ≡ old.items + 1 };

    ghost room = { λ counter. at_most (18446744073709551615 - counter.items) };

    fn has_room_for(&self, items: usize) -> bool {
        items as u64 <= u64::MAX - self.items
    }

    fn take(&mut self, _item: T) {
        self.items += 1;
    }
}

/// Lets each copy wait for room on its lane.
#[derive(Drop)]
struct Patient;

impl Gate for Patient {
    ghost use Rattle.std.specs.Prelude.{true};

    ghost waits = { true };

    fn waits_for_room(&self) -> bool {
        true
    }

    fn enter(&self, _port: u8, _index: usize) {}

    fn leave(&self, _port: u8, _index: usize) {}

    fn before_replace(&self, _index: usize) {}

    fn replaced(&self, _index: usize) {}
}

/// The frames of three ports.
fn inputs(alloc: Global, frame: Frame) -> Result<Vec<RepeatN<Frame>>, AllocError>
    ensures count { IfOk result (λ inputs. vec_len inputs ≡ 3) }
    ensures few { IfOk result (λ inputs. All (λ input. repeat_n_count input ≤ 1000) inputs.items) }
{
    Ok(vec![in alloc;
        repeat_n(frame, FRAMES),
        repeat_n(frame, FRAMES),
        repeat_n(frame, FRAMES),
    ]?)
}

/// A counter for each of three ports.
fn counters(alloc: Global) -> Result<Vec<Counter>, AllocError>
    ensures count { IfOk result (λ counters. vec_len counters ≡ 3) }
    ensures empty { IfOk result (λ counters. All (λ counter. counter.items ≡ 0) counters.items) }
{
    Ok(vec![in alloc;
        Counter { items: 0 },
        Counter { items: 0 },
        Counter { items: 0 },
    ]?)
}

/// The numbers of the counters.
fn are(counters: &[Counter], items: u64) -> bool {
    counters.iter().all(|counter| counter.items == items)
}

#[test]
fn sinks_are_handed_each_outcome_and_each_copy(rt: HostRuntime) -> Result<(), Fail> {
    let alloc = rt.alloc();
    let limits = Limits::new(3, 4, 1, 4294967295)?;
    let first = batch(&rt, alloc, &[0, 1, 2], &returning(1));
    let frame = Frame::read(&ENGINE_SPEED).expect(&rt, "a frame");
    let ended = run_with(
        &rt,
        alloc,
        limits,
        first,
        inputs(alloc, frame)?,
        counters(alloc)?,
        counters(alloc)?,
        Vec::new(alloc),
        &Patient,
    )
    .expect(&rt, "a run");
    assert!(rt; are(&ended.outcomes, FRAMES as u64));
    assert!(rt; are(&ended.out, 2 * FRAMES as u64));
    assert!(rt; ended.inputs.iter().all(|input| input.len() == 0));
    assert!(rt; ended.stops.iter().all(Option::is_none));
    assert!(rt;
        ended
            .report
            .ins
            .iter()
            .all(|ledger| ledger.placed == 2 * FRAMES as u64)
    );
    Ok(())
}
