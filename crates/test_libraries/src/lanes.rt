//! The worked example: a full lane, and one that has room again.

ghost use Rattle.std.specs.Prelude.{◌≡◌, IfSome, map};
ghost use Rattle.gw_lanes.specs.Ends.{new_outlet};

use crate::made::ENGINE_SPEED;
use gw_frame::Frame;
use gw_lanes::{LaneEnds, LaneIn, LaneOut, finish, lanes};
use gw_ledger::{FrameCopy, Limits};
use std::alloc::Global;
use std::process::Abort;
use std::test::Fail;
use std::thread::{Threads, join};

/// The ends of the first lane, from port 0 to port 1.
fn first_lane(ends: LaneEnds) -> Option<(LaneIn, LaneOut)>
    requires { ends.outs.items ≡ map new_outlet ends.ins.items }
    ensures { IfSome result (λ lane. lane.0.ring ≡ lane.1.ring) }
{
    let LaneEnds { ins, outs } = ends;
    let from = ins.into_iter().next()?;
    let to = outs.into_iter().next()?;
    Some((from, to))
}

/// Places a copy of a frame of port 0, and answers the number of a copy that came back.
fn push(from: &mut LaneIn, frame: Frame, number: u32) -> Option<u32>
    ensures { from.new.ring ≡ from.old.ring }
{
    let copy = FrameCopy {
        from: 0,
        number,
        frame,
    };
    match from.push(copy) {
        Ok(()) => None,
        Err(back) => Some(back.number),
    }
}

/// Takes a copy, hands the end back, and answers the copy's number.
fn pop(mut to: LaneOut) -> (LaneOut, Option<u32>)
    ensures { result.0.ring ≡ to.ring }
{
    match to.pop() {
        Some(copy) => (to, Some(copy.number)),
        None => (to, None),
    }
}

/// What the calls of the example answered.
#[derive(Drop)]
struct Found {
    pushed: [Option<u32>; 6],
    taken_elsewhere: Option<u32>,
    waiting: usize,
    left: Vec<FrameCopy>,
}

fn passed<R: Threads + Sync + Abort>(
    rt: &R,
    alloc: Global,
    frame: Frame,
    mut from: LaneIn,
    to: LaneOut,
) -> Found
    requires { from.ring ≡ to.ring }
{
    let mut pushed = [None; 6];
    for number in 0..5 {
        pushed[number as usize] = push(&mut from, frame, number);
    }
    let ((mut to, taken_elsewhere), ()) = join(
        rt,
        move || -> (LaneOut, Option<u32>)
            ensures { result.0.ring ≡ to.ring }
        { pop(to) },
        || (),
    );
    pushed[5] = push(&mut from, frame, 4);
    let waiting = to.left(&mut from);
    let mut left = Vec::with_capacity(alloc, waiting).expect(rt, "memory");
    finish(from, to, &mut left);
    Found {
        pushed,
        taken_elsewhere,
        waiting,
        left,
    }
}

/// The fifth copy must have come back, and the first must have made room for it.
fn assert_passed(rt: &impl Abort, found: &Found) {
    assert!(rt; found.pushed == [None, None, None, None, Some(4), None]);
    assert!(rt; found.taken_elsewhere == Some(0) && found.waiting == 4);
    assert!(rt; found.left.len() == 4);
    for (number, copy) in (1..).zip(&found.left) {
        assert!(rt; copy.number == number);
    }
}

#[test]
fn a_full_lane_has_room_again(rt: HostRuntime) -> Result<(), Fail> {
    let alloc = rt.alloc();
    let frame = Frame::read(&ENGINE_SPEED)?;
    let ends = lanes(alloc, Limits::new(2, 4, 1, 1)?)?;
    assert!(rt; ends.ins.len() == 2 && ends.outs.len() == 2);
    let Some((from, to)) = first_lane(ends) else {
        panic!(rt; "no lane");
    };
    assert_passed(&rt, &passed(&rt, alloc, frame, from, to));
    Ok(())
}

#[test]
fn lanes_of_several_lengths(rt: HostRuntime) -> Result<(), Fail> {
    for lane in [1, 513, 1024] {
        let ends = lanes(rt.alloc(), Limits::new(16, lane, 1, 1)?)?;
        assert!(rt; ends.ins.len() == 240 && ends.outs.len() == 240, "{lane}");
    }
    Ok(())
}

#[test]
fn many_copies_at_once(rt: HostRuntime) -> Result<(), Fail> {
    let ends = lanes(rt.alloc(), Limits::new(2, 4, 1, 1)?)?;
    let (mut from, mut to) = first_lane(ends).expect(&rt, "a lane");
    let frame = Frame::read(&ENGINE_SPEED)?;
    for number in 0..3 {
        assert!(rt; push(&mut from, frame, number).is_none());
    }
    let mut copies = [FrameCopy {
        from: 0,
        number: 9,
        frame,
    }; 2];
    assert!(rt; to.pop_many(&mut copies) == 2);
    assert!(rt; copies[0].number == 0 && copies[1].number == 1);
    assert!(rt; to.pop_many(&mut copies) == 1);
    assert!(rt; copies[0].number == 2 && copies[1].number == 1);
    assert!(rt; to.pop_many(&mut copies) == 0);
    Ok(())
}
