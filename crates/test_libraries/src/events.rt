//! The worked examples: what becomes of lists of events.

ghost use Rattle.std.specs.Prelude.{◌≡◌};

use crate::made::{ENGINE_SPEED, batch, bits, returning};
use crate::ports::{CIRCLE, Use, circles, told};
use gw_core::{Answer, Core, Event, EventRefusal, OutOfMemory};
use gw_frame::Frame;
use gw_ledger::{FrameCopy, InLedger, Limits, Outcome, PortSet};
use std::alloc::{AllocError, Global};
use std::process::Abort;
use std::test::Fail;

type Given = Result<Answer, EventRefusal>;

/// An event of a worked example. Each frame is the engine's speed.
#[derive(Clone, Copy)]
enum Does {
    /// A batch for these ports is published, of a program that answers always this.
    Publish(&'static [u8], u32),
    Take(u8),
    Step(u8),
    /// To a port, from another.
    Send(u8, u8),
}

/// What an event is answered. No frame is local, and sets of ports are the bits of a number.
#[derive(Clone, Copy)]
enum Says {
    /// The front.
    Published(u32),
    /// The number and the front.
    Taken(u32, u32),
    Stepped,
    Placed(u8),
    Lost(u8),
    /// The number, the front, and the allowed and placed ports.
    Finished(u32, u32, u16, u16),
    /// The number of a copy of a frame of port 0.
    Sent(u32),
    Empty,
    Refused(EventRefusal),
}

type Row = (Does, Says);

fn event_of(rt: &impl Abort, alloc: Global, frame: Frame, does: Does) -> Event {
    match does {
        Does::Publish(ports, answer) => {
            Event::Publish(batch(rt, alloc, ports, &returning(answer)))
        }
        Does::Take(port) => Event::Take(port, frame),
        Does::Step(port) => Event::Step(port),
        Does::Send(to, from) => Event::Send { to, from },
    }
}

fn events_of(rt: &impl Abort, alloc: Global, frame: Frame, rows: &[Row]) -> Vec<Event> {
    let mut events = Vec::new(alloc);
    for (does, _) in rows {
        let event = event_of(rt, alloc, frame, *does);
        assert!(rt; events.push(event).is_ok());
    }
    events
}

/// The set of the ports whose bits are set.
fn set_of(bits: u16) -> PortSet {
    let mut ports = PortSet::new();
    for port in 0..16 {
        if bits >> port & 1 == 1 {
            ports.add(port);
        }
    }
    ports
}

fn answer_of(frame: Frame, says: Says) -> Given {
    Ok(match says {
        Says::Published(front) => Answer::Published { front },
        Says::Taken(number, front) => Answer::Taken {
            number,
            front,
            local: false,
        },
        Says::Stepped => Answer::Stepped,
        Says::Placed(to) => Answer::Placed { to },
        Says::Lost(to) => Answer::Lost { to },
        Says::Finished(number, front, allowed, placed) => Answer::Finished(Outcome {
            number,
            front,
            local: false,
            allowed: set_of(allowed),
            placed: set_of(placed),
        }),
        Says::Sent(number) => Answer::Sent(FrameCopy {
            from: 0,
            number,
            frame,
        }),
        Says::Empty => Answer::Empty,
        Says::Refused(why) => return Err(why),
    })
}

/// The answers must be those of the rows, one for each event.
fn assert_given(rt: &impl Abort, frame: Frame, answers: &[Given], rows: &[Row]) {
    assert!(rt; answers.len() == rows.len());
    for index in 0..rows.len() {
        let (_, says) = rows[index];
        assert!(rt; answers[index] == answer_of(frame, says), "event {index}");
    }
}

/// A new gateway must answer the events of the rows so.
fn ran(rt: &impl Abort, alloc: Global, limits: Limits, rows: &[Row]) -> Core
    ensures { result.limits ≡ limits }
{
    let frame = Frame::read(&ENGINE_SPEED).expect(rt, "a frame");
    let mut core = Core::new(alloc, limits).expect(rt, "a core");
    let Ok(answers) = core.run(alloc, events_of(rt, alloc, frame, rows)) else {
        panic!(rt; "no memory");
    };
    assert_given(rt, frame, &answers, rows);
    core
}

const FULL_LANE: [Row; 17] = [
    (Does::Publish(&[1], 1), Says::Published(1)),
    (Does::Take(0), Says::Taken(0, 1)),
    (Does::Step(0), Says::Stepped),
    (Does::Step(0), Says::Placed(1)),
    (Does::Step(0), Says::Finished(0, 1, 0b10, 0b10)),
    (Does::Take(0), Says::Taken(1, 1)),
    (Does::Step(0), Says::Stepped),
    (Does::Step(0), Says::Lost(1)),
    (Does::Step(0), Says::Finished(1, 1, 0b10, 0)),
    (Does::Send(1, 0), Says::Sent(0)),
    (Does::Take(0), Says::Taken(2, 1)),
    (Does::Step(0), Says::Stepped),
    (Does::Step(0), Says::Placed(1)),
    (Does::Step(0), Says::Finished(2, 1, 0b10, 0b10)),
    (Does::Send(1, 0), Says::Sent(2)),
    (Does::Send(1, 0), Says::Empty),
    (Does::Send(1, 1), Says::Refused(EventRefusal::NoSuchPort)),
];

#[test]
fn a_full_lane(rt: HostRuntime) -> Result<(), Fail> {
    let core = ran(&rt, rt.alloc(), Limits::new(3, 1, 4, 10)?, &FULL_LANE);
    let ledger = InLedger {
        taken: 3,
        local: 0,
        allowed: 3,
        placed: 2,
        lost: 1,
    };
    assert!(rt; *core.ledger(0) == ledger);
    assert!(rt; core.sent(1).sent[0] == 2);
    assert!(rt; core.waiting(0, 1) == 0);
    Ok(())
}

/// The policies are replaced while a frame is unfinished.
const REPLACEMENT: [Row; 13] = [
    (Does::Publish(&[1, 2], 1), Says::Published(1)),
    (Does::Take(0), Says::Taken(0, 1)),
    (Does::Step(0), Says::Stepped),
    (Does::Publish(&[1, 2], 0), Says::Published(2)),
    (Does::Step(0), Says::Placed(1)),
    (Does::Step(0), Says::Stepped),
    (Does::Step(0), Says::Finished(0, 1, 0b110, 0b110)),
    (Does::Take(0), Says::Taken(1, 2)),
    (Does::Step(0), Says::Stepped),
    (Does::Step(0), Says::Finished(1, 2, 0, 0)),
    (
        Does::Publish(&[], 0),
        Says::Refused(EventRefusal::VersionsSpent),
    ),
    (Does::Step(0), Says::Refused(EventRefusal::Idle)),
    (Does::Take(5), Says::Refused(EventRefusal::NoSuchPort)),
];

#[test]
fn a_replacement_while_a_frame_is_unfinished(rt: HostRuntime) -> Result<(), Fail> {
    let core = ran(&rt, rt.alloc(), Limits::new(3, 4, 2, 10)?, &REPLACEMENT);
    assert!(rt; core.waiting(0, 2) == 1);
    Ok(())
}

/// The same frames, each in one call, which answers what the last step of the frame says above.
const FULL_LANE_IN_CALLS: [Row; 7] = [
    (Does::Publish(&[1], 1), Says::Published(1)),
    (Does::Take(0), Says::Finished(0, 1, 0b10, 0b10)),
    (Does::Take(0), Says::Finished(1, 1, 0b10, 0)),
    (Does::Send(1, 0), Says::Sent(0)),
    (Does::Take(0), Says::Finished(2, 1, 0b10, 0b10)),
    (Does::Send(1, 0), Says::Sent(2)),
    (Does::Send(1, 0), Says::Empty),
];

const REPLACEMENT_IN_CALLS: [Row; 6] = [
    (Does::Publish(&[1, 2], 1), Says::Published(1)),
    (Does::Take(0), Says::Finished(0, 1, 0b110, 0b110)),
    (Does::Publish(&[1, 2], 0), Says::Published(2)),
    (Does::Take(0), Says::Finished(1, 2, 0, 0)),
    (
        Does::Publish(&[], 0),
        Says::Refused(EventRefusal::VersionsSpent),
    ),
    (Does::Take(5), Says::Refused(EventRefusal::NoSuchPort)),
];

/// What an event is answered, and a frame in one call.
fn called(core: &mut Core, event: Event) -> Given {
    match event {
        Event::Take(port, frame) => match core.forward(port, frame) {
            Ok(outcome) => Ok(Answer::Finished(outcome)),
            Err(why) => Err(why),
        },
        Event::Publish(batch) => core.event(Event::Publish(batch)),
        Event::Step(port) => core.event(Event::Step(port)),
        Event::Send { to, from } => core.event(Event::Send { to, from }),
    }
}

fn assert_called(rt: &impl Abort, alloc: Global, limits: Limits, rows: &[Row]) {
    let frame = Frame::read(&ENGINE_SPEED).expect(rt, "a frame");
    let mut core = Core::new(alloc, limits).expect(rt, "a core");
    for index in 0..rows.len() {
        let (does, says) = rows[index];
        let given = called(&mut core, event_of(rt, alloc, frame, does));
        assert!(rt; given == answer_of(frame, says), "event {index}");
    }
    assert!(rt; core.limits() == limits);
}

#[test]
fn frames_in_one_call(rt: HostRuntime) -> Result<(), Fail> {
    assert_called(
        &rt,
        rt.alloc(),
        Limits::new(3, 1, 4, 10)?,
        &FULL_LANE_IN_CALLS,
    );
    assert_called(
        &rt,
        rt.alloc(),
        Limits::new(3, 4, 2, 10)?,
        &REPLACEMENT_IN_CALLS,
    );
    Ok(())
}

/// A claim of address 128, and a frame to it.
const CLAIM: [u8; 16] = [0x98, 0xEE, 0xFF, 0x80, 8, 0, 0, 0, 5, 0, 0, 0, 0, 0, 0, 0];

const TO_THE_CLAIMED: [u8; 16] = [
    0x98, 0xEF, 0x80, 0x34, 8, 0, 0, 0, 255, 255, 255, 255, 255, 255, 255, 255,
];

/// A frame of port 0 in one call: its number, and whether it is local and went to port 1.
fn local_at_0(core: &mut Core, frame: Frame) -> Option<(u32, bool, bool)>
    ensures { core.new.limits ≡ core.old.limits }
{
    let outcome = core.forward(0, frame).ok()?;
    Some((outcome.number, outcome.local, outcome.placed.has(1)))
}

#[test]
fn a_local_frame_in_one_call(rt: HostRuntime) -> Result<(), Fail> {
    let claim = Frame::read(&CLAIM)?;
    let local = Frame::read(&TO_THE_CLAIMED)?;
    let mut core = Core::new(rt.alloc(), Limits::new(2, 4, 4, 10)?)?;
    let batch = batch(&rt, rt.alloc(), &[1], &returning(1));
    assert!(rt; core.event(Event::Publish(batch)).is_ok());
    assert!(rt; local_at_0(&mut core, claim) == Some((0, false, true)));
    assert!(rt; local_at_0(&mut core, local) == Some((1, true, false)));
    assert!(rt; core.forward(2, local) == Err(EventRefusal::NoSuchPort));
    let ledger = InLedger {
        taken: 2,
        local: 1,
        allowed: 1,
        placed: 1,
        lost: 0,
    };
    assert!(rt; *core.ledger(0) == ledger);
    Ok(())
}

/// The number, the front, and the allowed and placed ports of a frame in one call.
fn forwarded(core: &mut Core, port: usize, frame: Frame) -> Option<(u32, u32, u32, u32)> {
    let outcome = core.forward(u8::try_from(port).ok()?, frame).ok()?;
    Some((
        outcome.number,
        outcome.front,
        bits(outcome.allowed),
        bits(outcome.placed),
    ))
}

/// The source and the number of the next copy, which `peek` must show before, or of that of one source.
fn sent(rt: &impl Abort, core: &mut Core, to: usize, from: Option<u8>) -> Option<(u8, u32)> {
    let to = u8::try_from(to).ok()?;
    if let Some(from) = from {
        let Ok(Answer::Sent(copy)) = core.event(Event::Send { to, from }) else {
            return None;
        };
        return told(Some(copy));
    }
    let shown = core.peek(to);
    let copy = core.next(to);
    assert!(rt; shown == copy);
    told(copy.ok()?)
}

/// A core must do what the ends of a gateway in threads do.
fn assert_same_circle(rt: &impl Abort, alloc: Global, limits: Limits, port: u8, uses: &[Use]) {
    let frame = Frame::read(&ENGINE_SPEED).expect(rt, "a frame");
    let mut core = Core::new(alloc, limits).expect(rt, "a core");
    let batch = batch(rt, alloc, &[port], &returning(1));
    assert!(rt; core.event(Event::Publish(batch)).is_ok());
    for (index, using) in uses.iter().enumerate() {
        let met = match *using {
            Use::Offer(port, expected) => forwarded(&mut core, port, frame) == expected.ok(),
            Use::Next(to, from, expected) => sent(rt, &mut core, to, from) == expected,
        };
        assert!(rt; met, "use {index}");
    }
}

/// A new core of two ports must have no copy at port 1, and no port 2.
fn assert_nothing_waits(rt: &impl Abort, core: &mut Core) {
    assert!(rt; core.next(2) == Err(EventRefusal::NoSuchPort));
    assert!(rt; core.peek(2) == Err(EventRefusal::NoSuchPort));
    assert!(rt; core.next(1) == Ok(None));
}

#[test]
fn the_circle_of_sources_in_one_thread(rt: HostRuntime) -> Result<(), Fail> {
    let alloc = rt.alloc();
    assert_same_circle(&rt, alloc, Limits::new(3, 1, 1, 3)?, 2, &CIRCLE);
    let limits = Limits::new(16, 1, 1, 16)?;
    assert_same_circle(&rt, alloc, limits, 0, &circles(alloc)?);
    assert_nothing_waits(&rt, &mut Core::new(alloc, Limits::new(2, 1, 1, 1)?)?);
    Ok(())
}

/// A step of a port without a frame, a thousand times.
const IDLE: [Row; 1000] = [(Does::Step(0), Says::Refused(EventRefusal::Idle)); 1000];

#[test]
fn a_long_list_and_an_empty_one(rt: HostRuntime) -> Result<(), Fail> {
    ran(&rt, rt.alloc(), Limits::new(16, 1024, 65535, 1)?, &IDLE);
    ran(&rt, rt.alloc(), Limits::new(2, 513, 1, 1)?, &[]);
    Ok(())
}

#[test]
fn want_of_memory(rt: HostRuntime) -> Result<(), AllocError> {
    let text = format!(in rt.alloc(); "{}", OutOfMemory)?;
    assert!(rt; OutOfMemory.number() == 71);
    assert!(rt; text.contains("no memory"), "{text}");
    Ok(())
}
