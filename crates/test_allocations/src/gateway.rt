//! The calls of the event machine.

ghost use Rattle.std.specs.Prelude.{◌≡◌, IfOk};

use crate::answer::Answer;
use crate::fault::Fault;
use crate::inputs::{PASS, PORT, batch_of, frame_of, ready, say_ready};
use gw_core::{Core, Event};
use gw_ledger::Limits;
use std::alloc::Global;
use std::io::Write;

pub fn make_core<W: Write>(alloc: Global, output: &mut W) -> Result<Answer, Fault> {
    match ready_limits(output) {
        Ok(limits) => Ok(count_taken(alloc, limits)),
        Err(fault) => Err(fault),
    }
}

/// How many frames a new event machine has taken at port 0.
fn count_taken(alloc: Global, limits: Limits) -> Answer
    requires { limits.ports ≡ 4 }
{
    match Core::new(alloc, limits) {
        Ok(core) => Answer::Number("", core.ledger(0).taken, " frames taken"),
        Err(_) => Answer::refused(71),
    }
}

pub fn make_run<W: Write>(alloc: Global, output: &mut W) -> Result<Answer, Fault> {
    let Ok(mut core) = core_of(alloc) else {
        return Err(Fault::Unprepared);
    };
    match ready(output, events_of(alloc)) {
        Ok(events) => Ok(run_events(alloc, &mut core, events)),
        Err(fault) => Err(fault),
    }
}

/// How many of the events were accepted, or whether they came back and no frame was taken.
fn run_events(alloc: Global, core: &mut Core, events: Vec<Event>) -> Answer
    requires { core.old.limits.ports ≡ 4 }
{
    let count = events.len();
    match core.run(alloc, events) {
        Ok(answers) => Answer::count(
            answers.iter().filter(|answer| answer.is_ok()).count(),
            " events",
        ),
        Err(back) => Answer::Said(if back.len() == count && core.ledger(0).taken == 0 {
            "refused 71, the events are back"
        } else {
            "refused 71, other events are back"
        }),
    }
}

pub fn make_events<W: Write>(alloc: Global, output: &mut W) -> Result<Answer, Fault> {
    let Ok(mut core) = core_of(alloc) else {
        return Err(Fault::Unprepared);
    };
    match ready(output, events_of(alloc)) {
        Ok(events) => Ok(Answer::count(accepted(&mut core, events), " events")),
        Err(fault) => Err(fault),
    }
}

/// How many of the events are accepted, one after another.
fn accepted(core: &mut Core, events: Vec<Event>) -> usize {
    let mut accepted: usize = 0;
    for event in events {
        if core.event(event).is_ok() {
            accepted = accepted.saturating_add(1);
        }
    }
    accepted
}

/// The event machine of a new gateway.
fn core_of(alloc: Global) -> Result<Core, Fault>
    ensures { IfOk result (λ core. core.limits.ports ≡ 4) }
{
    let Ok(limits) = limits_of() else {
        return Err(Fault::Unprepared);
    };
    match Core::new(alloc, limits) {
        Ok(core) => Ok(core),
        Err(_) => Err(Fault::Unprepared),
    }
}

/// Four ports, lanes of two copies, one batch and two frames at a port.
pub(crate) fn limits_of() -> Result<Limits, Fault>
    ensures { IfOk result (λ limits. limits.ports ≡ 4) }
{
    Limits::new(4, 2, 1, 2).map_err(|_| Fault::Unprepared)
}

/// Says `ready`, and gives those limits.
pub(crate) fn ready_limits<W: Write>(output: &mut W) -> Result<Limits, Fault>
    ensures { IfOk result (λ limits. limits.ports ≡ 4) }
{
    match say_ready(output) {
        Ok(()) => limits_of(),
        Err(fault) => Err(fault),
    }
}

/// A policy that passes is published for port 3, a frame is taken at port 0 and finished by four steps, and its copy is sent.
fn events_of(alloc: Global) -> Result<Vec<Event>, Fault> {
    let mut events = Vec::new(alloc);
    match add_events(alloc, &mut events) {
        Ok(()) => Ok(events),
        Err(fault) => Err(fault),
    }
}

/// Adds those events.
fn add_events(alloc: Global, events: &mut Vec<Event>) -> Result<(), Fault> {
    events.push(Event::Publish(batch_of(alloc, PASS)?))?;
    events.push(Event::Take(0, frame_of()?))?;
    for _step in 0..4 {
        events.push(Event::Step(0))?;
    }
    events.push(Event::Send { to: PORT, from: 0 })?;
    Ok(())
}
