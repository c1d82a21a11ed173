//! The event machine beside the machine alone. These calls promise no more than that they return: the driver compares
//! the counts that they answer.

use crate::interchange::{BpfInsn, Record};
use crate::loading::{load_frames, load_program, load_table};
use gw_core::{Answer, Core, Event};
use gw_frame::Frame;
use gw_ledger::{Limits, MAX_PORTS};
use gw_machine::State;
use gw_policy::{Batch, Policy};
use gw_verify::Program;
use std::alloc::Global;
use std::sync::Arc;

/// The most ports of a gateway.
const PORTS: u8 = MAX_PORTS as u8;

/// More steps than a frame takes at fifteen ports.
const MOST_STEPS: u32 = 65536;

/// Writes down the events of records taken at sixteen ports in turn, with the policy of a TOML text for each port: each
/// record's taking, its steps to the end, and a sending to each other port. Where `run` is set a new gateway then runs them
/// all. Answers how many events there are. `None`: the text is no table, the octets of a record are no record, or memory was
/// refused.
pub fn count_events(alloc: Global, text: &[u8], records: &[Record], run: bool) -> Option<usize> {
    let frames = load_frames(alloc, records)?;
    let events = events_of(alloc, text, &frames)?;
    let count = events.len();
    if run && !are_accepted(alloc, events)? {
        return None;
    }
    Some(count)
}

/// The events of frames that are taken at sixteen ports in turn.
fn events_of(alloc: Global, text: &[u8], frames: &[Frame]) -> Option<Vec<Event>> {
    let mut events = Vec::new(alloc);
    events.push(Event::Publish(everywhere(alloc, text)?)).ok()?;
    let mut core = sixteen_ports(alloc)?;
    core.event(Event::Publish(everywhere(alloc, text)?)).ok()?;
    for (index, frame) in frames.iter().enumerate() {
        let port = (index % usize::from(PORTS)) as u8;
        write_down(&mut core, &mut events, port, *frame)?;
    }
    Some(events)
}

/// Whether a new gateway accepts all these events.
fn are_accepted(alloc: Global, events: Vec<Event>) -> Option<bool> {
    let answers = sixteen_ports(alloc)?.run(alloc, events).ok()?;
    Some(answers.iter().all(|answer| answer.is_ok()))
}

fn sixteen_ports(alloc: Global) -> Option<Core> {
    let limits = Limits::new(u32::from(PORTS), 64, 1, u32::MAX).ok()?;
    Core::new(alloc, limits).ok()
}

/// A batch with the table's policy for each port.
fn everywhere(alloc: Global, text: &[u8]) -> Option<Batch> {
    let mut batch = Batch::new();
    for port in 0..PORTS {
        batch.add(port, table_policy(alloc, text)?).ok()?;
    }
    Some(batch)
}

fn table_policy(alloc: Global, text: &[u8]) -> Option<Arc<Policy>> {
    let policy = Policy::from_table(alloc, load_table(alloc, text)?).ok()?;
    Arc::new(alloc, policy).ok()
}

/// Takes a frame and does what follows, and writes it down.
fn write_down(core: &mut Core, events: &mut Vec<Event>, port: u8, frame: Frame) -> Option<()> {
    core.event(Event::Take(port, frame)).ok()?;
    events.push(Event::Take(port, frame)).ok()?;
    for _step in 0..MOST_STEPS {
        let answer = core.event(Event::Step(port)).ok()?;
        events.push(Event::Step(port)).ok()?;
        if matches!(answer, Answer::Finished(_)) {
            break;
        }
    }
    for to in 0..PORTS {
        if to != port {
            core.event(Event::Send { to, from: port }).ok()?;
            events.push(Event::Send { to, from: port }).ok()?;
        }
    }
    Some(())
}

/// Makes the steps of code on a record in so many rounds, and answers how many: of the machine alone or, with `core` set,
/// as events of a gateway that takes the record at port 0 and has the code for port 1. `None`: the code is refused, there is no
/// record, or memory was refused.
pub fn count_steps(
    alloc: Global,
    code: &[BpfInsn],
    records: &[Record],
    rounds: u32,
    core: bool,
) -> Option<u64> {
    let program = load_program(alloc, code)?;
    let frames = load_frames(alloc, records)?;
    let frame = frames.first()?;
    if core {
        steps_of_core(&mut gateway_of(alloc, program)?, *frame, rounds)
    } else {
        Some(steps_of_machine(&program, frame, rounds))
    }
}

fn steps_of_core(core: &mut Core, frame: Frame, rounds: u32) -> Option<u64> {
    let mut steps = 0;
    for _round in 0..rounds {
        steps = finish(core, frame, steps)?;
    }
    Some(steps)
}

fn steps_of_machine(program: &Program, frame: &Frame, rounds: u32) -> u64 {
    let mut steps = 0;
    for _round in 0..rounds {
        steps = run_by_steps(program, frame, steps);
    }
    steps
}

/// Two ports, and the program for port 1.
fn gateway_of(alloc: Global, program: Program) -> Option<Core> {
    let mut core = Core::new(alloc, Limits::new(2, 1, 1, u32::MAX).ok()?).ok()?;
    core.event(Event::Publish(batch_of(alloc, program)?)).ok()?;
    Some(core)
}

fn batch_of(alloc: Global, program: Program) -> Option<Batch> {
    let mut batch = Batch::new();
    let policy = Arc::new(alloc, Policy::from_program(program)).ok()?;
    batch.add(1, policy).ok()?;
    Some(batch)
}

/// Takes the frame and steps it to its end.
fn finish(core: &mut Core, frame: Frame, steps: u64) -> Option<u64> {
    let mut steps = steps;
    core.event(Event::Take(0, frame)).ok()?;
    for _step in 0..MOST_STEPS {
        steps = steps.saturating_add(1);
        if matches!(core.event(Event::Step(0)).ok()?, Answer::Finished(_)) {
            break;
        }
    }
    Some(steps)
}

fn run_by_steps(program: &Program, frame: &Frame, steps: u64) -> u64 {
    let mut steps = steps;
    let mut state = State::start();
    for _step in 0..MOST_STEPS {
        steps = steps.saturating_add(1);
        if state.step(program, frame, 0).is_some() {
            break;
        }
    }
    steps
}
