//! The model of every order of events, and what a caller may say of the answers that it gets.

ghost use Rattle.std.specs.Prelude.{◌≡◌, [], IfOk};
ghost use Rattle.j1939_gateway.specs.CoreEvents.{replies};
ghost use Rattle.j1939_gateway.specs.CoreRuns.{ForEachAnswer};
ghost use Rattle.j1939_gateway.specs.CoreStart.{fresh};
ghost use Rattle.j1939_gateway.specs.Headline.{Forwards};
ghost use Rattle.j1939_gateway.specs.Safety.{StepsInside};

use crate::fault::Fault;
use j1939_gateway::{
    Answer, Batch, Core, Event, EventRefusal, Frame, Limits, MakeRefusal, Outcome,
};
use std::alloc::{AllocError, Global};

/// How many steps a frame is given: more than three ports and a program of four instructions ask for.
const STEPS: usize = 16;

/// What becomes of a frame that is taken at port 0 of a new model of three ports, once the batch is in force: none where the
/// steps do not suffice.
pub fn finished(alloc: Global, frame: Frame, batch: Batch) -> Result<Option<Outcome>, Fault> {
    let Ok(limits) = Limits::new(3, 1, 1, 1) else {
        unreachable!()
    };
    let events = events_of(alloc, frame, batch)?;
    for answer in answers_of(alloc, limits, events)? {
        if let Ok(Answer::Finished(outcome)) = answer {
            return Ok(Some(outcome));
        }
    }
    Ok(None)
}

/// The batch is published, the frame is taken, and steps follow.
fn events_of(alloc: Global, frame: Frame, batch: Batch) -> Result<Vec<Event>, AllocError> {
    let mut events = Vec::new(alloc);
    events.push(Event::Publish(batch))?;
    events.push(Event::Take(0, frame))?;
    for _step in 0..STEPS {
        events.push(Event::Step(0))?;
    }
    Ok(events)
}

/// The answers of a new gateway to events, one by one. Each that tells of a finished frame tells of one that was copied to
/// exactly the ports that the policies in force at its taking allow, but where a lane was full. Each instruction that a step
/// makes is made inside accepted code.
fn answers_of(
    alloc: Global,
    limits: Limits,
    events: Vec<Event>,
) -> Result<Vec<Result<Answer, EventRefusal>>, Fault>
    ensures replies { IfOk result (λ answers. answers.items ≡ replies (fresh limits) [] events.items) }
    ensures headline { IfOk result (λ answers. ForEachAnswer (Forwards (fresh limits)) [] events.items answers.items) }
    ensures safe { IfOk result (λ answers. ForEachAnswer (λ past event answer. StepsInside (fresh limits) past event)
        [] events.items answers.items) }
{
    let Ok(mut core) = Core::new(alloc, limits) else {
        return Err(Fault::NotMade(MakeRefusal::OutOfMemory));
    };
    match core.run(alloc, events) {
        Ok(answers) => Ok(answers),
        Err(_) => Err(Fault::NotMade(MakeRefusal::OutOfMemory)),
    }
}
