//! The event machine.

ghost use Rattle.std.specs.Prelude.{◌≡◌, ℕ, ◌<◌, ◌≤◌, ◌↔◌, List, [], ◌∷◌, ◌++◌, length, replicate, slice_index};
ghost use Rattle.std.specs.Prelude.{IfOk, IfErr, OnErr, IfSome, IsTrue};
ghost use Rattle.gw_core.specs.Gateway.{Stands, CoreAnswers};
ghost use Rattle.gw_core.specs.Start.{Heard, begun, unheard};
ghost use Rattle.gw_core.specs.Events.{accepted, ledger_after, waiting_after, sent_after};
ghost use Rattle.gw_core.specs.Headline.{Forwards};
ghost use Rattle.gw_core.specs.Safety.{StepsInside};
ghost use Rattle.gw_core.specs.Forwarding.{CoreForwards, ForwardsFrame, forwarded};
ghost use Rattle.gw_core.specs.Circle.{SendsNext, PeeksNext, FindsSource, FindsFirst, Waits};
ghost use Rattle.gw_core.specs.declared.event.Event.{Event};

use crate::active::PairIndices;
use crate::event::{Answer, Event, EventRefusal};
use crate::in_force::{indices_with, policies_in_force};
use crate::laws::{finished_frames_were_forwarded, steps_are_safe};
use crate::refusal::{OutOfMemory, RenewRefusal};
use crate::renewing::{any_copy, any_frame, renew_all};
use crate::worker::Worker;
use gw_frame::Frame;
use gw_ledger::{FrameCopy, InLedger, Limits, MAX_PORTS, OutLedger, Outcome};
use gw_policy::Batch;
use std::alloc::{AllocError, Global};
use std::marker::Model;

/// A gateway as one machine, whose events are the single steps of its actors: the operator, the ports' workers and the
/// senders. What it holds after any list of events is what the definitions give for that list.
#[derive(Drop)]
pub struct Core {
    limits: Limits,
    batches: Vec<Batch>,
    // where the policies in force stand
    latest: PairIndices,
    workers: Vec<Worker>,
    outs: Vec<OutLedger>,
    // for each egress port the ingress port that `next` looks at first
    turns: [u8; MAX_PORTS],
}

impl Model for Core {
    ghost use Rattle.std.specs.Prelude.{◌≡◌, ◌≤◌};
    ghost use Rattle.std.specs.Vec.{vec_capacity};
    ghost use Rattle.gw_core.specs.Gateway.{Gateway, IsGateway};

    ghost Value = { Gateway };

    ghost view = { λ c. record {
      limits = c.limits;
      batches = c.batches.items;
      latest = c.latest;
      workers = c.workers.items;
      outs = c.outs.items;
      turns = c.turns;
    } };

    ghost invariant = { λ c. (c.limits.versions ≤ vec_capacity c.batches)
        × IsGateway (record {
          limits = c.limits;
          batches = c.batches.items;
          latest = c.latest;
          workers = c.workers.items;
          outs = c.outs.items;
          turns = c.turns;
        }) };
}

impl Core {
    /// A gateway before any event, with all the memory that its events will need: room for as many batches as may be
    /// published, and for the copies of each lane.
    pub fn new(alloc: Global, limits: Limits) -> Result<Core, OutOfMemory>
        ensures limits { IfOk result (λ core. core.limits ≡ limits) }
        ensures stands { IfOk result (λ core. Stands core unheard []) }
        ensures turns { IfOk result (λ core. core.turns ≡ replicate 16 0) }
    {
        match parts(alloc, limits) {
            Ok(core) => Ok(core),
            Err(_) => Err(OutOfMemory),
        }
    }

    /// The limits that it was made with.
    pub fn limits(&self) -> Limits
        ensures { result ≡ self.now.limits }
    {
        self.limits
    }

    /// Does one event, or refuses it (72 to 76, the first that holds) and changes nothing. It takes no memory. A refused
    /// batch is dropped. A frame that the event finishes was forwarded, and an instruction that it makes is a safe one.
    // Inlined, so that a caller that names the event builds none: an `Event` has room for a batch of sixteen pairs.
    #[inline(always)]
    pub fn event(&mut self, event: Event) -> Result<Answer, EventRefusal>
        ensures answers { (known : Heard) (history : List Event) → Stands self.old known history
            → CoreAnswers self.old event result self.new known history }
        ensures headline { (known : Heard) (history : List Event) → Stands self.old known history
            → Forwards (begun self.old.limits known) history event result }
        ensures safe { (known : Heard) (history : List Event) → Stands self.old known history
            → StepsInside (begun self.old.limits known) history event }
        ensures refused { OnErr result (self.new ≡ self.old) }
        ensures limits { self.new.limits ≡ self.old.limits }
        ensures turns { self.new.turns ≡ self.old.turns }
    {
        // `headline` and `safe` rest on these laws, which do nothing when run.
        finished_frames_were_forwarded();
        steps_are_safe();
        match event {
            Event::Publish(batch) => self.publish(batch),
            Event::Take(port, frame) => self.take(port, frame),
            Event::Step(port) => self.step(port),
            Event::Send { to, from } => self.send(to, from),
        }
    }

    #[inline(always)]
    fn step(&mut self, port: u8) -> Result<Answer, EventRefusal>
        ensures answers { (known : Heard) (history : List Event) → Stands self.old known history
            → CoreAnswers self.old (Event.Step port) result self.new known history }
        ensures refused { OnErr result (self.new ≡ self.old) }
        ensures limits { self.new.limits ≡ self.old.limits }
        ensures turns { self.new.turns ≡ self.old.turns }
    {
        if u32::from(port) >= self.limits.ports() {
            return Err(EventRefusal::NoSuchPort);
        }
        self.workers[usize::from(port)].step(&self.batches)
    }

    fn take(&mut self, port: u8, frame: Frame) -> Result<Answer, EventRefusal>
        ensures answers { (known : Heard) (history : List Event) → Stands self.old known history
            → CoreAnswers self.old (Event.Take port frame) result self.new known history }
        ensures refused { OnErr result (self.new ≡ self.old) }
        ensures limits { self.new.limits ≡ self.old.limits }
        ensures turns { self.new.turns ≡ self.old.turns }
    {
        if u32::from(port) >= self.limits.ports() {
            return Err(EventRefusal::NoSuchPort);
        }
        // A frame's octets are a record.
        let _record = frame.bytes();
        let front = self.batches.len() as u32;
        self.workers[usize::from(port)].take(frame, &self.latest, front)
    }

    /// Takes a frame and makes all of its steps: what `event` does by `Take` and by `Step` until the frame is finished. It is
    /// refused as the taking is, and changes nothing then. It takes no memory.
    pub fn forward(&mut self, port: u8, frame: Frame) -> Result<Outcome, EventRefusal>
        ensures answers { (known : Heard) (history : List Event) → Stands self.old known history
            → CoreForwards self.old known history port frame result self.new }
        ensures headline { (known : Heard) (history : List Event) → Stands self.old known history
            → IfOk result (λ outcome. ForwardsFrame (begun self.old.limits known) history port frame outcome) }
        ensures safe { (known : Heard) (history : List Event) (n : ℕ) → Stands self.old known history
            → StepsInside (begun self.old.limits known) (forwarded n port frame history) (Event.Step port) }
        ensures refused { OnErr result (self.new ≡ self.old) }
        ensures limits { self.new.limits ≡ self.old.limits }
        ensures turns { self.new.turns ≡ self.old.turns }
    {
        // `headline` and `safe` rest on these laws, which do nothing when run.
        finished_frames_were_forwarded();
        steps_are_safe();
        // A frame's octets are a record.
        let _record = frame.bytes();
        if u32::from(port) >= self.limits.ports() {
            return Err(EventRefusal::NoSuchPort);
        }
        let front = self.batches.len() as u32;
        self.workers[usize::from(port)].forward(&self.batches, frame, &self.latest, front)
    }

    fn send(&mut self, to: u8, from: u8) -> Result<Answer, EventRefusal>
        ensures answers { (known : Heard) (history : List Event) → Stands self.old known history
            → CoreAnswers self.old (Event.Send to from) result self.new known history }
        ensures refused { OnErr result (self.new ≡ self.old) }
        ensures limits { self.new.limits ≡ self.old.limits }
        ensures turns { self.new.turns ≡ self.old.turns }
    {
        let ports = self.limits.ports();
        if u32::from(to) >= ports || u32::from(from) >= ports || to == from {
            return Err(EventRefusal::NoSuchPort);
        }
        match self.workers[usize::from(from)].send(to) {
            Some(copy) => {
                self.outs[usize::from(to)].add_sent(from);
                Ok(Answer::Sent(copy))
            }
            None => Ok(Answer::Empty),
        }
    }

    /// Sends the next copy that waits for a port, if one does: `Send` from the first port at which one waits, counted round from
    /// behind the port whose copy `next` sent last, at first from port 0. 72 refuses a port that is not there.
    pub fn next(&mut self, to: u8) -> Result<Option<FrameCopy>, EventRefusal>
        ensures answers { (known : Heard) (history : List Event) → Stands self.old known history
            → SendsNext self.old known history to result self.new }
        ensures refused { OnErr result (self.new ≡ self.old) }
        ensures limits { self.new.limits ≡ self.old.limits }
    {
        if u32::from(to) >= self.limits.ports() {
            return Err(EventRefusal::NoSuchPort);
        }
        let Some(from) = self.source(to) else {
            return Ok(None);
        };
        match self.send(to, from)? {
            Answer::Sent(copy) => {
                self.turns[usize::from(to)] = from + 1;
                Ok(Some(copy))
            }
            _ => Ok(None),
        }
    }

    /// The copy that `next` would send, which stays where it waits.
    pub fn peek(&self, to: u8) -> Result<Option<FrameCopy>, EventRefusal>
        ensures { (known : Heard) (history : List Event) → Stands self.now known history
            → PeeksNext self.now known history to result }
    {
        if u32::from(to) >= self.limits.ports() {
            return Err(EventRefusal::NoSuchPort);
        }
        let Some(from) = self.source(to) else {
            return Ok(None);
        };
        Ok(self.workers[usize::from(from)].first(to))
    }

    /// The port whose copy for a port is the next.
    fn source(&self, to: u8) -> Option<u8>
        requires { to < self.now.limits.ports }
        ensures found { (known : Heard) (history : List Event) → Stands self.now known history
            → FindsSource self.now known history to result }
        ensures there { IfSome result (λ from. from < self.now.limits.ports) }
    {
        let ports = self.limits.ports() as u8;
        let turn = self.turns[usize::from(to)];
        match self.first_from(turn, ports, to) {
            Some(from) => Some(from),
            None => self.first_from(0, ports.min(turn), to),
        }
    }

    /// The first of the ports from one up to another at which a copy waits for a port.
    fn first_from(&self, begin: u8, end: u8, to: u8) -> Option<u8>
        requires to { to < self.now.limits.ports }
        requires end { end ≤ self.now.limits.ports }
        ensures found { (known : Heard) (history : List Event) → Stands self.now known history
            → FindsFirst (begun self.now.limits known) (accepted (begun self.now.limits known) history) to begin end result }
        ensures there { IfSome result (λ from. from < end) }
    {
        for from in begin..end {
            if self.waits(from, to) {
                return Some(from);
            }
        }
        None
    }

    /// Whether a copy waits at one port for another.
    fn waits(&self, from: u8, to: u8) -> bool
        requires from { from < self.now.limits.ports }
        requires to { to < self.now.limits.ports }
        ensures { (known : Heard) (history : List Event) → Stands self.now known history
            → IsTrue result ↔ Waits (begun self.now.limits known) (accepted (begun self.now.limits known) history) to from }
    {
        from != to && self.waiting(from, to) > 0
    }

    fn publish(&mut self, batch: Batch) -> Result<Answer, EventRefusal>
        ensures answers { (known : Heard) (history : List Event) → Stands self.old known history
            → CoreAnswers self.old (Event.Publish batch) result self.new known history }
        ensures refused { OnErr result (self.new ≡ self.old) }
        ensures limits { self.new.limits ≡ self.old.limits }
        ensures turns { self.new.turns ≡ self.old.turns }
    {
        let front = self.batches.len();
        let Some(latest) = indices_with(&batch, self.limits.ports(), front, self.latest) else {
            return Err(EventRefusal::NoSuchPort);
        };
        if front >= self.limits.versions() as usize {
            return Err(EventRefusal::VersionsSpent);
        }
        self.latest = latest;
        self.batches.push_reserved(batch);
        Ok(Answer::Published {
            front: front as u32 + 1,
        })
    }
}

impl Core {
    ghost use Rattle.std.specs.Prelude.{MatchResult};
    ghost use Rattle.gw_core.specs.Runs.{RunsTo, ForEachAnswer};

    /// Does events one after another, and gives the answer of each. The list of answers is made first: where memory for
    /// it was refused (71), nothing has changed and the events come back. Of each event holds what `event` says.
    pub fn run(
        &mut self,
        alloc: Global,
        events: Vec<Event>,
    ) -> Result<Vec<Result<Answer, EventRefusal>>, Vec<Event>>
        ensures answers { (known : Heard) (history : List Event) → Stands self.old known history
            → IfOk result (λ answers. RunsTo self.old known history events.items answers.items self.new) }
        ensures headline { (known : Heard) (history : List Event) → Stands self.old known history
            → IfOk result (λ answers. ForEachAnswer (Forwards (begun self.old.limits known)) history events.items answers.items) }
        ensures safe { (known : Heard) (history : List Event) → Stands self.old known history
            → IfOk result (λ answers. ForEachAnswer (λ past event answer. StepsInside (begun self.old.limits known) past event)
            history events.items answers.items) }
        ensures handed_back { IfErr result (λ back. back.items ≡ events.items) }
        ensures unchanged { OnErr result (self.new ≡ self.old) }
        ensures limits { self.new.limits ≡ self.old.limits }
        ensures turns { self.new.turns ≡ self.old.turns }
    {
        finished_frames_were_forwarded();
        steps_are_safe();
        let Ok(mut answers) = Vec::with_capacity(alloc, events.len()) else {
            return Err(events);
        };
        for event in events {
            answers.push_reserved(self.event(event));
        }
        Ok(answers)
    }

    /// What a port counts of the frames taken there.
    pub fn ledger(&self, port: u8) -> &InLedger
        requires { port < self.now.limits.ports }
        ensures { (known : Heard) (history : List Event) → Stands self.now known history
            → result.now ≡ ledger_after (begun self.now.limits known) port (accepted (begun self.now.limits known) history) }
    {
        self.workers[usize::from(port)].ledger()
    }

    /// What a port counts of the copies sent there.
    pub fn sent(&self, port: u8) -> &OutLedger
        requires { port < self.now.limits.ports }
        ensures { (known : Heard) (history : List Event) (from : ℕ) → Stands self.now known history
            → slice_index result.now.sent from ≡ sent_after (begun self.now.limits known) from port (accepted
            (begun self.now.limits known) history) }
    {
        &self.outs[usize::from(port)]
    }

    /// How many copies wait at a port for another.
    pub fn waiting(&self, from: u8, to: u8) -> usize
        requires from { from < self.now.limits.ports }
        requires to { to < self.now.limits.ports }
        ensures { (known : Heard) (history : List Event) → Stands self.now known history
            → result ≡ length (waiting_after (begun self.now.limits known) from to (accepted
            (begun self.now.limits known) history)) }
    {
        self.workers[usize::from(from)].waiting(to)
    }
}

impl Core {
    ghost use Rattle.std.specs.Prelude.{false};
    ghost use Rattle.std.specs.List.{list_any};
    ghost use Rattle.gw_core.specs.Gateway.{StandsAt};
    ghost use Rattle.gw_core.specs.Renewing.{Renews, all_heard, holds_copy};

    /// Begins anew, so that batches, frames and copies are counted from 0 again: the policies in force are the first batch, and
    /// the claims stay. It is refused, and changes nothing, where a frame is unfinished (73), then where a copy waits (126), then
    /// where a policy in force has too many owners (100). It takes no memory.
    pub fn renew(&mut self) -> Result<(), RenewRefusal>
        ensures answers { (known : Heard) (history : List Event) → Stands self.old known history
            → Renews self.old known history result self.new }
        ensures refused { OnErr result (self.new ≡ self.old) }
        ensures limits { self.new.limits ≡ self.old.limits }
    {
        if any_frame(&self.workers) {
            return Err(RenewRefusal::Busy);
        }
        if any_copy(&self.workers) {
            return Err(RenewRefusal::CopiesWait);
        }
        let ports = self.limits.ports() as u8;
        let Some(batch) = policies_in_force(&self.batches, &self.latest, ports) else {
            return Err(RenewRefusal::TooManyOwners);
        };
        self.forget();
        let _answer = self.publish(batch);
        Ok(())
    }

    /// Forgets all events, where no copy waits. What the ports heard is known from now on.
    fn forget(&mut self)
        requires { list_any holds_copy self.old.workers ≡ false }
        ensures begins { (known : Heard) (done : List Event) → StandsAt self.old known done
            → StandsAt self.new (all_heard (begun self.old.limits known) done) [] }
        ensures limits { self.new.limits ≡ self.old.limits }
        ensures turns { self.new.turns ≡ replicate 16 0 }
    {
        renew_all(&mut self.workers);
        self.outs.fill(OutLedger::new());
        self.batches.clear();
        self.latest = [None; MAX_PORTS];
        self.turns = [0; MAX_PORTS];
    }
}

// The gateway, or that the memory for it was refused: room for every batch, and for the copies of every lane.
fn parts(alloc: Global, limits: Limits) -> Result<Core, AllocError>
    ensures limits { IfOk result (λ core. core.limits ≡ limits) }
    ensures stands { IfOk result (λ core. Stands core unheard []) }
    ensures turns { IfOk result (λ core. core.turns ≡ replicate 16 0) }
{
    let batches = Vec::with_capacity(alloc, limits.versions() as usize)?;
    let ports = limits.ports() as u8;
    let mut workers = Vec::with_capacity(alloc, usize::from(ports))?;
    let mut outs = Vec::with_capacity(alloc, usize::from(ports))?;
    for own in 0..ports {
        workers.push_reserved(Worker::new(alloc, limits, own)?);
        outs.push_reserved(OutLedger::new());
    }
    Ok(Core {
        limits,
        batches,
        latest: [None; MAX_PORTS],
        workers,
        outs,
        turns: [0; MAX_PORTS],
    })
}
