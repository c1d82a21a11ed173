//! A gateway that a script made, and what its commands do.

ghost use Rattle.std.specs.Prelude.{◌≡◌, ◌++◌, ◌∷◌, [], None, true, IfOk, IfErr, OnOk, OnErr};
ghost use Rattle.gw_replay.specs.Commands.{command_view};
ghost use Rattle.gw_replay.specs.Replies.{join_fault, pair_for};
ghost use Rattle.gw_replay.specs.Joins.{IsJoinFault};

use crate::command::Command;
use crate::fault::Fault;
use crate::policies::{program_policy, table_policy};
use crate::said::{answer_line, ledger_line};
use gw_core::{Core, Event, EventRefusal};
use gw_input::{Line, record};
use gw_ledger::Limits;
use gw_policy::{Batch, BatchRefusal, Policy};
use std::alloc::Global;
use std::mem;
use std::sync::Arc;

/// A gateway that a script made, and the batch that is open.
#[derive(Drop)]
pub struct Session {
    pub limits: Limits,
    pub core: Core,
    pub batch: Batch,
    ghost of_the_core: { ∥ core.limits ≡ limits ∥₁ },
}

impl Session {
    ghost use Rattle.gw_replay.specs.Requests.{step_at, send_to, take_at, publish_all, program_of, table_of};
    ghost use Rattle.gw_replay.specs.Replies.{SessionState, ledger_said};
    ghost use Rattle.gw_replay.specs.Scripts.{limits_fit, new_session};
    ghost use Rattle.gw_replay.specs.Standing.{HasState, Happened, Done, IsLimitsFault};

    /// Makes a gateway within limits. 70 is a limit outside its range.
    pub fn new(
        alloc: Global,
        ports: u32,
        lane: u32,
        versions: u32,
        frames: u32,
    ) -> Result<Session, Fault>
        ensures made { IfOk result (λ r. HasState r
            (new_session (record { ports = ports; lane = lane; versions = versions; frames = frames }))) }
        ensures within { OnOk result
            (limits_fit (record { ports = ports; lane = lane; versions = versions; frames = frames }) ≡ true) }
        ensures refused { IfErr result
            (IsLimitsFault (record { ports = ports; lane = lane; versions = versions; frames = frames })) }
    {
        let limits = match Limits::new(ports, lane, versions, frames) {
            Ok(limits) => limits,
            Err(_) => return Err(Fault::BadLimits),
        };
        match Core::new(alloc, limits) {
            Ok(core) => Ok(Session {
                limits,
                core,
                batch: Batch::new(),
            }),
            Err(_) => Err(Fault::OutOfMemory),
        }
    }

    /// Does a command, and returns the line of its answer. A refused command changes nothing, except that `publish` empties
    /// the open batch.
    pub fn obey(&mut self, alloc: Global, asked: Command<'_>) -> Result<Line, Fault>
        ensures { (s : SessionState) → HasState self.old s → Done s (command_view asked.entry) result self.new }
    {
        match asked {
            Command::Step { port } => self.step(port),
            Command::Send { to, from } => self.send(to, from),
            Command::Take { port, hex } => self.take(port, hex),
            Command::Publish => self.publish(),
            Command::Ledger { port } => self.ledger(port),
            Command::Program { port, listing } => self.program(alloc, port, listing),
            Command::Table { port, hex } => self.table(alloc, port, hex),
            Command::Limits { .. } => Err(Fault::SecondLimits),
        }
    }

    /// Hands an event to the gateway, and returns the line of its answer.
    fn happen(&mut self, event: Event) -> Result<Line, Fault>
        ensures { (s : SessionState) → HasState self.old s → Happened s event result self.new }
    {
        match self.core.event(event) {
            Ok(answer) => Ok(answer_line(&answer)),
            Err(why) => Err(Fault::Event(why)),
        }
    }

    fn step(&mut self, port: u8) -> Result<Line, Fault>
        ensures { (s : SessionState) → HasState self.old s → Done s (step_at port) result self.new }
    {
        self.happen(Event::Step(port))
    }

    fn send(&mut self, to: u8, from: u8) -> Result<Line, Fault>
        ensures { (s : SessionState) → HasState self.old s → Done s (send_to to from) result self.new }
    {
        self.happen(Event::Send { to, from })
    }

    /// Takes a frame at a port. 97 and 1 to 4 refuse a text that is no record.
    fn take(&mut self, port: u8, hex: &[u8]) -> Result<Line, Fault>
        ensures { (s : SessionState) → HasState self.old s → Done s (take_at port hex.now) result self.new }
    {
        match record(hex) {
            Ok(frame) => self.happen(Event::Take(port, frame)),
            Err(why) => Err(Fault::Record(why)),
        }
    }

    /// Publishes the open batch, which is empty afterwards.
    fn publish(&mut self) -> Result<Line, Fault>
        ensures { (s : SessionState) → HasState self.old s → Done s publish_all result self.new }
    {
        let batch = mem::replace(&mut self.batch, Batch::new());
        self.happen(Event::Publish(batch))
    }

    /// Returns the line of a port's ledger. 72 refuses a port that is not there.
    fn ledger(&self, port: u8) -> Result<Line, Fault>
        ensures { (s : SessionState) → HasState self.now s → result ≡ ledger_said s port }
    {
        if u32::from(port) >= self.limits.ports() {
            return Err(Fault::Event(EventRefusal::NoSuchPort));
        }
        Ok(ledger_line(self.core.ledger(port)))
    }

    /// Adds a program to the open batch.
    fn program(&mut self, alloc: Global, port: u8, listing: &[u8]) -> Result<Line, Fault>
        ensures { (s : SessionState) → HasState self.old s → Done s (program_of port listing.now) result self.new }
    {
        let policy = program_policy(alloc, listing)?;
        join(alloc, &mut self.batch, port, policy)?;
        Ok(Line::new().text("program ").port(port).text("\n"))
    }

    /// Adds a table to the open batch.
    fn table(&mut self, alloc: Global, port: u8, hex: &[u8]) -> Result<Line, Fault>
        ensures { (s : SessionState) → HasState self.old s → Done s (table_of port hex.now) result self.new }
    {
        let policy = table_policy(alloc, hex)?;
        join(alloc, &mut self.batch, port, policy)?;
        Ok(Line::new().text("table ").port(port).text("\n"))
    }
}

/// Adds a policy for a port to the open batch. 60 refuses a port that has one there; else 61 refuses a seventeenth policy.
fn join(alloc: Global, batch: &mut Batch, port: u8, policy: Policy) -> Result<(), Fault>
    ensures free { OnOk result (join_fault port batch.old ≡ None) }
    ensures joined { OnOk result (batch.new ≡ batch.old ++ pair_for port policy ∷ []) }
    ensures refused { IfErr result (IsJoinFault port batch.old) }
    ensures unchanged { OnErr result (batch.new ≡ batch.old) }
{
    let Ok(policy) = Arc::new(alloc, policy) else {
        return Err(Fault::OutOfMemory);
    };
    match batch.add(port, policy) {
        Ok(()) => Ok(()),
        Err(BatchRefusal::SamePortTwice(_)) => Err(Fault::SamePort(port)),
        Err(BatchRefusal::Full(_)) => Err(Fault::FullBatch),
    }
}
