//! The end that publishes.

ghost use Rattle.std.specs.Prelude.{◌≡◌, ◌≤◌, ◌++◌, ◌∷◌, [], false, length, MatchResult, IsTrue, ◌↔◌};
ghost use Rattle.std.specs.Arc.{arc_value};

use crate::count::CountWriter;
use crate::history::{LengthWord, Prefix};
use crate::refusals::ReplaceRefusal;
use crate::shelf::{Shelf, Version};
use crate::watch::Told;
use gw_ledger::Limits;
use gw_policy::{Batch, PolicySet};
use std::alloc::{AllocError, Global};
use std::marker::Model;
use std::sync::{Arc, Wait};

/// Publishes batches, one at a time. Contracts see it as `Publishing`.
///
/// Where it is dropped, a few blocks of memory stay, since its end waits for readers and a drop may not: `end` gives all back.
#[derive(Drop)]
pub struct Operator {
    writer: CountWriter,
    shelf: Arc<Shelf, Global>,
    word: LengthWord,
    published: Prefix,
    // The policies in force after the batches of `published`.
    set: PolicySet,
    ports: u32,
    versions: u32,
    stopped: bool,
}

impl Model for Operator {
    ghost use Rattle.std.specs.Prelude.{◌≡◌, ◌≤◌, length, [], MatchBool};
    ghost use Rattle.std.specs.Arc.{arc_value};
    ghost use Rattle.gw_board.specs.Ends.{Publishing};
    ghost use Rattle.gw_board.specs.Lists.{InForceAfter};

    ghost Value = { Publishing };

    ghost view = { λ o. record {
      board = o.published.board;
      published = o.published.batches;
      ports = o.ports;
      versions =
          o.versions;
      stopped = o.stopped;
    } };

    // Unless it is stopped, watches find just the length of its list.
    ghost invariant = { λ o. (length o.published.batches ≤ o.versions) × (o.versions ≤ 65535) × (o.word ≡ o.published.board)
        × (arc_value o.shelf ≡ o.published.board) × InForceAfter o.set o.published.batches
        × MatchBool o.stopped (Unit {0}) (o.writer ≡ record { shown = length o.published.batches; pending = [] }) };
}

impl Operator {
    ghost use Rattle.std.specs.Prelude.{IfOk, OnOk};
    ghost use Rattle.gw_board.specs.Ends.{Known, new_operator};
    ghost use Rattle.gw_board.specs.Lists.{InForceAfter};
    ghost use Rattle.gw_board.specs.Refusals.{MayPublish, PortsBelow, Refuses};

    pub(crate) fn new(
        writer: CountWriter,
        shelf: Arc<Shelf, Global>,
        word: LengthWord,
        nothing: Prefix,
        limits: Limits,
    ) -> Operator
        requires empty { nothing.batches ≡ [] }
        requires nothing_shown { writer ≡ record { shown = 0; pending = [] } }
        requires board { (word ≡ nothing.board) × (arc_value shelf ≡ nothing.board) }
        ensures { result ≡ new_operator nothing.board limits }
    {
        Operator {
            writer,
            shelf,
            word,
            published: nothing,
            set: PolicySet::new(),
            ports: limits.ports(),
            versions: limits.versions(),
            stopped: false,
        }
    }

    /// What is published, for watches to learn.
    pub fn tell(&self) -> Told
        ensures { result ≡ record { board = self.now.board; batches = self.now.published } }
    {
        Told::new(self.published.again())
    }

    /// Publishes a batch behind the others, and answers how many there are then. It waits for watches that are reading.
    ///
    /// A refused batch comes back, and nothing changes. The one exception is the last case of `ReplaceRefusal`.
    pub fn replace<R: Wait>(&mut self, rt: &R, batch: Batch) -> Result<u32, ReplaceRefusal>
        ensures board { self.new.board ≡ self.old.board }
        ensures ports { self.new.ports ≡ self.old.ports }
        ensures may { OnOk result (MayPublish self.old batch) }
        ensures published { MatchResult result
            (λ front. (self.new ≡ record self.old { published = self.old.published ++ batch ∷ [] })
            × (front ≡ length self.new.published))
            (λ why. Refuses self.old batch why self.new) }
    {
        if !self.has_ports(&batch) {
            return Err(ReplaceRefusal::NoSuchPort(batch));
        }
        if self.published.len() >= u64::from(self.versions) {
            return Err(ReplaceRefusal::VersionsSpent(batch));
        }
        if self.stopped {
            return Err(ReplaceRefusal::Stopped(batch));
        }
        self.publish(rt, batch)
    }

    // The same of a batch that only want of memory can refuse.
    fn publish<R: Wait>(&mut self, rt: &R, batch: Batch) -> Result<u32, ReplaceRefusal>
        requires { MayPublish self.old batch }
        ensures board { self.new.board ≡ self.old.board }
        ensures ports { self.new.ports ≡ self.old.ports }
        ensures published { MatchResult result
            (λ front. (self.new ≡ record self.old { published = self.old.published ++ batch ∷ [] })
            × (front ≡ length self.new.published))
            (λ why. Refuses self.old batch why self.new) }
    {
        // What can be refused comes first. The list grows by `add`, and the version lies on the shelf before it is shown.
        let count = self.published.len() + 1;
        let Ok((set, shown)) = self.sets_with(&batch) else {
            return Err(ReplaceRefusal::OutOfMemory(Some(batch)));
        };
        if self.writer.append(count).is_err() {
            return Err(ReplaceRefusal::OutOfMemory(Some(batch)));
        }
        let mut published = self.published.again();
        if !published.add(&self.word, &batch) {
            self.stopped = true;
            return Err(ReplaceRefusal::OutOfMemory(None));
        }
        self.shelf.lay(rt, Version::new(shown, published.again()));
        self.writer.publish(rt);
        self.published = published;
        self.set = set;
        Ok(count as u32)
    }

    // The policies in force once the batch is published: a set for the operator, and one for the shelf.
    fn sets_with(&self, batch: &Batch) -> Result<(PolicySet, PolicySet), AllocError>
        ensures { IfOk result (λ sets. InForceAfter sets.0 (self.now.published ++ batch.now ∷ []) × (sets.1 ≡ sets.0)) }
    {
        let mut set = self.set.clone()?;
        set.absorb(batch)?;
        let shown = set.clone()?;
        Ok((set, shown))
    }

    /// Ends the operator, and gives back the memory that a drop leaves. It waits for watches that are reading.
    pub fn end<R: Wait>(self, rt: &R) {
        self.writer.end(rt);
    }

    // Whether each of the batch's ports is there.
    fn has_ports(&self, batch: &Batch) -> bool
        ensures { IsTrue result ↔ PortsBelow self.now.ports batch.now }
    {
        for index in 0..batch.len() {
            if let Some((port, _)) = batch.pair(index) {
                if u32::from(port) >= self.ports {
                    return false;
                }
            }
        }
        true
    }
}
