//! The end that reads.

ghost use Rattle.std.specs.Prelude.{◌≡◌, ◌≤◌, IfOk, MatchResult, OnOk, length, reverse};
ghost use Rattle.gw_ledger.specs.Ports.{ports_below};
ghost use Rattle.gw_policy.specs.Allowed.{may_leave};
ghost use Rattle.gw_policy.specs.Batches.{PortPolicies};
ghost use Rattle.std.specs.Arc.{arc_value};
ghost use Rattle.std.specs.Fn.{FnOnceReturnsAt};
ghost use mathlib.Core.List.{IsPrefix};
ghost use Rattle.gw_board.specs.Ends.{Enters, Finds, new_watch, no_visits};
ghost use Rattle.gw_board.specs.Lists.{longer, InForceAfter};

use crate::count::CountReader;
use crate::history::Prefix;
use crate::refusals::NoReading;
use crate::shelf::Shelf;
use gw_frame::Frame;
use gw_ledger::PortSet;
use gw_policy::{PolicySet, VerdictCache};
use std::alloc::Global;
use std::marker::Model;
use std::sync::Arc;

/// What the operator had published when it told. Contracts see it as `Known`.
#[derive(Drop)]
pub struct Told {
    list: Prefix,
}

impl Model for Told {
    ghost use Rattle.gw_board.specs.Ends.{Known};

    ghost Value = { Known };

    ghost view = { λ t. t.list };
}

impl Told {
    pub(crate) fn new(list: Prefix) -> Told
        ensures { result ≡ list }
    {
        Told { list }
    }

    /// How many batches it has, at most 65535.
    pub fn len(&self) -> u64
        ensures value { result ≡ length self.now.batches }
        ensures few { length self.now.batches ≤ 65535 }
    {
        self.list.len()
    }
}

/// Reads the policies in force without waiting. Contracts see it as `Watching`.
#[derive(Drop)]
pub struct Watch {
    // There but while a call reads.
    reader: Option<CountReader>,
    shelf: Arc<Shelf, Global>,
    // The policies in force after the batches of `read`.
    set: PolicySet,
    // What those of `set` said of the last frames that judge by identifiers alone.
    verdicts: VerdictCache,
    read: Prefix,
    known: Prefix,
}

impl Model for Watch {
    ghost use Rattle.std.specs.Prelude.{◌≡◌};
    ghost use Rattle.std.specs.Arc.{arc_value};
    ghost use Rattle.gw_board.specs.Lists.{InForceAfter};
    ghost use Rattle.gw_board.specs.Ends.{Watching, visits_of};
    ghost use Rattle.gw_policy.specs.Cached.{Keeps};

    ghost Value = { Watching };

    ghost view = { λ w. record { board = w.known.board; batches = w.known.batches; visits = visits_of w.reader } };

    ghost invariant = { λ w. InForceAfter w.set w.read.batches × (w.read.board ≡ w.known.board)
        × (arc_value w.shelf ≡ w.known.board) × Keeps w.set w.verdicts };
}

impl Watch {
    ghost use Rattle.gw_board.specs.Ends.{Known};
    ghost use Rattle.std.specs.Prelude.{[]};

    pub(crate) fn new(reader: CountReader, shelf: Arc<Shelf, Global>, nothing: Prefix) -> Watch
        requires empty { nothing.batches ≡ [] }
        requires board { arc_value shelf ≡ nothing.board }
        requires outside { reader ≡ no_visits }
        ensures { result ≡ new_watch nothing.board }
    {
        Watch {
            reader: Some(reader),
            shelf,
            set: PolicySet::new(),
            verdicts: VerdictCache::new(),
            read: nothing.again(),
            known: nothing,
        }
    }

    /// How many batches it knows, at most 65535.
    pub fn len(&self) -> u64
        ensures value { result ≡ length self.now.batches }
        ensures few { length self.now.batches ≤ 65535 }
    {
        self.known.len()
    }

    /// Advances to the newer of two policy versions: the one that it knows, and the one that it is told. It takes the policies
    /// of the newer one here, so that the next reading need not.
    pub fn learn(&mut self, told: &Told)
        requires { told.now.board ≡ self.old.board }
        ensures board { self.new.board ≡ self.old.board }
        ensures value { self.new ≡ record self.old { batches = longer self.old.batches told.now.batches } }
        ensures kept { IsPrefix self.old.batches self.new.batches }
        ensures told { IsPrefix told.now.batches self.new.batches }
    {
        self.known = self.known.longer(&told.list);
        let count = self.len();
        // Where a newer version is laid there by now, the next reading takes that.
        if self.read.len() < count {
            self.catch_up(count);
        }
    }

    /// Enters the board, and calls `f` once on the policies that are shown then, or on newer ones that it was told. It never goes
    /// back to an older version. Refused, 77, it calls nothing and knows what it knew.
    ///
    /// However many versions were published since the last reading, it takes the newest in alone.
    pub fn with<R, F: FnOnce(&PolicySet) -> R + Drop>(&mut self, f: F) -> Result<R, NoReading>
        requires { F.IsAlwaysCallable f }
        ensures board { self.new.board ≡ self.old.board }
        ensures read { MatchResult result
            (λ r. IsPrefix self.old.batches self.new.batches
            × (set : PortPolicies) × InForceAfter set self.new.batches × FnOnceReturnsAt F.FnOnce f set r)
            (λ _. self.new.batches ≡ self.old.batches) }
        ensures entered { OnOk result (Enters self.old self.new) }
    {
        let count = self.enter()?;
        // A list that was learnt may be ahead of what `left_right` shows, and a frame is never judged by a shorter one.
        if self.read.len() < count.max(self.len()) {
            return Err(NoReading);
        }
        self.known = self.read.longer(&self.known);
        Ok(f(&self.set))
    }

    /// The ports below a number, except `from`, at which a frame may leave that was taken at the port `from`, by the policies
    /// that `with` would hand over. Those that judge by identifiers alone are not asked again of one that they judged lately.
    /// Refused, 77, it knows what it knew.
    pub fn egress_ports(&mut self, ports: u8, frame: &Frame, from: u8) -> Result<PortSet, NoReading>
        requires { ports ≤ 16 }
        ensures board { self.new.board ≡ self.old.board }
        ensures judged { MatchResult result
            (λ egress. IsPrefix self.old.batches self.new.batches
            × (egress ≡ ports_below ports (may_leave (reverse self.new.batches) from frame.now)))
            (λ _. self.new.batches ≡ self.old.batches) }
        ensures entered { OnOk result (Enters self.old self.new) }
    {
        let shown = self.enter()?;
        if self.read.len() < self.len().max(shown) {
            return Err(NoReading);
        }
        self.known = self.read.longer(&self.known);
        Ok(
            self.set
                .cached_egress_ports(&mut self.verdicts, ports, frame, from),
        )
    }

    // Enters, and answers how many batches are published at that step. It copies their policies before it leaves. The operator
    // shows the version after the next only once this watch has left.
    // Inlined, as the reader's two calls are, and `catch_up` is not: else a reading that finds nothing new takes twice as long.
    #[inline(always)]
    fn enter(&mut self) -> Result<u64, NoReading>
        ensures known { (self.new.board ≡ self.old.board) × (self.new.batches ≡ self.old.batches) }
        ensures found { IfOk result (λ count. Finds count self.old.visits self.new.visits) }
    {
        let Some(reader) = self.reader.take() else {
            return Err(NoReading);
        };
        match reader.enter() {
            Ok((reading, count)) => {
                if self.read.len() < count {
                    self.catch_up(count);
                }
                self.reader = Some(reading.leave());
                Ok(count)
            }
            Err(reader) => {
                self.reader = Some(reader);
                Err(NoReading)
            }
        }
    }

    // Takes in the policies after so many batches, where they lie on the shelf. The list that is known stays.
    #[cold]
    fn catch_up(&mut self, count: u64)
        ensures { self.new ≡ self.old }
    {
        let Some(version) = self.shelf.copy(count) else {
            return;
        };
        if version.len() == count {
            let (set, list) = version.into_parts();
            self.set = set;
            self.verdicts.clear();
            self.read = list;
        }
    }
}
