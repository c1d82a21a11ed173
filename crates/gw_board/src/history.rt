//! The one list of batches of a board, oldest first, which only grows; and the beginnings of it that were seen.
//!
//! The list exists in the proofs alone (`logbook`). What runs is one word, its length, and in each end the length that the
//! end has seen.

ghost use Rattle.std.specs.Prelude.{◌≡◌, ◌+◌, ◌<◌, ◌≤◌, ◌++◌, ◌∷◌, [], length, MatchBool};
ghost use mathlib.Core.List.{IsPrefix};
ghost use Rattle.gw_board.specs.Lists.{longer};
ghost use Rattle.gw_board.specs.Rules.{head_of};

use gw_policy::Batch;
use logbook::{Gain, Offer, Plain, Play, Rule, Seen, Start, Word};
use std::marker::Model;

/// The rule of the list: the word is its length.
pub struct LengthRule;

impl Rule<Batch, u64> for LengthRule {
    ghost use Rattle.std.specs.Prelude.{[]};
    ghost use base.Fml.{ftrue};
    ghost use Rattle.gw_board.specs.Rules.{IsLengthKept};

    ghost holds = { λ cells log. IsLengthKept cells log };

    ghost first = { [] };

    ghost hinted = { λ n log. Unit {0} };

    ghost shows = { λ log. [] };

    ghost keeps = { λ names log. ftrue };

    ghost moves = { λ ask before after answer. Unit {0} };
}

/// Ends trade nothing but what they saw.
pub struct NoTrade;

impl Gain<Batch, u64> for NoTrade {
    ghost use base.Fml.{ftrue};

    ghost after = { λ names about answer. ftrue };
}

/// The step that adds a batch.
pub struct AddBatch;

impl Play<Batch, u64> for AddBatch {
    ghost use Rattle.gw_board.specs.Rules.{AddsBatch};

    ghost then = { AddsBatch };
}

/// What the step is about: the batch.
impl Plain<Batch, Batch, u64> for AddBatch {
    ghost use Rattle.std.specs.Prelude.{None};

    ghost ask = { λ batch. batch };

    ghost state = { λ batch. None };
}

/// The word that is the list's length. Contracts see which board it is of.
#[derive(Drop)]
pub struct LengthWord {
    head: Word<Batch, u64, LengthRule>,
}

impl Model for LengthWord {
    ghost use Rattle.std.specs.Prelude.{◌≡◌};
    ghost use Rattle.logbook.specs.Pages.{Book};
    ghost use Rattle.gw_board.specs.Rules.{head_of};

    ghost Value = { Book };

    ghost view = { λ w. w.head.book };

    ghost invariant = { λ w. w.head ≡ head_of w.head.book };
}

/// A beginning of a board's list that was seen. Contracts see it as `Known`.
#[derive(Drop)]
pub struct Prefix {
    count: u64,
    seen: Seen<Batch, u64, LengthRule>,
}

impl Model for Prefix {
    ghost use Rattle.std.specs.Prelude.{◌≡◌, ◌≤◌, length};
    ghost use Rattle.gw_board.specs.Ends.{Known};

    ghost Value = { Known };

    ghost view = { λ p. record { board = p.seen.book; batches = p.seen.log } };

    ghost invariant = { λ p. (p.count ≡ length p.seen.log) × (length p.seen.log ≤ 65535) };
}

/// A new list with no batch.
pub fn open() -> (LengthWord, Prefix)
    ensures { (result.1.board ≡ result.0) × (result.1.batches ≡ []) }
{
    let (seen, mut first, _second) = Seen::open(Start::alone(), 0, 0);
    let head = Word::tracked(0, &mut first);
    (LengthWord { head }, Prefix { count: 0, seen })
}

impl Prefix {
    ghost use Rattle.gw_board.specs.Ends.{Known};

    /// How many batches it has, at most 65535.
    pub fn len(&self) -> u64
        ensures value { result ≡ length self.now.batches }
        ensures few { length self.now.batches ≤ 65535 }
    {
        self.count
    }

    /// The same once more.
    pub fn again(&self) -> Prefix
        ensures { result ≡ self.now }
    {
        Prefix {
            count: self.count,
            seen: self.seen.again(),
        }
    }

    /// The longer of two beginnings of one board's list.
    pub fn longer(&self, other: &Prefix) -> Prefix
        requires { other.now.board ≡ self.now.board }
        ensures value { result ≡ record self.now { batches = longer self.now.batches other.now.batches } }
        ensures this { IsPrefix self.now.batches result.batches }
        ensures that { IsPrefix other.now.batches result.batches }
    {
        // No code: that both begin one list is learnt here.
        let mut both = self.seen.again();
        both.learn(&other.seen);
        if self.count < other.count {
            other.again()
        } else {
            self.again()
        }
    }

    /// Adds a batch to the list, and answers whether it did. It did not where the list is longer than what was seen.
    pub fn add(&mut self, word: &LengthWord, batch: &Batch) -> bool
        requires board { word.now ≡ self.old.board }
        requires few { length self.old.batches < 65535 }
        ensures board { self.new.board ≡ self.old.board }
        ensures added { MatchBool result
            (self.new.batches ≡ self.old.batches ++ batch.now ∷ [])
            (IsPrefix self.old.batches self.new.batches × (length self.old.batches < length self.new.batches)) }
    {
        let mut offer: Offer<Batch, u64, LengthRule, NoTrade> = self
            .seen
            .plain::<NoTrade, Batch, AddBatch>(batch);
        let mut pen = self.seen.no_pen();
        let count = self.count;
        let found = word
            .head
            .compare_exchange::<AddBatch, NoTrade>(
                count,
                count + 1,
                &mut self.seen,
                &mut offer,
                &mut pen,
            );
        self.count = if found == count { count + 1 } else { found };
        found == count
    }
}
