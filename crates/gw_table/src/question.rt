//! Questions about what a table passes.

ghost use Rattle.std.specs.Prelude.{◌≡◌, ◌≢◌, ℕ, ◌+◌, ◌<◌, ◌≤◌, true, false, List, length, IfOk, MatchOption};
ghost use Rattle.gw_ident.specs.Identifier.{is_extended_data};
ghost use Rattle.gw_frame.specs.Record.{word_of};
ghost use Rattle.gw_table.specs.Table.{lies_in, matches, table_passes, Fits, IsRule};
ghost use Rattle.gw_table.specs.PartIndices.{index_of};
ghost use Rattle.gw_table.specs.Question.{lies_in_given, is_asked, IsAsked, IsSample, IsAnswer};

use crate::difference::Witness;
use crate::no_frame::WhyNoFrame;
use crate::search::common_frame;
use crate::table::{Action, GREATEST_GROUP, GREATEST_OCTET, Part, Rule, Span, Table};
use crate::universe::empty_frame;
use gw_frame::Frame;
use gw_ledger::MAX_PORTS;
use std::alloc::{AllocError, Global};

/// A box of frames and ports: a range that is left out holds of each frame, and a range of numbers only of a frame that has them.
#[derive(Clone, Copy, Debug)]
pub struct Question {
    pub pgn: Option<Span>,
    pub source: Option<Span>,
    pub destination: Option<Span>,
    pub from: Option<Span>,
}

/// A frame of the box that is taken at a port, and the part that decides it.
#[derive(Clone, Copy, Debug)]
pub struct Sample {
    pub by: Part,
    pub frame: Frame,
    pub port: u8,
}

/// What a table does to the frames of a box.
#[derive(Clone, Copy, Debug)]
pub enum Answer {
    AllPass(Sample),
    NonePass(Sample),
    SomePass { passing: Sample, blocked: Sample },
    /// The box holds no frame, for the first cause in the order of `WhyNoFrame`.
    NoFrame(WhyNoFrame),
}

impl Table {
    /// What the table does to the frames that are asked for. It is refused for want of memory alone.
    pub fn answers(&self, alloc: Global, question: &Question) -> Result<Answer, AllocError>
        ensures { IfOk result (IsAnswer self.now question.now) }
    {
        let passing = self.sample(alloc, question, true)?;
        let blocked = self.sample(alloc, question, false)?;
        Ok(match (passing, blocked) {
            (Some(passing), Some(blocked)) => Answer::SomePass { passing, blocked },
            (Some(passing), None) => Answer::AllPass(passing),
            (None, Some(blocked)) => Answer::NonePass(blocked),
            (None, None) => Answer::NoFrame(question.why_no_frame()),
        })
    }

    /// A frame that is asked for and that the table passes, or blocks.
    fn sample(
        &self,
        alloc: Global,
        question: &Question,
        passes: bool,
    ) -> Result<Option<Sample>, AllocError>
        ensures { IfOk result (λ found. MatchOption found
            ((octets : List ℕ) (port : ℕ) → IsAsked question.now octets port → table_passes self.now octets port ≢ passes)
            (IsSample self.now question.now passes)) }
    {
        for index in 0..self.part_count() {
            if self.action_at(index).passes() == passes {
                if let Some(witness) = asked_at(alloc, self, index, question)? {
                    return Ok(Some(Sample {
                        by: self.part_at(index),
                        frame: witness.frame,
                        port: witness.port,
                    }));
                }
            }
        }
        Ok(None)
    }
}

/// A frame that is asked for and that the part at an index decides.
fn asked_at(
    alloc: Global,
    table: &Table,
    index: usize,
    question: &Question,
) -> Result<Option<Witness>, AllocError>
    requires { index < length table.now.rules + 2 }
    ensures { IfOk result (λ found. MatchOption found
        ((octets : List ℕ) (port : ℕ) → IsAsked question.now octets port → index_of table.now octets port ≢ index)
        (λ w. IsAsked question.now w.frame w.port × (index_of table.now w.frame w.port ≡ index))) }
{
    if index > table.rules().len() {
        return Ok(question.short_witness());
    }
    match question.rule() {
        Some(rule) => common_frame(alloc, &[rule], 0, table.rules(), index),
        None => Ok(None),
    }
}

impl Question {
    /// The rule that holds of the extended data frames that are asked for, unless there is none.
    fn rule(&self) -> Option<Rule>
        ensures { MatchOption result
            ((octets : List ℕ) (port : ℕ) → port < 16 → is_extended_data (word_of octets) ≡ true
            → is_asked self.now octets port ≡ false)
            (λ rule. IsRule rule × ((octets : List ℕ) (port : ℕ) → port < 16 → is_extended_data (word_of octets) ≡ true
            → matches octets port rule ≡ is_asked self.now octets port)) }
    {
        Some(Rule {
            action: Action::Block,
            pgn: cut(self.pgn, GREATEST_GROUP)?,
            source: cut(self.source, GREATEST_OCTET)?,
            destination: cut(self.destination, GREATEST_OCTET)?,
            from: cut(self.from, GREATEST_OCTET)?,
        })
    }

    /// A frame of 11 bits that is asked for.
    fn short_witness(&self) -> Option<Witness>
        ensures { MatchOption result
            ((octets : List ℕ) (port : ℕ) → IsAsked self.now octets port → is_extended_data (word_of octets) ≢ false)
            (λ w. IsAsked self.now w.frame w.port × (is_extended_data (word_of w.frame) ≡ false)) }
    {
        if self.pgn.is_some() || self.source.is_some() || self.destination.is_some() {
            return None;
        }
        let ports = cut(self.from, MAX_PORTS as u32 - 1)?;
        Some(Witness {
            frame: empty_frame(0),
            port: ports.low as u8,
        })
    }
}

/// The numbers of a range up to the greatest of its field, and all of them where it is left out.
pub fn cut(span: Option<Span>, greatest: u32) -> Option<Span>
    ensures { MatchOption result ((n : ℕ) → n ≤ greatest → lies_in_given n span ≡ false)
        (λ cut. Fits greatest cut × ((n : ℕ) → n ≤ greatest → lies_in n cut ≡ lies_in_given n span)) }
{
    let Span { low, high } = span.unwrap_or(Span {
        low: 0,
        high: greatest,
    });
    let high = high.min(greatest);
    if low <= high {
        Some(Span { low, high })
    } else {
        None
    }
}
