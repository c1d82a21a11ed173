//! How many frames of each group passed, and how many were blocked.

ghost use Rattle.std.specs.Prelude.{◌≡◌, ◌<◌, slice_index_or};
ghost use Rattle.gw_judge.specs.Grouped.{no_verdicts, group_of, other_group, group_count};
ghost use Rattle.gw_judge.specs.declared.groups.Grouping.TheVariants.{Nothing};

use crate::fate::Fate;
use gw_ident::CanId;
use std::alloc::{AllocError, Global};
use std::marker::Model;

/// By what frames are counted, beside the parts of a table.
#[derive(Clone, Copy, PartialEq, Eq, Debug)]
pub enum Grouping {
    /// By nothing.
    Nothing,
    /// By parameter group number (PGN).
    Pgn,
    /// By source address.
    Source,
}

impl Grouping {
    /// The group of all frames that are no extended data frames. Its number is behind those of the other groups.
    pub fn other(self) -> usize
        ensures { result ≡ other_group self }
    {
        match self {
            Grouping::Nothing => 0,
            Grouping::Pgn => 262_144,
            Grouping::Source => 256,
        }
    }

    /// The group of a frame with this identifier word: its PGN or its source address.
    fn group(self, word: u32) -> usize
        ensures { result ≡ group_of self word }
    {
        let id = CanId::from_word(word);
        if !id.is_extended_data() {
            return self.other();
        }
        match self {
            Grouping::Nothing => 0,
            Grouping::Pgn => id.pgn() as usize,
            Grouping::Source => usize::from(id.source()),
        }
    }

    /// How many groups are counted.
    fn count(self) -> usize
        ensures { result ≡ group_count self }
    {
        match self {
            Grouping::Nothing => 0,
            Grouping::Pgn | Grouping::Source => self.other() + 1,
        }
    }
}

/// How many frames passed, and how many were blocked, each up to 18446744073709551615.
#[derive(Clone, Copy, PartialEq, Eq, Debug)]
pub struct Verdicts {
    pub passed: u64,
    pub blocked: u64,
}

impl Verdicts {
    ghost use Rattle.gw_judge.specs.Counting.{verdicts_with};

    /// With a frame of this fate more.
    fn with(mut self, fate: Fate) -> Verdicts
        ensures { result ≡ verdicts_with fate self }
    {
        match fate {
            Fate::Passed(_) => self.passed = self.passed.saturating_add(1),
            Fate::Blocked(_) => self.blocked = self.blocked.saturating_add(1),
            Fate::Silent | Fate::Refused(_) => {}
        }
        self
    }
}

/// The verdicts on the frames of each group.
#[derive(Drop)]
pub struct Groups {
    grouping: Grouping,
    // by the number of the group
    verdicts: Vec<Verdicts>,
}

impl Model for Groups {
    ghost use Rattle.gw_judge.specs.Grouped.{Grouped};

    ghost Value = { Grouped };

    ghost view = { λ g. record { grouping = g.grouping; verdicts = g.verdicts.items } };
}

impl Groups {
    ghost use Rattle.std.specs.Prelude.{IfOk, IsOk};
    ghost use Rattle.gw_judge.specs.Grouped.{no_groups};
    ghost use Rattle.gw_judge.specs.Counting.{groups_with, group_with};

    /// No frame yet. Grouping by nothing takes no memory.
    pub fn new(alloc: Global, grouping: Grouping) -> Result<Groups, AllocError>
        ensures fresh { IfOk result (λ groups. groups ≡ no_groups grouping) }
        ensures nothing { grouping ≡ Nothing → IsOk result }
    {
        let none = Verdicts {
            passed: 0,
            blocked: 0,
        };
        let verdicts = match grouping {
            Grouping::Nothing => Vec::new(alloc),
            Grouping::Pgn | Grouping::Source => vec![in alloc; none; grouping.count()]?,
        };
        Ok(Groups { grouping, verdicts })
    }

    /// By what frames are counted.
    pub fn grouping(&self) -> Grouping
        ensures { result ≡ self.now.grouping }
    {
        self.grouping
    }

    /// The verdicts on the frames of a group.
    pub fn verdicts(&self, group: usize) -> Verdicts
        ensures { result ≡ slice_index_or self.now.verdicts group no_verdicts }
    {
        if group < self.verdicts.len() {
            self.verdicts[group]
        } else {
            Verdicts {
                passed: 0,
                blocked: 0,
            }
        }
    }

    /// Counts a line of this fate.
    pub(crate) fn count(&mut self, fate: Fate)
        ensures { self.new ≡ groups_with fate self.old }
    {
        match fate {
            Fate::Passed(frame) | Fate::Blocked(frame) => {
                let group = self.grouping.group(frame.word);
                self.count_in(group, fate);
            }
            Fate::Silent | Fate::Refused(_) => {}
        }
    }

    /// Counts a frame of this fate in a group.
    fn count_in(&mut self, group: usize, fate: Fate)
        ensures { self.new ≡ group_with group fate self.old }
    {
        if group < self.verdicts.len() {
            self.verdicts[group] = self.verdicts[group].with(fate);
        }
    }
}
