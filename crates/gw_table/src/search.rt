//! A search for a frame that the rules at two indices decide.

ghost use Rattle.std.specs.Prelude.{◌≡◌, ℕ, ◌<◌, ◌≤◌, true, ◌&&◌, ◌||◌, List, length, All, IfOk, OnOk, MatchOption};
ghost use Rattle.std.specs.Bool.{OnTrue};
ghost use Rattle.std.specs.List.{list_any};
ghost use Rattle.gw_boxes.specs.Boxes.{holds};
ghost use Rattle.gw_table.specs.Table.{IsRule};
ghost use Rattle.gw_table.specs.Universes.{whole, lies_in_rule, holds_if_there, IsDecidedAt};
ghost use Rattle.gw_table.specs.PartIndices.{HoldFirst};

use crate::difference::Witness;
use crate::table::Rule;
use crate::universe::{UNIVERSES, Universe};
use gw_boxes::{Block, Point, free_point};
use std::alloc::{AllocError, Global};

/// An extended data frame of which the rules at an index of each list are the first to hold. An index that is the number of
/// rules stands for none.
pub fn common_frame(
    alloc: Global,
    old: &[Rule],
    a: usize,
    new: &[Rule],
    b: usize,
) -> Result<Option<Witness>, AllocError>
    requires old { All IsRule old.now }
    requires new { All IsRule new.now }
    requires a { a ≤ length old.now }
    requires b { b ≤ length new.now }
    ensures { IfOk result (λ found. MatchOption found
        ((octets : List ℕ) (port : ℕ) → ¬ HoldFirst old.now a new.now b octets port)
        (λ w. HoldFirst old.now a new.now b w.frame w.port)) }
{
    for number in 0..UNIVERSES {
        let universe = Universe::at(number);
        if let Some(point) = universe.common_point(alloc, old, a, new, b)? {
            return Ok(Some(Witness {
                frame: universe.frame_at(point),
                port: point.port as u8,
            }));
        }
    }
    Ok(None)
}

impl Universe {
    fn common_point(
        self,
        alloc: Global,
        old: &[Rule],
        a: usize,
        new: &[Rule],
        b: usize,
    ) -> Result<Option<Point>, AllocError>
        requires page { self.page < 4 }
        requires old { All IsRule old.now }
        requires new { All IsRule new.now }
        requires a { a ≤ length old.now }
        requires b { b ≤ length new.now }
        ensures { IfOk result (λ found. MatchOption found
            ((p : Point) → ¬ IsDecidedAt self old.now a new.now b p) (IsDecidedAt self old.now a new.now b)) }
    {
        let part = self.part_at(old, a).within(&self.part_at(new, b));
        if part.is_empty() {
            return Ok(None);
        }
        if self.hides(&old[..a], &part) {
            return Ok(None);
        }
        if self.hides(&new[..b], &part) {
            return Ok(None);
        }
        let mut others = Vec::new(alloc);
        self.push_meeting(&mut others, &part, &old[..a])?;
        self.push_meeting(&mut others, &part, &new[..b])?;
        free_point(alloc, part, &others)
    }

    /// The box of the points whose frames the rule at an index holds of, and all points where there is no rule.
    fn part_at(self, rules: &[Rule], index: usize) -> Block
        requires page { self.page < 4 }
        requires rules { All IsRule rules.now }
        ensures { (p : Point) → holds p result ≡ (holds p (whole self) && holds_if_there self rules.now index p) }
    {
        match rules.get(index) {
            Some(rule) => self.block().within(&self.block_of(rule)),
            None => self.block(),
        }
    }

    /// Whether one of the rules holds of all points of the part: of rules that lie within one another the last does.
    fn hides(self, rules: &[Rule], part: &Block) -> bool
        requires { All IsRule rules.now }
        ensures { OnTrue result ((p : Point) → holds p part.now ≡ true → list_any (lies_in_rule self p) rules.now ≡ true) }
    {
        for later in 0..rules.len() {
            let block = self.block_of(&rules[rules.len() - 1 - later]);
            if block.within(part) == *part {
                return true;
            }
        }
        false
    }

    /// Puts the boxes of the rules that share a point with the part behind the others.
    fn push_meeting(
        self,
        others: &mut Vec<Block>,
        part: &Block,
        rules: &[Rule],
    ) -> Result<(), AllocError>
        requires { All IsRule rules.now }
        ensures { OnOk result ((p : Point) → holds p part.now ≡ true → list_any (holds p) others.new.items
            ≡ (list_any (holds p) others.old.items || list_any (lies_in_rule self p) rules.now)) }
    {
        for rule in rules {
            let block = self.block_of(rule);
            if !block.within(part).is_empty() {
                others.push(block)?;
            }
        }
        Ok(())
    }
}
