//! Lists of sets of rules.

ghost use Rattle.std.specs.Prelude.{◌≡◌, [], ◌+◌, ◌*◌, ◌≤◌, length, take, drop, OnOk};
ghost use Rattle.gw_table.specs.RuleSets.{IsSetOf, set_at, HasSet, Follows};
ghost use Rattle.gw_table.specs.Sections.{property_of, length_of, IsSection};

use crate::rule_set::{Property, word_of, words_for};
use crate::section::Section;
use crate::table::Rule;
use std::alloc::{AllocError, Global};

/// Sets of rules, one behind another.
#[derive(Drop)]
pub struct RuleSets {
    /// So many words has each set: one for 64 rules. Tables of no more have small sets, and with them a small index.
    pub words: usize,
    pub bits: Vec<u64>,
}

impl RuleSets {
    pub fn new(alloc: Global, rules: &[Rule]) -> RuleSets
        requires { length rules.now ≤ 256 }
        ensures none { result.bits.items ≡ [] }
        ensures room { length rules.now ≤ 64 * result.words }
        ensures few { result.words ≤ 4 }
    {
        RuleSets {
            words: words_for(rules),
            bits: Vec::new(alloc),
        }
    }

    /// Appends the sets of a section.
    pub fn append(&mut self, rules: &[Rule], section: Section) -> Result<(), AllocError>
        requires section { IsSection section }
        requires room { length rules.now ≤ 64 * self.old.words }
        requires few { self.old.words ≤ 4 }
        ensures words { self.new.words ≡ self.old.words }
        ensures follows { OnOk result (Follows (property_of section) (length_of section) rules.now self.old.words
            self.old.bits.items self.new.bits.items) }
    {
        self.bits
            .reserve_exact(section.len() as usize * self.words)?;
        for number in 0..section.len() {
            self.push(rules, section.property(number))?;
        }
        Ok(())
    }

    fn push(&mut self, rules: &[Rule], property: Property) -> Result<(), AllocError>
        requires room { length rules.now ≤ 64 * self.old.words }
        requires few { self.old.words ≤ 4 }
        ensures words { self.new.words ≡ self.old.words }
        ensures grown { OnOk result (length self.new.bits.items ≡ length self.old.bits.items + self.old.words) }
        ensures before { OnOk result (take (length self.old.bits.items) self.new.bits.items ≡ self.old.bits.items) }
        ensures set { OnOk result (IsSetOf property rules.now (drop (length self.old.bits.items) self.new.bits.items)) }
    {
        for word in 0..self.words {
            self.bits.push(word_of(rules, property, word))?;
        }
        Ok(())
    }

    /// The set at a position.
    pub fn at(&self, position: u32) -> &[u64]
        requires { HasSet self.now.words self.now.bits.items position }
        ensures set { result.now ≡ set_at self.now.words self.now.bits.items position }
        ensures len { length result.now ≡ self.now.words }
    {
        let start = position as usize * self.words;
        &self.bits[start..start + self.words]
    }
}
