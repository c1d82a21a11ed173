//! Sets of rules.

ghost use Rattle.std.specs.Prelude.{◌≡◌, ℕ, ◌+◌, ◌*◌, ◌/◌, ◌<◌, ◌≤◌, length, IfSome, IfNone, if◌then◌else◌};
ghost use Rattle.gw_table.specs.RuleSets.{span_of, has_property, marks, has, IsWordOf, common, IsLowest};

use crate::refusal::Field;
use crate::table::{Rule, Span};

/// So many rules a word of a set is for: rule i is bit i % 64 of word i / 64.
const WORD: usize = 64;

/// What the rules of a set have in common.
#[derive(Clone, Copy)]
pub enum Property {
    /// They pass.
    Passes,
    /// Their range of the field holds the number.
    Holds(Field, u32),
}

/// So many words a set of these rules has.
pub fn words_for(rules: &[Rule]) -> usize
    requires { length rules.now ≤ 256 }
    ensures room { length rules.now ≤ 64 * result }
    ensures few { result ≤ 4 }
{
    (rules.len() + (WORD - 1)) / WORD
}

/// A word of the set of the rules that have the property.
pub fn word_of(rules: &[Rule], property: Property, word: usize) -> u64
    requires { word < 4 }
    ensures { IsWordOf property rules.now word result }
{
    let mut bits = 0;
    for i in 0..WORD {
        if is_in(rules, property, word * WORD + i) {
            bits |= 1 << i;
        }
    }
    bits
}

/// Whether there is a rule of this number that has the property.
fn is_in(rules: &[Rule], property: Property, number: usize) -> bool
    ensures { (if result then 1 else 0) ≡ marks property rules.now number }
{
    match rules.get(number) {
        Some(rule) => rule.has(property),
        None => false,
    }
}

/// Whether a rule is in a set.
pub fn is_member(set: &[u64], rule: usize) -> bool
    requires { rule / 64 < length set.now }
    ensures { (if result then 1 else 0) ≡ has set.now rule }
{
    set[rule / WORD] >> (rule % WORD) & 1 == 1
}

/// The lowest rule that four sets share.
pub fn lowest_common(a: &[u64], b: &[u64], c: &[u64], d: &[u64]) -> Option<usize>
    requires few { length a.now ≤ 4 }
    requires b { length b.now ≡ length a.now }
    requires c { length c.now ≡ length a.now }
    requires d { length d.now ≡ length a.now }
    ensures first { IfSome result (IsLowest (common a.now b.now c.now d.now)) }
    ensures none { IfNone result ((rule : ℕ) → common a.now b.now c.now d.now rule ≡ 0) }
{
    for (word, bits) in a.iter().enumerate() {
        let shared = bits & b[word] & c[word] & d[word];
        if shared != 0 {
            return Some(word * WORD + shared.trailing_zeros() as usize);
        }
    }
    None
}

impl Rule {
    fn has(&self, property: Property) -> bool
        ensures { result ≡ has_property property self.now }
    {
        match property {
            Property::Passes => self.action.passes(),
            Property::Holds(field, number) => self.span(field).contains(number),
        }
    }

    /// The rule's range of a field.
    pub(crate) fn span(&self, field: Field) -> Span
        ensures { result ≡ span_of field self.now }
    {
        match field {
            Field::Pgn => self.pgn,
            Field::Source => self.source,
            Field::Destination => self.destination,
            Field::From => self.from,
        }
    }
}
