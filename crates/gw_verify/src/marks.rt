//! The words that may be unset at each place.

ghost use Rattle.std.specs.Prelude.{◌≡◌, ℕ, ◌+◌, ◌<◌, ◌≤◌, ◌↔◌, length, IfSome, IfNone};
ghost use Rattle.std.specs.Int.{bit_at};
ghost use Rattle.gw_insn.specs.Form.{form};
ghost use Rattle.gw_verify.specs.Flow.{forms_of, Loads};
ghost use Rattle.gw_verify.specs.Next.{next_of, at_next};
ghost use Rattle.gw_verify.specs.Orderly.{IsOrderly, NamesWord, StaysBelow};
ghost use Rattle.gw_verify.specs.UnsetLoad.{IsUnsetLoad, NoUnsetLoadBelow, IsLeft, marked};

use crate::next::{Next, next_of};
use gw_insn::{Insn, MAX_INSNS, Raw, decode};

/// A set of scratch words: bit w stands for word w.
type Mask = u16;

/// The first load of a word that some path to it leaves unset: the word, and the place.
pub fn first_unset_load(code: &[Raw]) -> Option<(u32, usize)>
    requires { IsOrderly (forms_of code.now) }
    ensures some { IfSome result (λ found.
        IsUnsetLoad (forms_of code.now) found.0 found.1 × NoUnsetLoadBelow (forms_of code.now) found.1) }
    ensures none { IfNone result (NoUnsetLoadBelow (forms_of code.now) (length code.now)) }
{
    // For each place, the words that some path to it leaves unset. Instructions lead forward, so a mask is
    // complete once the places before it are passed. That of a place that no path reaches stays empty.
    let mut marks = [0; MAX_INSNS];
    marks[0] = Mask::MAX;
    for (place, raw) in code.iter().enumerate() {
        if let Some(insn) = decode(*raw) {
            if let Some(word) = unset_load(insn, marks[place]) {
                return Some((word, place));
            }
            let unset = left_unset(insn, marks[place]);
            carry(&mut marks, insn, place, unset);
        }
    }
    None
}

/// The word that the instruction loads, where it is one of the unset words.
fn unset_load(insn: Insn, unset: Mask) -> Option<u32>
    requires { NamesWord (form insn) }
    ensures some { IfSome result (λ word. Loads (form insn) word × (bit_at unset word ≡ 1)) }
    ensures none { IfNone result ((word : ℕ) → Loads (form insn) word → bit_at unset word ≡ 1 → ⊥) }
{
    match insn {
        Insn::LoadScratchA(word) if (unset >> word) & 1 == 1 => Some(word),
        Insn::LoadScratchX(word) if (unset >> word) & 1 == 1 => Some(word),
        _ => None,
    }
}

/// The unset words without that which the instruction stores.
fn left_unset(insn: Insn, unset: Mask) -> Mask
    requires { NamesWord (form insn) }
    ensures { IsLeft (form insn) unset result }
{
    match insn {
        Insn::StoreA(word) => without(unset, word),
        Insn::StoreX(word) => without(unset, word),
        _ => unset,
    }
}

/// The words without one of them.
fn without(words: Mask, word: u32) -> Mask
    requires { word < 16 }
    ensures { (other : ℕ) → other < 16 → (bit_at result other ≡ 1) ↔ ((bit_at words other ≡ 1) × ¬ (word ≡ other)) }
{
    words & !(1 << word)
}

/// Adds the unset words to the mask of each place that the instruction leads to.
fn carry(marks: &mut [Mask; MAX_INSNS], insn: Insn, place: usize, unset: Mask)
    requires { StaysBelow 4096 place (form insn) }
    ensures { marks.new ≡ at_next (marked unset) place (next_of (form insn)) marks.old }
{
    match next_of(insn) {
        Next::Nowhere => {}
        Next::Following => mark(marks, place + 1, unset),
        Next::Past(k) => mark(marks, place + 1 + k as usize, unset),
        Next::Either(jt, jf) => {
            mark(marks, place + 1 + jt as usize, unset);
            mark(marks, place + 1 + jf as usize, unset);
        }
    }
}

/// Adds the unset words to the mask of a place.
fn mark(marks: &mut [Mask; MAX_INSNS], place: usize, unset: Mask)
    requires { place < 4096 }
    ensures { marks.new ≡ marked unset place marks.old }
{
    marks[place] |= unset;
}
