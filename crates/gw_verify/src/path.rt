//! Paths that show how a scratch word may be unset.

ghost use Rattle.std.specs.Prelude.{ℕ, ◌≡◌, ◌+◌, ◌<◌, ◌≤◌, ◌↔◌, length, IsTrue, IfOk, IfSome, IfNone, IsSome};
ghost use Rattle.gw_insn.specs.Form.{form};
ghost use Rattle.gw_verify.specs.declared.cause.Cause.{Cause};
ghost use Rattle.gw_verify.specs.Flow.{Forms, forms_of, LeadsTo, PassesBy, IsBare, IsBarePath, IsBarePathTo};
ghost use Rattle.gw_verify.specs.Accepted.{IsAccepted, IsRefusal, EndsAtLoad};
ghost use Rattle.gw_verify.specs.Arrivals.{AreArrivals, ComeFromBefore};

use crate::arrival::{Arrival, arrivals, stores};
use crate::next::{Next, next_of};
use gw_insn::{Insn, Raw, decode};
use std::alloc::{AllocError, Global};
use std::fmt;
use std::fmt::{Display, Formatter};

/// A list of places of a code, each an instruction counted from 0.
#[derive(Drop, Debug)]
pub struct Path {
    /// The places, the first place of the code first.
    pub places: Vec<u32>,
}

/// The places, with spaces between.
impl Display for Path {
    fn fmt<W: fmt::Write>(&self, f: &mut Formatter<W>) -> fmt::Result {
        for (i, place) in self.places.iter().enumerate() {
            if i > 0 {
                f.write_str(" ")?;
            }
            write!(f, "{place}")?;
        }
        Ok(())
    }
}

/// Whether the places are a path of the code on which no place before the last stores the word. Where they
/// are, and the last place loads the word, the path shows that the code is not accepted, whoever found it.
pub fn holds(code: &[Raw], path: &Path, word: u32) -> bool
    requires word { word < 16 }
    requires short { length code.now ≤ 65535 }
    ensures path { IsTrue result ↔ IsBarePath (forms_of code.now) path.now.places.items word }
    ensures refutes { let forms = forms_of code.now in
        IsTrue result → EndsAtLoad forms path.now.places.items word → ¬ IsAccepted forms }
{
    let places = path.places.as_slice();
    if code.is_empty() || places.is_empty() || places[0] != 0 {
        return false;
    }
    for i in 1..places.len() {
        if !passes_by(code, places[i - 1] as usize, places[i] as usize, word) {
            return false;
        }
    }
    true
}

/// A path to the place for which `holds` is true: no place before the last stores the word. `None` where no
/// path is one, so for each place outside the code. The path need not be the shortest.
pub fn explain(
    alloc: Global,
    code: &[Raw],
    place: usize,
    word: u32,
) -> Result<Option<Path>, AllocError>
    requires word { word < 16 }
    requires short { length code.now ≤ 65535 }
    ensures found { IfOk result (λ found.
        IfSome found (λ path. IsBarePathTo (forms_of code.now) path.places.items place word)) }
    ensures holds { IfOk result (λ found. IfSome found (λ path. IsBarePath (forms_of code.now) path.places.items word)) }
    ensures none { IfOk result (λ found. IfNone found (¬ IsBare (forms_of code.now) place word)) }
    ensures after_refusal { IsRefusal (forms_of code.now) (Cause.UnsetWord word) place → IfOk result IsSome }
{
    if place >= code.len() {
        return Ok(None);
    }
    let arrivals = arrivals(alloc, code, place, word)?;
    if !arrivals[place].comes() {
        return Ok(None);
    }
    let path = path_back(alloc, &arrivals, place)?;
    Ok(Some(path))
}

/// The path that the arrivals tell of, from the first place to the last.
fn path_back(alloc: Global, arrivals: &[Arrival], last: usize) -> Result<Path, AllocError>
    requires inside { last < length arrivals.now }
    requires short { length arrivals.now ≤ 65535 }
    requires back { ComeFromBefore arrivals.now }
    ensures { (forms : Forms) (word : ℕ) → AreArrivals forms word arrivals.now → IsBare forms last word
        → IfOk result (λ path. IsBarePathTo forms path.places.items last word) }
{
    let mut places = Vec::new(alloc);
    let mut place = last as u32;
    while let Arrival::From(before) = arrivals[place as usize] {
        places.push(place)?;
        place = before;
    }
    places.push(place)?;
    places.reverse();
    Ok(Path { places })
}

/// Whether a place may follow another, which does not store the word.
fn passes_by(code: &[Raw], place: usize, to: usize, word: u32) -> bool
    requires { length code.now ≤ 65535 }
    ensures { IsTrue result ↔ PassesBy (forms_of code.now) word place to }
{
    if place >= code.len() || to >= code.len() {
        return false;
    }
    match decode(code[place]) {
        Some(insn) => leads_to(insn, place, to) && !stores(insn, word),
        None => false,
    }
}

/// Whether the instruction at a place may go on to another.
fn leads_to(insn: Insn, place: usize, to: usize) -> bool
    requires { place < 65535 }
    ensures { IsTrue result ↔ LeadsTo (form insn) place to }
{
    let after = place + 1;
    match next_of(insn) {
        Next::Nowhere => false,
        Next::Following => to == after,
        Next::Past(k) => to == after + k as usize,
        Next::Either(jt, jf) => to == after + jt as usize || to == after + jf as usize,
    }
}
