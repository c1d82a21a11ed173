//! How paths that leave a scratch word unset come to each place.

ghost use Rattle.std.specs.Prelude.{◌≡◌, ◌≢◌, ◌+◌, ◌<◌, ◌≤◌, ◌↔◌, length, IsTrue, MatchBool, IfOk};
ghost use Rattle.gw_insn.specs.Form.{form};
ghost use Rattle.gw_verify.specs.Flow.{forms_of, Stores};
ghost use Rattle.gw_verify.specs.Next.{next_of, at_next};
ghost use Rattle.gw_verify.specs.Arrivals.{AreArrivals, with_arrival_from};

use crate::next::{Next, next_of};
use gw_insn::{Insn, Raw, decode};
use std::alloc::{AllocError, Global};

/// How a path that leaves the word unset comes to a place.
#[derive(Clone, Copy)]
pub enum Arrival {
    /// None does.
    Never,
    /// The code begins there.
    Start,
    /// From this place, just before it on the path.
    From(u32),
}

impl Arrival {
    /// Whether a path comes.
    pub fn comes(self) -> bool
        ensures { MatchBool result (self ≢ Arrival.Never) (self ≡ Arrival.Never) }
    {
        !matches!(self, Arrival::Never)
    }
}

/// For each place up to the last, how a path that leaves the word unset comes to it.
pub fn arrivals(
    alloc: Global,
    code: &[Raw],
    last: usize,
    word: u32,
) -> Result<Vec<Arrival>, AllocError>
    requires inside { last < length code.now }
    requires short { length code.now ≤ 65535 }
    ensures long { IfOk result (λ arrivals. length arrivals.items ≡ last + 1) }
    ensures arrivals { IfOk result (λ arrivals. AreArrivals (forms_of code.now) word arrivals.items) }
{
    let mut arrivals = vec![in alloc; Arrival::Never; last + 1]?;
    arrivals[0] = Arrival::Start;
    for (place, raw) in code[..last].iter().enumerate() {
        if let Some(insn) = decode(*raw) {
            if arrivals[place].comes() && !stores(insn, word) {
                arrive(&mut arrivals, insn, place as u32);
            }
        }
    }
    Ok(arrivals)
}

/// Notes that a path comes from a place to each place of the list that its instruction leads to.
fn arrive(arrivals: &mut [Arrival], insn: Insn, from: u32)
    requires { from < 65535 }
    ensures { arrivals.new ≡ at_next (with_arrival_from from) from (next_of (form insn)) arrivals.old }
{
    let after = from as usize + 1;
    match next_of(insn) {
        Next::Nowhere => {}
        Next::Following => note(arrivals, after, from),
        Next::Past(k) => note(arrivals, after + k as usize, from),
        Next::Either(jt, jf) => {
            note(arrivals, after + jt as usize, from);
            note(arrivals, after + jf as usize, from);
        }
    }
}

/// Notes it of one place, if it is in the list.
fn note(arrivals: &mut [Arrival], place: usize, from: u32)
    ensures { arrivals.new ≡ with_arrival_from from place arrivals.old }
{
    if place < arrivals.len() {
        arrivals[place] = Arrival::From(from);
    }
}

/// Whether the instruction stores the word.
pub fn stores(insn: Insn, word: u32) -> bool
    ensures { IsTrue result ↔ Stores (form insn) word }
{
    match insn {
        Insn::StoreA(k) => k == word,
        Insn::StoreX(k) => k == word,
        _ => false,
    }
}
