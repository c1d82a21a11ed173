//! Faults that an instruction has by itself.

ghost use Rattle.std.specs.Prelude.{◌≡◌, ℕ, ◌+◌, ◌<◌, ◌↔◌, IsTrue, option_map, IfSome, IfNone};
ghost use Rattle.gw_insn.specs.Form.{form};
ghost use Rattle.gw_verify.specs.declared.cause.Cause.{Cause};
ghost use Rattle.gw_verify.specs.Accepted.{DividesByZero, ShiftsTooFar, NamesNoWord, JumpsOut, IsAncillary};
ghost use Rattle.gw_verify.specs.OwnFault.{IsOwnFault};

use crate::cause::Cause;
use crate::next::{Next, next_of};
use gw_insn::{INTERFACE, Insn, NEGATIVE_OFFSETS, SCRATCH_WORDS};

/// The fault that an instruction has by itself, or an unknown code (`None`), at a place of a code of `len`
/// instructions.
pub fn own_fault(found: Option<Insn>, len: usize, place: usize) -> Option<Cause>
    requires { place < len }
    ensures some { IfSome result (IsOwnFault len place (option_map form found)) }
    ensures none { IfNone result ((cause : Cause) → IsOwnFault len place (option_map form found) cause → ⊥) }
{
    let Some(insn) = found else {
        return Some(Cause::UnknownCode);
    };
    if divides_by_zero(insn) {
        Some(Cause::DivideByZero)
    } else if shifts_too_far(insn) {
        Some(Cause::ShiftTooFar)
    } else if names_no_word(insn) {
        Some(Cause::NoSuchWord)
    } else if jumps_out(insn, len, place) {
        Some(Cause::JumpOut)
    } else if is_ancillary(insn) {
        Some(Cause::Ancillary)
    } else {
        None
    }
}

/// Whether the instruction divides by a constant 0.
fn divides_by_zero(insn: Insn) -> bool
    ensures { IsTrue result ↔ DividesByZero (form insn) }
{
    match insn {
        Insn::DivConstant(k) => k == 0,
        Insn::ModConstant(k) => k == 0,
        _ => false,
    }
}

/// Whether the instruction shifts by a constant of 32 or more.
fn shifts_too_far(insn: Insn) -> bool
    ensures { IsTrue result ↔ ShiftsTooFar (form insn) }
{
    match insn {
        Insn::LshConstant(k) => k >= 32,
        Insn::RshConstant(k) => k >= 32,
        _ => false,
    }
}

/// Whether the instruction names a scratch word that is not there.
fn names_no_word(insn: Insn) -> bool
    ensures { IsTrue result ↔ NamesNoWord (form insn) }
{
    match insn {
        Insn::LoadScratchA(k) => k as usize >= SCRATCH_WORDS,
        Insn::LoadScratchX(k) => k as usize >= SCRATCH_WORDS,
        Insn::StoreA(k) => k as usize >= SCRATCH_WORDS,
        Insn::StoreX(k) => k as usize >= SCRATCH_WORDS,
        _ => false,
    }
}

/// Whether the instruction at the place jumps out of a code of `len` instructions.
fn jumps_out(insn: Insn, len: usize, place: usize) -> bool
    requires { place < len }
    ensures { IsTrue result ↔ JumpsOut len place (form insn) }
{
    let after = len - place - 1;
    match next_of(insn) {
        Next::Past(k) => k as usize >= after,
        Next::Either(jt, jf) => jt as usize >= after || jf as usize >= after,
        Next::Nowhere | Next::Following => false,
    }
}

/// Whether the instruction is an absolute load at one of Linux's negative offsets, other than `ld ifidx`.
fn is_ancillary(insn: Insn) -> bool
    ensures { IsTrue result ↔ IsAncillary (form insn) }
{
    match insn {
        Insn::LoadWord(k) => k >= NEGATIVE_OFFSETS && k != INTERFACE,
        Insn::LoadHalf(k) => k >= NEGATIVE_OFFSETS,
        Insn::LoadByte(k) => k >= NEGATIVE_OFFSETS,
        _ => false,
    }
}
