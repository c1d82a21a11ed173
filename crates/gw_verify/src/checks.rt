//! The checks of a code, in their order.

ghost use Rattle.std.specs.Prelude.{◌≡◌, ◌-◌, ◌<◌, length, IfSome, IfNone, MatchBool};
ghost use Rattle.gw_verify.specs.Flow.{forms_of};
ghost use Rattle.gw_insn.specs.Form.{form};
ghost use Rattle.gw_verify.specs.Accepted.{IsAccepted, IsFirstFault, IsFault, IsNoReturn};
ghost use Rattle.gw_verify.specs.OwnFault.{HasOwnFault, NoOwnFaultBelow, EndsInReturn};

use crate::cause::Cause;
use crate::marks::first_unset_load;
use crate::own_fault::own_fault;
use gw_insn::{Insn, MAX_INSNS, Raw, decode};

/// The first fault of the code, in the order of the causes, and its place.
pub fn first_fault(code: &[Raw]) -> Option<(Cause, usize)>
    ensures some { IfSome result (λ found. IsFirstFault (forms_of code.now) found.0 found.1) }
    ensures none { IfNone result (IsAccepted (forms_of code.now)) }
{
    if code.is_empty() {
        return Some((Cause::Empty, 0));
    }
    if code.len() > MAX_INSNS {
        return Some((Cause::TooLong, MAX_INSNS));
    }
    if let Some(found) = first_own_fault(code) {
        return Some(found);
    }
    if !ends_in_return(code) {
        return Some((Cause::NoReturnAtEnd, code.len() - 1));
    }
    if let Some((word, place)) = first_unset_load(code) {
        return Some((Cause::UnsetWord { word }, place));
    }
    None
}

/// The first fault that an instruction has by itself, and its place.
fn first_own_fault(code: &[Raw]) -> Option<(Cause, usize)>
    ensures some { IfSome result (λ found.
        HasOwnFault (forms_of code.now) found.0 found.1 × NoOwnFaultBelow (forms_of code.now) found.1) }
    ensures none { IfNone result (NoOwnFaultBelow (forms_of code.now) (length code.now)) }
{
    for (place, raw) in code.iter().enumerate() {
        if let Some(cause) = own_fault(decode(*raw), code.len(), place) {
            return Some((cause, place));
        }
    }
    None
}

/// Whether the last instruction is a return. An unknown code counts as one, since it is a fault by itself.
fn ends_in_return(code: &[Raw]) -> bool
    requires { 0 < length code.now }
    ensures { MatchBool result (EndsInReturn (forms_of code.now))
        (IsFault (forms_of code.now) Cause.NoReturnAtEnd (length code.now - 1)) }
{
    match decode(code[code.len() - 1]) {
        Some(insn) => is_return(insn),
        None => true,
    }
}

/// Whether the instruction is a return.
fn is_return(insn: Insn) -> bool
    ensures { MatchBool result (¬ IsNoReturn (form insn)) (IsNoReturn (form insn)) }
{
    matches!(insn, Insn::ReturnConstant(_) | Insn::ReturnA)
}
