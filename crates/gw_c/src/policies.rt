//! Policies by handle, made of texts and code.

ghost use Rattle.std.specs.Prelude.{◌≡◌, ◌≢◌, map, Some, MatchOption, IsSomeAnd, IfOk, IfErr, IsOkAnd, IsErrAnd};
ghost use Rattle.gw_verify.specs.Flow.{forms_of};
ghost use Rattle.gw_input.specs.Programs.{IsProgramPolicy};
ghost use Rattle.gw_input.specs.Tables.{IsTablePolicy};
ghost use Rattle.gw_c.specs.declared.fault.Fault.TheVariants as fault;
ghost use Rattle.gw_c.specs.Faults.{Tells, IsTold};
ghost use Rattle.gw_c.specs.Held.{policy_in, HoldsPolicy};
ghost use Rattle.gw_c.specs.Policies.{
  raw_in,
  IsCodePolicy,
  IsAssembledPolicy,
  IsShown,
  RefusesCode,
  RefusesFilters,
  RefusesListing,
  RefusesAssembler,
  RefusesTable,
};

use crate::fault::{Fault, Told};
use crate::handle::Handle;
use crate::inner::Inner;
use gw_input::{ProgramFault, TableFault, program_policy, refused_place, table_policy};
use gw_insn::Raw;
use gw_policy::Policy;
use gw_text::assemble;
use gw_verify::{Path, Program, Refused};
use std::alloc::{AllocError, Global};
use std::sync::Arc;

/// `struct sock_filter` of `<linux/filter.h>`.
#[repr(C)]
#[derive(Clone, Copy)]
pub struct SockFilter {
    pub code: u16,
    pub jt: u8,
    pub jf: u8,
    pub k: u32,
}

/// Makes the policy of code. 0: `policy` holds it, and what it held is dropped. Else the number of the refusal: `policy` holds
/// what it held, and `error` says why.
#[unsafe(no_mangle)]
pub extern "C" fn jgw_call_policy_from_code(
    alloc: Global,
    code: &[SockFilter],
    policy: &mut Handle,
    error: &mut Told,
) -> u32
    ensures made { result ≡ 0 → HoldsPolicy (IsCodePolicy (map raw_in code.now)) policy.new.slot.value }
    ensures told { result ≢ 0 → IsTold (RefusesFilters code.now) error.new }
    ensures number { result ≢ 0 → error.new.names.number ≡ result }
    ensures untold { result ≡ 0 → error.new ≡ error.old }
    ensures kept { result ≢ 0 → policy.new.slot.value ≡ policy.old.slot.value }
{
    fill(of_filters(alloc, code), &[], policy, error)
}

/// Makes the policy of a listing, as `jgw_call_policy_from_code` does.
#[unsafe(no_mangle)]
pub extern "C" fn jgw_call_policy_from_listing(
    alloc: Global,
    text: &[u8],
    policy: &mut Handle,
    error: &mut Told,
) -> u32
    ensures made { result ≡ 0 → HoldsPolicy (IsProgramPolicy text.now) policy.new.slot.value }
    ensures told { result ≢ 0 → IsTold (RefusesListing text.now) error.new }
    ensures number { result ≢ 0 → error.new.names.number ≡ result }
    ensures untold { result ≡ 0 → error.new ≡ error.old }
    ensures kept { result ≢ 0 → policy.new.slot.value ≡ policy.old.slot.value }
{
    fill(of_listing(alloc, text), text, policy, error)
}

/// Makes the policy of an assembler text, as `jgw_call_policy_from_code` does.
#[unsafe(no_mangle)]
pub extern "C" fn jgw_call_policy_from_assembler(
    alloc: Global,
    text: &[u8],
    policy: &mut Handle,
    error: &mut Told,
) -> u32
    ensures made { result ≡ 0 → HoldsPolicy (IsAssembledPolicy text.now) policy.new.slot.value }
    ensures told { result ≢ 0 → IsTold (RefusesAssembler text.now) error.new }
    ensures number { result ≢ 0 → error.new.names.number ≡ result }
    ensures untold { result ≡ 0 → error.new ≡ error.old }
    ensures kept { result ≢ 0 → policy.new.slot.value ≡ policy.old.slot.value }
{
    fill(of_assembler(alloc, text), text, policy, error)
}

/// Makes the policy of a table's text, as `jgw_call_policy_from_code` does.
#[unsafe(no_mangle)]
pub extern "C" fn jgw_call_policy_from_table(
    alloc: Global,
    text: &[u8],
    policy: &mut Handle,
    error: &mut Told,
) -> u32
    ensures made { result ≡ 0 → HoldsPolicy (IsTablePolicy text.now) policy.new.slot.value }
    ensures told { result ≢ 0 → IsTold (RefusesTable text.now) error.new }
    ensures number { result ≢ 0 → error.new.names.number ≡ result }
    ensures untold { result ≡ 0 → error.new ≡ error.old }
    ensures kept { result ≢ 0 → policy.new.slot.value ≡ policy.old.slot.value }
{
    fill(of_table(alloc, text), text, policy, error)
}

/// Lets a second handle hold the same policy, for another thread. 100: memory was refused. 121: `policy` holds no policy.
#[unsafe(no_mangle)]
pub extern "C" fn jgw_call_policy_share(
    alloc: Global,
    policy: &mut Handle,
    other: &mut Handle,
) -> u32
    ensures shared { result ≡ 0 → IsSomeAnd (policy_in policy.old.slot.value)
        (λ shared. policy_in other.new.slot.value ≡ Some shared) }
    ensures refused { result ≢ 0 → MatchOption (policy_in policy.old.slot.value) (result ≡ 121) (λ _. result ≡ 100) }
    ensures left { result ≢ 0 → other.new.slot.value ≡ other.old.slot.value }
    ensures kept { policy.new.slot.value ≡ policy.old.slot.value }
{
    let Some(held) = policy.take(alloc) else {
        return 121;
    };
    let made = share(alloc, &held);
    policy.put(held);
    match made {
        Ok(made) => {
            other.put(made);
            0
        }
        Err(why) => why,
    }
}

/// A second owner of a policy, else the number of the refusal.
fn share(alloc: Global, held: &Inner) -> Result<Box<Inner>, u32>
    ensures shared { IfOk result (λ made. IsSomeAnd (policy_in (Some held.now))
        (λ shared. policy_in (Some made.value) ≡ Some shared)) }
    ensures refused { IfErr result (λ why. MatchOption (policy_in (Some held.now)) (why ≡ 121) (λ _. why ≡ 100)) }
{
    let Inner::Policy(policy) = held else {
        return Err(121);
    };
    let Ok(owner) = Arc::try_clone(policy) else {
        return Err(100);
    };
    match Box::new(alloc, Inner::Policy(owner)) {
        Ok(made) => Ok(made),
        Err(_) => Err(100),
    }
}

/// Puts what was made of a text into a handle, or tells why nothing was.
fn fill(made: Result<Box<Inner>, Fault>, text: &[u8], policy: &mut Handle, error: &mut Told) -> u32
    ensures made { result ≡ 0 → IsOkAnd made (λ held. policy.new.slot.value ≡ Some held.value) }
    ensures told { result ≢ 0 → IsErrAnd made (λ why. Tells why error.new) }
    ensures number { result ≢ 0 → error.new.names.number ≡ result }
    ensures untold { result ≡ 0 → error.new ≡ error.old }
    ensures kept { result ≢ 0 → policy.new.slot.value ≡ policy.old.slot.value }
{
    match made {
        Ok(held) => {
            policy.put(held);
            0
        }
        Err(why) => {
            *error = why.told(text);
            error.names.number
        }
    }
}

fn of_filters(alloc: Global, code: &[SockFilter]) -> Result<Box<Inner>, Fault>
    ensures made { IfOk result (λ held. HoldsPolicy (IsCodePolicy (map raw_in code.now)) (Some held.value)) }
    ensures refused { IfErr result (RefusesFilters code.now) }
{
    match raws(alloc, code) {
        Ok(raws) => of_code(alloc, raws),
        Err(_) => Err(Fault::OutOfMemory),
    }
}

/// The fields of each instruction.
fn raws(alloc: Global, code: &[SockFilter]) -> Result<Vec<Raw>, AllocError>
    ensures { IfOk result (λ raws. raws.items ≡ map raw_in code.now) }
{
    code.iter().map(|insn| insn.raw()).collect(alloc)
}

impl SockFilter {
    fn raw(self) -> Raw
        ensures { result ≡ raw_in self }
    {
        let SockFilter { code, jt, jf, k } = self;
        Raw { code, jt, jf, k }
    }
}

fn of_code(alloc: Global, code: Vec<Raw>) -> Result<Box<Inner>, Fault>
    ensures made { IfOk result (λ held. HoldsPolicy (IsCodePolicy code.items) (Some held.value)) }
    ensures refused { IfErr result (RefusesCode code.items) }
{
    match Program::check(alloc, code) {
        Ok(program) => hold(alloc, Policy::from_program(program)),
        Err(refused) => Err(Fault::Code {
            path: path_of(alloc, &refused),
            refused,
        }),
    }
}

/// A path that leaves the scratch word unset, where one does and there is memory for it.
fn path_of(alloc: Global, refused: &Refused) -> Option<Path>
    ensures { IsShown (forms_of refused.now.code.items) refused.now.why refused.now.place result }
{
    match refused.explain(alloc) {
        Ok(path) => path,
        Err(_) => None,
    }
}

fn of_listing(alloc: Global, text: &[u8]) -> Result<Box<Inner>, Fault>
    ensures made { IfOk result (λ held. HoldsPolicy (IsProgramPolicy text.now) (Some held.value)) }
    ensures refused { IfErr result (RefusesListing text.now) }
{
    match program_policy(alloc, text) {
        Ok(policy) => hold(alloc, policy),
        Err(ProgramFault::Listing(why)) => Err(Fault::Listing(why)),
        Err(ProgramFault::Code(refused)) => Err(Fault::Code {
            path: path_of(alloc, &refused),
            refused,
        }),
    }
}

fn of_assembler(alloc: Global, text: &[u8]) -> Result<Box<Inner>, Fault>
    ensures made { IfOk result (λ held. HoldsPolicy (IsAssembledPolicy text.now) (Some held.value)) }
    ensures refused { IfErr result (RefusesAssembler text.now) }
{
    let Ok(text) = str::from_utf8(text) else {
        return Err(Fault::NotUtf8);
    };
    match assemble(alloc, text) {
        Ok(code) => of_code(alloc, code),
        Err(why) => Err(Fault::Assembler(why)),
    }
}

fn of_table(alloc: Global, text: &[u8]) -> Result<Box<Inner>, Fault>
    ensures made { IfOk result (λ held. HoldsPolicy (IsTablePolicy text.now) (Some held.value)) }
    ensures refused { IfErr result (RefusesTable text.now) }
{
    match table_policy(alloc, text) {
        Ok(policy) => hold(alloc, policy),
        Err(TableFault::NotUtf8) => Err(Fault::NotUtf8),
        Err(TableFault::Text(why)) => Err(Fault::Table {
            place: refused_place(text, &why),
            why,
        }),
        Err(TableFault::OutOfMemory) => Err(Fault::OutOfMemory),
    }
}

/// A policy as a handle holds it.
fn hold(alloc: Global, policy: Policy) -> Result<Box<Inner>, Fault>
    ensures held { IfOk result (λ held. policy_in (Some held.value) ≡ Some policy) }
    ensures refused { IfErr result (λ why. why ≡ fault.OutOfMemory) }
{
    let Ok(policy) = Arc::new(alloc, policy) else {
        return Err(Fault::OutOfMemory);
    };
    match Box::new(alloc, Inner::Policy(policy)) {
        Ok(held) => Ok(held),
        Err(_) => Err(Fault::OutOfMemory),
    }
}
