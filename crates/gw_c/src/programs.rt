//! The program of a policy, by handle: its code, and its answers.

ghost use Rattle.std.specs.Prelude.{◌≡◌, ◌≢◌, ◌++◌, length, map, drop, Some};
ghost use Rattle.gw_c.specs.Held.{policy_in};
ghost use Rattle.gw_c.specs.Programs.{answer_by, answer_refusal, code_in, code_refusal, filter_of, length_in};

use crate::can::{CanFrame, frame_of};
use crate::handle::Handle;
use crate::inner::Inner;
use crate::policies::SockFilter;
use gw_insn::{Insn, encode};
use gw_machine::run;
use gw_policy::Policy;
use std::alloc::Global;

/// What the program of a policy answers on a frame that was taken at a port, as libpcap's `bpf_filter` does on its record. That
/// of a table is the one that it was compiled to. 0: `answer` has it. 3: the frame's length is above 8. 121: the handle holds
/// no policy.
#[unsafe(no_mangle)]
pub extern "C" fn jgw_call_answer(
    alloc: Global,
    policy: &mut Handle,
    can: &CanFrame,
    port: u8,
    answer: &mut u32,
) -> u32
    ensures refusal { result ≡ answer_refusal (policy_in policy.old.slot.value) can.now }
    ensures answer { answer.new ≡ answer_by (policy_in policy.old.slot.value) can.now port answer.old }
    ensures kept { policy.new.slot.value ≡ policy.old.slot.value }
{
    let Some(held) = policy.take(alloc) else {
        return 121;
    };
    let refusal = match &*held {
        Inner::Policy(policy) => answer_on(policy, can, port, answer),
        _ => 121,
    };
    policy.put(held);
    refusal
}

/// The answer of a policy's program.
fn answer_on(policy: &Policy, can: &CanFrame, port: u8, answer: &mut u32) -> u32
    ensures refusal { result ≡ answer_refusal (Some policy.now) can.now }
    ensures answer { answer.new ≡ answer_by (Some policy.now) can.now port answer.old }
{
    let Some(frame) = frame_of(can) else {
        return 3;
    };
    *answer = run(policy.program(), &frame, port);
    0
}

/// The code of a policy's program, as `jgw_call_policy_from_code` takes it. `count` gets how many instructions it has. 0: they
/// stand in `code`, and the room behind them is left. 121: the handle holds no policy. 123: there is room for fewer.
#[unsafe(no_mangle)]
pub extern "C" fn jgw_call_policy_code(
    alloc: Global,
    policy: &mut Handle,
    code: &mut [SockFilter],
    count: &mut u32,
) -> u32
    ensures refusal { result ≡ code_refusal (policy_in policy.old.slot.value) (length code.old) }
    ensures count { count.new ≡ length_in (policy_in policy.old.slot.value) count.old }
    ensures code { result ≡ 0 → code.new ≡ map filter_of (code_in (policy_in policy.old.slot.value))
        ++ drop (length (code_in (policy_in policy.old.slot.value))) code.old }
    ensures refused { result ≢ 0 → code.new ≡ code.old }
    ensures kept { policy.new.slot.value ≡ policy.old.slot.value }
{
    let Some(held) = policy.take(alloc) else {
        return 121;
    };
    let refusal = match &*held {
        Inner::Policy(policy) => write_within(policy, code, count),
        _ => 121,
    };
    policy.put(held);
    refusal
}

/// The code of a policy's program, where there is room for it, and how many instructions it has.
fn write_within(policy: &Policy, code: &mut [SockFilter], count: &mut u32) -> u32
    ensures refusal { result ≡ code_refusal (Some policy.now) (length code.old) }
    ensures count { count.new ≡ length_in (Some policy.now) count.old }
    ensures code { result ≡ 0 → code.new ≡ map filter_of (code_in (Some policy.now))
        ++ drop (length (code_in (Some policy.now))) code.old }
    ensures refused { result ≢ 0 → code.new ≡ code.old }
{
    let insns = policy.program().code();
    *count = insns.len() as u32;
    if code.len() < insns.len() {
        return 123;
    }
    write_each(insns, &mut code[..insns.len()]);
    0
}

/// Each instruction as Linux lays it out.
fn write_each(insns: &[Insn], code: &mut [SockFilter])
    requires { length code.old ≡ length insns.now }
    ensures { code.new ≡ map filter_of insns.now }
{
    for (i, filter) in code.iter_mut().enumerate() {
        *filter = filter_of(insns[i]);
    }
}

fn filter_of(insn: Insn) -> SockFilter
    ensures { result ≡ filter_of insn }
{
    let raw = encode(insn);
    SockFilter {
        code: raw.code,
        jt: raw.jt,
        jf: raw.jf,
        k: raw.k,
    }
}
