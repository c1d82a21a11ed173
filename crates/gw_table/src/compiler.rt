//! Tables compiled to programs.

ghost use Rattle.std.specs.Prelude.{◌≡◌, ℕ, ◌<◌, ◌≤◌, ◌↔◌, false, List, ◌++◌, length, map, IfOk, OnOk};
ghost use Rattle.gw_frame.specs.Record.{IsRecord};
ghost use Rattle.gw_insn.specs.declared.insn.Insn.{Insn};
ghost use Rattle.gw_insn.specs.Table.{raw_of};
ghost use Rattle.gw_verify.specs.Flow.{program_forms};
ghost use Rattle.gw_verify.specs.Accepted.{IsAccepted};
ghost use Rattle.gw_machine.specs.Answers.{answer_of};
ghost use Rattle.gw_table.specs.Table.{table_passes};
ghost use Rattle.gw_table.specs.Emission.{
  return_of,
  prologue,
  is_whole,
  tests,
  tests_unless_whole,
  from_part,
  destination_part,
  rule_code,
  body,
  head,
  group_code,
  emission,
};

use crate::table::{Action, GREATEST_GROUP, GREATEST_OCTET, PDU2, Rule, Span, Table};
use gw_ident::{ERROR_FLAG, EXTENDED_FLAG, GLOBAL, REMOTE_FLAG};
use gw_insn::{INTERFACE, Insn, Raw, encode};
use gw_machine::one_answer;
use gw_verify::{Cause, Program};
use std::alloc::{AllocError, Global};

/// The scratch word of a frame's parameter group number.
const GROUP: u32 = 0;

/// The scratch word of its source address.
const SOURCE: u32 = 1;

/// The scratch word of its destination address.
const DESTINATION: u32 = 2;

/// Compiles a table to a program that passes what the table passes, at every ingress port: it answers 1 for a
/// frame that passes and 0 for one that is blocked. It is refused for want of memory alone.
pub fn compile(alloc: Global, table: &Table) -> Result<Program, AllocError>
    ensures emitted { IfOk result (λ program. program ≡ emission table.now) }
    ensures means { IfOk result (λ program. (octets : List ℕ) (port : ℕ) → IsRecord octets → port < 256
        → (answer_of program octets port ≡ 0) ↔ (table_passes table.now octets port ≡ false)) }
{
    one_answer();
    match Program::check(alloc, emitted(alloc, table)?) {
        Ok(program) => Ok(program),
        Err(refused) => match refused.why {
            Cause::OutOfMemory => Err(AllocError),
            _ => unreachable!(),
        },
    }
}

/// The code of a table.
fn emitted(alloc: Global, table: &Table) -> Result<Vec<Raw>, AllocError>
    ensures code { IfOk result (λ code. code.items ≡ map raw_of (emission table.now)) }
    ensures accepted { OnOk result (IsAccepted (program_forms (emission table.now))) }
{
    let mut code = Vec::new(alloc);
    push_all(&mut code, &prologue(table.other))?;
    for group in table.rules.chunk_by(|a, b| a.pgn == b.pgn) {
        push_group(&mut code, group)?;
    }
    push_all(&mut code, &[return_of(table.default)])?;
    Ok(code)
}

/// Puts the fields of an extended data frame's identifier into the scratch words, and returns the action
/// for every other frame.
fn prologue(other: Action) -> [Insn; 21]
    ensures { result ≡ prologue other }
{
    [
        Insn::LoadWord(0),
        Insn::AndConstant(EXTENDED_FLAG | REMOTE_FLAG | ERROR_FLAG),
        Insn::JumpEqualConstant(1, 0, EXTENDED_FLAG),
        return_of(other),
        Insn::LoadByte(3),
        Insn::StoreA(SOURCE),
        Insn::LoadByte(1),
        Insn::JumpAtLeastConstant(7, 0, PDU2),
        Insn::LoadByte(2),
        Insn::StoreA(DESTINATION),
        Insn::LoadWord(0),
        Insn::RshConstant(8),
        Insn::AndConstant(0x3_ff00),
        Insn::StoreA(GROUP),
        Insn::Jump(6),
        Insn::LoadConstantA(u32::from(GLOBAL)),
        Insn::StoreA(DESTINATION),
        Insn::LoadWord(0),
        Insn::RshConstant(8),
        Insn::AndConstant(GREATEST_GROUP),
        Insn::StoreA(GROUP),
    ]
}

fn return_of(action: Action) -> Insn
    ensures { result ≡ return_of action }
{
    match action {
        Action::Pass => Insn::ReturnConstant(1),
        Action::Block => Insn::ReturnConstant(0),
    }
}

/// The code of a group: rules next to each other of one parameter group span, behind a head that leaves
/// over them.
fn push_group(code: &mut Vec<Raw>, group: &[Rule]) -> Result<(), AllocError>
    requires some { 0 < length group.now }
    requires few { length group.now ≤ 256 }
    ensures { OnOk result (code.new.items ≡ code.old.items ++ map raw_of (group_code group.now)) }
{
    if !group[0].pgn.is_whole(GREATEST_GROUP) {
        push_head(code, group)?;
    }
    for rule in group {
        push_rule(code, rule)?;
    }
    Ok(())
}

/// A group's head, of three instructions for one rule and of four for more.
fn push_head(code: &mut Vec<Raw>, group: &[Rule]) -> Result<(), AllocError>
    requires some { 0 < length group.now }
    requires few { length group.now ≤ 256 }
    ensures { OnOk result (code.new.items ≡ code.old.items ++ map raw_of (head group.now)) }
{
    let load = Insn::LoadScratchA(GROUP);
    let span = group[0].pgn;
    if group.len() == 1 {
        push_tests(code, load, span, group[0].len())
    } else {
        push_all(
            code,
            &[
                load,
                Insn::JumpAtLeastConstant(0, 1, span.low),
                Insn::JumpGreaterConstant(0, 1, span.high),
                Insn::Jump(body_len(group)),
            ],
        )
    }
}

/// How many instructions a group has behind its head.
fn body_len(group: &[Rule]) -> u32
    requires { length group.now ≤ 256 }
    ensures { result ≡ length (body group.now) }
{
    group.iter().map(|rule| u32::from(rule.len())).sum()
}

/// The code of a rule behind its group's head.
fn push_rule(code: &mut Vec<Raw>, rule: &Rule) -> Result<(), AllocError>
    ensures { OnOk result (code.new.items ≡ code.old.items ++ map raw_of (rule_code rule.now)) }
{
    push_tests_unless_whole(
        code,
        Insn::LoadScratchA(SOURCE),
        rule.source,
        rule.destination_len(),
    )?;
    push_tests_unless_whole(
        code,
        Insn::LoadScratchA(DESTINATION),
        rule.destination,
        rule.from_len(),
    )?;
    push_tests_unless_whole(code, Insn::LoadWord(INTERFACE), rule.from, 1)?;
    push_all(code, &[return_of(rule.action)])
}

/// Tests of an address or a port, where not every one lies in the span.
fn push_tests_unless_whole(
    code: &mut Vec<Raw>,
    load: Insn,
    span: Span,
    leave: u8,
) -> Result<(), AllocError>
    requires { leave < 255 }
    ensures { OnOk result (code.new.items ≡ code.old.items ++ map raw_of (tests_unless_whole load span leave)) }
{
    if span.is_whole(GREATEST_OCTET) {
        return Ok(());
    }
    push_tests(code, load, span, leave)
}

/// A load and the tests of the number: outside the span they leave over `leave` instructions behind them.
fn push_tests(code: &mut Vec<Raw>, load: Insn, span: Span, leave: u8) -> Result<(), AllocError>
    requires { leave < 255 }
    ensures { OnOk result (code.new.items ≡ code.old.items ++ map raw_of (tests load span leave)) }
{
    push_all(
        code,
        &[
            load,
            Insn::JumpAtLeastConstant(0, leave + 1, span.low),
            Insn::JumpGreaterConstant(leave, 0, span.high),
        ],
    )
}

fn push_all(code: &mut Vec<Raw>, insns: &[Insn]) -> Result<(), AllocError>
    ensures { OnOk result (code.new.items ≡ code.old.items ++ map raw_of insns.now) }
{
    for insn in insns {
        code.push(encode(*insn))?;
    }
    Ok(())
}

impl Span {
    /// Whether every number from 0 to the last lies in the span, and no other.
    fn is_whole(self, last: u32) -> bool
        ensures { result ≡ is_whole last self }
    {
        self.low == 0 && self.high == last
    }

    /// How many instructions test an address or a port.
    fn tests_len(self) -> u8
        ensures len { (load : Insn) (leave : ℕ) → result ≡ length (tests_unless_whole load self leave) }
        ensures few { result ≤ 3 }
    {
        if self.is_whole(GREATEST_OCTET) { 0 } else { 3 }
    }
}

impl Rule {
    /// How many instructions the tests of the ingress port and the return have.
    fn from_len(&self) -> u8
        ensures len { result ≡ length (from_part self.now) }
        ensures few { result ≤ 4 }
    {
        self.from.tests_len() + 1
    }

    /// How many instructions stand behind the tests of the source.
    fn destination_len(&self) -> u8
        ensures len { result ≡ length (destination_part self.now) }
        ensures few { result ≤ 7 }
    {
        self.destination.tests_len() + self.from_len()
    }

    /// How many instructions the rule has behind its group's head.
    fn len(&self) -> u8
        ensures len { result ≡ length (rule_code self.now) }
        ensures few { result ≤ 10 }
    {
        self.source.tests_len() + self.destination_len()
    }
}
