//! A policy: a program, or a table with the program that it was compiled to.

ghost use Rattle.std.specs.Prelude.{◌≡◌, Some, None, IfOk, IfErr, IsTrue, option_copied};
ghost use Rattle.gw_insn.specs.Form.{form};
ghost use Rattle.gw_table.specs.Emission.{emission};
ghost use Rattle.gw_policy.specs.Cached.{TakesWordAlone, takes_word_alone};

use gw_frame::Frame;
use gw_insn::{INTERFACE, Insn};
use gw_machine::run;
use gw_table::{FrameFields, IndexedTable, Table, compile};
use gw_verify::Program;
use std::alloc::Global;
use std::marker::Model;

/// What decides whether a frame may leave at a port: an accepted program, or a table with the program that it was
/// compiled to. The type keeps that both mean the same for every record and every ingress port.
#[derive(Drop)]
pub struct Policy {
    program: Program,
    table: Option<IndexedTable>,
}

impl Model for Policy {
    ghost use Rattle.gw_policy.specs.Filter.{Filter, IsFilter};

    ghost Value = { Filter };

    ghost view = { λ p. record { code = p.program; table = p.table } };

    ghost invariant = { λ p. IsFilter (record { code = p.program; table = p.table }) };
}

impl Policy {
    ghost use Rattle.std.specs.Prelude.{Some, IsTrue};
    ghost use Rattle.gw_policy.specs.Filter.{filter_passes, IsFilter};
    ghost use Rattle.gw_policy.specs.Batches.{PassAlike};
    ghost use Rattle.gw_policy.specs.Cached.{IsByWord};

    /// The policy of a program: it passes the frames on which the program's answer is not 0.
    pub fn from_program(program: Program) -> Policy
        ensures { result ≡ record { code = program; table = None } }
    {
        Policy {
            program,
            table: None,
        }
    }

    /// The policy of a table, which is compiled and indexed. The table comes back where memory for that is wanting.
    pub fn from_table(alloc: Global, table: Table) -> Result<Policy, Table>
        ensures policy { IfOk result (λ policy. policy ≡ record { code = emission table; table = Some table }) }
        ensures handed_back { IfErr result (λ back. back ≡ table) }
    {
        match compile(alloc, &table) {
            Ok(program) => Ok(Policy {
                program,
                table: Some(IndexedTable::new(alloc, table)?),
            }),
            Err(_) => Err(table),
        }
    }

    /// The program, which a table was compiled to.
    pub fn program(&self) -> &Program
        ensures program { result.now ≡ self.now.code }
        ensures means { IsFilter self.now }
    {
        &self.program
    }

    /// The table, where the policy is one, with its index.
    pub fn table(&self) -> Option<&IndexedTable>
        ensures { option_copied result ≡ self.now.table }
    {
        self.table.as_ref()
    }

    // Whether it judges a frame by its identifier word alone: a table does, and a program that loads nothing else of a frame.
    pub(crate) fn is_by_word(&self) -> bool
        ensures { IsTrue result → IsByWord (Some self.now) }
    {
        match &self.table {
            Some(_) => true,
            None => take_word_alone(self.program.code()),
        }
    }

    // Whether both have one program, and so pass the same frames.
    pub(crate) fn has_program_of(&self, other: &Policy) -> bool
        ensures { IsTrue result → PassAlike (Some self.now) (Some other.now) }
    {
        is_same_code(self.program.code(), other.program.code())
    }

    /// Whether a frame that was taken at the port `from` passes. A table is judged by its index, which is faster than to run
    /// its program.
    // Inlined, so that the loop of `run` is a function of its own wherever two calls judge: what stands round it cannot move it.
    #[inline(always)]
    pub fn verdict(&self, frame: &Frame, from: u8) -> bool
        ensures { result ≡ filter_passes self.now frame.now from }
    {
        match &self.table {
            Some(table) => table.verdict(frame, from),
            None => run(&self.program, frame, from) != 0,
        }
    }

    // The same, where the fields that tables look up are found already.
    #[inline(always)]
    pub(crate) fn passes(&self, fields: &FrameFields, from: u8) -> bool
        ensures { result ≡ filter_passes self.now fields.now from }
    {
        match &self.table {
            Some(table) => table.passes(fields, from),
            None => run(&self.program, fields.frame(), from) != 0,
        }
    }
}

// Whether instructions load nothing of a frame but its identifier word.
fn take_word_alone(code: &[Insn]) -> bool
    ensures { IsTrue result → TakesWordAlone code.now }
{
    for insn in code {
        if !takes_word_alone(*insn) {
            return false;
        }
    }
    true
}

// Whether an instruction loads nothing of a frame but its identifier word, which is its first four octets.
fn takes_word_alone(insn: Insn) -> bool
    ensures { result ≡ takes_word_alone (form insn) }
{
    match insn {
        Insn::LoadWord(k) => k == 0 || k == INTERFACE,
        Insn::LoadHalf(k) => k <= 2,
        Insn::LoadByte(k) => k <= 3,
        Insn::LoadWordIndexed(_) => false,
        Insn::LoadHalfIndexed(_) => false,
        Insn::LoadByteIndexed(_) => false,
        Insn::LoadLengthA => false,
        Insn::LoadLengthX => false,
        Insn::LoadNibble(_) => false,
        _ => true,
    }
}

fn is_same_code(one: &[Insn], other: &[Insn]) -> bool
    ensures { IsTrue result → one.now ≡ other.now }
{
    one == other
}
