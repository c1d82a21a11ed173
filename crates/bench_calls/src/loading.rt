//! What is made of the driver's arguments before the clock counts.

ghost use Rattle.std.specs.Prelude.{◌≡◌, ◌≤◌, length, take, drop, map, All, IfOk, IfSome, OnSome};
ghost use Rattle.gw_frame.specs.Record.{IsRecord};
ghost use Rattle.gw_insn.specs.Table.{raw_of};
ghost use Rattle.gw_table.specs.TableText.{IsTableText};
ghost use Rattle.bench_calls.specs.Calls.{fields_of, octets_of, Spells};

use crate::interchange::{BpfInsn, Record};
use gw_frame::Frame;
use gw_insn::{Insn, Raw, encode};
use gw_table::{IndexedTable, Table};
use gw_verify::Program;
use std::alloc::{AllocError, Global};

/// The program that the code spells, or `None` where the code is refused or memory is refused.
pub fn load_program(alloc: Global, code: &[BpfInsn]) -> Option<Program>
    ensures { IfSome result (Spells code.now) }
{
    let raws = raws(alloc, code).ok()?;
    Program::check(alloc, raws).ok()
}

/// The fields of each instruction.
fn raws(alloc: Global, code: &[BpfInsn]) -> Result<Vec<Raw>, AllocError>
    ensures { IfOk result (λ raws. raws.items ≡ map fields_of code.now) }
{
    code.iter().map(|insn| insn.raw()).collect(alloc)
}

/// The frames of the records, or `None` where the octets of one are no record or memory is refused.
pub fn load_frames(alloc: Global, records: &[Record]) -> Option<Vec<Frame>>
    ensures frames { IfSome result (λ frames. frames.items ≡ octets_of records.now) }
    ensures valid { OnSome result (All IsRecord (octets_of records.now)) }
{
    let mut frames = Vec::new(alloc);
    for record in records {
        let Ok(frame) = Frame::read(&record.octets) else {
            return None;
        };
        if frames.push(frame).is_err() {
            return None;
        }
    }
    Some(frames)
}

/// The table of a TOML text, or `None` where the text is no table or memory is refused.
pub fn load_table(alloc: Global, text: &[u8]) -> Option<Table>
    ensures { IfSome result (IsTableText text.now) }
{
    Table::read(alloc, str::from_utf8(text).ok()?).ok()
}

/// The table of a TOML text with its index, or `None` where the text is no table or memory is refused.
pub fn load_index(alloc: Global, text: &[u8]) -> Option<IndexedTable>
    ensures { IfSome result (IsTableText text.now) }
{
    IndexedTable::new(alloc, load_table(alloc, text)?).ok()
}

/// Writes instructions to the front of the driver's code, and leaves what stands behind them.
pub fn store_code(insns: &[Insn], code: &mut [BpfInsn])
    requires { length insns.now ≤ length code.old }
    ensures stored { map fields_of (take (length insns.now) code.new) ≡ map raw_of insns.now }
    ensures behind { drop (length insns.now) code.new ≡ drop (length insns.now) code.old }
{
    for (i, insn) in insns.iter().enumerate() {
        code[i] = BpfInsn::new(encode(*insn));
    }
}
