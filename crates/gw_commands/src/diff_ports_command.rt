//! The command `diff` on the tables of a gateway's ports.

ghost use Rattle.std.specs.Prelude.{◌≡◌, ◌<◌, ◌⊎◌, false, All, Err, length, IfOk, IfErr};
ghost use Rattle.gw_io.specs.Tries.{inner_of, has_failed};
ghost use Rattle.gw_table.specs.Crossings.{AreCrossings, AreAlikeEverywhere};
ghost use Rattle.gw_answers.specs.Responses.{Writes, WritesText};
ghost use Rattle.gw_answers.specs.Policies.{RefusesFile};
ghost use Rattle.gw_answers.specs.declared.refusal.Refusal.TheVariants.{OutOfMemory};
ghost use Rattle.gw_commands.specs.Differences.{WritesOne, found_status};
ghost use Rattle.gw_commands.specs.PortDifferences.{
  AreChanges,
  AreStated,
  ArePortTexts,
  AreTexts,
  ComparesNamedPorts,
  ComparesPorts,
  IsCrossingsText,
  IsPortText,
  IsStatedChange,
  RefusesEitherText,
  RefusesFirst,
  TellsCrossings,
};

use crate::crossing_lines::crossings_text;
use crate::diff_command::{told_file, told_tables};
use crate::stated::StatedChange;
use gw_answers::{PortFiles, Refusal, TableFiles, refuse, write_text};
use gw_io::Tried;
use gw_table::{Change, Crossing, crossings};
use std::alloc::{AllocError, Global};
use std::io::Write;
use std::rt::Files;

/// The texts of an egress port's tables: before a change, and after it.
#[derive(Drop)]
pub struct PortTexts {
    pub old: Vec<u8>,
    pub new: Vec<u8>,
}

/// Reads the files of the tables of a gateway's ports, and tells what may leave at them otherwise: see `diff_ports`. The index of
/// a port's files is its number. A file that cannot be read is 96, and one of more than 1048576 octets 98, before the tables' own
/// refusals.
pub fn diff_ports_named<R: Files, W: Write, F: Write>(
    rt: &R,
    alloc: Global,
    files: &[PortFiles],
    output: &mut Tried<W>,
    faults: &mut Tried<F>,
) -> u8
    requires { has_failed output.old ≡ false }
    ensures { ComparesNamedPorts files.now (W.contents (inner_of output.old)) (W.contents (inner_of output.new))
        (has_failed output.new) result }
{
    match read_texts(rt, alloc, files, faults) {
        Ok(texts) => diff_ports(alloc, files, texts.as_slice(), output, faults),
        Err(refusal) => refuse(&refusal, output, faults),
    }
}

/// Tells what the tables of a gateway's ports let leave otherwise than before: `alike` with status 0, or with status 1 a line for
/// each pair of parts that decide some frame unlike, in the order of egress ports. Refused is the first text that is no table, as
/// by the command `table`, in the order of ports, the old one's first; a person is told which file it is. 100 is want of memory
/// for what is told. Of more than 16 ports the first 16 count.
pub fn diff_ports<W: Write, F: Write>(
    alloc: Global,
    files: &[PortFiles],
    texts: &[PortTexts],
    output: &mut Tried<W>,
    faults: &mut Tried<F>,
) -> u8
    requires { has_failed output.old ≡ false }
    ensures { ComparesPorts texts.now (W.contents (inner_of output.old)) (W.contents (inner_of output.new))
        (has_failed output.new) result }
{
    match stated_changes(alloc, files, texts, faults) {
        Ok(stated) => tell_crossings(alloc, stated.as_slice(), output, faults),
        Err(refusal) => refuse(&refusal, output, faults),
    }
}

/// What the files of the ports hold.
fn read_texts<R: Files, F: Write>(
    rt: &R,
    alloc: Global,
    files: &[PortFiles],
    faults: &mut Tried<F>,
) -> Result<Vec<PortTexts>, Refusal>
    ensures texts { IfOk result (λ texts. AreTexts files.now texts.items) }
    ensures refused { IfErr result RefusesFile }
{
    let mut texts = Vec::new(alloc);
    for port in files {
        let held = match port_texts(rt, alloc, port, faults) {
            Ok(held) => held,
            Err(refusal) => return Err(refusal),
        };
        let Ok(()) = texts.push(held) else {
            return Err(Refusal::OutOfMemory);
        };
    }
    Ok(texts)
}

/// What the files of a port hold.
fn port_texts<R: Files, F: Write>(
    rt: &R,
    alloc: Global,
    files: &PortFiles,
    faults: &mut Tried<F>,
) -> Result<PortTexts, Refusal>
    ensures texts { IfOk result (ArePortTexts files.now) }
    ensures refused { IfErr result RefusesFile }
{
    let old = match told_text(rt, alloc, files.old, faults) {
        Ok(text) => text,
        Err(refusal) => return Err(refusal),
    };
    let new = match told_text(rt, alloc, files.new, faults) {
        Ok(text) => text,
        Err(refusal) => return Err(refusal),
    };
    Ok(PortTexts { old, new })
}

/// What a file holds, if one is named.
fn told_text<R: Files, F: Write>(
    rt: &R,
    alloc: Global,
    file: Option<&str>,
    faults: &mut Tried<F>,
) -> Result<Vec<u8>, Refusal>
    ensures text { IfOk result (λ text. IsPortText file.entry text.items) }
    ensures refused { IfErr result RefusesFile }
{
    match file {
        Some(file) => told_file(rt, alloc, file, faults),
        None => Ok(Vec::new(alloc)),
    }
}

/// The tables of the ports' texts.
fn stated_changes<F: Write>(
    alloc: Global,
    files: &[PortFiles],
    texts: &[PortTexts],
    faults: &mut Tried<F>,
) -> Result<Vec<StatedChange>, Refusal>
    ensures tables { IfOk result (λ stated. AreStated texts.now stated.items) }
    ensures refused { IfErr result (RefusesFirst texts.now) }
{
    let mut stated = Vec::new(alloc);
    for (port, text) in texts.iter().enumerate() {
        let named = files.get(port).copied();
        let change = match stated_change(alloc, named, text, faults) {
            Ok(change) => change,
            Err(refusal) => return Err(refusal),
        };
        let Ok(()) = stated.push(change) else {
            return Err(Refusal::OutOfMemory);
        };
    }
    Ok(stated)
}

/// The tables of a port's texts. A person is told the name of a refused text's file.
fn stated_change<F: Write>(
    alloc: Global,
    files: Option<PortFiles>,
    texts: &PortTexts,
    faults: &mut Tried<F>,
) -> Result<StatedChange, Refusal>
    ensures tables { IfOk result (IsStatedChange texts.now) }
    ensures refused { IfErr result (RefusesEitherText texts.now) }
{
    let (old, new) = match files {
        Some(files) => (files.old.unwrap_or(""), files.new.unwrap_or("")),
        None => ("", ""),
    };
    let files = TableFiles { old, new };
    let (old, new) = (texts.old.as_slice(), texts.new.as_slice());
    told_tables(alloc, files, old, new, faults)
}

/// Tells what the tables of the ports differ in.
fn tell_crossings<W: Write, F: Write>(
    alloc: Global,
    stated: &[StatedChange],
    output: &mut Tried<W>,
    faults: &mut Tried<F>,
) -> u8
    requires { has_failed output.old ≡ false }
    ensures { TellsCrossings stated.now (W.contents (inner_of output.old)) (W.contents (inner_of output.new))
        (has_failed output.new) result }
{
    let Ok(changes) = changes_of(alloc, stated) else {
        return refuse(&Refusal::OutOfMemory, output, faults);
    };
    match crossings(alloc, changes.as_slice()) {
        Ok(found) => tell_found_crossings(alloc, stated, found.as_slice(), output, faults),
        Err(AllocError) => refuse(&Refusal::OutOfMemory, output, faults),
    }
}

/// The tables of each port as gw_table takes them.
fn changes_of(alloc: Global, stated: &[StatedChange]) -> Result<Vec<Change<'_>>, AllocError>
    ensures { IfOk result (λ changes. AreChanges stated.now changes.items) }
{
    let mut changes = Vec::new(alloc);
    for port in stated {
        changes.push(Change {
            old: &port.old.table,
            new: &port.new.table,
        })?;
    }
    Ok(changes)
}

/// Tells the crossings that were found, and gives the status.
fn tell_found_crossings<W: Write, F: Write>(
    alloc: Global,
    stated: &[StatedChange],
    found: &[Crossing],
    output: &mut Tried<W>,
    faults: &mut Tried<F>,
) -> u8
    requires output { has_failed output.old ≡ false }
    requires there { All (λ crossing. crossing.egress < length stated.now) found.now }
    ensures { WritesOne (IsCrossingsText stated.now found.now) (found_status found.now) result
        (W.contents (inner_of output.old)) (W.contents (inner_of output.new)) (has_failed output.new)
        ⊎ Writes (Err OutOfMemory) result (W.contents (inner_of output.old)) (W.contents (inner_of output.new))
        (has_failed output.new) }
{
    let status = if found.is_empty() { 0 } else { 1 };
    match crossings_text(alloc, stated, found) {
        Ok(text) => write_text(text.as_slice(), status, output, faults),
        Err(AllocError) => refuse(&Refusal::OutOfMemory, output, faults),
    }
}
