//! The commands that read their input whole.

ghost use Rattle.std.specs.Prelude.{◌≡◌, false, IfOk, IfErr};
ghost use Rattle.gw_io.specs.Tries.{inner_of, has_failed};
ghost use Rattle.gw_answers.specs.Requests.{tells_blocked};
ghost use Rattle.gw_commands.specs.Commands.{Does, DoesOn, IsFound};
ghost use Rattle.gw_commands.specs.Queries.{AnswersNamed, AnswersQuery, RefusesQuery};

use crate::ask_command::ask;
use crate::asm_command::asm;
use crate::check_command::check;
use crate::claims_command::claims;
use crate::list_command::list;
use crate::notes::note_refused_file;
use crate::show_command::show;
use crate::table_command::table;
use crate::verdict_command::verdict;
use gw_answers::{Answer, Query, Refusal, read_file, read_input, refuse_file, respond_telling};
use gw_io::Tried;
use std::alloc::Global;
use std::io::{Read, Write};
use std::rt::Files;

/// Reads the input, and writes the answer to it or its first refusal. The status is 0 for an answer, 3 where it is to tell that a
/// frame is blocked, and 1 for a refusal or where a write failed.
pub fn answer_query<R: Read, W: Write, F: Write>(
    alloc: Global,
    query: Query,
    input: &mut Tried<R>,
    output: &mut Tried<W>,
    faults: &mut Tried<F>,
) -> u8
    requires input { has_failed input.old ≡ false }
    requires output { has_failed output.old ≡ false }
    ensures { Does (AnswersQuery query.entry) (RefusesQuery query.entry) (tells_blocked query.entry)
        (R.remaining (inner_of input.old)) (R.remaining (inner_of input.new)) (has_failed input.new)
        (W.contents (inner_of output.old)) (W.contents (inner_of output.new)) (has_failed output.new) result }
{
    let found = answered(alloc, query, input, faults);
    respond_telling(&found, query.tells_blocked(), output, faults)
}

/// The same of what a file holds. A file that cannot be read is 96, and one of more than 1048576 octets 98. A person is told
/// which file is refused.
pub fn answer_named<R: Files, W: Write, F: Write>(
    rt: &R,
    alloc: Global,
    query: Query,
    file: &str,
    output: &mut Tried<W>,
    faults: &mut Tried<F>,
) -> u8
    requires { has_failed output.old ≡ false }
    ensures { AnswersNamed query.entry (W.contents (inner_of output.old)) (W.contents (inner_of output.new))
        (has_failed output.new) result }
{
    match read_file(rt, alloc, file, faults) {
        Ok(octets) => answer_octets(alloc, query, file, octets, output, faults),
        Err(refusal) => refuse_file(file, &refusal, output, faults),
    }
}

/// Writes the answer to what a file holds, or its first refusal.
fn answer_octets<W: Write, F: Write>(
    alloc: Global,
    query: Query,
    file: &str,
    octets: Vec<u8>,
    output: &mut Tried<W>,
    faults: &mut Tried<F>,
) -> u8
    requires { has_failed output.old ≡ false }
    ensures { DoesOn (AnswersQuery query.entry) (RefusesQuery query.entry) (tells_blocked query.entry) octets.items
        (W.contents (inner_of output.old)) (W.contents (inner_of output.new)) (has_failed output.new) result }
{
    let found = answer_on(alloc, query, octets, faults);
    if let Err(refusal) = &found {
        note_refused_file(file, refusal, faults);
    }
    respond_telling(&found, query.tells_blocked(), output, faults)
}

/// The answer to the input, or its first refusal.
fn answered<R: Read, F: Write>(
    alloc: Global,
    query: Query,
    input: &mut Tried<R>,
    faults: &mut Tried<F>,
) -> Result<Answer, Refusal>
    requires { has_failed input.old ≡ false }
    ensures { IsFound (AnswersQuery query.entry) (RefusesQuery query.entry)
        (R.remaining (inner_of input.old)) (R.remaining (inner_of input.new)) (has_failed input.new) result }
{
    let octets = read_input(alloc, input)?;
    answer_on(alloc, query, octets, faults)
}

/// The answer to what was read.
fn answer_on<F: Write>(
    alloc: Global,
    query: Query,
    octets: Vec<u8>,
    faults: &mut Tried<F>,
) -> Result<Answer, Refusal>
    ensures answered { IfOk result (AnswersQuery query.entry octets.items) }
    ensures refused { IfErr result (RefusesQuery query.entry octets.items) }
{
    match query {
        Query::Verdict { port, frame, .. } => verdict(alloc, port, frame, &octets, faults),
        Query::Check => check(alloc, octets.as_slice()),
        Query::Asm => asm(alloc, octets),
        Query::List => list(alloc, octets.as_slice()),
        Query::Claims => claims(alloc, octets.as_slice(), faults),
        Query::Show => show(alloc, octets.as_slice(), faults),
        Query::Table {
            port,
            frame,
            why,
            ..
        } => { table(alloc, port, frame, why, octets.as_slice(), faults) }
        Query::Ask(question) => ask(alloc, &question, octets.as_slice()),
    }
}
