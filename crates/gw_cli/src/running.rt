//! The command `run`, over a reader and two writers.

ghost use Rattle.std.specs.Prelude.{◌≡◌, false, is_some, vec_len};
ghost use Rattle.std.specs.List.{list_any};
ghost use Rattle.gw_io.specs.Tries.{inner_of, has_failed, reads_of, unended_reads};
ghost use Rattle.gw_cli.specs.Asked.{DoesRun, RunsAsked, shown_by};

use crate::dispatch::answer_arguments;
use gw_arguments::{RunRequest, read_run};
use gw_io::Tried;
use gw_run::{
    NamedInterface, Observer, ProgressOnStderr, Shown, Taking, Waiting, forward_files,
    forward_named,
};
use std::alloc::Global;
use std::convert::AsStr;
use std::io::{IsTerminal, Read, Write};
use std::marker::{Send, Sync};
use std::rt::{Clock, Files};
use std::sync::Wait;
use std::thread::Threads;

/// What tells whether a person watches stderr.
pub trait Console {
    /// Whether it is a terminal.
    fn is_watched(&self) -> bool;
}

impl Console for HostRuntime {
    fn is_watched(&self) -> bool {
        self.stderr().is_terminal()
    }
}

/// Does what the arguments of a command line, without the program's name, ask for, where they name the command `run`; other
/// commands are wrong arguments. The exit status is as for `command`. Which arguments give which limits, sources, files and
/// ports of interfaces, no clause says. It may wait.
pub fn run_command<R, S, I, W, F>(
    rt: &R,
    alloc: Global,
    arguments: &[S],
    input: &mut Tried<I>,
    output: &mut Tried<W>,
    faults: &mut Tried<F>,
) -> u8
where
    R: Threads + Wait + Sync + Files + Clock + Eprint + Console,
    R::File: Send,
    S: AsStr,
    I: Read,
    W: Write,
    F: Write,
    requires unread { reads_of input.old ≡ 0 }
    requires input { has_failed input.old ≡ false }
    requires output { has_failed output.old ≡ false }
    requires faults { has_failed faults.old ≡ false }
    ensures { RunsAsked (I.remaining (inner_of input.old)) (I.remaining (inner_of input.new))
        (has_failed input.new) (unended_reads input.old input.new)
        (W.contents (inner_of output.old)) (W.contents (inner_of output.new)) (has_failed output.new)
        (F.contents (inner_of faults.old)) (F.contents (inner_of faults.new)) (has_failed faults.new) result }
{
    match read_run(alloc, arguments) {
        Ok(run) => run_asked(rt, alloc, &run, input, output, faults),
        Err(error) => answer_arguments(alloc, &error, output, faults),
    }
}

/// Forwards as the arguments ask for it. Tells how far it is where they ask for that or a person watches, and lets copies wait
/// where they ask for that. A run that tells nothing has the same observer, or the program would have each run's code twice.
fn run_asked<R, I, W, F>(
    rt: &R,
    alloc: Global,
    run: &RunRequest,
    input: &mut Tried<I>,
    output: &mut Tried<W>,
    faults: &mut Tried<F>,
) -> u8
where
    R: Threads + Wait + Sync + Files + Clock + Eprint + Console,
    R::File: Send,
    I: Read,
    W: Write,
    F: Write,
    requires sources { vec_len run.now.sources ≡ run.now.limits.ports }
    requires inputs { vec_len run.now.inputs ≡ run.now.limits.ports }
    requires unread { reads_of input.old ≡ 0 }
    requires input { has_failed input.old ≡ false }
    requires output { has_failed output.old ≡ false }
    ensures { DoesRun run.now
        (I.remaining (inner_of input.old)) (I.remaining (inner_of input.new))
        (has_failed input.new) (unended_reads input.old input.new)
        (W.contents (inner_of output.old)) (W.contents (inner_of output.new)) (has_failed output.new) result }
{
    let meter = ProgressOnStderr::new(rt, run.progress || rt.is_watched());
    if run.waits {
        run_observed(rt, alloc, run, &Waiting(&meter), input, output, faults)
    } else {
        run_observed(rt, alloc, run, &meter, input, output, faults)
    }
}

/// Forwards the files that the ports have of their own, or the input where none is named.
fn run_observed<R, G, I, W, F>(
    rt: &R,
    alloc: Global,
    run: &RunRequest,
    observer: &G,
    input: &mut Tried<I>,
    output: &mut Tried<W>,
    faults: &mut Tried<F>,
) -> u8
where
    R: Threads + Wait + Sync + Files,
    R::File: Send,
    G: Observer,
    I: Read,
    W: Write,
    F: Write,
    requires sources { vec_len run.now.sources ≡ run.now.limits.ports }
    requires inputs { vec_len run.now.inputs ≡ run.now.limits.ports }
    requires unread { reads_of input.old ≡ 0 }
    requires input { has_failed input.old ≡ false }
    requires output { has_failed output.old ≡ false }
    requires waits { G.waits ≡ run.now.waits }
    ensures { DoesRun run.now
        (I.remaining (inner_of input.old)) (I.remaining (inner_of input.new))
        (has_failed input.new) (unended_reads input.old input.new)
        (W.contents (inner_of output.old)) (W.contents (inner_of output.new)) (has_failed output.new) result }
{
    let (limits, sources, shown) = (run.limits, run.sources.as_slice(), shown(run));
    let files = run.inputs.as_slice();
    if names_file(files) {
        return forward_files(
            rt, alloc, limits, sources, files, shown, observer, output, faults,
        );
    }
    let taking = asked_taking(run.interfaces.as_slice());
    forward_named(
        rt, alloc, limits, sources, &taking, shown, observer, input, output, faults,
    )
}

/// What the run is told by.
fn shown(run: &RunRequest) -> Shown
    ensures { result ≡ shown_by run.now }
{
    if run.json {
        Shown::Json
    } else {
        Shown::Lines {
            policies: run.policies,
            lanes: run.lanes,
        }
    }
}

/// Whether a file is named for a port.
fn names_file(files: &[Option<&str>]) -> bool
    ensures { result ≡ list_any is_some files.now }
{
    files.iter().any(|file| file.is_some())
}

/// Frames are taken by the interfaces that are named, or in turn where none is.
fn asked_taking<'a>(interfaces: &'a [NamedInterface<'a>]) -> Taking<'a> {
    if interfaces.is_empty() {
        Taking::InTurn
    } else {
        Taking::ByInterface(interfaces)
    }
}
