//! Makes each library call that takes memory once, on fixed input, so that its growths can be refused in turn.
//!
//! Without words it makes all of them, and with a word the call of that name. Each writes `ready` once its arguments are
//! there, and then its answer. The status is 0, or that of a fault.
#![tactic(auto)]

mod answer;
mod call;
mod ends;
mod fault;
mod gateway;
mod inputs;
mod programs;
mod runs;
mod tables;
mod traces;

use answer::Answer;
use call::Call;
use fault::Fault;
use std::alloc::Global;
use std::env;
use std::io::Write;
use std::marker::Sync;
use std::process::ExitCode;
use std::sync::Wait;
use std::thread::Threads;

fn main(rt: HostRuntime) -> ExitCode {
    match make_calls(&rt, &rt) {
        Ok(()) => ExitCode::SUCCESS,
        Err(fault) => {
            let _ = writeln!(rt.stderr(), "{fault}");
            ExitCode::from(fault.status())
        }
    }
}

/// Makes the calls that the words name. `threads` is the runtime as what a call may start threads and wait by.
fn make_calls<R: Threads + Wait + Sync>(rt: &HostRuntime, threads: &R) -> Result<(), Fault> {
    match named_call(rt)? {
        None => tell_all(threads, rt.alloc(), &mut rt.stdout()),
        Some(call) => tell(call, threads, rt.alloc(), &mut rt.stdout()),
    }
}

/// The call that the words name, or none where there are no words.
fn named_call(rt: &HostRuntime) -> Result<Option<Call>, Fault> {
    let Ok(words) = env::args(rt) else {
        return Err(Fault::Unprepared);
    };
    let mut words = words.skip(1);
    match (words.next(), words.next()) {
        (None, _) => Ok(None),
        (Some(word), None) => match Call::named(word.as_str()) {
            Some(call) => Ok(Some(call)),
            None => Err(Fault::WrongWords),
        },
        _ => Err(Fault::WrongWords),
    }
}

/// Makes all calls, and writes their answers.
fn tell_all<R: Threads + Wait + Sync, W: Write>(
    rt: &R,
    alloc: Global,
    output: &mut W,
) -> Result<(), Fault> {
    for call in &Call::ALL {
        tell(*call, rt, alloc, output)?;
    }
    Ok(())
}

/// Makes a call, and writes its answer.
fn tell<R: Threads + Wait + Sync, W: Write>(
    call: Call,
    rt: &R,
    alloc: Global,
    output: &mut W,
) -> Result<(), Fault> {
    let answer = call.make(rt, alloc, output)?;
    write_answer(output, call.name(), &answer)
}

/// Writes the line of an answer.
fn write_answer<W: Write>(output: &mut W, name: &str, answer: &Answer) -> Result<(), Fault> {
    writeln!(output, "{name}: {answer}")?;
    Ok(())
}
