//! The gateway's program.
#![tactic(auto)]

use gw_cli::{command, diff_command, judge_command, run_command};
use gw_io::Tried;
use std::alloc::AllocError;
use std::io::{ErrorKind, Write};
use std::process::ExitCode;
use std::{env, io};

const NO_MEMORY: &str = "memory was refused";

fn main(rt: HostRuntime) -> ExitCode {
    let mut faults = Tried::new(rt.stderr());
    let arguments = match arguments(&rt) {
        Ok(arguments) => arguments,
        Err(why) => {
            let _ = writeln!(faults, "gw: {why}");
            return ExitCode::from(2);
        }
    };
    let mut input = Tried::new(rt.stdin());
    let mut output = Tried::new(rt.stdout());
    let alloc = rt.alloc();
    let status = match arguments.first() {
        Some(first) if first.as_str() == "run" => run_command(
            &rt,
            alloc,
            &arguments,
            &mut input,
            &mut output,
            &mut faults,
        ),
        Some(first) if first.as_str() == "judge" => judge_command(
            &rt,
            alloc,
            &arguments,
            &mut input,
            &mut output,
            &mut faults,
        ),
        Some(first) if first.as_str() == "diff" => {
            diff_command(&rt, alloc, &arguments, &mut input, &mut output, &mut faults)
        }
        _ => command(&rt, alloc, &arguments, &mut input, &mut output, &mut faults),
    };
    tell_error("stdin", input.error(), &mut faults);
    tell_error("stdout", output.error(), &mut faults);
    ExitCode::from(status)
}

/// The arguments without the program's name, or why they cannot be read.
fn arguments(rt: &HostRuntime) -> Result<Vec<String>, &'static str> {
    let line = match env::args(rt) {
        Ok(line) => line,
        Err(why) => return Err(told(&why)),
    };
    match line.skip(1).collect(rt.alloc()) {
        Ok(arguments) => Ok(arguments),
        Err(AllocError) => Err(NO_MEMORY),
    }
}

/// Tells by which error a stream failed, if one did.
fn tell_error<F: Write>(stream: &str, error: Option<io::Error>, faults: &mut Tried<F>) {
    if let Some(error) = error {
        let _ = writeln!(faults, "gw: {stream}: {error}");
    }
}

/// Why the arguments cannot be read, as it is told.
fn told(why: &io::Error) -> &'static str {
    match why.kind() {
        ErrorKind::OutOfMemory => NO_MEMORY,
        _ => "an argument is no text: it is not UTF-8",
    }
}
