//! The arguments of `gw run`.

ghost use Rattle.std.specs.Prelude.{◌≡◌, length, vec_len, IfOk};

use crate::arguments::matched;
use crate::form::wrong;
use crate::forms::RUN;
use crate::input_arguments::asked_inputs;
use crate::source_arguments::{name_sources, names_no_source};
use crate::taking_arguments::asked_interfaces;
use clap::{ArgMatches, Error};
use gw_answers::PolicySource;
use gw_judge::NamedInterface;
use gw_ledger::Limits;
use std::alloc::Global;
use std::convert::AsStr;

/// The most frames of a port.
const FRAMES: u32 = u32::MAX;

/// How many copies may wait in a lane where the arguments do not say.
const LANE: u32 = 64;

/// What `gw run` is asked for.
#[derive(Drop)]
pub struct RunRequest<'a> {
    pub limits: Limits,
    /// Where each port's policy comes from.
    pub sources: Vec<PolicySource<'a>>,
    /// The interfaces of a log that are named for ports; where there is none, a trace is dealt to the ports in turn.
    pub interfaces: Vec<NamedInterface<'a>>,
    /// The file from which each port takes its frames, if one is named; where there is none for any port, the input is read.
    pub inputs: Vec<Option<&'a str>>,
    /// Whether a copy that finds its lane full waits for room.
    pub waits: bool,
    /// Whether the lines of the ports' policies are asked for.
    pub policies: bool,
    /// Whether those of the lanes are.
    pub lanes: bool,
    /// Whether one JSON object is, in place of lines.
    pub json: bool,
    pub progress: bool,
}

/// What the arguments ask for where they name the command `run`, or `clap`'s answer to them: help, or what is wrong.
pub fn read_run<'a, S: AsStr>(alloc: Global, arguments: &'a [S]) -> Result<RunRequest<'a>, Error>
    ensures sources { IfOk result (λ run. vec_len run.sources ≡ run.limits.ports) }
    ensures inputs { IfOk result (λ run. vec_len run.inputs ≡ run.limits.ports) }
{
    let matches = matched(alloc, arguments)?;
    match matches.subcommand() {
        Some(("run", run)) => asked(alloc, run),
        _ => Err(wrong(alloc, &RUN, "this is not the command `run`")),
    }
}

/// What the arguments behind `run` ask for.
fn asked<'a>(alloc: Global, run: &ArgMatches<'a>) -> Result<RunRequest<'a>, Error>
    ensures sources { IfOk result (λ run. vec_len run.sources ≡ run.limits.ports) }
    ensures inputs { IfOk result (λ run. vec_len run.inputs ≡ run.limits.ports) }
{
    let limits = asked_limits(alloc, run)?;
    let sources = asked_sources(alloc, run, limits.ports() as usize)?;
    let interfaces = asked_interfaces(alloc, run, limits.ports() as usize, &RUN)?;
    let inputs = asked_inputs(alloc, run, limits.ports() as usize)?;
    Ok(RunRequest {
        limits,
        sources,
        interfaces,
        inputs,
        waits: run.get_flag("wait"),
        policies: run.get_flag("policies"),
        lanes: run.get_flag("lanes"),
        json: run.get_flag("json"),
        progress: run.get_flag("progress"),
    })
}

/// The limits of the gateway.
fn asked_limits(alloc: Global, run: &ArgMatches) -> Result<Limits, Error> {
    let ports = run.get_one::<u32>("ports").unwrap_or(2);
    let lane = run.get_one::<u32>("lane").unwrap_or(LANE);
    match Limits::new(ports, lane, 1, FRAMES) {
        Ok(limits) => Ok(limits),
        Err(_) => Err(wrong(
            alloc,
            &RUN,
            "a gateway has 2 to 16 ports, and lanes of 1 to 1024 copies",
        )),
    }
}

/// Where the policy of each of so many ports comes from.
fn asked_sources<'a>(
    alloc: Global,
    run: &ArgMatches<'a>,
    ports: usize,
) -> Result<Vec<PolicySource<'a>>, Error>
    ensures { IfOk result (λ sources. vec_len sources ≡ ports) }
{
    let program = run.get_str("program");
    if program.is_none() && names_no_source(run) {
        return Err(wrong(
            alloc,
            &RUN,
            "no policy is given: name one by --program LISTING, --table P=FILE or --listing P=FILE",
        ));
    }
    let others = program.map_or(PolicySource::Opening, PolicySource::Program);
    let mut sources = vec![in alloc; others; ports]?;
    name_sources(alloc, run, &mut sources, &RUN)?;
    Ok(sources)
}
