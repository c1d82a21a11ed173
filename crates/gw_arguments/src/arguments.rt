//! The arguments of the command line.

use crate::ask_arguments::asked_question;
use crate::form::{command, wrong};
use crate::forms::{RUN, forms};
use clap::{ArgMatches, Command, Error};
use gw_answers::{FrameWord, Query};
use std::alloc::{AllocError, Global};
use std::convert::AsStr;

/// What the arguments ask for.
#[derive(Clone, Copy)]
pub enum Request<'a> {
    /// An answer to the whole input.
    Query(Query<'a>),
    /// An answer to what a file of this name holds.
    Named(Query<'a>, &'a str),
    /// Who holds which address at each interface of a log.
    ClaimsLog,
    /// The same of the log in a file of this name.
    ClaimsLogNamed(&'a str),
    /// `replay`, and whether the status is to tell that a line was refused.
    Replay { strict: bool },
}

/// The version that `--version` tells.
const VERSION: &str = "0.1.0";

/// The argument that names a file in place of the standard input.
const FILE: &str = "file";

/// The program without its commands.
fn bare_program<'a>(alloc: Global) -> Command<'a> {
    Command::new(alloc, "gw")
        .about("A gateway for SAE J1939 vehicle networks: forwarding filters that cannot go wrong")
        .override_usage("gw [COMMAND] < FILE")
        .after_help(
            "A command reads the standard input, or the file that it is given; diff reads it with --log alone. Without a command \
            the first line of the input is a record and a listing \
            follows.\nA record is written 98FEF100 08 000000 and the payload, without spaces.",
        )
        .version(VERSION)
        .no_binary_name(true)
        .subcommand_required(true)
}

/// The commands of the program, as `clap` reads them and shows their help.
fn commands<'a>(alloc: Global) -> Result<Vec<Command<'a>>, AllocError> {
    let mut commands = Vec::new(alloc);
    for form in &forms() {
        commands.push(command(alloc, form)?)?;
    }
    Ok(commands)
}

/// The program with its commands.
fn program<'a>(alloc: Global) -> Result<Command<'a>, AllocError> {
    bare_program(alloc).subcommands(commands(alloc)?)
}

/// What `clap` finds in the arguments, or its answer to them: help, or what is wrong.
pub fn matched<'a, S: AsStr>(alloc: Global, arguments: &'a [S]) -> Result<ArgMatches<'a>, Error> {
    program(alloc)?.try_get_matches_from(arguments)
}

/// What the arguments ask for, or `clap`'s answer to them. Arguments that name `run`, `judge` or `diff`, but not first, are
/// wrong.
pub fn read_arguments<'a, S: AsStr>(
    alloc: Global,
    arguments: &'a [S],
) -> Result<Request<'a>, Error> {
    let matches = matched(alloc, arguments)?;
    match matches.subcommand() {
        Some((name, found)) => asked(alloc, name, found),
        None => Ok(Request::Query(Query::Check)),
    }
}

/// What the arguments behind the name of a command ask for.
fn asked<'a>(alloc: Global, name: &str, found: &ArgMatches<'a>) -> Result<Request<'a>, Error> {
    match name {
        "replay" => Ok(Request::Replay {
            strict: found.get_flag("strict"),
        }),
        "run" | "judge" | "diff" => {
            let text = format!(in alloc; "`{name}` must be the first argument")?;
            Err(wrong(alloc, &RUN, &text))
        }
        "claims" if found.get_flag("log") => Ok(claims_log(found)),
        "ask" => {
            let question = asked_question(alloc, found)?;
            Ok(on_input(Query::Ask(question), found))
        }
        _ => Ok(on_input(named_query(name, found), found)),
    }
}

/// The query to the file that the arguments name, or to the standard input.
fn on_input<'a>(query: Query<'a>, found: &ArgMatches<'a>) -> Request<'a> {
    match found.get_str(FILE) {
        None | Some("-") => Request::Query(query),
        Some(file) => Request::Named(query, file),
    }
}

/// The log that the arguments name, or the standard input.
fn claims_log<'a>(found: &ArgMatches<'a>) -> Request<'a> {
    match found.get_str(FILE) {
        None | Some("-") => Request::ClaimsLog,
        Some(file) => Request::ClaimsLogNamed(file),
    }
}

/// The query of this name, with what is found in its arguments.
fn named_query<'a>(name: &str, found: &ArgMatches<'a>) -> Query<'a> {
    match name {
        "verdict" => Query::Verdict {
            port: found.get_one::<u8>("port").unwrap_or(0),
            frame: said_frame(found, "record"),
            tells: found.get_flag("exit-code"),
        },
        "asm" => Query::Asm,
        "list" => Query::List,
        "claims" => Query::Claims,
        "table" if found.get_flag("show") => Query::Show,
        "table" => Query::Table {
            port: found.get_one::<u8>("port").unwrap_or(0),
            frame: said_frame(found, "frame"),
            why: found.get_flag("why"),
            tells: found.get_flag("exit-code"),
        },
        _ => Query::Check,
    }
}

/// The value that says a frame: the argument of this name, or candump's form.
fn said_frame<'a>(found: &ArgMatches<'a>, record: &str) -> Option<FrameWord<'a>> {
    match (found.get_str(record), found.get_str("can")) {
        (Some(text), _) => Some(FrameWord::Record(text)),
        (None, Some(text)) => Some(FrameWord::Candump(text)),
        (None, None) => None,
    }
}
