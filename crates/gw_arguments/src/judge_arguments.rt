//! The arguments of `gw judge`.

use crate::arguments::matched;
use crate::egress_arguments::{EgressRequest, asked_egress};
use crate::form::wrong;
use crate::forms::JUDGE;
use clap::{ArgMatches, Error};
use gw_answers::{CountForm, Grouping, LogQuery, PolicyKind, Shown};
use std::alloc::Global;
use std::convert::AsStr;

/// What `gw judge` is asked for.
#[derive(Drop)]
pub enum JudgeRequest<'a> {
    /// How the policy of a file of this name judges a log.
    Log(LogQuery, &'a str),
    /// What leaves of a log of several interfaces.
    Egress(EgressRequest<'a>),
}

/// What the arguments ask for where they name the command `judge`, or `clap`'s answer to them: help, or what is wrong.
pub fn read_judge<'a, S: AsStr>(
    alloc: Global,
    arguments: &'a [S],
) -> Result<JudgeRequest<'a>, Error> {
    let matches = matched(alloc, arguments)?;
    match matches.subcommand() {
        Some(("judge", found)) => asked(alloc, found),
        _ => Err(wrong(alloc, &JUDGE, "this is not the command `judge`")),
    }
}

/// What the arguments behind `judge` ask for.
fn asked<'a>(alloc: Global, found: &ArgMatches<'a>) -> Result<JudgeRequest<'a>, Error> {
    if found.get_flag("out") {
        return Ok(JudgeRequest::Egress(asked_egress(alloc, found)?));
    }
    let tables = found.get_strs("table").unwrap_or(&[]);
    let listings = found.get_strs("listing").unwrap_or(&[]);
    let (kind, file) = match (tables, listings) {
        (&[file], &[]) => (PolicyKind::Table, file),
        (&[], &[file]) => (PolicyKind::Listing, file),
        _ => return Err(wrong(
            alloc,
            &JUDGE,
            "one policy judges a log: name its file by --table or --listing; those of several ports are for --out",
        )),
    };
    let query = LogQuery {
        kind,
        port: found.get_one::<u8>("port").unwrap_or(0),
        shown: shown(found),
        by: grouping(found),
        strict: found.get_flag("strict"),
    };
    Ok(JudgeRequest::Log(query, file))
}

/// What is written.
fn shown(found: &ArgMatches) -> Shown {
    if found.get_flag("passed") {
        Shown::Passed
    } else if found.get_flag("blocked") {
        Shown::Blocked
    } else if found.get_flag("each") {
        Shown::Each
    } else {
        Shown::Counts(form(found))
    }
}

/// How counts are written.
fn form(found: &ArgMatches) -> CountForm {
    if found.get_flag("json") {
        CountForm::Json
    } else {
        CountForm::Lines
    }
}

/// In which groups frames are counted.
fn grouping(found: &ArgMatches) -> Grouping {
    match found.get_str("by") {
        Some("pgn") => Grouping::Pgn,
        Some("source") => Grouping::Source,
        _ => Grouping::Nothing,
    }
}
