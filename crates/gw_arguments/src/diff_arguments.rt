//! The arguments of `gw diff`.

use crate::arguments::matched;
use crate::form::wrong;
use crate::forms::DIFF;
use crate::port_files::{ValueFault, name_file, told};
use clap::{ArgMatches, Error};
use gw_answers::{PortFiles, TableFiles};
use std::alloc::{AllocError, Global};
use std::convert::AsStr;

/// What `diff` is asked for.
#[derive(Drop)]
pub enum DiffRequest<'a> {
    /// What the tables of two files differ in.
    Tables(TableFiles<'a>),
    /// The lines of a log that they treat unlike, whose frames were taken at this port.
    Log(TableFiles<'a>, u8),
    /// What the tables of a gateway's ports differ in.
    Ports(Vec<PortFiles<'a>>),
}

/// What is asked for, where the arguments name the command `diff`, or `clap`'s answer to them: help, or what is wrong.
pub fn read_diff<'a, S: AsStr>(
    alloc: Global,
    arguments: &'a [S],
) -> Result<DiffRequest<'a>, Error> {
    let matches = matched(alloc, arguments)?;
    match matches.subcommand() {
        Some(("diff", found)) => asked(alloc, found),
        _ => Err(wrong(alloc, &DIFF, "this is not the command `diff`")),
    }
}

/// What the arguments behind `diff` ask for.
fn asked<'a>(alloc: Global, found: &ArgMatches<'a>) -> Result<DiffRequest<'a>, Error> {
    if let Some(ports) = found.get_one::<u32>("ports") {
        return Ok(DiffRequest::Ports(asked_files(alloc, found, ports as usize)?));
    }
    let (Some(old), Some(new)) = (found.get_str("old-file"), found.get_str("new-file")) else {
        return Err(wrong(alloc, &DIFF, "name the files of two tables"));
    };
    let files = TableFiles { old, new };
    if found.get_flag("log") {
        Ok(DiffRequest::Log(files, found.get_one::<u8>("port").unwrap_or(0)))
    } else {
        Ok(DiffRequest::Tables(files))
    }
}

/// The files of the tables of so many ports.
fn asked_files<'a>(
    alloc: Global,
    found: &ArgMatches<'a>,
    ports: usize,
) -> Result<Vec<PortFiles<'a>>, Error> {
    let old = found.get_strs("old").unwrap_or(&[]);
    let new = found.get_strs("new").unwrap_or(&[]);
    if old.is_empty() && new.is_empty() {
        return Err(wrong(
            alloc,
            &DIFF,
            "no table is named: name one by --old P=FILE or --new P=FILE",
        ));
    }
    let old = named_files(alloc, old, ports, "one old table")?;
    let new = named_files(alloc, new, ports, "one new table")?;
    let mut files = Vec::new(alloc);
    for (old, new) in old.iter().zip(new.iter()) {
        files.push(PortFiles {
            old: *old,
            new: *new,
        })?;
    }
    Ok(files)
}

/// The file that is named for each of so many ports, if one is. A port that is named twice may have `one`.
fn named_files<'a>(
    alloc: Global,
    values: &[&'a str],
    ports: usize,
    one: &str,
) -> Result<Vec<Option<&'a str>>, Error> {
    let mut files = vec![in alloc; None; ports]?;
    for value in values {
        if let Err(fault) = name_file(value, &mut files) {
            return Err(wrong_value(alloc, value, ports, fault, one));
        }
    }
    Ok(files)
}

/// `clap`'s error for a value that names no file for one of so many ports.
fn wrong_value(alloc: Global, value: &str, ports: usize, fault: ValueFault, one: &str) -> Error {
    match told(alloc, value, ports, fault, one) {
        Ok(text) => wrong(alloc, &DIFF, &text),
        Err(AllocError) => Error::from(AllocError),
    }
}
