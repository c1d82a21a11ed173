//! Where the policies of a gateway's ports come from, as the arguments of a command name them.

ghost use Rattle.std.specs.Prelude.{◌≡◌, length};

use crate::form::{Form, wrong};
use crate::port_files::{ValueFault, port_file, told};
use clap::{ArgMatches, Error};
use gw_answers::{PolicyKind, PolicySource};
use std::alloc::Global;

/// Whether the arguments name no file of a port's policy.
pub(crate) fn names_no_source(found: &ArgMatches) -> bool {
    found.get_strs("table").is_none() && found.get_strs("listing").is_none()
}

/// Names the files of the ports' policies. The usage of a command stands behind what is wrong.
pub(crate) fn name_sources<'a>(
    alloc: Global,
    found: &ArgMatches<'a>,
    sources: &mut [PolicySource<'a>],
    form: &Form,
) -> Result<(), Error>
    ensures { length sources.new ≡ length sources.old }
{
    let tables = found.get_strs("table").unwrap_or(&[]);
    let listings = found.get_strs("listing").unwrap_or(&[]);
    name_files(alloc, tables, PolicyKind::Table, sources, form)?;
    name_files(alloc, listings, PolicyKind::Listing, sources, form)
}

/// Names files of a kind for their ports.
fn name_files<'a>(
    alloc: Global,
    values: &[&'a str],
    kind: PolicyKind,
    sources: &mut [PolicySource<'a>],
    form: &Form,
) -> Result<(), Error>
    ensures { length sources.new ≡ length sources.old }
{
    for value in values {
        let (port, file) = match named_port(value, sources) {
            Ok(named) => named,
            Err(fault) => {
                let text = told(
                    alloc,
                    value,
                    sources.len(),
                    fault,
                    "one table or one listing",
                )?;
                return Err(wrong(alloc, form, &text));
            }
        };
        if let Some(place) = sources.get_mut(port) {
            *place = match kind {
                PolicyKind::Table => PolicySource::Table(file),
                PolicyKind::Listing => PolicySource::Listing(file),
            };
        }
    }
    Ok(())
}

/// The port and the file of `P=FILE`, where no file is named for the port before.
fn named_port<'a>(
    value: &'a str,
    sources: &[PolicySource],
) -> Result<(usize, &'a str), ValueFault> {
    let (port, file) = port_file(value, sources.len())?;
    match sources.get(port) {
        Some(PolicySource::Table(_) | PolicySource::Listing(_)) => Err(ValueFault::Twice(port)),
        _ => Ok((port, file)),
    }
}
