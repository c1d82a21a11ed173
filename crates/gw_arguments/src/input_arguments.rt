//! The files from which the ports take their frames, as the arguments of `gw run` name them.

ghost use Rattle.std.specs.Prelude.{◌≡◌, vec_len, IfOk};

use crate::form::wrong;
use crate::forms::RUN;
use crate::port_files::{name_file, told};
use clap::{ArgMatches, Error};
use std::alloc::Global;

/// The file that is named for each of so many ports, if one is.
pub(crate) fn asked_inputs<'a>(
    alloc: Global,
    run: &ArgMatches<'a>,
    ports: usize,
) -> Result<Vec<Option<&'a str>>, Error>
    ensures { IfOk result (λ files. vec_len files ≡ ports) }
{
    let mut files = vec![in alloc; None; ports]?;
    for value in run.get_strs("in").unwrap_or(&[]) {
        if let Err(fault) = name_file(value, &mut files) {
            let text = told(alloc, value, ports, fault, "one input")?;
            return Err(wrong(alloc, &RUN, &text));
        }
    }
    Ok(files)
}
