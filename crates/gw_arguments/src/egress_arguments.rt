//! The arguments of `gw judge` on a log of several interfaces.

use crate::form::wrong;
use crate::forms::JUDGE;
use crate::source_arguments::name_sources;
use crate::taking_arguments::asked_interfaces;
use clap::{ArgMatches, Error};
use gw_answers::PolicySource;
use gw_judge::NamedInterface;
use gw_ledger::MAX_PORTS;
use std::alloc::{AllocError, Global};

/// What is asked of a log of several interfaces.
#[derive(Drop)]
pub struct EgressRequest<'a> {
    /// Where the policy of each port comes from.
    pub sources: [PolicySource<'a>; MAX_PORTS],
    /// The interfaces that are named for ports.
    pub interfaces: Vec<NamedInterface<'a>>,
}

/// What is asked of a log of several interfaces.
pub(crate) fn asked_egress<'a>(
    alloc: Global,
    found: &ArgMatches<'a>,
) -> Result<EgressRequest<'a>, Error> {
    let ports = match found.get_one::<u32>("ports") {
        Some(ports) => MAX_PORTS.min(ports as usize),
        None => MAX_PORTS,
    };
    let interfaces = asked_interfaces(alloc, found, ports, &JUDGE)?;
    written_names(alloc, interfaces.as_slice())?;
    let mut sources = [PolicySource::Opening; MAX_PORTS];
    name_sources(alloc, found, &mut sources[..ports], &JUDGE)?;
    Ok(EgressRequest {
        sources,
        interfaces,
    })
}

/// Whether each name can be read where it is written, as the interface of a line.
fn written_names(alloc: Global, interfaces: &[NamedInterface]) -> Result<(), Error> {
    for named in interfaces {
        let name = named.name;
        if !is_readable(name) {
            let text = format!(in alloc;
                "`{name}` is no interface of a log: a name has no blank and no `#`, and begins with neither `(` nor `[`"
            )?;
            return Err(wrong(alloc, &JUDGE, &text));
        }
    }
    Ok(())
}

fn is_readable(name: &str) -> bool {
    let octets = name.as_bytes();
    let parts = |octet: &u8| matches!(octet, b' ' | b'\t' | b'\r' | b'\n' | b'#');
    !octets.iter().any(parts) && !matches!(octets, [b'(' | b'[', ..])
}
