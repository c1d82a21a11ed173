//! Which port takes which frame, as the arguments of a command say it.

use crate::form::{Form, wrong};
use clap::{ArgMatches, Error};
use gw_judge::NamedInterface;
use std::alloc::{AllocError, Global};

/// The interfaces of a log that are named for so many ports. The usage of a command stands behind what is wrong.
pub(crate) fn asked_interfaces<'a>(
    alloc: Global,
    found: &ArgMatches<'a>,
    ports: usize,
    form: &Form,
) -> Result<Vec<NamedInterface<'a>>, Error> {
    let mut interfaces = Vec::new(alloc);
    for value in found.get_strs("interface").unwrap_or(&[]) {
        match named_interface(value, ports, interfaces.as_slice()) {
            Ok(named) => interfaces.push(named)?,
            Err(fault) => return Err(wrong(alloc, form, &told(alloc, value, ports, fault)?)),
        }
    }
    Ok(interfaces)
}

/// Why a value names no interface and its port.
#[derive(Clone, Copy)]
enum ValueFault<'a> {
    /// It is no `NAME=P`.
    NoPort,
    /// The port is not there.
    NoSuchPort,
    /// This interface is named before.
    Twice(&'a str),
}

/// The interface and the port of `NAME=P`, where the port is one of so many, and the interface is not named before.
fn named_interface<'a>(
    value: &'a str,
    ports: usize,
    before: &[NamedInterface],
) -> Result<NamedInterface<'a>, ValueFault<'a>> {
    let Some((name, number)) = value.rsplit_once('=') else {
        return Err(ValueFault::NoPort);
    };
    let Ok(port) = number.parse::<u8>() else {
        return Err(ValueFault::NoPort);
    };
    if usize::from(port) >= ports {
        return Err(ValueFault::NoSuchPort);
    }
    if before.iter().any(|named| named.name == name) {
        return Err(ValueFault::Twice(name));
    }
    Ok(NamedInterface { name, port })
}

/// What is told of a value that names no interface for one of so many ports.
fn told(alloc: Global, value: &str, ports: usize, fault: ValueFault) -> Result<String, AllocError> {
    match fault {
        ValueFault::NoPort => format!(in alloc;
            "`{value}` is no `NAME=P`: write the name of an interface, `=` and the number of a port"
        ),
        ValueFault::NoSuchPort => {
            let most = ports.saturating_sub(1);
            format!(in alloc;
                "`{value}` names no port of {ports}: write a number from 0 to {most} behind the `=`"
            )
        }
        ValueFault::Twice(name) => format!(in alloc;
            "interface {name} is named twice: give it one port"
        ),
    }
}
