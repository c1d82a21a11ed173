//! Files that are named for ports, `P=FILE`.

ghost use Rattle.std.specs.Prelude.{◌≡◌, ◌<◌, length, IfOk};

use std::alloc::{AllocError, Global};

/// Why a value names no port and its file.
#[derive(Clone, Copy)]
pub enum ValueFault {
    /// It is no `P=FILE`.
    NoFile,
    /// The port is not there.
    NoPort,
    /// A file is named for its port before.
    Twice(usize),
}

/// The port, one of so many, and the file of `P=FILE`.
pub fn port_file(value: &str, ports: usize) -> Result<(usize, &str), ValueFault>
    ensures { IfOk result (λ named. named.0 < ports) }
{
    let Some((number, file)) = value.split_once('=') else {
        return Err(ValueFault::NoFile);
    };
    match number.parse::<usize>() {
        Ok(port) if port < ports => Ok((port, file)),
        _ => Err(ValueFault::NoPort),
    }
}

/// Names the file of a port, where none is named for it before.
pub fn name_file<'a>(value: &'a str, files: &mut [Option<&'a str>]) -> Result<(), ValueFault>
    ensures { length files.new ≡ length files.old }
{
    let (port, file) = port_file(value, files.len())?;
    if files[port].is_some() {
        return Err(ValueFault::Twice(port));
    }
    files[port] = Some(file);
    Ok(())
}

/// What is told of a value that names no file for one of so many ports. A port that is named twice may have `one`.
pub fn told(
    alloc: Global,
    value: &str,
    ports: usize,
    fault: ValueFault,
    one: &str,
) -> Result<String, AllocError> {
    match fault {
        ValueFault::NoFile => format!(in alloc;
            "`{value}` is no `P=FILE`: write the number of a port, `=` and the name of a file"
        ),
        ValueFault::NoPort => {
            let most = ports.saturating_sub(1);
            format!(in alloc;
                "`{value}` names no port of {ports}: write a number from 0 to {most} before the `=`"
            )
        }
        ValueFault::Twice(port) => format!(in alloc; "port {port} is named twice: give it {one}"),
    }
}
