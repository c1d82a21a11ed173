//! Interfaces of a log, which are named for ports.

ghost use Rattle.std.specs.Prelude.{◌≡◌};
ghost use Rattle.gw_judge.specs.Interfaces.{port_named};

/// An interface of a log, and the port that takes the frames of its lines.
#[derive(Clone, Copy, PartialEq, Eq, Debug)]
pub struct NamedInterface<'a> {
    pub name: &'a str,
    pub port: u8,
}

/// The port that the first of these names gives an interface.
pub fn port_named(names: &[NamedInterface], interface: &[u8]) -> Option<u8>
    ensures { result ≡ port_named names.now interface.now }
{
    names
        .iter()
        .find(|named| named.name.as_bytes() == interface)
        .map(|named| named.port)
}
