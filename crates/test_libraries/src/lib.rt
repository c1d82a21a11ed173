#![tactic(auto)]
//! The tests of the library crates, each crate's in a file of its own, gw_cli's in several, by public calls alone. They stand in
//! one crate since a crate with tests is proved a second time with them.

#[cfg(test)]
mod bench;
#[cfg(test)]
mod board;
#[cfg(test)]
mod claims;
#[cfg(test)]
mod cli;
#[cfg(test)]
mod cli_command;
#[cfg(test)]
mod cli_run;
#[cfg(test)]
mod cli_streams;
#[cfg(test)]
mod differences;
#[cfg(test)]
mod events;
#[cfg(test)]
mod every_frame;
#[cfg(test)]
mod frame;
#[cfg(test)]
mod ident;
#[cfg(test)]
mod index;
#[cfg(test)]
mod insn;
#[cfg(test)]
mod lanes;
#[cfg(test)]
mod ledger;
#[cfg(test)]
mod long_runs;
#[cfg(test)]
mod machine;
#[cfg(test)]
mod made;
#[cfg(test)]
mod octets;
#[cfg(test)]
mod policy;
#[cfg(test)]
mod ports;
#[cfg(test)]
mod questions;
#[cfg(test)]
mod renewing;
#[cfg(test)]
mod replay;
#[cfg(test)]
mod running;
#[cfg(test)]
mod sinks;
#[cfg(test)]
mod stopping;
#[cfg(test)]
mod streams;
#[cfg(test)]
mod table;
#[cfg(test)]
mod text;
#[cfg(test)]
mod texts;
#[cfg(test)]
mod trace;
#[cfg(test)]
mod tried;
#[cfg(test)]
mod verify;
