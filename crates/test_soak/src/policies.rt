//! The policies of a soak, in four batches that take turns.

ghost use Rattle.std.specs.Prelude.{◌≤◌, length, IfOk};

use crate::fault::Fault;
use gw_insn::{Raw, read_listing};
use gw_policy::{Batch, Policy};
use gw_table::Table;
use gw_verify::Program;
use std::alloc::{AllocError, Global};
use std::sync::Arc;

/// Passes frames whose first octet of payload is odd: `ldb [8]`, `and #1`, `ret a`.
const ODD: &str = "3,48 0 0 8,84 0 0 1,22 0 0 0,";

/// Passes what was not taken at port 0: `ld ifidx`, `ret a`.
const NOT_FROM_0: &str = "2,32 0 0 4294963208,22 0 0 0,";

/// Passes requests: `ldb [1]`, `jne #0xea, drop`, `ret #1`, `drop: ret #0`.
const REQUESTS: &str = "4,48 0 0 1,21 0 1 234,6 0 0 1,6 0 0 0,";

/// `ret #0`.
const BLOCK: &str = "1,6 0 0 0,";

/// The policies of which the batches are made.
#[derive(Drop)]
pub struct Policies {
    odd: Arc<Policy>,
    not_from_0: Arc<Policy>,
    requests: Arc<Policy>,
    block: Arc<Policy>,
    table: Arc<Policy>,
}

impl Policies {
    pub fn new(alloc: Global) -> Result<Policies, Fault> {
        Ok(Policies {
            table: sixteen_rules(alloc)?,
            odd: program(alloc, ODD)?,
            not_from_0: program(alloc, NOT_FROM_0)?,
            requests: program(alloc, REQUESTS)?,
            block: program(alloc, BLOCK)?,
        })
    }

    /// The batch of an index, counted from 0: four take turns, of which the first names each of four ports.
    pub fn batch(&self, index: usize) -> Result<Batch, Fault> {
        let mut batch = Batch::new();
        self.fill(index, &mut batch)?;
        Ok(batch)
    }

    /// Adds what an empty batch of an index has.
    fn fill(&self, index: usize, batch: &mut Batch) -> Result<(), Fault> {
        match index % 4 {
            0 => add_to_first(batch, 4, &self.odd),
            1 => {
                add(batch, 1, &self.table)?;
                add(batch, 2, &self.not_from_0)
            }
            2 => {
                add(batch, 0, &self.block)?;
                add(batch, 3, &self.requests)
            }
            _ => {
                add(batch, 0, &self.table)?;
                add(batch, 1, &self.not_from_0)?;
                add(batch, 3, &self.table)
            }
        }
    }

    /// So many batches behind the first.
    pub fn batches(&self, alloc: Global, count: usize) -> Result<Vec<Batch>, Fault> {
        let mut batches = Vec::new(alloc);
        for before in 0..count {
            batches.push(self.batch(before + 1)?)?;
        }
        Ok(batches)
    }
}

/// A batch with one policy for each of so many ports.
pub fn for_ports(ports: u8, policy: &Arc<Policy>) -> Result<Batch, Fault> {
    let mut batch = Batch::new();
    add_to_first(&mut batch, ports, policy)?;
    Ok(batch)
}

/// A batch with these policies, of port 0 first.
pub fn for_each(policies: &[Arc<Policy>]) -> Result<Batch, Fault> {
    let mut batch = Batch::new();
    let mut port: u8 = 0;
    for policy in policies {
        add(&mut batch, port, policy)?;
        port = port.saturating_add(1);
    }
    Ok(batch)
}

/// A policy so many times.
pub fn same(alloc: Global, ports: u8, policy: &Arc<Policy>) -> Result<Vec<Arc<Policy>>, Fault> {
    let mut policies = Vec::new(alloc);
    for _ in 0..ports {
        policies.push(Arc::try_clone(policy)?)?;
    }
    Ok(policies)
}

/// So many policies, each of a text's table with a rule more of its own.
pub fn unlike(alloc: Global, ports: u8, text: &str) -> Result<Vec<Arc<Policy>>, Fault> {
    let mut policies = Vec::new(alloc);
    for port in 0..ports {
        policies.push(own_table(alloc, text, port)?)?;
    }
    Ok(policies)
}

fn own_table(alloc: Global, text: &str, port: u8) -> Result<Arc<Policy>, Fault> {
    let mut own = String::new(alloc);
    write!(
        own,
        "{text}\n[[rule]]\naction = \"pass\"\npgn = 65280\nsource = {port}\n"
    )?;
    table(alloc, own.as_str())
}

/// Adds a policy for each of so many ports.
fn add_to_first(batch: &mut Batch, ports: u8, policy: &Arc<Policy>) -> Result<(), Fault> {
    for port in 0..ports {
        add(batch, port, policy)?;
    }
    Ok(())
}

fn add(batch: &mut Batch, port: u8, policy: &Arc<Policy>) -> Result<(), Fault> {
    batch
        .add(port, Arc::try_clone(policy)?)
        .map_err(|_| Fault::Unprepared)
}

/// The policy of a listing.
fn program(alloc: Global, listing: &str) -> Result<Arc<Policy>, Fault> {
    match Program::check(alloc, code_of(alloc, listing)?) {
        Ok(program) => shared(alloc, Policy::from_program(program)),
        Err(_) => Err(Fault::Unprepared),
    }
}

/// The code of a listing.
fn code_of(alloc: Global, listing: &str) -> Result<Vec<Raw>, Fault>
    ensures { IfOk result (λ code. length code.items ≤ 65535) }
{
    match read_listing(alloc, listing.as_bytes()) {
        Ok(code) if code.len() <= 65535 => Ok(code),
        _ => Err(Fault::Unprepared),
    }
}

/// The policy of a table.
pub fn table(alloc: Global, text: &str) -> Result<Arc<Policy>, Fault> {
    let Ok(table) = Table::read(alloc, text) else {
        return Err(Fault::Unprepared);
    };
    match Policy::from_table(alloc, table) {
        Ok(policy) => shared(alloc, policy),
        Err(_) => Err(Fault::Unprepared),
    }
}

/// The policy of the table of sixteen rules.
fn sixteen_rules(alloc: Global) -> Result<Arc<Policy>, Fault> {
    let text = table_text(alloc)?;
    table(alloc, text.as_str())
}

/// A table of sixteen rules, so many that it is judged by its index: it passes frames of even source addresses.
fn table_text(alloc: Global) -> Result<String, AllocError> {
    let mut text = String::new(alloc);
    for source in 128..144 {
        let action = if source % 2 == 0 { "pass" } else { "block" };
        write!(text, "[[rule]]\naction = \"{action}\"\nsource = {source}\n")?;
    }
    Ok(text)
}

fn shared(alloc: Global, policy: Policy) -> Result<Arc<Policy>, Fault> {
    match Arc::new(alloc, policy) {
        Ok(shared) => Ok(shared),
        Err(_) => Err(Fault::Unprepared),
    }
}
