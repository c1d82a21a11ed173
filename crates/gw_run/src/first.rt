//! The policies with which a run begins.

ghost use Rattle.std.specs.Prelude.{◌≡◌, ◌<◌, ◌≤◌, false, length, map, option_map, IfOk, IfErr};
ghost use Rattle.gw_policy.specs.Batches.{names_port};
ghost use Rattle.gw_run.specs.Forwarding.{IsFirst, RefusesSources, joined};

use gw_answers::{PolicySource, Refusal, RefusedFile, policy};
use gw_input::{line_of_rule, rule_lines};
use gw_io::Tried;
use gw_policy::{Batch, Policy};
use gw_table::Span;
use std::alloc::Global;
use std::io::Write;
use std::sync::Arc;

/// The policies of the ports' sources. A person is told which port's file is refused, and which rules decide nothing.
pub(crate) fn first_batch<F: Write>(
    alloc: Global,
    sources: &[PolicySource],
    texts: &[Vec<u8>],
    faults: &mut Tried<F>,
) -> Result<Batch, Refusal>
    requires few { length sources.now ≤ 16 }
    requires texts { length texts.now ≡ length sources.now }
    ensures first { IfOk result (IsFirst sources.now (map (λ text. text.items) texts.now)) }
    ensures refused { IfErr result (RefusesSources sources.now (map (λ text. text.items) texts.now)) }
{
    let mut first = Batch::new();
    for port in 0..sources.len() {
        let made = match policy(alloc, sources[port], texts[port].as_slice()) {
            Ok(made) => made,
            Err(refusal) => {
                note_file(port, sources[port], &refusal, faults);
                return Err(refusal);
            }
        };
        if let Some(policy) = &made {
            let text = texts[port].as_slice();
            note_idle_rules(
                alloc,
                port,
                sources.len(),
                sources[port],
                text,
                policy,
                faults,
            );
        }
        join(&mut first, port as u8, made);
    }
    Ok(first)
}

/// The policy joins the batch, if there is one.
fn join(first: &mut Batch, port: u8, made: Option<Arc<Policy>>)
    requires free { names_port port first.old ≡ false }
    requires room { length first.old < 16 }
    ensures { first.new ≡ joined port (option_map (λ shared. shared.value) made) first.old }
{
    if let Some(policy) = made {
        let Ok(()) = first.add(port, policy) else {
            unreachable!();
        };
    }
}

/// Tells which file is refused, and for which port it is.
fn note_file<F: Write>(
    port: usize,
    source: PolicySource,
    refusal: &Refusal,
    faults: &mut Tried<F>,
) {
    if let Some((kind, file)) = named(source) {
        let refused = RefusedFile { file, refusal };
        let _ = writeln!(
            faults,
            "gw: the {kind} of port {port}, {refused}, is refused:"
        );
    }
}

/// Tells of the rules of a port's table that decide nothing there: no other port of the gateway is in their `from`.
fn note_idle_rules<F: Write>(
    alloc: Global,
    port: usize,
    ports: usize,
    source: PolicySource,
    text: &[u8],
    policy: &Policy,
    faults: &mut Tried<F>,
) {
    let (Some((_, file)), Some(table)) = (named(source), policy.table()) else {
        return;
    };
    let Ok(lines) = rule_lines(alloc, text) else {
        return;
    };
    for (number, rule) in table.table().rules().iter().enumerate() {
        if !takes_another(rule.from, port, ports) {
            let line = line_of_rule(lines.as_slice(), number);
            note_idle_rule(port, file, line, number, faults);
        }
    }
}

/// Tells of such a rule, and at which line of the table's file it stands, where that is known.
fn note_idle_rule<F: Write>(
    port: usize,
    file: &str,
    line: Option<usize>,
    number: usize,
    faults: &mut Tried<F>,
) {
    let _ = write!(faults, "gw: the table of port {port}, {file}");
    if let Some(line) = line {
        let _ = write!(faults, ":{line}");
    }
    let _ = writeln!(
        faults,
        ": rule {number} decides nothing there: its `from` names no other port of this gateway"
    );
}

/// Whether a port of a gateway of so many, other than this one, lies in a range.
fn takes_another(from: Span, port: usize, ports: usize) -> bool {
    (0..ports).any(|other| other != port
        && from.low as usize <= other
        && other <= from.high as usize)
}

/// What the file of a source is called, where it names one.
fn named(source: PolicySource<'_>) -> Option<(&'static str, &str)> {
    match source {
        PolicySource::Listing(file) => Some(("listing", file)),
        PolicySource::Table(file) => Some(("table", file)),
        _ => None,
    }
}
