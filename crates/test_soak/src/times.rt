//! The times of the ends, as a table in markdown.

use crate::fault::Fault;
use crate::frames::pool;
use crate::policies::{same, table, unlike};
use crate::replacing::{Offers, time_first_offer, time_replacing};
use crate::rounds::{time_offers, time_readings, time_sendings};
use gw_frame::Frame;
use gw_policy::Policy;
use std::alloc::Global;
use std::fmt;
use std::fmt::{Display, Formatter};
use std::io::Write;
use std::marker::Sync;
use std::sync::{Arc, Wait};
use std::thread::Threads;
use std::time::Clock;

/// How often the run of offers is repeated, with and without replacements.
const REPEATS: u32 = 20;

/// How often a port's first offer is timed, each behind thousands of replacements.
const FIRST_OFFERS: u32 = 5;

/// Tenths, as a number with one place behind the point.
#[derive(Clone, Copy)]
struct Tenths(u64);

impl Display for Tenths {
    fn fmt<W: fmt::Write>(&self, f: &mut Formatter<W>) -> fmt::Result {
        let whole = self.0 / 10;
        let tenth = self.0 % 10;
        write!(f, "{whole}.{tenth}")
    }
}

/// Times the ends of a gateway each of whose ports has the table of a text for its policy, and writes the times.
pub fn time<R: Threads + Wait + Clock + Sync, W: Write>(
    rt: &R,
    alloc: Global,
    text: &str,
    output: &mut W,
) -> Result<(), Fault> {
    let policy = table(alloc, text)?;
    let frames = pool(alloc)?;
    tell_offers(rt, alloc, text, &policy, &frames, output)?;
    tell_calls(rt, alloc, &policy, &frames, output)?;
    tell_replacing(rt, alloc, &policy, &frames, output)?;
    tell_first_offer(rt, alloc, text, &frames, output)
}

/// Writes the times of offers, where all ports have the policy, and where each has one of its own.
fn tell_offers<R: Wait + Clock, W: Write>(
    rt: &R,
    alloc: Global,
    text: &str,
    policy: &Arc<Policy>,
    frames: &[Frame],
    output: &mut W,
) -> Result<(), Fault> {
    writeln!(
        output,
        "\n| `offer`, other ports | policies | ns | verdicts one by one, ns | more than these, ns a port |\n|---|---|---|---|---|"
    )?;
    for ports in [2, 16] {
        let one = same(alloc, ports, policy)?;
        tell_offer(rt, alloc, "one", ports, one.as_slice(), frames, output)?;
        let each = unlike(alloc, ports, text)?;
        tell_offer(rt, alloc, "unlike", ports, each.as_slice(), frames, output)?;
    }
    Ok(())
}

fn tell_offer<R: Wait + Clock, W: Write>(
    rt: &R,
    alloc: Global,
    name: &str,
    ports: u8,
    policies: &[Arc<Policy>],
    frames: &[Frame],
    output: &mut W,
) -> Result<(), Fault> {
    let (offers, verdicts) = time_offers(rt, alloc, ports, policies, frames)?;
    let others = ports.saturating_sub(1).max(1);
    let more = offers.saturating_sub(verdicts) / u64::from(others);
    write!(output, "| {others} | {name} ")?;
    tell_tenths(&[offers, verdicts, more], output)
}

/// Writes the times of other calls.
fn tell_calls<R: Wait + Clock, W: Write>(
    rt: &R,
    alloc: Global,
    policy: &Arc<Policy>,
    frames: &[Frame],
    output: &mut W,
) -> Result<(), Fault> {
    writeln!(output, "\n| call | other ports | ns |\n|---|---|---|")?;
    tell_sendings(rt, alloc, 1, policy, frames, output)?;
    tell_sendings(rt, alloc, 15, policy, frames, output)?;
    let reading = Tenths(time_readings(rt, alloc, policy)?);
    writeln!(output, "| a reading of the board | | {reading} |")?;
    Ok(())
}

fn tell_sendings<R: Wait + Clock, W: Write>(
    rt: &R,
    alloc: Global,
    others: u8,
    policy: &Arc<Policy>,
    frames: &[Frame],
    output: &mut W,
) -> Result<(), Fault> {
    let ports = others.saturating_add(1);
    let sending = Tenths(time_sendings(rt, alloc, ports, policy, frames)?);
    writeln!(output, "| `next` | {others} | {sending} |")?;
    Ok(())
}

/// Writes tenths as the last cells of a row.
fn tell_tenths<W: Write>(cells: &[u64], output: &mut W) -> Result<(), Fault> {
    for cell in cells {
        let tenths = Tenths(*cell);
        write!(output, "| {tenths} ")?;
    }
    writeln!(output, "|")?;
    Ok(())
}

/// Writes what a replacement each millisecond does to offers.
fn tell_replacing<R: Threads + Wait + Clock + Sync, W: Write>(
    rt: &R,
    alloc: Global,
    policy: &Arc<Policy>,
    frames: &[Frame],
    output: &mut W,
) -> Result<(), Fault> {
    let (mut alone, mut beside) = (Offers::MOST, Offers::MOST);
    for _ in 0..REPEATS {
        alone = alone.least(time_replacing(rt, alloc, policy, frames, false)?);
        beside = beside.least(time_replacing(rt, alloc, policy, frames, true)?);
    }
    writeln!(
        output,
        "\n| offers at one port | replacements | milliseconds | slowest, us | in the calmest stretch, us |\n|---|---|---|---|---|"
    )?;
    tell_long("alone", alone, output)?;
    tell_long("with a replacement each millisecond", beside, output)
}

fn tell_long<W: Write>(name: &str, offers: Offers, output: &mut W) -> Result<(), Fault> {
    let replacements = offers.replacements;
    write!(output, "| {name} | {replacements} ")?;
    let cells = [
        offers.all / 100_000,
        offers.slowest / 100,
        offers.calmest / 100,
    ];
    tell_tenths(&cells, output)
}

/// Writes what an offer takes at a port that took no frame for many replacements.
fn tell_first_offer<R: Wait + Clock, W: Write>(
    rt: &R,
    alloc: Global,
    text: &str,
    frames: &[Frame],
    output: &mut W,
) -> Result<(), Fault> {
    writeln!(
        output,
        "\n| replacements before a port's offer | the offer, microseconds |\n|---|---|"
    )?;
    for replacements in [0, 1, 10_000] {
        let mut least = u64::MAX;
        for _ in 0..FIRST_OFFERS {
            least = least.min(time_first_offer(rt, alloc, text, frames, replacements)?);
        }
        let tenths = Tenths(least / 100);
        writeln!(output, "| {replacements} | {tenths} |")?;
    }
    Ok(())
}
