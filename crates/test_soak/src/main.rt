//! Soaks a gateway that runs in threads of its own: four ports offer frames and take copies out while policies are replaced,
//! and one thread judges each outcome again. Then it soaks two gateways more, whose ends are in threads of the soak's: one from
//! which no copy is taken out before the last offer, and one whose offers are held back until the lanes have room.
//!
//! The words are how many frames each port offers, and after how many offers each replacement comes. What it prints on the output
//! is the same whatever the schedule; how many copies there were is on stderr. The status is 0 where all agrees, else
//! 1, or that of a fault. With the word `times` it times the ends of a gateway on the table that it reads instead.
#![tactic(auto)]

mod ends;
mod fault;
mod frames;
mod judging;
mod lanes;
mod pace;
mod policies;
mod replacing;
mod rounds;
mod sendings;
mod soaking;
mod takings;
mod times;

use fault::Fault;
use soaking::{Found, Material, soak, soak_ends};
use std::env;
use std::io::{Write, read_to_string};
use std::marker::Sync;
use std::process::ExitCode;
use std::sync::Wait;
use std::thread::Threads;
use std::time::{Clock, Duration, Instant};
use times::time;

/// How many frames a port offers at most, where its ends are in threads of the soak's own.
const MOST_AT_ENDS: u32 = 100_000;

fn main(rt: HostRuntime) -> ExitCode {
    match run(&rt, &rt) {
        Ok(true) => ExitCode::SUCCESS,
        Ok(false) => ExitCode::from(1),
        Err(fault) => {
            let _ = writeln!(rt.stderr(), "test_soak: {fault}");
            ExitCode::from(fault.status())
        }
    }
}

/// What the words ask for.
#[derive(Clone, Copy)]
enum Request {
    Soak { each: u32, every: u32 },
    Times,
}

/// Does what the words ask for, and answers whether all agrees. `threads` is the runtime as what a soak may start threads and
/// wait by.
fn run<R: Threads + Wait + Clock + Sync>(rt: &HostRuntime, threads: &R) -> Result<bool, Fault> {
    match words(rt)? {
        Request::Soak { each, every } => soak_all(rt, threads, each, every),
        Request::Times => {
            let text = read_to_string(rt.alloc(), rt.stdin())?;
            time(threads, rt.alloc(), text.as_str(), &mut rt.stdout())?;
            Ok(true)
        }
    }
}

/// Soaks three gateways, and answers whether all agrees.
fn soak_all<R: Threads + Wait + Sync>(
    rt: &HostRuntime,
    threads: &R,
    each: u32,
    every: u32,
) -> Result<bool, Fault> {
    let material = Material::new(rt.alloc())?;
    soak_each(rt, threads, &material, each, every)
}

/// Soaks a gateway in threads of its own, and then two whose ends are in threads of the soak's.
fn soak_each<R: Threads + Wait + Sync>(
    rt: &HostRuntime,
    threads: &R,
    material: &Material,
    each: u32,
    every: u32,
) -> Result<bool, Fault> {
    let whole = soak_whole(rt, threads, material, each, every)?;
    let at_ends = each.min(MOST_AT_ENDS);
    let filled = soak_parts(rt, threads, material, at_ends, false)?;
    let held = soak_parts(rt, threads, material, at_ends, true)?;
    Ok(whole && filled && held)
}

/// Soaks a gateway in threads of its own, and answers whether all agrees.
fn soak_whole<R: Threads + Wait + Sync>(
    rt: &HostRuntime,
    threads: &R,
    material: &Material,
    each: u32,
    every: u32,
) -> Result<bool, Fault> {
    let start = Instant::now(rt)?;
    let found = soak(threads, rt.alloc(), material, each, every)?;
    let time = start.elapsed(rt)?;
    tell(&found, &mut rt.stdout())?;
    tell_copies(&found, time, &mut rt.stderr())?;
    Ok(found.agrees())
}

/// Soaks a gateway whose ends are in threads of the soak's, and answers whether all agrees.
fn soak_parts<R: Threads + Wait + Sync>(
    rt: &HostRuntime,
    threads: &R,
    material: &Material,
    each: u32,
    holds_offers: bool,
) -> Result<bool, Fault> {
    let found = soak_ends(threads, rt.alloc(), material, each, holds_offers)?;
    tell_ends(&found, holds_offers, &mut rt.stdout())?;
    Ok(found.agrees())
}

fn words(rt: &HostRuntime) -> Result<Request, Fault> {
    let mut words = env::args(rt)?.skip(1);
    let (first, second) = (words.next(), words.next());
    if words.next().is_some() {
        Err(Fault::WrongWords)
    } else {
        asked(first.as_deref(), second.as_deref())
    }
}

/// What at most two words ask for.
fn asked(first: Option<&str>, second: Option<&str>) -> Result<Request, Fault> {
    match (first, second) {
        (Some(each), Some(every)) => Ok(Request::Soak {
            each: number(each)?,
            every: number(every)?,
        }),
        (Some(word), None) if word == "times" => Ok(Request::Times),
        _ => Err(Fault::WrongWords),
    }
}

/// The number that a word spells, but for 0.
fn number(word: &str) -> Result<u32, Fault> {
    match word.parse::<u32>() {
        Ok(number) if number > 0 => Ok(number),
        _ => Err(Fault::WrongWords),
    }
}

/// Writes what is the same whatever the schedule, where all agrees.
fn tell<W: Write>(found: &Found, output: &mut W) -> Result<(), Fault> {
    tell_numbers(
        &[
            (found.taken as u64, " of "),
            (found.offers as u64, " frames taken, "),
            (found.local, " of them local\n"),
            (found.published as u64, " of "),
            (found.replacements as u64, " replacements published, "),
            (found.current as u64, " of 4 ports know the last\n"),
            (found.taken as u64, " outcomes judged again, "),
            (found.differing as u64, " differ\n"),
            (found.lanes as u64, " lanes, "),
            (found.disordered as u64, " out of order, "),
            (found.left, " copies left\n"),
        ],
        output,
    )?;
    let balance = if found.is_balanced {
        "the ledgers balance"
    } else {
        "the ledgers do not balance"
    };
    writeln!(output, "{balance}")?;
    Ok(())
}

/// Writes numbers, each with the text behind it.
fn tell_numbers<W: Write>(numbers: &[(u64, &str)], output: &mut W) -> Result<(), Fault> {
    for (number, text) in numbers {
        write!(output, "{number}{text}")?;
    }
    Ok(())
}

/// Writes what was found of a gateway whose ends are in threads of the soak's, and how many copies had one fate.
fn tell_ends<W: Write>(found: &Found, holds_offers: bool, output: &mut W) -> Result<(), Fault> {
    let (name, copies, fate) = if holds_offers {
        ("offers held back", found.lost, " copies lost\n")
    } else {
        ("nothing taken out", found.placed, " copies placed\n")
    };
    write!(output, "{name}: ")?;
    tell_numbers(
        &[
            (found.taken as u64, " of "),
            (found.offers as u64, " frames taken, "),
            (found.differing as u64, " outcomes differ, "),
            (copies, fate),
        ],
        output,
    )
}

/// Writes how many copies there were, and the time.
fn tell_copies<W: Write>(found: &Found, time: Duration, faults: &mut W) -> Result<(), Fault> {
    tell_numbers(
        &[
            (found.allowed, " copies allowed, "),
            (found.placed, " placed, "),
            (found.lost, " lost; "),
            (time.as_secs(), " s\n"),
        ],
        faults,
    )?;
    if !found.is_whole {
        writeln!(
            faults,
            "a port stopped, a replacement was refused, or something came too soon"
        )?;
    }
    Ok(())
}
