//! Offers while policies are replaced each millisecond, and the same offers alone.

use crate::ends::publish;
use crate::fault::Fault;
use crate::policies::{for_ports, table};
use crate::rounds::{drain, opened};
use gw_board::Operator;
use gw_frame::Frame;
use gw_policy::Policy;
use gw_ports::{Parts, PortIn, PortOut};
use std::alloc::Global;
use std::marker::Sync;
use std::sync::atomic::{AtomicBool, AtomicU32, Ordering};
use std::sync::{Arc, Wait};
use std::thread::{Threads, join, sleep};
use std::time::{Clock, Duration, Instant};

/// How many stretches of offers there are.
const STRETCHES: u32 = 50;

/// How many rounds a stretch has: some 10 milliseconds.
const ROUNDS: u32 = 100;

/// A stretch with replacements counts where one came in so many nanoseconds, in the mean: two milliseconds.
const PACE: u64 = 2_000_000;

/// What a long run of offers took, in nanoseconds.
#[derive(Clone, Copy)]
pub struct Offers {
    /// All offers together, each with a reading of the clock.
    pub all: u64,
    /// The longest.
    pub slowest: u64,
    /// The longest of the stretch whose longest is least.
    pub calmest: u64,
    /// How many replacements came meanwhile.
    pub replacements: u32,
}

impl Offers {
    /// The greatest times, of no replacements.
    pub const MOST: Offers = Offers {
        all: u64::MAX,
        slowest: u64::MAX,
        calmest: u64::MAX,
        replacements: 0,
    };

    /// Of no offers.
    const NONE: Offers = Offers {
        all: 0,
        slowest: 0,
        calmest: u64::MAX,
        replacements: 0,
    };

    /// The lesser times of two runs.
    pub fn least(self, other: Offers) -> Offers {
        Offers {
            all: self.all.min(other.all),
            slowest: self.slowest.min(other.slowest),
            calmest: self.calmest.min(other.calmest),
            replacements: self.replacements.max(other.replacements),
        }
    }

    /// These, and others behind them.
    fn and(self, other: Offers) -> Offers {
        Offers {
            all: self.all.saturating_add(other.all),
            slowest: self.slowest.max(other.slowest),
            calmest: self.calmest.min(other.calmest),
            replacements: self.replacements.saturating_add(other.replacements),
        }
    }
}

/// What the thread that offers and the one that replaces tell each other.
#[derive(Drop)]
struct Signals {
    is_over: AtomicBool,
    /// How many replacements there were.
    replacements: AtomicU32,
}

/// Offers frames at one of two ports in a thread of its own, while this one replaces policies each millisecond, or only sleeps.
pub fn time_replacing<R: Threads + Wait + Clock + Sync>(
    rt: &R,
    alloc: Global,
    policy: &Arc<Policy>,
    frames: &[Frame],
    is_replacing: bool,
) -> Result<Offers, Fault> {
    let Parts {
        mut operator,
        mut ins,
        mut outs,
    } = opened(rt, alloc, 2, policy)?;
    let offers = time_ends(
        rt,
        &mut operator,
        &mut ins,
        &mut outs,
        policy,
        frames,
        is_replacing,
    );
    operator.end(rt);
    offers
}

/// Offers frames at the first port in a thread of its own, while this one replaces policies, or only sleeps.
fn time_ends<R: Threads + Wait + Clock + Sync>(
    rt: &R,
    operator: &mut Operator,
    ins: &mut [PortIn],
    outs: &mut [PortOut],
    policy: &Arc<Policy>,
    frames: &[Frame],
    is_replacing: bool,
) -> Result<Offers, Fault> {
    let (Some(port), Some(out)) = (ins.first_mut(), outs.last_mut()) else {
        return Err(Fault::Unprepared);
    };
    let signals = Signals {
        is_over: AtomicBool::new(false),
        replacements: AtomicU32::new(0),
    };
    let shared = &signals;
    let (offers, ended) = join(
        rt,
        move || {
            let offers = offer_stretches(rt, port, out, frames, is_replacing, shared);
            shared.is_over.store(true, Ordering::SeqCst);
            offers
        },
        move || replace_until_over(rt, operator, policy, is_replacing, shared),
    );
    ended?;
    offers
}

/// Offers stretch by stretch. Where policies are replaced, a stretch with too few replacements is not the calmest.
fn offer_stretches<R: Clock>(
    rt: &R,
    port: &mut PortIn,
    out: &mut PortOut,
    frames: &[Frame],
    is_replacing: bool,
    signals: &Signals,
) -> Result<Offers, Fault> {
    let mut offers = Offers::NONE;
    for _ in 0..STRETCHES {
        let before = signals.replacements.load(Ordering::SeqCst);
        let (all, slowest) = offer_rounds(rt, port, out, frames)?;
        let now = signals.replacements.load(Ordering::SeqCst);
        let replacements = now.saturating_sub(before);
        let counts = !is_replacing || u64::from(replacements).saturating_mul(PACE) >= all;
        offers = offers.and(Offers {
            all,
            slowest,
            calmest: if counts { slowest } else { u64::MAX },
            replacements,
        });
    }
    Ok(offers)
}

/// Offers each frame in each round, and takes the copies out behind it.
fn offer_rounds<R: Clock>(
    rt: &R,
    port: &mut PortIn,
    out: &mut PortOut,
    frames: &[Frame],
) -> Result<(u64, u64), Fault> {
    let mut times = (0, 0);
    for _ in 0..ROUNDS {
        times = offer_all(rt, port, frames, times)?;
        drain(out);
    }
    Ok(times)
}

/// Offers each frame. Adds the time to that of those before, and keeps the longest.
fn offer_all<R: Clock>(
    rt: &R,
    port: &mut PortIn,
    frames: &[Frame],
    before: (u64, u64),
) -> Result<(u64, u64), Fault> {
    let (mut all, mut slowest) = before;
    let mut last = Instant::now(rt)?;
    for frame in frames {
        if port.offer(*frame).is_err() {
            return Err(Fault::Unprepared);
        }
        let now = Instant::now(rt)?;
        let time = u64::try_from(now.duration_since(last).as_nanos()).unwrap_or(u64::MAX);
        all = all.saturating_add(time);
        slowest = slowest.max(time);
        last = now;
    }
    Ok((all, slowest))
}

/// Replaces the policies each millisecond.
fn replace_until_over<R: Wait + Clock>(
    rt: &R,
    operator: &mut Operator,
    policy: &Arc<Policy>,
    is_replacing: bool,
    signals: &Signals,
) -> Result<(), Fault> {
    for _ in 0..60_000 {
        if signals.is_over.load(Ordering::SeqCst) {
            break;
        }
        sleep(rt, Duration::from_millis(1));
        if is_replacing {
            publish(rt, operator, for_ports(2, policy)?)?;
            signals.replacements.fetch_add(1, Ordering::SeqCst);
        }
    }
    Ok(())
}

/// The time in nanoseconds of an offer at the first port, which took a frame before so many replacements. Each has a policy of
/// its own, so the offer is the last to have those that it replaces there.
pub fn time_first_offer<R: Wait + Clock>(
    rt: &R,
    alloc: Global,
    text: &str,
    frames: &[Frame],
    replacements: u32,
) -> Result<u64, Fault> {
    let Parts {
        mut operator,
        mut ins,
        outs: _outs,
    } = opened(rt, alloc, 2, &table(alloc, text)?)?;
    let time = replace_and_offer(
        rt,
        alloc,
        &mut operator,
        &mut ins,
        text,
        frames,
        replacements,
    );
    operator.end(rt);
    time
}

fn replace_and_offer<R: Wait + Clock>(
    rt: &R,
    alloc: Global,
    operator: &mut Operator,
    ins: &mut [PortIn],
    text: &str,
    frames: &[Frame],
    replacements: u32,
) -> Result<u64, Fault> {
    let (Some(port), Some(frame)) = (ins.first_mut(), frames.first()) else {
        return Err(Fault::Unprepared);
    };
    time_offer(rt, port, *frame)?;
    replace(rt, alloc, operator, text, replacements)?;
    time_offer(rt, port, *frame)
}

/// Replaces the policy of both ports so often, by a new one each time.
fn replace<R: Wait>(
    rt: &R,
    alloc: Global,
    operator: &mut Operator,
    text: &str,
    replacements: u32,
) -> Result<(), Fault> {
    for _ in 0..replacements {
        publish(rt, operator, for_ports(2, &table(alloc, text)?)?)?;
    }
    Ok(())
}

/// The time of one offer, in nanoseconds.
fn time_offer<R: Clock>(rt: &R, port: &mut PortIn, frame: Frame) -> Result<u64, Fault> {
    let start = Instant::now(rt)?;
    if port.offer(frame).is_err() {
        return Err(Fault::Unprepared);
    }
    Ok(u64::try_from(start.elapsed(rt)?.as_nanos()).unwrap_or(u64::MAX))
}
