//! Why a trace or a log is not forwarded.

ghost use Rattle.std.specs.Prelude.{◌≡◌};
ghost use Rattle.gw_answers.specs.declared.refusal.Refusal.TheVariants.{OutOfMemory};
ghost use Rattle.gw_run.specs.Refusals.{trace_line};
ghost use Rattle.gw_run.specs.declared.refusal.ForwardRefusal.TheVariants.{Command};

use gw_answers::Refusal;
use gw_input::{Line, refused};
use gw_judge::NoLog;
use gw_ports::{OfferRefusal, RunRefusal};
use gw_trace::TraceRefusal;
use std::alloc::{AllocError, AllocFailed};
use std::error::Error;
use std::fmt;
use std::fmt::{Display, Formatter};

/// The number of an input that is no log, where a log is to be read.
const NO_LOG: u32 = 114;

/// Why a trace or a log is not forwarded.
#[derive(Drop, Debug)]
pub enum ForwardRefusal {
    /// What a command refuses: 10 to 13, 20 to 30, 50 to 55 and 98 of a policy's text, 96 and 98 of its file, 96 of a port's
    /// input that could not be read, and 100, no memory for what the program does.
    Command(Refusal),
    /// 90 to 93, 95 and 96: octets that are no trace.
    Trace(TraceRefusal),
    /// 114: octets that are no log, where a log is to be read; or neither a log nor a trace.
    NoLog(NoLog),
    /// 71, 77, 80 to 83, 85 and 86: no run of a gateway, or no report of one.
    Run(RunRefusal),
    /// 76 and 77: a port of a run stopped before its frames were at an end.
    Stopped { port: usize, why: OfferRefusal },
}

impl ForwardRefusal {
    ghost use Rattle.gw_run.specs.Refusals.{forward_refusal_line};

    /// The line that tells the refusal.
    pub(crate) fn line(&self) -> Line
        ensures { result ≡ forward_refusal_line self.now }
    {
        match self {
            ForwardRefusal::Command(refusal) => refusal.line(),
            ForwardRefusal::Trace(why) => trace_line(*why),
            ForwardRefusal::NoLog(_) => refused(NO_LOG, &[]),
            ForwardRefusal::Run(why) => refused(why.number(), &[]),
            ForwardRefusal::Stopped { why, .. } => refused(why.number(), &[]),
        }
    }
}

/// The line that tells why octets are no trace.
fn trace_line(why: TraceRefusal) -> Line
    ensures { result ≡ trace_line why }
{
    let number = why.number();
    match why {
        TraceRefusal::BadRecord { index, why } => {
            refused(number, &[index as u64, u64::from(why.number())])
        }
        _ => refused(number, &[]),
    }
}

impl Display for ForwardRefusal {
    fn fmt<W: fmt::Write>(&self, f: &mut Formatter<W>) -> fmt::Result {
        match self {
            ForwardRefusal::Command(refusal) => write!(f, "{refusal}"),
            ForwardRefusal::Trace(why) => write!(f, "{why}"),
            ForwardRefusal::NoLog(why) => f.write_str(no_log_words(*why)),
            ForwardRefusal::Run(why) => write!(f, "{why}"),
            ForwardRefusal::Stopped { port, why } => write!(f, "port {port} stopped: {why}"),
        }
    }
}

/// What octets are that are no log, and what to do.
fn no_log_words(why: NoLog) -> &'static str {
    match why {
        NoLog::Pcap => "the input is a pcap capture and no log of candump: leave out --interface",
        NoLog::PcapNg => {
            "the input is a pcapng capture and no log of candump: `editcap -F pcap` makes a pcap capture of it, which has no \
            interfaces"
        }
        NoLog::Gzip =>
            "the input is compressed and no log of candump: `gzip -dc FILE` gives what it holds",
    }
}

impl Error for ForwardRefusal {}

impl From<AllocError> for ForwardRefusal {
    ghost from_gives = { λ _ e. e ≡ Command OutOfMemory };

    fn from(_: AllocError) -> ForwardRefusal {
        ForwardRefusal::Command(Refusal::OutOfMemory)
    }
}

impl<T: Drop> From<AllocFailed<T>> for ForwardRefusal {
    ghost from_gives = { λ _ e. e ≡ Command OutOfMemory };

    fn from(_: AllocFailed<T>) -> ForwardRefusal {
        ForwardRefusal::Command(Refusal::OutOfMemory)
    }
}
