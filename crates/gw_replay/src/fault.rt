//! Why a line of a script is refused.

use gw_core::EventRefusal;
use gw_input::{Line, MAX_INPUT, RecordFault, refused, refused_code};
use gw_insn::ListRefusal;
use gw_ledger::BadLimit;
use gw_table::TableRefusal;
use gw_verify::Refused;
use std::fmt;
use std::fmt::{Display, Formatter};

/// Why a line of a script is refused.
#[derive(Drop)]
pub enum Fault {
    /// 98: more than 1048576 octets.
    LongLine,
    /// 98: an octet above 127.
    NoAscii,
    /// 98: an unknown word, a wrong number of words, or a number that is none.
    NoCommand,
    /// 98: another command before a `limits` was accepted.
    NoLimits,
    /// 98: a `limits` after one was accepted.
    SecondLimits,
    /// 70: limits outside their ranges.
    BadLimits,
    /// 1 to 4 and 97: a text that is no record.
    Record(RecordFault),
    /// 10 to 12: a text that is no listing.
    Listing(ListRefusal),
    /// 20 to 29: code that is not accepted.
    Program(Refused),
    /// 97: a table's text that is not an even number of hexadecimal digits.
    NoHex,
    /// 50: a table's text that is not UTF-8.
    NoUtf8,
    /// 50 to 54: a text that is no table.
    Table(TableRefusal),
    /// 60: the open batch has a policy for the port.
    SamePort(u8),
    /// 61: the open batch has sixteen policies.
    FullBatch,
    /// 72 to 76: an event that is refused.
    Event(EventRefusal),
    /// 100: the memory that a line needs was refused, which ends the replay.
    OutOfMemory,
}

impl Fault {
    ghost use Rattle.std.specs.Prelude.{◌≡◌};
    ghost use Rattle.gw_input.specs.Refused.{refused_line};
    ghost use Rattle.gw_replay.specs.Faults.{fault_number, fault_details};

    /// The number that the fault is told by.
    pub fn number(&self) -> u32
        ensures { result ≡ fault_number self.now }
    {
        match self {
            Fault::LongLine => 98,
            Fault::NoAscii => 98,
            Fault::NoCommand => 98,
            Fault::NoLimits => 98,
            Fault::SecondLimits => 98,
            Fault::BadLimits => BadLimit.number(),
            Fault::Record(why) => why.number(),
            Fault::Listing(why) => why.number(),
            Fault::Program(refused) => refused.why.number(),
            Fault::NoHex => 97,
            Fault::NoUtf8 => 50,
            Fault::Table(why) => why.number(),
            Fault::SamePort(_) => 60,
            Fault::FullBatch => 61,
            Fault::Event(why) => why.number(),
            Fault::OutOfMemory => 100,
        }
    }

    /// The line that tells the fault.
    pub fn line(&self) -> Line
        ensures { result ≡ refused_line (fault_number self.now) (fault_details self.now) }
    {
        match self {
            Fault::Listing(ListRefusal::BadField { index }) => refused(
                self.number(),
                &[*index as u64],
            ),
            Fault::Table(TableRefusal::BadRange { rule, .. }) => refused(
                self.number(),
                &[*rule as u64],
            ),
            Fault::Program(code) => refused_code(code.why, code.place),
            _ => refused(self.number(), &[]),
        }
    }
}

impl Display for Fault {
    fn fmt<W: fmt::Write>(&self, f: &mut Formatter<W>) -> fmt::Result {
        match self {
            Fault::LongLine => write!(f, "the line has more than {MAX_INPUT} octets"),
            Fault::NoAscii => f.write_str(
                "the line has an octet above 127: scripts are written in ASCII, and a table's text in hexadecimal digits",
            ),
            Fault::NoCommand => f.write_str(
                "the line is no command: commands are `limits PORTS LANE VERSIONS FRAMES`, `program PORT LISTING`, \
                 `table PORT HEX`, `publish`, `take PORT HEX`, `step PORT`, `send TO FROM` and `ledger PORT`, with \
                 one space between words, ports up to 255 and other numbers up to 4294967295",
            ),
            Fault::NoLimits => f.write_str(
                "no `limits` was accepted before: a script begins with `limits PORTS LANE VERSIONS FRAMES`",
            ),
            Fault::SecondLimits => f.write_str(
                "a `limits` was accepted before, and there is one gateway",
            ),
            Fault::BadLimits => write!(f, "{BadLimit}"),
            Fault::Record(why) => write!(f, "{why}"),
            Fault::Listing(why) => write!(f, "{why}"),
            Fault::Program(refused) => write!(f, "{refused}"),
            Fault::NoHex => f.write_str(
                "the table's text is not an even number of hexadecimal digits",
            ),
            Fault::NoUtf8 => f.write_str("the table's text is not UTF-8"),
            Fault::Table(why) => write!(f, "{why}"),
            Fault::SamePort(port) => write!(
                f,
                "the open batch has a policy for port {port}: publish it first"
            ),
            Fault::FullBatch => f.write_str(
                "the open batch has sixteen policies: publish it first",
            ),
            Fault::Event(why) => write!(f, "{why}"),
            Fault::OutOfMemory => f.write_str("memory was refused"),
        }
    }
}
