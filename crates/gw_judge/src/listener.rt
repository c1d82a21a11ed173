//! What hears the frames of a log.

ghost use Rattle.std.specs.Prelude.{◌≡◌, ◌++◌, ◌∷◌, [], List, OnOk};
ghost use Rattle.gw_log.specs.LogLines.{Entry};
ghost use Rattle.gw_judge.specs.declared.listener.ListenFault.TheVariants as listening;

use gw_io::ReadFault;
use gw_log::LogLine;
use std::alloc::{AllocError, Global};
use std::error::Error;
use std::fmt;
use std::fmt::{Display, Formatter};

/// What hears the frames of a log, one after another.
pub trait Listener {
    /// These entries were heard, in this order.
    ghost has_heard: { Self → List Entry → Type 0 };

    /// Hears what one more line says. It fails only where memory was wanting, which ends the hearing.
    fn hear(&mut self, alloc: Global, said: &LogLine) -> Result<(), AllocError>
        ensures { (entries : List Entry) → has_heard self.old entries
            → OnOk result (has_heard self.new (entries ++ said.now ∷ [])) };
}

/// Why a log was not heard to its end.
#[derive(Clone, Copy, PartialEq, Eq, Debug)]
pub enum ListenFault {
    /// 96: a read failed, or a log has more than 18446744073709551615 octets.
    ReadFault,
    /// 100: the memory that a line needs was refused.
    OutOfMemory,
}

impl ListenFault {
    ghost use Rattle.gw_judge.specs.Heard.{listen_number};

    /// The number of the fault: 96 or 100.
    pub fn number(self) -> u32
        ensures { result ≡ listen_number self }
    {
        match self {
            ListenFault::ReadFault => 96,
            ListenFault::OutOfMemory => 100,
        }
    }
}

impl Display for ListenFault {
    fn fmt<W: fmt::Write>(&self, f: &mut Formatter<W>) -> fmt::Result {
        f.write_str(match self {
            ListenFault::ReadFault => "the log could not be read to its end",
            ListenFault::OutOfMemory => "memory was refused",
        })
    }
}

impl Error for ListenFault {}

impl From<ReadFault> for ListenFault {
    ghost from_gives = { λ _ fault. fault ≡ listening.ReadFault };

    fn from(_: ReadFault) -> ListenFault {
        ListenFault::ReadFault
    }
}
