//! Programs and policies of listings.

ghost use Rattle.std.specs.Prelude.{IfOk, IfErr};
ghost use Rattle.gw_input.specs.Programs.{NamesProgram, IsProgramFault, IsProgramPolicy};

use gw_insn::{ListRefusal, read_listing};
use gw_policy::Policy;
use gw_verify::{Program, Refused};
use std::alloc::Global;
use std::error::Error;
use std::fmt;
use std::fmt::{Display, Formatter};

/// Why a listing gives no program.
#[derive(Drop, Debug)]
pub enum ProgramFault {
    /// 10 to 13: a text that is no listing.
    Listing(ListRefusal),
    /// 20 to 30: code that is not accepted. The fault has it.
    Code(Refused),
}

impl ProgramFault {
    ghost use Rattle.std.specs.Prelude.{◌≡◌};
    ghost use Rattle.gw_input.specs.Programs.{program_number};

    /// The number that the refusal is told by.
    pub fn number(&self) -> u32
        ensures { result ≡ program_number self.now }
    {
        match self {
            ProgramFault::Listing(why) => why.number(),
            ProgramFault::Code(refused) => refused.why.number(),
        }
    }
}

impl Display for ProgramFault {
    fn fmt<W: fmt::Write>(&self, f: &mut Formatter<W>) -> fmt::Result {
        match self {
            ProgramFault::Listing(why) => write!(f, "{why}"),
            ProgramFault::Code(refused) => write!(f, "{refused}"),
        }
    }
}

impl Error for ProgramFault {}

/// Reads the program of a listing, if its code is accepted.
pub fn program(alloc: Global, listing: &[u8]) -> Result<Program, ProgramFault>
    ensures named { IfOk result (NamesProgram listing.now) }
    ensures refused { IfErr result (IsProgramFault listing.now) }
{
    let code = read_listing(alloc, listing).map_err(ProgramFault::Listing)?;
    Program::check(alloc, code).map_err(ProgramFault::Code)
}

/// Reads the program of a listing as a policy.
pub fn program_policy(alloc: Global, listing: &[u8]) -> Result<Policy, ProgramFault>
    ensures policy { IfOk result (IsProgramPolicy listing.now) }
    ensures refused { IfErr result (IsProgramFault listing.now) }
{
    Ok(Policy::from_program(program(alloc, listing)?))
}
