//! Code that is refused.

ghost use Rattle.gw_verify.specs.Flow.{forms_of};
ghost use Rattle.gw_verify.specs.Accepted.{IsRefusal};

use crate::cause::Cause;
use crate::path::{Path, explain};
use gw_insn::{MAX_INSNS, Raw};
use std::alloc::{AllocError, Global};
use std::error::Error;
use std::fmt;
use std::fmt::{Display, Formatter};

/// A refusal, with the code that it hands back. The type keeps that the refusal is the code's.
#[derive(Drop, Debug)]
pub struct Refused {
    /// What is wrong.
    pub why: Cause,
    /// Where it is wrong: the place of an instruction, counted from 0, or what the cause says.
    pub place: usize,
    /// The code, as it was handed in.
    pub code: Vec<Raw>,
    ghost of_the_code: { ∥ IsRefusal (forms_of code.items) why place ∥₁ },
}

impl Refused {
    ghost use Rattle.std.specs.Prelude.{IfOk};
    ghost use Rattle.gw_verify.specs.Explanation.{IsExplanation};

    /// For a load of an unset word (29) a path to it that leaves the word unset, and `None` for the other causes.
    pub fn explain(&self, alloc: Global) -> Result<Option<Path>, AllocError>
        ensures { IfOk result (IsExplanation self.now.why (forms_of self.now.code.items) self.now.place) }
    {
        match self.why {
            Cause::UnsetWord { word } => explain(alloc, &self.code, self.place, word),
            _ => Ok(None),
        }
    }
}

impl Display for Refused {
    fn fmt<W: fmt::Write>(&self, f: &mut Formatter<W>) -> fmt::Result {
        let place = self.place;
        let len = self.code.len();
        // What stands before and behind the number of a cause. One `write!` serves them all, since the prover pays for each.
        let (before, number, behind) = match self.why {
            Cause::Empty => {
                return f.write_str("the code has no instructions, and at least a return is needed");
            }
            Cause::TooLong => {
                return write!(
                    f,
                    "the code has {len} instructions, and at most {MAX_INSNS} are accepted"
                );
            }
            Cause::UnknownCode => {
                let code = u64::from(self.code[place].code);
                (
                    " has the code ",
                    code,
                    ", which is none of the 49 of classic BPF",
                )
            }
            Cause::DivideByZero => (" divides by the constant ", 0, ""),
            Cause::ShiftTooFar => {
                let k = u64::from(self.code[place].k);
                (" shifts by ", k, ", and at most 31 is meant")
            }
            Cause::NoSuchWord => {
                let k = u64::from(self.code[place].k);
                (" names M[", k, "], and the words are M[0] to M[15]")
            }
            Cause::JumpOut => (
                " jumps out of the code, which has ",
                len as u64,
                " instructions",
            ),
            Cause::Ancillary => {
                let k = u64::from(self.code[place].k);
                let behind = ", an extension of Linux that is not `ld ifidx` (`32 0 0 4294963208`)";
                (" loads from ", k, behind)
            }
            Cause::NoReturnAtEnd => {
                return write!(
                    f,
                    "instruction {place}, the last, is no return, as `6 0 0 1` is"
                );
            }
            Cause::UnsetWord { word } => {
                let word = u64::from(word);
                (" loads M[", word, "], which a path to it leaves unset")
            }
            Cause::OutOfMemory => return f.write_str("memory was refused for the program"),
        };
        write!(f, "instruction {place}{before}{number}{behind}")
    }
}

impl Error for Refused {}
