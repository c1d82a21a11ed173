//! Why code is refused.

ghost use Rattle.std.specs.Prelude.{◌≡◌};

/// What is wrong with refused code. The checks are Linux's checks of classic programs (net/core/filter.c), in
/// this project's profile. They come in this order: 20, 21, then the least place with one of 22 to 27, then
/// 28, then the least place with 29, then 30.
#[derive(Clone, Copy, PartialEq, Eq, Debug)]
pub enum Cause {
    /// 20: there is no instruction. The place is 0.
    Empty,
    /// 21: there are more than 4096 instructions. The place is 4096.
    TooLong,
    /// 22: the code is none of the 49.
    UnknownCode,
    /// 23: `div #0` or `mod #0`.
    DivideByZero,
    /// 24: `lsh` or `rsh` by a constant of 32 or more.
    ShiftTooFar,
    /// 25: a scratch word that is not below 16.
    NoSuchWord,
    /// 26: a jump to a place outside the code.
    JumpOut,
    /// 27: an absolute load at an offset of 0xfffff000 or more, other than `ld ifidx`.
    Ancillary,
    /// 28: the last instruction is no return.
    NoReturnAtEnd,
    /// 29: a load of a scratch word that some path to it leaves unset.
    UnsetWord {
        /// The number of the word, below 16.
        word: u32,
    },
    /// 30: code that is accepted otherwise, but its decoded instructions find no memory. The place is 0.
    OutOfMemory,
}

impl Cause {
    ghost use Rattle.gw_verify.specs.Cause.{cause_number};

    /// The number of the refusal, 20 to 30.
    pub fn number(self) -> u32
        ensures { result ≡ cause_number self }
    {
        match self {
            Cause::Empty => 20,
            Cause::TooLong => 21,
            Cause::UnknownCode => 22,
            Cause::DivideByZero => 23,
            Cause::ShiftTooFar => 24,
            Cause::NoSuchWord => 25,
            Cause::JumpOut => 26,
            Cause::Ancillary => 27,
            Cause::NoReturnAtEnd => 28,
            Cause::UnsetWord { .. } => 29,
            Cause::OutOfMemory => 30,
        }
    }
}
