//! The line that is unfinished.

ghost use Rattle.std.specs.Prelude.{◌≡◌, ◌++◌, ◌-◌, length, take};
ghost use Rattle.gw_judge.specs.LineParts.{ends_line};

use arrayvec::ArrayVec;

/// How many octets of an unfinished line are kept: more than a line has.
pub const MAX_KEPT: usize = 65_537;

/// Keeps more of the unfinished line.
pub fn keep(kept: &mut ArrayVec<u8, MAX_KEPT>, part: &[u8])
    ensures { kept.new.items ≡ kept.old.items ++ take (65537 - length kept.old.items) part.now }
{
    let room = kept.remaining_capacity().min(part.len());
    let _fits = kept.try_extend_from_slice(&part[..room]);
}

/// Whether a line feed ends a part.
pub fn ends_line(part: &[u8]) -> bool
    ensures { result ≡ ends_line part.now }
{
    matches!(part, [.., b'\n'])
}
