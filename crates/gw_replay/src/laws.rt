//! What holds of every script.

ghost use Rattle.std.specs.Prelude.{◌≡◌, ◌++◌, ℕ, Bool, List};
ghost use Rattle.gw_replay.specs.Scripts.{IsAnswer, BeginsAnswer};

use gw_verify::one_refusal;

/// Every script has a text of answers, whatever its octets, and a line of it is refused or none is.
pub fn scripts_are_answered()
    ensures { (script : List ℕ) → (text : List ℕ) × (refused : Bool) × IsAnswer script text refused }
{}

/// A script has one text of answers at most, and not both a line that is refused and none. The answers to its first lines are
/// the beginning of that text.
pub fn scripts_have_one_answer()
    ensures only { (script text other : List ℕ) (one two : Bool) → IsAnswer script text one → IsAnswer script other two
        → (text ≡ other) × (one ≡ two) }
    ensures begins { (script text whole : List ℕ) (refused : Bool) → BeginsAnswer script text → IsAnswer script whole refused
        → (rest : List ℕ) × (whole ≡ text ++ rest) }
{
    // A program's refusal is one: its first cause, with its place.
    one_refusal();
}
