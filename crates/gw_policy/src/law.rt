//! What holds of every policy.

ghost use Rattle.std.specs.Prelude.{◌≡◌, ℕ, ◌<◌, ◌≤◌, ◌==◌, not, List, length};
ghost use Rattle.gw_frame.specs.Record.{IsRecord};
ghost use Rattle.gw_machine.specs.Runs.{Returns};
ghost use Rattle.gw_policy.specs.Filter.{Filter, IsFilter, filter_passes, filter_steps};

use gw_machine::one_answer;

/// On every record and ingress port, a policy passes what its program returns an answer other than 0 on, a table's too,
/// in its number of steps, which is at most the program's length.
pub fn policies_return()
    ensures { (filter : Filter) (octets : List ℕ) (port answer n : ℕ) → IsFilter filter → IsRecord octets → port < 256
        → Returns filter.code octets port answer n
        → (filter_passes filter octets port ≡ not (answer == 0)) × (n ≡ filter_steps filter octets port)
        × (n ≤ length filter.code) }
{
    one_answer();
}
