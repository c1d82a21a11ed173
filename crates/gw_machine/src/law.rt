//! What holds of every run.

ghost use Rattle.std.specs.Prelude.{◌≡◌, ℕ, ◌<◌, ◌≤◌, ◌↔◌, List, length};
ghost use Rattle.gw_insn.specs.declared.insn.Insn.{Insn};
ghost use Rattle.gw_verify.specs.Flow.{program_forms};
ghost use Rattle.gw_verify.specs.Accepted.{IsAccepted};
ghost use Rattle.gw_machine.specs.Machine.{Machine};
ghost use Rattle.gw_machine.specs.Runs.{IsRunning, LoadsAreStored, NoLoadIsBare, Reaches, Returns};
ghost use Rattle.gw_machine.specs.Answers.{answer_of, steps_of};

use gw_verify::accepted_is_orderly;

/// On every record and port, a running machine has each scratch word that it loads, whatever the code, if no load of it
/// is bare. So it is of accepted code, in which it also stands at an instruction.
pub fn soundness()
    ensures loads { (code : List Insn) (octets : List ℕ) (port : ℕ) → NoLoadIsBare (program_forms code)
        → LoadsAreStored code octets port }
    ensures accepted_loads { (code : List Insn) (octets : List ℕ) (port : ℕ) → IsAccepted (program_forms code)
        → LoadsAreStored code octets port }
    ensures accepted_places { (code : List Insn) (octets : List ℕ) (port : ℕ) → IsAccepted (program_forms code)
        → (m : Machine) → IsRunning code octets port m → m.place < length code }
{
    accepted_is_orderly();
}

/// On every record and port, accepted code has one answer and one number of steps, and a machine is running after each
/// smaller number of steps alone.
pub fn one_answer()
    ensures returns { (code : List Insn) (octets : List ℕ) (port answer n : ℕ) → IsAccepted (program_forms code)
        → Returns code octets port answer n ↔ ((answer ≡ answer_of code octets port) × (n ≡ steps_of code octets port)) }
    ensures steps { (code : List Insn) (octets : List ℕ) (port : ℕ) → IsAccepted (program_forms code)
        → (1 ≤ steps_of code octets port) × (steps_of code octets port ≤ length code) }
    ensures running { (code : List Insn) (octets : List ℕ) (port : ℕ) (m : Machine) (n : ℕ) → IsAccepted (program_forms code)
        → Reaches code octets port n m → n < steps_of code octets port }
{
    accepted_is_orderly();
}
