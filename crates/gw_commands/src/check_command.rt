//! The command `check`: whether a listing's program is accepted.

ghost use Rattle.std.specs.Prelude.{◌≡◌, ◌++◌, ℕ, List, Some, None, IfOk, IfErr, string_bytes};
ghost use Rattle.gw_answers.specs.Texts.{IsProgramRefusal};
ghost use Rattle.gw_answers.specs.declared.refusal.Refusal.TheVariants.{Program};
ghost use Rattle.gw_commands.specs.Checks.{AnswersCheck, RefusesCheck, explained_lines, path_line};

use gw_answers::{Answer, Refusal, program};
use gw_input::refused_code;
use gw_verify::{Cause, Path, Refused};
use std::alloc::{AllocError, Global};

/// How many instructions the accepted program of a listing has. A refusal for an unset word has the line of a path to its read.
pub fn check(alloc: Global, listing: &[u8]) -> Result<Answer, Refusal>
    ensures answered { IfOk result (AnswersCheck listing.now) }
    ensures refused { IfErr result (RefusesCheck listing.now) }
{
    match program(alloc, listing) {
        Ok(program) => Ok(Answer::Accepted(program.len())),
        Err(refusal) => Err(explained(alloc, refusal)),
    }
}

/// The refusal, where it is that of code with the lines that explain it.
fn explained(alloc: Global, refusal: Refusal) -> Refusal
    ensures { (listing : List ℕ) → IsProgramRefusal listing refusal → RefusesCheck listing result }
{
    match refusal {
        Refusal::Program { refused, path } => match path {
            Some(path) => with_lines(alloc, refused, path),
            None => without_path(refused),
        },
        refusal => refusal,
    }
}

/// The refusal of code that a path explains; want of memory where there is none for the lines.
fn with_lines(alloc: Global, refused: Refused, path: Path) -> Refusal
    ensures { (listing : List ℕ) → IsProgramRefusal listing (Program refused (Some path)) → RefusesCheck listing result }
{
    match lines(alloc, &refused, &path.places) {
        Ok(lines) => Refusal::Explained {
            refused,
            path,
            lines,
        },
        Err(AllocError) => Refusal::OutOfMemory,
    }
}

/// The refusal of code that no path explains; want of memory where a word is unset, since that has a path.
fn without_path(refused: Refused) -> Refusal
    ensures { (listing : List ℕ) → IsProgramRefusal listing (Program refused None) → RefusesCheck listing result }
{
    match refused.why {
        Cause::UnsetWord { .. } => Refusal::OutOfMemory,
        _ => Refusal::Program {
            refused,
            path: None,
        },
    }
}

/// The lines of a path and of the refusal that it explains.
fn lines(alloc: Global, refused: &Refused, places: &[u32]) -> Result<Vec<u8>, AllocError>
    ensures { IfOk result (λ lines. lines.items ≡ explained_lines refused.now places.now) }
{
    let mut lines = path_line(alloc, places)?.into_bytes();
    lines.extend_from_slice(refused_code(refused.why, refused.place).as_bytes())?;
    Ok(lines)
}

/// The word `path` and the places.
fn path_line(alloc: Global, places: &[u32]) -> Result<String, AllocError>
    ensures { IfOk result (λ line. string_bytes line ≡ path_line places.now) }
{
    let mut line = String::from_str(alloc, "path")?;
    for place in places {
        write!(line, " {place}")?;
    }
    line.push_str("\n")?;
    Ok(line)
}
