//! Where the rules of a table stand in its text.

ghost use Rattle.std.specs.Prelude.{◌≡◌, ◌≤◌, ◌++◌, not, length, slice_get, IfOk, OnOk};
ghost use Rattle.std.specs.List.{position_or_len};
ghost use Rattle.gw_input.specs.RuleLines.{begins_rule, behind_blanks, is_blank, rule_lines, rule_number};

use crate::lines::first_line;
use std::alloc::{AllocError, Global};

/// The numbers of the lines that begin a rule, `[[rule]]`, in ascending order. Lines count from 1. A rule in an inline array, or
/// behind a key that is written otherwise, has no such line.
pub fn rule_lines(alloc: Global, text: &[u8]) -> Result<Vec<usize>, AllocError>
    ensures { IfOk result (λ lines. lines.items ≡ rule_lines text.now) }
{
    let mut lines = Vec::new(alloc);
    let (mut rest, mut number) = (Some(text), 0);
    while let Some(left) = rest {
        let (line, behind) = first_line(left);
        (rest, number) = (behind, number + 1);
        push_rule(&mut lines, line, number)?;
    }
    Ok(lines)
}

/// The line at which a rule stands, where it is known. `lines` are those of the rules, in their order.
pub fn line_of_rule(lines: &[usize], number: usize) -> Option<usize>
    ensures { result ≡ slice_get lines.now number }
{
    lines.get(number).copied()
}

/// Appends the number of a line that begins a rule.
fn push_rule(lines: &mut Vec<usize>, line: &[u8], number: usize) -> Result<(), AllocError>
    ensures { OnOk result (lines.new.items ≡ lines.old.items ++ rule_number line.now number) }
{
    if begins_rule(line) {
        lines.push(number)?;
    }
    Ok(())
}

/// Whether a line begins a rule.
pub(crate) fn begins_rule(line: &[u8]) -> bool
    ensures { result ≡ begins_rule line.now }
{
    behind_blanks(line).starts_with(b"[[rule]]")
}

/// What stands behind blanks.
pub(crate) fn behind_blanks(line: &[u8]) -> &[u8]
    ensures { result.now ≡ behind_blanks line.now }
{
    &line[indent(line)..]
}

/// How many spaces and tabs a line begins with.
pub(crate) fn indent(line: &[u8]) -> usize
    ensures blanks { result ≡ position_or_len (λ c. not (is_blank c)) line.now }
    ensures bound { result ≤ length line.now }
{
    for (i, c) in line.iter().enumerate() {
        if *c != b' ' && *c != b'\t' {
            return i;
        }
    }
    line.len()
}
