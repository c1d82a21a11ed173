//! The command `claims`: who holds which address of a segment, from the records heard on it.

ghost use Rattle.std.specs.Prelude.{◌≡◌, ◌++◌, ◌∷◌, [], ℕ, List, reverse, true, false, IfOk, IfErr, OnOk, string_bytes};
ghost use Rattle.std.specs.List.{list_any};
ghost use Rattle.gw_claims.specs.Holders.{HoldsAfter};
ghost use Rattle.gw_input.specs.Lines.{lines_of};
ghost use Rattle.gw_input.specs.Records.{IsRecordFault};
ghost use Rattle.gw_commands.specs.ClaimLines.{
  AnswersClaims,
  RefusesClaims,
  IsFirstBad,
  records_on,
  heard_on,
  is_bad,
  holder_line,
  holder_lines,
};

use gw_answers::{Answer, Refusal, note_uncounted};
use gw_claims::Claims;
use gw_ident::Name;
use gw_input::{RecordFault, first_line, record};
use gw_io::Tried;
use std::alloc::{AllocError, Global};
use std::io::Write;

/// A line that is to name a record and does not, counted from 1.
#[derive(Drop)]
struct BadLine {
    number: usize,
    fault: RecordFault,
}

/// The lines of the holders after the records of an input.
pub fn claims<F: Write>(
    alloc: Global,
    input: &[u8],
    faults: &mut Tried<F>,
) -> Result<Answer, Refusal>
    ensures answered { IfOk result (AnswersClaims input.now) }
    ensures refused { IfErr result (RefusesClaims input.now) }
{
    let claims = match heard(input, faults) {
        Ok(claims) => claims,
        Err(BadLine { number, fault }) => {
            return Err(Refusal::RecordOnLine {
                line: number,
                fault,
            });
        }
    };
    match holders(alloc, &claims) {
        Ok(lines) => Ok(Answer::Text(lines.into_bytes())),
        Err(AllocError) => Err(Refusal::OutOfMemory),
    }
}

/// The claims after the records of an input, one in hexadecimal digits a line. Lines are counted from 1, and empty
/// ones are skipped.
fn heard<F: Write>(input: &[u8], faults: &mut Tried<F>) -> Result<Claims, BadLine>
    ensures heard { IfOk result (λ claims. HoldsAfter claims (reverse (records_on (lines_of input.now)))) }
    ensures good { OnOk result (list_any is_bad (lines_of input.now) ≡ false) }
    ensures refused { IfErr result (λ bad. IsFirstBad input.now bad.number bad.fault) }
{
    let mut claims = Claims::new();
    let mut rest = Some(input);
    let mut number = 0;
    while let Some(text) = rest {
        let (line, behind) = first_line(text);
        rest = behind;
        number += 1;
        match hear_line(&mut claims, line, number, faults) {
            Ok(()) => {}
            Err(fault) => return Err(BadLine { number, fault }),
        }
    }
    Ok(claims)
}

/// Hears the record of a line, unless the line is empty.
fn hear_line<F: Write>(
    claims: &mut Claims,
    line: &[u8],
    number: usize,
    faults: &mut Tried<F>,
) -> Result<(), RecordFault>
    ensures heard { (records : List (List ℕ)) → HoldsAfter claims.old records
        → OnOk result (HoldsAfter claims.new (heard_on line.now records)) }
    ensures good { OnOk result (is_bad line.now ≡ false) }
    ensures refused { IfErr result (λ fault. (is_bad line.now ≡ true) × IsRecordFault line.now fault) }
{
    if line.is_empty() {
        return Ok(());
    }
    let frame = record(line)?;
    note_uncounted(&frame, number, faults);
    claims.hear(&frame);
    Ok(())
}

/// A line for each address that is held, in ascending order: the address, and the NAME in 16 hexadecimal digits.
fn holders(alloc: Global, claims: &Claims) -> Result<String, AllocError>
    ensures { IfOk result (λ lines. string_bytes lines ≡ holder_lines claims.now) }
{
    let mut text = String::new(alloc);
    for address in 0..254u8 {
        if let Some(name) = claims.holder(address) {
            push_holder(&mut text, address, name)?;
        }
    }
    Ok(text)
}

/// The line of an address and the NAME that holds it.
pub(crate) fn push_holder(text: &mut String, address: u8, name: Name) -> Result<(), AllocError>
    ensures { OnOk result (string_bytes text.new ≡ string_bytes text.old ++ holder_line address name) }
{
    let value = name.value();
    write!(text, "{address} {value:016x}\n")
}
