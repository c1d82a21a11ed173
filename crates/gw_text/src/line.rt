//! A line of the text: its labels and its instruction.

ghost use Rattle.std.specs.Prelude.{◌≡◌, ◌≢◌, ◌++◌, ◌∷◌, Some, None, map, length, option_map, IfOk, IfErr, OnOk};
ghost use Rattle.gw_text.specs.declared.refusal.AsmRefusal.{AsmRefusal as Refusal};
ghost use Rattle.gw_text.specs.AssemblerForms.{k_at, k_of, label_at, labels_at};
ghost use Rattle.gw_text.specs.FormViews.{piece_view};
ghost use Rattle.gw_text.specs.Assembly.{
  Line,
  after_labels,
  instruction_fault,
  labels_on,
  line_fault,
  line_labels,
  starts_with_label,
  written_as,
  written_on,
};
ghost use Rattle.gw_text.specs.Sources.{instruction_view};

use crate::forms::{Form, Jump, Piece, form_in, forms_of};
use crate::numbers::value;
use crate::refusal::AsmRefusal;
use crate::tokens::{are_tokens, is_word, split};
use std::alloc::{AllocError, Global};

/// An instruction as it is written.
#[derive(Drop)]
pub struct Instruction<'a> {
    pub line: usize,
    pub code: u16,
    pub jump: Jump,
    pub k: u32,
    /// The labels that a jump names, in order.
    pub targets: Vec<&'a [u8]>,
}

/// What stands on a line.
#[derive(Drop)]
pub struct ParsedLine<'a> {
    pub labels: Vec<&'a [u8]>,
    pub instruction: Option<Instruction<'a>>,
}

/// Reads the line of a number, without its comments. Refusals: 40 to 43, in this order, and 49.
pub fn parse<'a>(alloc: Global, number: usize, text: &'a [u8]) -> Result<ParsedLine<'a>, AsmRefusal>
    ensures faultless { OnOk result (line_fault (record { number = number; text = text.now }) ≡ None) }
    ensures labels { IfOk result (λ line. map (λ t. t.now) line.labels.items
        ≡ labels_on (record { number = number; text = text.now })) }
    ensures instruction { IfOk result (λ line.
        option_map instruction_view line.instruction ≡ written_on (record { number = number; text = text.now })) }
    ensures refused { IfErr result (λ e. e ≢ Refusal.OutOfMemory → line_fault (record { number = number; text = text.now })
        ≡ Some e) }
{
    if !are_tokens(text) {
        return Err(AsmRefusal::BadToken { line: number });
    }
    let tokens = split(alloc, text)?;
    let mut labels = Vec::new(alloc);
    let rest = take_labels(&mut labels, &tokens)?;
    let instruction = parse_instruction(alloc, number, rest)?;
    Ok(ParsedLine {
        labels,
        instruction,
    })
}

/// Puts the labels at the front of a line into the list, and gives the tokens behind them.
fn take_labels<'a, 't>(
    labels: &mut Vec<&'a [u8]>,
    tokens: &'t [&'a [u8]],
) -> Result<&'t [&'a [u8]], AllocError>
    ensures labels { OnOk result (map (λ t. t.now) labels.new.items
        ≡ map (λ t. t.now) labels.old.items ++ line_labels (map (λ t. t.now) tokens.now)) }
    ensures rest { IfOk result (λ rest. map (λ t. t.now) rest.now ≡ after_labels (map (λ t. t.now) tokens.now)) }
{
    let mut rest = tokens;
    while begins_with_label(rest) {
        labels.push(rest[0])?;
        rest = &rest[2..];
    }
    Ok(rest)
}

/// Whether tokens begin with a word and `:`.
fn begins_with_label(tokens: &[&[u8]]) -> bool
    ensures { result ≡ starts_with_label (map (λ t. t.now) tokens.now) }
{
    tokens.len() > 1 && is_word(tokens[0]) && tokens[1] == b":".as_slice()
}

/// The instruction of a line behind its labels.
fn parse_instruction<'a>(
    alloc: Global,
    line: usize,
    tokens: &[&'a [u8]],
) -> Result<Option<Instruction<'a>>, AsmRefusal>
    ensures faultless { OnOk result (instruction_fault line (map (λ t. t.now) tokens.now) ≡ None) }
    ensures written { IfOk result (λ i. option_map instruction_view i ≡ written_as line (map (λ t. t.now) tokens.now)) }
    ensures refused { IfErr result (λ e. e ≢ Refusal.OutOfMemory
        → instruction_fault line (map (λ t. t.now) tokens.now) ≡ Some e) }
{
    match tokens {
        [] => Ok(None),
        [word, operands @ ..] => parse_operands(alloc, line, word, operands),
    }
}

/// The instruction of a word with operands.
fn parse_operands<'a>(
    alloc: Global,
    line: usize,
    word: &[u8],
    operands: &[&'a [u8]],
) -> Result<Option<Instruction<'a>>, AsmRefusal>
    ensures faultless { OnOk result (instruction_fault line (word.now ∷ map (λ t. t.now) operands.now) ≡ None) }
    ensures written { IfOk result (λ i. option_map instruction_view i
        ≡ written_as line (word.now ∷ map (λ t. t.now) operands.now)) }
    ensures refused { IfErr result (λ e. e ≢ Refusal.OutOfMemory →
        instruction_fault line (word.now ∷ map (λ t. t.now) operands.now) ≡ Some e) }
{
    let Some(forms) = forms_of(word) else {
        return Err(AsmRefusal::UnknownWord { line });
    };
    let Some(form) = form_in(forms, operands) else {
        return Err(AsmRefusal::BadOperand { line });
    };
    let Some(k) = field(form.pieces, operands, form.constant) else {
        return Err(AsmRefusal::BadNumber { line });
    };
    let targets = targets(alloc, form.pieces, operands)?;
    Ok(Some(Instruction {
        line,
        code: form.code,
        jump: form.jump,
        k,
        targets,
    }))
}

/// The field `k` of operands that fit the pieces, or None where a number is malformed or out of range.
fn field(pieces: &[Piece], operands: &[&[u8]], constant: u32) -> Option<u32>
    requires as_many { length pieces.now ≡ length operands.now }
    ensures { result ≡ k_of (map piece_view pieces.now) (map (λ t. t.now) operands.now) constant }
{
    let mut k = constant;
    for (at, piece) in pieces.iter().enumerate() {
        match field_at(*piece, operands[at], k) {
            Some(next) => k = next,
            None => return None,
        }
    }
    Some(k)
}

/// The field `k` as far as one piece tells.
fn field_at(piece: Piece, token: &[u8], k: u32) -> Option<u32>
    ensures { result ≡ k_at (piece_view piece) token.now k }
{
    match piece {
        Piece::Number => value(token),
        Piece::Negated => match value(token) {
            Some(n) if n >= 1 && n <= 0x8000_0000 => Some(n.wrapping_neg()),
            _ => None,
        },
        Piece::Only(wanted) => match value(token) {
            Some(n) if n == wanted => Some(k),
            _ => None,
        },
        Piece::Spelled(_) | Piece::Label => Some(k),
    }
}

/// The labels among operands.
fn targets<'a>(
    alloc: Global,
    pieces: &[Piece],
    operands: &[&'a [u8]],
) -> Result<Vec<&'a [u8]>, AllocError>
    requires as_many { length pieces.now ≡ length operands.now }
    ensures { IfOk result (λ found. map (λ t. t.now) found.items
        ≡ labels_at (map piece_view pieces.now) (map (λ t. t.now) operands.now)) }
{
    let mut found = Vec::new(alloc);
    for (at, piece) in pieces.iter().enumerate() {
        add_label(&mut found, *piece, operands[at])?;
    }
    Ok(found)
}

/// Adds a token that stands at a label's piece.
fn add_label<'a>(found: &mut Vec<&'a [u8]>, piece: Piece, token: &'a [u8]) -> Result<(), AllocError>
    ensures { OnOk result (map (λ t. t.now) found.new.items
        ≡ map (λ t. t.now) found.old.items ++ label_at (piece_view piece) token.now) }
{
    if let Piece::Label = piece {
        found.push(token)?;
    }
    Ok(())
}
