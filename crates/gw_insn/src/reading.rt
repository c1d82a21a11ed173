//! Listings of instructions, read.

ghost use Rattle.std.specs.Prelude.{
  ◌≡◌,
  ℕ,
  ◌≤◌,
  ◌↔◌,
  List,
  [],
  ◌∷◌,
  ◌++◌,
  length,
  All,
  IsTrue,
  IfSome,
  IfNone,
  IfOk,
  IfErr,
  IsSomeAnd,
  MatchResult,
};
ghost use Rattle.std.specs.Char.{IsAsciiDigit, is_ascii_digit};
ghost use Rattle.std.specs.List.{prefix_len};
ghost use Rattle.gw_insn.specs.declared.insn.Raw.{Raw};
ghost use Rattle.gw_insn.specs.Listing.{
  IsWhite,
  decimal,
  StartsWithDigit,
  HasNumber,
  HasInstruction,
  HasItem,
  IsListing,
  IsListRefusal,
};

use crate::insn::Raw;
use std::alloc::Global;
use std::error::Error;
use std::fmt;
use std::fmt::{Display, Formatter};

/// Why octets are no listing.
#[derive(Clone, Copy, PartialEq, Eq, Debug)]
pub enum ListRefusal {
    /// 10: the text does not begin with a count and a comma.
    BadCount,
    /// 11: the first instruction, counted from 0, that is not there.
    BadField { index: usize },
    /// 12: something other than white space follows the instructions.
    Trailing,
    /// 13: a listing whose instructions find no memory.
    OutOfMemory,
}

impl ListRefusal {
    ghost use Rattle.gw_insn.specs.Listing.{refusal_number};

    /// The number of the refusal, 10 to 13.
    pub fn number(self) -> u32
        ensures { result ≡ refusal_number self }
    {
        match self {
            ListRefusal::BadCount => 10,
            ListRefusal::BadField { .. } => 11,
            ListRefusal::Trailing => 12,
            ListRefusal::OutOfMemory => 13,
        }
    }
}

impl Display for ListRefusal {
    fn fmt<W: fmt::Write>(&self, f: &mut Formatter<W>) -> fmt::Result {
        match self {
            ListRefusal::BadCount => f.write_str(
                "the listing does not begin with the number of its instructions, at most 65535, and a comma, \
                 as `1,6 0 0 1,` does (for `tcpdump -ddd`, make each line end a comma)",
            ),
            ListRefusal::BadField { index } => write!(
                f,
                "instruction {index}, counted from 0, is not there as `code jt jf k` and a comma, as `21 0 1 2054,` is: \
                 decimal numbers, at most 65535, 255, 255 and 4294967295, with one space between"
            ),
            ListRefusal::Trailing => f.write_str(
                "something other than white space follows the last of the instructions that the count tells",
            ),
            ListRefusal::OutOfMemory => f.write_str(
                "memory was refused for the listing's instructions",
            ),
        }
    }
}

impl Error for ListRefusal {}

/// Reads a listing: a count, a comma, and so many instructions, each of them `code jt jf k` in decimal digits with one
/// space between two of them, and a comma, which the last may lack. White space may follow, and stands nowhere else.
/// (Linux's `bpf_asm` writes listings in this form. How strictly they are read is this project's own choice.)
///
/// The first of these refusals comes: 10 without a count and its comma, 11 for the first instruction that is not there,
/// 12 for more than white space behind the last one. 13 comes only where the text is a listing: memory for as many
/// instructions as the count says is asked for once, and where it was refused the rest is judged all the same. The time
/// is linear in the text.
pub fn read_listing(alloc: Global, text: &[u8]) -> Result<Vec<Raw>, ListRefusal>
    ensures read { IfOk result (λ code. IsListing text.now code.items) }
    ensures refused { IfErr result (IsListRefusal text.now) }

    // What is a listing is one list of instructions, and is refused for want of memory alone.
    ensures only { (code : List Raw) → IsListing text.now code →
        MatchResult result (λ read. read.items ≡ code) (λ refusal. refusal ≡ ListRefusal.OutOfMemory) }
{
    let Some((count, mut rest)) = number_before(text, 65535, b',') else {
        return Err(ListRefusal::BadCount);
    };
    let count = count as usize;
    let mut code = Vec::with_capacity(alloc, count).ok();
    for index in 0..count {
        let Some((instruction, next)) = item(rest, index + 1 == count) else {
            return Err(ListRefusal::BadField { index });
        };
        if let Some(code) = &mut code {
            code.push_reserved(instruction);
        }
        rest = next;
    }
    if !is_blank(rest) {
        return Err(ListRefusal::Trailing);
    }
    code.ok_or(ListRefusal::OutOfMemory)
}

/// An instruction and its comma, which only the last may lack, and what follows them.
fn item(text: &[u8], is_last: bool) -> Option<(Raw, &[u8])>
    ensures found { IfSome result (λ found. HasItem is_last text.now found.0 found.1.now) }
    ensures none { IfNone result ((r : Raw) (rest : List ℕ) → HasItem is_last text.now r rest → ⊥) }
{
    let (raw, rest) = instruction(text)?;
    match after_mark(rest, b',') {
        Some(rest) => Some((raw, rest)),
        None if is_last => Some((raw, rest)),
        None => None,
    }
}

/// An instruction and what follows it.
fn instruction(text: &[u8]) -> Option<(Raw, &[u8])>
    ensures found { IfSome result (λ found. HasInstruction text.now found.0 found.1.now) }
    ensures none { IfNone result ((r : Raw) (rest : List ℕ) → HasInstruction text.now r rest → ⊥) }
{
    let (code, rest) = number_before(text, 65535, b' ')?;
    let (jt, rest) = number_before(rest, 255, b' ')?;
    let (jf, rest) = number_before(rest, 255, b' ')?;
    let (k, rest) = number(rest, u32::MAX)?;
    let raw = Raw {
        code: code as u16,
        jt: jt as u8,
        jf: jf as u8,
        k,
    };
    Some((raw, rest))
}

/// A number that is at most `most` and stands before a mark, and what follows the mark.
fn number_before(text: &[u8], most: u32, mark: u8) -> Option<(u32, &[u8])>
    ensures found { IfSome result (λ found. HasNumber most text.now found.0 (mark ∷ found.1.now)) }
    ensures none { IfNone result ((n : ℕ) (rest : List ℕ) → HasNumber most text.now n (mark ∷ rest) → ⊥) }
{
    let (n, rest) = number(text, most)?;
    Some((n, after_mark(rest, mark)?))
}

/// A number that is at most `most`, and what follows it.
fn number(text: &[u8], most: u32) -> Option<(u32, &[u8])>
    ensures found { IfSome result (λ found. HasNumber most text.now found.0 found.1.now) }
    ensures none { IfNone result ((n : ℕ) (rest : List ℕ) → HasNumber most text.now n rest → ⊥) }
{
    let (digits, rest) = split_digits(text);
    if digits.is_empty() || digits.len() > 10 {
        return None;
    }
    let n = decimal_value(digits);
    if n > u64::from(most) {
        return None;
    }
    Some((n as u32, rest))
}

/// The digits at the front, and what follows them.
fn split_digits(text: &[u8]) -> (&[u8], &[u8])
    ensures whole { text.now ≡ result.0.now ++ result.1.now }
    ensures digits { All IsAsciiDigit result.0.now }
    ensures ends { StartsWithDigit result.1.now → ⊥ }
{
    let len = digits_len(text);
    text.split_at(len)
}

/// How many digits there are at the front.
fn digits_len(text: &[u8]) -> usize
    ensures { result ≡ prefix_len is_ascii_digit text.now }
{
    text.iter()
        .take_while(|octet| octet.is_ascii_digit())
        .count()
}

/// The number that at most ten ASCII digits spell: 0 where there are none.
#[tactic(auto, using(crate::proofs::Numbers::decimal_small))]
pub fn decimal_value(digits: &[u8]) -> u64
    requires few { length digits.now ≤ 10 }
    requires ascii { All IsAsciiDigit digits.now }
    ensures { result ≡ decimal digits.now }
{
    let mut n = 0;
    for digit in digits {
        n = 10 * n + u64::from(digit - b'0');
    }
    n
}

/// What follows the mark that the text begins with.
fn after_mark(text: &[u8], mark: u8) -> Option<&[u8]>
    ensures found { IfSome result (λ rest. text.now ≡ mark ∷ rest.now) }
    ensures none { IfNone result ((rest : List ℕ) → text.now ≡ mark ∷ rest → ⊥) }
{
    match text {
        [first, rest @ ..] if *first == mark => Some(rest),
        _ => None,
    }
}

/// Whether there is only white space.
fn is_blank(text: &[u8]) -> bool
    ensures { IsTrue result ↔ All IsWhite text.now }
{
    text.iter().all(|octet| is_white(*octet))
}

/// Whether an octet is a space, a tab, a line feed or a carriage return.
fn is_white(octet: u8) -> bool
    ensures { IsTrue result ↔ IsWhite octet }
{
    matches!(octet, b' ' | b'\t' | b'\n' | b'\r')
}
