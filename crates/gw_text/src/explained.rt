//! A refusal with the word, label or number that it is about.

use crate::numbers::value;
use crate::parts::{Kind, Part, Parts};
use crate::refusal::AsmRefusal;
use crate::tokens::{is_number, is_token, is_word};
use std::fmt;
use std::fmt::{Display, Formatter};

/// The words of the language, as they stand in the table.
const WORDS: &str =
    "ld ldi ldh ldb ldx ldxi ldxb st stx jmp ja jeq jgt jge jset jneq jne jlt jle add sub mul div mod and or xor lsh \
    rsh neg tax txa ret";

/// A refusal of a text, with the word, label or number that it is about and how it is written right: `line 3: label "drop" is
/// defined on line 1 already`. It takes no memory: what it names is looked for in the text again.
#[derive(Clone, Copy)]
pub struct Explained<'a> {
    pub text: &'a str,
    pub refusal: AsmRefusal,
}

impl Display for Explained<'_> {
    fn fmt<W: fmt::Write>(&self, f: &mut Formatter<W>) -> fmt::Result {
        match tell(f, self.text.as_bytes(), &self.refusal) {
            Some(told) => told,
            None => write!(f, "{}", self.refusal),
        }
    }
}

// Tells of a refusal with what it is about, where that is found.
fn tell<W: fmt::Write>(
    f: &mut Formatter<W>,
    text: &[u8],
    refusal: &AsmRefusal,
) -> Option<fmt::Result> {
    match *refusal {
        AsmRefusal::BadToken { line } => tell_character(f, text, line),
        AsmRefusal::UnknownWord { line } => tell_word(f, text, line),
        AsmRefusal::BadOperand { line } => tell_operands(f, text, line),
        AsmRefusal::BadNumber { line } => Some(tell_number(f, text, line)),
        AsmRefusal::LabelTwice { line } => tell_label(f, text, line),
        AsmRefusal::NoSuchLabel { line } => tell_unknown(f, text, line),
        AsmRefusal::Backward { line } => tell_backward(f, text, line),
        AsmRefusal::TooFar { line } => tell_far(f, text, line),
        AsmRefusal::TooMany { .. } | AsmRefusal::OutOfMemory => None,
    }
}

/// Octets of a text between quotation marks.
#[derive(Clone, Copy)]
struct Quoted<'a>(&'a [u8]);

impl Display for Quoted<'_> {
    fn fmt<W: fmt::Write>(&self, f: &mut Formatter<W>) -> fmt::Result {
        match str::from_utf8(self.0) {
            Ok(text) => write!(f, "{text:?}"),
            Err(_) => f.write_str("what stands there"),
        }
    }
}

fn tell_character<W: fmt::Write>(
    f: &mut Formatter<W>,
    text: &[u8],
    line: usize,
) -> Option<fmt::Result> {
    let character = bad_character(text, line)?;
    if character == b"/*".as_slice() {
        Some(write!(
            f,
            "line {line}: the comment that \"/*\" begins is never closed; \"*/\" closes it"
        ))
    } else {
        Some(write!(
            f,
            "line {line}: {} has no meaning outside a comment; a comment is written behind ; or between /* and */",
            Quoted(character)
        ))
    }
}

// The first character of a line that no token has.
fn bad_character(text: &[u8], line: usize) -> Option<&[u8]> {
    for part in Parts::of(text) {
        if part.line == line && part.token.first().is_some_and(|c| !is_token(*c)) {
            return Some(part.token);
        }
    }
    None
}

fn tell_word<W: fmt::Write>(f: &mut Formatter<W>, text: &[u8], line: usize) -> Option<fmt::Result> {
    let word = Quoted(word_on(text, line)?.token);
    Some(write!(
        f,
        "line {line}: {word} is no instruction; there are {WORDS}"
    ))
}

// The word of the instruction on a line.
fn word_on(text: &[u8], line: usize) -> Option<Part> {
    Parts::of(text).find(|part| part.line == line && part.kind == Kind::Word)
}

fn tell_operands<W: fmt::Write>(
    f: &mut Formatter<W>,
    text: &[u8],
    line: usize,
) -> Option<fmt::Result> {
    let word = word_on(text, line)?.token;
    let takes = operands_of(word);
    let operands = operands_on(text, line);
    let word = Quoted(word);
    if operands.is_empty() {
        return Some(write!(f, "line {line}: nothing follows {word}; it takes {takes}"));
    }
    let operands = Quoted(operands);
    Some(write!(
        f,
        "line {line}: {word} does not take {operands}; it takes {takes}"
    ))
}

// How the operands of a word are written.
fn operands_of(word: &[u8]) -> &'static str {
    match word {
        b"ld" => "[k], [x + k], M[k], #k, len or ifidx",
        b"ldi" | b"ldxi" => "#k or k",
        b"ldh" | b"ldb" => "[k] or [x + k]",
        b"ldx" => "M[k], #k, len or 4*([k]&0xf)",
        b"ldxb" => "4*([k]&0xf)",
        b"st" | b"stx" => "M[k]",
        b"jmp" | b"ja" => "a label",
        b"jeq" | b"jgt" | b"jge" | b"jset" =>
            "#k or x, a comma and a label, and perhaps a comma and a label more",
        b"jneq" | b"jne" | b"jlt" | b"jle" => "#k or x, a comma and a label",
        b"neg" | b"tax" | b"txa" => "no operand",
        b"ret" => "#k or a",
        _ => "#k or x",
    }
}

// What is written from the first operand of a line to the last.
fn operands_on(text: &[u8], line: usize) -> &[u8] {
    let mut from = text.len();
    let mut to = text.len();
    for part in Parts::of(text) {
        if part.line == line && part.kind == Kind::Operand {
            let start = text.len().saturating_sub(part.left);
            from = from.min(start);
            to = start.saturating_add(part.token.len());
        }
    }
    text.get(from..to).unwrap_or(b"")
}

fn tell_number<W: fmt::Write>(f: &mut Formatter<W>, text: &[u8], line: usize) -> fmt::Result {
    match bad_number(text, line) {
        Some((number, true)) => write!(
            f,
            "line {line}: {} behind - is malformed or out of range; numbers below zero are #-1 to #-2147483648",
            Quoted(number)
        ),
        Some((number, false)) => write!(
            f,
            "line {line}: {} is malformed or above 4294967295; ten is written 10, 0xa, 012 or 0b1010",
            Quoted(number)
        ),
        None => write!(
            f,
            "line {line}: the form 4*([k]&0xf) is there with 4 and 0xf (or 15) alone"
        ),
    }
}

// The first number of a line that is malformed or out of range, and whether it stands behind a `-`.
fn bad_number(text: &[u8], line: usize) -> Option<(&[u8], bool)> {
    let mut is_negative = false;
    for part in Parts::of(text) {
        if part.line == line && is_number(part.token) && !is_in_range(part.token, is_negative) {
            return Some((part.token, is_negative));
        }
        is_negative = part.token == b"-".as_slice();
    }
    None
}

fn is_in_range(number: &[u8], is_negative: bool) -> bool {
    match value(number) {
        Some(n) => !is_negative || (n >= 1 && n <= 0x8000_0000),
        None => false,
    }
}

fn tell_label<W: fmt::Write>(
    f: &mut Formatter<W>,
    text: &[u8],
    line: usize,
) -> Option<fmt::Result> {
    let (label, first) = label_again(text, line)?;
    let label = Quoted(label);
    Some(write!(
        f,
        "line {line}: label {label} is defined on line {first} already"
    ))
}

// The first label of a line that is defined before, and on which line.
fn label_again(text: &[u8], line: usize) -> Option<(&[u8], usize)> {
    for part in Parts::of(text) {
        if part.line == line && part.kind == Kind::Label {
            let first = definition_of(text, part.token)?;
            if first.left > part.left {
                return Some((part.token, first.line));
            }
        }
    }
    None
}

// The first label of a name.
fn definition_of<'a>(text: &'a [u8], name: &[u8]) -> Option<Part<'a>> {
    Parts::of(text).find(|part| part.kind == Kind::Label && part.token == name)
}

fn tell_unknown<W: fmt::Write>(
    f: &mut Formatter<W>,
    text: &[u8],
    line: usize,
) -> Option<fmt::Result> {
    let (label, Unreached::NoLabel) = bad_target(text, line)? else {
        return None;
    };
    let label = Quoted(label);
    Some(write!(
        f,
        "line {line}: no line defines the label {label}; a label is written with : behind it, in front of its instruction"
    ))
}

fn tell_backward<W: fmt::Write>(
    f: &mut Formatter<W>,
    text: &[u8],
    line: usize,
) -> Option<fmt::Result> {
    let (label, Unreached::Backward { to }) = bad_target(text, line)? else {
        return None;
    };
    let label = Quoted(label);
    Some(write!(
        f,
        "line {line}: the jump to {label} leads back to line {to}; a jump leads to a later instruction"
    ))
}

fn tell_far<W: fmt::Write>(f: &mut Formatter<W>, text: &[u8], line: usize) -> Option<fmt::Result> {
    let (label, Unreached::Far { passed }) = bad_target(text, line)? else {
        return None;
    };
    let label = Quoted(label);
    Some(write!(
        f,
        "line {line}: the jump to {label} passes {passed} instructions; at most 255 fit"
    ))
}

/// Why a conditional jump can't reach a label.
#[derive(Clone, Copy)]
enum Unreached {
    NoLabel,
    /// The line that defines it.
    Backward { to: usize },
    /// How many instructions stand between.
    Far { passed: usize },
}

// The first label of the jump on a line that it can't reach, and why.
fn bad_target(text: &[u8], line: usize) -> Option<(&[u8], Unreached)> {
    let jump = word_on(text, line)?;
    let mut is_label_next = jump.token == b"jmp".as_slice() || jump.token == b"ja".as_slice();
    for part in Parts::of(text) {
        if part.line != line || part.kind != Kind::Operand {
            continue;
        }
        if is_label_next && is_word(part.token) {
            if let Some(why) = why_unreached(text, jump.left, part.token) {
                return Some((part.token, why));
            }
        }
        is_label_next = part.token == b",".as_slice();
    }
    None
}

// Why the jump at a place can't reach the label of a name.
fn why_unreached(text: &[u8], from: usize, name: &[u8]) -> Option<Unreached> {
    let Some(label) = definition_of(text, name) else {
        return Some(Unreached::NoLabel);
    };
    if label.left > from {
        return Some(Unreached::Backward { to: label.line });
    }
    let passed = words_between(text, from, label.left);
    if passed > 255 {
        Some(Unreached::Far { passed })
    } else {
        None
    }
}

// How many instructions begin between two places.
fn words_between(text: &[u8], from: usize, to: usize) -> usize {
    Parts::of(text)
        .filter(|part| part.kind == Kind::Word && part.left < from && part.left > to)
        .count()
}
