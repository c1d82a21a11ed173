//! The tokens of a text in their places, for what a person is told of a refusal. Nothing here takes memory, and nothing is
//! promised: `assemble` reads by `lines` and `tokens`.

ghost use Rattle.std.specs.Prelude.{◌≤◌, ◌<◌, length};
ghost use Rattle.std.specs.Iterator.{at_most};

use crate::lines::line_end;
use crate::tokens::{is_name, is_token, is_word, name_end};

/// What a token is on its line.
#[derive(Clone, Copy, PartialEq, Eq)]
pub enum Kind {
    /// The name of a label.
    Label,
    /// The `:` behind it.
    Colon,
    /// The first token behind the labels.
    Word,
    /// A later one.
    Operand,
}

/// A token of a text.
#[derive(Clone, Copy)]
pub struct Part<'a> {
    pub token: &'a [u8],
    pub kind: Kind,
    pub line: usize,
    /// How many octets of the text stand from the token on.
    pub left: usize,
}

/// The tokens of a text, one after another.
#[derive(Clone, Copy)]
pub struct Parts<'a> {
    rest: &'a [u8],
    line: usize,
    /// What the token before is.
    before: Kind,
}

impl<'a> Parts<'a> {
    pub fn of(text: &'a [u8]) -> Parts<'a> {
        Parts {
            rest: text,
            line: 1,
            before: Kind::Colon,
        }
    }
}

impl<'a> Iterator for Parts<'a> {
    type Item = Part<'a>;

    ghost remaining = { λ parts. at_most (length parts.rest.now) };

    fn next(&mut self) -> Option<Part<'a>> {
        let (rest, line) = past_blanks(self.rest, self.line);
        if rest.is_empty() {
            return None;
        }
        let (token, behind) = rest.split_at(token_len(rest));
        let kind = match self.before {
            Kind::Label => Kind::Colon,
            Kind::Word | Kind::Operand if line == self.line => Kind::Operand,
            _ if is_word(token) && is_colon_next(behind, line) => Kind::Label,
            _ => Kind::Word,
        };
        self.rest = behind;
        self.line = line;
        self.before = kind;
        Some(Part {
            token,
            kind,
            line,
            left: rest.len(),
        })
    }
}

// Whether `:` is the next token of the line.
fn is_colon_next(behind: &[u8], line: usize) -> bool {
    let (rest, there) = past_blanks(behind, line);
    there == line && rest.first() == Some(&b':')
}

// What follows the blanks and comments at the front, and its line.
fn past_blanks<'a>(text: &'a [u8], line: usize) -> (&'a [u8], usize)
    ensures { length result.0.now ≤ length text.now }
{
    let mut rest = text;
    let mut line = line;
    'blanks: loop {
        let len = blank_len(rest);
        if len == 0 {
            return (rest, line);
        }
        let (blank, behind) = rest.split_at(len);
        line = line.saturating_add(line_ends(blank));
        rest = behind;
    }
}

// How long the blank or the comment at the front is, or 0.
fn blank_len(rest: &[u8]) -> usize
    ensures { result ≤ length rest.now }
{
    match rest {
        [b' ' | b'\t' | b'\r' | b'\n', ..] => 1,
        [b';', ..] => line_end(rest, 0),
        [b'/', b'*', ..] => comment_len(rest),
        _ => 0,
    }
}

// How long the comment is that `/*` begins, or 0 where it is never closed.
fn comment_len(rest: &[u8]) -> usize
    ensures { result ≤ length rest.now }
{
    for at in 3..rest.len() {
        if rest[at] == b'/' && rest[at - 1] == b'*' {
            return at + 1;
        }
    }
    0
}

fn line_ends(blank: &[u8]) -> usize {
    blank.iter().filter(|c| **c == b'\n').count()
}

// How long the token at the front is. A character that no token has counts as one, and so does a `/*`.
fn token_len(rest: &[u8]) -> usize
    requires { 0 < length rest.now }
    ensures some { 0 < result }
    ensures within { result ≤ length rest.now }
{
    match rest {
        [b'/', b'*', ..] => 2,
        [c, ..] if is_name(*c) => name_end(rest, 0),
        [c, ..] if is_token(*c) => 1,
        _ => character_len(rest),
    }
}

// How long the character at the front is in UTF-8.
fn character_len(rest: &[u8]) -> usize
    requires { 0 < length rest.now }
    ensures some { 0 < result }
    ensures within { result ≤ length rest.now }
{
    for at in 1..rest.len() {
        if rest[at] < 0x80 || rest[at] >= 0xc0 {
            return at;
        }
    }
    rest.len()
}
