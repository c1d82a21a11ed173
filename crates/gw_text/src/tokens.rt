//! The tokens of a line.

ghost use Rattle.std.specs.Prelude.{◌≡◌, ◌+◌, ◌≤◌, map, length, drop, IfOk};
ghost use Rattle.std.specs.List.{list_all, prefix_len};
ghost use Rattle.gw_text.specs.AssemblerTokens as spec;
ghost use Rattle.gw_text.specs.AssemblerTokens.{is_name_character, is_separator, is_token_character, tokens_of};

use std::alloc::{AllocError, Global};

/// Whether each octet of a line may stand in a token or between two.
pub fn are_tokens(line: &[u8]) -> bool
    ensures { result ≡ list_all is_token_character line.now }
{
    for c in line {
        if !is_token(*c) {
            return false;
        }
    }
    true
}

/// Whether an octet may stand in a token or between two.
pub fn is_token(c: u8) -> bool
    ensures { result ≡ is_token_character c }
{
    is_name(c)
        || is_blank(c)
        || matches!(
            c,
            b':' | b',' | b'#' | b'[' | b']' | b'(' | b')' | b'+' | b'*' | b'&' | b'%' | b'-'
        )
}

/// Whether a token is a word.
pub fn is_word(token: &[u8]) -> bool
    ensures { result ≡ spec.is_word token.now }
{
    !token.is_empty() && matches!(token[0], b'A'..=b'Z' | b'a'..=b'z' | b'_')
}

/// Whether a token is a number, well-formed or not.
pub fn is_number(token: &[u8]) -> bool
    ensures { result ≡ spec.is_number token.now }
{
    !token.is_empty() && token[0].is_ascii_digit()
}

/// Letters, digits and `_`, of which words and numbers are made.
pub fn is_name(c: u8) -> bool
    ensures { result ≡ is_name_character c }
{
    matches!(c, b'A'..=b'Z' | b'a'..=b'z' | b'_' | b'0'..=b'9')
}

/// Space, tab and CR.
fn is_blank(c: u8) -> bool
    ensures { result ≡ is_separator c }
{
    matches!(c, b' ' | b'\t' | b'\r')
}

/// Where the name ends that begins at a place.
pub fn name_end(line: &[u8], from: usize) -> usize
    requires { from ≤ length line.now }
    ensures end { result ≡ from + prefix_len is_name_character (drop from line.now) }
    ensures within { result ≤ length line.now }
{
    let mut end = from;
    while end < line.len() && is_name(line[end]) {
        end += 1;
    }
    end
}

/// The tokens of a line, each a part of it.
pub fn split<'a>(alloc: Global, line: &'a [u8]) -> Result<Vec<&'a [u8]>, AllocError>
    ensures { IfOk result (λ v. map (λ t. t.now) v.items ≡ tokens_of line.now) }
{
    let mut found = Vec::new(alloc);
    let mut at = 0;
    while at < line.len() {
        let c = line[at];
        if is_blank(c) {
            at += 1;
        } else if is_name(c) {
            let end = name_end(line, at);
            found.push(&line[at..end])?;
            at = end;
        } else {
            found.push(&line[at..at + 1])?;
            at += 1;
        }
    }
    Ok(found)
}
