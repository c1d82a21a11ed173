//! Numbers in decimal digits.

ghost use Rattle.std.specs.Prelude.{◌≡◌, ◌≤◌, ◌↔◌, option_map, IfSome, IsTrue, All};
ghost use Rattle.std.specs.Char.{IsAsciiDigit, is_ascii_digit};
ghost use Rattle.std.specs.List.{list_all};
ghost use Rattle.gw_input.specs.Words.{number_in, number_before};

use crate::lines::first_word;
use gw_insn::decimal_value;

/// Reads a word of 1 to 10 decimal digits as a number, if that is at most `most`.
#[tactic(auto, using(crate::proofs::DecimalValues::number_there))]
pub fn number(word: &[u8], most: u32) -> Option<u32>
    ensures number { result ≡ number_in most word.now }
    ensures most { IfSome result (λ n. n ≤ most) }
{
    if word.is_empty() || word.len() > 10 || !are_digits(word) {
        return None;
    }
    let n = decimal_value(word);
    if n > u64::from(most) {
        return None;
    }
    Some(n as u32)
}

/// Whether a word has decimal digits alone.
fn are_digits(word: &[u8]) -> bool
    ensures value { result ≡ list_all is_ascii_digit word.now }
    ensures all { IsTrue result ↔ All IsAsciiDigit word.now }
{
    word.iter().all(|c| c.is_ascii_digit())
}

/// Reads a word as the number of a port, at most 255.
pub fn port(word: &[u8]) -> Option<u8>
    ensures { result ≡ number_in 255 word.now }
{
    let n = number(word, 255)?;
    Some(n as u8)
}

/// Reads a text's first word as a number. Returns it with what stands behind the space that ends the word.
pub fn number_before(text: &[u8], most: u32) -> Option<(u32, &[u8])>
    ensures number { option_map (λ f. (f.0, f.1.now)) result ≡ number_before most text.now }
    ensures most { IfSome result (λ f. f.0 ≤ most) }
{
    let (word, behind) = first_word(text);
    let behind = behind?;
    let n = number(word, most)?;
    Some((n, behind))
}

/// Reads a text's first word as the number of a port, at most 255. Returns it with what stands behind the space.
pub fn port_before(text: &[u8]) -> Option<(u8, &[u8])>
    ensures { option_map (λ f. (f.0, f.1.now)) result ≡ number_before 255 text.now }
{
    let (n, behind) = number_before(text, 255)?;
    Some((n as u8, behind))
}
