//! Where lines and words end.

ghost use Rattle.std.specs.Prelude.{◌≡◌, ◌≤◌, length, option_copied};
ghost use Rattle.std.specs.List.{position_or_len};
ghost use Rattle.gw_input.specs.Lines.{is_octet, first_line, behind_first, ended_line, without_return};
ghost use Rattle.gw_input.specs.Words.{first_word, behind_word};

use memchr::memchr;

/// Returns the index of the first octet of this value, or the text's length where there is none.
pub fn position_of(octet: u8, text: &[u8]) -> usize
    ensures place { result ≡ position_or_len (is_octet octet) text.now }
    ensures bound { result ≤ length text.now }
{
    memchr(octet, text).unwrap_or(text.len())
}

/// Parts a text into its first line, without its end, and what stands behind the line feed that ends it, if one does. A
/// carriage return right before that line feed is part of the end; any other one is part of the line.
pub fn first_line(text: &[u8]) -> (&[u8], Option<&[u8]>)
    ensures line { result.0.now ≡ first_line text.now }
    ensures behind { option_copied result.1 ≡ behind_first text.now }
{
    let end = position_of(b'\n', text);
    if end < text.len() {
        (without_return(&text[..end]), Some(&text[end + 1..]))
    } else {
        (text, None)
    }
}

/// Drops the carriage return at the end of a line that a line feed ended.
pub fn line_in(line: &[u8], ended: bool) -> &[u8]
    ensures { result.now ≡ ended_line ended line.now }
{
    if ended { without_return(line) } else { line }
}

/// Drops the carriage return at the end of a line, if one stands there.
fn without_return(line: &[u8]) -> &[u8]
    ensures { result.now ≡ without_return line.now }
{
    match line.split_last() {
        Some((b'\r', before)) => before,
        _ => line,
    }
}

/// Parts a text into its first word and what stands behind the space that ends it, if one does.
pub fn first_word(text: &[u8]) -> (&[u8], Option<&[u8]>)
    ensures word { result.0.now ≡ first_word text.now }
    ensures behind { option_copied result.1 ≡ behind_word text.now }
{
    let end = position_of(b' ', text);
    if end < text.len() {
        (&text[..end], Some(&text[end + 1..]))
    } else {
        (text, None)
    }
}
