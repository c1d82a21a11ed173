//! The lines of a text.

ghost use Rattle.std.specs.Prelude.{◌≡◌, ◌==◌, ◌+◌, ◌≤◌, length, drop, map, IfOk};
ghost use Rattle.std.specs.List.{position_or_len, slice_split};

use std::alloc::{AllocError, Global};

/// The lines of a text, each a part of it without its line end. Behind the last line end is a line too.
pub fn lines<'a>(alloc: Global, text: &'a [u8]) -> Result<Vec<&'a [u8]>, AllocError>
    ensures { IfOk result (λ lines. map (λ t. t.now) lines.items ≡ slice_split (λ c. c == 10) text.now) }
{
    let mut lines = Vec::new(alloc);
    let mut from = 0;
    let mut end = line_end(text, 0);
    while end < text.len() {
        lines.push(&text[from..end])?;
        from = end + 1;
        end = line_end(text, from);
    }
    lines.push(&text[from..])?;
    Ok(lines)
}

/// Where the line ends that begins at a place.
pub fn line_end(text: &[u8], from: usize) -> usize
    requires { from ≤ length text.now }
    ensures end { result ≡ from + position_or_len (λ c. c == 10) (drop from text.now) }
    ensures within { result ≤ length text.now }
{
    let mut end = from;
    while end < text.len() && text[end] != b'\n' {
        end += 1;
    }
    end
}
