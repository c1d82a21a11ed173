//! Words between blanks.

ghost use Rattle.std.specs.Prelude.{◌≡◌, ◌==◌, ◌<◌, ◌≤◌, [], ◌∷◌, length, slice_index, option_map, position, IfSome, MatchOption};
ghost use Rattle.std.specs.List.{list_any, prefix_len, position_or_len};
ghost use Rattle.gw_log.specs.MarkedWords.{IsAmong};
ghost use Rattle.gw_log.specs.LogLines.{is_blank, behind_blanks, words_of, word_at, is_marked};

/// Whether this is a space, a tab, a CR or a LF. One comparison tells nearly all that are none.
#[tactic(auto, unfolding(crate::specs::LogLines::is_blank))]
fn is_blank(c: u8) -> bool
    ensures { result ≡ is_blank c }
{
    c <= b' ' && matches!(c, b' ' | b'\t' | b'\r' | b'\n')
}

/// What stands behind the blanks in front.
pub fn behind_blanks(text: &[u8]) -> &[u8]
    ensures { result.now ≡ behind_blanks text.now }
{
    &text[blanks(text)..]
}

/// How many blanks stand in front.
fn blanks(text: &[u8]) -> usize
    ensures number { result ≡ prefix_len is_blank text.now }
    ensures bound { result ≤ length text.now }
{
    for (i, c) in text.iter().enumerate() {
        if !is_blank(*c) {
            return i;
        }
    }
    text.len()
}

/// How many octets stand before the first blank.
fn word_len(text: &[u8]) -> usize
    ensures len { result ≡ position_or_len is_blank text.now }
    ensures bound { result ≤ length text.now }
{
    for (i, c) in text.iter().enumerate() {
        if is_blank(*c) {
            return i;
        }
    }
    text.len()
}

/// The first word, and what stands behind it.
fn next_word(text: &[u8]) -> Option<(&[u8], &[u8])>
    ensures words { MatchOption result (words_of text.now ≡ [])
        (λ parts. words_of text.now ≡ parts.0.now ∷ words_of parts.1.now) }
    ensures fewer { IfSome result (λ parts. length parts.1.now < length text.now) }
{
    let rest = behind_blanks(text);
    if rest.is_empty() {
        return None;
    }
    let end = word_len(rest);
    Some((&rest[..end], &rest[end..]))
}

/// The word with this index, or no octets where there is none.
pub fn word_at(text: &[u8], index: usize) -> &[u8]
    ensures { result.now ≡ word_at (words_of text.now) index }
{
    let mut left = index;
    let mut rest = text;
    while let Some((word, behind)) = next_word(rest) {
        if left == 0 {
            return word;
        }
        left -= 1;
        rest = behind;
    }
    &[]
}

/// The first word that has a `#` or begins with `[`, among the words of its text.
#[derive(Drop)]
pub struct Marked<'a> {
    /// How many words stand before it.
    pub index: usize,
    pub word: &'a [u8],
    /// The word before it, or no octets where there is none.
    pub before: &'a [u8],
    /// What stands behind it.
    pub behind: &'a [u8],
}

/// Finds the first word that has a `#` or begins with `[`, in one walk.
pub fn find_marked(text: &[u8]) -> Option<Marked<'_>>
    ensures index { option_map (λ m. m.index) result ≡ position is_marked (words_of text.now) }
    ensures within { IfSome result (λ m. m.index < length text.now) }
    ensures words { IfSome result (IsAmong (words_of text.now)) }
{
    let mut index = 0;
    let mut before: &[u8] = &[];
    let mut rest = text;
    while let Some((word, behind)) = next_word(rest) {
        if is_marked(word) {
            return Some(Marked {
                index,
                word,
                before,
                behind,
            });
        }
        index += 1;
        (before, rest) = (word, behind);
    }
    None
}

/// Whether a word has a `#` or begins with `[`.
#[tactic(auto, unfolding(crate::specs::LogLines::is_marked))]
fn is_marked(word: &[u8]) -> bool
    ensures { result ≡ is_marked word.now }
{
    is_bracketed(word) || has_hash(word)
}

/// Whether a word begins with `[`.
pub fn is_bracketed(word: &[u8]) -> bool
    ensures { result ≡ (slice_index word.now 0 == 91) }
{
    matches!(word, [b'[', ..])
}

/// Whether a word has a `#`.
fn has_hash(word: &[u8]) -> bool
    ensures { result ≡ list_any (λ c. c == 35) word.now }
{
    word.iter().any(|c| *c == b'#')
}
