//! The words of the language, and the forms of their operands.

ghost use Rattle.std.specs.Prelude.{◌≡◌, true, length, map, option_map, IfSome};
ghost use Rattle.gw_text.specs.AssemblerForms as table;
ghost use Rattle.gw_text.specs.AssemblerForms.{fits_piece, fits, forms_among, form_among};
ghost use Rattle.gw_text.specs.FormViews.{form_view, piece_view, word_view};

use crate::tokens::{is_number, is_word};
use Jump::{Always, Either, IfFalse, IfTrue, NoJump};
use Piece::{Label, Negated, Number, Only, Spelled};

/// One token of an operand.
#[derive(Clone, Copy)]
pub enum Piece {
    /// A token spelled so.
    Spelled(&'static [u8]),
    /// A number.
    Number,
    /// A number behind `-`.
    Negated,
    /// This number alone.
    Only(u32),
    /// A label.
    Label,
}

/// Where the labels of a jump lead.
#[derive(Clone, Copy)]
pub enum Jump {
    /// There are none.
    NoJump,
    /// Always to the label.
    Always,
    /// To the label where the comparison holds.
    IfTrue,
    /// To the label where the comparison fails.
    IfFalse,
    /// To the first label where the comparison holds, else to the second.
    Either,
}

/// A spelling of operands, with the code that its word has there.
#[derive(Clone, Copy)]
pub struct Form {
    pub pieces: &'static [Piece],
    pub code: u16,
    pub jump: Jump,
    /// The field `k`, where no piece is a number.
    pub constant: u32,
}

/// A word of the language.
#[derive(Clone, Copy)]
pub struct Word {
    pub name: &'static [u8],
    pub forms: &'static [Form],
}

const HASH: Piece = Spelled(b"#");

const OPEN: Piece = Spelled(b"[");

const CLOSE: Piece = Spelled(b"]");

const COMMA: Piece = Spelled(b",");

const MINUS: Piece = Spelled(b"-");

const PERCENT: Piece = Spelled(b"%");

const X: Piece = Spelled(b"x");

const NUMBER: &[Piece] = &[HASH, Number];

const MINUS_NUMBER: &[Piece] = &[HASH, MINUS, Negated];

const BARE_NUMBER: &[Piece] = &[Number];

const INDEX: &[Piece] = &[X];

const PERCENT_INDEX: &[Piece] = &[PERCENT, X];

const ABSOLUTE: &[Piece] = &[OPEN, Number, CLOSE];

const INDEXED: &[Piece] = &[OPEN, X, Spelled(b"+"), Number, CLOSE];

const PERCENT_INDEXED: &[Piece] = &[OPEN, PERCENT, X, Spelled(b"+"), Number, CLOSE];

const SCRATCH: &[Piece] = &[Spelled(b"M"), OPEN, Number, CLOSE];

const LENGTH: &[Piece] = &[Spelled(b"len")];

const HASH_LENGTH: &[Piece] = &[HASH, Spelled(b"len")];

const PORT: &[Piece] = &[Spelled(b"ifidx")];

const HASH_PORT: &[Piece] = &[HASH, Spelled(b"ifidx")];

const NIBBLE: &[Piece] = &[
    Only(4),
    Spelled(b"*"),
    Spelled(b"("),
    OPEN,
    Number,
    CLOSE,
    Spelled(b"&"),
    Only(15),
    Spelled(b")"),
];

/// A form of one code.
macro_rules! form {
    ($pieces:expr, $code:expr) => {
        form!($pieces, $code, NoJump)
    };
    ($pieces:expr, $code:expr, $jump:expr) => {
        Form {
            pieces: $pieces,
            code: $code,
            jump: $jump,
            constant: 0,
        }
    };
}

/// The ingress port, at the offset that Linux gives the interface number.
macro_rules! port {
    ($pieces:expr) => {
        Form {
            pieces: $pieces,
            code: 0x20,
            jump: NoJump,
            constant: 0xffff_f008,
        }
    };
}

/// A word with its forms.
macro_rules! word {
    ($name:expr, $($form:expr),+) => {
        Word { name: $name, forms: &[$($form),+] }
    };
}

/// A word with a number or the index register.
macro_rules! arithmetic {
    ($name:expr, $code:expr) => {
        word!(
            $name,
            form!(NUMBER, $code),
            form!(MINUS_NUMBER, $code),
            form!(INDEX, $code + 8),
            form!(PERCENT_INDEX, $code + 8)
        )
    };
}

/// A comparison with two labels, or with one where it holds.
macro_rules! branch {
    ($name:expr, $code:expr) => {
        word!(
            $name,
            form!(&[HASH, Number, COMMA, Label, COMMA, Label], $code, Either),
            form!(&[HASH, MINUS, Negated, COMMA, Label, COMMA, Label], $code, Either),
            form!(&[X, COMMA, Label, COMMA, Label], $code + 8, Either),
            form!(&[PERCENT, X, COMMA, Label, COMMA, Label], $code + 8, Either),
            form!(&[HASH, Number, COMMA, Label], $code, IfTrue),
            form!(&[HASH, MINUS, Negated, COMMA, Label], $code, IfTrue),
            form!(&[X, COMMA, Label], $code + 8, IfTrue),
            form!(&[PERCENT, X, COMMA, Label], $code + 8, IfTrue)
        )
    };
}

/// A comparison with a label where it fails.
macro_rules! branch_unless {
    ($name:expr, $code:expr) => {
        word!(
            $name,
            form!(&[HASH, Number, COMMA, Label], $code, IfFalse),
            form!(&[HASH, MINUS, Negated, COMMA, Label], $code, IfFalse),
            form!(&[X, COMMA, Label], $code + 8, IfFalse),
            form!(&[PERCENT, X, COMMA, Label], $code + 8, IfFalse)
        )
    };
}

static LOADS: [Word; 9] = [
    word!(
        b"ld",
        form!(ABSOLUTE, 0x20),
        form!(INDEXED, 0x40),
        form!(PERCENT_INDEXED, 0x40),
        form!(SCRATCH, 0x60),
        form!(NUMBER, 0x00),
        form!(MINUS_NUMBER, 0x00),
        form!(LENGTH, 0x80),
        form!(HASH_LENGTH, 0x80),
        port!(PORT),
        port!(HASH_PORT)
    ),
    word!(
        b"ldi",
        form!(NUMBER, 0x00),
        form!(MINUS_NUMBER, 0x00),
        form!(BARE_NUMBER, 0x00)
    ),
    word!(
        b"ldh",
        form!(ABSOLUTE, 0x28),
        form!(INDEXED, 0x48),
        form!(PERCENT_INDEXED, 0x48)
    ),
    word!(
        b"ldb",
        form!(ABSOLUTE, 0x30),
        form!(INDEXED, 0x50),
        form!(PERCENT_INDEXED, 0x50)
    ),
    word!(
        b"ldx",
        form!(SCRATCH, 0x61),
        form!(NUMBER, 0x01),
        form!(MINUS_NUMBER, 0x01),
        form!(LENGTH, 0x81),
        form!(HASH_LENGTH, 0x81),
        form!(NIBBLE, 0xb1)
    ),
    word!(
        b"ldxi",
        form!(NUMBER, 0x01),
        form!(MINUS_NUMBER, 0x01),
        form!(BARE_NUMBER, 0x01)
    ),
    word!(b"ldxb", form!(NIBBLE, 0xb1)),
    word!(b"st", form!(SCRATCH, 0x02)),
    word!(b"stx", form!(SCRATCH, 0x03)),
];

static JUMPS: [Word; 10] = [
    word!(b"jmp", form!(&[Label], 0x05, Always)),
    word!(b"ja", form!(&[Label], 0x05, Always)),
    branch!(b"jeq", 0x15),
    branch!(b"jgt", 0x25),
    branch!(b"jge", 0x35),
    branch!(b"jset", 0x45),
    branch_unless!(b"jneq", 0x15),
    branch_unless!(b"jne", 0x15),
    branch_unless!(b"jlt", 0x35),
    branch_unless!(b"jle", 0x25),
];

static ARITHMETIC: [Word; 10] = [
    arithmetic!(b"add", 0x04),
    arithmetic!(b"sub", 0x14),
    arithmetic!(b"mul", 0x24),
    arithmetic!(b"div", 0x34),
    arithmetic!(b"mod", 0x94),
    arithmetic!(b"or", 0x44),
    arithmetic!(b"and", 0x54),
    arithmetic!(b"xor", 0xa4),
    arithmetic!(b"lsh", 0x64),
    arithmetic!(b"rsh", 0x74),
];

static OTHERS: [Word; 4] = [
    word!(b"neg", form!(&[], 0x84)),
    word!(b"tax", form!(&[], 0x07)),
    word!(b"txa", form!(&[], 0x87)),
    word!(
        b"ret",
        form!(NUMBER, 0x06),
        form!(MINUS_NUMBER, 0x06),
        form!(&[Spelled(b"a")], 0x16),
        form!(&[PERCENT, Spelled(b"a")], 0x16)
    ),
];

/// The forms of a word of the language.
pub fn forms_of(name: &[u8]) -> Option<&'static [Form]>
    ensures { option_map (λ fs. map form_view fs.now) result ≡ table.forms_of name.now }
{
    match load_forms(name) {
        Some(forms) => Some(forms),
        None => match jump_forms(name) {
            Some(forms) => Some(forms),
            None => match arithmetic_forms(name) {
                Some(forms) => Some(forms),
                None => other_forms(name),
            },
        },
    }
}

/// The forms of a load or a store. (The table is in four parts, since a proof computes each of them whole.)
fn load_forms(name: &[u8]) -> Option<&'static [Form]>
    ensures { option_map (λ fs. map form_view fs.now) result ≡ forms_among table.loads name.now }
{
    find_word(&LOADS, name)
}

fn jump_forms(name: &[u8]) -> Option<&'static [Form]>
    ensures { option_map (λ fs. map form_view fs.now) result ≡ forms_among table.jumps name.now }
{
    find_word(&JUMPS, name)
}

fn arithmetic_forms(name: &[u8]) -> Option<&'static [Form]>
    ensures { option_map (λ fs. map form_view fs.now) result ≡ forms_among table.arithmetic name.now }
{
    find_word(&ARITHMETIC, name)
}

fn other_forms(name: &[u8]) -> Option<&'static [Form]>
    ensures { option_map (λ fs. map form_view fs.now) result ≡ forms_among table.others name.now }
{
    find_word(&OTHERS, name)
}

/// The forms of the word of a name among some.
fn find_word(words: &[Word], name: &[u8]) -> Option<&'static [Form]>
    ensures { option_map (λ fs. map form_view fs.now) result ≡ forms_among (map word_view words.now) name.now }
{
    for word in words {
        if word.name == name {
            return Some(word.forms);
        }
    }
    None
}

/// The form that operands are spelled in.
pub fn form_in<'a>(forms: &'a [Form], operands: &[&[u8]]) -> Option<&'a Form>
    ensures form { option_map (λ f. form_view f.now) result
        ≡ form_among (map form_view forms.now) (map (λ t. t.now) operands.now) }
    ensures as_many { IfSome result (λ form. length form.now.pieces.now ≡ length operands.now) }
{
    for form in forms {
        if fits_all(form.pieces, operands) {
            return Some(form);
        }
    }
    None
}

/// Whether operands fit the pieces, one by one.
fn fits_all(pieces: &[Piece], operands: &[&[u8]]) -> bool
    ensures fits { result ≡ fits (map piece_view pieces.now) (map (λ t. t.now) operands.now) }
    ensures as_many { result ≡ true → length pieces.now ≡ length operands.now }
{
    if pieces.len() != operands.len() {
        return false;
    }
    for (at, piece) in pieces.iter().enumerate() {
        if !fits_one(*piece, operands[at]) {
            return false;
        }
    }
    true
}

/// Whether a token fits a piece.
fn fits_one(piece: Piece, token: &[u8]) -> bool
    ensures { result ≡ fits_piece (piece_view piece) token.now }
{
    match piece {
        Spelled(text) => text == token,
        Number | Negated | Only(_) => is_number(token),
        Label => is_word(token),
    }
}
