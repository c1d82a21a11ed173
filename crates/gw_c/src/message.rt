//! What C is told in words.

ghost use Rattle.std.specs.Prelude.{◌≤◌, length};
ghost use Rattle.gw_c.specs.Faults.{IsMessage};

use crate::fault::{Fault, MESSAGE};
use arrayvec::ArrayString;
use gw_input::ExplainedCode;
use gw_text::Explained;
use std::fmt;
use std::fmt::{Display, Formatter, Write};

/// What is wrong, in the words of `gw`, as an array that ends with an octet 0. It is cut where it is too long.
pub fn message(fault: &Fault, text: &[u8]) -> [u8; MESSAGE]
    ensures { IsMessage result }
{
    let mut said = Cut(ArrayString::new());
    let words = Words { fault, text };
    let _is_whole = write!(said, "{words}");
    padded(said.0.as_str())
}

/// The octets of a text, with 0 behind them.
fn padded(text: &str) -> [u8; MESSAGE]
    requires { length text.now ≤ 255 }
    ensures { IsMessage result }
{
    let octets = text.as_bytes();
    let mut message = [0; MESSAGE];
    message[..octets.len()].copy_from_slice(octets);
    message
}

/// A text of at most 255 octets, which takes the characters that fit.
#[derive(Clone, Copy)]
struct Cut(ArrayString<255>);

impl fmt::Write for Cut {
    fn write_str(&mut self, text: &str) -> fmt::Result {
        for c in text.chars() {
            if self.0.try_push(c).is_err() {
                return Err(fmt::Error);
            }
        }
        Ok(())
    }
}

/// Why a policy is refused, and the text that it was to be made of.
#[derive(Clone, Copy)]
struct Words<'a> {
    fault: &'a Fault,
    text: &'a [u8],
}

impl Display for Words<'_> {
    fn fmt<W: fmt::Write>(&self, f: &mut Formatter<W>) -> fmt::Result {
        match self.fault {
            Fault::NotUtf8 => f.write_str("the input is no text: it is not UTF-8"),
            Fault::Listing(why) => write!(f, "{why}"),
            Fault::Code { refused, path } => {
                let explained = ExplainedCode {
                    refused,
                    path: path.as_ref(),
                };
                write!(f, "{explained}")
            }
            Fault::Assembler(why) => {
                let explained = Explained {
                    text: str::from_utf8(self.text).unwrap_or(""),
                    refusal: *why,
                };
                write!(f, "{explained}")
            }
            Fault::Table { why, .. } => write!(f, "{why}"),
            Fault::OutOfMemory => f.write_str("memory was refused"),
        }
    }
}
