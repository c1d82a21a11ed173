//! Lines of output, put together without memory.

ghost use Rattle.std.specs.Prelude.{◌≡◌, ◌+◌, ◌≤◌, [], ◌∷◌, ◌++◌, if◌then◌else◌, length, decimal};
ghost use Rattle.hex.specs.Hex.{encode_lower};
ghost use Rattle.gw_input.specs.PortTexts.{ports_text};
ghost use Rattle.gw_input.specs.RuleLines.{line_words, rule_name};

use crate::rule_places::line_of_rule;
use arrayvec::ArrayVec;
use gw_frame::Frame;
use gw_ledger::{MAX_PORTS, PortSet};
use itoa::Buffer;
use std::marker::Model;

/// The most octets of a line.
const ROOM: usize = 192;

/// A line of output of at most 192 octets.
#[derive(Drop)]
pub struct Line {
    octets: ArrayVec<u8, ROOM>,
}

impl Model for Line {
    ghost use Rattle.std.specs.Prelude.{List, ℕ};

    ghost Value = { List ℕ };

    ghost view = { λ l. l.octets.items };
}

impl Line {
    /// Makes an empty line.
    pub fn new() -> Line
        ensures { result ≡ [] }
    {
        Line {
            octets: ArrayVec::new(),
        }
    }

    /// Appends a text.
    pub fn text(mut self, text: &str) -> Line
        requires { length self + length text.now ≤ 192 }
        ensures octets { result ≡ self ++ text.now }
        ensures len { length result ≡ length self + length text.now }
    {
        let _fits = self.octets.try_extend_from_slice(text.as_bytes());
        self
    }

    /// Appends a space and the decimal digits of a number.
    pub fn number(mut self, n: u64) -> Line
        requires { length self + 21 ≤ 192 }
        ensures octets { result ≡ self ++ 32 ∷ decimal n }
        ensures len { length result ≤ length self + 21 }
    {
        let mut buffer = Buffer::new();
        self.octets.push(b' ');
        let _fits = self
            .octets
            .try_extend_from_slice(buffer.format(n).as_bytes());
        self
    }

    /// Appends the decimal digits of a number.
    pub fn digits(mut self, n: u64) -> Line
        requires { length self + 20 ≤ 192 }
        ensures octets { result ≡ self ++ decimal n }
        ensures len { length result ≤ length self + 20 }
    {
        let mut buffer = Buffer::new();
        let _fits = self
            .octets
            .try_extend_from_slice(buffer.format(n).as_bytes());
        self
    }

    /// Appends the decimal digits of a port.
    pub fn port(mut self, port: u8) -> Line
        requires { length self + 3 ≤ 192 }
        ensures octets { result ≡ self ++ decimal port }
        ensures len { length result ≤ length self + 3 }
    {
        let mut buffer = Buffer::new();
        let _fits = self
            .octets
            .try_extend_from_slice(buffer.format(port).as_bytes());
        self
    }

    /// Appends the numbers of a set of ports, with commas between, or `-` for none.
    pub fn ports(self, ports: PortSet) -> Line
        requires { length self + 64 ≤ 192 }
        ensures octets { result ≡ self ++ ports_text ports }
        ensures len { length result ≤ length self + 64 }
    {
        if ports.len() == 0 {
            return self.text("-");
        }
        let mut line = self;
        let mut some = false;
        for port in 0..MAX_PORTS as u8 {
            if ports.has(port) {
                line = line.member(some, port);
                some = true;
            }
        }
        line
    }

    /// Appends a port, behind a comma where other ports stand before it.
    fn member(self, behind: bool, port: u8) -> Line
        requires { length self + 4 ≤ 192 }
        ensures octets { result ≡ self ++ (if behind then 44 ∷ decimal port else decimal port) }
        ensures len { length result ≤ length self + 4 }
    {
        if behind {
            self.text(",").port(port)
        } else {
            self.port(port)
        }
    }

    /// Appends a rule by its number, and the line at which it stands: `rule 2 (line 14)`. `lines` are those of the rules, in
    /// their order; a rule behind the last of them is named by its number alone.
    pub fn rule(self, number: usize, lines: &[usize]) -> Line
        requires { length self + 53 ≤ 192 }
        ensures octets { result ≡ self ++ rule_name lines.now number }
        ensures len { length result ≤ length self + 53 }
    {
        self.text("rule ")
            .digits(number as u64)
            .place(line_of_rule(lines, number))
    }

    /// Appends the line at which a rule stands, where it is known.
    fn place(self, place: Option<usize>) -> Line
        requires { length self + 28 ≤ 192 }
        ensures octets { result ≡ self ++ line_words place }
        ensures len { length result ≤ length self + 28 }
    {
        match place {
            Some(place) => self.text(" (line ").digits(place as u64).text(")"),
            None => self,
        }
    }

    /// Appends the octets of a frame in lower-case hexadecimal digits.
    pub fn hex(mut self, frame: &Frame) -> Line
        requires { length self + 32 ≤ 192 }
        ensures octets { result ≡ self ++ encode_lower frame.now }
        ensures len { length result ≤ length self + 32 }
    {
        let octets = frame.bytes();
        let mut digits = [0; 32];
        let _fits = hex::encode_to_slice(octets, &mut digits[..2 * octets.len()]);
        let _fits = self
            .octets
            .try_extend_from_slice(&digits[..2 * octets.len()]);
        self
    }

    /// The octets.
    pub fn as_bytes(&self) -> &[u8]
        ensures { result.now ≡ self.now }
    {
        self.octets.as_slice()
    }
}
