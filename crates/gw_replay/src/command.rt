//! The command that a line names.

ghost use Rattle.std.specs.Prelude.{◌≡◌, option_map};
ghost use Rattle.gw_replay.specs.Requests.{
  request_of,
  named_request,
  limits_in,
  send_in,
  text_behind,
  word_behind,
};
ghost use Rattle.gw_replay.specs.Commands.{command_view};

use gw_input::{first_word, number, number_before, port, port_before};

/// A command, with its texts not yet read.
#[derive(Clone, Copy)]
pub enum Command<'a> {
    Limits {
        ports: u32,
        lane: u32,
        versions: u32,
        frames: u32,
    },
    Program {
        port: u8,
        listing: &'a [u8],
    },
    Table {
        port: u8,
        hex: &'a [u8],
    },
    Publish,
    Take {
        port: u8,
        hex: &'a [u8],
    },
    Step {
        port: u8,
    },
    Send {
        to: u8,
        from: u8,
    },
    Ledger {
        port: u8,
    },
}

/// Reads the command of a line, if its words are one.
pub fn command_of(line: &[u8]) -> Option<Command<'_>>
    ensures { option_map command_view result ≡ request_of line.now }
{
    let (name, behind) = first_word(line);
    if name == b"publish".as_slice() {
        return match behind {
            Some(_) => None,
            None => Some(Command::Publish),
        };
    }
    with_words(name, behind?)
}

/// Reads the command of a name that words follow.
fn with_words<'a>(name: &'a [u8], words: &'a [u8]) -> Option<Command<'a>>
    ensures { option_map command_view result ≡ named_request name.now words.now }
{
    if name == b"step".as_slice() {
        let port = port(words)?;
        Some(Command::Step { port })
    } else if name == b"take".as_slice() {
        let (port, hex) = word_behind(words)?;
        Some(Command::Take { port, hex })
    } else if name == b"send".as_slice() {
        send_words(words)
    } else if name == b"ledger".as_slice() {
        let port = port(words)?;
        Some(Command::Ledger { port })
    } else if name == b"program".as_slice() {
        let (port, listing) = text_behind(words)?;
        Some(Command::Program { port, listing })
    } else if name == b"table".as_slice() {
        let (port, hex) = word_behind(words)?;
        Some(Command::Table { port, hex })
    } else if name == b"limits".as_slice() {
        limits_words(words)
    } else {
        None
    }
}

/// Reads a port and the text behind it, which is not empty.
fn text_behind(words: &[u8]) -> Option<(u8, &[u8])>
    ensures { option_map (λ f. (f.0, f.1.now)) result ≡ text_behind words.now }
{
    let (port, text) = port_before(words)?;
    if text.is_empty() {
        return None;
    }
    Some((port, text))
}

/// Reads a port and the word behind it.
fn word_behind(words: &[u8]) -> Option<(u8, &[u8])>
    ensures { option_map (λ f. (f.0, f.1.now)) result ≡ word_behind words.now }
{
    let (port, word) = text_behind(words)?;
    if word.contains(&b' ') {
        return None;
    }
    Some((port, word))
}

/// Reads the two ports of `send`.
fn send_words(words: &[u8]) -> Option<Command<'_>>
    ensures { option_map command_view result ≡ send_in words.now }
{
    let (to, rest) = port_before(words)?;
    let from = port(rest)?;
    Some(Command::Send { to, from })
}

/// Reads the four numbers of `limits`.
fn limits_words(words: &[u8]) -> Option<Command<'_>>
    ensures { option_map command_view result ≡ limits_in words.now }
{
    let (ports, rest) = number_before(words, u32::MAX)?;
    let (lane, rest) = number_before(rest, u32::MAX)?;
    let (versions, rest) = number_before(rest, u32::MAX)?;
    let frames = number(rest, u32::MAX)?;
    Some(Command::Limits {
        ports,
        lane,
        versions,
        frames,
    })
}
