//! A script's state, and what each line does to it.

ghost use Rattle.std.specs.Prelude.{◌≡◌, IfOk, IfErr};
ghost use Rattle.gw_replay.specs.Commands.{command_view, meaning_view};
ghost use Rattle.gw_replay.specs.Scripts.{is_ascii, meaning_of};
ghost use Rattle.gw_replay.specs.Standing.{Begins, IsFirstFault};

use crate::command::{Command, command_of};
use crate::fault::Fault;
use crate::session::Session;
use gw_input::{Line, MAX_INPUT};
use std::alloc::{AllocError, Global};

/// What a line says by itself.
#[derive(Drop)]
pub enum Meaning<'a> {
    /// An empty line or a comment.
    Silent,
    /// A line that is no command.
    Wrong(Fault),
    Asks(Command<'a>),
}

/// What a line says by itself.
pub fn meaning_of(line: &[u8]) -> Meaning<'_>
    ensures { meaning_view result ≡ meaning_of line.now }
{
    if line.is_empty() || line[0] == b'#' {
        return Meaning::Silent;
    }
    if line.len() > MAX_INPUT {
        return Meaning::Wrong(Fault::LongLine);
    }
    if !is_ascii(line) {
        return Meaning::Wrong(Fault::NoAscii);
    }
    match command_of(line) {
        Some(command) => Meaning::Asks(command),
        None => Meaning::Wrong(Fault::NoCommand),
    }
}

/// Whether no octet is above 127.
fn is_ascii(line: &[u8]) -> bool
    ensures { result ≡ is_ascii line.now }
{
    line.iter().all(|c| *c < 128)
}

/// What a line is answered.
#[derive(Drop)]
pub enum Said {
    Nothing,
    Line(Line),
    Refused(Fault),
}

/// What the lines of a script have made so far: a gateway, once limits were accepted.
#[derive(Drop)]
pub struct Script {
    pub session: Option<Session>,
}

impl Script {
    ghost use Rattle.std.specs.Prelude.{Option, None};
    ghost use Rattle.gw_replay.specs.Faults.{UnlessMemory};
    ghost use Rattle.gw_replay.specs.Replies.{SessionState};
    ghost use Rattle.gw_replay.specs.Said.{said_text, is_refusal};
    ghost use Rattle.gw_replay.specs.Standing.{StandsIn, IsObeyed, IsAnswered};

    /// Starts before the first line.
    pub fn new() -> Script
        ensures { result.session ≡ None }
    {
        Script { session: None }
    }

    /// Answers a line. It fails only where the memory that the line needs was refused.
    pub fn answer(&mut self, alloc: Global, line: &[u8]) -> Result<Said, AllocError>
        ensures { (s : Option SessionState) → StandsIn self.old.session s
            → IfOk result (λ said. IsAnswered s line.now (said_text said) (is_refusal said) self.new.session) }
    {
        let asked = match meaning_of(line) {
            Meaning::Silent => return Ok(Said::Nothing),
            Meaning::Wrong(fault) => return Ok(Said::Refused(fault)),
            Meaning::Asks(command) => command,
        };
        match self.obey(alloc, asked) {
            Ok(line) => Ok(Said::Line(line)),
            Err(Fault::OutOfMemory) => Err(AllocError),
            Err(fault) => Ok(Said::Refused(fault)),
        }
    }

    fn obey(&mut self, alloc: Global, asked: Command<'_>) -> Result<Line, Fault>
        ensures { (s : Option SessionState) → StandsIn self.old.session s
            → UnlessMemory result (λ said. IsObeyed s (command_view asked.entry) said self.new.session) }
    {
        match &mut self.session {
            Some(session) => session.obey(alloc, asked),
            None => {
                self.session = Some(begin(alloc, asked)?);
                Ok(Line::new().text("limits\n"))
            }
        }
    }
}

/// Makes the gateway by the command `limits`. No other command is accepted before.
fn begin(alloc: Global, asked: Command<'_>) -> Result<Session, Fault>
    ensures made { IfOk result (Begins (command_view asked.entry)) }
    ensures refused { IfErr result (IsFirstFault (command_view asked.entry)) }
{
    match asked {
        Command::Limits {
            ports,
            lane,
            versions,
            frames,
        } => Session::new(alloc, ports, lane, versions, frames),
        _ => Err(Fault::NoLimits),
    }
}
