//! What an event answers, as a line.

ghost use Rattle.std.specs.Prelude.{◌≡◌};
ghost use Rattle.gw_replay.specs.Replies.{answer_line, ledger_line, outcome_line, copy_line};

use gw_core::Answer;
use gw_input::Line;
use gw_ledger::{FrameCopy, InLedger, Outcome};

/// The line of an answer.
pub fn answer_line(answer: &Answer) -> Line
    ensures { result ≡ answer_line answer.now }
{
    let line = Line::new();
    let line = match answer {
        Answer::Published { front } => line.text("published").number(u64::from(*front)),
        Answer::Taken {
            number,
            front,
            local,
        } => {
            let line = line
                .text("taken")
                .number(u64::from(*number))
                .number(u64::from(*front));
            line.text(if *local { " local" } else { "" })
        }
        Answer::Stepped => line.text("stepped"),
        Answer::Placed { to } => line.text("placed ").port(*to),
        Answer::Lost { to } => line.text("lost ").port(*to),
        Answer::Finished(outcome) => return outcome_line(outcome),
        Answer::Sent(copy) => return copy_line(copy),
        Answer::Empty => line.text("empty"),
    };
    line.text("\n")
}

/// The line of a finished frame.
fn outcome_line(outcome: &Outcome) -> Line
    ensures { result ≡ outcome_line outcome.now }
{
    Line::new()
        .text("finished")
        .number(u64::from(outcome.number))
        .number(u64::from(outcome.front))
        .text(" ")
        .ports(outcome.allowed)
        .text(" ")
        .ports(outcome.placed)
        .text("\n")
}

/// The line of a copy that was sent.
fn copy_line(copy: &FrameCopy) -> Line
    ensures { result ≡ copy_line copy.now }
{
    Line::new()
        .text("sent ")
        .port(copy.from)
        .number(u64::from(copy.number))
        .text(" ")
        .hex(&copy.frame)
        .text("\n")
}

/// The line of a port's ledger.
pub fn ledger_line(ledger: &InLedger) -> Line
    ensures { result ≡ ledger_line ledger.now }
{
    Line::new()
        .text("ledger")
        .number(ledger.taken)
        .number(ledger.local)
        .number(ledger.allowed)
        .number(ledger.placed)
        .number(ledger.lost)
        .text("\n")
}
