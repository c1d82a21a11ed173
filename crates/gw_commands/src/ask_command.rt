//! The command `ask`: what a table does to the frames of a question.

ghost use Rattle.std.specs.Prelude.{IfOk, IfErr};
ghost use Rattle.gw_answers.specs.Texts.{RefusesText};
ghost use Rattle.gw_commands.specs.Questions.{AnswersAsk, TellsAnswer};

use crate::answer_lines::table_answer_text;
use crate::stated::StatedTable;
use gw_answers::{Answer, Refusal};
use gw_table::Question;
use std::alloc::{AllocError, Global};

/// What a text's table does to the frames that are asked for. The text is refused as by the command `table`.
pub fn ask(alloc: Global, question: &Question, input: &[u8]) -> Result<Answer, Refusal>
    ensures answered { IfOk result (AnswersAsk question.now input.now) }
    ensures refused { IfErr result (RefusesText input.now) }
{
    let stated = match StatedTable::read(alloc, input) {
        Ok(stated) => stated,
        Err(refusal) => return Err(refusal),
    };
    match told_answer(alloc, &stated, question) {
        Ok(text) => Ok(Answer::Text(text)),
        Err(AllocError) => Err(Refusal::OutOfMemory),
    }
}

/// The text of a table's answer.
fn told_answer(
    alloc: Global,
    stated: &StatedTable,
    question: &Question,
) -> Result<Vec<u8>, AllocError>
    ensures { IfOk result (λ text. TellsAnswer stated.now question.now text.items) }
{
    let answer = stated.table.answers(alloc, question)?;
    table_answer_text(alloc, stated, &answer)
}
