//! Making a board.

ghost use Rattle.std.specs.Prelude.{◌≡◌, [], false, IfOk, All, vec_len};
ghost use Rattle.std.specs.Arc.{arc_value};
ghost use Rattle.gw_board.specs.Ends.{new_operator, new_watch};

use crate::count::CountWriter;
use crate::history::{Prefix, open};
use crate::operator::Operator;
use crate::refusals::BoardRefusal;
use crate::shelf::Shelf;
use crate::watch::Watch;
use gw_ledger::Limits;
use std::alloc::{AllocError, Global};
use std::sync::Arc;

/// An operator, and a watch for each port, of one new board. All know the empty list.
pub fn board(alloc: Global, limits: Limits) -> Result<(Operator, Vec<Watch>), BoardRefusal>
    ensures operator { IfOk result (λ ends. ends.0 ≡ new_operator ends.0.board limits) }
    ensures watches { IfOk result (λ ends. (vec_len ends.1 ≡ limits.ports)
        × All (λ watch. watch ≡ new_watch ends.0.board) ends.1.items) }
{
    match ends(alloc, limits) {
        Ok(made) => Ok(made),
        Err(_) => Err(BoardRefusal::Unavailable),
    }
}

fn ends(alloc: Global, limits: Limits) -> Result<(Operator, Vec<Watch>), AllocError>
    ensures operator { IfOk result (λ ends. ends.0 ≡ new_operator ends.0.board limits) }
    ensures watches { IfOk result (λ ends. (vec_len ends.1 ≡ limits.ports)
        × All (λ watch. watch ≡ new_watch ends.0.board) ends.1.items) }
{
    let (word, nothing) = open();
    let shelf = Arc::new(alloc, Shelf::new(&word))?;
    let writer = CountWriter::new(alloc, limits.ports() as usize)?;
    let mut watches = Vec::new(alloc);
    for _ in 0..limits.ports() {
        watches.push(watch(&writer, &shelf, &nothing)?)?;
    }
    let operator = Operator::new(writer, shelf, word, nothing, limits);
    Ok((operator, watches))
}

fn watch(
    writer: &CountWriter,
    shelf: &Arc<Shelf, Global>,
    nothing: &Prefix,
) -> Result<Watch, AllocError>
    requires empty { nothing.now.batches ≡ [] }
    requires board { arc_value shelf.now ≡ nothing.now.board }
    ensures { IfOk result (λ watch. watch ≡ new_watch nothing.now.board) }
{
    let shelf = Arc::try_clone(shelf)?;
    Ok(Watch::new(writer.reader()?, shelf, nothing.again()))
}
