//! Closing a gateway: what its ports counted, and what is left on its lanes.

ghost use Rattle.std.specs.Prelude.{◌≡◌, ◌+◌, ◌<◌, ◌≤◌, ℕ, [], length, map, slice_index_or, vec_capacity, IfOk, IfErr, OnOk, All};
ghost use mathlib.Core.List.{IsPrefix};
ghost use Rattle.gw_ports.specs.Ends.{Ingress, IsSoundIngress, IsSoundEgress};
ghost use Rattle.gw_ports.specs.Making.{AreOfOneGateway};
ghost use Rattle.gw_ports.specs.Closing.{
  AreRooms,
  Closes,
  HandsBack,
  KnowsMore,
  Match,
  columns_of,
  lanes_of,
  rows_of,
};

use crate::{Parts, PortIn, PortOut};
use finish::{finish_all, take_columns};
use gw_board::{NoReading, Operator, Told};
use gw_lanes::LaneOut;
use gw_ledger::{FrameCopy, InLedger, OutLedger};
use room::rooms;
use std::alloc::{AllocError, Global};
use std::error::Error;
use std::fmt;
use std::fmt::{Debug, Display, Formatter};
use std::vec::IntoIter;

mod finish;
mod room;

/// The copies that wait on a lane, oldest first.
#[derive(Drop)]
pub struct LaneLeft {
    pub from: u8,
    pub to: u8,
    pub left: Vec<FrameCopy>,
}

/// What a gateway was at its end.
#[derive(Drop)]
pub struct Report {
    /// By port.
    pub ins: Vec<InLedger>,
    /// By port.
    pub outs: Vec<OutLedger>,
    /// By ingress port and then egress port.
    pub lanes: Vec<LaneLeft>,
    /// How many batches were published.
    pub front: u32,
}

/// Why a gateway was not closed. Its parts come back.
#[derive(Drop)]
pub enum CloseRefusal {
    /// 85: the memory for the report was refused, and nothing has changed.
    OutOfMemory(Parts),
    /// 77: the policies in force could not be read. Ports in may know more than before.
    NoReading(Parts),
}

impl CloseRefusal {
    ghost use Rattle.gw_ports.specs.Closing.{close_refusal_number};

    /// The number by which the refusal is known outside: 77 or 85.
    pub fn number(&self) -> u32
        ensures { result ≡ close_refusal_number self.now }
    {
        match self {
            CloseRefusal::OutOfMemory(_) => 85,
            CloseRefusal::NoReading(_) => 77,
        }
    }
}

impl Display for CloseRefusal {
    fn fmt<W: fmt::Write>(&self, f: &mut Formatter<W>) -> fmt::Result {
        f.write_str(match self {
            CloseRefusal::OutOfMemory(_) => "no memory for the report: close the gateway again",
            CloseRefusal::NoReading(_) => {
                "the policies in force could not be read: close the gateway again"
            }
        })
    }
}

// The parts have no text of their own.
impl Debug for CloseRefusal {
    fn fmt<W: fmt::Write>(&self, f: &mut Formatter<W>) -> fmt::Result {
        Display::fmt(self, f)
    }
}

impl Error for CloseRefusal {}

/// Closes a gateway. It takes its memory first. Then each ingress port advances to the operator's policy version, and reads once
/// more. It waits for nobody, so the operator is dropped and not ended: a few blocks of its memory stay (`gw_board::Operator`).
pub fn close(alloc: Global, parts: Parts) -> Result<Report, CloseRefusal>
    requires { AreOfOneGateway parts.operator parts.ins.items parts.outs.items }
    ensures closed { IfOk result (Closes parts.operator parts.ins.items parts.outs.items) }
    ensures back { IfErr result (HandsBack parts) }
{
    match close_ends(alloc, parts) {
        Ok((report, _operator)) => Ok(report),
        Err(why) => Err(why),
    }
}

// Closes a gateway as `close` does, and hands the operator back, for a caller that may wait for its end.
pub(crate) fn close_ends(alloc: Global, parts: Parts) -> Result<(Report, Operator), CloseRefusal>
    requires { AreOfOneGateway parts.operator parts.ins.items parts.outs.items }
    ensures closed { IfOk result (λ closed. Closes parts.operator parts.ins.items parts.outs.items closed.0) }
    ensures back { IfErr result (HandsBack parts) }
{
    let Parts {
        operator,
        mut ins,
        mut outs,
    } = parts;
    let Ok(prepared) = prepare(alloc, &mut ins, &mut outs) else {
        return Err(CloseRefusal::OutOfMemory(Parts {
            operator,
            ins,
            outs,
        }));
    };
    let told = operator.tell();
    let Ok(()) = settle_all(&mut ins, &told) else {
        return Err(CloseRefusal::NoReading(Parts {
            operator,
            ins,
            outs,
        }));
    };
    let columns = take_columns(outs, prepared.columns);
    let report = Report {
        ins: prepared.ins,
        outs: prepared.outs,
        lanes: finish_all(ins, columns, prepared.rooms, prepared.lanes),
        front: told.len() as u32,
    };
    Ok((report, operator))
}

// All the memory that a close takes.
#[derive(Drop)]
struct Prepared {
    ins: Vec<InLedger>,
    outs: Vec<OutLedger>,
    // For each lane, room for the copies that wait on it.
    rooms: Vec<LaneLeft>,
    // Empty, with room for as many.
    lanes: Vec<LaneLeft>,
    // Empty, with room for the lanes of each port out.
    columns: Vec<IntoIter<Option<LaneOut>>>,
}

fn prepare(alloc: Global, ins: &mut [PortIn], outs: &mut [PortOut]) -> Result<Prepared, AllocError>
    requires few { (length ins.old ≤ 16) × (length outs.old ≤ 16) }
    requires lanes { Match (rows_of ins.old) (columns_of outs.old) }
    ensures same { (ins.new ≡ ins.old) × (outs.new ≡ outs.old) }
    ensures ins { IfOk result (λ p. (p.ins.items ≡ map (λ ingress. ingress.ledger) ins.old) × All IsSoundIngress ins.old) }
    ensures outs { IfOk result (λ p. (p.outs.items ≡ map (λ egress. egress.ledger) outs.old) × All IsSoundEgress outs.old) }
    ensures rooms { IfOk result (λ p. AreRooms (lanes_of 0 (rows_of ins.old) (columns_of outs.old)) p.rooms.items) }
    ensures empty { IfOk result (λ p. (p.lanes.items ≡ []) × (p.columns.items ≡ [])) }
    ensures enough { IfOk result (λ p. (length p.rooms.items ≤ vec_capacity p.lanes)
        × (length outs.old ≤ vec_capacity p.columns)) }
{
    let in_ledgers = ledgers_in(alloc, ins)?;
    let out_ledgers = ledgers_out(alloc, outs)?;
    let rooms = rooms(alloc, ins, outs)?;
    let lanes = Vec::with_capacity(alloc, rooms.len())?;
    let columns = Vec::with_capacity(alloc, outs.len())?;
    Ok(Prepared {
        ins: in_ledgers,
        outs: out_ledgers,
        rooms,
        lanes,
        columns,
    })
}

fn ledgers_in(alloc: Global, ins: &[PortIn]) -> Result<Vec<InLedger>, AllocError>
    ensures ledgers { IfOk result (λ ledgers. ledgers.items ≡ map (λ ingress. ingress.ledger) ins.now) }
    ensures sound { OnOk result (All IsSoundIngress ins.now) }
{
    let mut ledgers = Vec::new(alloc);
    for port in ins {
        ledgers.push(*port.ledger())?;
    }
    Ok(ledgers)
}

fn ledgers_out(alloc: Global, outs: &[PortOut]) -> Result<Vec<OutLedger>, AllocError>
    ensures ledgers { IfOk result (λ ledgers. ledgers.items ≡ map (λ egress. egress.ledger) outs.now) }
    ensures sound { OnOk result (All IsSoundEgress outs.now) }
{
    let mut ledgers = Vec::new(alloc);
    for port in outs {
        ledgers.push(*port.ledger())?;
    }
    Ok(ledgers)
}

// Advances each port to the operator's policy version. Refused, some may have advanced.
fn settle_all(ins: &mut [PortIn], told: &Told) -> Result<(), NoReading>
    requires { (k : ℕ) (d : Ingress) → k < length ins.old → (slice_index_or ins.old k d).board ≡ told.now.board }
    ensures size { length ins.new ≡ length ins.old }
    ensures settled { OnOk result ((k : ℕ) (d : Ingress) → k < length ins.old
        → (slice_index_or ins.new k d ≡ record (slice_index_or ins.old k d) { known = told.now.batches })
        × IsPrefix (slice_index_or ins.old k d).known told.now.batches) }
    ensures more { (k : ℕ) (d : Ingress) → k < length ins.old
        → KnowsMore (slice_index_or ins.old k d) (slice_index_or ins.new k d) }
{
    for index in 0..ins.len() {
        ins[index].settle(told)?;
    }
    Ok(())
}
