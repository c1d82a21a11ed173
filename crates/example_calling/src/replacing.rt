//! Policies that are replaced while frames flow.

ghost use Rattle.std.specs.Prelude.{◌≡◌, ◌≢◌, ◌++◌, ◌∷◌, [], ℕ, List, IfOk, IfErr, OnOk, map};
ghost use Rattle.j1939_gateway.specs.BoardRefusals.{MayPublish};
ghost use Rattle.j1939_gateway.specs.Holders.{HoldsAfter};
ghost use Rattle.j1939_gateway.specs.PortEnds.{end_in, end_out};
ghost use Rattle.j1939_gateway.specs.Making.{IsNewIngress};
ghost use Rattle.j1939_gateway.specs.MakeRefusal.{MakeRefusal};
ghost use Rattle.j1939_gateway.specs.OfferRefusal.TheVariants.{NoReading};
ghost use Rattle.example_calling.specs.declared.fault.Fault.TheVariants.{NotMade, NotTaken};
ghost use Rattle.example_calling.specs.Replacing.{
  bounds,
  operator_after,
  AreOutcomesAt,
  IsNew,
  IsNotPublished,
  IsReplaced,
  IsReplacingFault,
  TakesTold,
};

use crate::fault::Fault;
use j1939_gateway::{
    Batch, Frame, Limits, Operator, Outcome, Parts, PortIn, PortOut, Report, close, gateway,
};
use std::alloc::Global;
use std::sync::Wait;

/// What became of a frame before and after a replacement, and the gateway's report.
#[derive(Drop)]
pub struct Replaced {
    pub before: Outcome,
    pub after: Outcome,
    pub report: Report,
}

/// Offers a frame twice at port 0 of a new gateway of three ports: once the first batch is published, and again once the second
/// is. Then the copies are taken out, and the gateway is closed. It may wait.
pub fn replace_between<R: Wait>(
    rt: &R,
    alloc: Global,
    frame: Frame,
    first: Batch,
    second: Batch,
) -> Result<Replaced, Fault>
    ensures replaced { IfOk result (IsReplaced first second frame) }
    ensures refused { IfErr result (IsReplacingFault first second) }
{
    let mut parts = new_gateway(alloc)?;
    let outcomes = offer_around(
        rt,
        &mut parts.operator,
        &mut parts.ins[0],
        frame,
        first,
        second,
    )?;
    take_out(&mut parts.outs);
    match close(alloc, parts) {
        Ok(report) => Ok(Replaced {
            before: outcomes.0,
            after: outcomes.1,
            report,
        }),
        Err(why) => Err(Fault::NotClosed(why)),
    }
}

/// Three ports, and room for two copies in a lane, two batches and two frames at a port.
fn new_gateway(alloc: Global) -> Result<Parts, Fault>
    ensures made { IfOk result (λ parts. IsNew parts.operator parts.ins.items parts.outs.items) }
    ensures refused { IfErr result (λ fault. (why : MakeRefusal) × (fault ≡ NotMade why)) }
{
    let Ok(limits) = Limits::new(3, 2, 2, 2) else {
        unreachable!()
    };
    match gateway(alloc, limits) {
        Ok(parts) => Ok(parts),
        Err(why) => Err(Fault::NotMade(why)),
    }
}

/// What becomes of a frame that is offered once the first batch is published, and again once the second is.
fn offer_around<R: Wait>(
    rt: &R,
    operator: &mut Operator,
    port: &mut PortIn,
    frame: Frame,
    first: Batch,
    second: Batch,
) -> Result<(Outcome, Outcome), Fault>
    requires operator { operator.old ≡ operator_after operator.old.board [] }
    requires port { IsNewIngress bounds.ports bounds.frames bounds.lane 0 port.old }
    requires known { (port.old.board ≡ operator.old.board) × (port.old.known ≡ []) }
    ensures end { end_in port.new ≡ end_in port.old }
    ensures published { OnOk result (operator.new ≡ record operator.old { published = first ∷ second ∷ [] }) }
    ensures judged { IfOk result (λ outcomes. AreOutcomesAt first second frame outcomes.0 outcomes.1 port.new) }
    ensures refused { IfErr result (IsReplacingFault first second) }
{
    publish(rt, operator, first)?;
    let earlier = offer(operator, port, frame)?;
    publish(rt, operator, second)?;
    let later = offer(operator, port, frame)?;
    Ok((earlier, later))
}

/// Publishes a batch. It waits for ports that are reading, and no port waits for it.
pub fn publish<R: Wait>(rt: &R, operator: &mut Operator, batch: Batch) -> Result<(), Fault>
    ensures published { OnOk result (operator.new ≡ record operator.old { published = operator.old.published ++ batch ∷ [] }) }
    ensures may { OnOk result (MayPublish operator.old batch) }
    ensures refused { IfErr result (IsNotPublished operator.old batch) }
{
    match operator.replace(rt, batch) {
        Ok(_front) => Ok(()),
        Err(why) => Err(Fault::NotPublished(why)),
    }
}

/// Tells a port what is published, and offers it a frame.
fn offer(operator: &Operator, port: &mut PortIn, frame: Frame) -> Result<Outcome, Fault>
    requires board { port.old.board ≡ operator.now.board }
    requires room { port.old.ledger.taken ≢ port.old.frames }
    ensures end { end_in port.new ≡ end_in port.old }
    ensures taken { (heard : List (List ℕ)) → HoldsAfter port.old.claims heard
        → IfOk result (λ outcome. TakesTold operator.now.published heard port.old frame outcome port.new) }
    ensures refused { IfErr result (λ fault. fault ≡ NotTaken NoReading) }
{
    let told = operator.tell();
    port.learn(&told);
    match port.offer(frame) {
        Ok(outcome) => Ok(outcome),
        Err(why) => Err(Fault::NotTaken(why)),
    }
}

/// Takes out the copies that wait at each port.
fn take_out(outs: &mut [PortOut])
    ensures { map end_out outs.new ≡ map end_out outs.old }
{
    for port in 0..outs.len() {
        drain(&mut outs[port]);
    }
}

/// Takes out the copies that wait at a port. Here a gateway sends each on.
fn drain(port: &mut PortOut)
    ensures { end_out port.new ≡ end_out port.old }
{
    for _step in 0..u64::MAX {
        if port.next().is_none() {
            break;
        }
    }
}
