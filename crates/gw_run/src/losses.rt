//! How many copies of a port's frames were lost, counted for each egress port while a run hands over their outcomes.

ghost use Rattle.std.specs.Prelude.{◌≡◌, ◌<◌, ◌-◌, ◌^◌, ◌++◌, ℕ, List, [], ◌∷◌, length, slice_index_or, All, IfOk, vec_len};
ghost use Rattle.gw_ledger.specs.declared.outcome.Outcome.{Outcome};
ghost use Rattle.gw_run.specs.declared.losses.Loss.{Loss};
ghost use Rattle.gw_run.specs.Tallies.{AreLosses, IsLoss, losses_to};

use gw_ledger::Outcome;
use gw_ports::Sink;
use std::alloc::{AllocError, Global};

/// How many copies were lost on the way to an egress port.
#[derive(Clone, Copy)]
pub(crate) struct Loss {
    to: u8,
    copies: u64,
}

impl Loss {
    /// Counts what became of a frame.
    fn add(&mut self, outcome: &Outcome)
        ensures { (to : ℕ) (outcomes : List Outcome) → length outcomes < 2 ^ 64 - 1 → IsLoss to outcomes self.old
            → IsLoss to (outcomes ++ outcome.now ∷ []) self.new }
    {
        let is_lost = outcome.allowed.has(self.to) && !outcome.placed.has(self.to);
        self.copies = self.copies.wrapping_add(u64::from(is_lost));
    }
}

/// How many copies of a port's frames were lost, by egress port. It is handed the outcomes of these frames.
#[derive(Drop)]
pub(crate) struct Losses {
    /// How many frames it counts.
    frames: u64,
    ports: Vec<Loss>,
}

impl Losses {
    /// Those of no frame, for so many egress ports.
    fn new(alloc: Global, ports: u8) -> Result<Losses, AllocError>
        ensures { IfOk result (AreLosses ports []) }
    {
        let mut losses = Vec::with_capacity(alloc, usize::from(ports))?;
        for to in 0..ports {
            losses.push_reserved(Loss { to, copies: 0 });
        }
        Ok(Losses {
            frames: 0,
            ports: losses,
        })
    }

    /// How many copies were lost on the way to an egress port.
    pub fn to(&self, to: u8) -> u64
        ensures { result ≡ losses_to to self.now }
    {
        match self.ports.get(usize::from(to)) {
            Some(loss) => loss.copies,
            None => 0,
        }
    }
}

impl Sink<Outcome> for Losses {
    ghost use Rattle.gw_run.specs.Tallies.{CountsOutcome, room_of};

    ghost takes = { CountsOutcome };

    ghost room = { room_of };

    fn has_room_for(&self, items: usize) -> bool {
        items as u64 <= u64::MAX - self.frames
    }

    // A frame that lost no copy costs one comparison of two sets of ports.
    fn take(&mut self, outcome: Outcome) {
        self.frames += 1;
        if outcome.placed != outcome.allowed {
            add_to_ports(&mut self.ports, &outcome);
        }
    }
}

/// Counts what became of a frame at each egress port.
fn add_to_ports(losses: &mut [Loss], outcome: &Outcome)
    ensures { (outcomes : List Outcome) → length outcomes < 2 ^ 64 - 1
        → ((to : ℕ) (d : Loss) → to < length losses.old → IsLoss to outcomes (slice_index_or losses.old to d))
        → (to : ℕ) (d : Loss) → to < length losses.old
        → IsLoss to (outcomes ++ outcome.now ∷ []) (slice_index_or losses.new to d) }
{
    for loss in losses.iter_mut() {
        loss.add(outcome);
    }
}

/// The losses of each of so many ports, before the first frame.
pub(crate) fn no_losses(alloc: Global, ports: u8) -> Result<Vec<Losses>, AllocError>
    ensures count { IfOk result (λ made. vec_len made ≡ ports) }
    ensures empty { IfOk result (λ made. All (AreLosses ports []) made.items) }
{
    let mut made = Vec::with_capacity(alloc, usize::from(ports))?;
    for _from in 0..ports {
        made.push_reserved(Losses::new(alloc, ports)?);
    }
    Ok(made)
}
