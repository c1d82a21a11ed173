//! A trace that comes in pieces.

ghost use Rattle.std.specs.Prelude.{◌≡◌, ◌≢◌, ◌<◌, ℕ, List, [], ◌++◌, length, Err, IfOk, IfErr, OnOk};
ghost use Rattle.std.specs.Result.{result_err};
ghost use Rattle.gw_trace.specs.declared.refusal.TraceRefusal.TheVariants.{OutOfMemory};
ghost use Rattle.gw_trace.specs.Traces.{beginning, ending, reading};
ghost use Rattle.gw_trace.specs.declared.record.Beginning.TheVariants.{Unfinished};
ghost use Rattle.gw_trace.specs.Progress.{HasRead, Gives, IsRefused, fault_in, in_header, in_records, at_fault, read_on};
ghost use Rattle.gw_trace.specs.DecodedPieces.{IsDecoded};

use crate::byte_order::Endian;
use crate::decoded_piece;
use crate::decoded_piece::DecodedPiece;
use crate::partial::Partial;
use crate::refusal::TraceRefusal;
use crate::stage::Stage;
use gw_frame::Frame;
use std::alloc::{AllocError, Global};
use std::marker::Model;

/// A trace that is read in pieces, as they come. It keeps at most the front of one header or record.
#[derive(Drop)]
pub struct Trace {
    pub(crate) stage: Stage,
    pub(crate) partial: Partial,
    /// How many frames were given, up to 18446744073709551615.
    pub(crate) given: usize,
}

impl Model for Trace {
    ghost use Rattle.gw_trace.specs.Progress.{Progress, IsKept};

    ghost Value = { Progress };

    ghost view = { λ t. record { stage = t.stage; rest = t.partial; given = t.given } };

    ghost invariant = { λ t. IsKept t.stage t.partial t.given };
}

impl Trace {
    /// A trace of which nothing was read.
    pub fn new() -> Self
        ensures { HasRead result [] }
    {
        Trace::beginning(Partial::new())
    }

    /// Reads the next piece, and returns the frames that become whole with it. A fault, 90 to 93, is returned at once where no
    /// frame stands before it in the piece. Else the next call returns it. Each call after that returns it again. 94, no
    /// memory, leaves the trace as it was.
    pub fn feed(&mut self, alloc: Global, piece: &[u8]) -> Result<Vec<Frame>, TraceRefusal>
        ensures frames { (octets : List ℕ) → HasRead self.old octets →
            IfOk result (λ frames. Gives octets piece.now frames.items) }
        ensures refused { (octets : List ℕ) → HasRead self.old octets →
            IfErr result (λ e. e ≢ OutOfMemory → IsRefused octets piece.now e) }
        ensures read { (octets : List ℕ) → HasRead self.old octets →
            result ≢ Err OutOfMemory → HasRead self.new (octets ++ piece.now) }
        ensures unchanged { (octets : List ℕ) → HasRead self.old octets →
            result ≡ Err OutOfMemory → self.new ≡ self.old }
    {
        let decoded = self.read_on(piece);
        match decoded.refusal() {
            Some(fault) => {
                *self = decoded.next;
                Err(fault)
            }
            None => {
                let Ok(mut frames) = Vec::with_capacity(alloc, decoded.len()) else {
                    return Err(TraceRefusal::OutOfMemory);
                };
                *self = decoded.give(&mut frames);
                Ok(frames)
            }
        }
    }

    /// Tells what is wrong with a trace that ends here: the fault that was met, or 95 inside its header or a record.
    pub fn end(&self) -> Result<(), TraceRefusal>
        ensures { (octets : List ℕ) → HasRead self.now octets →
            result_err result ≡ ending (reading octets).stage (reading octets).rest }
    {
        match self.stage {
            Stage::Header => Err(TraceRefusal::Cut),
            Stage::Failed(fault) => Err(fault),
            Stage::Records(_) => {
                if self.partial.octets().is_empty() {
                    Ok(())
                } else {
                    Err(TraceRefusal::Cut)
                }
            }
        }
    }

    // Reads the next piece, and appends the frames that become whole with it. A fault is left for `end` to tell.
    pub(crate) fn feed_to(
        &mut self,
        frames: &mut Vec<Frame>,
        piece: &[u8],
    ) -> Result<(), AllocError>
        ensures frames { (octets : List ℕ) → HasRead self.old octets → frames.old.items ≡ (reading octets).frames →
            OnOk result (frames.new.items ≡ (reading (octets ++ piece.now)).frames) }
        ensures read { (octets : List ℕ) → HasRead self.old octets →
            OnOk result (HasRead self.new (octets ++ piece.now)) }
    {
        let decoded = self.read_on(piece);
        frames.reserve(decoded.len())?;
        *self = decoded.give(frames);
        Ok(())
    }

    // Decodes the next piece.
    fn read_on<'a>(&self, piece: &'a [u8]) -> DecodedPiece<'a>
        ensures { IsDecoded result self.now.given (read_on self.now piece.now) }
    {
        match self.stage {
            Stage::Header => decoded_piece::decode_header(&self.partial, piece),
            Stage::Records(order) => decoded_piece::decode_records(
                order,
                self.given,
                &self.partial,
                piece,
            ),
            Stage::Failed(fault) => DecodedPiece::nothing(Trace::failed(fault, self.given)),
        }
    }

    // Returns the fault that was met.
    pub(crate) fn fault(&self) -> Option<TraceRefusal>
        ensures { result ≡ fault_in self.now.stage }
    {
        match self.stage {
            Stage::Failed(fault) => Some(fault),
            Stage::Header | Stage::Records(_) => None,
        }
    }

    // A trace within its header.
    pub(crate) fn beginning(partial: Partial) -> Trace
        requires { length partial < 24 }
        ensures { result ≡ in_header partial }
    {
        Trace {
            stage: Stage::Header,
            partial,
            given: 0,
        }
    }

    // A trace behind its header, with the front of a record.
    pub(crate) fn among(order: Endian, partial: Partial, given: usize) -> Trace
        requires { beginning order partial ≡ Unfinished }
        ensures { result ≡ in_records order partial given }
    {
        Trace {
            stage: Stage::Records(order),
            partial,
            given,
        }
    }

    // A trace that met a fault.
    pub(crate) fn failed(fault: TraceRefusal, given: usize) -> Trace
        ensures { result ≡ at_fault fault given }
    {
        Trace {
            stage: Stage::Failed(fault),
            partial: Partial::new(),
            given,
        }
    }
}
