//! What leaves at the interfaces of a gateway, line by line.

ghost use Rattle.std.specs.Prelude.{◌≡◌, ◌<◌, ◌≤◌, ◌++◌, ◌∷◌, ◌==◌, [], ℕ, List, codes, false, if◌then◌else◌, Ok, Some, OnOk};
ghost use Rattle.gw_io.specs.Tries.{inner_of, has_failed};
ghost use Rattle.gw_log.specs.LogLines.{line_of};
ghost use Rattle.gw_log.specs.LogTexts.{text_of};
ghost use Rattle.gw_policy.specs.Batches.{Pair, StandsAfter};
ghost use Rattle.gw_judge.specs.Interfaces.{port_named, taken};
ghost use Rattle.gw_judge.specs.Egress.{
  untimed_line,
  word_text,
  egress_line,
  egress_lines,
  heard_at,
  lines_at,
  reading_lines,
  taken_lines,
};
ghost use Rattle.gw_judge.specs.UnderWay.{Puts};
ghost use Rattle.gw_judge.specs.EgressUnderWay.{HearPorts, lines_below, set_passes};

use crate::fault::JudgeFault;
use crate::gateway::Gateway;
use crate::gathered::Gathered;
use crate::interfaces::{NamedInterface, port_named};
use crate::kept::{MAX_KEPT, ends_line, keep};
use crate::line_notes::LineNotes;
use arrayvec::ArrayVec;
use gw_claims::Claims;
use gw_frame::Frame;
use gw_io::Tried;
use gw_ledger::MAX_PORTS;
use gw_log::{LogLine, frame_text, read_line};
use gw_policy::PolicySet;
use std::array;
use std::io::Write;

/// Writes what leaves of each line as soon as its last part comes.
#[derive(Drop)]
pub struct Egress {
    // the line that is unfinished, or its beginning where it is too long
    pub kept: ArrayVec<u8, MAX_KEPT>,
    pub gathered: Gathered,
    // by port
    pub claims: [Claims; MAX_PORTS],
}

impl Egress {
    ghost use Rattle.gw_judge.specs.LineParts.{IsLinePart};
    ghost use Rattle.gw_judge.specs.EgressUnderWay.{HasEgress, ReachesEgress, EndsEgress};

    /// Starts before the first octet.
    pub fn new() -> Egress
        ensures kept { result.kept.items ≡ [] }
        ensures gathered { result.gathered.held.items ≡ [] }
        ensures unheard { HearPorts result.claims (λ port. []) }
    {
        Egress {
            kept: ArrayVec::new(),
            gathered: Gathered::new(),
            claims: array::from_fn(|_| Claims::new()),
        }
    }

    /// Takes a part of a line. Where a line feed ends it, what leaves of the line is put.
    pub fn take<N: LineNotes, W: Write>(
        &mut self,
        gateway: &Gateway,
        part: &[u8],
        notes: &mut N,
        writer: &mut Tried<W>,
    ) -> Result<(), JudgeFault>
        requires writer { has_failed writer.old ≡ false }
        requires part { IsLinePart part.now }
        ensures taken { (batches : List (List Pair)) (octets text : List ℕ) → StandsAfter gateway.now.policies.now batches
            → HasEgress gateway.now.names.now batches octets self.old text
            → ReachesEgress gateway.now.names.now batches (octets ++ part.now) text
            (W.contents (inner_of writer.old)) (W.contents (inner_of writer.new)) (has_failed writer.new) result self.new }
        ensures whole { OnOk result (has_failed writer.new ≡ false) }
    {
        keep(&mut self.kept, part);
        if !ends_line(part) {
            return Ok(());
        }
        let put = self.put_kept(gateway, notes, writer);
        self.kept.clear();
        put
    }

    /// Writes what is held where all that was read is taken.
    pub fn write_out<W: Write>(
        &mut self,
        used_up: bool,
        writer: &mut Tried<W>,
    ) -> Result<(), JudgeFault>
        requires writer { has_failed writer.old ≡ false }
        ensures reached { (names : List NamedInterface) (batches : List (List Pair)) (octets text : List ℕ)
            → HasEgress names batches octets self.old text
            → ReachesEgress names batches octets text
            (W.contents (inner_of writer.old)) (W.contents (inner_of writer.new)) (has_failed writer.new) result self.new }
        ensures whole { OnOk result (has_failed writer.new ≡ false) }
    {
        if used_up {
            self.gathered.flush(writer)
        } else {
            Ok(())
        }
    }

    /// Puts what leaves of the last line, which no line feed ended, and writes all that is held.
    pub fn end<N: LineNotes, W: Write>(
        mut self,
        gateway: &Gateway,
        notes: &mut N,
        writer: &mut Tried<W>,
    ) -> Result<(), JudgeFault>
        requires { has_failed writer.old ≡ false }
        ensures ended { (batches : List (List Pair)) (octets text : List ℕ) → StandsAfter gateway.now.policies.now batches
            → HasEgress gateway.now.names.now batches octets self text
            → EndsEgress gateway.now.names.now batches octets text
            (W.contents (inner_of writer.old)) (W.contents (inner_of writer.new)) (has_failed writer.new) result }
        ensures whole { OnOk result (has_failed writer.new ≡ false) }
    {
        if self.kept.is_empty() {
            return self.gathered.flush(writer);
        }
        self.put_kept(gateway, notes, writer)?;
        self.gathered.flush(writer)
    }

    /// Puts what leaves of the line that is kept.
    fn put_kept<N: LineNotes, W: Write>(
        &mut self,
        gateway: &Gateway,
        notes: &mut N,
        writer: &mut Tried<W>,
    ) -> Result<(), JudgeFault>
        requires { has_failed writer.old ≡ false }
        ensures put { (batches : List (List Pair)) (lines : List (List ℕ)) → StandsAfter gateway.now.policies.now batches
            → HearPorts self.old.claims (heard_at gateway.now.names.now lines)
            → Puts (W.contents (inner_of writer.old)) (W.contents (inner_of writer.new)) (has_failed writer.new)
            self.old.gathered.held.items
            (reading_lines gateway.now.names.now batches lines (line_of self.old.kept.items))
            result self.new.gathered.held.items }
        ensures heard { (lines : List (List ℕ)) → HearPorts self.old.claims (heard_at gateway.now.names.now lines)
            → HearPorts self.new.claims (heard_at gateway.now.names.now (self.old.kept.items ∷ lines)) }
        ensures whole { OnOk result (has_failed writer.new ≡ false) }
    {
        let line = self.kept.as_slice();
        put_line(
            gateway,
            line,
            &mut self.claims,
            &mut self.gathered,
            notes,
            writer,
        )
    }
}

/// Puts what leaves of a line.
fn put_line<N: LineNotes, W: Write>(
    gateway: &Gateway,
    line: &[u8],
    claims: &mut [Claims; MAX_PORTS],
    gathered: &mut Gathered,
    notes: &mut N,
    writer: &mut Tried<W>,
) -> Result<(), JudgeFault>
    requires { has_failed writer.old ≡ false }
    ensures put { (batches : List (List Pair)) (lines : List (List ℕ)) → StandsAfter gateway.now.policies.now batches
        → HearPorts claims.old (heard_at gateway.now.names.now lines)
        → Puts (W.contents (inner_of writer.old)) (W.contents (inner_of writer.new)) (has_failed writer.new)
        gathered.old.held.items (reading_lines gateway.now.names.now batches lines (line_of line.now))
        result gathered.new.held.items }
    ensures heard { (heard : ℕ → List (List ℕ)) → HearPorts claims.old heard
        → HearPorts claims.new (λ port. taken (port_named gateway.now.names.now) port (line_of line.now) ++ heard port) }
    ensures whole { OnOk result (has_failed writer.new ≡ false) }
{
    notes.see_line();
    match read_line(line) {
        Ok(Some(said)) => put_said(gateway, &said, claims, gathered, notes, writer),
        Ok(None) => Ok(()),
        Err(why) => {
            notes.see_refused(why);
            Ok(())
        }
    }
}

/// Puts what leaves of what a line says.
fn put_said<N: LineNotes, W: Write>(
    gateway: &Gateway,
    said: &LogLine,
    claims: &mut [Claims; MAX_PORTS],
    gathered: &mut Gathered,
    notes: &mut N,
    writer: &mut Tried<W>,
) -> Result<(), JudgeFault>
    requires { has_failed writer.old ≡ false }
    ensures put { (batches : List (List Pair)) (lines : List (List ℕ)) → StandsAfter gateway.now.policies.now batches
        → HearPorts claims.old (heard_at gateway.now.names.now lines)
        → Puts (W.contents (inner_of writer.old)) (W.contents (inner_of writer.new)) (has_failed writer.new)
        gathered.old.held.items
        (taken_lines gateway.now.names.now batches lines said.now (port_named gateway.now.names.now said.now.interface))
        result gathered.new.held.items }
    ensures heard { (heard : ℕ → List (List ℕ)) → HearPorts claims.old heard
        → HearPorts claims.new (λ port. taken (port_named gateway.now.names.now) port (Ok (Some said.now)) ++ heard port) }
    ensures whole { OnOk result (has_failed writer.new ≡ false) }
{
    match port_named(gateway.names, said.interface()) {
        Some(ingress) if usize::from(ingress) < MAX_PORTS => {
            put_taken(gateway, said, ingress, claims, gathered, writer)
        }
        _ => {
            notes.see_untaken(said.interface());
            Ok(())
        }
    }
}

/// Puts what leaves of a frame that is taken at a port. It is heard there then.
fn put_taken<W: Write>(
    gateway: &Gateway,
    said: &LogLine,
    ingress: u8,
    claims: &mut [Claims; MAX_PORTS],
    gathered: &mut Gathered,
    writer: &mut Tried<W>,
) -> Result<(), JudgeFault>
    requires writer { has_failed writer.old ≡ false }
    requires ingress { ingress < 16 }
    ensures put { (batches : List (List Pair)) (lines : List (List ℕ)) → StandsAfter gateway.now.policies.now batches
        → HearPorts claims.old (heard_at gateway.now.names.now lines)
        → Puts (W.contents (inner_of writer.old)) (W.contents (inner_of writer.new)) (has_failed writer.new)
        gathered.old.held.items (egress_lines gateway.now.names.now batches lines said.now ingress)
        result gathered.new.held.items }
    ensures heard { (heard : ℕ → List (List ℕ)) → HearPorts claims.old heard
        → HearPorts claims.new (λ port. (if ingress == port then said.now.octets ∷ [] else []) ++ heard port) }
    ensures whole { OnOk result (has_failed writer.new ≡ false) }
{
    let segment = &mut claims[usize::from(ingress)];
    let local = segment.is_local(said.frame());
    segment.hear(said.frame());
    if local {
        return Ok(());
    }
    put_allowed(gateway, said, ingress, gathered, writer)
}

/// Puts the lines of a frame at the ports to which it is allowed, in ascending order.
fn put_allowed<W: Write>(
    gateway: &Gateway,
    said: &LogLine,
    ingress: u8,
    gathered: &mut Gathered,
    writer: &mut Tried<W>,
) -> Result<(), JudgeFault>
    requires { has_failed writer.old ≡ false }
    ensures { Puts (W.contents (inner_of writer.old)) (W.contents (inner_of writer.new)) (has_failed writer.new)
        gathered.old.held.items (lines_below gateway.now.names.now gateway.now.policies.now said.now ingress 16)
        result gathered.new.held.items }
{
    for port in 0..MAX_PORTS as u8 {
        put_port(gateway, said, ingress, port, gathered, writer)?;
    }
    Ok(())
}

/// Puts the lines of a frame at a port, if it may leave there.
fn put_port<W: Write>(
    gateway: &Gateway,
    said: &LogLine,
    ingress: u8,
    port: u8,
    gathered: &mut Gathered,
    writer: &mut Tried<W>,
) -> Result<(), JudgeFault>
    requires { has_failed writer.old ≡ false }
    ensures { Puts (W.contents (inner_of writer.old)) (W.contents (inner_of writer.new)) (has_failed writer.new)
        gathered.old.held.items
        (if set_passes gateway.now.policies.now ingress said.now.octets port
        then lines_at gateway.now.names.now said.now port else [])
        result gathered.new.held.items }
{
    if may_leave(gateway.policies, port, ingress, said.frame()) {
        put_lines(gateway.names, said, port, gathered, writer)
    } else {
        Ok(())
    }
}

/// Whether a frame that was taken at the port `ingress` may leave at another.
fn may_leave(policies: &PolicySet, port: u8, ingress: u8, frame: &Frame) -> bool
    ensures { result ≡ set_passes policies.now ingress frame.now port }
{
    port != ingress && policies.verdict(port, frame, ingress)
}

/// Puts the lines of a frame at a port: one for each of its interfaces.
fn put_lines<W: Write>(
    names: &[NamedInterface],
    said: &LogLine,
    port: u8,
    gathered: &mut Gathered,
    writer: &mut Tried<W>,
) -> Result<(), JudgeFault>
    requires { has_failed writer.old ≡ false }
    ensures { Puts (W.contents (inner_of writer.old)) (W.contents (inner_of writer.new)) (has_failed writer.new)
        gathered.old.held.items (lines_at names.now said.now port) result gathered.new.held.items }
{
    for named in names {
        put_named(named, said, port, gathered, writer)?;
    }
    Ok(())
}

/// Puts the line of a frame at an interface, if it is one of the port.
fn put_named<W: Write>(
    named: &NamedInterface,
    said: &LogLine,
    port: u8,
    gathered: &mut Gathered,
    writer: &mut Tried<W>,
) -> Result<(), JudgeFault>
    requires { has_failed writer.old ≡ false }
    ensures { Puts (W.contents (inner_of writer.old)) (W.contents (inner_of writer.new)) (has_failed writer.new)
        gathered.old.held.items
        (if named.now.port == port then egress_line said.now named.now.name.now else [])
        result gathered.new.held.items }
{
    if named.port == port {
        put_frame(said, named.name, gathered, writer)
    } else {
        Ok(())
    }
}

/// Puts the line of a frame at an interface.
fn put_frame<W: Write>(
    said: &LogLine,
    interface: &str,
    gathered: &mut Gathered,
    writer: &mut Tried<W>,
) -> Result<(), JudgeFault>
    requires { has_failed writer.old ≡ false }
    ensures { Puts (W.contents (inner_of writer.old)) (W.contents (inner_of writer.new)) (has_failed writer.new)
        gathered.old.held.items (egress_line said.now interface.now) result gathered.new.held.items }
{
    put_word(said.time(), gathered, writer)?;
    put_untimed(said.frame(), interface, gathered, writer)
}

/// Puts the line of a frame at an interface, without its time.
fn put_untimed<W: Write>(
    frame: &Frame,
    interface: &str,
    gathered: &mut Gathered,
    writer: &mut Tried<W>,
) -> Result<(), JudgeFault>
    requires { has_failed writer.old ≡ false }
    ensures { Puts (W.contents (inner_of writer.old)) (W.contents (inner_of writer.new)) (has_failed writer.new)
        gathered.old.held.items (untimed_line frame.now interface.now) result gathered.new.held.items }
{
    put_word(interface.as_bytes(), gathered, writer)?;
    gathered.put(frame_line(frame).as_slice(), writer)
}

/// Puts a time or an interface that is there, with a blank behind it.
fn put_word<W: Write>(
    word: &[u8],
    gathered: &mut Gathered,
    writer: &mut Tried<W>,
) -> Result<(), JudgeFault>
    requires { has_failed writer.old ≡ false }
    ensures { Puts (W.contents (inner_of writer.old)) (W.contents (inner_of writer.new)) (has_failed writer.new)
        gathered.old.held.items (word_text word.now) result gathered.new.held.items }
{
    if word.is_empty() {
        return Ok(());
    }
    gathered.put(word, writer)?;
    gathered.put(b" ", writer)
}

/// A frame in candump's form, and the end of its line.
fn frame_line(frame: &Frame) -> ArrayVec<u8, 26>
    ensures { result.items ≡ text_of frame.now ++ codes "\n" }
{
    let mut line = ArrayVec::new();
    let _fits = line.try_extend_from_slice(frame_text(frame).as_bytes());
    line.push(b'\n');
    line
}
