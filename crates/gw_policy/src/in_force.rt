//! The policies in force.

ghost use Rattle.std.specs.Prelude.{
  ◌≡◌,
  ℕ,
  ◌<◌,
  ◌≤◌,
  ◌==◌,
  not,
  nat_lt,
  if◌then◌else◌,
  List,
  [],
  ◌∷◌,
  Some,
  None,
  OnOk,
  OnErr,
  option_copied,
  true,
};
ghost use Rattle.gw_ledger.specs.Ports.{ports_below};
ghost use Rattle.gw_policy.specs.Batches.{AreGroups, PortPolicies, passes};
ghost use Rattle.gw_policy.specs.Cached.{AreByWord, IsByWord, Keeps};

use crate::batch::Batch;
use crate::policy::Policy;
use crate::verdict_cache::VerdictCache;
use gw_frame::Frame;
use gw_ledger::{MAX_PORTS, PortSet};
use gw_table::FrameFields;
use std::alloc::AllocError;
use std::clone::Clone;
use std::marker::Model;
use std::sync::Arc;

/// The policy in force for each of sixteen ports, or the opening block, which passes nothing and counts as one
/// instruction; and the front, the number of batches that were absorbed, which stays at 4294967295.
#[derive(Drop)]
pub struct PolicySet {
    policies: [Option<Arc<Policy>>; MAX_PORTS],
    // By port, the ports whose policies have its program, where no port before it has. So each port is in one group, which a port
    // up to it leads.
    groups: [PortSet; MAX_PORTS],
    // The ports that lead a group.
    leaders: PortSet,
    // The ports whose policies judge a frame by its identifier word alone.
    by_word: PortSet,
    front: u32,
}

impl Model for PolicySet {
    ghost use Rattle.std.specs.Prelude.{◌≡◌, length, map, option_map};
    ghost use Rattle.gw_policy.specs.Batches.{AreGroups, PortPolicies};
    ghost use Rattle.gw_policy.specs.Cached.{AreByWord};

    ghost Value = { PortPolicies };

    ghost view = { λ s. record { policies = map (option_map (λ policy. policy.value)) s.policies; front = s.front } };

    ghost invariant = { λ s. (length s.policies ≡ 16)
        × AreGroups (record { policies = map (option_map (λ policy. policy.value)) s.policies; front = s.front })
        s.groups s.leaders
        × AreByWord (record { policies = map (option_map (λ policy. policy.value)) s.policies; front = s.front }) s.by_word };
}

// One owner more of each policy. The copy of an `Arc` can be refused.
impl Clone for PolicySet {
    ghost use Rattle.std.specs.Prelude.{◌≡◌};

    ghost is_clone = { λ set copy. copy ≡ set };

    fn clone(&self) -> Result<PolicySet, AllocError> {
        Ok(PolicySet {
            policies: self.policies.clone()?,
            groups: self.groups,
            leaders: self.leaders,
            by_word: self.by_word,
            front: self.front,
        })
    }
}

impl PolicySet {
    ghost use Rattle.std.specs.Prelude.{◌≢◌, ◌&&◌, IfSome, IsTrue};
    ghost use Rattle.gw_ledger.specs.Ports.{has_port, ports_below};
    ghost use Rattle.gw_policy.specs.Batches.{Pair, PassAlike, passes, policy_at, Absorbs, StandsAfter};

    /// The opening block at each port, before any batch.
    pub fn new() -> PolicySet
        ensures blocks { (port : ℕ) → policy_at port result ≡ None }
        ensures front { result.front ≡ 0 }
        ensures start { StandsAfter result [] }
    {
        PolicySet {
            policies: Default::default(),
            groups: each_alone(),
            leaders: PortSet::below(MAX_PORTS as u8),
            by_word: PortSet::new(),
            front: 0,
        }
    }

    /// How many batches were absorbed; it stays at 4294967295.
    pub fn front(&self) -> u32
        ensures { result ≡ self.now.front }
    {
        self.front
    }

    /// Puts a batch's policies in force: each pair replaces the policy of its port, one after the other, and a port above
    /// 15 is ignored. Nothing changes where the copy of an `Arc` is refused.
    pub fn absorb(&mut self, batch: &Batch) -> Result<(), AllocError>
        ensures absorbed { OnOk result (Absorbs self.old batch.now self.new) }
        ensures stands { (batches : List (List Pair)) → StandsAfter self.old batches
            → OnOk result (StandsAfter self.new (batch.now ∷ batches)) }
        ensures unchanged { OnErr result (self.new ≡ self.old) }
    {
        self.put_all(batch)?;
        self.note_groups();
        self.note_by_word();
        Ok(())
    }

    fn put_all(&mut self, batch: &Batch) -> Result<(), AllocError>
        ensures absorbed { OnOk result (Absorbs self.old batch.now self.new) }
        ensures unchanged { OnErr result (self.new ≡ self.old) }
    {
        for pair in batch.copies()? {
            if let Some((port, policy)) = pair {
                self.put(port, policy);
            }
        }
        self.front = self.front.saturating_add(1);
        Ok(())
    }

    // Notes which ports have one program, so that a frame's path judges it once.
    fn note_groups(&mut self)
        ensures { self.new ≡ self.old }
    {
        let mut groups = [PortSet::new(); MAX_PORTS];
        let mut leaders = PortSet::new();
        for port in 0..MAX_PORTS as u8 {
            let first = self.first_alike(port);
            groups[usize::from(first)].add(port);
            leaders.add(first);
        }
        self.groups = groups;
        self.leaders = leaders;
    }

    // Notes which ports judge by identifiers alone, so that a frame's path need not judge each frame by their policies.
    fn note_by_word(&mut self)
        ensures { self.new ≡ self.old }
    {
        let mut by_word = PortSet::new();
        for port in 0..MAX_PORTS as u8 {
            if self.is_by_word(port) {
                by_word.add(port);
            }
        }
        self.by_word = by_word;
    }

    // Whether the policy of a port judges by identifiers alone.
    fn is_by_word(&self, port: u8) -> bool
        ensures { IsTrue result → IsByWord (policy_at port self.now) }
    {
        let Some(policy) = self.get(port) else {
            return false;
        };
        policy.is_by_word()
    }

    // The first port whose policy has the program of this one's: the port itself, where none before it has.
    fn first_alike(&self, port: u8) -> u8
        ensures first { result ≤ port }
        ensures alike { PassAlike (policy_at result self.now) (policy_at port self.now) }
    {
        for before in 0..port {
            if self.has_one_program(before, port) {
                return before;
            }
        }
        port
    }

    // Whether two ports have policies of the same program.
    fn has_one_program(&self, one: u8, other: u8) -> bool
        ensures { IsTrue result → PassAlike (policy_at one self.now) (policy_at other self.now) }
    {
        match (self.get(one), self.get(other)) {
            (Some(one), Some(other)) => one.has_program_of(other),
            _ => false,
        }
    }

    /// The policy in force for a port, `None` for the opening block and for a port above 15.
    pub fn get(&self, port: u8) -> Option<&Policy>
        ensures { option_copied result ≡ policy_at port self.now }
    {
        self.policies.get(usize::from(port))?.as_deref()
    }

    /// Whether a frame that was taken at the port `from` may leave at `port`.
    pub fn verdict(&self, port: u8, frame: &Frame, from: u8) -> bool
        ensures { result ≡ passes (policy_at port self.now) frame.now from }
    {
        match self.get(port) {
            Some(policy) => policy.verdict(frame, from),
            None => false,
        }
    }

    /// The ports below a number, except `from`, at which a frame may leave that was taken at the port `from`. Ports that have
    /// the same program are judged once.
    pub fn egress_ports(&self, ports: u8, frame: &Frame, from: u8) -> PortSet
        requires { ports ≤ 16 }
        ensures { result ≡ ports_below ports (λ port. not (port == from) && passes (policy_at port self.now) frame.now from) }
    {
        self.judge(ports, others(ports, from), frame, from)
    }

    /// The same, where a policy that judges by identifiers alone is not asked again of one whose verdict the cache keeps. What it
    /// says now is kept.
    pub fn cached_egress_ports(
        &self,
        cache: &mut VerdictCache,
        ports: u8,
        frame: &Frame,
        from: u8,
    ) -> PortSet
        requires fits { ports ≤ 16 }
        requires cache { Keeps self.now cache.old }
        ensures ports { result
            ≡ ports_below ports (λ port. not (port == from) && passes (policy_at port self.now) frame.now from) }
        ensures cache { Keeps self.now cache.new }
    {
        if self.by_word.is_empty() {
            return self.egress_ports(ports, frame, from);
        }
        self.recall(cache, ports, others(ports, from), frame, from)
    }

    // Those of the ports asked for that pass a frame: by the verdicts that the cache keeps, and else by their policies.
    fn recall(
        &self,
        cache: &mut VerdictCache,
        ports: u8,
        asked: PortSet,
        frame: &Frame,
        from: u8,
    ) -> PortSet
        requires fits { ports ≤ 16 }
        requires within { (port : ℕ) → has_port port asked ≡ true → port < ports }
        requires cache { Keeps self.now cache.old }
        ensures ports { result ≡ ports_below 16 (λ port. has_port port asked && passes (policy_at port self.now) frame.now from) }
        ensures cache { Keeps self.now cache.new }
    {
        // Policies that judge by the word are alike on records.
        let _octets = frame.bytes();
        let known = cache.get(frame, from);
        let kept = known.passing.intersection(asked);
        let unknown = asked.difference(known.judged);
        if unknown.is_empty() {
            return kept;
        }
        let passing = kept.union(self.judge(ports, unknown, frame, from));
        let judged = asked.intersection(self.by_word);
        cache.put(frame, from, judged, passing.intersection(self.by_word));
        passing
    }

    // Those of the ports asked for that pass a frame. Ports that have the same program are judged once.
    fn judge(&self, ports: u8, asked: PortSet, frame: &Frame, from: u8) -> PortSet
        requires fits { ports ≤ 16 }
        requires within { (port : ℕ) → has_port port asked ≡ true → port < ports }
        ensures { result ≡ ports_below 16 (λ port. has_port port asked && passes (policy_at port self.now) frame.now from) }
    {
        // Policies of one program are alike on records.
        let _octets = frame.bytes();
        let fields = FrameFields::new(frame);
        let mut egress = PortSet::new();
        for leader in self.leaders.intersection(PortSet::below(ports)).iter() {
            let group = self.groups[usize::from(leader)];
            let passing = judged(group.intersection(asked), self.get(leader), &fields, from);
            egress = egress.union(passing);
        }
        egress
    }

    // Replaces the policy of a port; one above 15 is ignored.
    fn put(&mut self, port: u8, policy: Arc<Policy>)
        ensures front { self.new.front ≡ self.old.front }
        ensures policies { (other : ℕ) → policy_at other self.new
            ≡ (if nat_lt other 16 then (if port == other then Some policy.value else policy_at other self.old) else None) }
    {
        let index = usize::from(port);
        if index < MAX_PORTS {
            self.groups = each_alone();
            self.leaders = PortSet::below(MAX_PORTS as u8);
            self.by_word = PortSet::new();
            self.policies[index] = Some(policy);
        }
    }
}

// The ports below a number, except one.
fn others(ports: u8, from: u8) -> PortSet
    requires { ports ≤ 16 }
    ensures { result ≡ ports_below ports (λ port. not (port == from)) }
{
    let there = PortSet::below(ports);
    there.without(from)
}

// A group of each port alone, which it leads.
fn each_alone() -> [PortSet; MAX_PORTS]
    ensures { (set : PortPolicies) (leaders : List ℕ) → leaders ≡ ports_below 16 (λ _. true) → AreGroups set result leaders }
{
    let mut groups = [PortSet::new(); MAX_PORTS];
    for port in 0..MAX_PORTS {
        groups[port].add(port as u8);
    }
    groups
}

// The ports of a group whose policy passes a frame: all or none. Where there are none, it is not judged.
fn judged(group: PortSet, policy: Option<&Policy>, fields: &FrameFields, from: u8) -> PortSet
    ensures { result ≡ (if passes (option_copied policy.entry) fields.now from then group else []) }
{
    if group.is_empty() {
        return group;
    }
    match policy {
        Some(policy) if policy.passes(fields, from) => group,
        _ => PortSet::new(),
    }
}
