//! Where the policies in force lie: those after the newest batch, and those of the two versions before.

ghost use Rattle.std.specs.Prelude.{◌≡◌, IfSome};

use crate::history::{LengthWord, Prefix};
use counted_slot::{Claim, Counted, FREE, Fits, ONE_READER, PRESENT, TAKEN};
use gw_ledger::MAX_PORTS;
use gw_policy::PolicySet;
use std::alloc::AllocError;
use std::clone::Clone;
use std::marker::Model;
use std::sync::Wait;
use std::thread::yield_now;

/// The policies in force after a list of batches. Contracts see the list.
#[derive(Drop)]
pub struct Version {
    set: PolicySet,
    list: Prefix,
}

impl Model for Version {
    ghost use Rattle.gw_board.specs.Ends.{Known};
    ghost use Rattle.gw_board.specs.Lists.{InForceAfter};

    ghost Value = { Known };

    ghost view = { λ v. v.list };

    ghost invariant = { λ v. InForceAfter v.set v.list.batches };
}

impl Clone for Version {
    ghost use Rattle.std.specs.Prelude.{◌≡◌};

    ghost is_clone = { λ version copy. copy ≡ version };

    fn clone(&self) -> Result<Version, AllocError> {
        Ok(Version {
            set: self.set.clone()?,
            list: self.list.again(),
        })
    }
}

/// What lies on a shelf is of the shelf's board.
impl Fits for Version {
    ghost use Rattle.std.specs.Prelude.{◌≡◌};

    type Tag = LengthWord;

    ghost fits = { λ board version. version.board ≡ board };
}

impl Version {
    ghost use Rattle.std.specs.Prelude.{◌≡◌, ◌≤◌, length};
    ghost use Rattle.gw_board.specs.Lists.{InForceAfter};

    pub fn new(set: PolicySet, list: Prefix) -> Version
        requires { InForceAfter set list.batches }
        ensures { result ≡ list }
    {
        Version { set, list }
    }

    /// After how many batches.
    pub fn len(&self) -> u64
        ensures { result ≡ length self.now.batches }
    {
        let _ = &self.set;
        self.list.len()
    }

    pub fn into_parts(self) -> (PolicySet, Prefix)
        ensures list { result.1 ≡ self }
        ensures set { InForceAfter result.0 self.batches }
    {
        let Version { set, list } = self;
        (set, list)
    }
}

/// A place for a version. Contracts see the board.
type Place = Counted<Option<Version>>;

/// Three places, in which versions are laid in turn. Contracts see the board.
///
/// Before `left_right` shows version n it waits for the watches that found version n - 2. So version n + 1 has the place of
/// n - 2, from which no watch is to copy any more.
#[derive(Drop)]
pub struct Shelf {
    first: Place,
    second: Place,
    third: Place,
}

impl Model for Shelf {
    ghost use Rattle.std.specs.Prelude.{◌≡◌};
    ghost use Rattle.gw_board.specs.Ends.{Board};

    ghost Value = { Board };

    ghost view = { λ s. s.first };

    ghost invariant = { λ s. (s.second ≡ s.first) × (s.third ≡ s.first) };
}

impl Shelf {
    ghost use Rattle.std.specs.Prelude.{◌≡◌, IfSome};

    /// No version lies in any place.
    pub fn new(board: &LengthWord) -> Shelf
        ensures { result ≡ board.now }
    {
        Shelf {
            first: Counted::new(None, board),
            second: Counted::new(None, board),
            third: Counted::new(None, board),
        }
    }

    // The place of the version after so many batches.
    fn place(&self, count: u64) -> &Place
        ensures { result.now ≡ self.now }
    {
        match count % 3 {
            0 => &self.first,
            1 => &self.second,
            _ => &self.third,
        }
    }

    /// A copy of what lies in the place of the version after so many batches. There is none while the operator lays one there.
    pub fn copy(&self, count: u64) -> Option<Version>
        ensures { IfSome result (λ version. version.board ≡ self.now) }
    {
        copy_from(self.place(count))
    }

    /// Lays a version in its place, once no watch copies what lies there. That is dropped.
    pub fn lay<R: Wait>(&self, rt: &R, version: Version)
        requires { version.board ≡ self.now }
    {
        let claim = claim_place(rt, self.place(version.len()));
        claim.put(Some(version), PRESENT);
    }
}

// While one watch copies, each of the other fifteen changes the word at most twice: it comes and it goes. This is more.
const MOST_TRIES: usize = 4 * MAX_PORTS;

fn copy_from(place: &Place) -> Option<Version>
    ensures { IfSome result (λ version. version.board ≡ place.now) }
{
    let mut word = place.load();
    for _ in 0..MOST_TRIES {
        if word % 4 != PRESENT || word > MOST_READING {
            return None;
        }
        let (found, claim) = place.turn(word, word + ONE_READER);
        if found == word {
            return leave_with_copy(claim);
        }
        claim.done();
        word = found;
    }
    None
}

// The word of a place that each watch of a board copies from.
const MOST_READING: u64 = PRESENT + ONE_READER * MAX_PORTS as u64;

fn leave_with_copy(claim: Claim<'_, Option<Version>>) -> Option<Version>
    requires { claim.right ≡ 1 }
    ensures { IfSome result (λ version. version.board ≡ claim.entry.tag) }
{
    let copy: Result<Option<Version>, AllocError> = claim.get().clone();
    claim.leave();
    copy.unwrap_or(None)
}

// The right to write in a place, once no watch copies from it.
fn claim_place<'a, R: Wait>(rt: &R, place: &'a Place) -> Claim<'a, Option<Version>>
    ensures { (result.right ≡ 2) × (result.tag ≡ place.now) }
{
    for _ in rt.forever() {
        let word = place.load();
        if word == FREE || word == PRESENT {
            let (found, claim) = place.turn(word, TAKEN);
            if found == word {
                return claim;
            }
            claim.done();
        }
        yield_now();
    }
    unreachable!()
}
