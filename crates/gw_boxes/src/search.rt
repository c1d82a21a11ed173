//! A search for a point of a box outside others.

ghost use Rattle.std.specs.Prelude.{◌≡◌, ℕ, suc, ◌+◌, ◌≤◌, true, ◌||◌, length, IfOk, OnOk, MatchOption};
ghost use Rattle.std.specs.List.{list_any};
ghost use Rattle.gw_boxes.specs.Boxes.{holds, pieces, IsFree, HasNoFree};

use crate::boxes::{Block, Point};
use std::alloc::{AllocError, Global};

/// A point of the part that lies in none of the others, or `None` where each lies in one of them. It calls itself for fewer
/// others each time, one call in another, and keeps a list of those in each. It is refused for want of memory alone.
pub fn free_point(alloc: Global, part: Block, others: &[Block]) -> Result<Option<Point>, AllocError>
    ensures { IfOk result (λ found. MatchOption found (HasNoFree part others.now) (IsFree part others.now)) }
{
    let Some(corner) = part.corner() else {
        return Ok(None);
    };
    let Some((first, rest)) = others.split_first() else {
        return Ok(Some(corner));
    };
    let meeting = Meeting::among(alloc, &part, *first, rest)?;
    // The more of the part a box holds, the fewer points and boxes are left for the pieces outside it.
    for piece in pieces(part, meeting.largest) {
        if let Some(point) = free_point(alloc, piece, &meeting.rest)? {
            return Ok(Some(point));
        }
    }
    Ok(None)
}

/// Boxes of which a part of space has something: that which has the most of it, and the rest.
#[derive(Drop)]
struct Meeting {
    largest: Block,
    size: u64,
    rest: Vec<Block>,
}

impl Meeting {
    /// The first box and those of the others that share a point with the part.
    fn among(
        alloc: Global,
        part: &Block,
        first: Block,
        others: &[Block],
    ) -> Result<Meeting, AllocError>
        ensures same { IfOk result (λ m. (p : Point) → holds p part.now ≡ true
            → (holds p m.largest || list_any (holds p) m.rest.items) ≡ (holds p first || list_any (holds p) others.now)) }
        ensures few { IfOk result (λ m. length m.rest.items ≤ length others.now) }
    {
        let mut meeting = Meeting {
            largest: first,
            size: part.within(&first).size(),
            rest: Vec::with_capacity(alloc, others.len())?,
        };
        for other in others {
            let shared = part.within(other);
            if !shared.is_empty() {
                meeting.add(*other, shared.size())?;
            }
        }
        Ok(meeting)
    }

    /// Takes a box with the size of what it has of the part.
    fn add(&mut self, other: Block, size: u64) -> Result<(), AllocError>
        ensures same { OnOk result ((p : Point) → (holds p self.new.largest || list_any (holds p) self.new.rest.items)
            ≡ ((holds p self.old.largest || list_any (holds p) self.old.rest.items) || holds p other)) }
        ensures one { OnOk result (length self.new.rest.items ≡ suc (length self.old.rest.items)) }
    {
        if size > self.size {
            self.rest.push(self.largest)?;
            self.largest = other;
            self.size = size;
        } else {
            self.rest.push(other)?;
        }
        Ok(())
    }
}

/// What a box has outside another: for each field what lies below and above, within the other in the fields before.
fn pieces(part: Block, other: Block) -> [Block; 8]
    ensures { result ≡ pieces part other }
{
    let in_group = Block {
        group: part.group.within(other.group),
        ..part
    };
    let in_source = Block {
        source: part.source.within(other.source),
        ..in_group
    };
    let in_destination = Block {
        destination: part.destination.within(other.destination),
        ..in_source
    };
    [
        Block {
            group: part.group.below(other.group.low),
            ..part
        },
        Block {
            group: part.group.above(other.group.end),
            ..part
        },
        Block {
            source: part.source.below(other.source.low),
            ..in_group
        },
        Block {
            source: part.source.above(other.source.end),
            ..in_group
        },
        Block {
            destination: part.destination.below(other.destination.low),
            ..in_source
        },
        Block {
            destination: part.destination.above(other.destination.end),
            ..in_source
        },
        Block {
            port: part.port.below(other.port.low),
            ..in_destination
        },
        Block {
            port: part.port.above(other.port.end),
            ..in_destination
        },
    ]
}
