//! Boxes, and what two of them share.

ghost use Rattle.std.specs.Prelude.{◌≡◌, true, false, ◌&&◌, MatchBool, MatchOption};
ghost use Rattle.gw_boxes.specs.Boxes.{holds, is_empty, below, above, within};

/// The numbers from `low` on, below `end`: none where `end` is at most `low`.
#[derive(Clone, Copy, PartialEq, Eq, Debug)]
pub struct Range {
    pub low: u32,
    pub end: u32,
}

/// A box: the points whose numbers lie in its four ranges.
#[derive(Clone, Copy, PartialEq, Eq, Debug)]
pub struct Block {
    pub group: Range,
    pub source: Range,
    pub destination: Range,
    pub port: Range,
}

/// A number of each of the four fields.
#[derive(Clone, Copy, PartialEq, Eq, Debug)]
pub struct Point {
    pub group: u32,
    pub source: u32,
    pub destination: u32,
    pub port: u32,
}

impl Block {
    /// Whether no point lies in the box.
    pub fn is_empty(&self) -> bool
        ensures { MatchBool result ((p : Point) → holds p self.now ≡ false) ((p : Point) × (holds p self.now ≡ true)) }
    {
        self.corner().is_none()
    }

    /// The point of the least numbers, or `None` where no point lies in the box.
    pub fn corner(&self) -> Option<Point>
        ensures { MatchOption result ((p : Point) → holds p self.now ≡ false) (λ p. holds p self.now ≡ true) }
    {
        if self.group.is_empty()
            || self.source.is_empty()
            || self.destination.is_empty()
            || self.port.is_empty()
        {
            return None;
        }
        Some(Point {
            group: self.group.low,
            source: self.source.low,
            destination: self.destination.low,
            port: self.port.low,
        })
    }

    /// How many points lie in the box, or the greatest number where there are more.
    pub(crate) fn size(&self) -> u64 {
        self.group
            .size()
            .saturating_mul(self.source.size())
            .saturating_mul(self.destination.size())
            .saturating_mul(self.port.size())
    }

    /// The box of the points that lie in both.
    pub fn within(&self, other: &Block) -> Block
        ensures { (p : Point) → holds p result ≡ (holds p self.now && holds p other.now) }
    {
        Block {
            group: self.group.within(other.group),
            source: self.source.within(other.source),
            destination: self.destination.within(other.destination),
            port: self.port.within(other.port),
        }
    }
}

impl Range {
    fn is_empty(self) -> bool
        ensures { result ≡ is_empty self }
    {
        self.end <= self.low
    }

    fn size(self) -> u64 {
        u64::from(self.end.saturating_sub(self.low))
    }

    /// The numbers of the range below `end`.
    pub(crate) fn below(self, end: u32) -> Range
        ensures { result ≡ below self end }
    {
        Range {
            low: self.low,
            end: self.end.min(end),
        }
    }

    /// The numbers of the range from `low` on.
    pub(crate) fn above(self, low: u32) -> Range
        ensures { result ≡ above self low }
    {
        Range {
            low: self.low.max(low),
            end: self.end,
        }
    }

    /// The numbers of both ranges.
    pub(crate) fn within(self, other: Range) -> Range
        ensures { result ≡ within self other }
    {
        self.below(other.end).above(other.low)
    }
}
