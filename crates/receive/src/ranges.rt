// The ranges held: those that a part meets, and the others.
ghost use Rattle.std.specs.Prelude.{◌≡◌, ◌<◌, [], ◌∷◌, ◌++◌};
ghost use Rattle.std.specs.List.{list_any};
ghost use Rattle.receive.specs.Ranges.{held_of, is_out_of_order, joined, lies_in, meets, range_of, ranges_of, unmet};
ghost use Rattle.receive.specs.Sound.{Canonical};
ghost use Rattle.receive.specs.Internal.{with_first};
ghost use Rattle.receive.specs.Window.{empty_part};

use super::{Held, Part, Receive, SLOTS};
use serial::{Range, Seq, Serial};

impl Part {
    // Document 01's empty part.
    pub fn empty() -> Part
        ensures { result ≡ empty_part }
    {
        Part { from: 0, to: 0 }
    }

    pub(crate) fn contains(self, offset: u32) -> bool
        ensures { result ≡ lies_in self offset }
    {
        self.from <= offset && offset < self.to
    }

    // Whether the part is not empty and does not start at 0.
    #[tactic(auto, unfolding(crate::specs::Ranges::is_out_of_order))]
    pub(crate) fn is_out_of_order(self) -> bool
        ensures { result ≡ is_out_of_order self }
    {
        0 < self.from && self.from < self.to
    }

    // The part as a range of sequence numbers.
    #[tactic(auto, unfolding(crate::specs::Ranges::range_of))]
    pub(crate) fn range(self, nxt: Seq) -> Range
        ensures { result ≡ range_of nxt.0 self }
    {
        Range {
            left: nxt.moved(self.from),
            right: nxt.moved(self.to),
        }
    }
}

impl Held {
    // No range at all.
    #[tactic(auto, unfolding(crate::specs::Ranges::held_of))]
    pub(crate) fn none() -> Held
        ensures { result ≡ held_of [] }
    {
        let unused = Range {
            left: Seq(0),
            right: Seq(0),
        };
        Held {
            ranges: [unused; SLOTS],
            count: 0,
        }
    }

    // The ranges that are held, all eight where the count is above.
    #[tactic(auto, unfolding(crate::specs::Ranges::ranges_of))]
    pub fn as_slice(&self) -> &[Range]
        ensures { result.now ≡ ranges_of self.now }
    {
        &self.ranges[..self.count.min(SLOTS)]
    }

    // The ranges with one more put first; where no slot is left, as they were.
    #[tactic(auto, using(crate::proofs::Slots::put_full, crate::proofs::Slots::put_room))]
    pub(crate) fn with_first(mut self, range: Range) -> Held
        requires { Canonical self }
        ensures { result ≡ held_of (with_first range (ranges_of self)) }
    {
        if self.count < SLOTS {
            self.ranges.rotate_right(1);
            self.ranges[0] = range;
            self.count += 1;
        }
        self
    }

    // One range more, put last.
    #[tactic(auto, using(crate::proofs::Slots::put_last))]
    fn push(&mut self, range: Range)
        requires { Canonical self.old × (self.old.count < 8) }
        ensures { self.new ≡ held_of (ranges_of self.old ++ range ∷ []) }
    {
        self.ranges[self.count] = range;
        self.count += 1;
    }
}

impl Receive {
    // Whether the part overlaps or touches the range.
    #[tactic(auto, unfolding(crate::specs::Ranges::meets, crate::specs::Ranges::left_of, crate::specs::Ranges::right_of))]
    fn meets(&self, part: Part, range: Range) -> bool
        ensures { result ≡ meets self.now.nxt.0 part range }
    {
        range.left.offset(self.nxt) <= part.to && part.from <= range.right.offset(self.nxt)
    }

    // Whether it overlaps or touches any that is held.
    pub(crate) fn meets_any(&self, part: Part) -> bool
        ensures { result ≡ list_any (meets self.now.nxt.0 part) (ranges_of self.now.held) }
    {
        self.held
            .as_slice()
            .iter()
            .any(|range| self.meets(part, *range))
    }

    // The part joined with the ranges that it meets, gone through from the oldest on, as `joined` is defined.
    pub(crate) fn joined(&self, part: Part) -> Part
        ensures { result ≡ joined self.now.nxt.0 part (ranges_of self.now.held) }
    {
        let mut joined = part;
        for range in self.held.as_slice().iter().rev() {
            if self.meets(part, *range) {
                joined.from = range.left.offset(self.nxt).min(joined.from);
                joined.to = range.right.offset(self.nxt).max(joined.to);
            }
        }
        joined
    }

    // The ranges that the part does not meet, in their order.
    pub(crate) fn unmet(&self, part: Part) -> Held
        ensures { result ≡ held_of (unmet self.now.nxt.0 part (ranges_of self.now.held)) }
    {
        let mut rest = Held::none();
        for range in self.held.as_slice() {
            if !self.meets(part, *range) {
                rest.push(*range);
            }
        }
        rest
    }
}
