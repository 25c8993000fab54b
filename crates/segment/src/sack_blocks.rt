// The blocks of a SACK option.
ghost use Rattle.std.specs.Prelude.{◌≡◌, ◌-◌, ◌≤◌, drop, length, replicate};
ghost use Rattle.serial.specs.Serial.{range};

use serial::{Range, Seq};

pub const MOST: usize = 4;

// What stands in each place that has no block, so that equal lists are equal values.
const UNUSED: Range = Range {
    left: Seq(0),
    right: Seq(0),
};

// At most four blocks, in their order. `Held` of receive has the same shape, and takes values that are no list.
#[derive(Clone, Copy, PartialEq, Eq)]
pub struct SackBlocks {
    blocks: [Range; MOST],
    count: usize,
    ghost whole: { length blocks ≡ 4 },
    ghost few: { count ≤ 4 },
    ghost padded: { drop count blocks ≡ replicate (4 - count) (range 0 0) },
}

impl SackBlocks {
    ghost use Rattle.std.specs.Prelude.{◌≡◌, ◌≤◌, [], ◌∷◌, ◌++◌, length, take};
    ghost use Rattle.segment.specs.SackBlocks.{held};

    pub fn none() -> SackBlocks
        ensures { held result ≡ [] }
    {
        SackBlocks {
            blocks: [UNUSED; MOST],
            count: 0,
        }
    }

    pub fn len(&self) -> usize
        ensures { result ≡ length (held self.now) }
    {
        self.count
    }

    pub fn as_slice(&self) -> &[Range]
        ensures blocks { result.now ≡ held self.now }
        ensures few { length (held self.now) ≤ 4 }
    {
        &self.blocks[..self.count]
    }

    // One more block, after the others: where there are four already, it is left out.
    pub fn push(&mut self, block: Range)
        ensures { held self.new ≡ take 4 (held self.old ++ block ∷ []) }
    {
        if self.count < MOST {
            self.blocks[self.count] = block;
            self.count += 1;
        }
    }

    pub fn first(self, n: usize) -> SackBlocks
        ensures { held result ≡ take n (held self) }
    {
        let count = self.count.min(n);
        let mut blocks = self.blocks;
        blocks[count..].fill(UNUSED);
        SackBlocks { blocks, count }
    }
}
