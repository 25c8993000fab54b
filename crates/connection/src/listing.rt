// The peer's SACK blocks that are listed.
ghost use Rattle.std.specs.Prelude.{◌≡◌};
ghost use Rattle.segment.specs.SackBlocks.{held};
ghost use Rattle.connection.specs.Taking.{listed};

use super::Connection;
use segment::{SackBlocks, Segment};

impl Connection {
    // Those of the segment's blocks that are listed, in their order; none where SACK is not in force.
    #[tactic(auto, using(crate::proofs::Blocks::one_passes, crate::proofs::Blocks::one_fails), unfolding(crate::specs::Taking::listed))]
    pub(super) fn listed(self, s: &Segment) -> SackBlocks
        ensures { held result ≡ listed self s.now }
    {
        let mut listed = SackBlocks::none();
        if self.sack {
            // A copy is gone through, so that the compiler can keep the segment in registers.
            let blocks = s.options.blocks;
            for block in blocks.as_slice() {
                if self.send.is_listed(*block) {
                    listed.push(*block);
                }
            }
        }
        listed
    }
}
