// How many octets are written, and how many SACK blocks fit beside the other options.
ghost use Rattle.std.specs.Prelude.{cond, ◌≡◌, ◌+◌, ◌≤◌, length};
ghost use Rattle.writer.specs.Writing.{fitting, options_written, others_written, sack_written};

use super::FIXED_HEADER;
use segment::Options;
use serial::Range;

fn size_if(there: bool, size: usize) -> usize
    ensures { result ≡ cond there size 0 }
{
    if there { size } else { 0 }
}

// All options but SACK.
#[tactic(auto, using(crate::proofs::Lengths::length_others))]
fn others_size(options: &Options) -> usize
    ensures { (result ≡ length (others_written options.now)) × (result ≤ 20) }
{
    let mss = size_if(options.mss.is_some(), 4);
    let permitted = size_if(options.permitted, 4);
    let timestamps = if options.timestamps.is_some() {
        12
    } else {
        permitted
    };
    let scale = size_if(options.scale.is_some(), 4);
    mss + timestamps + scale
}

#[tactic(auto, using(crate::proofs::Lengths::length_sack, crate::proofs::Lengths::no_sack))]
fn sack_size(blocks: &[Range]) -> usize
    requires { length blocks.now ≤ 4 }
    ensures { result ≡ length (sack_written blocks.now) }
{
    if blocks.is_empty() {
        return 0;
    }
    4 + 8 * blocks.len()
}

// As many of the first blocks as fit beside the other options.
#[tactic(auto, unfolding(crate::specs::Writing::fitting))]
pub fn fitting(options: &Options) -> &[Range]
    ensures { result.now ≡ fitting options.now }
{
    let room = (40 - others_size(options) - 4) / 8;
    let blocks = options.blocks.as_slice();
    &blocks[..room.min(blocks.len())]
}

// Header and options, with those of the blocks that fit.
#[tactic(auto, using(crate::proofs::Lengths::few_fit, crate::proofs::Lengths::length_with, crate::proofs::Lengths::options_most))]
pub fn size(options: &Options, blocks: &[Range]) -> usize
    requires { blocks.now ≡ fitting options.now }
    ensures { (result ≡ 20 + length (options_written options.now)) × (result ≤ 60) }
{
    FIXED_HEADER + others_size(options) + sack_size(blocks)
}
