// What the known options say, read where they stand.
ghost use Rattle.std.specs.Prelude.{List, ◌≡◌, ◌≤◌};
ghost use Rattle.segment.specs.Grammar.{Step};
ghost use Rattle.segment.specs.Options.{Found, block_at, blocks_of, mss_of, options_of, scale_of, timestamps_of};
ghost use Rattle.segment.specs.Internal.{Noted, StandAll, StandsIf, place_of};
ghost use Rattle.segment.specs.SackBlocks.{held};

use super::kinds::Kind;
use super::notes::Notes;
use super::sack_blocks::MOST;
use super::{Options, SackBlocks, Timestamps};
use octets::{Number, read_u8};
use serial::{Range, Seq, Stamp};

// The values of the options whose places are noted.
pub fn options(segment: &[u8], notes: &Notes) -> Options
    ensures { (steps : List Step) → Noted steps notes.now → StandAll segment.now steps → result ≡ options_of steps }
{
    Options {
        mss: mss(segment, notes.place(Kind::Mss)),
        scale: scale(segment, notes.place(Kind::WindowScale)),
        permitted: notes.place(Kind::SackPermitted).is_some(),
        blocks: sack_blocks(segment, notes.place(Kind::Sack)),
        timestamps: timestamps(segment, notes.place(Kind::Timestamps)),
    }
}

// An option is given by its place, here and below: a slice from there on would be one more test of a bound at each.
fn mss(segment: &[u8], place: Option<u8>) -> Option<u16>
    ensures { (f : Found) → place ≡ place_of f → StandsIf segment.now 2 4 f → result ≡ mss_of f }
{
    let at = usize::from(place?);
    Some(u16::read(segment, at + 2))
}

fn scale(segment: &[u8], place: Option<u8>) -> Option<u8>
    ensures { (f : Found) → place ≡ place_of f → StandsIf segment.now 3 3 f → result ≡ scale_of f }
{
    let at = usize::from(place?);
    Some(read_u8(segment, at + 2))
}

fn timestamps(segment: &[u8], place: Option<u8>) -> Option<Timestamps>
    ensures { (f : Found) → place ≡ place_of f → StandsIf segment.now 8 10 f → result ≡ timestamps_of f }
{
    let at = usize::from(place?);
    Some(Timestamps {
        value: Stamp(u32::read(segment, at + 2)),
        echoed: Stamp(u32::read(segment, at + 6)),
    })
}

fn sack_blocks(segment: &[u8], place: Option<u8>) -> SackBlocks
    ensures { (f : Found) → place ≡ place_of f → StandsIf segment.now 5 10 f → held result ≡ blocks_of f }
{
    let Some(place) = place else {
        return SackBlocks::none();
    };
    let at = usize::from(place);
    let count = usize::from(read_u8(segment, at + 1)).saturating_sub(2) / 8;
    let mut blocks = SackBlocks::none();
    // Up to a constant, so that the compiler makes no loop of it, and drops what is read where only the refusal is asked for.
    for i in 0..MOST {
        if count <= i {
            return blocks;
        }
        blocks.push(block(segment, at + 2 + 8 * i));
    }
    blocks
}

// The block at a place, which lies far below 512: an option starts at 255 at most, the highest place that a u8 holds.
fn block(segment: &[u8], at: usize) -> Range
    requires { at ≤ 512 }
    ensures { result ≡ block_at segment.now at }
{
    let left = Seq(u32::read(segment, at));
    let right = Seq(u32::read(segment, at + 4));
    Range { left, right }
}
