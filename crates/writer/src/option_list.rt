// The options, written one after the other.
ghost use Rattle.std.specs.Prelude.{◌≡◌, ◌+◌, ◌≤◌, length};
ghost use Rattle.std.proofs.lemmas.List.Edits.{sets};
ghost use Rattle.writer.specs.Cursor.{HasRoom, Writes};
ghost use Rattle.writer.specs.Writing.{fitting, mss_written, options_written, sack_written, scale_written, timestamps_written};

use super::FIXED_HEADER;
use super::cursor::Cursor;
use segment::kinds::{Kind, NOP};
use segment::{Options, Timestamps};
use serial::Range;

// Each of these writes an option, if it is there.

#[tactic(auto, using(crate::proofs::Runs::writes_none), unfolding(crate::specs::Writing::mss_written, octets::specs::Octets::big_endian))]
fn write_mss(out: &mut Cursor<'_>, mss: Option<u16>)
    requires { HasRoom out.old (mss_written mss) }
    ensures { Writes out.old out.new (mss_written mss) }
{
    if let Some(n) = mss {
        let [high, low] = n.to_be_bytes();
        out.put(&[Kind::Mss as u8, 4, high, low]);
    }
}

// SACK-permitted and timestamps share their place.
#[tactic(auto, using(crate::proofs::Runs::writes_none, crate::proofs::Runs::writes_then, crate::proofs::Runs::room_then), unfolding(crate::specs::Writing::timestamps_written))]
fn write_timestamps(out: &mut Cursor<'_>, permitted: bool, timestamps: Option<Timestamps>)
    requires { HasRoom out.old (timestamps_written permitted timestamps) }
    ensures { Writes out.old out.new (timestamps_written permitted timestamps) }
{
    match (permitted, timestamps) {
        (false, None) => {}
        (true, None) => out.put(&[Kind::SackPermitted as u8, 2, NOP, NOP]),
        (false, Some(stamps)) => {
            out.put(&[NOP, NOP, Kind::Timestamps as u8, 10]);
            out.put_pair(stamps.value.0, stamps.echoed.0);
        }
        (true, Some(stamps)) => {
            out.put(&[Kind::SackPermitted as u8, 2, Kind::Timestamps as u8, 10]);
            out.put_pair(stamps.value.0, stamps.echoed.0);
        }
    }
}

#[tactic(auto, using(crate::proofs::Runs::writes_none), unfolding(crate::specs::Writing::scale_written))]
fn write_scale(out: &mut Cursor<'_>, scale: Option<u8>)
    requires { HasRoom out.old (scale_written scale) }
    ensures { Writes out.old out.new (scale_written scale) }
{
    if let Some(shift) = scale {
        out.put(&[NOP, Kind::WindowScale as u8, 3, shift]);
    }
}

#[tactic(auto, using(crate::proofs::Lengths::no_sack, crate::proofs::OptionOctets::sack_parts, crate::proofs::Runs::blocks_left, crate::proofs::Runs::blocks_more, crate::proofs::Runs::room_first, crate::proofs::Runs::room_then, crate::proofs::Runs::writes_none, crate::proofs::Runs::writes_then), unfolding(crate::specs::Writing::blocks_written))]
fn write_sack(out: &mut Cursor<'_>, blocks: &[Range])
    requires few { length blocks.now ≤ 4 }
    requires room { HasRoom out.old (sack_written blocks.now) }
    ensures { Writes out.old out.new (sack_written blocks.now) }
{
    if blocks.is_empty() {
        return;
    }
    // The length is put by itself: in one run with constants, it would be stored in another piece than it is loaded in.
    out.put(&[NOP, NOP, Kind::Sack as u8]);
    out.put(&[(8 * blocks.len() + 2) as u8]);
    for block in blocks {
        out.put_pair(block.left.0, block.right.0);
    }
}

// The options after the fixed header, with those of the blocks that fit.
#[tactic(auto, using(crate::proofs::Lengths::few_fit))]
pub fn write_options(octets: &mut [u8], options: &Options, blocks: &[Range])
    requires fit { blocks.now ≡ fitting options.now }
    requires room { 20 + length (options_written options.now) ≤ length octets.old }
    ensures { octets.new ≡ sets octets.old 20 (options_written options.now) }
{
    let mut out = Cursor {
        octets,
        at: FIXED_HEADER,
    };
    write_mss(&mut out, options.mss);
    write_timestamps(&mut out, options.permitted, options.timestamps);
    write_scale(&mut out, options.scale);
    write_sack(&mut out, blocks);
}
