// Header and options of a TCP segment, written into a buffer.

#![tactic(auto)]

mod cursor;
mod fixed_header;
mod option_list;
mod sizes;

ghost use Rattle.std.specs.Prelude.{◌≡◌};
ghost use Rattle.std.proofs.Common.{rules};
ghost use Rattle.writer.specs.Writing.{refusal_number, shown_writing, writing};

pub use fixed_header::flags_octet;
use refusals::Numbered;
use segment::{Flags, Options};
use serial::Seq;

// The octets of a header without options.
const FIXED_HEADER: usize = 20;

// The ports of a segment that is written.
#[derive(Clone, Copy, PartialEq, Eq)]
pub struct Ports {
    pub source: u16,
    pub destination: u16,
}

// The fields of a header that is written; its checksum and urgent field are 0.
#[derive(Clone, Copy)]
pub struct Header {
    pub ports: Ports,
    pub seq: Seq,
    pub ack: Seq,
    pub flags: Flags,
    pub window: u16,
}

// E7.
#[derive(Clone, Copy, PartialEq, Eq)]
pub struct BufferTooShort;

impl Numbered for BufferTooShort {
    ghost number = { refusal_number };

    fn number(self) -> u8 {
        7
    }

    ghost positive = { Prim.search rules };
}

// Writes header and options of a segment without payload at the start of the buffer, leaves the octets after them, and answers how many
// octets they are. Of the SACK blocks as many are written as fit. A buffer that is too short stays as it is.
#[tactic(auto, using(crate::proofs::Answers::refuses_if, crate::proofs::Answers::writes_if, crate::proofs::Lengths::length_written, crate::proofs::Storing::whole_stored))]
pub fn write(header: Header, options: &Options, buffer: &mut [u8]) -> Result<usize, BufferTooShort>
    ensures { shown_writing result buffer.new ≡ writing header options.now buffer.old }
{
    let blocks = sizes::fitting(options);
    let size = sizes::size(options, blocks);
    if buffer.len() < size {
        return Err(BufferTooShort);
    }
    fixed_header::write_header(buffer, header, (size / 4) as u8);
    option_list::write_options(buffer, options, blocks);
    Ok(size)
}
