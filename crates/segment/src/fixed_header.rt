// The header's fields.
ghost use Rattle.std.specs.Prelude.{◌≡◌, ◌<◌, ◌*◌, ◌≤◌, length};
ghost use Rattle.segment.specs.Reading.{bit, data_offset, flags_of, len_of, segment_of};

use super::{Flags, Options, Payload, Segment};
use octets::{Number, read_u8};
use serial::Seq;

// Where the header ends, by the data offset of octet 12.
pub fn end(segment: &[u8]) -> usize
    ensures { (result ≡ 4 * data_offset segment.now) × (result ≤ 60) }
{
    4 * usize::from(read_u8(segment, 12) / 16)
}

fn flags(octet: u8) -> Flags
    ensures { result ≡ flags_of octet }
{
    Flags {
        cwr: bit(octet, 7),
        ece: bit(octet, 6),
        urg: bit(octet, 5),
        ack: bit(octet, 4),
        psh: bit(octet, 3),
        rst: bit(octet, 2),
        syn: bit(octet, 1),
        fin: bit(octet, 0),
    }
}

// Whether bit n is set.
fn bit(octet: u8, n: u32) -> bool
    requires { n < 8 }
    ensures { result ≡ bit n octet }
{
    octet >> n & 1 == 1
}

// LEN of a segment with so many payload octets and these flags.
fn len(payload: u32, flags: Flags) -> u32
    requires { payload ≤ 65535 }
    ensures { result ≡ len_of payload flags }
{
    payload + u32::from(flags.syn) + u32::from(flags.fin)
}

// The fields of a segment whose header ends at `end`, with its options and how many of them were skipped.
pub fn fields(segment: &[u8], end: usize, skipped: usize, options: Options) -> Segment
    requires { (end ≤ length segment.now) × (length segment.now ≤ 65535) }
    ensures { result ≡ segment_of segment.now end skipped options }
{
    let flags = flags(read_u8(segment, 13));
    let length = (segment.len() - end) as u32;
    Segment {
        source: u16::read(segment, 0),
        destination: u16::read(segment, 2),
        seq: Seq(u32::read(segment, 4)),
        ack: Seq(u32::read(segment, 8)),
        flags,
        window: u16::read(segment, 14),
        urgent: u16::read(segment, 18),
        options,
        skipped,
        payload: Payload { start: end, length },
        len: len(length, flags),
    }
}
