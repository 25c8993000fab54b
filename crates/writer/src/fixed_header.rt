// The fixed header, written.
ghost use Rattle.std.specs.Prelude.{◌≡◌, ◌≤◌};
ghost use Rattle.std.proofs.lemmas.List.Edits.{sets};
ghost use Rattle.writer.specs.Writing.{flags_written, header_written};

use super::Header;
use octets::{Number, write_u8};
use segment::Flags;

// Octet 13.
pub fn flags_octet(flags: Flags) -> u8
    ensures { result ≡ flags_written flags }
{
    u8::from(flags.cwr) * 128
        + u8::from(flags.ece) * 64
        + u8::from(flags.urg) * 32
        + u8::from(flags.ack) * 16
        + u8::from(flags.psh) * 8
        + u8::from(flags.rst) * 4
        + u8::from(flags.syn) * 2
        + u8::from(flags.fin)
}

// Octets 0 to 19, with the data offset in units of 4 octets.
#[tactic(auto, unfolding(crate::specs::Writing::header_written, octets::specs::Octets::big_endian))]
pub fn write_header(octets: &mut [u8], header: Header, units: u8)
    requires { units ≤ 15 }
    ensures { octets.new ≡ sets octets.old 0 (header_written header units) }
{
    header.ports.source.write(octets, 0);
    header.ports.destination.write(octets, 2);
    header.seq.0.write(octets, 4);
    header.ack.0.write(octets, 8);
    write_u8(octets, 12, 16 * units);
    write_u8(octets, 13, flags_octet(header.flags));
    header.window.write(octets, 14);
    0u32.write(octets, 16);
}
