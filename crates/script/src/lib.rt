// What a call of a script holds beside its segment, in the format of docs/REPLAY.md; the programs share it.

#![tactic(auto)]

ghost use Rattle.std.specs.Prelude.{◌≡◌};
ghost use Rattle.script.specs.Setup.{offers_in, setup_in};

use connection::Setup;
use octets::{Number, read_u8};
use offers::Offers;
use serial::Seq;

// What an opening is given, from the start of its call's body; octets past the end count as 0.
#[tactic(auto, unfolding(crate::specs::Setup::setup_in))]
pub fn setup(body: &[u8]) -> Setup
    ensures { result ≡ setup_in body.now }
{
    Setup {
        iss: Seq(u32::read(body, 0)),
        offers: offers(read_u8(body, 4), read_u8(body, 5)),
        window: u32::read(body, 6),
        offset: u32::read(body, 10),
    }
}

// Offers by their bits: 0 timestamps, 1 SACK, 2 window scale.
fn offers(shift: u8, bits: u8) -> Offers
    ensures { result ≡ offers_in shift bits }
{
    Offers {
        scale: (bits >> 2 & 1 == 1).then_some(shift),
        timestamps: bits & 1 == 1,
        sack: bits >> 1 & 1 == 1,
    }
}
