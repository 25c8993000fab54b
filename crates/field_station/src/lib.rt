// What the field-station profile demands of an opening (document 02's term): timestamps from both sides, any offered shift at most 7, and the
// peer's MSS at least 536.

#![tactic(auto)]

ghost use Rattle.std.specs.Prelude.{◌≡◌};
ghost use Rattle.field_station.specs.Demands.{first_lack, is_small, lack_of, lack_value};

use offers::Offers;

// The greatest shift that either side may offer.
const MAX_OFFERED_SHIFT: u8 = 7;

// The least MSS of the peer.
const LEAST_MSS: u16 = 536;

// A demand that is not met.
#[derive(Clone, Copy)]
pub enum Lack {
    Timestamps = 1,
    Shift = 2,
    Mss = 3,
}

impl Lack {
    // What stands beside E17.
    pub fn value(self) -> u8
        ensures { result ≡ lack_value self }
    {
        self as u8
    }
}

// Whether both sides' offers and the peer's MSS meet the profile, or the first demand that they do not.
#[tactic(auto, unfolding(crate::specs::Demands::first_lack))]
pub fn judge(own: Offers, peer: Offers, mss: u16) -> Result<(), Lack>
    ensures { lack_of result ≡ first_lack own peer mss }
{
    if !own.timestamps || !peer.timestamps {
        return Err(Lack::Timestamps);
    }
    if !is_small(own.scale) || !is_small(peer.scale) {
        return Err(Lack::Shift);
    }
    if mss < LEAST_MSS {
        return Err(Lack::Mss);
    }
    Ok(())
}

// A shift counts as it was offered, in force or not.
fn is_small(scale: Option<u8>) -> bool
    ensures { result ≡ is_small scale }
{
    scale.is_none_or(|shift| shift <= MAX_OFFERED_SHIFT)
}
