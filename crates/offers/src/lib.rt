// What a side offers when a connection opens, the limits of its own offers, and what is in force when both sides have offered.

#![tactic(auto)]

ghost use Rattle.std.specs.Prelude.{◌≡◌};
ghost use Rattle.offers.specs.Offers.{exceed_limits, in_force, is_large, shifts_in_force};

// The greatest shift of a window.
const MAX_SHIFT: u8 = 14;

// The greatest window of an opening segment, which is not scaled.
const MAX_FIRST_WINDOW: u32 = 65_535;

#[derive(Clone, Copy, PartialEq, Eq)]
pub struct Offers {
    // The shift of the window scale that is offered, if any; a shift above 14 too.
    pub scale: Option<u8>,
    pub timestamps: bool,
    pub sack: bool,
}

// The shifts of both windows: ours for the receive window, the peer's for the send window.
#[derive(Clone, Copy, PartialEq, Eq)]
pub struct Shifts {
    pub receive: u8,
    pub send: u8,
}

#[derive(Clone, Copy, PartialEq, Eq)]
pub struct InForce {
    // 0 and 0 where scaling is not in force.
    pub shifts: Shifts,
    pub timestamps: bool,
    pub sack: bool,
}

impl Offers {
    // Whether these, as our own offers, or the first receive window beside them exceed their limits: E9.
    #[tactic(auto, unfolding(crate::specs::Offers::exceed_limits))]
    pub fn exceed_limits(self, window: u32) -> bool
        ensures { result ≡ exceed_limits self window }
    {
        is_large(self.scale) || MAX_FIRST_WINDOW < window
    }

    // What is in force when these are our own offers.
    #[tactic(auto, unfolding(crate::specs::Offers::in_force))]
    pub fn in_force(self, peer: Offers) -> InForce
        ensures { result ≡ in_force self peer }
    {
        InForce {
            shifts: shifts_in_force(self.scale, peer.scale),
            timestamps: self.timestamps && peer.timestamps,
            sack: self.sack && peer.sack,
        }
    }
}

fn is_large(scale: Option<u8>) -> bool
    ensures { result ≡ is_large scale }
{
    scale.is_some_and(|shift| MAX_SHIFT < shift)
}

#[tactic(auto, unfolding(crate::specs::Offers::shifts_in_force))]
fn shifts_in_force(own: Option<u8>, peer: Option<u8>) -> Shifts
    ensures { result ≡ shifts_in_force own peer }
{
    match (own, peer) {
        (Some(receive), Some(offered)) => Shifts {
            receive,
            send: offered.min(MAX_SHIFT),
        },
        _ => Shifts {
            receive: 0,
            send: 0,
        },
    }
}
