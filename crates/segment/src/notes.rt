// What the rules note of the options while they run. A header has at most 60 octets, so a place fits into one.
ghost use Rattle.std.specs.Prelude.{◌≡◌, None, Some, get_or, replicate, set};
ghost use Rattle.segment.specs.Kinds.{kind_number};

use super::Refusal;
use super::kinds::Kind;

// One more than the last known kind.
const KINDS: usize = 9;

#[derive(Drop)]
pub struct Notes {
    // At each known kind the place in the segment of the option of that kind.
    places: [Option<u8>; KINDS],
    // How many steps were taken.
    pub steps: usize,
    // How many unknown options were skipped.
    pub skipped: usize,
    // Why the list is refused.
    pub refusal: Option<Refusal>,
}

impl Notes {
    pub fn new() -> Notes
        ensures { result ≡ record { places = replicate 9 None; steps = 0; skipped = 0; refusal = None } }
    {
        Notes {
            places: [None; KINDS],
            steps: 0,
            skipped: 0,
            refusal: None,
        }
    }

    pub fn place(&self, kind: Kind) -> Option<u8>
        ensures { result ≡ get_or self.now.places (kind_number kind) None }
    {
        self.places[kind as usize]
    }

    // Notes the place of an option, and answers the one that was noted of its kind before.
    pub fn set_place(&mut self, kind: Kind, place: u8) -> Option<u8>
        ensures before { result ≡ get_or self.old.places (kind_number kind) None }
        ensures noted { self.new ≡ record self.old { places = set self.old.places (kind_number kind) (Some place) } }
    {
        self.places[kind as usize].replace(place)
    }
}
