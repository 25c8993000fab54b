// A TCP segment: header, options and where the payload lies, read from any octets.

#![tactic(auto)]

mod finding;
mod fixed_header;
pub mod kinds;
mod notes;
mod rules;
mod sack_blocks;
mod values;

ghost use Rattle.std.specs.Prelude.{◌≡◌, Err, MatchOption};
ghost use Rattle.std.proofs.Math.Option.{none, some};
ghost use Rattle.segment.specs.Part.{IsPart};
ghost use Rattle.segment.specs.Reading.{fault_place, found_option, number_of, number_positive, reported, shown};

use notes::Notes;
use refusals::Numbered;
pub use sack_blocks::SackBlocks;
use serial::{Seq, Stamp};

// The least octets of a segment: the header without options.
const FIXED_HEADER: usize = 20;

// The most octets of a segment.
const MAX_SEGMENT: usize = 65_535;

// The flags of octet 13, from its highest bit.
#[derive(Clone, Copy)]
pub struct Flags {
    pub cwr: bool,
    pub ece: bool,
    pub urg: bool,
    pub ack: bool,
    pub psh: bool,
    pub rst: bool,
    pub syn: bool,
    pub fin: bool,
}

// TSval and TSecr.
#[derive(Clone, Copy, PartialEq, Eq)]
pub struct Timestamps {
    pub value: Stamp,
    pub echoed: Stamp,
}

// What the options of a segment say.
#[derive(Clone, Copy)]
pub struct Options {
    // The maximum segment size, in octets.
    pub mss: Option<u16>,
    // The shift as the peer wrote it: one above 14 too.
    pub scale: Option<u8>,
    // Whether SACK-permitted is among them.
    pub permitted: bool,
    pub blocks: SackBlocks,
    pub timestamps: Option<Timestamps>,
}

// Where the payload lies in the segment.
#[derive(Clone, Copy)]
pub struct Payload {
    pub start: usize,
    pub length: u32,
}

// A segment that can be read.
#[derive(Clone, Copy)]
pub struct Segment {
    // The ports.
    pub source: u16,
    pub destination: u16,
    pub seq: Seq,
    pub ack: Seq,
    pub flags: Flags,
    pub window: u16,
    pub urgent: u16,
    pub options: Options,
    // How many unknown options were skipped.
    pub skipped: usize,
    pub payload: Payload,
    // LEN: the payload's octets, plus 1 for SYN, plus 1 for FIN.
    pub len: u32,
}

// Why a segment is refused: E1 to E6, in this order. An option at fault has the place in the segment of its kind octet.
#[derive(Clone, Copy)]
pub enum Refusal {
    TooShort,
    TooLong,
    BadDataOffset,
    BrokenOption(u8),
    WrongOptionLength(u8),
    // The second one's place.
    RepeatedOption(u8),
}

impl Numbered for Refusal {
    ghost number = { number_of };

    // The refusal's number, 1 to 6.
    fn number(self) -> u8 {
        match self {
            Refusal::TooShort => 1,
            Refusal::TooLong => 2,
            Refusal::BadDataOffset => 3,
            Refusal::BrokenOption(_) => 4,
            Refusal::WrongOptionLength(_) => 5,
            Refusal::RepeatedOption(_) => 6,
        }
    }

    ghost positive = { number_positive };
}

impl Refusal {
    // The place in the segment of the kind octet at fault, where an option is.
    pub fn place(self) -> Option<u8>
        ensures { MatchOption result (fault_place self ≡ none) (λ place. fault_place self ≡ some place) }
    {
        match self {
            Refusal::TooShort | Refusal::TooLong | Refusal::BadDataOffset => None,
            Refusal::BrokenOption(place)
            | Refusal::WrongOptionLength(place)
            | Refusal::RepeatedOption(place) => Some(place),
        }
    }
}

// What reading a segment answers.
#[derive(Clone, Copy)]
pub struct Reading {
    pub outcome: Result<Segment, Refusal>,
    // How many steps its options took: one for each NOP, for a kind 0 and for each other option, up to and with the first at fault; 0 with
    // E1 to E3.
    pub steps: usize,
}

impl Reading {
    // A refusal by E1 to E3, which take no step.
    fn unread(why: Refusal) -> Reading
        ensures { result ≡ record { outcome = Err why; steps = 0 } }
    {
        Reading {
            outcome: Err(why),
            steps: 0,
        }
    }

    // The refusal's number, 0 where the segment can be read.
    pub fn number(self) -> u8
        ensures { result ≡ (shown self).answer.number }
    {
        refusals::number_of(&self.outcome)
    }
}

// Reads a segment, or says why it is refused: E1, E2, E3, then the options from left to right, whose steps it counts.
pub fn read(segment: &[u8]) -> Reading
    ensures { shown result ≡ reported segment.now }
{
    if segment.len() < FIXED_HEADER {
        return Reading::unread(Refusal::TooShort);
    }
    if MAX_SEGMENT < segment.len() {
        return Reading::unread(Refusal::TooLong);
    }
    let end = fixed_header::end(segment);
    if end < FIXED_HEADER || segment.len() < end {
        return Reading::unread(Refusal::BadDataOffset);
    }
    let mut notes = Notes::new();
    rules::padding_rule(&segment[0..end], FIXED_HEADER, &mut notes);
    let steps = notes.steps;
    if let Some(why) = notes.refusal {
        // Returned at once, so that the fields of a segment are stored as they are read.
        return Reading {
            outcome: Err(why),
            steps,
        };
    }
    let options = values::options(segment, &notes);
    Reading {
        outcome: Ok(fixed_header::fields(segment, end, notes.skipped, options)),
        steps,
    }
}

// The first option whose kind stands in `kinds`, as that part of the segment, kind and length octets included. The part is empty where
// there is none, or where the segment is refused, as document 01 has it.
pub fn find_option<'a>(segment: &'a [u8], kinds: &[u8]) -> &'a [u8]
    ensures { IsPart result segment.entry.ref_ptr (found_option segment.now kinds.now) }
{
    let reading = read(segment);
    match reading.outcome {
        Ok(whole) => {
            let end = whole.payload.start;
            finding::first_listed(&segment[0..end], kinds)
        }
        Err(_) => &segment[0..0],
    }
}
