// What a gateway calls. The crate `gateway_c` has the same three functions for C: a crate of exports is a static library, which no program of ours
// can stand on.

#![tactic(auto)]

ghost use Rattle.std.specs.Prelude.{◌≡◌};
ghost use Rattle.rto.specs.Timer.{milliseconds_of};
ghost use Rattle.segment.specs.Reading.{reading};
ghost use Rattle.serial.specs.Serial.{distance_of};

use serial::{Seq, Serial};

// The number of a segment's refusal, 0 where it can be read.
pub fn noppalerk_refusal(segment: &[u8]) -> u32
    ensures { result ≡ (reading segment.now).number }
{
    u32::from(segment::read(segment).number())
}

// The distance from one serial number to another; both kinds are plain numbers here.
pub fn noppalerk_distance(from: u32, to: u32) -> i32
    ensures { result ≡ distance_of from to }
{
    Seq(from).distance(Seq(to))
}

// The milliseconds of a timer with this S and V, 0 where one of them is above 153,600,000.
pub fn noppalerk_milliseconds(srtt: u64, rttvar: u64) -> u32
    ensures { result ≡ milliseconds_of srtt rttvar }
{
    rto::milliseconds(srtt, rttvar)
}
