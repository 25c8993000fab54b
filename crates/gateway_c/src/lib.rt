// The three functions of `gateway` as C calls them; `gateway/noppalerk.h` declares them.

#![tactic(auto)]

ghost use Rattle.std.specs.Prelude.{◌≡◌};
ghost use Rattle.rto.specs.Timer.{milliseconds_of};
ghost use Rattle.segment.specs.Reading.{reading};
ghost use Rattle.serial.specs.Serial.{distance_of};

// The number of a segment's refusal, 0 where it can be read. C passes the segment as a pointer and a length.
#[unsafe(no_mangle)]
pub extern "C" fn noppalerk_refusal(segment: &[u8]) -> u32
    ensures { result ≡ (reading segment.now).number }
{
    gateway::noppalerk_refusal(segment)
}

// The distance from one serial number to another; in C both kinds are plain numbers.
#[unsafe(no_mangle)]
pub extern "C" fn noppalerk_distance(from: u32, to: u32) -> i32
    ensures { result ≡ distance_of from to }
{
    gateway::noppalerk_distance(from, to)
}

// The milliseconds of a timer with this S and V, 0 where one of them is above 153,600,000.
#[unsafe(no_mangle)]
pub extern "C" fn noppalerk_milliseconds(srtt: u64, rttvar: u64) -> u32
    ensures { result ≡ milliseconds_of srtt rttvar }
{
    gateway::noppalerk_milliseconds(srtt, rttvar)
}
