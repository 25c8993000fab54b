// The timer's arithmetic: a sample, S and V after it, and the value worked out of them.
ghost use Rattle.std.specs.Prelude.{◌≡◌, ◌*◌, ◌≤◌, true, false, MatchResult};
ghost use Rattle.rto.specs.Timer.{is_accepted, mean, next_rttvar, next_srtt, timeout_of};

use crate::SampleRefused;

// The longest round-trip sample that is not refused, in ms.
const MAX_SAMPLE: u32 = 600_000;

// The most samples in a round trip that a sample may name.
const MAX_EXPECTED: u32 = 16;

// The least value that a sample gives, in ms.
const MIN_TIMEOUT: u32 = 1_000;

// The greatest value that a sample or an expiry gives, in ms.
pub const MAX_TIMEOUT: u32 = 60_000;

// A round-trip sample that is not refused.
#[derive(Clone, Copy)]
pub struct Sample {
    // The round-trip time R, in ms.
    pub rtt: u32,
    // How many samples a round trip is expected to give.
    pub expected: u32,
    ghost accepted: { is_accepted rtt expected ≡ true },
}

impl Sample {
    // E14 refuses a sample that is too long, or that names no sample or too many in a round trip.
    pub fn new(rtt: u32, expected: u32) -> Result<Sample, SampleRefused>
        ensures { MatchResult result (λ s. (s.rtt ≡ rtt) × (s.expected ≡ expected)) (λ _. is_accepted rtt expected ≡ false) }
    {
        if rtt <= MAX_SAMPLE && (1..=MAX_EXPECTED).contains(&expected) {
            Ok(Sample { rtt, expected })
        } else {
            Err(SampleRefused)
        }
    }
}

// S and V, in 1/256 ms.
#[derive(Clone, Copy)]
pub struct Estimate {
    pub srtt: u32,
    pub rttvar: u32,
}

impl Estimate {
    // After the first sample, whatever its N.
    pub fn first(sample: Sample) -> Estimate
        ensures { result ≡ record { srtt = 256 * sample.rtt; rttvar = 128 * sample.rtt } }
    {
        Estimate {
            srtt: 256 * sample.rtt,
            rttvar: 128 * sample.rtt,
        }
    }

    // After a later sample, with the old S in both.
    pub fn next(self, sample: Sample) -> Estimate
        ensures { result ≡ record {
          srtt = next_srtt self.srtt sample.rtt sample.expected;
          rttvar = next_rttvar self.srtt self.rttvar sample.rtt sample.expected;
        } }
    {
        let rtt = 256 * sample.rtt;
        Estimate {
            srtt: weighted(8 * sample.expected, self.srtt, rtt),
            rttvar: weighted(4 * sample.expected, self.rttvar, self.srtt.abs_diff(rtt)),
        }
    }

    // The value worked out of S and V, in ms.
    pub fn timeout(self) -> u32
        ensures { result ≡ timeout_of self.srtt self.rttvar }
    {
        let spread = (4 * u64::from(self.rttvar)).max(256);
        let ms = (u64::from(self.srtt) + spread + 887).div_ceil(256) as u32;
        ms.clamp(MIN_TIMEOUT, MAX_TIMEOUT)
    }
}

// The mean in which `new` weighs 1/`parts` and `old` the rest, rounded down.
fn weighted(parts: u32, old: u32, new: u32) -> u32
    requires { 1 ≤ parts }
    ensures { result ≡ mean parts old new }
{
    ((u64::from(parts - 1) * u64::from(old) + u64::from(new)) / u64::from(parts)) as u32
}
