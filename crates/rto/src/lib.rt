// The retransmission timer of RFC 6298, by value, with the weights of RFC 7323, Appendix G. The smoothed round-trip time S and its variation V
// are kept in 1/256 ms.

#![tactic(auto)]

mod estimate;

ghost use Rattle.std.specs.Prelude.{◌≡◌};
ghost use Rattle.rto.specs.Timer.{answered, expired, milliseconds_of, new_timer, number_of, number_positive, sampled_by, shown};
ghost use Rattle.rto.specs.Calls.{called, sample};

use estimate::{Estimate, MAX_TIMEOUT, Sample};
use refusals::Numbered;

// The most that samples can make of S or V, in 1/256 ms.
const MAX_ESTIMATE: u64 = 153_600_000;

// S and V stand beside a flag, and not in an `Option`: before a sample they are 0, as a record shows them, and what the operations promise
// they promise of a timer with any S and V.
#[derive(Clone, Copy)]
pub struct Timer {
    // S, 0 until a sample sets it.
    pub srtt: u32,
    // V, 0 until a sample sets it.
    pub rttvar: u32,
    // Whether a sample has set S and V.
    pub sampled: bool,
    // The present value, in ms.
    pub timeout: u32,
}

// A round-trip sample is refused: E14.
#[derive(Clone, Copy, PartialEq, Eq)]
pub struct SampleRefused;

impl Numbered for SampleRefused {
    ghost number = { number_of };

    fn number(self) -> u8 {
        14
    }

    ghost positive = { number_positive };
}

impl Timer {
    pub fn new() -> Timer
        ensures { result ≡ new_timer }
    {
        Timer {
            srtt: 0,
            rttvar: 0,
            sampled: false,
            timeout: 1_000,
        }
    }

    // The timer after a round-trip sample of `rtt` ms, where a round trip is expected to give so many samples (RFC 7323's ExpectedSamples).
    pub fn sample(self, rtt: u32, expected: u32) -> Result<Timer, SampleRefused>
        ensures { shown result ≡ answered self rtt expected }
    {
        let sample = Sample::new(rtt, expected)?;
        Ok(self.after(sample))
    }

    // The timer after a sample that is left out where it would be refused, as the sample of a segment is.
    pub fn feed(self, rtt: u32, expected: u32) -> Timer
        ensures { result ≡ called self (sample rtt expected) }
    {
        self.sample(rtt, expected).unwrap_or(self)
    }

    // The timer after an expiry.
    pub fn expire(self) -> Timer
        ensures { result ≡ expired self }
    {
        Timer {
            timeout: self.timeout.saturating_mul(2).min(MAX_TIMEOUT),
            ..self
        }
    }

    // The timer after a sample that is not refused.
    fn after(self, sample: Sample) -> Timer
        ensures { result ≡ sampled_by self sample.rtt sample.expected }
    {
        let Timer {
            srtt,
            rttvar,
            sampled,
            ..
        } = self;
        let estimate = if sampled {
            Estimate { srtt, rttvar }.next(sample)
        } else {
            Estimate::first(sample)
        };
        Timer {
            srtt: estimate.srtt,
            rttvar: estimate.rttvar,
            sampled: true,
            timeout: estimate.timeout(),
        }
    }
}

// The milliseconds of a timer with this S and V; 0, as C is told it, where S or V is more than samples can make it.
pub fn milliseconds(srtt: u64, rttvar: u64) -> u32
    ensures { result ≡ milliseconds_of srtt rttvar }
{
    if MAX_ESTIMATE < srtt || MAX_ESTIMATE < rttvar {
        return 0;
    }
    let estimate = Estimate {
        srtt: srtt as u32,
        rttvar: rttvar as u32,
    };
    estimate.timeout()
}
