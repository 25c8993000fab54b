// What taking a segment does to a record.
ghost use Rattle.std.specs.Prelude.{◌≡◌};
ghost use Rattle.rto.specs.Calls.{run};
ghost use Rattle.connection.specs.Opening.{ack_fields_of, tsval_of};
ghost use Rattle.connection.specs.Record.{Sound};
ghost use Rattle.connection.specs.Taking.{expected_samples, fed_by, record_after};

use super::Connection;
use rto::Timer;
use segment::Segment;
use send::AckFields;
use serial::Stamp;

// An MSS below this counts as this where samples are expected.
const MIN_MSS: u16 = 64;

// The fields of a segment that the send side takes.
pub fn ack_fields_of(s: &Segment) -> AckFields
    ensures { result ≡ ack_fields_of s.now }
{
    AckFields {
        seq: s.seq,
        ack: s.ack,
        window: s.window,
    }
}

// The TSval that the timestamps take from a segment.
pub fn tsval_of(s: &Segment) -> Option<Stamp>
    ensures { result ≡ tsval_of s.now.options.timestamps }
{
    s.options.timestamps.map(|pair| pair.value)
}

// How many samples a round trip is expected to give (RFC 7323's ExpectedSamples): one for each two segments outstanding.
#[tactic(auto, using(crate::proofs::Samples::ceil_rounds_up))]
fn expected_samples(outstanding: u32, mss: u16) -> u32
    ensures { result ≡ expected_samples outstanding mss }
{
    let two_segments = 2 * u32::from(mss.max(MIN_MSS));
    outstanding.div_ceil(two_segments).clamp(1, 16)
}

impl Connection {
    // The timer after a take: a new ACK with timestamps gives a sample.
    #[tactic(auto, unfolding(crate::specs::Taking::fed_by, crate::specs::Taking::sample_of))]
    fn timer_after(self, clock: u64, s: &Segment) -> Timer
        ensures { result ≡ run self.timer (fed_by self clock s.now) }
    {
        if !self.timestamping.active || !self.send.is_new(s.ack) {
            return self.timer;
        }
        let Some(pair) = s.options.timestamps else {
            return self.timer;
        };
        let outstanding = self.send.outstanding();
        let rtt = self.timestamping.sample(clock, pair.echoed);
        let expected = expected_samples(outstanding, self.mss);
        self.timer.feed(rtt, expected)
    }

    // The record after a segment is taken.
    #[tactic(auto, using(crate::proofs::Keeping::record_after_sound), unfolding(crate::specs::Taking::record_after))]
    pub(super) fn record_after(self, clock: u64, s: &Segment) -> Connection
        requires { Sound self }
        ensures taken { result ≡ record_after self clock s.now }
        ensures sound { Sound result }
    {
        let acked = self.receive.acked;
        Connection {
            receive: self.receive.take(s.seq, s.len),
            send: self.send.take(ack_fields_of(s)),
            timestamping: self.timestamping.take(clock, acked, s.seq, tsval_of(s)),
            timer: self.timer_after(clock, s),
            ..self
        }
    }
}
