// The timestamps of a connection: whether they are in force, missing or old ones, what becomes TS.Recent, and the round-trip sample.

#![tactic(auto)]

ghost use Rattle.std.specs.Prelude.{◌≡◌, Some};
ghost use Rattle.timestamps.specs.Timestamps.{is_missing, is_old, is_recorded, opened, outdated, replaces_recent, sample_at, taken};

use serial::{Seq, Serial, Stamp};

// 24 days, in ms.
const LIFETIME: u64 = 2_073_600_000;

// The flag stands beside the other fields, and not around them: document 01 gives those a value where timestamps are not in force, too.
#[derive(Clone, Copy)]
pub struct Timestamping {
    // Whether they are in force.
    pub active: bool,
    // TS.Recent, and the clock at which it was last set.
    pub recent: Stamp,
    pub since: u64,
    // What is added to the clock to make our timestamp.
    pub offset: u32,
}

impl Timestamping {
    // The timestamps of a connection at its opening by a SYN with this TSval, or with none.
    #[tactic(auto, unfolding(crate::specs::Timestamps::opened))]
    pub fn new(active: bool, offset: u32, clock: u64, value: Option<Stamp>) -> Timestamping
        ensures { result ≡ opened active offset clock value }
    {
        let recent = if active {
            value.unwrap_or(Stamp(0))
        } else {
            Stamp(0)
        };
        Timestamping {
            active,
            recent,
            since: clock,
            offset,
        }
    }

    // Whether a segment lacks the timestamp that it must have: verdict 21.
    #[tactic(auto, unfolding(crate::specs::Timestamps::is_missing))]
    pub fn is_missing(self, value: Option<Stamp>, rst: bool) -> bool
        ensures { result ≡ is_missing self value rst }
    {
        self.active && value.is_none() && !rst
    }

    // Whether a segment's timestamp is old: verdict 22.
    #[tactic(auto, unfolding(crate::specs::Timestamps::is_old, crate::specs::Timestamps::value_before))]
    pub fn is_old(self, clock: u64, value: Option<Stamp>, rst: bool) -> bool
        ensures { result ≡ is_old self clock value rst }
    {
        self.active
            && !rst
            && value.is_some_and(|stamp| stamp.before(self.recent))
            && !self.is_outdated(clock)
    }

    // The timestamps after a segment is taken, built in one place: what is unchanged is then not copied. `acked` is Last.ACK.sent.
    #[tactic(auto, unfolding(crate::specs::Timestamps::is_recorded, crate::specs::Timestamps::taken))]
    pub fn take(self, clock: u64, acked: Seq, seq: Seq, value: Option<Stamp>) -> Timestamping
        ensures { result ≡ taken self clock acked.0 seq.0 value }
    {
        let recorded = value.filter(|stamp| self.is_recorded(clock, acked, seq, *stamp));
        Timestamping {
            recent: recorded.unwrap_or(self.recent),
            since: if recorded.is_some() {
                clock
            } else {
                self.since
            },
            ..self
        }
    }

    // The round-trip sample in ms that an echoed timestamp gives.
    pub fn sample(self, clock: u64, echoed: Stamp) -> u32
        ensures { result ≡ sample_at self clock echoed.0 }
    {
        Stamp::at(clock, self.offset).round_trip(echoed)
    }

    // Whether TS.Recent was set more than 24 days ago.
    #[tactic(auto, unfolding(crate::specs::Timestamps::outdated))]
    fn is_outdated(self, clock: u64) -> bool
        ensures { result ≡ outdated self clock }
    {
        LIFETIME < clock.saturating_sub(self.since)
    }

    // Whether a TSval is not before TS.Recent, or that is outdated.
    #[tactic(auto, unfolding(crate::specs::Timestamps::replaces_recent))]
    fn replaces_recent(self, clock: u64, value: Stamp) -> bool
        ensures { result ≡ replaces_recent self clock value.0 }
    {
        !value.before(self.recent) || self.is_outdated(clock)
    }

    // Whether TSval becomes TS.Recent.
    #[tactic(auto, unfolding(crate::specs::Timestamps::is_recorded))]
    fn is_recorded(self, clock: u64, acked: Seq, seq: Seq, value: Stamp) -> bool
        ensures { result ≡ is_recorded self clock acked.0 seq.0 (Some value) }
    {
        self.active && self.replaces_recent(clock, value) && seq.at_or_before(acked)
    }
}
