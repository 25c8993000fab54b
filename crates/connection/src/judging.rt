// The verdict on an arriving segment: the first of the table's conditions that holds.
ghost use Rattle.std.specs.Prelude.{◌≡◌, ℕ, drop};
ghost use Rattle.connection.specs.Numbers.{verdict_of};
ghost use Rattle.connection.specs.Record.{Sound};
ghost use Rattle.connection.specs.Verdict.{decided, rows};

use super::taking::tsval_of;
use super::{Connection, Reason, Verdict};
use segment::Segment;

impl Connection {
    // 21 to 24, then the others.
    #[tactic(auto, unfolding(crate::specs::Verdict::rows))]
    pub(super) fn judge(self, clock: u64, s: &Segment) -> Verdict
        requires { Sound self }
        ensures { verdict_of result ≡ decided (rows self clock s.now) }
    {
        let tsval = tsval_of(s);
        if self.timestamping.is_missing(tsval, s.flags.rst) {
            return Verdict::Silent(Reason::TimestampMissing);
        }
        if self.timestamping.is_old(clock, tsval, s.flags.rst) {
            return Verdict::WithAck(Reason::TimestampOld);
        }
        if self.receive.is_acceptable(s.seq, s.len) {
            return self.judge_acceptable(s);
        }
        if s.flags.rst {
            return Verdict::Silent(Reason::ResetOutside);
        }
        Verdict::WithAck(Reason::Outside)
    }

    // 25 to 28, then the others, where none of 21 to 24 holds.
    #[tactic(auto, unfolding(crate::specs::Verdict::rows))]
    fn judge_acceptable(self, s: &Segment) -> Verdict
        requires { Sound self }
        ensures { (clock : ℕ) → verdict_of result ≡ decided (drop 4 (rows self clock s.now)) }
    {
        if s.flags.rst {
            if s.seq == self.receive.nxt {
                return Verdict::Reset;
            }
            return Verdict::WithAck(Reason::ResetInside);
        }
        if s.flags.syn {
            return Verdict::WithAck(Reason::SynInside);
        }
        if !s.flags.ack {
            return Verdict::Silent(Reason::AckMissing);
        }
        self.judge_plain(s)
    }

    // 29, 31 and 30, where none of 21 to 28 holds.
    #[tactic(auto, unfolding(crate::specs::Verdict::rows))]
    fn judge_plain(self, s: &Segment) -> Verdict
        requires { Sound self }
        ensures { (clock : ℕ) → verdict_of result ≡ decided (drop 8 (rows self clock s.now)) }
    {
        if self.send.is_unsent(s.ack) {
            return Verdict::WithAck(Reason::AckUnsent);
        }
        if self.send.is_too_old(s.ack) {
            return Verdict::WithAck(Reason::AckTooOld);
        }
        if self.receive.lacks_room(s.seq, s.len) {
            return Verdict::WithAck(Reason::NoRoom);
        }
        Verdict::Take
    }
}
