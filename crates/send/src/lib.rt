// The send side of a connection, as far as arriving acknowledgments move it: which are new and which too old, the send window, the octets
// noted as sent, and which of the peer's SACK blocks are listed.

#![tactic(auto)]

ghost use Rattle.std.specs.Prelude.{◌≡◌, ◌≤◌, IfOk};
ghost use Rattle.std.proofs.Common.{rules};
ghost use Rattle.send.specs.Send.{acknowledged, exceeds_window, is_current, is_later, is_listed, is_new, is_too_old, is_unsent, number_of, opened, outstanding, sent, shown, taken, updates_window, windowed};
ghost use Rattle.send.specs.Sound.{Sound};

use refusals::Numbered;
use serial::{Range, Seq, Serial};

// The greatest shift of a window.
const MAX_SHIFT: u32 = 14;

// The most that one sequence number can lie before another.
const HALF_WAY: u32 = 0x8000_0000;

// `Sound` is a premise and no invariant: `is_new`, `is_listed` and other questions take any send side, sound or not.
#[derive(Clone, Copy)]
pub struct Send {
    // SND.UNA and SND.NXT.
    pub una: Seq,
    pub nxt: Seq,
    // SND.WND, the largest that it was since the opening (RFC 5961's MAX.SND.WND), and the shift by which the peer writes it.
    pub window: u32,
    pub largest: u32,
    pub shift: u32,
    // SEQ and ACK of the segment that last set the window.
    pub wl1: Seq,
    pub wl2: Seq,
}

// RFC 9293's SEG.SEQ, SEG.ACK and SEG.WND: what a segment says to the send side.
#[derive(Clone, Copy)]
pub struct AckFields {
    pub seq: Seq,
    pub ack: Seq,
    pub window: u16,
}

// E12: more octets than the window lets be sent.
#[derive(Clone, Copy, PartialEq, Eq)]
pub struct SentRefused;

impl Numbered for SentRefused {
    ghost number = { number_of };

    fn number(self) -> u8 {
        12
    }

    ghost positive = { Prim.search rules };
}

impl Send {
    // A send side at its opening by the peer's SYN, which has the ACK flag or not. A shift above 14 counts as 14.
    #[tactic(auto, unfolding(crate::specs::Send::opened))]
    pub fn new(iss: Seq, shift: u32, syn: AckFields, flag: bool) -> Send
        ensures opened { result ≡ opened iss.0 shift syn flag }
        ensures sound { Sound result }
    {
        let nxt = iss.moved(1);
        let window = u32::from(syn.window);
        let (una, wl2) = if flag { (nxt, syn.ack) } else { (iss, iss) };
        Send {
            una,
            nxt,
            window,
            largest: window,
            shift: shift.min(MAX_SHIFT),
            wl1: syn.seq,
            wl2,
        }
    }

    // Whether an ACK is of octets that were not sent: verdict 29.
    pub fn is_unsent(self, ack: Seq) -> bool
        ensures { result ≡ is_unsent self ack.0 }
    {
        self.nxt.before(ack)
    }

    // Whether an ACK lies farther before UNA than the largest window: verdict 31.
    #[tactic(auto, using(crate::proofs::AckRange::too_old_tests))]
    pub fn is_too_old(self, ack: Seq) -> bool
        ensures { result ≡ is_too_old self ack.0 }
    {
        let back = self.una.offset(ack);
        self.largest < back && back <= HALF_WAY
    }

    // Whether an ACK is new.
    #[tactic(auto, unfolding(crate::specs::Send::is_new))]
    pub fn is_new(self, ack: Seq) -> bool
        ensures { result ≡ is_new self ack.0 }
    {
        let forward = ack.offset(self.una);
        0 < forward && forward <= self.outstanding()
    }

    // The send side after a segment is taken.
    #[tactic(auto, using(crate::proofs::Sound::acknowledged_sound, crate::proofs::Sound::windowed_sound), unfolding(crate::specs::Send::taken))]
    pub fn take(self, fields: AckFields) -> Send
        requires { Sound self }
        ensures taken { result ≡ taken self fields }
        ensures sound { Sound result }
    {
        let next = self.acknowledged(fields.ack);
        if self.updates_window(fields) {
            next.windowed(fields)
        } else {
            next
        }
    }

    // Notes that `n` octets were sent, or refuses more than the window lets be sent.
    #[tactic(auto, unfolding(crate::specs::Send::sent))]
    pub fn note_sent(self, n: u32) -> Result<Send, SentRefused>
        requires { Sound self }
        ensures answer { shown self result ≡ sent self n }
        ensures sound { IfOk result Sound }
    {
        if self.exceeds_window(n) {
            return Err(SentRefused);
        }
        let nxt = self.nxt.moved(n);
        Ok(Send { nxt, ..self })
    }

    // Whether a SACK block of the peer is listed: it lies above UNA, is not empty and ends at NXT or before.
    #[tactic(auto, unfolding(crate::specs::Send::is_listed))]
    pub fn is_listed(self, block: Range) -> bool
        ensures { result ≡ is_listed self block }
    {
        let left = block.left.offset(self.una);
        let right = block.right.offset(self.una);
        0 < left && left < right && right <= self.outstanding()
    }

    // The octets that were sent and are not acknowledged.
    pub fn outstanding(self) -> u32
        ensures { result ≡ outstanding self }
    {
        self.nxt.offset(self.una)
    }

    // E12.
    #[tactic(auto, unfolding(crate::specs::Send::exceeds_window))]
    fn exceeds_window(self, n: u32) -> bool
        ensures { result ≡ exceeds_window self n }
    {
        u64::from(self.window) < u64::from(self.outstanding()) + u64::from(n)
    }

    // UNA moved by a new ACK.
    #[tactic(auto, unfolding(crate::specs::Send::acknowledged))]
    fn acknowledged(self, ack: Seq) -> Send
        ensures { result ≡ acknowledged self ack }
    {
        if self.is_new(ack) {
            Send { una: ack, ..self }
        } else {
            self
        }
    }

    // Whether an ACK is new, or repeats the last.
    #[tactic(auto, unfolding(crate::specs::Send::is_current))]
    fn is_current(self, ack: Seq) -> bool
        ensures { result ≡ is_current self ack.0 }
    {
        self.is_new(ack) || ack == self.una
    }

    // Whether the segment comes after the one that last set the window.
    #[tactic(auto, unfolding(crate::specs::Send::is_later))]
    fn is_later(self, fields: AckFields) -> bool
        ensures { result ≡ is_later self fields }
    {
        self.wl1.before(fields.seq) || self.wl1 == fields.seq && self.wl2.at_or_before(fields.ack)
    }

    #[tactic(auto, unfolding(crate::specs::Send::updates_window))]
    fn updates_window(self, fields: AckFields) -> bool
        ensures { result ≡ updates_window self fields }
    {
        self.is_current(fields.ack) && self.is_later(fields)
    }

    // The segment's window, and its SEQ and ACK.
    #[tactic(auto, unfolding(crate::specs::Send::windowed))]
    fn windowed(self, fields: AckFields) -> Send
        requires { self.shift ≤ 14 }
        ensures { result ≡ windowed self fields }
    {
        let window = u32::from(fields.window) << self.shift;
        Send {
            window,
            largest: self.largest.max(window),
            wl1: fields.seq,
            wl2: fields.ack,
            ..self
        }
    }
}
