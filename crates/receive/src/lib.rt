// The receive side of a connection: RCV.NXT, the window above it and the ranges held there; which segments are acceptable, the part of
// one that is new, and what taking it does.

#![tactic(auto)]

mod ranges;

ghost use Rattle.std.specs.Prelude.{◌≡◌, ◌≤◌, ◌<◌, IfOk, IsTrue};
ghost use Rattle.std.proofs.Common.{rules};
ghost use Rattle.receive.specs.Ranges.{is_out_of_order};
ghost use Rattle.receive.specs.Sound.{Sound};
ghost use Rattle.receive.specs.Taking.{advanced, holding, taken};
ghost use Rattle.receive.specs.Internal.{moved_on};
ghost use Rattle.receive.specs.Window.{acceptable, fin_inside, first_offset, is_window_refused, lacks_room, last_offset, new_part, number_of, opened, part_end, part_start, shown, window_opened};

use refusals::Numbered;
use serial::{Range, Seq, Serial};

// The greatest window that its field can say, and the greatest shift of one.
const MAX_FIELD: u32 = 65535;

const MAX_SHIFT: u32 = 14;

// The most ranges that can be held.
const SLOTS: usize = 8;

// The first `count` ranges are held, newest first; the other slots are unused, and all alike. No invariant says so: `is_acceptable`,
// `new_part` and `has_fin` take any receive side, sound or not.
#[derive(Clone, Copy)]
pub struct Held {
    pub ranges: [Range; SLOTS],
    pub count: usize,
}

#[derive(Clone, Copy)]
pub struct Receive {
    // RCV.NXT.
    pub nxt: Seq,
    // The receive window, and the shift by which it is written.
    pub window: u32,
    pub shift: u32,
    // Last.ACK.sent.
    pub acked: Seq,
    pub held: Held,
}

// A part of the window: the offsets from RCV.NXT from `from` up to `to`, which is not among them.
#[derive(Clone, Copy)]
pub struct Part {
    pub from: u32,
    pub to: u32,
}

// E13: a window that is smaller than the present one, or too large.
#[derive(Clone, Copy, PartialEq, Eq)]
pub struct WindowRefused;

impl Numbered for WindowRefused {
    ghost number = { number_of };

    fn number(self) -> u8 {
        13
    }

    ghost positive = { Prim.search rules };
}

impl Receive {
    // A receive side at its opening; a window above 65,535 counts as 65,535, and a shift above 14 as 14.
    #[tactic(auto, unfolding(crate::specs::Window::opened))]
    pub fn new(nxt: Seq, window: u32, shift: u32) -> Receive
        ensures opened { result ≡ opened nxt.0 window shift }
        ensures sound { Sound result }
    {
        Receive {
            nxt,
            window: window.min(MAX_FIELD),
            shift: shift.min(MAX_SHIFT),
            acked: nxt,
            held: Held::none(),
        }
    }

    // Whether a segment passes the window test. Document 01 judges a segment by SEQ and LEN, which each caller has as fields of a segment:
    // so they stay two parameters, here and below.
    #[tactic(auto, unfolding(crate::specs::Window::acceptable))]
    pub fn is_acceptable(self, seq: Seq, len: u32) -> bool
        ensures { result ≡ acceptable self seq.0 len }
    {
        let first = self.first_offset(seq);
        match (len, self.window) {
            (0, 0) => seq == self.nxt,
            (0, window) => first < window,
            (_, window) => first < window || self.last_offset(seq, len) < window,
        }
    }

    // The part of a segment that is new and in the window; where there is none, the empty part at 0, as document 01 has it.
    #[tactic(auto, unfolding(crate::specs::Window::new_part))]
    pub fn new_part(self, seq: Seq, len: u32) -> Part
        ensures { result ≡ new_part self seq.0 len }
    {
        if len == 0 || !self.is_acceptable(seq, len) {
            return Part::empty();
        }
        let from = self.part_start(seq);
        let to = self.part_end(seq, len);
        if from < to {
            Part { from, to }
        } else {
            Part::empty()
        }
    }

    // Whether the FIN of a segment, which is its last number, lies in its new part.
    #[tactic(auto, using(crate::proofs::Parts::no_fin), unfolding(crate::specs::Window::fin_inside))]
    pub fn has_fin(self, seq: Seq, len: u32, fin: bool) -> bool
        ensures { result ≡ fin_inside self seq.0 len fin }
    {
        fin && len != 0 && self.new_part(seq, len).contains(self.last_offset(seq, len))
    }

    // Whether there is no room to hold the new part: verdict 30.
    #[tactic(auto, using(crate::proofs::Room::any_listed, crate::proofs::Slots::length_ranges), unfolding(crate::specs::Window::lacks_room, crate::specs::Ranges::no_room))]
    pub fn lacks_room(self, seq: Seq, len: u32) -> bool
        requires { Sound self }
        ensures { result ≡ lacks_room self seq.0 len }
    {
        if self.held.count < SLOTS {
            return false;
        }
        let part = self.new_part(seq, len);
        part.is_out_of_order() && !self.meets_any(part)
    }

    // The receive side after the new part of a segment is taken.
    #[tactic(auto, using(crate::proofs::Parts::part_within, crate::proofs::Taken::advanced_keeps, crate::proofs::Taken::holding_keeps, crate::proofs::Taken::holding_near), unfolding(crate::specs::Taking::taken))]
    pub fn take(self, seq: Seq, len: u32) -> Receive
        requires { Sound self }
        ensures taken { result ≡ taken self (new_part self seq.0 len) }
        ensures sound { Sound result }
    {
        let part = self.new_part(seq, len);
        if part.from == 0 {
            self.advanced(part)
        } else if part.is_out_of_order() {
            self.holding(part)
        } else {
            self
        }
    }

    // Opens the window, or refuses a new one that is smaller or too large.
    #[tactic(auto, unfolding(crate::specs::Window::window_opened))]
    pub fn open_window(self, window: u32) -> Result<Receive, WindowRefused>
        requires { Sound self }
        ensures answer { shown self result ≡ window_opened self window }
        ensures sound { IfOk result Sound }
    {
        if self.refuses(window) {
            return Err(WindowRefused);
        }
        Ok(Receive { window, ..self })
    }

    // o(SEQ).
    fn first_offset(self, seq: Seq) -> u32
        ensures { result ≡ first_offset self seq.0 }
    {
        seq.offset(self.nxt)
    }

    // o(SEQ + LEN - 1), for a LEN above 0.
    fn last_offset(self, seq: Seq, len: u32) -> u32
        requires { 0 < len }
        ensures { result ≡ last_offset self seq.0 len }
    {
        seq.moved(len - 1).offset(self.nxt)
    }

    // Where a new part starts: at the first offset if that lies in the window, else at 0.
    fn part_start(self, seq: Seq) -> u32
        ensures { result ≡ part_start self seq.0 }
    {
        let first = self.first_offset(seq);
        if first < self.window { first } else { 0 }
    }

    // Where it ends: after the last offset or with the window.
    fn part_end(self, seq: Seq, len: u32) -> u32
        requires { 0 < len }
        ensures { result ≡ part_end self seq.0 len }
    {
        let past = self.last_offset(seq, len).saturating_add(1);
        past.min(self.window)
    }

    // E13.
    #[tactic(auto, unfolding(crate::specs::Window::is_window_refused))]
    fn refuses(self, window: u32) -> bool
        requires { Sound self }
        ensures { result ≡ is_window_refused self window }
    {
        window < self.window || MAX_FIELD << self.shift < window
    }

    // RCV.NXT moved on; the right window edge stays.
    #[tactic(auto, unfolding(crate::specs::Internal::moved_on))]
    fn moved_on(self, octets: u32) -> Receive
        requires { octets ≤ self.window }
        ensures { result ≡ moved_on self octets }
    {
        Receive {
            nxt: self.nxt.moved(octets),
            window: self.window - octets,
            ..self
        }
    }

    // RCV.NXT moved to the end of the part and of the ranges that it meets, which leave.
    #[tactic(auto, using(crate::proofs::Taken::advance_within, crate::proofs::Taken::advanced_alone), unfolding(crate::specs::Taking::advanced, crate::specs::Internal::moved_on))]
    fn advanced(self, part: Part) -> Receive
        requires sound { Sound self }
        requires within { part.to ≤ self.window }
        ensures { result ≡ advanced self part }
    {
        // Where nothing is held, the ranges are not touched: this is the way of the usual segment.
        if self.held.count == 0 {
            return self.moved_on(part.to);
        }
        let next = self.moved_on(self.joined(part).to);
        Receive {
            held: self.unmet(part),
            ..next
        }
    }

    // The part joined with the ranges that it meets, put first among the others.
    #[tactic(auto, using(crate::proofs::Room::put_after, crate::proofs::Room::unmet_most, crate::proofs::Slots::canonical_held, crate::proofs::Slots::ranges_held), unfolding(crate::specs::Taking::holding))]
    fn holding(self, part: Part) -> Receive
        requires sound { Sound self }
        requires out_of_order { IsTrue (is_out_of_order part) }
        ensures { result ≡ holding self part }
    {
        let range = self.joined(part).range(self.nxt);
        let others = self.unmet(part);
        Receive {
            held: others.with_first(range),
            ..self
        }
    }
}
