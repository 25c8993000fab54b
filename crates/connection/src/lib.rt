// The record of one connection: opening it, arriving segments, octets sent, the receive window, expiry.

#![tactic(auto)]

mod judging;
mod listing;
mod opening;
mod profile;
mod taking;

ghost use Rattle.std.specs.Prelude.{◌≡◌, IfOk, Ok};
ghost use Rattle.std.proofs.Common.{rules};
ghost use Rattle.std.proofs.Math.Option.{none, some};
ghost use Rattle.connection.specs.declared.ArriveRefusal.{ArriveRefusal};
ghost use Rattle.connection.specs.declared.OpenRefusal.{OpenRefusal};
ghost use Rattle.connection.specs.declared.ProfileRefusal.{ProfileRefusal};
ghost use Rattle.connection.specs.Numbers.{arrival_number, arrive_refusal_number, open_refusal_number, profile_refusal_number, reason_number, verdict_of};
ghost use Rattle.connection.specs.Record.{Sound, blank};
ghost use Rattle.connection.specs.Opening.{opening, opening_read, shown_open};
ghost use Rattle.connection.specs.Profile.{profile_opening, profile_opening_read, shown_profile};
ghost use Rattle.connection.specs.Arriving.{arriving, arriving_read, is_take, shown, taken_by, unchanged};
ghost use Rattle.connection.specs.Operations.{expired, sent, shown_sent, shown_window, window_opened};

use field_station::Lack;
use offers::Offers;
use receive::{Part, Receive, WindowRefused};
use refusals::Numbered;
use rto::Timer;
use segment::{Refusal, SackBlocks, Segment};
use send::{Send, SentRefused};
use serial::{Seq, Stamp};
use timestamps::Timestamping;

// `Sound` is a premise and no invariant, as document 01 has it: `receive`, `send` and `timestamps` take values too that are not sound.
#[derive(Clone, Copy)]
pub struct Connection {
    pub receive: Receive,
    pub send: Send,
    pub timestamping: Timestamping,
    // Whether SACK is in force.
    pub sack: bool,
    // The peer's maximum segment size.
    pub mss: u16,
    pub timer: Timer,
}

// What an opening is given beside the clock and the peer's SYN segment.
#[derive(Clone, Copy)]
pub struct Setup {
    pub iss: Seq,
    pub offers: Offers,
    // The first receive window.
    pub window: u32,
    // The offset of our timestamps.
    pub offset: u32,
}

// What an opening gives.
#[derive(Clone, Copy)]
pub struct Opened {
    pub connection: Connection,
    // How many unknown options of the SYN segment were skipped.
    pub skipped: usize,
}

// Why an opening is refused.
#[derive(Clone, Copy)]
pub enum OpenRefusal {
    // E9.
    ExceededLimits,
    // E1 to E6, an option at fault with its place.
    Segment(Refusal),
    // E10.
    NotSyn,
    // E11.
    WrongAck,
}

// Why an opening under the field-station profile (document 02's term) is refused.
#[derive(Clone, Copy)]
pub enum ProfileRefusal {
    // As without the profile.
    Opening(OpenRefusal),
    // E17, and the profile's first demand that is not met.
    Lacking(Lack),
}

// Why a segment is dropped, by document 01's numbers, of 31 document 02's.
#[derive(Clone, Copy, PartialEq, Eq)]
pub enum Reason {
    TimestampMissing = 21,
    TimestampOld = 22,
    ResetOutside = 23,
    Outside = 24,
    ResetInside = 26,
    SynInside = 27,
    AckMissing = 28,
    AckUnsent = 29,
    // Stands before 30.
    AckTooOld = 31,
    NoRoom = 30,
}

// What becomes of an arriving segment.
#[derive(Clone, Copy, PartialEq, Eq)]
pub enum Verdict {
    Take,
    // 25.
    Reset,
    // Dropped, in silence or with an acknowledgment sent.
    Silent(Reason),
    WithAck(Reason),
}

// Why an arriving segment is refused.
#[derive(Clone, Copy)]
pub enum ArriveRefusal {
    // E1 to E6, an option at fault with its place.
    Segment(Refusal),
    // E8.
    ClockBack,
}

// The answer to an arriving segment. Only a take has a new part, a FIN in it, listed SACK blocks and a changed connection.
// They stand beside the verdict, whose form document 01 gives.
#[derive(Clone, Copy)]
pub struct Arrival {
    pub verdict: Verdict,
    // Whether FIN lies in the part. It stands here since before the blocks it would leave padding, which the compiler copies with them in pieces
    // that overlap.
    pub fin: bool,
    // How many unknown options of the segment were skipped.
    pub skipped: usize,
    pub part: Part,
    pub blocks: SackBlocks,
    pub connection: Connection,
}

impl Numbered for OpenRefusal {
    ghost number = { open_refusal_number };

    fn number(self) -> u8 {
        match self {
            OpenRefusal::ExceededLimits => 9,
            OpenRefusal::Segment(why) => why.number(),
            OpenRefusal::NotSyn => 10,
            OpenRefusal::WrongAck => 11,
        }
    }

    ghost positive = { Prim.search rules };
}

impl Numbered for ProfileRefusal {
    ghost number = { profile_refusal_number };

    fn number(self) -> u8 {
        match self {
            ProfileRefusal::Opening(why) => why.number(),
            ProfileRefusal::Lacking(_) => 17,
        }
    }

    ghost positive = { Prim.search rules };
}

impl Numbered for ArriveRefusal {
    ghost number = { arrive_refusal_number };

    fn number(self) -> u8 {
        match self {
            ArriveRefusal::Segment(why) => why.number(),
            ArriveRefusal::ClockBack => 8,
        }
    }

    ghost positive = { Prim.search rules };
}

impl From<Refusal> for OpenRefusal {
    ghost from_gives = { λ why refusal. refusal ≡ OpenRefusal.Segment why };

    fn from(why: Refusal) -> OpenRefusal {
        OpenRefusal::Segment(why)
    }
}

impl From<Refusal> for ArriveRefusal {
    ghost from_gives = { λ why refusal. refusal ≡ ArriveRefusal.Segment why };

    fn from(why: Refusal) -> ArriveRefusal {
        ArriveRefusal::Segment(why)
    }
}

impl From<Refusal> for ProfileRefusal {
    ghost from_gives = { λ why refusal. refusal ≡ ProfileRefusal.Opening (OpenRefusal.Segment why) };

    fn from(why: Refusal) -> ProfileRefusal {
        ProfileRefusal::Opening(OpenRefusal::Segment(why))
    }
}

impl From<OpenRefusal> for ProfileRefusal {
    ghost from_gives = { λ why refusal. refusal ≡ ProfileRefusal.Opening why };

    fn from(why: OpenRefusal) -> ProfileRefusal {
        ProfileRefusal::Opening(why)
    }
}

impl From<Lack> for ProfileRefusal {
    ghost from_gives = { λ lack refusal. refusal ≡ ProfileRefusal.Lacking lack };

    fn from(lack: Lack) -> ProfileRefusal {
        ProfileRefusal::Lacking(lack)
    }
}

impl Reason {
    pub fn number(self) -> u8
        ensures { result ≡ reason_number self }
    {
        self as u8
    }
}

impl Verdict {
    // Document 01's number.
    pub fn number(self) -> u8
        ensures { result ≡ (verdict_of self).number }
    {
        match self {
            Verdict::Take => 0,
            Verdict::Reset => 25,
            Verdict::Silent(why) | Verdict::WithAck(why) => why.number(),
        }
    }

    fn is_take(self) -> bool
        ensures { result ≡ is_take (verdict_of self).action }
    {
        matches!(self, Verdict::Take)
    }
}

// The number of an arrival's answer: its verdict's, or its refusal's.
pub fn arrival_number(answer: &Result<Arrival, ArriveRefusal>) -> u8
    ensures { result ≡ arrival_number answer.now }
{
    match answer {
        Ok(arrival) => arrival.verdict.number(),
        Err(why) => why.number(),
    }
}

// An opening has four ways, by octets or fields and with the profile or without, so that none can give a refusal that is not its own; setup, clock
// and SYN are what each caller has.
impl Connection {
    // Opens a record from the peer's SYN segment: E9, reading, E10, E11.
    #[tactic(auto, using(crate::proofs::Exits::read_shown, crate::proofs::Exits::unread_opening, crate::proofs::Exits::read_opening), unfolding(crate::specs::Opening::opening))]
    pub fn open(own: Setup, clock: u64, syn: &[u8]) -> Result<Opened, OpenRefusal>
        ensures answer { shown_open result ≡ opening own clock syn.now }
        ensures sound { IfOk result (λ opened. Sound opened.connection) }
    {
        opening::within_limits(own)?;
        let syn = segment::read(syn).outcome?;
        opening::open_from(own, clock, &syn)
    }

    // The same from a SYN segment that has been read: E9, E10, E11.
    #[tactic(auto, unfolding(crate::specs::Opening::opening_read))]
    pub fn open_read(own: Setup, clock: u64, syn: &Segment) -> Result<Opened, OpenRefusal>
        ensures answer { shown_open result ≡ opening_read own clock syn.now }
        ensures sound { IfOk result (λ opened. Sound opened.connection) }
    {
        opening::within_limits(own)?;
        opening::open_from(own, clock, syn)
    }

    // Opens a record under the field-station profile: E9, reading, E10, E11, E17.
    #[tactic(auto, using(crate::proofs::Exits::read_shown, crate::proofs::Exits::limits_profile, crate::proofs::Exits::unread_profile, crate::proofs::Exits::read_profile))]
    pub fn open_under_profile(own: Setup, clock: u64, syn: &[u8]) -> Result<Opened, ProfileRefusal>
        ensures answer { shown_profile result ≡ profile_opening own clock syn.now }
        ensures sound { IfOk result (λ opened. Sound opened.connection) }
    {
        opening::within_limits(own)?;
        let syn = segment::read(syn).outcome?;
        profile::open_from(own, clock, &syn)
    }

    // The same from a SYN segment that has been read: E9, E10, E11, E17.
    #[tactic(auto, unfolding(crate::specs::Profile::profile_opening_read, crate::specs::Profile::under_profile, crate::specs::Opening::opening_read))]
    pub fn open_read_under_profile(
        own: Setup,
        clock: u64,
        syn: &Segment,
    ) -> Result<Opened, ProfileRefusal>
        ensures answer { shown_profile result ≡ profile_opening_read own clock syn.now }
        ensures sound { IfOk result (λ opened. Sound opened.connection) }
    {
        opening::within_limits(own)?;
        profile::open_from(own, clock, syn)
    }

    // The record that the definitions have beside a refused opening, and one to begin with where none was opened.
    #[tactic(auto, using(crate::proofs::Keeping::blank_sound), unfolding(crate::specs::Record::blank))]
    pub fn blank() -> Connection
        ensures blank { result ≡ blank }
        ensures sound { Sound result }
    {
        let zero = Seq(0);
        Connection {
            receive: Receive::new(zero, 0, 0),
            send: Send {
                una: zero,
                nxt: zero,
                window: 0,
                largest: 0,
                shift: 0,
                wl1: zero,
                wl2: zero,
            },
            timestamping: Timestamping {
                active: false,
                recent: Stamp(0),
                since: 0,
                offset: 0,
            },
            sack: false,
            mss: 0,
            timer: Timer::new(),
        }
    }

    // The answer to a segment that arrives at this clock: reading, E8, the verdict, and what taking does.
    #[tactic(auto, using(crate::proofs::Exits::read_shown, crate::proofs::Exits::unread_arrival, crate::proofs::Exits::read_arrival))]
    pub fn arrive(self, clock: u64, segment: &[u8]) -> Result<Arrival, ArriveRefusal>
        requires { Sound self }
        ensures answer { shown self result ≡ arriving self clock segment.now }
        ensures sound { IfOk result (λ arrival. Sound arrival.connection) }
    {
        let s = segment::read(segment).outcome?;
        self.arrive_read(clock, &s)
    }

    // The same for a segment that has been read, as by a caller who finds the connection by its ports: E8, then the verdict.
    #[tactic(auto, unfolding(crate::specs::Arriving::arriving_read, crate::specs::Arriving::judged, crate::specs::Arriving::settled))]
    pub fn arrive_read(self, clock: u64, s: &Segment) -> Result<Arrival, ArriveRefusal>
        requires { Sound self }
        ensures answer { shown self result ≡ arriving_read self clock s.now }
        ensures sound { IfOk result (λ arrival. Sound arrival.connection) }
    {
        if clock < self.timestamping.since {
            return Err(ArriveRefusal::ClockBack);
        }
        let verdict = self.judge(clock, s);
        if verdict.is_take() {
            return Ok(self.take(clock, s));
        }
        Ok(self.unchanged(verdict, s.skipped))
    }

    // Notes that `n` octets were sent.
    #[tactic(auto, unfolding(crate::specs::Operations::sent))]
    pub fn note_sent(self, n: u32) -> Result<Connection, SentRefused>
        requires { Sound self }
        ensures answer { shown_sent self result ≡ sent self n }
        ensures sound { IfOk result Sound }
    {
        let send = self.send.note_sent(n)?;
        Ok(Connection { send, ..self })
    }

    // Opens the receive window.
    #[tactic(auto, unfolding(crate::specs::Operations::window_opened))]
    pub fn open_window(self, window: u32) -> Result<Connection, WindowRefused>
        requires { Sound self }
        ensures answer { shown_window self result ≡ window_opened self window }
        ensures sound { IfOk result Sound }
    {
        let receive = self.receive.open_window(window)?;
        Ok(Connection { receive, ..self })
    }

    // The record after its timer expired.
    #[tactic(auto, unfolding(crate::specs::Operations::expired))]
    pub fn expire(self) -> Connection
        requires { Sound self }
        ensures expired { result ≡ expired self }
        ensures sound { Sound result }
    {
        Connection {
            timer: self.timer.expire(),
            ..self
        }
    }

    #[tactic(auto, unfolding(crate::specs::Arriving::taken_by))]
    fn take(self, clock: u64, s: &Segment) -> Arrival
        requires { Sound self }
        ensures answer { shown self (Ok result) ≡ taken_by self clock s.now }
        ensures sound { Sound result.connection }
    {
        let connection = self.record_after(clock, s);
        Arrival {
            verdict: Verdict::Take,
            fin: self.receive.has_fin(s.seq, s.len, s.flags.fin),
            skipped: s.skipped,
            part: self.receive.new_part(s.seq, s.len),
            blocks: connection.listed(s),
            connection,
        }
    }

    // The answer that leaves the record as it is.
    fn unchanged(self, verdict: Verdict, skipped: usize) -> Arrival
        ensures { shown self (Ok result) ≡ unchanged self (verdict_of verdict) none (some skipped) }
    {
        Arrival {
            verdict,
            fin: false,
            skipped,
            part: Part::empty(),
            blocks: SackBlocks::none(),
            connection: self,
        }
    }
}
