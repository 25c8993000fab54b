// Opening a record from the peer's SYN segment.
ghost use Rattle.std.specs.Prelude.{◌≡◌, true, false, IfErr, IfOk, OnOk};
ghost use Rattle.connection.specs.declared.OpenRefusal.{OpenRefusal};
ghost use Rattle.connection.specs.Record.{Sound};
ghost use Rattle.connection.specs.Opening.{exceeds_limits, is_not_syn, is_wrong_ack, mss_of, opening_from, peer_offers, record_from, shown_open};

use super::taking::{ack_fields_of, tsval_of};
use super::{Connection, OpenRefusal, Opened, Setup};
use offers::Offers;
use receive::Receive;
use rto::Timer;
use segment::Segment;
use send::Send;
use serial::Seq;
use timestamps::Timestamping;

// The MSS of a SYN that has none.
const DEFAULT_MSS: u16 = 536;

pub fn mss(option: Option<u16>) -> u16
    ensures { result ≡ mss_of option }
{
    option.unwrap_or(DEFAULT_MSS)
}

// What the peer's SYN offers.
pub fn peer_offers(syn: &Segment) -> Offers
    ensures { result ≡ peer_offers syn.now }
{
    Offers {
        scale: syn.options.scale,
        timestamps: syn.options.timestamps.is_some(),
        sack: syn.options.permitted,
    }
}

// E9.
pub fn within_limits(own: Setup) -> Result<(), OpenRefusal>
    ensures ok { OnOk result (exceeds_limits own ≡ false) }
    ensures err { IfErr result (λ why. (why ≡ OpenRefusal.ExceededLimits) × (exceeds_limits own ≡ true)) }
{
    if own.offers.exceed_limits(own.window) {
        return Err(OpenRefusal::ExceededLimits);
    }
    Ok(())
}

// E10.
#[tactic(auto, unfolding(crate::specs::Opening::is_not_syn))]
fn is_not_syn(syn: &Segment) -> bool
    ensures { result ≡ is_not_syn syn.now }
{
    !syn.flags.syn || syn.flags.rst
}

// E11.
#[tactic(auto, unfolding(crate::specs::Opening::is_wrong_ack))]
fn is_wrong_ack(iss: Seq, syn: &Segment) -> bool
    ensures { result ≡ is_wrong_ack iss.0 syn.now }
{
    syn.flags.ack && syn.ack != iss.moved(1)
}

#[tactic(auto, using(crate::proofs::Keeping::record_sound), unfolding(crate::specs::Opening::record_from, crate::specs::Opening::record_with))]
fn record_from(own: Setup, clock: u64, syn: &Segment) -> Connection
    ensures opened { result ≡ record_from own clock syn.now }
    ensures sound { Sound result }
{
    let force = own.offers.in_force(peer_offers(syn));
    let receive_shift = u32::from(force.shifts.receive);
    let send_shift = u32::from(force.shifts.send);
    Connection {
        receive: Receive::new(syn.seq.moved(1), own.window, receive_shift),
        send: Send::new(own.iss, send_shift, ack_fields_of(syn), syn.flags.ack),
        timestamping: Timestamping::new(force.timestamps, own.offset, clock, tsval_of(syn)),
        sack: force.sack,
        mss: mss(syn.options.mss),
        timer: Timer::new(),
    }
}

// E10, E11, then the record.
#[tactic(auto, unfolding(crate::specs::Opening::opening_from))]
pub fn open_from(own: Setup, clock: u64, syn: &Segment) -> Result<Opened, OpenRefusal>
    ensures answer { shown_open result ≡ opening_from own clock syn.now }
    ensures sound { IfOk result (λ opened. Sound opened.connection) }
{
    if is_not_syn(syn) {
        return Err(OpenRefusal::NotSyn);
    }
    if is_wrong_ack(own.iss, syn) {
        return Err(OpenRefusal::WrongAck);
    }
    Ok(Opened {
        connection: record_from(own, clock, syn),
        skipped: syn.skipped,
    })
}
