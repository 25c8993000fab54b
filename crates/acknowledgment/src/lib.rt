// Acknowledgments: what a record says to the peer, written into a buffer.

#![tactic(auto)]

ghost use Rattle.std.specs.Prelude.{◌≡◌, ◌≤◌, IfOk, take};
ghost use Rattle.std.proofs.Common.{rules};
ghost use Rattle.segment.specs.SackBlocks.{held};
ghost use Rattle.receive.specs.Ranges.{ranges_of};
ghost use Rattle.connection.specs.Operations.{acknowledged};
ghost use Rattle.connection.specs.Record.{Sound};
ghost use Rattle.acknowledgment.specs.declared.AckRefusal.{AckRefusal};
ghost use Rattle.acknowledgment.specs.Acknowledgment.{acknowledging, own_blocks, own_header, own_options, own_timestamps, refusal_number, shown, window_field};

use connection::Connection;
use receive::Receive;
use refusals::Numbered;
use segment::{Flags, Options, SackBlocks, Timestamps};
use serial::{Range, Stamp};
use timestamps::Timestamping;
use writer::{BufferTooShort, Header, Ports};

const ONLY_ACK: Flags = Flags {
    cwr: false,
    ece: false,
    urg: false,
    ack: true,
    psh: false,
    rst: false,
    syn: false,
    fin: false,
};

// Why an acknowledgment is refused: E8 or E7.
#[derive(Clone, Copy, PartialEq, Eq)]
pub enum AckRefusal {
    ClockBack = 8,
    BufferTooShort = 7,
}

// An acknowledgment that was written.
#[derive(Clone, Copy)]
pub struct Acknowledged {
    // How many octets were written.
    pub length: usize,
    // The record afterwards.
    pub connection: Connection,
}

impl Numbered for AckRefusal {
    ghost number = { refusal_number };

    fn number(self) -> u8 {
        self as u8
    }

    ghost positive = { Prim.search rules };
}

impl From<BufferTooShort> for AckRefusal {
    ghost from_gives = { λ _ why. why ≡ AckRefusal.BufferTooShort };

    fn from(_why: BufferTooShort) -> AckRefusal {
        AckRefusal::BufferTooShort
    }
}

// The window as the peer is to scale it.
#[tactic(auto, unfolding(crate::specs::Acknowledgment::window_field))]
fn window_field(r: Receive) -> u16
    requires { r.shift ≤ 14 }
    ensures { result ≡ window_field r }
{
    (r.window >> r.shift).min(65_535) as u16
}

#[tactic(auto, unfolding(crate::specs::Acknowledgment::own_header))]
fn own_header(k: Connection, ports: Ports) -> Header
    requires { Sound k }
    ensures { result ≡ own_header k ports }
{
    Header {
        ports,
        seq: k.send.nxt,
        ack: k.receive.nxt,
        flags: ONLY_ACK,
        window: window_field(k.receive),
    }
}

#[tactic(auto, unfolding(crate::specs::Acknowledgment::own_timestamps))]
fn own_timestamps(t: Timestamping, clock: u64) -> Option<Timestamps>
    ensures { result ≡ own_timestamps t clock }
{
    t.active.then_some(Timestamps {
        value: Stamp::at(clock, t.offset),
        echoed: t.recent,
    })
}

// At most so many of the ranges.
fn first_ranges(ranges: &[Range], most: usize) -> SackBlocks
    requires { most ≤ 4 }
    ensures { held result ≡ take most ranges.now }
{
    let mut blocks = SackBlocks::none();
    // Up to a constant besides, so that the compiler makes no loop of it.
    for range in ranges.iter().take(most).take(4) {
        blocks.push(*range);
    }
    blocks
}

// From the newest range on, three beside timestamps, and four without them.
#[tactic(auto, unfolding(crate::specs::Acknowledgment::own_blocks))]
fn own_blocks(k: Connection) -> SackBlocks
    ensures { held result ≡ own_blocks k }
{
    if !k.sack {
        return SackBlocks::none();
    }
    let most = if k.timestamping.active { 3 } else { 4 };
    first_ranges(k.receive.held.as_slice(), most)
}

#[tactic(auto, using(segment::proofs::HeldBlocks::is_padded), unfolding(crate::specs::Acknowledgment::own_options))]
fn own_options(k: Connection, clock: u64) -> Options
    ensures { result ≡ own_options k clock }
{
    Options {
        mss: None,
        scale: None,
        permitted: false,
        blocks: own_blocks(k),
        timestamps: own_timestamps(k.timestamping, clock),
    }
}

// The record after an acknowledgment was written.
#[tactic(auto, unfolding(connection::specs::Operations::acknowledged))]
fn record_after(k: Connection) -> Connection
    ensures { result ≡ acknowledged k }
{
    Connection {
        receive: Receive {
            acked: k.receive.nxt,
            ..k.receive
        },
        ..k
    }
}

// Writes the acknowledgment of a record at the start of the buffer, and leaves the octets after it: E8, then E7.
#[tactic(auto, using(crate::proofs::Answers::clock_back_if, connection::proofs::Keeping::acknowledged_sound))]
pub fn write(
    k: Connection,
    ports: Ports,
    clock: u64,
    buffer: &mut [u8],
) -> Result<Acknowledged, AckRefusal>
    requires { Sound k }
    ensures answer { shown k result buffer.new ≡ acknowledging k ports clock buffer.old }
    ensures sound { IfOk result (λ a. Sound a.connection) }
{
    if clock < k.timestamping.since {
        return Err(AckRefusal::ClockBack);
    }
    let length = writer::write(own_header(k, ports), &own_options(k, clock), buffer)?;
    Ok(Acknowledged {
        length,
        connection: record_after(k),
    })
}
