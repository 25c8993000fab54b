// What is added up of each answer, so that no part of it can be left out of the measured work. Sums are modulo 2^64.
use connection::{Arrival, Connection};
use receive::Part;
use refusals::Numbered;
use segment::{Flags, Options, Refusal, SackBlocks, Segment, Timestamps};
use serial::Range;

fn total(parts: &[u64]) -> u64 {
    parts.iter().fold(0, |sum, part| sum.wrapping_add(*part))
}

pub fn arrival(arrival: &Arrival) -> u64 {
    total(&[
        u64::from(arrival.verdict.number()),
        arrival.skipped as u64,
        new_part(arrival.part),
        u64::from(arrival.fin),
        blocks(arrival.blocks),
    ])
}

// The offset and the length.
fn new_part(part: Part) -> u64 {
    let length = part.to.wrapping_sub(part.from);
    total(&[u64::from(part.from), u64::from(length)])
}

// Of the record after a round.
pub fn record(k: &Connection) -> u64 {
    total(&[
        u64::from(k.receive.nxt.0),
        u64::from(k.send.una.0),
        u64::from(k.timestamping.recent.0),
        u64::from(k.timer.timeout),
    ])
}

// Of a segment that cannot be read, and the steps of its options.
pub fn refusal(why: Refusal, steps: usize) -> u64 {
    let place = why.place().map_or(0, u64::from);
    total(&[u64::from(why.number()), place, steps as u64])
}

// Of a segment that can be read, and the steps of its options.
pub fn segment(s: &Segment, steps: usize) -> u64 {
    total(&[
        header(s),
        options(&s.options),
        s.skipped as u64,
        steps as u64,
        s.payload.start as u64,
        u64::from(s.payload.length),
    ])
}

fn header(s: &Segment) -> u64 {
    total(&[
        u64::from(s.source),
        u64::from(s.destination),
        u64::from(s.seq.0),
        u64::from(s.ack.0),
        set(s.flags),
        u64::from(s.window),
        u64::from(s.urgent),
    ])
}

// How many of the flags are set.
fn set(flags: Flags) -> u64 {
    total(&[
        u64::from(flags.cwr),
        u64::from(flags.ece),
        u64::from(flags.urg),
        u64::from(flags.ack),
        u64::from(flags.psh),
        u64::from(flags.rst),
        u64::from(flags.syn),
        u64::from(flags.fin),
    ])
}

fn options(options: &Options) -> u64 {
    total(&[
        options.mss.map_or(0, u64::from),
        options.scale.map_or(0, u64::from),
        u64::from(options.permitted),
        options.timestamps.map_or(0, stamps),
        blocks(options.blocks),
    ])
}

fn stamps(timestamps: Timestamps) -> u64 {
    total(&[
        u64::from(timestamps.value.0),
        u64::from(timestamps.echoed.0),
    ])
}

// By value: of what is lent and gone through by an index the compiler leaves the whole in memory.
fn blocks(blocks: SackBlocks) -> u64 {
    blocks
        .as_slice()
        .iter()
        .fold(0, |sum, block| sum.wrapping_add(edges(block)))
}

fn edges(block: &Range) -> u64 {
    total(&[u64::from(block.left.0), u64::from(block.right.0)])
}
