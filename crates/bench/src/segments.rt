// Calls that bring a segment: read, open, arrive. All of them read it at one place, so that the compiler puts the reading, and what is done
// with it, into the loop.
ghost use Rattle.connection.specs.Record.{Sound};

use crate::rounds::Made;
use crate::stream::Calls;
use crate::sums;
use connection::Connection;
use octets::Number;
use refusals::Numbered;
use segment::Segment;

// The kinds of calls that bring a segment; a kind of any other call has no arm here.
#[derive(Clone, Copy)]
pub enum Bringing {
    Read,
    Open,
    Arrive,
}

// Makes the calls, all of one kind, each on the record that the one before left.
pub fn make(start: Made, calls: &mut [u8], kind: Bringing) -> Made {
    let mut made = start;
    let skip = fixed_octets(kind);
    for call in Calls(calls) {
        let reading = segment::read(call.get(skip..).unwrap_or(&[]));
        match (reading.outcome, kind) {
            (Err(why), Bringing::Read) => made.add(sums::refusal(why, reading.steps)),
            // An arrival does not give the steps.
            (Err(why), Bringing::Open | Bringing::Arrive) => made.add(sums::refusal(why, 0)),
            (Ok(s), Bringing::Read) => made.add(sums::segment(&s, reading.steps)),
            (Ok(syn), Bringing::Open) => made.connection = open(call, &syn),
            (Ok(s), Bringing::Arrive) => match made.connection.arrive_read(u64::read(call, 5), &s) {
                Ok(arrival) => {
                    made.add(sums::arrival(&arrival));
                    made.connection = arrival.connection;
                }
                Err(why) => made.add(u64::from(why.number())),
            },
        }
    }
    made
}

// How many octets of a call stand before its segment.
fn fixed_octets(kind: Bringing) -> usize {
    match kind {
        Bringing::Read => 5,
        Bringing::Open => 27,
        Bringing::Arrive => 13,
    }
}

// The record that is opened, a blank one where the opening is refused.
fn open(call: &[u8], syn: &Segment) -> Connection
    ensures { Sound result }
{
    let setup = script::setup(call.get(5..).unwrap_or(&[]));
    match Connection::open_read(setup, u64::read(call, 19), syn) {
        Ok(opened) => opened.connection,
        Err(_) => Connection::blank(),
    }
}
