// Calls without a state: reading a segment, finding an option, the distance, and the functions for C.
use crate::text::{Hex, OrDash, SegmentFields};
use octets::Number;
use refusals::number_of;
use serial::{Seq, Serial};
use std::io;

pub fn read(rt: &impl Print, segment: &[u8]) -> io::Result<()> {
    let reading = segment::read(segment);
    let number = number_of(&reading.outcome);
    let steps = reading.steps;
    match reading.outcome {
        Ok(s) => println!(rt; "read {number} {} {} {steps}", SegmentFields(s), s.skipped),
        Err(why) => println!(rt; "read {number} {} {steps}", OrDash(why.place())),
    }
}

pub fn find(rt: &impl Print, body: &[u8]) -> io::Result<()> {
    let count = usize::from(octets::read_u8(body, 0));
    let lists = body.get(1..).unwrap_or(&[]);
    let (kinds, segment) = lists.split_at(count.min(lists.len()));
    println!(rt; "find {}", Hex(segment::find_option(segment, kinds)))
}

pub fn distance(rt: &impl Print, body: &[u8]) -> io::Result<()> {
    let from = Seq(u32::read(body, 0));
    let to = Seq(u32::read(body, 4));
    println!(rt; "distance {}", from.distance(to))
}

// By the function for C, which a script calls apart.
pub fn distance_for_c(rt: &impl Print, body: &[u8]) -> io::Result<()> {
    let from = u32::read(body, 0);
    let to = u32::read(body, 4);
    println!(rt; "distance {}", gateway::noppalerk_distance(from, to))
}

pub fn refusal(rt: &impl Print, segment: &[u8]) -> io::Result<()> {
    println!(rt; "refusal {}", gateway::noppalerk_refusal(segment))
}

pub fn milliseconds(rt: &impl Print, body: &[u8]) -> io::Result<()> {
    let srtt = u64::read(body, 0);
    let rttvar = u64::read(body, 8);
    println!(rt;
        "milliseconds {}",
        gateway::noppalerk_milliseconds(srtt, rttvar)
    )
}
