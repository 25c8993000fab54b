// Takes one recorded stream of calls many times, so that the time of each can be measured from outside; docs/SPEED.md has the format.

#![tactic(auto)]

mod acknowledging;
mod preparing;
mod rounds;
mod segments;
mod stream;
mod sums;

use octets::Number;
use rounds::Made;
use std::io;
use std::io::Read;

fn main(rt: HostRuntime) -> io::Result<()> {
    let mut input = rt.stdin();
    let mut space = [0; stream::MOST_OCTETS];
    run(&rt, &mut input, &mut space)
}

// Loads a stream, prepares its record, then answers the orders.
fn run(rt: &impl Print, input: &mut impl Read, space: &mut [u8]) -> io::Result<()> {
    let Some((prepared, measured)) = stream::load(input, space)? else {
        return println!(rt; "bad");
    };
    let Some(start) = preparing::prepare(prepared) else {
        return println!(rt; "bad");
    };
    answer_orders(rt, input, start, measured)
}

// A proved loop has to end, so it takes more turns than any input has orders.
fn answer_orders(
    rt: &impl Print,
    input: &mut impl Read,
    start: Made,
    calls: &mut [u8],
) -> io::Result<()> {
    for _ in 0..u64::MAX {
        let mut order = [0; 4];
        if !stream::fill(input, &mut order)? {
            return Ok(());
        }
        let sum = rounds::sum_of(start, calls, u32::read(&order, 0));
        // Whoever gave the order waits for its line, which is written at once.
        println!(rt; "{sum}")?;
    }
    Ok(())
}
