// Replays a script of calls from standard input on one connection record and one timer, and writes a line or two of text for each.

#![tactic(auto)]

mod call;
mod input;
mod place_or_count;
mod queries;
mod record_calls;
mod state;
mod text;
mod timer_calls;

use call::Call;
use input::{InputError, MAX_BODY};
use record_calls::on_record;
use state::State;
use std::io;
use std::io::Read;

fn main(rt: HostRuntime) -> io::Result<()> {
    let mut script = rt.stdin();
    let mut space = [0; MAX_BODY];
    play(&rt, &mut script, &mut space)
}

fn play(rt: &impl Print, script: &mut impl Read, space: &mut [u8]) -> io::Result<()> {
    let mut state = State::new();
    // A proved loop has to end, and no script uses up so many turns.
    for _ in 0..u64::MAX {
        match input::next(script, space) {
            Ok(Some((call, body))) => answer(rt, &mut state, call, body)?,
            Ok(None) => break,
            Err(InputError::Bad) => return println!(rt; "bad"),
            Err(InputError::Io(e)) => return Err(e),
        }
    }
    Ok(())
}

// Makes a call, and writes its answer: one match of each call on its function, which no table would say more plainly.
fn answer(rt: &impl Print, state: &mut State, call: Call, body: &mut [u8]) -> io::Result<()> {
    match call {
        Call::Read => queries::read(rt, body),
        Call::Find => queries::find(rt, body),
        Call::Distance => queries::distance(rt, body),
        Call::Open => record_calls::open(rt, state, body),
        Call::Arrive => on_record(rt, state, |k| record_calls::arrive(rt, k, body)),
        Call::Sent => on_record(rt, state, |k| record_calls::note_sent(rt, k, body)),
        Call::Window => on_record(rt, state, |k| record_calls::open_window(rt, k, body)),
        Call::Acknowledge => on_record(rt, state, |k| record_calls::acknowledge(rt, k, body)),
        Call::Expire => on_record(rt, state, |k| record_calls::expire(rt, k)),
        Call::Timer => timer_calls::renew(rt, state),
        Call::Sample => timer_calls::sample(rt, state, body),
        Call::Expiry => timer_calls::expire(rt, state),
        Call::Refusal => queries::refusal(rt, body),
        Call::DistanceForC => queries::distance_for_c(rt, body),
        Call::Milliseconds => queries::milliseconds(rt, body),
        Call::OpenUnderProfile => record_calls::open_under_profile(rt, state, body),
    }
}
