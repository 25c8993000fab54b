// Calls on the timer that stands by itself: a new one, a sample, an expiry.
use crate::state::State;
use crate::text::TimerFields;
use octets::Number;
use refusals::number_of;
use rto::Timer;
use std::io;

pub fn renew(rt: &impl Print, state: &mut State) -> io::Result<()> {
    println!(rt; "timer")?;
    state.timer = Timer::new();
    timer_line(rt, state)
}

pub fn sample(rt: &impl Print, state: &mut State, body: &[u8]) -> io::Result<()> {
    let answer = state.timer.sample(u32::read(body, 0), u32::read(body, 4));
    println!(rt; "sample {}", number_of(&answer))?;
    state.timer = answer.unwrap_or(state.timer);
    timer_line(rt, state)
}

pub fn expire(rt: &impl Print, state: &mut State) -> io::Result<()> {
    println!(rt; "expiry")?;
    state.timer = state.timer.expire();
    timer_line(rt, state)
}

fn timer_line(rt: &impl Print, state: &State) -> io::Result<()> {
    println!(rt; "timer-state {}", TimerFields(state.timer))
}
