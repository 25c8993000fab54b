// Calls on the connection record: opening it, an arriving segment, octets sent, the receive window, an acknowledgment, expiry.
ghost use Rattle.std.specs.Prelude.{IfOk};
ghost use Rattle.connection.specs.Record.{Sound};

use crate::place_or_count;
use crate::state::State;
use crate::text::{Hex, OrDash, Ranges, RecordFields};
use connection::{Arrival, ArriveRefusal, Connection, Opened, ProfileRefusal};
use octets::Number;
use refusals::{Numbered, number_of};
use std::io;
use writer::Ports;

// Opens a record from the peer's SYN.
pub fn open(rt: &impl Print, state: &mut State, body: &[u8]) -> io::Result<()> {
    let answer = Connection::open(script::setup(body), u64::read(body, 14), rest(body, 22));
    let place = place_or_count::of_opening(answer);
    println!(rt; "open {} {}", number_of(&answer), OrDash(place))?;
    keep_opened(rt, state, answer)
}

// The same under the field-station profile.
pub fn open_under_profile(rt: &impl Print, state: &mut State, body: &[u8]) -> io::Result<()> {
    let setup = script::setup(body);
    let answer = Connection::open_under_profile(setup, u64::read(body, 14), rest(body, 22));
    let (lack, place) = match answer {
        Ok(opened) => (None, Some(opened.skipped)),
        Err(ProfileRefusal::Opening(why)) => (None, place_or_count::of_opening(Err(why))),
        Err(ProfileRefusal::Lacking(lack)) => (Some(lack.value()), None),
    };
    println!(rt;
        "profile {} {} {}",
        number_of(&answer),
        OrDash(lack),
        OrDash(place)
    )?;
    keep_opened(rt, state, answer)
}

// The record that was there stays where the opening is refused.
fn keep_opened<E: Copy>(
    rt: &impl Print,
    state: &mut State,
    answer: Result<Opened, E>,
) -> io::Result<()>
    requires { IfOk answer (λ opened. Sound opened.connection) }
{
    if let Ok(opened) = answer {
        state.connection = Some(opened.connection);
    }
    record_line(rt, state)
}

// Makes a call on the record, and keeps the record that it leaves; no call where none was opened. A record that is out of its state has no invariant,
// so each call asks that it is sound, and says so of what it leaves.
pub fn on_record<F: FnOnce(Connection) -> io::Result<Connection>>(
    rt: &impl Print,
    state: &mut State,
    call: F,
) -> io::Result<()>
    requires callable { (k : _) → Sound k → F.pre call k }
    requires keeps_sound { (k : _) (left : _) → Sound k → F.post call k left → IfOk left Sound }
{
    let Some(k) = state.connection else {
        return println!(rt; "closed");
    };
    state.connection = Some(call(k)?);
    record_line(rt, state)
}

pub fn arrive(rt: &impl Print, k: Connection, body: &[u8]) -> io::Result<Connection>
    requires { Sound k }
    ensures { IfOk result Sound }
{
    match k.arrive(u64::read(body, 0), rest(body, 8)) {
        Ok(arrival) => {
            print_arrival(rt, &arrival)?;
            Ok(arrival.connection)
        }
        Err(why) => {
            print_arrive_refusal(rt, why)?;
            Ok(k)
        }
    }
}

fn print_arrival(rt: &impl Print, arrival: &Arrival) -> io::Result<()> {
    let part = arrival.part;
    // A part whose end lies before its start has no octets.
    let length = part.to.saturating_sub(part.from);
    println!(rt;
        "arrive {} {} {length} {} {} {}",
        arrival.verdict.number(),
        part.from,
        u8::from(arrival.fin),
        Ranges(arrival.blocks.as_slice()),
        arrival.skipped
    )
}

fn print_arrive_refusal(rt: &impl Print, why: ArriveRefusal) -> io::Result<()> {
    let place = place_or_count::of_arrive_refusal(why);
    println!(rt; "arrive {} 0 0 0 0 {}", why.number(), OrDash(place))
}

pub fn note_sent(rt: &impl Print, k: Connection, body: &[u8]) -> io::Result<Connection>
    requires { Sound k }
    ensures { IfOk result Sound }
{
    let answer = k.note_sent(u32::read(body, 0));
    println!(rt; "sent {}", number_of(&answer))?;
    Ok(answer.unwrap_or(k))
}

pub fn open_window(rt: &impl Print, k: Connection, body: &[u8]) -> io::Result<Connection>
    requires { Sound k }
    ensures { IfOk result Sound }
{
    let answer = k.open_window(u32::read(body, 0));
    println!(rt; "window {}", number_of(&answer))?;
    Ok(answer.unwrap_or(k))
}

// Writes an acknowledgment into the buffer that the body ends in.
pub fn acknowledge(rt: &impl Print, k: Connection, body: &mut [u8]) -> io::Result<Connection>
    requires { Sound k }
    ensures { IfOk result Sound }
{
    let at = body.len().min(12);
    let (fields, buffer) = body.split_at_mut(at);
    let ports = Ports {
        source: u16::read(fields, 0),
        destination: u16::read(fields, 2),
    };
    let answer = acknowledgment::write(k, ports, u64::read(fields, 4), buffer);
    let length = answer.map_or(0, |written| written.length);
    println!(rt;
        "acknowledge {} {length} {}",
        number_of(&answer),
        Hex(buffer)
    )?;
    match answer {
        Ok(written) => Ok(written.connection),
        Err(_) => Ok(k),
    }
}

pub fn expire(rt: &impl Print, k: Connection) -> io::Result<Connection>
    requires { Sound k }
    ensures { IfOk result Sound }
{
    println!(rt; "expire")?;
    Ok(k.expire())
}

fn rest(body: &[u8], from: usize) -> &[u8] {
    body.get(from..).unwrap_or(&[])
}

fn record_line(rt: &impl Print, state: &State) -> io::Result<()> {
    println!(rt; "record {}", OrDash(state.connection.map(RecordFields)))
}
