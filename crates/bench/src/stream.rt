// A recorded stream of calls: how many octets the prepared and the measured ones have, then the calls, one after the other.
ghost use Rattle.std.specs.Prelude.{◌<◌, ◌≤◌, length};
ghost use Rattle.std.specs.Iterator.{at_most};

use octets::Number;
use std::io::{ErrorKind, Read};
use std::{io, mem};

// The most octets that the calls of a stream have.
pub const MOST_OCTETS: usize = 262_144;

// The kinds of calls that a stream has, each by its first octet. `Call` of replay has ten more, none of which a stream may have: with that type
// each match here would have an arm for calls that never come.
#[derive(Clone, Copy)]
pub enum Kind {
    Read = 1,
    Open = 4,
    Arrive = 5,
    Sent = 6,
    Window = 7,
    Acknowledge = 8,
}

#[derive(Clone, Copy)]
pub struct UnknownKind;

impl TryFrom<u8> for Kind {
    type Error = UnknownKind;

    fn try_from(octet: u8) -> Result<Kind, UnknownKind> {
        match octet {
            1 => Ok(Kind::Read),
            4 => Ok(Kind::Open),
            5 => Ok(Kind::Arrive),
            6 => Ok(Kind::Sent),
            7 => Ok(Kind::Window),
            8 => Ok(Kind::Acknowledge),
            _ => Err(UnknownKind),
        }
    }
}

// Reads a stream into the start of `space`, and answers its prepared calls and its measured ones; nothing where the input is no stream.
pub fn load<'a>(
    input: &mut impl Read,
    space: &'a mut [u8],
) -> io::Result<Option<(&'a mut [u8], &'a mut [u8])>> {
    let mut head = [0; 8];
    if !fill(input, &mut head)? {
        return Ok(None);
    }
    let prepared = u32::read(&head, 0) as usize;
    let measured = u32::read(&head, 4) as usize;
    let Some(calls) = space.get_mut(..prepared + measured) else {
        return Ok(None);
    };
    if !fill(input, calls)? {
        return Ok(None);
    }
    Ok(Some(calls.split_at_mut(prepared)))
}

// Whether the input had enough octets to fill these.
pub fn fill(input: &mut impl Read, octets: &mut [u8]) -> io::Result<bool> {
    match input.read_exact(octets) {
        Ok(()) => Ok(true),
        Err(why) if why.kind() == ErrorKind::UnexpectedEof => Ok(false),
        Err(why) => Err(why),
    }
}

// The calls of a stream, each with the five octets before its body, so that a field lies five octets further than in a body alone. They are open
// to writing, since an acknowledgment goes into its call. The last one may be cut short.
#[derive(Drop)]
pub struct Calls<'a>(pub &'a mut [u8]);

impl<'a> Iterator for Calls<'a> {
    type Item = &'a mut [u8];

    ghost remaining = { λ calls. at_most (length calls.0.now) };

    fn next(&mut self) -> Option<&'a mut [u8]> {
        if self.0.is_empty() {
            return None;
        }
        let length = first_length(self.0);
        let (call, later) = mem::take(&mut self.0).split_at_mut(length);
        self.0 = later;
        Some(call)
    }
}

// How many octets the first call has.
fn first_length(calls: &[u8]) -> usize
    requires { 0 < length calls.now }
    ensures { (0 < result) × (result ≤ length calls.now) }
{
    calls.len().min(5 + u32::read(calls, 1) as usize)
}
