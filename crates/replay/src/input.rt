// A call read from standard input: the octet that names it, the length of its body, and the body.
use crate::call::{Call, UnknownCall};
use octets::Number;
use std::io;
use std::io::{ErrorKind, Read};

// The most octets of a body.
pub const MAX_BODY: usize = 65_664;

// Why no call can be made.
#[derive(Drop)]
pub enum InputError {
    // Octets that are no call: an unknown one, a body that is too long or too short, or an end inside of it.
    Bad,
    Io(io::Error),
}

impl From<io::Error> for InputError {
    fn from(e: io::Error) -> InputError {
        if e.kind() == ErrorKind::UnexpectedEof {
            return InputError::Bad;
        }
        InputError::Io(e)
    }
}

impl From<UnknownCall> for InputError {
    fn from(_: UnknownCall) -> InputError {
        InputError::Bad
    }
}

// Reads the next call, and its body into the start of `space`; there is none where the script ends.
pub fn next<'a>(
    script: &mut impl Read,
    space: &'a mut [u8],
) -> Result<Option<(Call, &'a mut [u8])>, InputError> {
    let mut head = [0; 5];
    // A script ends before the first octet of a call; what is left of the head, and the body, must be there.
    let got = script.read(&mut head)?;
    if got == 0 {
        return Ok(None);
    }
    script.read_exact(&mut head[got..])?;
    let length = u32::read(&head, 1) as usize;
    let Some(body) = space.get_mut(..length) else {
        return Err(InputError::Bad);
    };
    script.read_exact(body)?;
    let call = Call::try_from(head[0])?;
    if length < call.fixed_fields(body) {
        return Err(InputError::Bad);
    }
    Ok(Some((call, body)))
}
