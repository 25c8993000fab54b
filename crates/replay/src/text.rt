// How the fields of a line are printed: in decimal, one space apart. They are parts of one print, which is a call of the system for
// each 1,024 octets, and one for what is left.
ghost use Rattle.std.specs.Prelude.{◌≤◌, length};

use connection::Connection;
use rto::Timer;
use segment::Segment;
use serial::Range;
use std::{fmt, str};

const DIGITS: &[u8; 16] = b"0123456789abcdef";

// The most octets whose digits are written as one text.
const CHUNK: usize = 256;

// `-` for what is absent.
#[derive(Clone, Copy)]
pub struct OrDash<T>(pub Option<T>);

impl<T: fmt::Display> fmt::Display for OrDash<T> {
    fn fmt<W: fmt::Write>(&self, f: &mut fmt::Formatter<W>) -> fmt::Result {
        match &self.0 {
            Some(value) => write!(f, "{value}"),
            None => f.write_str("-"),
        }
    }
}

// Octets in hexadecimal, run together; `-` where there are none.
#[derive(Clone, Copy)]
pub struct Hex<'a>(pub &'a [u8]);

impl fmt::Display for Hex<'_> {
    fn fmt<W: fmt::Write>(&self, f: &mut fmt::Formatter<W>) -> fmt::Result {
        if self.0.is_empty() {
            return f.write_str("-");
        }
        for octets in self.0.chunks(CHUNK) {
            write_chunk(f, octets)?;
        }
        Ok(())
    }
}

// Writes a chunk's digits as one text, since each text has a cost of its own.
fn write_chunk<W: fmt::Write>(f: &mut fmt::Formatter<W>, octets: &[u8]) -> fmt::Result
    requires { length octets.now ≤ CHUNK }
{
    let mut digits = [[0; 2]; CHUNK];
    for (pair, octet) in digits.iter_mut().zip(octets) {
        *pair = [
            DIGITS[usize::from(octet / 16)],
            DIGITS[usize::from(octet % 16)],
        ];
    }
    let text = digits[..octets.len()].as_flattened();
    // Digits are always text, so this refuses none.
    f.write_str(str::from_utf8(text).map_err(|_| fmt::Error)?)
}

// How many ranges there are, and the two edges of each.
#[derive(Clone, Copy)]
pub struct Ranges<'a>(pub &'a [Range]);

impl fmt::Display for Ranges<'_> {
    fn fmt<W: fmt::Write>(&self, f: &mut fmt::Formatter<W>) -> fmt::Result {
        write!(f, "{}", self.0.len())?;
        for range in self.0 {
            write!(f, " {} {}", range.left.0, range.right.0)?;
        }
        Ok(())
    }
}

// A segment's fields, from its ports to its payload.
#[derive(Clone, Copy)]
pub struct SegmentFields(pub Segment);

impl fmt::Display for SegmentFields {
    fn fmt<W: fmt::Write>(&self, f: &mut fmt::Formatter<W>) -> fmt::Result {
        let s = self.0;
        let options = s.options;
        write!(f, "{} {} {} {}", s.source, s.destination, s.seq.0, s.ack.0)?;
        write!(
            f,
            " {} {} {}",
            writer::flags_octet(s.flags),
            s.window,
            s.urgent
        )?;
        write!(f, " {} {}", OrDash(options.mss), OrDash(options.scale))?;
        write!(f, " {}", u8::from(options.permitted))?;
        write!(f, " {}", OrDash(options.timestamps.map(|t| t.value.0)))?;
        write!(f, " {}", OrDash(options.timestamps.map(|t| t.echoed.0)))?;
        write!(f, " {}", Ranges(options.blocks.as_slice()))?;
        write!(f, " {} {}", s.payload.start, s.payload.length)
    }
}

// The line of a record.
#[derive(Clone, Copy)]
pub struct RecordFields(pub Connection);

impl fmt::Display for RecordFields {
    fn fmt<W: fmt::Write>(&self, f: &mut fmt::Formatter<W>) -> fmt::Result {
        let k = self.0;
        let r = k.receive;
        let s = k.send;
        let t = k.timestamping;
        write!(f, "{} {} {} {}", r.nxt.0, r.window, r.acked.0, r.shift)?;
        write!(f, " {} {} {}", s.shift, s.una.0, s.nxt.0)?;
        write!(f, " {} {} {}", s.window, s.wl1.0, s.wl2.0)?;
        write!(
            f,
            " {} {} {} {}",
            u8::from(t.active),
            t.recent.0,
            t.since,
            t.offset
        )?;
        write!(f, " {} {}", u8::from(k.sack), k.mss)?;
        write!(f, " {}", Ranges(r.held.as_slice()))?;
        write!(f, " {} {}", TimerFields(k.timer), s.largest)
    }
}

#[derive(Clone, Copy)]
pub struct TimerFields(pub Timer);

impl fmt::Display for TimerFields {
    fn fmt<W: fmt::Write>(&self, f: &mut fmt::Formatter<W>) -> fmt::Result {
        let t = self.0;
        write!(
            f,
            "{} {} {} {}",
            u8::from(t.sampled),
            t.srtt,
            t.rttvar,
            t.timeout
        )
    }
}
