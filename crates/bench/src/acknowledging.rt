// Calls that write an acknowledgment.
use crate::rounds::Made;
use crate::stream::Calls;
use octets::Number;
use refusals::Numbered;
use writer::Ports;

// How many octets of a call stand before its buffer.
const FIXED: usize = 17;

// Writes the acknowledgments, each into its call's own buffer.
pub fn make(start: Made, calls: &mut [u8]) -> Made {
    let mut made = start;
    for call in Calls(calls) {
        // A call that is cut short has no fields, and no room for an acknowledgment.
        let fields = call.get(..FIXED).unwrap_or(&[]);
        let ports = Ports {
            source: u16::read(fields, 5),
            destination: u16::read(fields, 7),
        };
        let clock = u64::read(fields, 9);
        let buffer = call.get_mut(FIXED..).unwrap_or(&mut []);
        match acknowledgment::write(made.connection, ports, clock, buffer) {
            Ok(written) => {
                made.add(written.length as u64);
                made.connection = written.connection;
            }
            Err(why) => made.add(u64::from(why.number())),
        }
    }
    made
}
