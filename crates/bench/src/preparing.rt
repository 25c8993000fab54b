// The record that every round starts from.
use crate::rounds::Made;
use crate::segments;
use crate::segments::Bringing;
use crate::stream::{Calls, Kind};
use connection::Connection;
use octets::{Number, read_u8};

// Makes the prepared calls; nothing where one is of another kind.
pub fn prepare(calls: &mut [u8]) -> Option<Made> {
    let mut made = Made {
        connection: Connection::blank(),
        sum: 0,
    };
    for call in Calls(calls) {
        let before = made.connection;
        match Kind::try_from(read_u8(call, 0)).ok()? {
            Kind::Open => made = segments::make(made, call, Bringing::Open),
            Kind::Arrive => made = segments::make(made, call, Bringing::Arrive),
            Kind::Sent => made.connection = before.note_sent(u32::read(call, 5)).unwrap_or(before),
            Kind::Window => made.connection = before
                .open_window(u32::read(call, 5))
                .unwrap_or(before),
            Kind::Read | Kind::Acknowledge => return None,
        }
    }
    made.sum = 0;
    Some(made)
}
