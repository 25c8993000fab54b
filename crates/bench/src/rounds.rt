// Rounds: the measured calls of a stream, made again and again from the record as prepared.
use crate::segments::Bringing;
use crate::stream::Kind;
use crate::{acknowledging, segments, sums};
use connection::Connection;
use octets::read_u8;
use std::marker::Model;

// A sound record, and the sum of what the calls on it answered.
#[derive(Clone, Copy)]
pub struct Made {
    pub connection: Connection,
    pub sum: u64,
}

impl Model for Made {
    ghost use Rattle.std.specs.Prelude.{ℕ};
    ghost use Rattle.connection.specs.declared.Connection.{Connection};
    ghost use Rattle.connection.specs.Record.{Sound};

    ghost Value = { Connection × ℕ };

    ghost view = { λ made. (made.connection, made.sum) };

    ghost inverse = { λ value. record { connection = value.0; sum = value.1 } };

    ghost invariant = { λ made. Sound made.connection };
}

impl Made {
    pub fn add(&mut self, answer: u64) {
        self.sum = self.sum.wrapping_add(answer);
    }

    fn with_record(self) -> u64 {
        self.sum.wrapping_add(sums::record(&self.connection))
    }
}

// The sum of so many rounds.
pub fn sum_of(start: Made, calls: &mut [u8], rounds: u32) -> u64 {
    let mut sum: u64 = 0;
    for _ in 0..rounds {
        sum = sum.wrapping_add(round(start, calls));
    }
    sum
}

// The sum of one round; its first call says of which kind all are.
fn round(start: Made, calls: &mut [u8]) -> u64 {
    match Kind::try_from(read_u8(calls, 0)) {
        Ok(Kind::Read) => segments::make(start, calls, Bringing::Read).sum,
        Ok(Kind::Arrive) => segments::make(start, calls, Bringing::Arrive).with_record(),
        Ok(Kind::Acknowledge) => acknowledging::make(start, calls).with_record(),
        Ok(Kind::Open | Kind::Sent | Kind::Window) | Err(_) => 0,
    }
}
