// What a script works on: one connection record and one timer.
ghost use Rattle.std.specs.Prelude.{IfSome};
ghost use Rattle.connection.specs.Record.{Sound};

use connection::Connection;
use rto::Timer;
use std::marker::Model;

#[derive(Drop)]
pub struct State {
    // None until a record is opened.
    pub connection: Option<Connection>,
    pub timer: Timer,
}

// The record of every state is sound; a clause sees nothing else of a state.
impl Model for State {
    ghost Value = { Unit {0} };

    ghost view = { λ _. tt };

    ghost invariant = { λ state. IfSome state.connection Sound };
}

impl State {
    // The state before the first call.
    pub fn new() -> State {
        State {
            connection: None,
            timer: Timer::new(),
        }
    }
}
