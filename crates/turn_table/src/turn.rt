ghost use Rattle.std.specs.Prelude.{◌≡◌};

use crate::Rounded;
use std::marker::Model;

/// A seat's turn: the state, out with that seat for one round. It can't be let go, only passed on.
pub struct Turn<T: Rounded> {
    pub(crate) state: T,
    pub(crate) round: u32,
}

impl<T: Rounded> Model for Turn<T> {
    ghost use Rattle.turn_table.specs.Turn.{TurnState};

    ghost Value = { TurnState T };

    ghost view = { λ t. record { state = t.state; round = t.round } };
}

impl<T: Rounded> Turn<T> {
    ghost use Rattle.std.specs.Borrow.{sem};
    ghost use Rattle.turn_table.specs.Lending.{lends_state};

    /// The number of its round, from 0.
    pub fn round(&self) -> u32
        ensures { result ≡ self.now.round }
    {
        self.round
    }

    /// The state, to be changed.
    pub fn state(&mut self) -> &mut T
        ensures* writes_back { sem 𝓛 (lends_state T.row T.Rounded self.entry result) }
        ensures value { result.now ≡ self.old.state }
    {
        &mut self.state
    }
}
