//! A caller's seat.

use crate::room::Room;
use crate::steps::Token;
use std::marker::{Model, PhantomData};

/// The seat of a pass. Contracts see it as what it knows.
#[derive(Drop)]
pub struct Caller<B: Room> {
    /// None while a step has it.
    pub(crate) seat: Option<Token>,
    /// It was refused a new pass.
    pub(crate) refused: bool,
    pub(crate) room: PhantomData<B>,
}

impl<B: Room> Model for Caller<B> {
    ghost use Rattle.std.specs.Prelude.{◌≡◌, nat_lt};
    ghost use Rattle.lk_session.specs.declared.view.View.{View};
    ghost use Rattle.lk_session.specs.Seats.{IsPass, known_of};

    ghost Value = { View };

    ghost view = { λ p. known_of p.seat };

    ghost invariant = { λ p. IsPass B.table p.seat
        × (p.refused ≡ nat_lt 0 (known_of p.seat).refusals) };
}
