// Workers with a seat, and without one.
ghost use Rattle.std.specs.Prelude.{◌≡◌, IfOk};
ghost use Rattle.sl_contend.specs.Contention.{contention_of};
ghost use Rattle.sl_team.specs.Seats.{IsSpare};

use sl_contend::Contenders;
use sl_desk::{Desk, Gate};
use sl_floor::{Blank, Seat};
use sl_types::Instance;
use std::marker::Model;

// What is to be cleared, and where the workers pass before their claims. Contracts see the instance.
#[derive(Drop)]
pub struct Job<'a, G> {
    pub instance: &'a Instance,
    pub contenders: &'a Contenders,
    pub gate: &'a G,
}

impl<'a, G> Model for Job<'a, G> {
    ghost use Rattle.std.specs.Prelude.{◌≡◌};
    ghost use Rattle.sl_types.specs.Market.{Market};
    ghost use Rattle.sl_contend.specs.Contention.{contention_of};

    ghost Value = { Market };

    ghost view = { λ job. job.instance.now };

    ghost invariant = { λ job. job.contenders.now ≡ contention_of job.instance.now };
}

// A worker at its seat, whose desk was made for the seat's instance. Contracts see the seat.
#[derive(Drop)]
pub struct Place {
    pub seat: Seat,
    pub desk: Desk,
}

impl Model for Place {
    ghost use Rattle.sl_floor.specs.Floor.{SeatValue};
    ghost use Rattle.sl_desk.specs.Desks.{IsFor};

    ghost Value = { SeatValue };

    ghost view = { λ place. place.seat };

    ghost invariant = { λ place. IsFor place.seat.view.market place.desk };
}

// A worker without a seat, with the memory of one. Contracts see both.
#[derive(Drop)]
pub struct Spare {
    pub blank: Blank,
    pub desk: Desk,
}

impl Model for Spare {
    ghost use Rattle.sl_team.specs.Seats.{SpareValue};

    ghost Value = { SpareValue };

    ghost view = { λ spare. record { blank = spare.blank; desk = spare.desk } };
}
