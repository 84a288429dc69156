//! What an end of a link knows, and the rule of the queue under a link.

use crate::parcel::Parcel;
use crossbeam_queue::RuledArrayQueue;
use crossbeam_queue::protocol::{Join, Lesson, Outcome, Protocol, Split};
use std::collections::LinkedList;

/// What an end knows of one side of its link, of what was put or of what was taken. No value of it is made.
pub struct Side {
    /// Its share of the right to add to the side, in pieces: each is the whole right, halved so many times.
    pub share: LinkedList<u32>,
    /// The side's parcels, the first one first, as far as the end has seen them.
    pub seen: LinkedList<Parcel>,
    /// How many of the side's parcels the end added itself.
    pub own: u64,
}

/// What an end knows of its link. No value of it is made.
pub struct Known {
    pub put: Side,
    pub taken: Side,
}

/// First in, first out.
pub struct InOrder;

impl Protocol<Parcel, Known> for InOrder {
    ghost use Rattle.hk_link.specs.Rule.{Linked};
    ghost use Rattle.hk_link.specs.Ends.{opening};

    ghost holds = { Linked };

    ghost first = { opening };
}

/// A parcel was put.
pub struct Puts;

impl Outcome<Parcel, Known> for Puts {
    ghost use Rattle.hk_link.specs.Ends.{IsPut};

    ghost then = { IsPut };
}

impl Lesson<Parcel, Known> for Puts {
    ghost use Rattle.hk_link.specs.Ends.{Moment};

    ghost fact = { Moment };
}

/// A parcel was taken.
pub struct Takes;

impl Outcome<Parcel, Known> for Takes {
    ghost use Rattle.hk_link.specs.Ends.{IsTaken};

    ghost then = { IsTaken };
}

impl Lesson<Parcel, Known> for Takes {
    ghost use Rattle.hk_link.specs.Ends.{Moment};

    ghost fact = { Moment };
}

/// The right to put stays, the right to take goes.
pub struct Parts;

impl Split<Known> for Parts {
    ghost use Rattle.hk_link.specs.Ends.{putting, taking};

    ghost left = { putting };

    ghost right = { taking };
}

/// Half of each right goes, but nothing of what the end added itself.
pub struct Halves;

impl Split<Known> for Halves {
    ghost use Rattle.hk_link.specs.Ends.{left_half, right_half};

    ghost left = { left_half };

    ghost right = { right_half };
}

/// What the end has seen of what was put goes, and no right.
pub struct Tells;

impl Split<Known> for Tells {
    ghost use Rattle.hk_link.specs.Ends.{telling};

    ghost left = { λ known. known };

    ghost right = { telling };
}

/// Two ends become one.
pub struct Together;

impl Join<Known> for Together {
    ghost use Rattle.hk_link.specs.Ends.{joined, spent};

    ghost both = { joined };

    ghost spent = { spent };
}

/// What the rule tells of one moment.
pub struct Looks;

impl Lesson<Parcel, Known> for Looks {
    ghost use Rattle.hk_link.specs.Ends.{Moment};

    ghost fact = { Moment };
}

pub type Line = RuledArrayQueue<Parcel, Known, InOrder>;
