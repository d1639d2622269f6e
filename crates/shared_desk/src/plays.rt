//! What each step tells, and how views are cut and joined.

use crate::known::Known;
use atomic_table::{Join, Play, Split};
use server_desk::Desk;

pub(crate) struct Takes;

impl Play<Option<Desk>, Known> for Takes {
    ghost use Rattle.shared_desk.specs.Steps.{taken};

    ghost then = { taken };
}

pub(crate) struct Gives;

impl Play<Option<Desk>, Known> for Gives {
    ghost use Rattle.shared_desk.specs.Steps.{given};

    ghost then = { given };
}

pub(crate) struct Arrives;

impl Play<Option<Desk>, Known> for Arrives {
    ghost use Rattle.shared_desk.specs.Steps.{arrived};

    ghost then = { arrived };
}

/// The first caller goes to a seat of its own.
pub(crate) struct Deals;

impl Split<Known> for Deals {
    ghost use Rattle.shared_desk.specs.Steps.{without_first, with_first};

    ghost left = { without_first };

    ghost right = { with_first };
}

/// A caller comes back.
pub(crate) struct Gathers;

impl Join<Known> for Gathers {
    ghost use Rattle.std.specs.Prelude.{[]};
    ghost use Rattle.shared_desk.specs.Rule.{knows};
    ghost use Rattle.shared_desk.specs.Steps.{both};

    ghost both = { both };

    ghost spent = { knows [] };
}
