//! The tokens of callers.

use crate::known::Known;
use atomic_table::Seat;
use fb_words::Pass;
use server_desk::Desk;
use std::marker::Model;

/// The private part of a caller, which doesn't hold the desk. Contracts see the shared desk and the caller's number.
#[derive(Drop)]
pub struct Lease {
    pub(crate) seat: Seat<Option<Desk>, Known>,
}

impl Model for Lease {
    ghost use Rattle.std.specs.Prelude.{◌≡◌};
    ghost use Rattle.shared_desk.specs.Leases.{LeaseView};
    ghost use Rattle.shared_desk.specs.Rule.{only};
    ghost use Rattle.shared_desk.specs.Steps.{resting};

    ghost Value = { LeaseView };

    ghost view = { λ l. record { table = l.seat.table_id; desk = (only l.seat.me.0.callers).desk; number = (only l.seat.me.0.callers).number } };

    ghost invariant = { λ l. l.seat.me ≡ resting l.seat.me.0.callers };
}

/// The private part of a caller that holds the desk's slot, which is empty. Contracts see it as a lease.
pub(crate) struct HeldLease {
    pub(crate) seat: Seat<Option<Desk>, Known>,
}

impl Model for HeldLease {
    ghost use Rattle.std.specs.Prelude.{◌≡◌, None};
    ghost use Rattle.shared_desk.specs.Leases.{LeaseView};
    ghost use Rattle.shared_desk.specs.Rule.{only};
    ghost use Rattle.shared_desk.specs.Steps.{holds_slot};

    ghost Value = { LeaseView };

    ghost view = { λ l. record { table = l.seat.table_id; desk = (only l.seat.me.0.callers).desk; number = (only l.seat.me.0.callers).number } };

    ghost invariant = { λ l. l.seat.me ≡ holds_slot l.seat.me.0.callers None };
}

/// A client's pass with the right to call the shared desk.
#[derive(Drop)]
pub struct Caller {
    pub pass: Pass,
    pub(crate) lease: Lease,
}
