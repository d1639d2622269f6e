//! The shared desk: how it is made, taken, given back and closed.
ghost use Rattle.std.specs.Prelude.{◌≡◌, ◌+◌, ◌≤◌, [], ◌++◌, length, vec_len, vec_capacity, IfOk, IfErr, MatchResult};
ghost use Rattle.shared_desk.specs.Desks.{SameDesk};
ghost use Rattle.shared_desk.specs.Leases.{IsOf};
ghost use Rattle.shared_desk.specs.Rule.{knows, parts};
ghost use Rattle.shared_desk.specs.Together.{AreAll, AreThere, passes_of, rested};

use crate::callers::{Caller, HeldLease, Lease};
use crate::known::{DeskKey, Known};
use crate::plays::{Arrives, Deals, Gathers, Gives, Takes};
use atomic_table::{Refused, Seat, Table, TableRule};
use fb_words::Pass;
use qws_base::OutOfMemory;
use server_desk::Desk;
use std::alloc::Global;
use std::marker::Model;
use std::snapshot::Snapshot;

/// The rule of the desk's table.
pub struct Lock;

impl TableRule<Option<Desk>, Known, DeskKey> for Lock {
    ghost use Rattle.shared_desk.specs.Rule.{Kept, opening_view};

    ghost holds = { Kept };

    ghost first = { opening_view };
}

/// A desk that threads share. Contracts see which table it is, the desk as it was when it was shared, and how many callers were
/// made.
#[derive(Drop)]
pub struct SharedDesk {
    table: Table<Option<Desk>, Known, DeskKey, Lock, Global>,
}

impl Model for SharedDesk {
    ghost use Rattle.std.specs.Prelude.{◌≡◌};
    ghost use Rattle.shared_desk.specs.Leases.{SharedView};

    ghost Value = { SharedView };

    ghost view = { λ s. record { table = s.table.shared.table_id; desk = s.table.shared.key.desk.value; callers = s.table.shared.key.callers } };

    ghost invariant = { λ s. (s.table.shared.table_id.words ≡ 1) × (s.table.shared.table_id.slots ≡ 1) };
}

impl SharedDesk {
    /// Takes the desk, where it is at home.
    pub(crate) fn try_take(&self, lease: Lease) -> Result<(HeldLease, Desk), Lease>
        requires of { IsOf self.now lease }
        ensures { MatchResult result (λ took. (took.0 ≡ lease) × SameDesk took.1 lease.desk) (λ same. same ≡ lease) }
    {
        let Lease { mut seat } = lease;
        let found = self
            .table
            .shared
            .compare_exchange::<Takes>(&mut seat, 0, 0, 1);
        if found != 0 {
            return Err(Lease { seat });
        }
        let Some(desk) = self.table.shared.exchange(&mut seat, 0, None) else {
            unreachable!();
        };
        Ok((HeldLease { seat }, desk))
    }

    /// Gives the desk back.
    pub(crate) fn give(&self, lease: HeldLease, desk: Desk) -> Lease
        requires of { IsOf self.now lease }
        requires same { SameDesk desk lease.desk }
        ensures { result ≡ lease }
    {
        let HeldLease { mut seat } = lease;
        self.table.shared.exchange(&mut seat, 0, Some(desk));
        self.table.shared.store::<Gives>(&mut seat, 0, 0);
        Lease { seat }
    }

    // Each pass gets a seat, off the seat of all.
    fn deal(
        &self,
        mut seat: Seat<Option<Desk>, Known>,
        passes: Vec<Pass>,
        mut callers: Vec<Caller>,
    ) -> Vec<Caller>
        requires table { seat.table_id ≡ self.now.table }
        requires all { seat.me ≡ (knows (parts self.now.desk 0 self.now.callers), []) }
        requires many { self.now.callers ≡ length passes.items }
        requires empty { callers.items ≡ [] }
        requires room { vec_len passes ≤ vec_capacity callers }
        ensures all { AreAll self.now result.items }
        ensures passes { passes_of result.items ≡ passes.items }
    {
        for pass in passes {
            let own = self.table.shared.split_seat::<Deals>(&mut seat);
            callers.push_reserved(Caller {
                pass,
                lease: Lease { seat: own },
            });
        }
        callers
    }

    /// Shares a desk among the passes. The callers stand in the order of the passes.
    pub fn new(
        alloc: Global,
        desk: Desk,
        passes: Vec<Pass>,
    ) -> Result<(SharedDesk, Vec<Caller>), (Desk, Vec<Pass>, OutOfMemory)>
        ensures shared { IfOk result (λ made. (made.0.desk ≡ desk) × (made.0.callers ≡ length passes.items)) }
        ensures callers { IfOk result (λ made. AreAll made.0 made.1.items) }
        ensures passes { IfOk result (λ made. passes_of made.1.items ≡ passes.items) }
        ensures back { IfErr result (λ back. (back.0 ≡ desk) × (back.1.items ≡ passes.items)) }
    {
        let key = DeskKey {
            desk: Snapshot::of(&desk),
            callers: passes.len(),
        };
        let Ok(callers) = Vec::with_capacity(alloc, passes.len()) else {
            return Err((desk, passes, OutOfMemory));
        };
        let Ok(mut slots) = Vec::with_capacity(alloc, 1) else {
            return Err((desk, passes, OutOfMemory));
        };
        slots.push_reserved(Some(desk));
        match Table::new(alloc, &[0], slots, &key) {
            Ok((table, seat)) => {
                let shared = SharedDesk { table };
                let callers = shared.deal(seat, passes, callers);
                Ok((shared, callers))
            }
            Err(Refused { mut slots }) => {
                let Some(Some(desk)) = slots.pop() else {
                    unreachable!();
                };
                Err((desk, passes, OutOfMemory))
            }
        }
    }

    // All callers come back to one seat.
    fn gather(
        &self,
        callers: Vec<Caller>,
        mut passes: Vec<Pass>,
    ) -> (Seat<Option<Desk>, Known>, Vec<Pass>)
        requires all { AreThere self.now callers.items }
        requires empty { passes.items ≡ [] }
        requires room { vec_len callers ≤ vec_capacity passes }
        ensures table { result.0.table_id ≡ self.now.table }
        ensures all { result.0.me ≡ (knows (rested self.now.desk callers.items), []) }
        ensures passes { result.1.items ≡ passes_of callers.items }
    {
        let (_, mut seat) = self.table.shared.load_new_seat::<Arrives>(0);
        for caller in callers {
            let Caller { pass, lease } = caller;
            let Lease { seat: own } = lease;
            self.table.shared.join_seat::<Gathers>(&mut seat, own);
            passes.push_reserved(pass);
        }
        (seat, passes)
    }

    /// The desk and the passes, once all callers are back. After want of memory they are gone.
    pub fn into_parts(
        self,
        alloc: Global,
        callers: Vec<Caller>,
    ) -> Result<(Desk, Vec<Pass>), OutOfMemory>
        requires all { AreThere self callers.items }
        ensures desk { IfOk result (λ parts. SameDesk parts.0 self.desk) }
        ensures passes { IfOk result (λ parts. parts.1.items ≡ passes_of callers.items) }
    {
        let passes = Vec::with_capacity(alloc, callers.len())?;
        let (seat, passes) = self.gather(callers, passes);
        let SharedDesk { table } = self;
        let mut closed = table.close_with(seat);
        let Some(desk) = closed.take(0) else {
            unreachable!();
        };
        closed.free();
        Ok((desk, passes))
    }
}
