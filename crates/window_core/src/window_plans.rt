//! Plans of the commands on windows.
ghost use Rattle.std.specs.Prelude.{◌≡◌, ◌∷◌, [], IfOk, Some};
ghost use Rattle.std.specs.List.{find};
ghost use Rattle.std.specs.Result.{result_err};
ghost use Rattle.qws_base.specs.Windows.{has_slot};
ghost use Rattle.qws_base.specs.Refusals.{first_of, no_window, not_yours};
ghost use Rattle.qws_base.specs.declared.commands.Command.TheVariants.{Create, Destroy, Region, Move, Raise, Lower};
ghost use Rattle.window_core.specs.CoreViews.{IsServed, CanRise};
ghost use Rattle.window_core.specs.Planning.{IsPlanned, IsOutcome, Arranges, size_of, state_of};

use crate::changes::MailChange;
use crate::held::{Held, Planned};
use qws_base::{OutOfMemory, Point, Rects, Refusal, Reply, WindowView};
use std::alloc::Global;
use std::sync::Arc;
use window_arrangements::{
    Arrangement, bad_place, changed_slots, modified_slots, off_range, risen, too_complex, window_of,
};

impl Held {
    /// The client's window of the slot; else the refusal.
    fn own_window(&self, client: u32, slot: u32) -> Result<&WindowView, Refusal>
        ensures refusal { result_err result ≡ first_of (no_window (state_of self.now).windows slot ∷ not_yours (state_of self.now).windows client slot ∷ []) }
        ensures window { IfOk result (λ w. find (has_slot slot) (state_of self.now).windows ≡ Some w.now) }
    {
        match window_of(self.arrangement.windows(), slot) {
            None => Err(Refusal::NoWindow { slot }),
            Some(window) => {
                if window.owner != client {
                    let owner = window.owner;
                    return Err(Refusal::NotYours { slot, owner });
                }
                Ok(window)
            }
        }
    }

    /// The plan of an accepted command that leaves these windows, with the slot of a window that goes.
    fn arranged(
        &self,
        alloc: Global,
        reply: Reply,
        after: Arrangement,
        gone: Option<u32>,
    ) -> Result<Planned, OutOfMemory>
        requires size { after.size ≡ size_of self.now }
        requires served { IsServed (size_of self.now) (state_of self.now) }
        requires room { CanRise (state_of self.now) }
        ensures { IfOk result (Arranges self.now reply after gone) }
    {
        let told = modified_slots(alloc, &self.arrangement, &after)?;
        let rising = changed_slots(alloc, &self.arrangement, &after)?;
        let revisions = risen(self.revisions, &self.arrangement, &after);
        let cursor = Arc::try_clone(&self.cursor)?;
        Ok(Planned {
            reply,
            arrangement: Arc::new(alloc, after)?,
            revisions,
            risen: rising,
            cursor,
            change: MailChange::Regions { gone, told },
        })
    }

    /// The plan of a command on the client's own window, refused where a slot would need too many rectangles.
    fn rearranged(
        &self,
        alloc: Global,
        after: Arrangement,
        gone: Option<u32>,
    ) -> Result<Planned, OutOfMemory>
        requires size { after.size ≡ size_of self.now }
        requires served { IsServed (size_of self.now) (state_of self.now) }
        requires room { CanRise (state_of self.now) }
        ensures { IfOk result (IsOutcome self.now after gone) }
    {
        if let Some(cause) = too_complex(&after) {
            return self.refused(alloc, cause);
        }
        self.arranged(alloc, Reply::Done, after, gone)
    }

    /// The plan of a Create.
    pub fn plan_create(
        &self,
        alloc: Global,
        client: u32,
        layer: u32,
    ) -> Result<Planned, OutOfMemory>
        requires served { IsServed (size_of self.now) (state_of self.now) }
        requires room { CanRise (state_of self.now) }
        ensures { IfOk result (IsPlanned self.now client (Create layer)) }
    {
        if layer > 1 {
            return self.refused(alloc, Refusal::BadLayer { layer });
        }
        match self.arrangement.created(alloc, client, layer)? {
            None => self.refused(alloc, Refusal::NoSlot),
            Some(created) => {
                let slot = created.slot;
                self.arranged(alloc, Reply::Created { slot }, created.after, None)
            }
        }
    }

    /// The plan of a Destroy.
    pub fn plan_destroy(
        &self,
        alloc: Global,
        client: u32,
        slot: u32,
    ) -> Result<Planned, OutOfMemory>
        requires served { IsServed (size_of self.now) (state_of self.now) }
        requires room { CanRise (state_of self.now) }
        ensures { IfOk result (IsPlanned self.now client (Destroy slot)) }
    {
        match self.own_window(client, slot) {
            Err(cause) => self.refused(alloc, cause),
            Ok(_) => {
                let after = self.arrangement.destroyed(alloc, slot)?;
                self.rearranged(alloc, after, Some(slot))
            }
        }
    }

    /// The plan of a Region.
    pub fn plan_region(
        &self,
        alloc: Global,
        client: u32,
        slot: u32,
        origin: Point,
        rects: &Rects,
    ) -> Result<Planned, OutOfMemory>
        requires served { IsServed (size_of self.now) (state_of self.now) }
        requires room { CanRise (state_of self.now) }
        ensures { IfOk result (IsPlanned self.now client (Region slot origin rects.now)) }
    {
        if let Some(cause) = off_range(origin) {
            return self.refused(alloc, cause);
        }
        if let Some(cause) = bad_place(rects.as_slice()) {
            return self.refused(alloc, cause);
        }
        match self.own_window(client, slot) {
            Err(cause) => self.refused(alloc, cause),
            Ok(_) => {
                let after = self.arrangement.with_region(alloc, slot, origin, rects)?;
                self.rearranged(alloc, after, None)
            }
        }
    }

    /// The plan of a Move.
    pub fn plan_move(
        &self,
        alloc: Global,
        client: u32,
        slot: u32,
        origin: Point,
    ) -> Result<Planned, OutOfMemory>
        requires served { IsServed (size_of self.now) (state_of self.now) }
        requires room { CanRise (state_of self.now) }
        ensures { IfOk result (IsPlanned self.now client (Move slot origin)) }
    {
        if let Some(cause) = off_range(origin) {
            return self.refused(alloc, cause);
        }
        match self.own_window(client, slot) {
            Err(cause) => self.refused(alloc, cause),
            Ok(window) => {
                let after = self.arrangement.with_origin(alloc, window, origin)?;
                self.rearranged(alloc, after, None)
            }
        }
    }

    /// The plan of a Raise.
    pub fn plan_raise(&self, alloc: Global, client: u32, slot: u32) -> Result<Planned, OutOfMemory>
        requires served { IsServed (size_of self.now) (state_of self.now) }
        requires room { CanRise (state_of self.now) }
        ensures { IfOk result (IsPlanned self.now client (Raise slot)) }
    {
        match self.own_window(client, slot) {
            Err(cause) => self.refused(alloc, cause),
            Ok(window) => {
                let after = self.arrangement.raised(alloc, window)?;
                self.rearranged(alloc, after, None)
            }
        }
    }

    /// The plan of a Lower.
    pub fn plan_lower(&self, alloc: Global, client: u32, slot: u32) -> Result<Planned, OutOfMemory>
        requires served { IsServed (size_of self.now) (state_of self.now) }
        requires room { CanRise (state_of self.now) }
        ensures { IfOk result (IsPlanned self.now client (Lower slot)) }
    {
        match self.own_window(client, slot) {
            Err(cause) => self.refused(alloc, cause),
            Ok(window) => {
                let after = self.arrangement.lowered(alloc, window)?;
                self.rearranged(alloc, after, None)
            }
        }
    }
}
