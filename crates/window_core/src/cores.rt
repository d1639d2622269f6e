//! The core: the state of the server.
ghost use Rattle.std.specs.Prelude.{◌≡◌, ◌<◌, IfOk};
ghost use Rattle.qws_base.specs.Regions.{IsRegionOf};
ghost use Rattle.qws_base.specs.Windows.{allocated_points};
ghost use Rattle.qws_base.specs.States.{opening_state, revision_of};
ghost use Rattle.qws_base.specs.Steps.{step};
ghost use Rattle.window_core.specs.CoreViews.{Belongs, CanRise, IsServed};
ghost use Rattle.window_core.specs.Planning.{plan_of};

use crate::changes::carry;
use crate::held::{Held, Planned};
use crate::plans::Plan;
use band_regions::Region;
use qcop_channels::Channels;
use qws_base::{Command, Cursor, OutOfMemory, Reply, Rgb, Size, WindowView};
use std::alloc::Global;
use std::marker::Model;
use std::sync::Arc;
use window_arrangements::Arrangement;

/// The state of the server, for a screen of a size and a backdrop: windows from front to back, the cursor, channels and
/// mailboxes, and a revision for each slot.
#[derive(Debug, Drop)]
pub struct Core {
    backdrop: Rgb,
    held: Held,
}

impl Model for Core {
    ghost use Rattle.window_core.specs.CoreViews.{CoreView, IsServed};
    ghost use Rattle.window_core.specs.Planning.{size_of, state_of};

    ghost Value = { CoreView };

    ghost view = { λ c. record { size = size_of c.held; backdrop = c.backdrop; state = state_of c.held } };

    ghost invariant = { λ c. IsServed (size_of c.held) (state_of c.held) };
}

impl Core {
    /// The opening state: no window, a hidden cursor at (0, 0) without cells, no channel, and each revision 1. The backdrop
    /// is a colour of 24 bits.
    pub fn new(alloc: Global, size: Size, backdrop: Rgb) -> Result<Core, OutOfMemory>
        ensures { IfOk result (λ core. core ≡ record { size = size; backdrop = backdrop; state = opening_state }) }
    {
        // A screen has a pixel, where the cursor stands.
        let _ = size.w();
        let cursor = Cursor::hidden(alloc);
        let arrangement = Arrangement::new(alloc, size)?;
        Ok(Core {
            backdrop,
            held: Held {
                arrangement: Arc::new(alloc, arrangement)?,
                revisions: [1; 32],
                cursor: Arc::new(alloc, cursor)?,
                channels: Channels::new(alloc)?,
            },
        })
    }

    /// The windows from front to back.
    pub fn windows(&self) -> &[WindowView]
        ensures windows { result.now ≡ self.now.state.windows }
        ensures served { IsServed self.now.size self.now.state }
    {
        self.held.arrangement.windows()
    }

    /// The pixels that belong to a slot.
    pub fn region(&self, slot: u32) -> &Region
        requires { slot < 32 }
        ensures { IsRegionOf result.now (allocated_points self.now.size self.now.state.windows slot) }
    {
        self.held.arrangement.region(slot)
    }

    /// The revision of a slot.
    pub fn revision(&self, slot: u32) -> u64
        requires { slot < 32 }
        ensures { result ≡ revision_of self.now.state slot }
    {
        self.held.revisions[slot as usize]
    }

    /// The cursor.
    pub fn cursor(&self) -> &Cursor
        ensures { result.now ≡ self.now.state.cursor }
    {
        &self.held.cursor
    }

    /// The size of the screen.
    pub fn size(&self) -> Size
        ensures { result ≡ self.now.size }
    {
        self.held.arrangement.size()
    }

    /// The backdrop, as a colour.
    pub fn backdrop(&self) -> Rgb
        ensures { result ≡ self.now.backdrop }
    {
        self.backdrop
    }

    /// What a command of a client does to the present state. Clients are numbered below 16, and no slot's revision stands at its
    /// last value, 2^64 - 1. All memory of the step is taken here, and want of it is the only error; nothing changes before the
    /// plan is committed.
    pub fn plan(&self, alloc: Global, client: u32, command: &Command) -> Result<Plan, OutOfMemory>
        requires client { client < 16 }
        requires room { CanRise self.now.state }
        ensures belongs { IfOk result (λ plan. Belongs self.now.size plan self.now.state) }
        ensures client { IfOk result (λ plan. plan.client ≡ client) }
        ensures command { IfOk result (λ plan. plan.command ≡ command.now) }
    {
        let copy = command.copy(alloc)?;
        let planned = self.planned(alloc, client, command)?;
        Ok(Plan {
            client,
            command: copy,
            planned,
        })
    }

    /// Makes the step of a plan that was made from the present state, and gives the plan's copy of the command and the
    /// reply. A refused command leaves the state as it is. It takes no memory.
    pub fn commit(&mut self, plan: Plan) -> (Command, Reply)
        requires { Belongs self.old.size plan self.old.state }
        ensures state { self.new ≡ record self.old { state = (step self.old.size self.old.state plan.client plan.command).0 } }
        ensures command { result.0 ≡ plan.command }
        ensures reply { result.1 ≡ (step self.old.size self.old.state plan.client plan.command).1 }
    {
        let (command, planned) = plan.into_parts();
        let Planned {
            reply,
            arrangement,
            revisions,
            risen: _,
            cursor,
            change,
        } = planned;
        carry(
            &mut self.held.channels,
            self.held.arrangement.windows(),
            arrangement.windows(),
            change,
        );
        self.held.arrangement = arrangement;
        self.held.revisions = revisions;
        self.held.cursor = cursor;
        (command, reply)
    }

    // The plan of a command, by its kind.
    fn planned(&self, alloc: Global, client: u32, command: &Command) -> Result<Planned, OutOfMemory>
        requires client { client < 16 }
        requires room { CanRise self.now.state }
        ensures { IfOk result (λ p. Belongs self.now.size (plan_of client command.now p) self.now.state) }
    {
        let held = &self.held;
        match command {
            Command::Create { layer } => held.plan_create(alloc, client, *layer),
            Command::Destroy { slot } => held.plan_destroy(alloc, client, *slot),
            Command::Region {
                slot,
                origin,
                rects,
            } => held.plan_region(alloc, client, *slot, *origin, rects),
            Command::Move { slot, origin } => held.plan_move(alloc, client, *slot, *origin),
            Command::Raise { slot } => held.plan_raise(alloc, client, *slot),
            Command::Lower { slot } => held.plan_lower(alloc, client, *slot),
            Command::CursorShape { w, h, cells } => held.plan_shape(alloc, client, *w, *h, cells),
            Command::CursorMove { x, y } => held.plan_place(alloc, client, *x, *y),
            Command::CursorShow { shown } => held.plan_show(alloc, client, *shown),
            Command::Join { channel } => held.plan_join(alloc, client, channel),
            Command::Leave { channel } => held.plan_leave(alloc, client, channel),
            Command::Send {
                channel,
                message,
                payload,
            } => held.plan_send(alloc, client, channel, message, payload),
            Command::Take => held.plan_take(alloc, client),
            Command::IsRegistered { channel } => held.plan_is_registered(alloc, client, channel),
        }
    }
}
