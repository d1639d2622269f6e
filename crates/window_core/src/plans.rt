//! Plans: the step of a command, with all memory that it needs.
ghost use Rattle.std.specs.Prelude.{◌≡◌, ◌<◌, slice_index};
ghost use Rattle.qws_base.specs.Regions.{IsRegionOf};
ghost use Rattle.qws_base.specs.Windows.{allocated_points};
ghost use Rattle.window_core.specs.Planning.{plan_of};

use crate::held::Planned;
use band_regions::Region;
use qws_base::{Command, Cursor, Reply, WindowView};
use std::marker::Model;

/// The step of a client's command: a copy of the command, the reply, and what the next state needs. Where the command is
/// refused, its state is the present one.
#[derive(Debug, Drop)]
pub struct Plan {
    pub(crate) client: u32,
    pub(crate) command: Command,
    pub(crate) planned: Planned,
}

impl Model for Plan {
    ghost use Rattle.std.specs.Prelude.{◌<◌};
    ghost use Rattle.window_core.specs.CoreViews.{PlanView};
    ghost use Rattle.window_core.specs.Planning.{plan_of};

    ghost Value = { PlanView };

    ghost view = { λ p. plan_of p.client p.command p.planned };

    ghost invariant = { λ p. p.client < 16 };
}

impl Plan {
    /// The client that made the command.
    pub fn client(&self) -> u32
        ensures { result ≡ self.now.client }
    {
        self.client
    }

    /// The reply.
    pub fn reply(&self) -> &Reply
        ensures { result.now ≡ self.now.reply }
    {
        &self.planned.reply
    }

    /// The windows after the step, from front to back.
    pub fn windows(&self) -> &[WindowView]
        ensures { result.now ≡ self.now.windows }
    {
        self.planned.arrangement.windows()
    }

    /// The pixels that belong to a slot after the step.
    pub fn region(&self, slot: u32) -> &Region
        requires { slot < 32 }
        ensures { IsRegionOf result.now (allocated_points self.now.size self.now.windows slot) }
    {
        self.planned.arrangement.region(slot)
    }

    /// The revision of a slot after the step.
    pub fn revision(&self, slot: u32) -> u64
        requires { slot < 32 }
        ensures { result ≡ slice_index self.now.revisions slot }
    {
        self.planned.revisions[slot as usize]
    }

    /// The slots whose revision rises, in ascending order.
    pub fn risen(&self) -> &[u32]
        ensures { result.now ≡ self.now.risen }
    {
        &self.planned.risen
    }

    /// The cursor after the step.
    pub fn cursor(&self) -> &Cursor
        ensures { result.now ≡ self.now.cursor }
    {
        &self.planned.cursor
    }

    // The command, and what the next state needs.
    pub(crate) fn into_parts(self) -> (Command, Planned)
        ensures parts { plan_of self.client result.0 result.1 ≡ self }
        ensures client { self.client < 16 }
    {
        let Plan {
            client: _,
            command,
            planned,
        } = self;
        (command, planned)
    }
}
