//! What a planned step changes on the framebuffer.
ghost use Rattle.std.specs.Prelude.{◌≡◌, ◌⊎◌, ◌↔◌, [], true, false, IsTrue, IfOk};
ghost use Rattle.window_core.specs.CoreViews.{Belongs};
ghost use Rattle.step_turns.specs.Changes.{AreChangesOf, is_on_cursor};

use crate::covers::is_covered;
use band_regions::Region;
use qws_base::{Command, Cursor, OutOfMemory};
use std::alloc::Global;
use step_regions::{CarriedPixels, bared, carried_by};
use window_core::{Core, Plan};

/// What a planned step changes on the framebuffer: the pixels that a move carries, those that lose their last owner, whether
/// the cursor is another, and whether it covers a pixel that is carried or filled, or from which one is carried. They have all
/// memory that the step's turn takes.
#[derive(Debug, Drop)]
pub struct Changes {
    pub(crate) carried: CarriedPixels,
    pub(crate) bared: Region,
    pub(crate) points: bool,
    pub(crate) covered: bool,
}

impl Changes {
    /// Those of a plan that was made for the command from the present state. All memory of the step's turn is taken here, and
    /// want of it is the only error.
    pub fn of(
        alloc: Global,
        core: &Core,
        plan: &Plan,
        command: &Command,
    ) -> Result<Changes, OutOfMemory>
        requires belongs { Belongs core.now.size plan.now core.now.state }
        requires command { plan.now.command ≡ command.now }
        ensures { IfOk result (λ changes. AreChangesOf core.now plan.now changes) }
    {
        let _windows = core.windows();
        let carried = carried_by(alloc, core, plan, command)?;
        let bared = bared(alloc, core, plan)?;
        let covered = is_covered(core, plan, command, &carried, &bared);
        Ok(Changes {
            carried,
            bared,
            points: points(core, plan, command),
            covered,
        })
    }

    // Whether a pixel is carried or filled.
    fn have_pixels(&self) -> bool
        ensures { result ≡ false → (self.now.carried.region ≡ []) × (self.now.bared ≡ []) }
    {
        !self.carried.region.is_empty() || !self.bared.is_empty()
    }

    // Whether the framebuffer is to be drawn for a plan: the cursor is another, or a row is and a pixel is carried or filled.
    pub(crate) fn are_drawn(&self, plan: &Plan) -> bool
        ensures still { result ≡ false → (self.now.points ≡ false) × ((plan.now.risen ≡ []) ⊎ ((self.now.carried.region ≡ []) × (self.now.bared ≡ []))) }
        ensures drawn { result ≡ true → (self.now.points ≡ true) ⊎ (plan.now.risen ≡ [] → ⊥) }
    {
        self.points || (!plan.risen().is_empty() && self.have_pixels())
    }

    // Whether the cursor is lifted where the framebuffer is drawn: it is another, or it covers a pixel that is concerned.
    pub(crate) fn lift_cursor(&self) -> bool
        ensures off { result ≡ false → (self.now.points ≡ false) × (self.now.covered ≡ false) }
        ensures on { result ≡ true → (self.now.points ≡ true) ⊎ (self.now.covered ≡ true) }
    {
        self.points || self.covered
    }
}

// Whether the command is one on the cursor.
fn is_on_cursor(command: &Command) -> bool
    ensures { result ≡ is_on_cursor command.now }
{
    matches!(
        command,
        Command::CursorShape {
            w: _,
            h: _,
            cells: _
        } | Command::CursorMove { x: _, y: _ }
            | Command::CursorShow { shown: _ }
    )
}

// Whether the cursor is another after a plan's step. Only commands on the cursor are asked for it.
fn points(core: &Core, plan: &Plan, command: &Command) -> bool
    requires belongs { Belongs core.now.size plan.now core.now.state }
    requires command { plan.now.command ≡ command.now }
    ensures same { result ≡ false → plan.now.cursor ≡ core.now.state.cursor }
    ensures other { result ≡ true → plan.now.cursor ≡ core.now.state.cursor → ⊥ }
{
    is_on_cursor(command) && !is_same_cursor(core.cursor(), plan.cursor())
}

// Whether two cursors are the same.
fn is_same_cursor(before: &Cursor, after: &Cursor) -> bool
    ensures { IsTrue result ↔ (after.now ≡ before.now) }
{
    after == before
}
