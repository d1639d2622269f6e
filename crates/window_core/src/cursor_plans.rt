//! Plans of the commands on the cursor.
ghost use Rattle.std.specs.Prelude.{◌≡◌, [], IfOk};
ghost use Rattle.std.specs.Arc.{arc_value};
ghost use Rattle.qws_base.specs.Refusals.{bad_shape, off_pixels};
ghost use Rattle.qws_base.specs.declared.points.Point.{Point};
ghost use Rattle.qws_base.specs.declared.commands.Command.TheVariants.{CursorShape, CursorMove, CursorShow};
ghost use Rattle.window_core.specs.CoreViews.{IsServed};
ghost use Rattle.window_core.specs.Planning.{IsPlanned, size_of, state_of};

use crate::changes::MailChange;
use crate::held::{Held, Planned};
use qws_base::{Cursor, OutOfMemory, Refusal, Reply, Words};
use std::alloc::Global;
use std::sync::Arc;

/// The refusal for a shape's sides and number of cells.
fn shape_refusal(w: u32, h: u32, cells: &[u32]) -> Option<Refusal>
    ensures { result ≡ bad_shape w h cells.now }
{
    let fits = 1 <= w && w <= 32 && 1 <= h && h <= 32 && cells.len() == (w * h) as usize;
    if fits {
        None
    } else {
        Some(Refusal::BadShape { w, h })
    }
}

impl Held {
    // The plan of an accepted command that leaves this cursor.
    fn pointed(&self, alloc: Global, cursor: Cursor) -> Result<Planned, OutOfMemory>
        ensures reply { IfOk result (λ p. p.reply ≡ Reply.Done) }
        ensures change { IfOk result (λ p. p.change ≡ MailChange.Nothing) }
        ensures windows { IfOk result (λ p. arc_value p.arrangement ≡ arc_value self.now.arrangement) }
        ensures revisions { IfOk result (λ p. p.revisions ≡ self.now.revisions) }
        ensures risen { IfOk result (λ p. p.risen.items ≡ []) }
        ensures cursor { IfOk result (λ p. arc_value p.cursor ≡ cursor) }
    {
        Ok(Planned {
            reply: Reply::Done,
            arrangement: Arc::try_clone(&self.arrangement)?,
            revisions: self.revisions,
            risen: Vec::new(alloc),
            cursor: Arc::new(alloc, cursor)?,
            change: MailChange::Nothing,
        })
    }

    /// The plan of a CursorShape.
    pub fn plan_shape(
        &self,
        alloc: Global,
        client: u32,
        w: u32,
        h: u32,
        cells: &Words,
    ) -> Result<Planned, OutOfMemory>
        requires { IsServed (size_of self.now) (state_of self.now) }
        ensures { IfOk result (IsPlanned self.now client (CursorShape w h cells.now)) }
    {
        let _ = client;
        if let Some(cause) = shape_refusal(w, h, cells.as_slice()) {
            return self.refused(alloc, cause);
        }
        let cursor = Cursor {
            x: self.cursor.x,
            y: self.cursor.y,
            w,
            h,
            cells: cells.copy(alloc)?,
            shown: self.cursor.shown,
        };
        self.pointed(alloc, cursor)
    }

    /// The plan of a CursorMove.
    pub fn plan_place(
        &self,
        alloc: Global,
        client: u32,
        x: i32,
        y: i32,
    ) -> Result<Planned, OutOfMemory>
        requires { IsServed (size_of self.now) (state_of self.now) }
        ensures { IfOk result (IsPlanned self.now client (CursorMove x y)) }
    {
        let _ = client;
        let size = self.arrangement.size();
        if x < 0 || y < 0 || x as u32 >= size.w() || y as u32 >= size.h() {
            return self.refused(alloc, Refusal::OffScreen { x, y });
        }
        let cursor = Cursor {
            x: x as u32,
            y: y as u32,
            w: self.cursor.w,
            h: self.cursor.h,
            cells: self.cursor.cells.copy(alloc)?,
            shown: self.cursor.shown,
        };
        self.pointed(alloc, cursor)
    }

    /// The plan of a CursorShow.
    pub fn plan_show(&self, alloc: Global, client: u32, shown: bool) -> Result<Planned, OutOfMemory>
        requires { IsServed (size_of self.now) (state_of self.now) }
        ensures { IfOk result (IsPlanned self.now client (CursorShow shown)) }
    {
        let _ = client;
        let cursor = Cursor {
            x: self.cursor.x,
            y: self.cursor.y,
            w: self.cursor.w,
            h: self.cursor.h,
            cells: self.cursor.cells.copy(alloc)?,
            shown,
        };
        self.pointed(alloc, cursor)
    }
}
