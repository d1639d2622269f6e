//! What a painter knows of the cursor in its turn.
ghost use Rattle.std.specs.Prelude.{◌≡◌, ◌<◌, ◌≤◌, IfSome, slice_index, ◌&&◌, not, pos};
ghost use Rattle.qws_base.specs.Points.{spans};
ghost use Rattle.qws_base.specs.Shown.{cell_on};
ghost use Rattle.fb_words.specs.Clips.{Sees};
ghost use Rattle.fb_words.specs.Rights.{cursor_at};
ghost use Rattle.turn_logs.specs.Tables.{IsCursorIn};
ghost use Rattle.display_lock.specs.Turns.{IsOpen, IsOpenServer, SameServerTurn, SameTurn, client_in};
ghost use Rattle.sw_cursor.specs.Covers.{LooksAtCursor, IsCover, bare_cursor};

use display_lock::{PaintTurn, ServerTurn};
use qws_base::{Depth, Point, offset_in};

// The words of the cursor's place and of its shape.
const PLACE: u64 = 2;

const SHAPE: u64 = 3;

/// The depth of the screen, and the cursor's place and sides as the turn has found them. One look a turn serves all of its
/// pixels.
#[derive(Clone, Copy, Debug, PartialEq, Eq)]
pub struct Cover {
    pub depth: Depth,
    pub x: u32,
    pub y: u32,
    pub w: u32,
    pub h: u32,
    pub shown: bool,
}

impl Cover {
    /// Looks at the words of the cursor's place and of its shape.
    pub fn look(turn: &mut PaintTurn) -> Cover
        requires open { IsOpen turn.old }
        ensures same { SameTurn turn.old turn.new }
        ensures open { IsOpen turn.new }
        ensures looks { LooksAtCursor (client_in turn.old) (client_in turn.new) }
        ensures present { Sees (client_in turn.new) }
        ensures cover { IsCover (client_in turn.new) result }
    {
        let depth = turn.screen().depth();
        let place = turn.look(PLACE);
        let shape = turn.look(SHAPE);
        Cover {
            depth,
            x: (place % 65536) as u32,
            y: (place / 65536 % 65536) as u32,
            w: (shape % 65536) as u32,
            h: (shape / 65536) as u32,
            shown: place / 4294967296 == 1,
        }
    }

    /// Whether no shown cell lies in a row of the screen, whatever the column.
    #[inline(always)]
    pub fn misses(&self, y: i32) -> bool
        ensures { result ≡ not (self.now.shown && spans (pos self.now.y) self.now.h y) }
    {
        !self.shown || offset_in(self.y, self.h, y).is_none()
    }

    // The column and the row of the shown cell that lies on a point.
    pub(crate) fn cell(&self, p: Point) -> Option<(u32, u32)>
        ensures value { result ≡ cell_on (bare_cursor self.now) p }
        ensures range { IfSome result (λ at. (at.0 < self.now.w) × (at.1 < self.now.h)) }
    {
        if !self.shown {
            return None;
        }
        let column = offset_in(self.x, self.w, p.x)?;
        let row = offset_in(self.y, self.h, p.y)?;
        Some((column, row))
    }

    // Reads the words of the cursor's place and of its shape, in the server's turn.
    pub(crate) fn read(turn: &mut ServerTurn) -> Cover
        requires open { IsOpenServer turn.old }
        requires cursor { IsCursorIn turn.old.screen.now.setting.size turn.old.head.now.server.present }
        ensures same { SameServerTurn turn.old turn.new }
        ensures open { IsOpenServer turn.new }
        ensures head { turn.new.head.now ≡ turn.old.head.now }
        ensures cover { bare_cursor result ≡ cursor_at (slice_index turn.old.head.now.server.present 2) (slice_index turn.old.head.now.server.present 3) }
        ensures few { (result.w ≤ 32) × (result.h ≤ 32) }
    {
        let depth = turn.screen().depth();
        let place = turn.read(PLACE);
        let shape = turn.read(SHAPE);
        Cover {
            depth,
            x: (place % 65536) as u32,
            y: (place / 65536 % 65536) as u32,
            w: (shape % 65536) as u32,
            h: (shape / 65536) as u32,
            shown: place / 4294967296 == 1,
        }
    }
}
