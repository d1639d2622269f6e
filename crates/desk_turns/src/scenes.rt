//! The framebuffer in a server's turn: the cursor is lifted off, the regions of a step are changed, and the cursor is put down.
ghost use Rattle.std.specs.Prelude.{◌≡◌, ℕ, ◌<◌, true, All};
ghost use Rattle.qws_base.specs.Colours.{IsSceneColour};
ghost use Rattle.qws_base.specs.Points.{any_holds, point_of, pixel_count};
ghost use Rattle.qws_base.specs.RectPixels.{IsWithin};
ghost use Rattle.qws_base.specs.Shown.{IsShape};
ghost use Rattle.turn_logs.specs.Tables.{IsCursorIn, table_of};
ghost use Rattle.turn_logs.specs.Phases.{IsTrueLog};
ghost use Rattle.display_lock.specs.Turns.{IsOpenServer, SameServerTurn};
ghost use Rattle.sw_cursor.specs.Lifts.{OnlyLogs};
ghost use Rattle.scene_turns.specs.declared.works.Work.TheVariants.{Carry};
ghost use Rattle.scene_turns.specs.Works.{CanWork};
ghost use Rattle.desk_turns.specs.Redraws.{Redraws};

use band_regions::Region;
use display_lock::ServerTurn;
use qws_base::{Cursor, Rgb};
use scene_turns::{carry, fill};
use step_regions::CarriedPixels;
use sw_cursor::{drop_at, lift};

/// Lifts the cursor of the present table off the framebuffer, carries pixels, fills the bared ones with the backdrop, which is
/// a scene colour, and puts a cursor down. It writes no table word, and takes no memory.
pub fn redraw(
    turn: &mut ServerTurn,
    carried: &CarriedPixels,
    bared: &Region,
    backdrop: Rgb,
    cursor: &Cursor,
)
    requires open { IsOpenServer turn.old }
    requires lifted { IsCursorIn turn.old.screen.now.setting.size turn.old.head.now.server.present }
    requires shape { IsShape cursor.now }
    requires carried { All (IsWithin turn.old.screen.now.setting.size) carried.now.region }
    requires sources { (p : ℕ) → p < pixel_count turn.old.screen.now.setting.size → any_holds carried.now.region (point_of turn.old.screen.now.setting.size.w p) ≡ true → CanWork turn.old.screen.now.setting (Carry carried.now.falling carried.now.by) p }
    requires bared { All (IsWithin turn.old.screen.now.setting.size) bared.now }
    requires backdrop { IsSceneColour turn.old.screen.now.setting.depth backdrop }
    ensures same { SameServerTurn turn.old turn.new }
    ensures open { IsOpenServer turn.new }
    ensures head { OnlyLogs turn.old.head.now turn.new.head.now }
    ensures log { Redraws turn.old.screen.now.setting (table_of turn.old.head.now.server.present).cursor cursor.now carried.now.falling carried.now.by carried.now.region bared.now backdrop turn.old.head.now.server.log turn.new.head.now.server.log }
    ensures true_log { IsTrueLog turn.old.head.now.server.log → IsTrueLog turn.new.head.now.server.log }
{
    lift(turn);
    carry(turn, &carried.region, carried.falling, carried.by);
    fill(turn, bared, backdrop);
    drop_at(turn, cursor);
}
