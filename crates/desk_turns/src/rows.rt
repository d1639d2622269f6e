//! The rows that a planned step changes.
ghost use Rattle.std.specs.Prelude.{◌≡◌, ◌<◌, All, length};
ghost use Rattle.qws_base.specs.Sides.{IsScreen};
ghost use Rattle.qws_base.specs.Arranged.{IsArranged};
ghost use Rattle.region_table.specs.Numbers.{first_pixel};
ghost use Rattle.display_lock.specs.Turns.{IsOpenServer, SameServerTurn};
ghost use Rattle.table_turns.specs.Writes.{OnlyTable};
ghost use Rattle.desk_turns.specs.Rows.{WritesPlanned, WritesRows};

use band_regions::count_of_corners;
use display_lock::ServerTurn;
use step_regions::{origin_of, owner_of};
use table_turns::{tables_are_written, write_row};
use window_core::Plan;

// Writes the row of a slot after a plan's step.
fn write_planned(turn: &mut ServerTurn, plan: &Plan, slot: u32)
    requires open { IsOpenServer turn.old }
    requires wide { length turn.old.head.now.server.present ≡ first_pixel }
    requires slot { slot < 32 }
    requires screen { IsScreen plan.now.size }
    requires arranged { IsArranged plan.now.size plan.now.windows }
    ensures same { SameServerTurn turn.old turn.new }
    ensures open { IsOpenServer turn.new }
    ensures head { OnlyTable turn.old.head.now turn.new.head.now }
    ensures words { WritesPlanned plan.now slot turn.old.head.now.server.present turn.new.head.now.server.present }
{
    count_of_corners();
    let windows = plan.windows();
    let owner = owner_of(windows, slot);
    let origin = origin_of(windows, slot);
    let rects = plan.region(slot).rects();
    write_row(turn, slot, owner, plan.revision(slot), origin, rects);
}

/// Writes the rows of the slots whose revision rises by a plan's step, as they are after it. It takes no memory.
pub fn write_rows(turn: &mut ServerTurn, plan: &Plan)
    requires open { IsOpenServer turn.old }
    requires wide { length turn.old.head.now.server.present ≡ first_pixel }
    requires slots { All (λ slot. slot < 32) plan.now.risen }
    requires screen { IsScreen plan.now.size }
    requires arranged { IsArranged plan.now.size plan.now.windows }
    ensures same { SameServerTurn turn.old turn.new }
    ensures open { IsOpenServer turn.new }
    ensures head { OnlyTable turn.old.head.now turn.new.head.now }
    ensures words { WritesRows plan.now plan.now.risen turn.old.head.now.server.present turn.new.head.now.server.present }
{
    tables_are_written();
    for slot in plan.risen() {
        write_planned(turn, plan, *slot);
    }
}
