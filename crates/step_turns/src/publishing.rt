//! The server's turn of a planned step.
ghost use Rattle.std.specs.Prelude.{◌≡◌, ℕ, ◌+◌, ◌^◌, ◌<◌, [], All, false, true, length};
ghost use mathlib.Core.Option.{some};
ghost use lib.ListN.{get_elem?};
ghost use Rattle.qws_base.specs.Sides.{IsScreen};
ghost use Rattle.qws_base.specs.Colours.{IsSceneColour};
ghost use Rattle.qws_base.specs.Points.{any_holds, point_of, pixel_count};
ghost use Rattle.qws_base.specs.RectPixels.{IsWithin};
ghost use Rattle.qws_base.specs.Scenes.{setting_of};
ghost use Rattle.qws_base.specs.declared.journals.JournalEntry.{JournalEntry};
ghost use Rattle.region_table.specs.Numbers.{first_pixel, stamp_at};
ghost use Rattle.region_table.specs.Published.{IsTableOf};
ghost use Rattle.turn_logs.specs.Tables.{IsCursorIn, table_of};
ghost use Rattle.turn_logs.specs.Lines.{OnlyPicks};
ghost use Rattle.turn_logs.specs.Phases.{IsTrueLog};
ghost use Rattle.fb_words.specs.Steps.{IsNextTable, CarriesAtGive};
ghost use Rattle.display_lock.specs.Turns.{IsOpenServer, SameServerTurn};
ghost use Rattle.window_core.specs.CoreViews.{Belongs, IsServed};
ghost use Rattle.sw_cursor.specs.Lifts.{OnlyLogs};
ghost use Rattle.scene_turns.specs.declared.works.Work.TheVariants.{Carry};
ghost use Rattle.scene_turns.specs.Works.{CanWork};
ghost use Rattle.table_turns.specs.Writes.{OnlyTable, Sets};
ghost use Rattle.desk_turns.specs.Cursors.{Respells};
ghost use Rattle.desk_turns.specs.Rows.{WritesRows};
ghost use Rattle.step_turns.specs.Publishes.{Publishes};
ghost use Rattle.step_turns.specs.Changes.{AreChangesOf, IsClear, OnlyTurn, state_planned};
ghost use Rattle.step_turns.specs.Written.{DrawsOn, GoesOn, LeavesCells, SweepsBoth, WritesTable};

use crate::changed::Changes;
use band_regions::Region;
use desk_turns::{redraw, write_cursor, write_rows};
use display_lock::ServerTurn;
use qws_base::Rgb;
use scene_turns::{carry, fill};
use step_regions::CarriedPixels;
use table_turns::write_stamp;
use window_core::{Core, Plan};

// The cells of a cursor are numbers of 32 bits.
fn cells_are_words(cells: &[u32])
    ensures { All (λ cell. cell < 2 ^ 32) cells.now }
{
    let _cells = cells;
}

// Carries pixels, and fills the bared ones with the backdrop, while the cursor lies where it lay.
fn sweep(turn: &mut ServerTurn, carried: &CarriedPixels, bared: &Region, backdrop: Rgb)
    requires open { IsOpenServer turn.old }
    requires carried { All (IsWithin turn.old.screen.now.setting.size) carried.now.region }
    requires sources { (p : ℕ) → p < pixel_count turn.old.screen.now.setting.size → any_holds carried.now.region (point_of turn.old.screen.now.setting.size.w p) ≡ true → CanWork turn.old.screen.now.setting (Carry carried.now.falling carried.now.by) p }
    requires bared { All (IsWithin turn.old.screen.now.setting.size) bared.now }
    requires backdrop { IsSceneColour turn.old.screen.now.setting.depth backdrop }
    ensures same { SameServerTurn turn.old turn.new }
    ensures open { IsOpenServer turn.new }
    ensures head { OnlyLogs turn.old.head.now turn.new.head.now }
    ensures log { SweepsBoth turn.old.screen.now.setting.size carried.now bared.now backdrop turn.old.head.now.server.log turn.new.head.now.server.log }
    ensures true_log { IsTrueLog turn.old.head.now.server.log → IsTrueLog turn.new.head.now.server.log }
{
    carry(turn, &carried.region, carried.falling, carried.by);
    fill(turn, bared, backdrop);
}

// Redraws the framebuffer where the step has something to draw. The cursor is lifted only where it is another, or covers a pixel
// that is concerned.
fn draw(turn: &mut ServerTurn, core: &Core, plan: &Plan, changes: &Changes)
    requires open { IsOpenServer turn.old }
    requires reads { OnlyPicks turn.old.head.now.server.log }
    requires true_log { IsTrueLog turn.old.head.now.server.log }
    requires screen { turn.old.screen.now.setting ≡ setting_of core.now.size turn.old.screen.now.setting.depth core.now.backdrop }
    requires lifted { IsCursorIn core.now.size turn.old.head.now.server.present }
    requires cursor { (table_of turn.old.head.now.server.present).cursor ≡ core.now.state.cursor }
    requires served { IsServed core.now.size core.now.state }
    requires belongs { Belongs core.now.size plan.now core.now.state }
    requires changes { AreChangesOf core.now plan.now changes.now }
    ensures same { SameServerTurn turn.old turn.new }
    ensures open { IsOpenServer turn.new }
    ensures head { OnlyLogs turn.old.head.now turn.new.head.now }
    ensures quiet { plan.now.risen ≡ [] → plan.now.cursor ≡ core.now.state.cursor → turn.new.head.now.server.log ≡ turn.old.head.now.server.log }
    ensures log { DrawsOn turn.old.screen.now.setting core.now.state.cursor plan.now changes.now turn.old.head.now.server.log turn.new.head.now.server.log }
    ensures away { IsClear core.now.size core.now.state.cursor changes.now.carried changes.now.bared → plan.now.cursor ≡ core.now.state.cursor → LeavesCells core.now.size core.now.state.cursor turn.old.head.now.server.log turn.new.head.now.server.log }
{
    if changes.are_drawn(plan) {
        let backdrop = turn.screen().depth().scene(core.backdrop());
        if changes.lift_cursor() {
            redraw(
                turn,
                &changes.carried,
                &changes.bared,
                backdrop,
                plan.cursor(),
            );
        } else {
            sweep(turn, &changes.carried, &changes.bared, backdrop);
        }
    }
}

// Writes the words of the cursor that differ, where it is another.
fn point(turn: &mut ServerTurn, core: &Core, plan: &Plan, changes: &Changes)
    requires open { IsOpenServer turn.old }
    requires wide { length turn.old.head.now.server.present ≡ first_pixel }
    requires screen { IsScreen core.now.size }
    requires served { IsServed core.now.size core.now.state }
    requires belongs { Belongs core.now.size plan.now core.now.state }
    requires changes { AreChangesOf core.now plan.now changes.now }
    ensures same { SameServerTurn turn.old turn.new }
    ensures open { IsOpenServer turn.new }
    ensures head { OnlyTable turn.old.head.now turn.new.head.now }
    ensures words { Respells core.now.state.cursor plan.now.cursor turn.old.head.now.server.present turn.new.head.now.server.present }
    ensures stays { plan.now.cursor ≡ core.now.state.cursor → turn.new.head.now.server.present ≡ turn.old.head.now.server.present }
{
    if changes.points {
        write_cursor(turn, core.cursor(), plan.cursor());
    }
}

// Writes the rows of the slots whose revision rises.
fn write_risen(turn: &mut ServerTurn, core: &Core, plan: &Plan)
    requires open { IsOpenServer turn.old }
    requires wide { length turn.old.head.now.server.present ≡ first_pixel }
    requires screen { IsScreen core.now.size }
    requires served { IsServed core.now.size core.now.state }
    requires belongs { Belongs core.now.size plan.now core.now.state }
    ensures same { SameServerTurn turn.old turn.new }
    ensures open { IsOpenServer turn.new }
    ensures head { OnlyTable turn.old.head.now turn.new.head.now }
    ensures words { WritesRows plan.now plan.now.risen turn.old.head.now.server.present turn.new.head.now.server.present }
    ensures stays { plan.now.risen ≡ [] → turn.new.head.now.server.present ≡ turn.old.head.now.server.present }
{
    if !plan.risen().is_empty() {
        write_rows(turn, plan);
    }
}

// Writes the table of the state after the step.
fn write_table(turn: &mut ServerTurn, core: &Core, plan: &Plan, changes: &Changes, number: u64)
    requires open { IsOpenServer turn.old }
    requires wide { length turn.old.head.now.server.present ≡ first_pixel }
    requires screen { IsScreen core.now.size }
    requires served { IsServed core.now.size core.now.state }
    requires belongs { Belongs core.now.size plan.now core.now.state }
    requires changes { AreChangesOf core.now plan.now changes.now }
    ensures same { SameServerTurn turn.old turn.new }
    ensures open { IsOpenServer turn.new }
    ensures head { OnlyTable turn.old.head.now turn.new.head.now }
    ensures words { WritesTable core.now plan.now number turn.old.head.now.server.present turn.new.head.now.server.present }
{
    write_risen(turn, core, plan);
    point(turn, core, plan, changes);
    write_stamp(turn, number);
}

/// The whole work of a server's turn for a plan, which was made from the state that the present table publishes; a refused plan
/// too. The turn has read at most, and `number` is its own: one more than there are closed turns. What a move carries is copied,
/// and the backdrop is put where a pixel lost its last owner; where the cursor is another, or covers a pixel that is written or
/// copied, it is lifted off the framebuffer before, and put down after that. The rows of the slots whose revision rises are
/// written, then the words of the cursor that differ, and then the stamp. So a step that changes no row and no cursor writes
/// the stamp alone. It takes no memory.
///
/// The turn can end with an entry of the plan's command and reply, and the present table publishes the state after the step.
pub fn publish(turn: &mut ServerTurn, core: &Core, plan: &Plan, changes: &Changes, number: u64)
    requires open { IsOpenServer turn.old }
    requires reads { OnlyPicks turn.old.head.now.server.log }
    requires true_log { IsTrueLog turn.old.head.now.server.log }
    requires last { get_elem? turn.old.head.now.server.tables (length turn.old.head.now.server.closed) ≡ some turn.old.head.now.server.present }
    requires wide { length turn.old.head.now.server.present ≡ first_pixel }
    requires number { number ≡ length turn.old.head.now.server.closed + 1 }
    requires screen { turn.old.screen.now.setting ≡ setting_of core.now.size turn.old.screen.now.setting.depth core.now.backdrop }
    requires published { Publishes core.now.size (length turn.old.head.now.server.limits) (length turn.old.head.now.server.closed) core.now.state turn.old.head.now.server.present }
    requires belongs { Belongs core.now.size plan.now core.now.state }
    requires client { plan.now.client < length turn.old.head.now.server.limits }
    requires changes { AreChangesOf core.now plan.now changes.now }
    ensures same { SameServerTurn turn.old turn.new }
    ensures open { IsOpenServer turn.new }
    ensures head { OnlyTurn turn.old.head.now turn.new.head.now }
    ensures next { IsNextTable turn.new.head.now.server }
    ensures carries { (entry : JournalEntry) → entry.command ≡ plan.now.command → entry.reply ≡ plan.now.reply → CarriesAtGive turn.new.head.now.server entry }
    ensures publishes { Publishes core.now.size (length turn.old.head.now.server.limits) number (state_planned core.now plan.now) turn.new.head.now.server.present }
    ensures grows { GoesOn turn.old.head.now.server.log turn.new.head.now.server.log }
    ensures quiet { plan.now.risen ≡ [] → plan.now.cursor ≡ core.now.state.cursor → (turn.new.head.now.server.log ≡ turn.old.head.now.server.log) × Sets stamp_at 1 (λ k. number) turn.old.head.now.server.present turn.new.head.now.server.present }
    ensures away { IsClear core.now.size core.now.state.cursor changes.now.carried changes.now.bared → plan.now.cursor ≡ core.now.state.cursor → LeavesCells core.now.size core.now.state.cursor turn.old.head.now.server.log turn.new.head.now.server.log }
    ensures left { IsTableOf core.now.size (state_planned core.now plan.now) number (table_of turn.new.head.now.server.present) }
{
    let _width = core.size().w();
    let _windows = core.windows();
    cells_are_words(plan.cursor().cells.as_slice());
    draw(turn, core, plan, changes);
    write_table(turn, core, plan, changes, number);
}
