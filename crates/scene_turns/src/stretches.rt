//! Stretches of pixels side by side.
ghost use Rattle.std.specs.Prelude.{◌≡◌, ℕ, ◌+◌, ◌<◌, ◌≤◌, false, [], ◌∷◌, ◌++◌};
ghost use Rattle.qws_base.specs.Points.{pixel_count};
ghost use Rattle.qws_base.specs.Colours.{IsSceneColour};
ghost use Rattle.region_table.specs.Numbers.{pixel_word};
ghost use Rattle.turn_logs.specs.declared.items.Item.TheVariants.{Pick, Put};
ghost use Rattle.turn_logs.specs.Phases.{IsTrueLog};
ghost use Rattle.display_lock.specs.Turns.{IsOpenServer, SameServerTurn};
ghost use Rattle.sw_cursor.specs.Lifts.{OnlyLogs};
ghost use Rattle.scene_turns.specs.declared.works.Work.TheVariants.{Fill, Carry};
ghost use Rattle.scene_turns.specs.Works.{CanWork, Works, is_falling, stretch_pixels};
ghost use Rattle.step_regions.specs.Carried.{HasSource, source};

use crate::works::{Work, pixel_place};
use display_lock::ServerTurn;
use fb_words::logs_stay_true;
use region_table::pixel_at;

// Puts a colour on a pixel.
#[inline(always)]
fn fill_pixel(turn: &mut ServerTurn, p: u32, colour: u64)
    requires open { IsOpenServer turn.old }
    requires can { CanWork turn.old.screen.now.setting (Fill colour) p }
    ensures same { SameServerTurn turn.old turn.new }
    ensures open { IsOpenServer turn.new }
    ensures head { OnlyLogs turn.old.head.now turn.new.head.now }
    ensures log { Works (Fill colour) (p ∷ []) turn.old.head.now.server.log turn.new.head.now.server.log }
    ensures true_log { IsTrueLog turn.old.head.now.server.log → IsTrueLog turn.new.head.now.server.log }
{
    logs_stay_true();
    turn.write(pixel_at(p), colour);
}

// Brings the colour of another pixel to a pixel.
#[inline(always)]
fn carry_pixel(turn: &mut ServerTurn, p: u32, falling: bool, by: u32)
    requires open { IsOpenServer turn.old }
    requires can { CanWork turn.old.screen.now.setting (Carry falling by) p }
    ensures same { SameServerTurn turn.old turn.new }
    ensures open { IsOpenServer turn.new }
    ensures head { OnlyLogs turn.old.head.now turn.new.head.now }
    ensures log { Works (Carry falling by) (p ∷ []) turn.old.head.now.server.log turn.new.head.now.server.log }
    ensures true_log { IsTrueLog turn.old.head.now.server.log → IsTrueLog turn.new.head.now.server.log }
{
    logs_stay_true();
    // A screen has at most 640 columns and 480 rows.
    let _width = turn.screen().size().w();
    let from = if falling { p - by } else { p + by };
    let brought = turn.read(pixel_at(from));
    turn.write(pixel_at(p), brought);
}

// Puts a colour on pixels side by side.
#[inline(always)]
fn fill_stretch(turn: &mut ServerTurn, colour: u64, first: u32, count: u32)
    requires open { IsOpenServer turn.old }
    requires can { (p : ℕ) → first ≤ p → p < first + count → CanWork turn.old.screen.now.setting (Fill colour) p }
    requires few { first + count ≤ 307200 }
    ensures same { SameServerTurn turn.old turn.new }
    ensures open { IsOpenServer turn.new }
    ensures head { OnlyLogs turn.old.head.now turn.new.head.now }
    ensures log { Works (Fill colour) (stretch_pixels false first count) turn.old.head.now.server.log turn.new.head.now.server.log }
    ensures true_log { IsTrueLog turn.old.head.now.server.log → IsTrueLog turn.new.head.now.server.log }
{
    for j in 0..count {
        fill_pixel(turn, first + j, colour);
    }
}

// Brings the colours of other pixels to pixels side by side.
#[inline(always)]
fn carry_stretch(turn: &mut ServerTurn, falling: bool, by: u32, first: u32, count: u32)
    requires open { IsOpenServer turn.old }
    requires can { (p : ℕ) → first ≤ p → p < first + count → CanWork turn.old.screen.now.setting (Carry falling by) p }
    requires few { first + count ≤ 307200 }
    ensures same { SameServerTurn turn.old turn.new }
    ensures open { IsOpenServer turn.new }
    ensures head { OnlyLogs turn.old.head.now turn.new.head.now }
    ensures log { Works (Carry falling by) (stretch_pixels falling first count) turn.old.head.now.server.log turn.new.head.now.server.log }
    ensures true_log { IsTrueLog turn.old.head.now.server.log → IsTrueLog turn.new.head.now.server.log }
{
    for j in 0..count {
        let p = first + pixel_place(falling, count, j);
        carry_pixel(turn, p, falling, by);
    }
}

// Works on pixels side by side.
#[inline(always)]
pub(crate) fn work_stretch(turn: &mut ServerTurn, work: Work, first: u32, count: u32)
    requires open { IsOpenServer turn.old }
    requires can { (p : ℕ) → first ≤ p → p < first + count → CanWork turn.old.screen.now.setting work p }
    requires few { first + count ≤ 307200 }
    ensures same { SameServerTurn turn.old turn.new }
    ensures open { IsOpenServer turn.new }
    ensures head { OnlyLogs turn.old.head.now turn.new.head.now }
    ensures log { Works work (stretch_pixels (is_falling work) first count) turn.old.head.now.server.log turn.new.head.now.server.log }
    ensures true_log { IsTrueLog turn.old.head.now.server.log → IsTrueLog turn.new.head.now.server.log }
{
    match work {
        Work::Fill { colour } => fill_stretch(turn, colour, first, count),
        Work::Carry { falling, by } => carry_stretch(turn, falling, by, first, count),
    }
}
