//! Regions of the framebuffer, row by row.
ghost use Rattle.std.specs.Prelude.{◌≡◌, ℕ, ◌<◌, true, All, length, nat_abs, pos, ◌≤ℤ◌};
ghost use Rattle.qws_base.specs.Points.{any_holds, holds, point_of, pixel_count};
ghost use Rattle.qws_base.specs.RectPixels.{IsWithin};
ghost use Rattle.turn_logs.specs.Phases.{IsTrueLog};
ghost use Rattle.display_lock.specs.Turns.{IsOpenServer, SameServerTurn};
ghost use Rattle.sw_cursor.specs.Lifts.{OnlyLogs};
ghost use Rattle.scene_turns.specs.declared.works.Work.TheVariants.{Fill, Carry};
ghost use Rattle.scene_turns.specs.Works.{CanWork, Works, is_falling};
ghost use Rattle.scene_turns.specs.Sweeps.{has_row, rect_row, row_part, rows_part, AddsSweep};

use crate::stretches::work_stretch;
use crate::works::{Work, pixel_place, rect_place};
use band_regions::Region;
use display_lock::ServerTurn;
use qws_base::{Rect, Rgb, Size};

// A coordinate on the screen.
#[inline(always)]
fn coordinate(x: i32) -> u32
    requires { pos 0 ≤ℤ x }
    ensures { result ≡ nat_abs x }
{
    x as u32
}

// Whether a rectangle on the screen has pixels in a row.
#[inline(always)]
fn has_row(size: Size, rect: Rect, y: u32) -> bool
    requires { IsWithin size rect }
    ensures { result ≡ has_row y rect }
{
    let _height = size.h();
    let top = coordinate(rect.y);
    top <= y && y < top + rect.h
}

// Works on the pixels of a rectangle in a row of the screen.
#[inline(always)]
fn work_rect_row(turn: &mut ServerTurn, work: Work, size: Size, rect: Rect, y: u32)
    requires open { IsOpenServer turn.old }
    requires size { size ≡ turn.old.screen.now.setting.size }
    requires row { y < size.h }
    requires within { IsWithin size rect }
    requires can { (p : ℕ) → p < pixel_count size → holds rect (point_of size.w p) ≡ true → CanWork turn.old.screen.now.setting work p }
    ensures same { SameServerTurn turn.old turn.new }
    ensures open { IsOpenServer turn.new }
    ensures head { OnlyLogs turn.old.head.now turn.new.head.now }
    ensures log { Works work (rect_row (is_falling work) size.w y rect) turn.old.head.now.server.log turn.new.head.now.server.log }
    ensures true_log { IsTrueLog turn.old.head.now.server.log → IsTrueLog turn.new.head.now.server.log }
{
    let width = size.w();
    if has_row(size, rect, y) {
        let first = y * width + coordinate(rect.x);
        work_stretch(turn, work, first, rect.w);
    }
}

// Works on the pixels of rectangles in a row of the screen.
#[inline(always)]
fn work_row(turn: &mut ServerTurn, work: Work, size: Size, rects: &[Rect], y: u32)
    requires open { IsOpenServer turn.old }
    requires size { size ≡ turn.old.screen.now.setting.size }
    requires row { y < size.h }
    requires within { All (IsWithin size) rects.now }
    requires can { (p : ℕ) → p < pixel_count size → any_holds rects.now (point_of size.w p) ≡ true → CanWork turn.old.screen.now.setting work p }
    ensures same { SameServerTurn turn.old turn.new }
    ensures open { IsOpenServer turn.new }
    ensures head { OnlyLogs turn.old.head.now turn.new.head.now }
    ensures log { Works work (row_part (is_falling work) size.w rects.now y (length rects.now)) turn.old.head.now.server.log turn.new.head.now.server.log }
    ensures true_log { IsTrueLog turn.old.head.now.server.log → IsTrueLog turn.new.head.now.server.log }
{
    let falling = work.is_falling();
    for j in 0..rects.len() {
        let rect = rects[rect_place(falling, rects.len(), j)];
        work_rect_row(turn, work, size, rect, y);
    }
}

// Works on the pixels of rectangles, row by row.
#[inline(always)]
fn work_rows(turn: &mut ServerTurn, work: Work, size: Size, rects: &[Rect])
    requires open { IsOpenServer turn.old }
    requires size { size ≡ turn.old.screen.now.setting.size }
    requires within { All (IsWithin size) rects.now }
    requires can { (p : ℕ) → p < pixel_count size → any_holds rects.now (point_of size.w p) ≡ true → CanWork turn.old.screen.now.setting work p }
    ensures same { SameServerTurn turn.old turn.new }
    ensures open { IsOpenServer turn.new }
    ensures head { OnlyLogs turn.old.head.now turn.new.head.now }
    ensures log { Works work (rows_part (is_falling work) size.w rects.now size.h size.h) turn.old.head.now.server.log turn.new.head.now.server.log }
    ensures true_log { IsTrueLog turn.old.head.now.server.log → IsTrueLog turn.new.head.now.server.log }
{
    let falling = work.is_falling();
    let rows = size.h();
    for j in 0..rows {
        let y = pixel_place(falling, rows, j);
        work_row(turn, work, size, rects, y);
    }
}

/// Fills the pixels of a region on the screen with a scene colour. It writes no table word, and takes no memory.
pub fn fill(turn: &mut ServerTurn, region: &Region, colour: Rgb)
    requires open { IsOpenServer turn.old }
    requires within { All (IsWithin turn.old.screen.now.setting.size) region.now }
    requires can { (p : ℕ) → p < pixel_count turn.old.screen.now.setting.size → any_holds region.now (point_of turn.old.screen.now.setting.size.w p) ≡ true → CanWork turn.old.screen.now.setting (Fill colour) p }
    ensures same { SameServerTurn turn.old turn.new }
    ensures open { IsOpenServer turn.new }
    ensures head { OnlyLogs turn.old.head.now turn.new.head.now }
    ensures log { AddsSweep turn.old.screen.now.setting.size region.now (Fill colour) turn.old.head.now.server.log turn.new.head.now.server.log }
    ensures true_log { IsTrueLog turn.old.head.now.server.log → IsTrueLog turn.new.head.now.server.log }
{
    let work = Work::Fill {
        colour: u64::from(colour.value()),
    };
    let size = turn.screen().size();
    work_rows(turn, work, size, region.rects());
}

/// Brings to each pixel of a region on the screen the colour that the pixel so many places ahead had, or `falling` the pixel
/// so many places behind. The two may overlap. It writes no table word, and takes no memory.
pub fn carry(turn: &mut ServerTurn, region: &Region, falling: bool, by: u32)
    requires open { IsOpenServer turn.old }
    requires within { All (IsWithin turn.old.screen.now.setting.size) region.now }
    requires can { (p : ℕ) → p < pixel_count turn.old.screen.now.setting.size → any_holds region.now (point_of turn.old.screen.now.setting.size.w p) ≡ true → CanWork turn.old.screen.now.setting (Carry falling by) p }
    ensures same { SameServerTurn turn.old turn.new }
    ensures open { IsOpenServer turn.new }
    ensures head { OnlyLogs turn.old.head.now turn.new.head.now }
    ensures log { AddsSweep turn.old.screen.now.setting.size region.now (Carry falling by) turn.old.head.now.server.log turn.new.head.now.server.log }
    ensures true_log { IsTrueLog turn.old.head.now.server.log → IsTrueLog turn.new.head.now.server.log }
{
    let work = Work::Carry { falling, by };
    let size = turn.screen().size();
    work_rows(turn, work, size, region.rects());
}
