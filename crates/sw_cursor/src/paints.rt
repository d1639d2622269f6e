//! Painting under the cursor.
ghost use Rattle.std.specs.Prelude.{◌≡◌, ◌<◌, ◌^◌, None};
ghost use Rattle.qws_base.specs.Points.{point_of};
ghost use Rattle.qws_base.specs.Shown.{cell_on};
ghost use Rattle.region_table.specs.Numbers.{pixel_word, saved_word};
ghost use Rattle.fb_words.specs.Clips.{KeepsClips};
ghost use Rattle.fb_words.specs.Rights.{Owns};
ghost use Rattle.display_lock.specs.Turns.{IsOpen, SameTurn, client_in};
ghost use Rattle.sw_cursor.specs.Covers.{PaintsOn, IsCover, PutsBare, PutsOver, PutsInk, bare_cursor};

use crate::cells::scene_colour;
use crate::covers::Cover;
use display_lock::PaintTurn;
use qws_base::{Depth, Ink, Point, after_at};
use region_table::{cell_at, pixel_at, saved_at};

// Paints a pixel on which no cell lies.
#[inline(always)]
fn put_bare(turn: &mut PaintTurn, depth: Depth, p: u32, ink: Ink)
    requires open { IsOpen turn.old }
    requires depth { depth ≡ (client_in turn.old).setting.depth }
    requires pixel { p < 307200 }
    requires owns { Owns (client_in turn.old) (pixel_word p) }
    ensures same { SameTurn turn.old turn.new }
    ensures open { IsOpen turn.new }
    ensures goes { PaintsOn (client_in turn.old) (client_in turn.new) }
    ensures log { PutsBare (client_in turn.old) (client_in turn.new) p ink }
{
    let word = pixel_at(p);
    let old = scene_colour(depth, turn.pick(word));
    let new = after_at(depth, ink, old);
    turn.put(word, u64::from(new.value()));
}

// Paints a pixel under the cell in a column and a row.
fn put_over(turn: &mut PaintTurn, depth: Depth, p: u32, at: (u32, u32), ink: Ink)
    requires open { IsOpen turn.old }
    requires depth { depth ≡ (client_in turn.old).setting.depth }
    requires pixel { p < 307200 }
    requires column { at.0 < 32 }
    requires row { at.1 < 32 }
    requires owns { Owns (client_in turn.old) (pixel_word p) }
    requires saved { Owns (client_in turn.old) (saved_word at.0 at.1) }
    ensures same { SameTurn turn.old turn.new }
    ensures open { IsOpen turn.new }
    ensures goes { PaintsOn (client_in turn.old) (client_in turn.new) }
    ensures log { PutsOver (client_in turn.old) (client_in turn.new) p at ink }
{
    let (column, row) = at;
    let cell = turn.look(cell_at(column, row));
    let saved = saved_at(column, row);
    let old = scene_colour(depth, turn.pick(saved));
    let new = after_at(depth, ink, old);
    turn.put(saved, u64::from(new.value()));
    let shown = after_at(depth, Ink::of_cell(cell as u32), new);
    turn.put(pixel_at(p), u64::from(shown.value()));
}

/// Paints a pixel that the turn owns, under the cursor that the cover shows. With Skip nothing is read or written; else the
/// pixel's scene word is read, and the ink over what was found is put there; and where a cell lies on the pixel, the cell is
/// looked at and its blend put on the framebuffer word. `at` is the pixel's point. It looks at no other table word than a
/// cell's, changes nothing that is kept, and takes no memory.
pub fn put_covered(turn: &mut PaintTurn, cover: &Cover, at: Point, p: u32, ink: Ink)
    requires open { IsOpen turn.old }
    requires cover { IsCover (client_in turn.old) cover.now }
    requires at { at ≡ point_of (client_in turn.old).setting.size.w p }
    requires pixel { p < 307200 }
    requires owns { Owns (client_in turn.old) (pixel_word p) }
    ensures same { SameTurn turn.old turn.new }
    ensures open { IsOpen turn.new }
    ensures goes { PaintsOn (client_in turn.old) (client_in turn.new) }
    ensures cover { IsCover (client_in turn.new) cover.now }
    ensures log { PutsInk (client_in turn.old) (client_in turn.new) p ink }
{
    if let Ink::Skip = ink {
        return;
    }
    match cover.cell(at) {
        Some(cell) => put_over(turn, cover.depth, p, cell, ink),
        None => put_bare(turn, cover.depth, p, ink),
    }
}

/// Paints a pixel that the turn owns, and on which the cover has no cell. With Skip nothing is read or written; else the pixel
/// is read, and the ink over what was found is put there. It looks at no table word, and takes no memory.
#[inline(always)]
pub fn put_clear(turn: &mut PaintTurn, cover: &Cover, p: u32, ink: Ink)
    requires open { IsOpen turn.old }
    requires cover { IsCover (client_in turn.old) cover.now }
    requires clear { cell_on (bare_cursor cover.now) (point_of (client_in turn.old).setting.size.w p) ≡ None }
    requires pixel { p < 307200 }
    requires owns { Owns (client_in turn.old) (pixel_word p) }
    ensures same { SameTurn turn.old turn.new }
    ensures open { IsOpen turn.new }
    ensures goes { PaintsOn (client_in turn.old) (client_in turn.new) }
    ensures cover { IsCover (client_in turn.new) cover.now }
    ensures log { PutsInk (client_in turn.old) (client_in turn.new) p ink }
{
    if let Ink::Skip = ink {
        return;
    }
    put_bare(turn, cover.depth, p, ink);
}

/// Paints a pixel that the turn owns, under the cursor. It looks at the cursor's words, and at no other table words.
pub fn put_under(turn: &mut PaintTurn, p: u32, ink: Ink)
    requires open { IsOpen turn.old }
    requires owns { Owns (client_in turn.old) (pixel_word p) }
    ensures same { SameTurn turn.old turn.new }
    ensures open { IsOpen turn.new }
    ensures goes { PaintsOn (client_in turn.old) (client_in turn.new) }
    ensures kept { KeepsClips (client_in turn.old) (client_in turn.new) }
    ensures log { PutsInk (client_in turn.old) (client_in turn.new) p ink }
{
    let size = turn.screen().size();
    let width = size.w();
    let at = Point {
        x: (p % width) as i32,
        y: (p / width) as i32,
    };
    let cover = Cover::look(turn);
    put_covered(turn, &cover, at, p, ink);
}
