//! Paints on the pixels that belong to a window.
ghost use Rattle.std.specs.Prelude.{◌≡◌, All, IfSome};
ghost use Rattle.std.specs.List.{find};
ghost use Rattle.std.specs.Option.{option_map};
ghost use Rattle.qws_base.specs.Points.{IsPlaced};
ghost use Rattle.qws_base.specs.Windows.{has_slot, is_own, layout_of};
ghost use Rattle.qws_base.specs.Scenes.{scene_after_paint, paint_reply};
ghost use Rattle.gfx_painters.specs.Paints.{paint_sheet};

use gfx_painters::{Paint, paint_plain};
use pixel_model::Canvas;
use qws_base::{PaintReply, Point, RowBuf, WindowView};
use window_core::Core;

// Whether a window of the client has the slot.
fn has_own(windows: &[WindowView], client: u32, slot: u32) -> bool
    ensures { result ≡ is_own windows.now client slot }
{
    windows.iter().any(|w| w.slot == slot && w.owner == client)
}

// The origin of the first window with a slot.
fn slot_origin(windows: &[WindowView], slot: u32) -> Option<Point>
    requires { All (λ w. IsPlaced w.origin) windows.now }
    ensures value { result ≡ option_map (λ w. w.origin) (find (has_slot slot) windows.now) }
    ensures placed { IfSome result IsPlaced }
{
    windows.iter().find(|w| w.slot == slot).map(|w| w.origin)
}

/// A paint of a client in the window of a slot, on the core's region of the slot.
pub fn make_paint(
    core: &Core,
    canvas: &mut Canvas,
    row: &mut RowBuf,
    client: u32,
    slot: u32,
    paint: &Paint<'_>,
) -> PaintReply
    requires size { canvas.old.setting.size ≡ core.now.size }
    ensures setting { canvas.new.setting ≡ canvas.old.setting }
    ensures scene { canvas.new.scene ≡ scene_after_paint canvas.old.setting (layout_of canvas.old.setting.size core.now.state.windows) client slot (paint_sheet paint.now) canvas.old.scene }
    ensures reply { result ≡ paint_reply canvas.old.setting.size (layout_of canvas.old.setting.size core.now.state.windows) client slot (paint_sheet paint.now) }
{
    let windows = core.windows();
    if !has_own(windows, client, slot) {
        return PaintReply::Gone;
    }
    let Some(origin) = slot_origin(windows, slot) else {
        return PaintReply::Gone;
    };
    let pixels = paint_plain(canvas, core.region(slot), origin, paint, row);
    PaintReply::Painted { pixels }
}
