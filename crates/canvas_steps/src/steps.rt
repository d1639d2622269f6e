//! A planned step on a canvas.
ghost use Rattle.std.specs.Prelude.{◌≡◌, ℕ, OnOk, OnErr};
ghost use Rattle.qws_base.specs.States.{is_refused};
ghost use Rattle.qws_base.specs.Steps.{step};
ghost use Rattle.qws_base.specs.Scenes.{setting_of};
ghost use Rattle.qws_base.specs.Windows.{layout_of};
ghost use Rattle.qws_base.specs.Histories.{World, scene_after};
ghost use Rattle.turn_logs.specs.Carries.{IsBare};
ghost use Rattle.window_core.specs.CoreViews.{Belongs};

use crate::patches::Patch;
use pixel_model::Canvas;
use qws_base::{Command, OutOfMemory, Reply};
use std::alloc::Global;
use step_regions::{bared, carried_by};
use window_core::{Core, Plan};

// Whether a plan is refused.
fn is_refusal(plan: &Plan) -> bool
    ensures { result ≡ is_refused plan.now.reply }
{
    matches!(plan.reply(), Reply::Refused { cause: _ })
}

/// Shows the step of a plan, which was made for the command from the present state, on the canvas: a move carries its pixels,
/// and those that lose their last owner get the backdrop. The canvas has the core's screen, and has the backdrop where no
/// window owns the pixel. Only those pixels are looked at. All memory is taken before the first is written, and want of it is
/// the only error.
pub fn show_step(
    alloc: Global,
    core: &Core,
    canvas: &mut Canvas,
    command: &Command,
    plan: &Plan,
) -> Result<(), OutOfMemory>
    requires screen { canvas.old.setting ≡ setting_of core.now.size canvas.old.setting.depth core.now.backdrop }
    requires belongs { Belongs core.now.size plan.now core.now.state }
    requires command { plan.now.command ≡ command.now }
    requires bare { IsBare canvas.old.setting (layout_of core.now.size core.now.state.windows) canvas.old.scene }
    ensures setting { canvas.new.setting ≡ canvas.old.setting }
    ensures scene { let world : World = record { state = core.now.state; scene = canvas.old.scene } in
        OnOk result (canvas.new.scene ≡ scene_after canvas.old.setting world command.now (step core.now.size core.now.state plan.now.client command.now)) }
    ensures unchanged { OnErr result (canvas.new ≡ canvas.old) }
{
    if is_refusal(plan) {
        return Ok(());
    }
    let _pixels = canvas.pixels();
    let carried = carried_by(alloc, core, plan, command)?;
    let lost = bared(alloc, core, plan)?;
    let brought = Patch::carried(alloc, canvas, &carried)?;
    let bare = Patch::filled(alloc, canvas, &lost, core.backdrop())?;
    brought.lay(canvas);
    bare.lay(canvas);
    Ok(())
}
