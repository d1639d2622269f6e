//! A client's paints.
ghost use Rattle.std.specs.Prelude.{◌≡◌, ◌<◌, ◌+◌, length, OnOk, OnErr};
ghost use Rattle.fb_words.specs.declared.known.Mode.TheVariants.{Idle};
ghost use Rattle.fb_words.specs.Views.{books_in};
ghost use Rattle.gfx_painters.specs.Paints.{paint_sheet};
ghost use Rattle.clip_refetch.specs.Clips.{IsKnown};
ghost use Rattle.shared_painter.specs.Answers.{IsBack, KeepsOthers};
ghost use Rattle.script_names.specs.declared.calls.Call.TheVariants.{Paint as PaintMeant};
ghost use Rattle.client_session.specs.Keeping.{HasDrawn};
ghost use Rattle.client_session.specs.Runs.{IsRunning, MeansNow};

use crate::spaces::Workspace;
use clip_refetch::Clip;
use fb_words::{Pass, Screen};
use gfx_painters::Paint;
use qws_base::{Gate, OutOfMemory, RowBuf};
use session_script::Script;
use shared_painter::{PaintStop, try_paint};
use std::alloc::Global;
use std::sync::Wait;
use std::thread;

// Paints until the server has no turn.
fn draw<R: Wait, G: Gate>(
    rt: &R,
    screen: &Screen,
    clip: &mut Clip,
    pass: &mut Pass,
    row: &mut RowBuf,
    paint: &Paint,
    tag: u64,
    gate: &G,
)
    requires screen { pass.old.screen ≡ screen.now }
    requires idle { pass.old.client.mode ≡ Idle }
    requires known { IsKnown pass.old.client clip.old }
    requires room { length (books_in pass.old.client.own) < pass.old.book_limit }
    ensures back { IsBack pass.old pass.new }
    ensures drawn { HasDrawn pass.old pass.new clip.old clip.new (paint_sheet paint.now) tag }
    ensures others { KeepsOthers clip.old.slot pass.old.client pass.new.client }
    ensures known { IsKnown pass.new.client clip.new }
    ensures slot { clip.new.slot ≡ clip.old.slot }
{
    for _ in rt.forever() {
        match try_paint(screen, clip, pass, row, paint, tag, gate) {
            Ok(_) => return,
            Err(PaintStop::Gone { .. }) => return,
            Err(PaintStop::BookFull { .. }) => unreachable!(),
            Err(PaintStop::Busy { .. }) => thread::yield_now(),
        }
    }
    unreachable!()
}

/// Makes the client's call `k`, which is a paint of that slot, with the slot's own clip.
pub(crate) fn make_paint<R: Wait, G: Gate>(
    rt: &R,
    alloc: Global,
    screen: &Screen,
    script: &Script,
    space: &mut Workspace,
    k: u64,
    pass: &mut Pass,
    slot: u32,
    paint: &Paint,
    gate: &G,
) -> Result<(), OutOfMemory>
    requires screen { pass.old.screen ≡ screen.now }
    requires running { IsRunning script.now pass.old k space.old }
    requires call { MeansNow script.now space.old.names k (PaintMeant slot paint.now) }
    ensures back { IsBack pass.old pass.new }
    ensures running { OnOk result (IsRunning script.now pass.new (k + 1) space.new) }
    ensures stopped { OnErr result (pass.new ≡ pass.old) }
{
    let _calls = script.calls();
    let mut clip = space.clips.take(alloc, slot)?;
    draw(rt, screen, &mut clip, pass, &mut space.row, paint, k, gate);
    space.clips.put(slot, clip);
    Ok(())
}
