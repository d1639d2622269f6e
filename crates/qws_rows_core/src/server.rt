//! A server for the rows: commands are planned and committed, one after another.
ghost use Rattle.std.specs.Bool.{OnTrue};
ghost use Rattle.window_core.specs.CoreViews.{CanRise};

use band_regions::Region;
use qws_base::{Command, OutOfMemory, Rect, Reply, Rgb, Size};
use std::alloc::{AllocError, AllocFailed, Global};
use step_regions::bared;
use window_core::{Core, Plan};
use window_stack::StackStop;

/// Why a test ends before its end.
#[derive(Debug, Drop)]
pub enum Stop {
    NoScreen,
    NoClient,
    NoSlot,
    LastRevision,
    OtherCommand,
    Refused(StackStop),
    /// The row with this number, counted from 0, isn't one.
    NoRow { row: usize },
    /// The row with this number doesn't hold.
    Wrong { row: usize },
    OutOfMemory,
}

impl From<OutOfMemory> for Stop {
    fn from(_: OutOfMemory) -> Self {
        Stop::OutOfMemory
    }
}

impl From<AllocError> for Stop {
    fn from(_: AllocError) -> Self {
        Stop::OutOfMemory
    }
}

impl<T: Drop> From<AllocFailed<T>> for Stop {
    fn from(_: AllocFailed<T>) -> Self {
        Stop::OutOfMemory
    }
}

impl From<StackStop> for Stop {
    fn from(stop: StackStop) -> Self {
        Stop::Refused(stop)
    }
}

/// A rectangle from its numbers.
pub const fn rect(x: i32, y: i32, w: u32, h: u32) -> Rect {
    Rect { x, y, w, h }
}

/// The opening state of a screen of that size, with a black backdrop.
pub fn opened(alloc: Global, w: u32, h: u32) -> Result<Core, Stop> {
    let size = Size::new(w, h).ok_or(Stop::NoScreen)?;
    let black = Rgb::new(0).ok_or(Stop::NoScreen)?;
    Ok(Core::new(alloc, size, black)?)
}

// Whether no revision is the last.
fn can_rise(core: &Core) -> bool
    ensures { OnTrue result (CanRise core.now.state) }
{
    for slot in 0..32 {
        if core.revision(slot) == u64::MAX {
            return false;
        }
    }
    true
}

/// The plan of a client's command.
pub fn planned(alloc: Global, core: &Core, client: u32, command: &Command) -> Result<Plan, Stop> {
    if client >= 16 {
        return Err(Stop::NoClient);
    }
    if !can_rise(core) {
        return Err(Stop::LastRevision);
    }
    Ok(core.plan(alloc, client, command)?)
}

/// Makes a client's command, and gives the reply.
pub fn call(alloc: Global, core: &mut Core, client: u32, command: Command) -> Result<Reply, Stop> {
    if client >= 16 {
        return Err(Stop::NoClient);
    }
    if !can_rise(core) {
        return Err(Stop::LastRevision);
    }
    let plan = core.plan(alloc, client, &command)?;
    let (made, reply) = core.commit(plan);
    if made == command {
        Ok(reply)
    } else {
        Err(Stop::OtherCommand)
    }
}

/// The pixels that lose their last owner by a command of client 0.
pub fn lost(alloc: Global, core: &Core, command: &Command) -> Result<Region, Stop> {
    if !can_rise(core) {
        return Err(Stop::LastRevision);
    }
    let plan = core.plan(alloc, 0, command)?;
    Ok(bared(alloc, core, &plan)?)
}
