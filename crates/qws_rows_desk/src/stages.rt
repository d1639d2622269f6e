//! A desk with one client, which makes commands and fills one after the other.
ghost use Rattle.std.specs.Prelude.{◌≡◌};
ghost use Rattle.fb_words.specs.declared.known.Mode.TheVariants.{Idle};
ghost use Rattle.server_desk.specs.DeskViews.{connected};

use clip_refetch::Clip;
use fb_words::{Pass, Screen};
use gfx_fills::Fill;
use qws_base::{
    Command, Depth, Ink, NoGate, OutOfMemory, Point, Rect, Rects, Reply, Rgb, RowBuf, Size,
};
use server_desk::{CallStop, ConnectStop, Desk};
use shared_painter::{PaintStop, try_paint};
use std::alloc::{AllocError, AllocFailed, Global};

/// Why a row wasn't played to its end.
#[derive(Clone, Copy, Debug, PartialEq, Eq)]
pub enum Stop {
    /// A side or a colour is out of range.
    Range,
    /// A pass is missing, or a client too many.
    Clients,
    OutOfMemory,
}

impl From<OutOfMemory> for Stop {
    fn from(_: OutOfMemory) -> Self {
        Stop::OutOfMemory
    }
}

impl From<AllocError> for Stop {
    fn from(_: AllocError) -> Self {
        Stop::OutOfMemory
    }
}

impl<T: Drop> From<AllocFailed<T>> for Stop {
    fn from(_: AllocFailed<T>) -> Self {
        Stop::OutOfMemory
    }
}

impl From<ConnectStop> for Stop {
    fn from(_: ConnectStop) -> Self {
        Stop::Clients
    }
}

/// A call of the client.
#[derive(Drop)]
pub enum Play {
    Call(Command),
    Fill(u32, Fill),
}

/// What it was answered.
#[derive(Debug, PartialEq, Eq, Drop)]
pub enum Got {
    Replied(u64, Reply),
    Painted(u64),
    Gone,
    Stopped,
}

/// A screen, its desk and the pass of its one client.
#[derive(Drop)]
pub struct Stage {
    screen: Screen,
    desk: Desk,
    pass: Pass,
    ghost of_screen: { desk.screen ≡ screen },
    ghost pass_of_screen: { pass.screen ≡ screen },
    ghost idle: { pass.client.mode ≡ Idle },
    ghost one: { connected desk ≡ 1 },
}

impl Stage {
    /// A new screen with room for so many steps and paints.
    pub fn new(
        alloc: Global,
        size: Size,
        depth: Depth,
        backdrop: Rgb,
        limit: u64,
    ) -> Result<Stage, Stop> {
        let (screen, mut desk) = Desk::new(alloc, size, depth, backdrop)?;
        let pass = desk.connect(alloc, &screen, limit, limit)?;
        Ok(Stage { screen, desk, pass })
    }

    // Makes a command.
    fn call(self, alloc: Global, command: &Command) -> (Stage, Got) {
        let Stage {
            screen,
            mut desk,
            pass,
        } = self;
        let (pass, answer) = desk.try_call(alloc, &screen, pass, command);
        let got = match answer {
            Ok(answer) => Got::Replied(answer.number, answer.reply),
            Err(CallStop::Busy { .. }) => Got::Stopped,
            Err(CallStop::JournalFull { .. }) => Got::Stopped,
            Err(CallStop::OutOfMemory) => Got::Stopped,
        };
        (Stage { screen, desk, pass }, got)
    }

    // Fills the window of a slot.
    fn fill(self, alloc: Global, slot: u32, fill: &Fill) -> Result<(Stage, Got), Stop> {
        if slot > 32 {
            return Err(Stop::Range);
        }
        let mut clip = Clip::new(alloc, slot)?;
        let mut row = RowBuf::new(alloc)?;
        let Stage {
            screen,
            desk,
            mut pass,
        } = self;
        let answer = try_paint(&screen, &mut clip, &mut pass, &mut row, fill, 0, &NoGate);
        let got = match answer {
            Ok(painted) => Got::Painted(painted.pixels),
            Err(PaintStop::Gone { .. }) => Got::Gone,
            Err(PaintStop::Busy { .. }) => Got::Stopped,
            Err(PaintStop::BookFull { .. }) => Got::Stopped,
        };
        Ok((Stage { screen, desk, pass }, got))
    }

    // Makes a call.
    fn play(self, alloc: Global, play: &Play) -> Result<(Stage, Got), Stop> {
        match play {
            Play::Call(command) => Ok(self.call(alloc, command)),
            Play::Fill(slot, fill) => self.fill(alloc, *slot, fill),
        }
    }

    // What the screen shows at the close.
    fn close(self, alloc: Global) -> Result<Vec<u32>, Stop> {
        let Stage { screen, desk, pass } = self;
        let mut passes = Vec::new(alloc);
        passes.push(pass)?;
        match desk.close(alloc, screen, passes) {
            Ok(closed) => Ok(closed.shown().to_vec(alloc)?),
            Err(_) => Err(Stop::Clients),
        }
    }
}

/// The answers to calls on a new screen of a width, a height and a backdrop, and what it shows at the close.
pub fn played(
    alloc: Global,
    sides: (u32, u32),
    depth: Depth,
    backdrop: u32,
    plays: &[Play],
) -> Result<(Vec<Got>, Vec<u32>), Stop> {
    let (Some(size), Some(colour)) = (Size::new(sides.0, sides.1), Rgb::new(backdrop)) else {
        return Err(Stop::Range);
    };
    let mut stage = Stage::new(alloc, size, depth, colour, plays.len() as u64)?;
    let mut got = Vec::new(alloc);
    for play in plays {
        let (next, answer) = stage.play(alloc, play)?;
        stage = next;
        got.push(answer)?;
    }
    Ok((got, stage.close(alloc)?))
}

/// A request of one rectangle, for a window at an origin.
pub fn region(
    alloc: Global,
    slot: u32,
    at: (i32, i32),
    rect: (i32, i32, u32, u32),
) -> Result<Play, Stop> {
    let mut rects = Vec::new(alloc);
    rects.push(Rect {
        x: rect.0,
        y: rect.1,
        w: rect.2,
        h: rect.3,
    })?;
    Ok(Play::Call(Command::Region {
        slot,
        origin: Point { x: at.0, y: at.1 },
        rects: Rects::of(rects),
    }))
}

/// A fill of a rectangle of the window in slot 0, which takes no column or row before 0 and no more than 100.
pub fn fill(rect: (u32, u32, u32, u32), ink: Ink) -> Result<Play, Stop> {
    let (x, y, w, h) = rect;
    if x > 100 || y > 100 || w == 0 || h == 0 || w > 100 || h > 100 {
        return Err(Stop::Range);
    }
    let rect = Rect {
        x: x as i32,
        y: y as i32,
        w,
        h,
    };
    Ok(Play::Fill(0, Fill::new(rect, ink)))
}

/// The ink of a colour.
pub fn copy(colour: u32) -> Result<Ink, Stop> {
    match Rgb::new(colour) {
        Some(c) => Ok(Ink::Copy { c }),
        None => Err(Stop::Range),
    }
}
