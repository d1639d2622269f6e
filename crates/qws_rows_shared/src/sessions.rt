//! A desk with its screen, and one client or two.
ghost use Rattle.std.specs.Prelude.{◌≡◌, ◌<◌, IfOk};
ghost use Rattle.qws_rows_shared.specs.Sessions.{IsAtRest};

use crate::stops::Stop;
use clip_refetch::Clip;
use fb_words::{Pass, Screen};
use qws_base::{
    Command, Depth, Ink, NoGate, Picture, Point, Rect, Rects, Reply, Rgb, RowBuf, Size, Words,
};
use server_desk::{Answer, CallStop, Closed, Desk};
use shared_painter::{PaintStop, Painted, try_paint};
use std::alloc::Global;
use std::marker::Model;
use std::mem;

/// How many steps and paints a client of these rows may make.
pub const LIMIT: u64 = 1024;

/// The rectangle with that corner and those sides.
pub const fn rect(x: i32, y: i32, w: u32, h: u32) -> Rect
    ensures { result ≡ record { x = x; y = y; w = w; h = h } }
{
    Rect { x, y, w, h }
}

/// The colour with that number.
pub fn colour(value: u32) -> Result<Rgb, Stop> {
    Rgb::new(value).ok_or(Stop::NoColour)
}

/// The ink that sets a colour.
pub fn copy(value: u32) -> Result<Ink, Stop> {
    Ok(Ink::Copy { c: colour(value)? })
}

/// A request for the pixels of rectangles, at an origin.
pub fn request(alloc: Global, slot: u32, x: i32, y: i32, rects: &[Rect]) -> Result<Command, Stop> {
    Ok(Command::Region {
        slot,
        origin: Point { x, y },
        rects: Rects::of(rects.to_vec(alloc)?),
    })
}

/// A shape for the cursor.
pub fn shape(alloc: Global, w: u32, h: u32, cells: &[u32]) -> Result<Command, Stop> {
    Ok(Command::CursorShape {
        w,
        h,
        cells: Words::of(cells.to_vec(alloc)?),
    })
}

/// A screen with its desk, of which no client is connected.
pub fn open(
    alloc: Global,
    w: u32,
    h: u32,
    depth: Depth,
    backdrop: u32,
) -> Result<(Screen, Desk), Stop>
    ensures desk { IfOk result (λ made. made.1.screen ≡ made.0) }
{
    let size = Size::new(w, h).ok_or(Stop::NoScreen)?;
    let backdrop = colour(backdrop)?;
    Ok(Desk::new(alloc, size, depth, backdrop)?)
}

/// One client more.
pub fn connect(
    alloc: Global,
    screen: &Screen,
    desk: &mut Desk,
    steps: u64,
    paints: u64,
) -> Result<Pass, Stop>
    requires desk { desk.old.screen ≡ screen.now }
    ensures desk { desk.new.screen ≡ screen.now }
    ensures pass { IfOk result (λ pass. IsAtRest screen.now pass) }
{
    Ok(desk.connect(alloc, screen, steps, paints)?)
}

/// A command of the pass's client.
pub fn call(
    alloc: Global,
    screen: &Screen,
    desk: &mut Desk,
    pass: Pass,
    command: &Command,
) -> (Pass, Result<Answer, CallStop>)
    requires desk { desk.old.screen ≡ screen.now }
    requires pass { IsAtRest screen.now pass }
    ensures desk { desk.new.screen ≡ screen.now }
    ensures pass { IsAtRest screen.now result.0 }
{
    desk.try_call(alloc, screen, pass, command)
}

/// A paint of the pass's client, with a new clip. The tag is the number of paints before.
pub fn paint<P: Picture>(
    alloc: Global,
    screen: &Screen,
    pass: &mut Pass,
    slot: u32,
    picture: &P,
) -> Result<Result<Painted, PaintStop>, Stop>
    requires slot { slot < 33 }
    requires pass { IsAtRest screen.now pass.old }
    ensures pass { IsAtRest screen.now pass.new }
{
    let tag = pass.entries().len() as u64;
    let mut clip = Clip::new(alloc, slot)?;
    let mut row = RowBuf::new(alloc)?;
    Ok(try_paint(screen, &mut clip, pass, &mut row, picture, tag, &NoGate))
}

/// A desk with its screen, and the client that makes the next calls; perhaps another one.
#[derive(Drop)]
pub struct Session {
    screen: Screen,
    desk: Desk,
    pass: Option<Pass>,
    other: Option<Pass>,
}

impl Model for Session {
    ghost use Rattle.std.specs.Prelude.{◌≡◌, IfSome};
    ghost use Rattle.fb_words.specs.Views.{ScreenView};
    ghost use Rattle.qws_rows_shared.specs.Sessions.{IsAtRest};

    ghost Value = { ScreenView };

    ghost view = { λ s. s.screen };

    ghost invariant = { λ s. (s.desk.screen ≡ s.screen) × IfSome s.pass (IsAtRest s.screen) × IfSome s.other (IsAtRest s.screen) };
}

impl Session {
    /// A new screen with one client.
    pub fn new(
        alloc: Global,
        w: u32,
        h: u32,
        depth: Depth,
        backdrop: u32,
    ) -> Result<Session, Stop> {
        let (screen, mut desk) = open(alloc, w, h, depth, backdrop)?;
        let pass = connect(alloc, &screen, &mut desk, LIMIT, LIMIT)?;
        Ok(Session {
            screen,
            desk,
            pass: Some(pass),
            other: None,
        })
    }

    /// Connects another client, which makes the next calls; the one before is the other then.
    pub fn connect(&mut self, alloc: Global) -> Result<(), Stop> {
        let pass = connect(alloc, &self.screen, &mut self.desk, LIMIT, LIMIT)?;
        self.other = self.pass.replace(pass);
        Ok(())
    }

    /// The next calls are the other client's.
    pub fn swap(&mut self) {
        mem::swap(&mut self.pass, &mut self.other);
    }

    /// A command of the client.
    pub fn call(&mut self, alloc: Global, command: &Command) -> Result<Reply, Stop> {
        let Some(pass) = self.pass.take() else {
            return Err(Stop::NoClient);
        };
        let (pass, answer) = call(alloc, &self.screen, &mut self.desk, pass, command);
        self.pass = Some(pass);
        Ok(answer?.reply)
    }

    /// A paint of the client: how many pixels of the window the picture has ink on.
    pub fn paint<P: Picture>(&mut self, alloc: Global, slot: u32, picture: &P) -> Result<u64, Stop>
        requires slot { slot < 33 }
    {
        let Some(mut pass) = self.pass.take() else {
            return Err(Stop::NoClient);
        };
        let painted = paint(alloc, &self.screen, &mut pass, slot, picture);
        self.pass = Some(pass);
        Ok(painted??.pixels)
    }

    /// Closes the session.
    pub fn close(self, alloc: Global) -> Result<Closed, Stop> {
        let Session {
            screen,
            desk,
            pass,
            other,
        } = self;
        let mut passes = Vec::with_capacity(alloc, 2)?;
        if let Some(pass) = pass {
            passes.push_reserved(pass);
        }
        if let Some(pass) = other {
            passes.push_reserved(pass);
        }
        match desk.close(alloc, screen, passes) {
            Ok(closed) => Ok(closed),
            Err((_, _, _, stop)) => Err(Stop::Close { stop }),
        }
    }
}
