//! Two clients and a server in one program: each client paints its window from a thread of its own, and the picture that the
//! screen shows is printed.
#![tactic(auto)]

ghost use Rattle.std.specs.Prelude.{◌≡◌, ◌<◌, IfOk};
ghost use Rattle.fb_words.specs.declared.known.Mode.TheVariants.{Idle};

use clip_refetch::Clip;
use fb_words::{Pass, Screen};
use gfx_fills::Fill;
use qws_base::{
    Command, Depth, Ink, NoGate, OutOfMemory, Point, Rect, Rects, Reply, Rgb, RowBuf, Size,
};
use server_desk::{Answer, Closed, Desk};
use shared_painter::try_paint;
use std::alloc::{AllocError, AllocFailed, Global};
use std::thread::Threads;
use std::{io, thread};

// The columns of the screen.
const WIDTH: usize = 8;

const GREY: u32 = 0x20_2020;

const ORANGE: u32 = 0xff_8000;

const BLUE: u32 = 0x00_80ff;

/// Why there is no picture.
#[derive(Debug, Drop)]
enum Failure {
    NoScreen,
    NotConnected,
    NoWindow,
    NotPainted,
    NotClosed,
    NotPrinted,
    OutOfMemory,
}

impl From<OutOfMemory> for Failure {
    fn from(_: OutOfMemory) -> Self {
        Failure::OutOfMemory
    }
}

impl From<AllocError> for Failure {
    fn from(_: AllocError) -> Self {
        Failure::OutOfMemory
    }
}

impl From<io::Error> for Failure {
    fn from(_: io::Error) -> Self {
        Failure::NotPrinted
    }
}

impl<T: Drop> From<AllocFailed<T>> for Failure {
    fn from(_: AllocFailed<T>) -> Self {
        Failure::OutOfMemory
    }
}

// Connects a client, and opens a window for it, of the pixels of a rectangle.
fn open_window(
    alloc: Global,
    screen: &Screen,
    desk: &mut Desk,
    window: Rect,
) -> Result<(Pass, u32), Failure>
    requires desk { desk.old.screen ≡ screen.now }
    ensures desk { desk.new.screen ≡ screen.now }
    ensures pass { IfOk result (λ opened. (opened.0.screen ≡ screen.now) × (opened.0.client.mode ≡ Idle)) }
    ensures slot { IfOk result (λ opened. opened.1 < 33) }
{
    let Ok(pass) = desk.connect(alloc, screen, 2, 1) else {
        return Err(Failure::NotConnected);
    };
    let (pass, created) = desk.try_call(alloc, screen, pass, &Command::Create { layer: 0 });
    let slot = match created {
        Ok(
            Answer {
                number: _,
                reply: Reply::Created { slot },
            },
        ) if slot < 33 => slot,
        _ => return Err(Failure::NoWindow),
    };
    let request = Command::Region {
        slot,
        origin: Point { x: 0, y: 0 },
        rects: Rects::of([window].to_vec(alloc)?),
    };
    let (pass, requested) = desk.try_call(alloc, screen, pass, &request);
    match requested {
        Ok(_) => Ok((pass, slot)),
        Err(_) => Err(Failure::NoWindow),
    }
}

// Fills a client's window, and says how many pixels were painted.
fn paint(
    alloc: Global,
    screen: &Screen,
    mut pass: Pass,
    slot: u32,
    c: Rgb,
) -> Result<(Pass, u64), Failure>
    requires pass { (pass.screen ≡ screen.now) × (pass.client.mode ≡ Idle) }
    requires slot { slot < 33 }
    ensures pass { IfOk result (λ made. (made.0.screen ≡ screen.now) × (made.0.client.mode ≡ Idle)) }
{
    let (mut clip, mut row) = (Clip::new(alloc, slot)?, RowBuf::new(alloc)?);
    let (x, y, w, h) = (0, 0, 8, 4);
    let picture = Fill::new(Rect { x, y, w, h }, Ink::Copy { c });
    match try_paint(screen, &mut clip, &mut pass, &mut row, &picture, 0, &NoGate) {
        Ok(painted) => Ok((pass, painted.pixels)),
        Err(_) => Err(Failure::NotPainted),
    }
}

// Both clients paint at the same time.
fn paint_both<R: Threads>(
    rt: &R,
    alloc: Global,
    screen: &Screen,
    first: (Pass, u32, Rgb),
    second: (Pass, u32, Rgb),
) -> Result<((Pass, u64), (Pass, u64)), Failure>
    requires first { (first.0.screen ≡ screen.now) × (first.0.client.mode ≡ Idle) × (first.1 < 33) }
    requires second { (second.0.screen ≡ screen.now) × (second.0.client.mode ≡ Idle) × (second.1 < 33) }
    ensures first { IfOk result (λ made. (made.0.0.screen ≡ screen.now) × (made.0.0.client.mode ≡ Idle)) }
    ensures second { IfOk result (λ made. (made.1.0.screen ≡ screen.now) × (made.1.0.client.mode ≡ Idle)) }
{
    let (left, right) = thread::join(
        rt,
        || paint(alloc, screen, first.0, first.1, first.2),
        || paint(alloc, screen, second.0, second.1, second.2),
    );
    Ok((left?, right?))
}

// The whole session: what it shows, and how many pixels each client has painted.
fn session<R: Threads>(rt: &R, alloc: Global) -> Result<(Closed, u64, u64), Failure> {
    let size = Size::new(WIDTH as u32, 4).ok_or(Failure::NoScreen)?;
    let grey = Rgb::new(GREY).ok_or(Failure::NoScreen)?;
    let orange = Rgb::new(ORANGE).ok_or(Failure::NoScreen)?;
    let blue = Rgb::new(BLUE).ok_or(Failure::NoScreen)?;
    let (screen, mut desk) = Desk::new(alloc, size, Depth::Full, grey)?;
    let (x, y, w, h) = (0, 0, 5, 3);
    let (first, behind) = open_window(alloc, &screen, &mut desk, Rect { x, y, w, h })?;
    let (x, y, w, h) = (3, 1, 4, 3);
    let (second, before) = open_window(alloc, &screen, &mut desk, Rect { x, y, w, h })?;
    let (first, second) = paint_both(
        rt,
        alloc,
        &screen,
        (first, behind, orange),
        (second, before, blue),
    )?;
    let passes = vec![in alloc; first.0, second.0]?;
    match desk.close(alloc, screen, passes) {
        Ok(closed) => Ok((closed, first.1, second.1)),
        Err(_) => Err(Failure::NotClosed),
    }
}

// The letter of a colour.
fn letter(colour: u32) -> char {
    match colour {
        ORANGE => 'o',
        BLUE => 'b',
        _ => '.',
    }
}

// Prints the picture, a letter a pixel.
fn print_picture<R: Print>(rt: &R, shown: &[u32]) -> io::Result<()> {
    for row in shown.chunks(WIDTH) {
        for colour in row {
            print!(rt; "{}", letter(*colour))?;
        }
        println!(rt)?;
    }
    Ok(())
}

fn main(rt: HostRuntime) -> Result<(), Failure> {
    let (closed, first, second) = session(&rt, rt.alloc())?;
    println!(rt; "painted {first} and {second} pixels")?;
    print_picture(&rt, closed.shown())?;
    Ok(())
}
