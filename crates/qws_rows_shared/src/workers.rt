//! Three clients on three threads, which call one desk and paint on one screen.
ghost use Rattle.std.specs.Prelude.{◌≡◌, ◌<◌, IfOk, OnOk};
ghost use Rattle.std.specs.Thread.{IsSync};
ghost use Rattle.clip_refetch.specs.Clips.{IsKnown};
ghost use Rattle.qws_rows_shared.specs.Sessions.{IsAtRest};
ghost use Rattle.qws_rows_shared.specs.Callers.{IsCaller, IsBackFrom};

use crate::sessions::{colour, rect, request};
use crate::stops::Stop;
use clip_refetch::Clip;
use fb_words::{Pass, Screen};
use gfx_fills::Fill;
use qws_base::{Command, Ink, NoGate, Point, Reply, RowBuf};
use server_desk::{Answer, Desk};
use shared_desk::{Caller, SharedDesk};
use shared_painter::{PaintStop, try_paint};
use std::alloc::Global;
use std::sync::Wait;
use std::thread;
use std::thread::Threads;

/// How many commands, and how many paints, each client makes once it has its window.
pub const ROUNDS: u64 = 50;

/// The picture of a client's paint.
pub fn picture_of(client: u32, tag: u64) -> Result<Fill, Stop> {
    let shade = tag % 4096 * 2671 + u64::from(client % 16) * 70_000;
    let c = colour(shade as u32)?;
    let ink = match tag % 6 {
        0 => Ink::Copy { c },
        1 => Ink::Xor { c },
        2 => Ink::Blend { c, a: 100 },
        3 => Ink::And { c },
        4 => Ink::Or { c },
        _ => Ink::Skip,
    };
    let rect = match tag % 5 {
        0 => rect(-2, -2, 30, 30),
        1 => rect(0, 0, 5, 4),
        2 => rect(3, 2, 6, 7),
        3 => rect(1, 1, 9, 2),
        _ => rect(6, 0, 2, 9),
    };
    Ok(Fill::new(rect, ink))
}

// A client's command of a round: raises, moves and lowers of its window, and moves of the cursor.
fn command_of(client: u32, slot: u32, round: u64) -> Command {
    let place = round % 1000 + u64::from(client % 16) * 5;
    match round % 5 {
        0 => Command::Raise { slot },
        1 => Command::CursorMove {
            x: (place % 24) as i32,
            y: (place % 16) as i32,
        },
        2 => Command::Lower { slot },
        3 => Command::CursorMove {
            x: (place % 11) as i32,
            y: (place % 7) as i32,
        },
        _ => Command::Move {
            slot,
            origin: Point {
                x: (place % 17) as i32 - 3,
                y: (place % 11) as i32 - 2,
            },
        },
    }
}

/// A command through the shared desk.
pub fn call<R: Wait>(
    rt: &R,
    alloc: Global,
    screen: &Screen,
    desk: &SharedDesk,
    caller: Caller,
    command: &Command,
) -> (Caller, Result<Answer, Stop>)
    requires screen { desk.now.desk.screen ≡ screen.now }
    requires caller { IsCaller desk.now screen.now caller }
    ensures back { IsBackFrom desk.now screen.now caller result.0 }
{
    let (caller, answer) = desk.call(rt, alloc, screen, caller, command);
    match answer {
        Ok(answer) => (caller, Ok(answer)),
        Err(_) => (caller, Err(Stop::NoTurn)),
    }
}

// Paints until the server has no turn.
fn draw<R: Wait>(
    rt: &R,
    screen: &Screen,
    clip: &mut Clip,
    pass: &mut Pass,
    row: &mut RowBuf,
    picture: &Fill,
    tag: u64,
) -> Result<(), Stop>
    requires pass { IsAtRest screen.now pass.old }
    requires known { IsKnown pass.old.client clip.old }
    ensures pass { IsAtRest screen.now pass.new }
    ensures known { IsKnown pass.new.client clip.new }
{
    for _ in rt.forever() {
        match try_paint(screen, clip, pass, row, picture, tag, &NoGate) {
            Ok(_) => return Ok(()),
            Err(PaintStop::Busy { found: _ }) => thread::yield_now(),
            Err(stop) => return Err(Stop::Paint { stop }),
        }
    }
    unreachable!()
}

// A client with its window, the clip of it, and room for a row of inks.
#[derive(Drop)]
struct Painter {
    slot: u32,
    clip: Clip,
    row: RowBuf,
}

// The client's window: three rectangles.
fn open_window<R: Wait>(
    rt: &R,
    alloc: Global,
    screen: &Screen,
    desk: &SharedDesk,
    caller: Caller,
) -> (Caller, Result<u32, Stop>)
    requires screen { desk.now.desk.screen ≡ screen.now }
    requires caller { IsCaller desk.now screen.now caller }
    ensures back { IsBackFrom desk.now screen.now caller result.0 }
    ensures slot { IfOk result.1 (λ slot. slot < 33) }
{
    let create = Command::Create { layer: 0 };
    let (caller, answer) = call(rt, alloc, screen, desk, caller, &create);
    let slot = match answer {
        Ok(
            Answer {
                number: _,
                reply: Reply::Created { slot },
            },
        ) if slot < 33 => slot,
        _ => return (caller, Err(Stop::NoSlot)),
    };
    let rects = [rect(0, 0, 8, 5), rect(4, 3, 9, 6), rect(14, 1, 2, 9)];
    let Ok(window) = request(alloc, slot, 0, 0, &rects) else {
        return (caller, Err(Stop::OutOfMemory));
    };
    let (caller, answer) = call(rt, alloc, screen, desk, caller, &window);
    match answer {
        Ok(_) => (caller, Ok(slot)),
        Err(stop) => (caller, Err(stop)),
    }
}

// A command of the client, and a paint.
fn make_round<R: Wait>(
    rt: &R,
    alloc: Global,
    screen: &Screen,
    desk: &SharedDesk,
    caller: Caller,
    painter: &mut Painter,
    round: u64,
) -> (Caller, Result<(), Stop>)
    requires screen { desk.now.desk.screen ≡ screen.now }
    requires caller { IsCaller desk.now screen.now caller }
    requires known { IsKnown caller.pass.client painter.old.clip }
    ensures back { IsBackFrom desk.now screen.now caller result.0 }
    ensures known { OnOk result.1 (IsKnown result.0.pass.client painter.new.clip) }
{
    let client = caller.pass.client();
    let Ok(picture) = picture_of(client, round) else {
        return (caller, Err(Stop::NoColour));
    };
    let command = command_of(client, painter.slot, round);
    let (mut caller, answer) = desk.call(rt, alloc, screen, caller, &command);
    if answer.is_err() {
        return (caller, Err(Stop::NoTurn));
    }
    let drawn = draw(
        rt,
        screen,
        &mut painter.clip,
        &mut caller.pass,
        &mut painter.row,
        &picture,
        round,
    );
    (caller, drawn)
}

// All rounds of a client.
fn make_rounds<R: Wait>(
    rt: &R,
    alloc: Global,
    screen: &Screen,
    desk: &SharedDesk,
    caller: Caller,
    mut painter: Painter,
) -> (Caller, Result<(), Stop>)
    requires screen { desk.now.desk.screen ≡ screen.now }
    requires caller { IsCaller desk.now screen.now caller }
    requires known { IsKnown caller.pass.client painter.clip }
    ensures back { IsBackFrom desk.now screen.now caller result.0 }
{
    let mut caller = caller;
    for round in 0..ROUNDS {
        let (back, made) = make_round(rt, alloc, screen, desk, caller, &mut painter, round);
        caller = back;
        if made.is_err() {
            return (caller, made);
        }
    }
    (caller, Ok(()))
}

/// A client opens its window, and makes its rounds.
pub fn work<R: Wait>(
    rt: &R,
    alloc: Global,
    screen: &Screen,
    desk: &SharedDesk,
    caller: Caller,
) -> (Caller, Result<(), Stop>)
    requires screen { desk.now.desk.screen ≡ screen.now }
    requires caller { IsCaller desk.now screen.now caller }
    ensures back { IsBackFrom desk.now screen.now caller result.0 }
{
    let (caller, opened) = open_window(rt, alloc, screen, desk, caller);
    let slot = match opened {
        Ok(slot) => slot,
        Err(stop) => return (caller, Err(stop)),
    };
    let Ok(clip) = Clip::new(alloc, slot) else {
        return (caller, Err(Stop::OutOfMemory));
    };
    let Ok(row) = RowBuf::new(alloc) else {
        return (caller, Err(Stop::OutOfMemory));
    };
    make_rounds(rt, alloc, screen, desk, caller, Painter { slot, clip, row })
}

// Two clients, one in a new thread.
fn work_beside<R: Threads + Wait + Sync>(
    rt: &R,
    alloc: Global,
    screen: &Screen,
    desk: &SharedDesk,
    second: Caller,
    third: Caller,
) -> ((Caller, Result<(), Stop>), (Caller, Result<(), Stop>))
    requires screen { desk.now.desk.screen ≡ screen.now }
    requires second { IsCaller desk.now screen.now second }
    requires third { IsCaller desk.now screen.now third }
    ensures second { IsBackFrom desk.now screen.now second result.0.0 }
    ensures third { IsBackFrom desk.now screen.now third result.1.0 }
{
    thread::join(
        rt,
        || work(rt, alloc, screen, desk, second),
        || work(rt, alloc, screen, desk, third),
    )
}

/// Three clients, each in a thread.
pub fn work_all<R: Threads + Wait + Sync>(
    rt: &R,
    alloc: Global,
    screen: &Screen,
    desk: &SharedDesk,
    first: Caller,
    second: Caller,
    third: Caller,
) -> (
    (Caller, Result<(), Stop>),
    ((Caller, Result<(), Stop>), (Caller, Result<(), Stop>)),
)
    requires screen { desk.now.desk.screen ≡ screen.now }
    requires first { IsCaller desk.now screen.now first }
    requires second { IsCaller desk.now screen.now second }
    requires third { IsCaller desk.now screen.now third }
    ensures first { IsBackFrom desk.now screen.now first result.0.0 }
    ensures second { IsBackFrom desk.now screen.now second result.1.0.0 }
    ensures third { IsBackFrom desk.now screen.now third result.1.1.0 }
{
    thread::join(
        rt,
        || work(rt, alloc, screen, desk, first),
        || -> ((Caller, Result<(), Stop>), (Caller, Result<(), Stop>))
            requires { IsSync R.row × (desk.now.desk.screen ≡ screen.now) × IsCaller desk.now screen.now second × IsCaller desk.now screen.now third }
            ensures { IsBackFrom desk.entry.now screen.entry.now second result.0.0 × IsBackFrom desk.entry.now screen.entry.now third result.1.0 }
        { work_beside(rt, alloc, screen, desk, second, third) },
    )
}
