//! Two painters and the server, each in a thread of its own.
ghost use Rattle.std.specs.Prelude.{◌≡◌, ◌+◌, ◌<◌, ◌^◌, false};
ghost use Rattle.std.specs.Thread.{IsSync};
ghost use Rattle.fb_words.specs.Views.{is_writing};
ghost use Rattle.qws_rows_threads.specs.Tokens.{IsPainter, HasPainted, IsHead};

use crate::tokens::{end_refused, paint, read, serve, session, stamp};
use display_lock::try_server_turn;
use fb_words::{Head, Pass, Screen};
use qws_base::{Rgb, Size};
use std::sync::Wait;
use std::sync::atomic::{AtomicU64, Ordering};
use std::test::Fail;
use std::thread;
use std::thread::Threads;

// How often each painter enters and leaves.
const PAINTS: u64 = 200_000;

// How often the server announces itself, settles and ends its turn.
const TURNS: u64 = 50_000;

// How often a thread looks whether the others have come.
const LOOKS: u32 = 1_000_000;

// Waits for the two other threads, so that all run side by side; it gives up after a while.
fn meet(arrived: &AtomicU64) {
    arrived.fetch_add(1, Ordering::SeqCst);
    for _ in 0..LOOKS {
        if arrived.load(Ordering::SeqCst) >= 3 {
            break;
        }
        thread::yield_now();
    }
}

// Enters and leaves so many times, and tries again where the gate is closed.
fn paint_often<R: Wait>(
    rt: &R,
    arrived: &AtomicU64,
    screen: &Screen,
    mut pass: Pass,
    paints: u64,
) -> Pass
    requires painter { IsPainter screen.now paints pass }
    ensures { HasPainted paints pass result }
{
    meet(arrived);
    let mut done = 0;
    for _ in rt.forever() {
        if done >= paints {
            break;
        }
        match paint(screen, &mut pass) {
            Ok(()) => done += 1,
            Err(_) => thread::yield_now(),
        }
    }
    pass
}

// Makes so many turns, and tries again while painters are in.
fn serve_often<R: Wait>(
    rt: &R,
    arrived: &AtomicU64,
    screen: &Screen,
    mut head: Head,
    turns: u64,
) -> Head
    requires head { IsHead screen.now 1 head }
    requires not_writing { is_writing head.server.mode ≡ false }
    requires few { turns < 2 ^ 63 }
    ensures head { IsHead screen.now (turns + 1) result }
    ensures not_writing { is_writing result.server.mode ≡ false }
{
    meet(arrived);
    let mut number = 1;
    for _ in rt.forever() {
        if number > turns {
            break;
        }
        match serve(screen, &mut head, number) {
            Ok(()) => number += 1,
            Err(_) => thread::yield_now(),
        }
    }
    head
}

// A painter in a new thread, and the server in this one.
fn serve_beside<R: Threads + Wait + Sync>(
    rt: &R,
    arrived: &AtomicU64,
    screen: &Screen,
    pass: Pass,
    head: Head,
) -> (Pass, Head)
    requires painter { IsPainter screen.now 200000 pass }
    requires head { IsHead screen.now 1 head }
    requires not_writing { is_writing head.server.mode ≡ false }
    ensures painter { HasPainted 200000 pass result.0 }
    ensures head { IsHead screen.now 50001 result.1 }
    ensures not_writing { is_writing result.1.server.mode ≡ false }
{
    thread::join(
        rt,
        || paint_often(rt, arrived, screen, pass, PAINTS),
        || serve_often(rt, arrived, screen, head, TURNS),
    )
}

// Both painters in new threads, and the server in this one.
fn run_all<R: Threads + Wait + Sync>(
    rt: &R,
    arrived: &AtomicU64,
    screen: &Screen,
    first: Pass,
    second: Pass,
    head: Head,
) -> (Pass, (Pass, Head))
    requires first { IsPainter screen.now 200000 first }
    requires second { IsPainter screen.now 200000 second }
    requires head { IsHead screen.now 1 head }
    requires not_writing { is_writing head.server.mode ≡ false }
    ensures first { HasPainted 200000 first result.0 }
    ensures second { HasPainted 200000 second result.1.0 }
    ensures head { IsHead screen.now 50001 result.1.1 }
    ensures not_writing { is_writing result.1.1.server.mode ≡ false }
{
    thread::join(
        rt,
        || paint_often(rt, arrived, screen, first, PAINTS),
        || -> (Pass, Head)
            requires { IsSync R.row × IsPainter screen.now 200000 second × IsHead screen.now 1 head × (is_writing head.server.mode ≡ false) }
            ensures { HasPainted 200000 second result.0 × IsHead screen.entry.now 50001 result.1 × (is_writing result.1.server.mode ≡ false) }
        { serve_beside(rt, arrived, screen, second, head) },
    )
}

#[test]
fn three_threads(rt: HostRuntime) -> Result<(), Fail> {
    let size = Size::new(4, 2).expect(&rt, "the sides are in range");
    let backdrop = Rgb::of_channels(0x10, 0x20, 0x30);
    let (screen, head, first, second) = session(rt.alloc(), size, backdrop, PAINTS)?;
    let arrived = AtomicU64::new(0);
    let (first, (second, mut head)) = run_all(&rt, &arrived, &screen, first, second, head);
    for pass in [&first, &second] {
        assert!(rt; pass.entries().len() == 200_000);
        let mut stamp = 0;
        for entry in pass.entries() {
            assert!(rt; stamp <= entry.stamp && entry.stamp <= TURNS);
            stamp = entry.stamp;
        }
    }
    match try_server_turn(&mut head, &screen) {
        Ok(mut turn) => {
            let closed = read(&mut turn, 1);
            stamp(&mut turn, TURNS + 1);
            end_refused(turn, TURNS + 1);
            assert!(rt; closed == TURNS);
        }
        Err(busy) => panic!(rt; "busy: {}", busy.found),
    }
    Ok(())
}
