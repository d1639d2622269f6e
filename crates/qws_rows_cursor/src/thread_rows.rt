//! Two painters and the server, each in a thread of its own, beside the plain picture of the merged history.
ghost use Rattle.std.specs.Prelude.{◌≡◌, ◌+◌, ◌<◌, ◌^◌, IfOk, MatchResult, length, false};
ghost use Rattle.std.specs.Thread.{IsSync};
ghost use Rattle.fb_words.specs.Views.{is_writing};
ghost use Rattle.fb_words.specs.declared.known.Mode.TheVariants.{Idle};
ghost use Rattle.qws_rows_painters.specs.Heads.{IsHead};

use crate::moving::{changes_at, cursor_at, picture, windows_at};
use crate::stages::changed;
use clip_refetch::Clip;
use fb_words::{Head, Pass, Screen};
use pixel_model::{Canvas, are_placed};
use qws_base::{BookEntry, Depth, NoGate, OutOfMemory, Rgb, RowBuf, Size, WindowView};
use qws_rows_painters::turns::{ServeStop, serve, session, shown};
use shared_painter::{PaintStop, try_paint};
use std::alloc::Global;
use std::process::Abort;
use std::sync::Wait;
use std::sync::atomic::{AtomicU64, Ordering};
use std::test::Fail;
use std::thread;
use std::thread::Threads;

// How many pictures each painter paints.
const PAINTS: u64 = 40_000;

// How many tables the server publishes.
const TURNS: u64 = 400;

// How often a thread looks whether the others have come.
const LOOKS: u32 = 1_000_000;

// Waits for the two other threads, so that all run side by side; it gives up after a while.
fn meet(arrived: &AtomicU64) {
    arrived.fetch_add(1, Ordering::SeqCst);
    for _ in 0..LOOKS {
        if arrived.load(Ordering::SeqCst) >= 3 {
            break;
        }
        thread::yield_now();
    }
}

// Paints the pictures on a slot in order, and tries again where the gate is closed.
fn paint_often<R: Wait>(
    rt: &R,
    alloc: Global,
    arrived: &AtomicU64,
    screen: &Screen,
    mut pass: Pass,
    slot: u32,
) -> Result<Pass, OutOfMemory>
    requires screen { pass.screen ≡ screen.now }
    requires idle { pass.client.mode ≡ Idle }
    requires slot { slot < 33 }
{
    let mut clip = Clip::new(alloc, slot)?;
    let mut row = RowBuf::new(alloc)?;
    meet(arrived);
    let mut tag = 0;
    for _ in rt.forever() {
        if tag >= PAINTS {
            break;
        }
        let picture = picture(slot, tag);
        let answer = try_paint(
            screen, &mut clip, &mut pass, &mut row, &picture, tag, &NoGate,
        );
        match answer {
            Ok(_) | Err(PaintStop::Gone { .. }) => tag += 1,
            Err(PaintStop::Busy { .. }) => thread::yield_now(),
            Err(PaintStop::BookFull { .. }) => break,
        }
    }
    Ok(pass)
}

// Publishes words, and tries again while painters are in.
fn serve_once<R: Wait>(
    rt: &R,
    alloc: Global,
    screen: &Screen,
    head: &mut Head,
    before: &[u64],
    words: &[u64],
    number: u64,
) -> Result<(), ServeStop>
    requires head { IsHead screen.now number before.now head.old }
    requires not_writing { is_writing head.old.server.mode ≡ false }
    requires before { length before.now ≡ 10632 }
    requires long { length words.now ≡ 10632 }
    ensures head { MatchResult result (λ _. IsHead screen.now (number + 1) words.now head.new) (λ _. IsHead screen.now number before.now head.new) }
    ensures not_writing { is_writing head.new.server.mode ≡ false }
{
    let mut answer = serve(alloc, screen, head, before, words, number);
    for _ in rt.forever() {
        match answer {
            Err(ServeStop::Busy { .. }) => thread::yield_now(),
            _ => break,
        }
        answer = serve(alloc, screen, head, before, words, number);
    }
    answer
}

// Publishes all tables.
fn serve_often<R: Wait>(
    rt: &R,
    alloc: Global,
    arrived: &AtomicU64,
    screen: &Screen,
    opening: &[u64],
    mut head: Head,
) -> Result<Head, ServeStop>
    requires head { IsHead screen.now 1 opening.now head }
    requires not_writing { is_writing head.server.mode ≡ false }
    requires long { length opening.now ≡ 10632 }
    ensures screen { IfOk result (λ head. head.screen ≡ screen.now) }
    ensures not_writing { IfOk result (λ head. is_writing head.server.mode ≡ false) }
{
    meet(arrived);
    let mut words = opening.to_vec(alloc)?;
    for number in 1..TURNS + 1 {
        let next = changed(alloc, &words, number, &changes_at(number))?;
        serve_once(rt, alloc, screen, &mut head, &words, &next, number)?;
        words = next;
    }
    Ok(head)
}

// Client 1 in a new thread, and the server in this one.
fn serve_beside<R: Threads + Wait + Sync>(
    rt: &R,
    alloc: Global,
    arrived: &AtomicU64,
    screen: &Screen,
    pass: Pass,
    opening: &[u64],
    head: Head,
) -> (Result<Pass, OutOfMemory>, Result<Head, ServeStop>)
    requires pass { (pass.screen ≡ screen.now) × (pass.client.mode ≡ Idle) }
    requires head { IsHead screen.now 1 opening.now head }
    requires not_writing { is_writing head.server.mode ≡ false }
    requires long { length opening.now ≡ 10632 }
    ensures screen { IfOk result.1 (λ head. head.screen ≡ screen.now) }
    ensures not_writing { IfOk result.1 (λ head. is_writing head.server.mode ≡ false) }
{
    thread::join(
        rt,
        || paint_often(rt, alloc, arrived, screen, pass, 1),
        || serve_often(rt, alloc, arrived, screen, opening, head),
    )
}

// Both painters in new threads, and the server in this one.
fn run_all<R: Threads + Wait + Sync>(
    rt: &R,
    alloc: Global,
    arrived: &AtomicU64,
    screen: &Screen,
    first: Pass,
    second: Pass,
    opening: &[u64],
    head: Head,
) -> (
    Result<Pass, OutOfMemory>,
    (Result<Pass, OutOfMemory>, Result<Head, ServeStop>),
)
    requires first { (first.screen ≡ screen.now) × (first.client.mode ≡ Idle) }
    requires second { (second.screen ≡ screen.now) × (second.client.mode ≡ Idle) }
    requires head { IsHead screen.now 1 opening.now head }
    requires not_writing { is_writing head.server.mode ≡ false }
    requires long { length opening.now ≡ 10632 }
    ensures screen { IfOk result.1.1 (λ head. head.screen ≡ screen.now) }
    ensures not_writing { IfOk result.1.1 (λ head. is_writing head.server.mode ≡ false) }
{
    thread::join(
        rt,
        || paint_often(rt, alloc, arrived, screen, first, 0),
        || -> (Result<Pass, OutOfMemory>, Result<Head, ServeStop>)
            requires { IsSync R.row × ((second.screen ≡ screen.now) × (second.client.mode ≡ Idle)) × IsHead screen.now 1 opening.now head × (is_writing head.server.mode ≡ false) × (length opening.now ≡ 10632) }
            ensures { IfOk result.1 (λ head. head.screen ≡ screen.entry.now) × IfOk result.1 (λ head. is_writing head.server.mode ≡ false) }
        { serve_beside(rt, alloc, arrived, screen, second, opening, head) },
    )
}

// Makes the paints of a book with a stamp, from a place on, in the plain picture. The place after them; none where a reply
// differs from the book's.
fn replay_stamp(
    canvas: &mut Canvas,
    windows: &[WindowView],
    client: u32,
    entries: &[BookEntry],
    from: usize,
    stamp: u64,
) -> Option<usize> {
    if !are_placed(windows) {
        return None;
    }
    for place in from..entries.len() {
        let entry = entries[place];
        if entry.stamp != stamp {
            return Some(place);
        }
        let picture = picture(entry.slot, entry.tag);
        let reply = canvas.apply_paint(windows, client, entry.slot, &picture);
        if reply != entry.reply {
            return None;
        }
    }
    Some(entries.len())
}

// Makes the merged history of two books in the plain picture: for each number first the table, then client 0's paints with that
// stamp, then client 1's. Whether each reply is the book's, and no entry is left.
fn replay(
    alloc: Global,
    canvas: &mut Canvas,
    first: &[BookEntry],
    second: &[BookEntry],
) -> Result<bool, OutOfMemory> {
    let (mut place, mut other) = (0, 0);
    for number in 0..TURNS + 1 {
        let windows = windows_at(alloc, number)?;
        match replay_stamp(canvas, &windows, 0, first, place, number) {
            Some(next) => place = next,
            None => return Ok(false),
        }
        match replay_stamp(canvas, &windows, 1, second, other, number) {
            Some(next) => other = next,
            None => return Ok(false),
        }
    }
    Ok(place == first.len() && other == second.len())
}

// Runs the three threads at a depth, and compares what is shown after them with the plain picture.
fn is_plain<R: Threads + Wait + Sync + Abort>(
    rt: &R,
    alloc: Global,
    depth: Depth,
) -> Result<(), Fail> {
    let size = Size::new(8, 4).expect(rt, "the sides are in range");
    let backdrop = Rgb::of_channels(16, 32, 48);
    let (screen, head, words, first, second) = session(alloc, size, depth, backdrop, PAINTS)?;
    let arrived = AtomicU64::new(0);
    let (first, (second, head)) = run_all(
        rt, alloc, &arrived, &screen, first, second, &words, head,
    );
    let (first, second) = (first?, second?);
    let head = head.expect(rt, "each table is published");
    let pixels = shown(alloc, &screen, head).expect(rt, "no painter is in");
    let mut canvas = Canvas::new(alloc, size, depth, backdrop)?;
    let same = replay(alloc, &mut canvas, first.entries(), second.entries())?;
    assert!(rt; same, "a reply differs");
    assert!(rt; first.entries().len() == 40_000);
    assert!(rt; second.entries().len() == 40_000);
    let cursor = cursor_at(alloc, TURNS).expect(rt, "six cells");
    let expected = canvas.show(alloc, &cursor)?;
    assert!(rt; pixels.as_slice() == expected.as_slice());
    Ok(())
}

#[test]
fn three_threads(rt: HostRuntime) -> Result<(), Fail> {
    is_plain(&rt, rt.alloc(), Depth::Full)
}

#[test]
fn three_threads_at_sixteen_bits(rt: HostRuntime) -> Result<(), Fail> {
    is_plain(&rt, rt.alloc(), Depth::Narrow)
}
