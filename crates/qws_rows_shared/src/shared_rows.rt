//! A desk that is shared, its parts, and the session that they close.
ghost use Rattle.std.specs.Prelude.{◌≡◌, IfOk};
ghost use Rattle.shared_desk.specs.Leases.{lease_of};
ghost use Rattle.qws_rows_shared.specs.Sessions.{IsAtRest};
ghost use Rattle.qws_rows_shared.specs.Callers.{IsCaller};

use crate::replays::{history_of, replay};
use crate::sessions::{call as call_alone, colour, connect, open, shape};
use crate::stops::Stop;
use crate::workers::{ROUNDS, call, work_all};
use fb_words::{Pass, Screen};
use qws_base::{Command, Depth, Reply};
use server_desk::{Answer, Closed, Desk};
use shared_desk::{Caller, SharedDesk};
use std::alloc::Global;
use std::sync::Wait;
use std::thread::Threads;

// The backdrop of the long session.
const BACKDROP: u32 = 0x18_2838;

// The desk shared among three passes, with the callers in their order.
fn share(
    alloc: Global,
    screen: &Screen,
    desk: Desk,
    first: Pass,
    second: Pass,
    third: Pass,
) -> Result<(SharedDesk, Caller, Caller, Caller), Stop>
    requires desk { desk.screen ≡ screen.now }
    requires first { IsAtRest screen.now first }
    requires second { IsAtRest screen.now second }
    requires third { IsAtRest screen.now third }
    ensures desk { IfOk result (λ made. made.0.desk.screen ≡ screen.now) }
    ensures three { IfOk result (λ made. made.0.callers ≡ 3) }
    ensures first { IfOk result (λ made. (made.1.lease ≡ lease_of made.0 0) × IsCaller made.0 screen.now made.1) }
    ensures second { IfOk result (λ made. (made.2.lease ≡ lease_of made.0 1) × IsCaller made.0 screen.now made.2) }
    ensures third { IfOk result (λ made. (made.3.lease ≡ lease_of made.0 2) × IsCaller made.0 screen.now made.3) }
{
    let passes = vec![in alloc; first, second, third]?;
    let Ok((shared, mut callers)) = SharedDesk::new(alloc, desk, passes) else {
        return Err(Stop::OutOfMemory);
    };
    let Some(third) = callers.pop() else {
        return Err(Stop::NoClient);
    };
    let Some(second) = callers.pop() else {
        return Err(Stop::NoClient);
    };
    let Some(first) = callers.pop() else {
        return Err(Stop::NoClient);
    };
    Ok((shared, first, second, third))
}

// All callers are back: the session is closed.
fn close(
    alloc: Global,
    screen: Screen,
    shared: SharedDesk,
    first: Caller,
    second: Caller,
    third: Caller,
) -> Result<Closed, Stop>
    requires desk { shared.desk.screen ≡ screen }
    requires three { shared.callers ≡ 3 }
    requires first { (first.lease ≡ lease_of shared 0) × IsCaller shared screen first }
    requires second { (second.lease ≡ lease_of shared 1) × IsCaller shared screen second }
    requires third { (third.lease ≡ lease_of shared 2) × IsCaller shared screen third }
{
    let callers = vec![in alloc; first, second, third]?;
    let (desk, passes) = shared.into_parts(alloc, callers)?;
    match desk.close(alloc, screen, passes) {
        Ok(closed) => Ok(closed),
        Err((_, _, _, stop)) => Err(Stop::Close { stop }),
    }
}

#[test]
fn a_shared_desk(rt: HostRuntime) -> Result<(), Stop> {
    let alloc = rt.alloc();
    let (screen, mut desk) = open(alloc, 2, 1, Depth::Full, 0)?;
    let first = connect(alloc, &screen, &mut desk, 1, 0)?;
    let second = connect(alloc, &screen, &mut desk, 0, 0)?;
    let third = connect(alloc, &screen, &mut desk, 0, 0)?;
    let (shared, first, second, third) = share(alloc, &screen, desk, first, second, third)?;
    let create = Command::Create { layer: 0 };
    let (first, answer) = call(&rt, alloc, &screen, &shared, first, &create);
    let reply = Reply::Created { slot: 0 };
    assert!(rt; answer? == Answer { number: 1, reply });
    let closed = close(alloc, screen, shared, first, second, third)?;
    assert!(rt; closed.journal().len() == 1);
    Ok(())
}

// The cursor of the long session, which it shows.
fn show_cursor(alloc: Global, screen: &Screen, desk: &mut Desk, pass: Pass) -> Result<Pass, Stop>
    requires desk { desk.old.screen ≡ screen.now }
    requires pass { IsAtRest screen.now pass }
    ensures desk { desk.new.screen ≡ screen.now }
    ensures pass { IfOk result (λ pass. IsAtRest screen.now pass) }
{
    let (a, b, c) = (0x80ff_0000, 0xff00_ff00, 0x2000_00ff);
    let cells = shape(alloc, 3, 2, &[a, b, c, b, c, a])?;
    let (pass, answer) = call_alone(alloc, screen, desk, pass, &cells);
    answer?;
    let show = Command::CursorShow { shown: true };
    let (pass, answer) = call_alone(alloc, screen, desk, pass, &show);
    answer?;
    Ok(pass)
}

// Three clients make their calls side by side, and the session is closed.
fn long_session<R: Threads + Wait + Sync>(
    rt: &R,
    alloc: Global,
    depth: Depth,
) -> Result<Closed, Stop> {
    let (screen, mut desk) = open(alloc, 24, 16, depth, BACKDROP)?;
    let first = connect(alloc, &screen, &mut desk, ROUNDS + 4, ROUNDS)?;
    let second = connect(alloc, &screen, &mut desk, ROUNDS + 2, ROUNDS)?;
    let third = connect(alloc, &screen, &mut desk, ROUNDS + 2, ROUNDS)?;
    let first = show_cursor(alloc, &screen, &mut desk, first)?;
    let (shared, first, second, third) = share(alloc, &screen, desk, first, second, third)?;
    let (first, (second, third)) = work_all(rt, alloc, &screen, &shared, first, second, third);
    let (first, worked) = first;
    worked?;
    let (second, worked) = second;
    worked?;
    let (third, worked) = third;
    worked?;
    close(alloc, screen, shared, first, second, third)
}

// Each client makes 50 commands and 50 paints once it has its window, while the others make theirs.
#[test]
fn three_clients_side_by_side(rt: HostRuntime) -> Result<(), Stop> {
    let alloc = rt.alloc();
    for depth in [Depth::Full, Depth::Narrow] {
        let closed = long_session(&rt, alloc, depth)?;
        assert!(rt; closed.journal().len() as u64 == 3 * ROUNDS + 8);
        for book in closed.books() {
            assert!(rt; book.entries().len() as u64 == ROUNDS);
        }
        let history = history_of(alloc, &closed)?;
        assert!(rt; history.as_slice().len() as u64 == 6 * ROUNDS + 8);
        let backdrop = colour(BACKDROP)?;
        let shown = replay(alloc, closed.size(), depth, backdrop, &history)?;
        assert!(rt; closed.shown() == shown.as_slice());
    }
    Ok(())
}
