//! The answers of a desk: too many clients, a full journal, a bad frame, a missing pass, another client's window.
ghost use Rattle.std.specs.Prelude.{◌≡◌};
ghost use Rattle.fb_words.specs.Views.{PassView, ScreenView};
ghost use Rattle.fb_words.specs.declared.known.Mode.TheVariants.{Idle};
ghost use Rattle.server_desk.specs.DeskViews.{connected};

use crate::stages::Stop;
use fb_words::{Pass, Screen};
use qws_base::{Command, Depth, Refusal, Reply, Rgb, Size};
use qws_frames::FrameStop;
use server_desk::{Answer, CallStop, CloseStop, ConnectStop, Desk, FrameCallStop};
use std::alloc::Global;
use std::process::Abort;
use std::test::Fail;

// A new screen of one pixel with its desk.
fn opened(rt: &impl Abort, alloc: Global) -> (Screen, Desk)
    ensures screen { result.1.screen ≡ result.0 }
    ensures none { connected result.1 ≡ 0 }
{
    let size = Size::new(1, 1).expect(rt, "one pixel");
    let made = Desk::new(alloc, size, Depth::Full, Rgb::of_channels(0, 0, 0));
    made.expect(rt, "there is memory")
}

// Connects so many clients, which make no call.
fn connect_silent(alloc: Global, screen: &Screen, desk: &mut Desk, clients: u32) -> Result<(), Stop>
    requires { desk.old.screen ≡ screen.now }
    ensures { desk.new.screen ≡ screen.now }
{
    for _client in 0..clients {
        let _pass = desk.connect(alloc, screen, 0, 0)?;
    }
    Ok(())
}

#[test]
fn seventeen_clients(rt: HostRuntime) -> Result<(), Fail> {
    let (screen, mut desk) = opened(&rt, rt.alloc());
    let connects = connect_silent(rt.alloc(), &screen, &mut desk, 16);
    assert!(rt; connects == Ok(()));
    let Err(stop) = desk.connect(rt.alloc(), &screen, 0, 0) else {
        panic!(rt; "a client too many")
    };
    assert!(rt; stop == ConnectStop::TooManyClients { held: 16 });
    Ok(())
}

#[test]
fn journal_is_full(rt: HostRuntime) -> Result<(), Fail> {
    let (screen, mut desk) = opened(&rt, rt.alloc());
    let pass = desk.connect(rt.alloc(), &screen, 0, 0)?;
    let (_pass, answer) = desk.try_call(rt.alloc(), &screen, pass, &Command::Take);
    let held = 0;
    assert!(rt; answer == Err(CallStop::JournalFull { held }));
    Ok(())
}

#[test]
fn frame_without_bytes(rt: HostRuntime) -> Result<(), Fail> {
    let (screen, mut desk) = opened(&rt, rt.alloc());
    let pass = desk.connect(rt.alloc(), &screen, 1, 0)?;
    let (pass, answer) = desk.try_frame(rt.alloc(), &screen, pass, &[]);
    let cause = FrameStop::Short { have: 0, need: 8 };
    assert!(rt; answer == Err(FrameCallStop::Frame { cause }));
    let bytes = [1, 0, 4, 0, 0, 0, 0, 0, 1, 0, 0, 0];
    let (_pass, answer) = desk.try_frame(rt.alloc(), &screen, pass, &bytes);
    let reply = Reply::Created { slot: 0 };
    assert!(rt; answer == Ok(Answer { number: 1, reply }));
    Ok(())
}

#[test]
fn another_clients_window(rt: HostRuntime) -> Result<(), Fail> {
    let (screen, mut desk) = opened(&rt, rt.alloc());
    let first = desk.connect(rt.alloc(), &screen, 1, 0)?;
    let second = desk.connect(rt.alloc(), &screen, 1, 0)?;
    let create = Command::Create { layer: 0 };
    let (_first, answer) = desk.try_call(rt.alloc(), &screen, first, &create);
    let reply = Reply::Created { slot: 0 };
    assert!(rt; answer == Ok(Answer { number: 1, reply }));
    let raise = Command::Raise { slot: 0 };
    let (_second, answer) = desk.try_call(rt.alloc(), &screen, second, &raise);
    let cause = Refusal::NotYours { slot: 0, owner: 0 };
    let reply = Reply::Refused { cause };
    assert!(rt; answer == Ok(Answer { number: 2, reply }));
    Ok(())
}

// Closes with the passes that are there, and then with one more.
fn close_twice(
    alloc: Global,
    screen: Screen,
    desk: Desk,
    first: Pass,
    second: Pass,
) -> Result<(CloseStop, u64), Stop>
    requires desk { desk.screen ≡ screen }
    requires first { (first.screen ≡ screen) × (first.client.mode ≡ Idle) }
    requires second { (second.screen ≡ screen) × (second.client.mode ≡ Idle) }
{
    let mut passes = Vec::new(alloc);
    passes.push(first)?;
    let Err((desk, screen, mut passes, stop)) = desk.close(alloc, screen, passes) else {
        return Err(Stop::Clients);
    };
    passes.push(second)?;
    match desk.close(alloc, screen, passes) {
        Ok(closed) => Ok((stop, closed.books().len() as u64)),
        Err(_) => Err(Stop::Clients),
    }
}

#[test]
fn missing_pass(rt: HostRuntime) -> Result<(), Fail> {
    let (screen, mut desk) = opened(&rt, rt.alloc());
    let first = desk.connect(rt.alloc(), &screen, 0, 0)?;
    let second = desk.connect(rt.alloc(), &screen, 0, 0)?;
    let closes = close_twice(rt.alloc(), screen, desk, first, second);
    let (held, wanted) = (1, 2);
    assert!(rt; closes == Ok((CloseStop::Missing { held, wanted }, 2)));
    Ok(())
}
