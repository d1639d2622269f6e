//! A client whose command is refused keeps its pass, whatever the cause.
use crate::sessions::{Session, call, connect, copy, open, rect, request, shape};
use crate::stops::Stop;
use gfx_fills::Fill;
use qws_base::{Bytes, Command, Depth, Rect, Refusal, Reply};
use server_desk::{Answer, CallStop};
use std::alloc::Global;

// So many bytes, all the same.
fn name(alloc: Global, byte: u8, count: usize) -> Result<Bytes, Stop> {
    Ok(Bytes::of(vec![in alloc; byte; count]?))
}

fn join(alloc: Global, byte: u8, count: usize) -> Result<Command, Stop> {
    let channel = name(alloc, byte, count)?;
    Ok(Command::Join { channel })
}

fn leave(alloc: Global, byte: u8) -> Result<Command, Stop> {
    let channel = name(alloc, byte, 1)?;
    Ok(Command::Leave { channel })
}

// A message of the name `m` with so many bytes, on a channel.
fn send(alloc: Global, byte: u8, bytes: usize) -> Result<Command, Stop> {
    let channel = name(alloc, byte, 1)?;
    let message = name(alloc, b'm', 1)?;
    let payload = name(alloc, 0, bytes)?;
    Ok(Command::Send {
        channel,
        message,
        payload,
    })
}

// A request for thirty rectangles whose pixels need 254, and for one more that needs three.
fn comb(alloc: Global) -> Result<Command, Stop> {
    let mut teeth = Vec::new(alloc);
    for x in [0, 2, 4, 6, 8, 10, 12, 14, 16, 18, 20, 22, 24, 26, 28, 30] {
        teeth.push(rect(x, 0, 1, 29))?;
    }
    for y in [1, 3, 5, 7, 9, 11, 13, 15, 17, 19, 21, 23, 25, 27] {
        teeth.push(rect(0, y, 31, 1))?;
    }
    teeth.push(rect(40, 0, 1, 3))?;
    request(alloc, 0, 0, 0, &teeth)
}

// A command, and why it is refused on windows, by the number of the cause.
fn window_case(alloc: Global, cause: u32) -> Result<(Command, Refusal), Stop> {
    match cause {
        1 => Ok((Command::Raise { slot: 32 }, Refusal::NoWindow { slot: 32 })),
        2 => {
            let (slot, owner) = (1, 1);
            Ok((Command::Raise { slot }, Refusal::NotYours { slot, owner }))
        }
        3 => Ok((Command::Create { layer: 1 }, Refusal::NoSlot)),
        4 => Ok((Command::Create { layer: 2 }, Refusal::BadLayer { layer: 2 })),
        5 => {
            let empty = request(alloc, 0, 0, 0, &[rect(0, 0, 0, 1)])?;
            Ok((empty, Refusal::BadRegion { index: 0 }))
        }
        _ => {
            let (slot, rects) = (0, 257);
            Ok((comb(alloc)?, Refusal::TooComplex { slot, rects }))
        }
    }
}

// The same of channels and mailboxes.
fn mail_case(alloc: Global, cause: u32) -> Result<(Command, Refusal), Stop> {
    match cause {
        9 => Ok((join(alloc, b'!', 1)?, Refusal::Joined)),
        10 => Ok((join(alloc, b'!', 2)?, Refusal::TooManyChannels)),
        11 => Ok((join(alloc, b'!', 0)?, Refusal::BadName)),
        12 => Ok((leave(alloc, b'~')?, Refusal::NotJoined)),
        13 => Ok((send(alloc, b'~', 0)?, Refusal::NoChannel)),
        14 => {
            let client = 0;
            Ok((send(alloc, b'!', 0)?, Refusal::MailboxFull { client }))
        }
        15 => {
            let len = 4097;
            Ok((send(alloc, b'!', 4097)?, Refusal::TooLarge { len }))
        }
        _ => Ok((Command::Take, Refusal::Empty)),
    }
}

// The same of all causes, 1 to 16.
fn case(alloc: Global, cause: u32) -> Result<(Command, Refusal), Stop> {
    match cause {
        7 => {
            let (x, y) = (64, 0);
            Ok((Command::CursorMove { x, y }, Refusal::OffScreen { x, y }))
        }
        8 => {
            let (w, h) = (33, 1);
            Ok((shape(alloc, w, h, &[0; 33])?, Refusal::BadShape { w, h }))
        }
        _ if cause < 7 => window_case(alloc, cause),
        _ => mail_case(alloc, cause),
    }
}

// Whether a command is refused so, and a paint of the client's pixel is made then.
fn refuses(
    alloc: Global,
    session: &mut Session,
    command: &Command,
    cause: Refusal,
) -> Result<bool, Stop> {
    let reply = session.call(alloc, command)?;
    let picture = Fill::new(rect(0, 0, 1, 1), copy(0xff_ffff)?);
    let pixels = session.paint(alloc, 0, &picture)?;
    Ok(reply == Reply::Refused { cause } && pixels == 1)
}

// The first of some causes for which no command is refused.
fn first_wrong(
    alloc: Global,
    session: &mut Session,
    from: u32,
    past: u32,
) -> Result<Option<u32>, Stop> {
    for cause in from..past {
        let (command, refusal) = case(alloc, cause)?;
        if !refuses(alloc, session, &command, refusal)? {
            return Ok(Some(cause));
        }
    }
    Ok(None)
}

// A command that is answered so.
fn make(
    alloc: Global,
    session: &mut Session,
    command: &Command,
    expected: &Reply,
) -> Result<(), Stop> {
    let reply = session.call(alloc, command)?;
    if reply == *expected {
        Ok(())
    } else {
        Err(Stop::Other { reply })
    }
}

// Client 0 has a pixel in slot 0, and client 1 a window in slot 1.
fn opened(alloc: Global) -> Result<Session, Stop> {
    let mut session = Session::new(alloc, 64, 64, Depth::Full, 0)?;
    let create = Command::Create { layer: 0 };
    let pixel = request(alloc, 0, 0, 0, &[rect(0, 0, 1, 1)])?;
    make(alloc, &mut session, &create, &Reply::Created { slot: 0 })?;
    make(alloc, &mut session, &pixel, &Reply::Done)?;
    session.call(alloc, &Command::Take)?;
    session.connect(alloc)?;
    make(alloc, &mut session, &create, &Reply::Created { slot: 1 })?;
    session.swap();
    Ok(session)
}

// Client 0 takes the thirty slots and the 64 channels that are left, and fills its mailbox.
fn crowd(alloc: Global, session: &mut Session) -> Result<(), Stop> {
    let create = Command::Create { layer: 0 };
    for slot in 2..32 {
        make(alloc, session, &create, &Reply::Created { slot })?;
    }
    for byte in b'!'..b'a' {
        make(alloc, session, &join(alloc, byte, 1)?, &Reply::Done)?;
    }
    let message = send(alloc, b'!', 0)?;
    for _ in 0..256 {
        make(alloc, session, &message, &Reply::Sent { to: 1 })?;
    }
    Ok(())
}

#[test]
fn refused_for_each_cause(rt: HostRuntime) -> Result<(), Stop> {
    let alloc = rt.alloc();
    let mut session = opened(alloc)?;
    assert!(rt; first_wrong(alloc, &mut session, 16, 17)? == None);
    crowd(alloc, &mut session)?;
    assert!(rt; first_wrong(alloc, &mut session, 1, 16)? == None);
    let closed = session.close(alloc)?;
    assert!(rt; closed.journal().len() == 370);
    Ok(())
}

// The second client has a step left where the first has none.
#[test]
fn no_step_left(rt: HostRuntime) -> Result<(), Stop> {
    let alloc = rt.alloc();
    let (screen, mut desk) = open(alloc, 2, 1, Depth::Full, 0)?;
    let first = connect(alloc, &screen, &mut desk, 1, 0)?;
    let second = connect(alloc, &screen, &mut desk, 1, 0)?;
    let create = Command::Create { layer: 0 };
    let (first, answer) = call(alloc, &screen, &mut desk, first, &create);
    let reply = Reply::Created { slot: 0 };
    assert!(rt; answer == Ok(Answer { number: 1, reply }));
    let (first, answer) = call(alloc, &screen, &mut desk, first, &create);
    assert!(rt; answer == Err(CallStop::JournalFull { held: 1 }));
    let (_, answer) = call(alloc, &screen, &mut desk, second, &create);
    let reply = Reply::Created { slot: 1 };
    assert!(rt; answer == Ok(Answer { number: 2, reply }));
    let (_, answer) = call(alloc, &screen, &mut desk, first, &create);
    assert!(rt; answer == Err(CallStop::JournalFull { held: 1 }));
    Ok(())
}
