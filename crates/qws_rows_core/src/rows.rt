//! Rows as text, ended by `;`, each of words:
//!
//!     CLIENT COMMAND = REPLY             a client's command, and what it is answered
//!     N times CLIENT COMMAND = REPLY     the same so often
//!     windows S ..                       the slots of the windows from front to back
//!     revisions R R R                    the revisions of the slots 0, 1 and 2
//!     region S X Y W H ..                the pixels of a slot
//!     needs S N                          how many rectangles they need
//!
//! Commands and replies are spelled as scripts and files have them, but that slots are numbers, a shape has the number of
//! its cells, a payload its length, and `-` is the name without a byte. `comb S X Y W H ..` is a Region at (0, 0) of 30
//! rectangles whose pixels need 254, and of those behind them.
use crate::server::{Stop, call, opened};
use qws_base::{Bytes, Command, Event, Point, Rect, Rects, Refusal, Reply, Words};
use std::alloc::Global;
use window_core::Core;

fn number(words: &[&str], k: usize) -> Option<u32> {
    words.get(k)?.parse::<u32>().ok()
}

fn coordinate(words: &[&str], k: usize) -> Option<i32> {
    words.get(k)?.parse::<i32>().ok()
}

fn point(words: &[&str]) -> Option<Point> {
    Some(Point {
        x: coordinate(words, 0)?,
        y: coordinate(words, 1)?,
    })
}

fn rect(words: &[&str]) -> Option<Rect> {
    Some(Rect {
        x: coordinate(words, 0)?,
        y: coordinate(words, 1)?,
        w: number(words, 2)?,
        h: number(words, 3)?,
    })
}

fn words_of(alloc: Global, text: &str) -> Result<Vec<&str>, Stop> {
    let mut all = Vec::new(alloc);
    for word in text.split_ascii_whitespace() {
        all.push(word)?;
    }
    Ok(all)
}

// The words behind the first so many.
fn behind<'a, 'b>(words: &'a [&'b str], count: usize) -> &'a [&'b str] {
    let start = count.min(words.len());
    &words[start..]
}

// The rectangles of the words are put behind the others.
fn add_rects(all: &mut Vec<Rect>, words: &[&str]) -> Result<(), Stop> {
    for group in words.chunks(4) {
        all.push(rect(group).ok_or(Stop::NoRow { row: 0 })?)?;
    }
    Ok(())
}

fn comb(alloc: Global) -> Result<Vec<Rect>, Stop> {
    let mut teeth = Vec::new(alloc);
    for x in [0, 2, 4, 6, 8, 10, 12, 14, 16, 18, 20, 22, 24, 26, 28, 30] {
        teeth.push(Rect {
            x,
            y: 0,
            w: 1,
            h: 29,
        })?;
    }
    for y in [1, 3, 5, 7, 9, 11, 13, 15, 17, 19, 21, 23, 25, 27] {
        teeth.push(Rect {
            x: 0,
            y,
            w: 31,
            h: 1,
        })?;
    }
    Ok(teeth)
}

fn bytes(alloc: Global, words: &[&str], k: usize) -> Result<Bytes, Stop> {
    let mut all = Vec::new(alloc);
    if let Some(name) = words.get(k) {
        if *name != "-" {
            all.extend_from_slice(name.as_bytes())?;
        }
    }
    Ok(Bytes::of(all))
}

fn zeros(alloc: Global, words: &[&str], k: usize) -> Result<Bytes, Stop> {
    let mut all = Vec::new(alloc);
    for _ in 0..number(words, k).unwrap_or(0) {
        all.push(0)?;
    }
    Ok(Bytes::of(all))
}

fn cells(alloc: Global, words: &[&str], k: usize) -> Result<Words, Stop> {
    let mut all = Vec::new(alloc);
    for _ in 0..number(words, k).unwrap_or(0) {
        all.push(0xff00_00ff)?;
    }
    Ok(Words::of(all))
}

// A command without a list, from its kind and the words behind it.
fn short_command(kind: &str, words: &[&str]) -> Option<Command> {
    match kind {
        "create" => Some(Command::Create {
            layer: number(words, 0)?,
        }),
        "destroy" => Some(Command::Destroy {
            slot: number(words, 0)?,
        }),
        "move" => Some(Command::Move {
            slot: number(words, 0)?,
            origin: point(behind(words, 1))?,
        }),
        "raise" => Some(Command::Raise {
            slot: number(words, 0)?,
        }),
        "lower" => Some(Command::Lower {
            slot: number(words, 0)?,
        }),
        "cursor" => Some(Command::CursorMove {
            x: coordinate(words, 0)?,
            y: coordinate(words, 1)?,
        }),
        "show" => Some(Command::CursorShow {
            shown: number(words, 0)? == 1,
        }),
        "take" => Some(Command::Take),
        _ => None,
    }
}

fn region_command(
    words: &[&str],
    origin: Option<Point>,
    mut rects: Vec<Rect>,
    more: &[&str],
) -> Result<Option<Command>, Stop> {
    add_rects(&mut rects, more)?;
    let Some(slot) = number(words, 0) else {
        return Ok(None);
    };
    let Some(origin) = origin else {
        return Ok(None);
    };
    Ok(Some(Command::Region {
        slot,
        origin,
        rects: Rects::of(rects),
    }))
}

fn shape_command(alloc: Global, words: &[&str]) -> Result<Option<Command>, Stop> {
    let cells = cells(alloc, words, 2)?;
    let Some(w) = number(words, 0) else {
        return Ok(None);
    };
    let Some(h) = number(words, 1) else {
        return Ok(None);
    };
    Ok(Some(Command::CursorShape { w, h, cells }))
}

fn send_command(alloc: Global, words: &[&str]) -> Result<Command, Stop> {
    Ok(Command::Send {
        channel: bytes(alloc, words, 0)?,
        message: bytes(alloc, words, 1)?,
        payload: zeros(alloc, words, 2)?,
    })
}

fn command(alloc: Global, kind: &str, words: &[&str]) -> Result<Option<Command>, Stop> {
    match kind {
        "region" => region_command(
            words,
            point(behind(words, 1)),
            Vec::new(alloc),
            behind(words, 3),
        ),
        "comb" => {
            let corner = Some(Point { x: 0, y: 0 });
            region_command(words, corner, comb(alloc)?, behind(words, 1))
        }
        "shape" => shape_command(alloc, words),
        "join" => Ok(Some(Command::Join {
            channel: bytes(alloc, words, 0)?,
        })),
        "leave" => Ok(Some(Command::Leave {
            channel: bytes(alloc, words, 0)?,
        })),
        "known" => Ok(Some(Command::IsRegistered {
            channel: bytes(alloc, words, 0)?,
        })),
        "send" => Ok(Some(send_command(alloc, words)?)),
        _ => Ok(short_command(kind, words)),
    }
}

// A refusal by its number, and the words behind it.
fn refusal(kind: &str, words: &[&str]) -> Option<Refusal> {
    match kind {
        "1" => Some(Refusal::NoWindow {
            slot: number(words, 0)?,
        }),
        "2" => Some(Refusal::NotYours {
            slot: number(words, 0)?,
            owner: number(words, 1)?,
        }),
        "3" => Some(Refusal::NoSlot),
        "4" => Some(Refusal::BadLayer {
            layer: number(words, 0)?,
        }),
        "5" => Some(Refusal::BadRegion {
            index: number(words, 0)?,
        }),
        "6" => Some(Refusal::TooComplex {
            slot: number(words, 0)?,
            rects: number(words, 1)?,
        }),
        "7" => Some(Refusal::OffScreen {
            x: coordinate(words, 0)?,
            y: coordinate(words, 1)?,
        }),
        "8" => Some(Refusal::BadShape {
            w: number(words, 0)?,
            h: number(words, 1)?,
        }),
        _ => refusal_of_mail(kind, words),
    }
}

fn refusal_of_mail(kind: &str, words: &[&str]) -> Option<Refusal> {
    match kind {
        "9" => Some(Refusal::Joined),
        "10" => Some(Refusal::TooManyChannels),
        "11" => Some(Refusal::BadName),
        "12" => Some(Refusal::NotJoined),
        "13" => Some(Refusal::NoChannel),
        "14" => Some(Refusal::MailboxFull {
            client: number(words, 0)?,
        }),
        "15" => Some(Refusal::TooLarge {
            len: number(words, 0)?,
        }),
        "16" => Some(Refusal::Empty),
        _ => None,
    }
}

// The reply by its kind, and the words behind it: `message` has the channel, the sender, the name and the payload's length.
fn short_reply(kind: &str, words: &[&str]) -> Option<Reply> {
    match kind {
        "created" => Some(Reply::Created {
            slot: number(words, 0)?,
        }),
        "done" => Some(Reply::Done),
        "sent" => Some(Reply::Sent {
            to: number(words, 0)?,
        }),
        "known" => Some(Reply::Registered {
            yes: number(words, 0)? == 1,
        }),
        "modified" => Some(Reply::Event {
            event: Event::RegionModified {
                slot: number(words, 0)?,
            },
        }),
        "refused" => Some(Reply::Refused {
            cause: refusal(*words.first()?, behind(words, 1))?,
        }),
        _ => None,
    }
}

fn reply(alloc: Global, kind: &str, words: &[&str]) -> Result<Option<Reply>, Stop> {
    if kind != "message" {
        return Ok(short_reply(kind, words));
    }
    let Some(from) = number(words, 1) else {
        return Ok(None);
    };
    Ok(Some(Reply::Event {
        event: Event::Message {
            channel: bytes(alloc, words, 0)?,
            from,
            message: bytes(alloc, words, 2)?,
            payload: zeros(alloc, words, 3)?,
        },
    }))
}

// Whether the client's command is answered so; none where the words aren't those of a command and a reply.
fn answers(
    alloc: Global,
    core: &mut Core,
    asked: &[&str],
    answered: &[&str],
) -> Result<Option<bool>, Stop> {
    let Some(client) = number(asked, 0) else {
        return Ok(None);
    };
    let Some(kind) = asked.get(1) else {
        return Ok(None);
    };
    let Some(answer) = answered.first() else {
        return Ok(None);
    };
    let Some(command) = command(alloc, kind, behind(asked, 2))? else {
        return Ok(None);
    };
    let Some(expected) = reply(alloc, answer, behind(answered, 1))? else {
        return Ok(None);
    };
    let told = call(alloc, core, client, command)?;
    Ok(Some(told == expected))
}

fn answers_often(
    alloc: Global,
    core: &mut Core,
    asked: &[&str],
    answered: &[&str],
) -> Result<Option<bool>, Stop> {
    if asked.get(1).copied() != Some("times") {
        return answers(alloc, core, asked, answered);
    }
    let Some(times) = number(asked, 0) else {
        return Ok(None);
    };
    for _ in 0..times {
        match answers(alloc, core, behind(asked, 2), answered)? {
            Some(true) => {}
            other => return Ok(other),
        }
    }
    Ok(Some(true))
}

fn has_windows(core: &Core, words: &[&str]) -> bool {
    for (k, window) in core.windows().iter().enumerate() {
        if number(words, k) != Some(window.slot) {
            return false;
        }
    }
    words.len() == core.windows().len()
}

fn has_revisions(core: &Core, words: &[&str]) -> bool {
    for slot in 0..3 {
        if number(words, slot as usize).map(|r| r as u64) != Some(core.revision(slot)) {
            return false;
        }
    }
    true
}

fn has_region(alloc: Global, core: &Core, words: &[&str]) -> Result<Option<bool>, Stop> {
    let mut rects = Vec::new(alloc);
    add_rects(&mut rects, behind(words, 1))?;
    match number(words, 0) {
        Some(slot) if slot < 32 => Ok(Some(core.region(slot).rects() == rects.as_slice())),
        _ => Ok(None),
    }
}

fn needs(core: &Core, words: &[&str]) -> Option<bool> {
    let slot = number(words, 0)?;
    let count = number(words, 1)?;
    if slot >= 32 {
        return None;
    }
    Some(core.region(slot).rects().len() == count as usize)
}

// Whether the state is so.
fn stands(alloc: Global, core: &Core, words: &[&str]) -> Result<Option<bool>, Stop> {
    let Some(kind) = words.first() else {
        return Ok(Some(true));
    };
    let words = behind(words, 1);
    match *kind {
        "windows" => Ok(Some(has_windows(core, words))),
        "revisions" => Ok(Some(has_revisions(core, words))),
        "region" => has_region(alloc, core, words),
        "needs" => Ok(needs(core, words)),
        _ => Ok(None),
    }
}

fn holds(alloc: Global, core: &mut Core, row: &str) -> Result<Option<bool>, Stop> {
    let Some((asked, answered)) = row.split_once('=') else {
        return stands(alloc, core, &words_of(alloc, row)?);
    };
    let asked = words_of(alloc, asked)?;
    let answered = words_of(alloc, answered)?;
    answers_often(alloc, core, &asked, &answered)
}

/// Tries rows, one after the other, on a server with a screen of that size, from the opening state.
pub fn try_rows(alloc: Global, w: u32, h: u32, rows: &str) -> Result<(), Stop> {
    let mut core = opened(alloc, w, h)?;
    for (row, text) in rows.split(';').enumerate() {
        match holds(alloc, &mut core, text)? {
            Some(true) => {}
            Some(false) => return Err(Stop::Wrong { row }),
            None => return Err(Stop::NoRow { row }),
        }
    }
    Ok(())
}
