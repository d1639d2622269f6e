//! A session of one painter, in stages: a table that a server turn publishes, and the pictures that are painted after it.
ghost use Rattle.std.specs.Prelude.{◌≡◌, length, IfOk, false};
ghost use Rattle.fb_words.specs.declared.known.Mode.TheVariants.{Idle};
ghost use Rattle.fb_words.specs.Views.{is_writing};
ghost use Rattle.clip_refetch.specs.Clips.{IsKnown};
ghost use Rattle.qws_rows_painters.specs.Heads.{IsHead};

use clip_refetch::Clip;
use fb_words::{Head, Pass, Screen};
use gfx_fills::Fill;
use qws_base::{Depth, NoGate, OutOfMemory, Rgb, RowBuf, Size};
use qws_rows_painters::turns::{ServeStop, serve, session, shown};
use shared_painter::{PaintStop, Painted, try_paint};
use std::alloc::Global;
use std::process::Abort;

/// A table, told by the words that differ from the table before it, each with its number; and the pictures that client 0
/// then paints on slot 0.
#[derive(Clone, Copy)]
pub struct Stage<'a> {
    pub changes: &'a [(usize, u64)],
    pub pictures: &'a [Fill],
}

/// The colours that the framebuffer shows at the end, and the answers of all paints in order.
#[derive(Drop)]
pub struct Ran {
    pub pixels: Vec<u32>,
    pub answers: Vec<Result<Painted, PaintStop>>,
}

/// Table words with a stamp, and with some of them changed.
pub fn changed(
    alloc: Global,
    before: &[u64],
    stamp: u64,
    changes: &[(usize, u64)],
) -> Result<Vec<u64>, OutOfMemory>
    requires { length before.now ≡ 10632 }
    ensures { IfOk result (λ words. length words.items ≡ 10632) }
{
    let mut words = before.to_vec(alloc)?;
    words[1] = stamp;
    for (index, word) in changes {
        if *index < words.len() {
            words[*index] = *word;
        }
    }
    Ok(words)
}

// Paints the pictures in order.
fn paint_all(
    screen: &Screen,
    pass: &mut Pass,
    clip: &mut Clip,
    row: &mut RowBuf,
    pictures: &[Fill],
    answers: &mut Vec<Result<Painted, PaintStop>>,
) -> Result<(), OutOfMemory>
    requires screen { pass.old.screen ≡ screen.now }
    requires idle { pass.old.client.mode ≡ Idle }
    requires known { IsKnown pass.old.client clip.old }
    ensures screen { pass.new.screen ≡ screen.now }
    ensures idle { pass.new.client.mode ≡ Idle }
    ensures known { IsKnown pass.new.client clip.new }
{
    for picture in pictures {
        let answer = try_paint(screen, clip, pass, row, picture, 0, &NoGate);
        answers.push(answer)?;
    }
    Ok(())
}

// Publishes the tables and paints their pictures, in order. The answers of the paints.
fn play(
    alloc: Global,
    screen: &Screen,
    head: &mut Head,
    opening: &[u64],
    pass: &mut Pass,
    stages: &[Stage],
) -> Result<Vec<Result<Painted, PaintStop>>, ServeStop>
    requires head { IsHead screen.now 1 opening.now head.old }
    requires not_writing { is_writing head.old.server.mode ≡ false }
    requires long { length opening.now ≡ 10632 }
    requires screen { pass.old.screen ≡ screen.now }
    requires idle { pass.old.client.mode ≡ Idle }
    ensures screen { IfOk result (λ _. head.new.screen ≡ screen.now) }
    ensures not_writing { IfOk result (λ _. is_writing head.new.server.mode ≡ false) }
{
    let mut words = opening.to_vec(alloc)?;
    let mut clip = Clip::new(alloc, 0)?;
    let mut row = RowBuf::new(alloc)?;
    let mut answers = Vec::new(alloc);
    for place in 0..stages.len() {
        let stage = &stages[place];
        let number = place as u64 + 1;
        let next = changed(alloc, &words, number, stage.changes)?;
        serve(alloc, screen, head, &words, &next, number)?;
        words = next;
        let pictures = stage.pictures;
        paint_all(screen, pass, &mut clip, &mut row, pictures, &mut answers)?;
    }
    Ok(answers)
}

// A session of client 0, whose clip is that of slot 0.
fn run(
    alloc: Global,
    size: Size,
    depth: Depth,
    backdrop: Rgb,
    stages: &[Stage],
) -> Result<Ran, ServeStop> {
    let (screen, mut head, words, mut pass, _other) = session(alloc, size, depth, backdrop, 100)?;
    let answers = play(alloc, &screen, &mut head, &words, &mut pass, stages)?;
    let pixels = shown(alloc, &screen, head)?;
    Ok(Ran { pixels, answers })
}

/// A session of client 0 on a screen of a width and a height, whose tables are all published.
pub fn played(
    rt: &impl Abort,
    alloc: Global,
    sides: (u32, u32),
    depth: Depth,
    backdrop: Rgb,
    stages: &[Stage],
) -> Ran {
    let size = Size::new(sides.0, sides.1).expect(rt, "the sides are in range");
    run(alloc, size, depth, backdrop, stages).expect(rt, "each table is published")
}
