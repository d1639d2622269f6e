//! Server turns that publish a table. Their entries are refused, so that the scene stays, while the table and the cursor
//! are those of the words.
ghost use Rattle.std.specs.Prelude.{◌≡◌, ◌+◌, ◌*◌, ◌<◌, ◌≤◌, ◌⊎◌, length, slice_index, IfOk, MatchResult, false, true};
ghost use Rattle.qws_base.specs.Points.{pixel_count};
ghost use Rattle.qws_base.specs.Shown.{IsShape};
ghost use Rattle.qws_base.specs.Colours.{IsSceneColour};
ghost use Rattle.qws_base.specs.Scenes.{setting_of};
ghost use Rattle.qws_base.specs.Sides.{IsScreen};
ghost use Rattle.qws_base.specs.States.{is_refused};
ghost use Rattle.region_table.specs.Opening.{opening_word};
ghost use Rattle.turn_logs.specs.Tables.{opening_table, opening_words, table_of, IsTable, IsCursorIn, Follows};
ghost use Rattle.fb_words.specs.Views.{is_writing};
ghost use Rattle.fb_words.specs.declared.known.Mode.TheVariants.{Idle};
ghost use Rattle.fb_words.specs.declared.known.ServerMode.TheVariants.{Writing};
ghost use Rattle.display_lock.specs.Turns.{IsOpenServer, SameServerTurn};
ghost use Rattle.qws_rows_painters.specs.Heads.{IsHead, IsFresh, IsServed, Writes, HasWritten};

use crate::checks::{follow, is_table};
use display_lock::{ServerTurn, try_server_turn};
use fb_words::{Head, Pass, Screen, logs_stay_true};
use qws_base::{
    Command, Cursor, Depth, JournalEntry, OutOfMemory, Refusal, Reply, Rgb, Size, Words,
};
use region_table::{FIRST_PIXEL, FIRST_ROW, ROW_SIZE, cell_at, pixel_at};
use std::alloc::{AllocError, AllocFailed, Global};
use sw_cursor::{drop_at, lift};
use turn_logs::{cells_are_lifted, phases_carry, stamps_alone_change};

// The client that sits with the head.
const SITTING: u32 = 2;

// The word of the origin (0, 0).
const ORIGIN: u64 = 2_147_516_416;

/// Why a table wasn't published.
#[derive(Clone, Copy, Debug, PartialEq, Eq)]
pub enum ServeStop {
    /// The settle found a painter.
    Busy { found: u64 },
    /// The words aren't a table that may follow the last one.
    Bad,
    OutOfMemory,
}

impl From<OutOfMemory> for ServeStop {
    fn from(_: OutOfMemory) -> Self {
        ServeStop::OutOfMemory
    }
}

impl From<AllocError> for ServeStop {
    fn from(_: AllocError) -> Self {
        ServeStop::OutOfMemory
    }
}

impl<T: Drop> From<AllocFailed<T>> for ServeStop {
    fn from(_: AllocFailed<T>) -> Self {
        ServeStop::OutOfMemory
    }
}

// The opening value of a table word.
fn opening_word(index: usize) -> u64
    ensures { result ≡ opening_word index }
{
    if index < FIRST_ROW as usize {
        return 0;
    }
    match (index - FIRST_ROW as usize) % ROW_SIZE as usize {
        1 => 1,
        2 => ORIGIN,
        _ => 0,
    }
}

/// The table words of a new screen.
pub fn opening(alloc: Global) -> Result<Vec<u64>, OutOfMemory>
    ensures value { IfOk result (λ words. words.items ≡ opening_table) }
    ensures len { IfOk result (λ words. length words.items ≡ 10632) }
{
    let mut words = Vec::new(alloc);
    for index in 0..FIRST_PIXEL as usize {
        words.push(opening_word(index))?;
    }
    Ok(words)
}

/// A new screen with its head, its table words, and two painters with room for so many paints each. A third client sits with the head.
pub fn session(
    alloc: Global,
    size: Size,
    depth: Depth,
    backdrop: Rgb,
    paints: u64,
) -> Result<(Screen, Head, Vec<u64>, Pass, Pass), OutOfMemory>
    ensures head { IfOk result (λ made. IsHead made.0 1 made.2.items made.1) }
    ensures len { IfOk result (λ made. length made.2.items ≡ 10632) }
    ensures not_writing { IfOk result (λ made. is_writing made.1.server.mode ≡ false) }
    ensures setting { IfOk result (λ made. made.0.setting ≡ setting_of size depth backdrop) }
    ensures first { IfOk result (λ made. (made.3.screen ≡ made.0) × (made.3.client.mode ≡ Idle)) }
    ensures second { IfOk result (λ made. (made.4.screen ≡ made.0) × (made.4.client.mode ≡ Idle)) }
{
    let words = opening(alloc)?;
    let (screen, mut head) = Screen::new(alloc, size, depth, backdrop)?;
    let first = screen.admit(alloc, &mut head, 0, paints)?;
    let second = screen.admit(alloc, &mut head, 0, paints)?;
    let third = screen.admit(alloc, &mut head, u64::MAX, 0)?;
    screen.sit(&mut head, third);
    Ok((screen, head, words, first, second))
}

/// The cursor that the words have.
pub fn cursor_in(alloc: Global, size: Size, words: &[u64]) -> Result<Cursor, OutOfMemory>
    requires long { length words.now ≡ 10632 }
    requires cursor { IsCursorIn size words.now }
    ensures cursor { IfOk result (λ cursor. cursor ≡ (table_of words.now).cursor) }
    ensures shape { IfOk result (λ cursor. IsShape cursor) }
{
    let (place, shape) = (words[2], words[3]);
    let (w, h) = ((shape % 65536) as u32, (shape / 65536) as u32);
    let mut cells = Vec::new(alloc);
    for k in 0..w * h {
        let word = words[cell_at(k % w, k / w) as usize];
        cells.push((word % 4_294_967_296) as u32)?;
    }
    Ok(Cursor {
        x: (place % 65536) as u32,
        y: (place / 65536 % 65536) as u32,
        w,
        h,
        cells: Words::of(cells),
        shown: place / 4_294_967_296 == 1,
    })
}

// Writes table words from one on, before another.
fn write_span(turn: &mut ServerTurn, words: &[u64], from: usize, past: usize)
    requires open { IsOpenServer turn.old }
    requires long { length words.now ≡ 10632 }
    requires wide { length turn.old.head.now.server.present ≡ 10632 }
    requires table { ((1 ≤ from) × (past ≤ 1028)) ⊎ ((2052 ≤ from) × (past ≤ 10632)) }
    requires ordered { from ≤ past }
    ensures same { SameServerTurn turn.old turn.new }
    ensures open { IsOpenServer turn.new }
    ensures head { Writes from past words.now turn.old.head.now turn.new.head.now }
{
    for index in from..past {
        turn.write(index as u64, words[index]);
    }
}

// Writes all table words.
fn write_words(turn: &mut ServerTurn, words: &[u64])
    requires open { IsOpenServer turn.old }
    requires long { length words.now ≡ 10632 }
    requires wide { length turn.old.head.now.server.present ≡ 10632 }
    ensures same { SameServerTurn turn.old turn.new }
    ensures open { IsOpenServer turn.new }
    ensures head { HasWritten words.now turn.old.head.now turn.new.head.now }
{
    write_span(turn, words, 1, 1028);
    write_span(turn, words, 2052, 10632);
}

// The entry of a Take that finds no message, by the client that sits.
fn refusal(number: u64) -> JournalEntry
    ensures number { result.number ≡ number }
    ensures client { result.client ≡ 2 }
    ensures refused { is_refused result.reply ≡ true }
{
    JournalEntry {
        number,
        client: SITTING,
        command: Command::Take,
        reply: Reply::Refused {
            cause: Refusal::Empty,
        },
    }
}

// Ends a turn that has written its table.
fn close(turn: ServerTurn, before: &[u64], words: &[u64], entry: &JournalEntry)
    requires open { IsOpenServer turn }
    requires served { IsServed turn.screen.now entry.now.number before.now words.now turn.head.now }
    requires table { IsTable turn.screen.now.setting.size 3 entry.now.number words.now }
    requires follows { Follows before.now words.now }
    requires refused { (entry.now.client ≡ 2) × (is_refused entry.now.reply ≡ true) }
    ensures head { IsHead turn.entry.screen.now (entry.now.number + 1) words.now turn.exit.1.0.now }
    ensures not_writing { is_writing turn.exit.1.0.now.server.mode ≡ false }
{
    stamps_alone_change();
    phases_carry();
    cells_are_lifted();
    turn.end(entry);
}

/// Lifts the cursor, writes the words, and puts their cursor down.
pub fn prepare(turn: &mut ServerTurn, before: &[u64], words: &[u64], cursor: &Cursor, number: u64)
    requires open { IsOpenServer turn.old }
    requires fresh { IsFresh turn.old.screen.now number before.now turn.old.head.now }
    requires long { length words.now ≡ 10632 }
    requires cursor { cursor.now ≡ (table_of words.now).cursor }
    requires shape { IsShape cursor.now }
    ensures same { SameServerTurn turn.old turn.new }
    ensures open { IsOpenServer turn.new }
    ensures served { IsServed turn.old.screen.now number before.now words.now turn.new.head.now }
{
    logs_stay_true();
    lift(turn);
    write_words(turn, words);
    drop_at(turn, cursor);
}

/// Ends a turn that has written its table, with a refused entry.
pub fn finish(turn: ServerTurn, before: &[u64], words: &[u64], number: u64)
    requires open { IsOpenServer turn }
    requires served { IsServed turn.screen.now number before.now words.now turn.head.now }
    requires table { IsTable turn.screen.now.setting.size 3 number words.now }
    requires follows { Follows before.now words.now }
    ensures head { IsHead turn.entry.screen.now (number + 1) words.now turn.exit.1.0.now }
    ensures not_writing { is_writing turn.exit.1.0.now.server.mode ≡ false }
{
    let entry = refusal(number);
    close(turn, before, words, &entry);
}

// Publishes words whose cursor is made.
fn publish(
    screen: &Screen,
    head: &mut Head,
    before: &[u64],
    words: &[u64],
    cursor: &Cursor,
    number: u64,
) -> Result<(), ServeStop>
    requires head { IsHead screen.now number before.now head.old }
    requires not_writing { is_writing head.old.server.mode ≡ false }
    requires long { length words.now ≡ 10632 }
    requires cursor { cursor.now ≡ (table_of words.now).cursor }
    requires shape { IsShape cursor.now }
    requires table { IsTable screen.now.setting.size 3 number words.now }
    requires follows { Follows before.now words.now }
    ensures head { MatchResult result (λ _. IsHead screen.now (number + 1) words.now head.new) (λ _. IsHead screen.now number before.now head.new) }
    ensures not_writing { is_writing head.new.server.mode ≡ false }
{
    match try_server_turn(head, screen) {
        Ok(mut turn) => {
            prepare(&mut turn, before, words, cursor, number);
            finish(turn, before, words, number);
            Ok(())
        }
        Err(busy) => Err(ServeStop::Busy { found: busy.found }),
    }
}

/// A server turn that publishes words, after the table of the words before. Its number is the words' stamp.
pub fn serve(
    alloc: Global,
    screen: &Screen,
    head: &mut Head,
    before: &[u64],
    words: &[u64],
    number: u64,
) -> Result<(), ServeStop>
    requires head { IsHead screen.now number before.now head.old }
    requires not_writing { is_writing head.old.server.mode ≡ false }
    requires before { length before.now ≡ 10632 }
    requires long { length words.now ≡ 10632 }
    ensures head { MatchResult result (λ _. IsHead screen.now (number + 1) words.now head.new) (λ _. IsHead screen.now number before.now head.new) }
    ensures not_writing { is_writing head.new.server.mode ≡ false }
{
    let size = screen.size();
    if !is_table(size, 3, number, words) || !follow(before, words) {
        return Err(ServeStop::Bad);
    }
    match cursor_in(alloc, size, words) {
        Ok(cursor) => publish(screen, head, before, words, &cursor, number),
        Err(_) => Err(ServeStop::OutOfMemory),
    }
}

// The colour that a framebuffer word shows.
fn shown_colour(depth: Depth, word: u64) -> u32
    requires { IsSceneColour depth word }
{
    let scene = match depth {
        Depth::Full => word,
        Depth::Narrow => word,
    };
    match Rgb::new(scene as u32) {
        Some(colour) => depth.shown(colour).value(),
        None => 0,
    }
}

// Reads the framebuffer in a turn.
fn read_pixels(
    alloc: Global,
    screen: &Screen,
    head: &mut Head,
    size: Size,
) -> Result<Vec<u32>, OutOfMemory>
    requires screen { head.old.screen ≡ screen.now }
    requires writing { head.old.server.mode ≡ Writing }
    requires setting { head.old.server.setting ≡ screen.now.setting }
    requires size { size ≡ screen.now.setting.size }
{
    let depth = screen.depth();
    let mut shown = Vec::new(alloc);
    for p in 0..size.w() * size.h() {
        let word = screen.read(head, pixel_at(p));
        shown.push(shown_colour(depth, word))?;
    }
    Ok(shown)
}

/// The colours that the framebuffer shows, by rows from the top left. No painter is in a turn, and the gate stays closed.
pub fn shown(alloc: Global, screen: &Screen, mut head: Head) -> Result<Vec<u32>, ServeStop>
    requires screen { head.screen ≡ screen.now }
    requires not_writing { is_writing head.server.mode ≡ false }
{
    if !head.is_closing() {
        screen.announce(&mut head);
    }
    let size = screen.size();
    match screen.settle(&mut head) {
        Ok(()) => match read_pixels(alloc, screen, &mut head, size) {
            Ok(pixels) => Ok(pixels),
            Err(_) => Err(ServeStop::OutOfMemory),
        },
        Err(found) => Err(ServeStop::Busy { found }),
    }
}
