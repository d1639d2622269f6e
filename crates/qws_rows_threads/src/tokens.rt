//! A screen with two painters, and the shortest turns that they and the server can make.
ghost use Rattle.std.specs.Prelude.{◌≡◌, ℕ, ◌+◌, ◌<◌, ◌≤◌, length, IfOk, MatchResult, false, true};
ghost use Rattle.qws_base.specs.Sides.{IsScreen};
ghost use Rattle.qws_base.specs.States.{is_refused};
ghost use Rattle.qws_base.specs.declared.commands.Command.TheVariants.{Take};
ghost use Rattle.qws_base.specs.declared.replies.Reply.TheVariants.{Refused};
ghost use Rattle.qws_base.specs.declared.replies.Refusal.TheVariants.{Empty};
ghost use Rattle.qws_base.specs.Points.{pixel_count};
ghost use Rattle.region_table.specs.Numbers.{IsTableWord};
ghost use Rattle.turn_logs.specs.Tables.{opening_table};
ghost use Rattle.region_table.specs.Numbers.{first_pixel};
ghost use Rattle.fb_words.specs.Views.{is_writing};
ghost use Rattle.fb_words.specs.declared.known.ServerMode.TheVariants.{Resting};
ghost use Rattle.fb_words.specs.declared.known.Mode.TheVariants.{Idle};
ghost use Rattle.display_lock.specs.Turns.{SameTurn, IsOpenServer, SameServerTurn, turned_away};
ghost use Rattle.qws_rows_threads.specs.Tokens.{paints, IsPainter, HasPainted, IsUnpainted, IsHead, IsStamped};

use display_lock::{PaintTurn, ServerTurn, try_paint_turn, try_server_turn};
use fb_words::{Head, Pass, Screen};
use gfx_fills::Fill;
use qws_base::{
    BookEntry, Command, Depth, Ink, JournalEntry, OutOfMemory, PaintReply, Rect, Refusal, Reply,
    Rgb, Size,
};
use region_table::row_at;
use std::alloc::Global;

// A slot past the last, in which no client has a window.
const NO_SLOT: u32 = 33;

// The client that sits with the head.
const SITTING: u32 = 2;

// The word of the stamp.
const STAMP: u64 = 1;

/// A new screen with its head, and two painters with room for so many paints each. A third client sits with the head.
pub fn session(
    alloc: Global,
    size: Size,
    backdrop: Rgb,
    paints: u64,
) -> Result<(Screen, Head, Pass, Pass), OutOfMemory>
    requires size { IsScreen size }
    ensures head { IfOk result (λ made. IsHead made.0 1 made.1) }
    ensures resting { IfOk result (λ made. made.1.server.mode ≡ Resting) }
    ensures size { IfOk result (λ made. (made.0.setting.size ≡ size) × (made.1.server.setting.size ≡ size)) }
    ensures clients { IfOk result (λ made. length made.1.server.limits ≡ 3) }
    ensures opening { IfOk result (λ made. made.1.server.present ≡ opening_table) }
    ensures first { IfOk result (λ made. IsPainter made.0 paints made.2) }
    ensures second { IfOk result (λ made. IsPainter made.0 paints made.3) }
{
    let (screen, mut head) = Screen::new(alloc, size, Depth::Full, backdrop)?;
    let first = screen.admit(alloc, &mut head, 0, paints)?;
    let second = screen.admit(alloc, &mut head, 0, paints)?;
    let third = screen.admit(alloc, &mut head, u64::MAX, 0)?;
    screen.sit(&mut head, third);
    Ok((screen, head, first, second))
}

/// Ends a turn in which no pixel was read or written: the slot has no window.
pub fn end_gone(turn: PaintTurn)
    requires unpainted { IsUnpainted turn }
    ensures { HasPainted 1 turn.entry.pass.now turn.exit.1.0.now }
{
    let rect = Rect {
        x: 0,
        y: 0,
        w: 1,
        h: 1,
    };
    let entry = BookEntry {
        stamp: turn.stamp(),
        slot: NO_SLOT,
        tag: 0,
        reply: PaintReply::Gone,
    };
    turn.end(entry, &Fill::new(rect, Ink::Skip));
}

/// Enters and leaves once; else the gate word that shut the painter out.
pub fn paint(screen: &Screen, pass: &mut Pass) -> Result<(), u64>
    requires painter { IsPainter screen.now 1 pass.old }
    ensures pass { MatchResult result (λ _. HasPainted 1 pass.old pass.new) (λ found. pass.new ≡ turned_away pass.old found) }
    ensures back { (pass.new.screen ≡ screen.now) × (pass.new.client.mode ≡ Idle) × (pass.new.book_limit ≡ pass.old.book_limit) }
    ensures count { paints pass.new ≤ paints pass.old + 1 }
{
    match try_paint_turn(pass, screen) {
        Ok(turn) => {
            end_gone(turn);
            Ok(())
        }
        Err(busy) => Err(busy.found),
    }
}

// The entry of a Take that finds no message, by the client that sits.
fn refusal(number: u64) -> JournalEntry
    ensures { result ≡ record { number = number; client = 2; command = Take; reply = Refused Empty } }
{
    JournalEntry {
        number,
        client: SITTING,
        command: Command::Take,
        reply: Reply::Refused {
            cause: Refusal::Empty,
        },
    }
}

/// Writes the next stamp.
pub fn stamp(turn: &mut ServerTurn, number: u64)
    requires open { IsOpenServer turn.old }
    requires head { IsHead turn.old.screen.now number turn.old.head.now }
    ensures same { SameServerTurn turn.old turn.new }
    ensures open { IsOpenServer turn.new }
    ensures head { IsStamped turn.new.screen.now number turn.new.head.now }
{
    turn.write(STAMP, number);
}

// Ends a turn that has written the stamp.
fn close(turn: ServerTurn, entry: &JournalEntry)
    requires open { IsOpenServer turn }
    requires head { IsStamped turn.screen.now entry.now.number turn.head.now }
    requires refused { (entry.now.client ≡ 2) × (is_refused entry.now.reply ≡ true) }
    ensures head { IsHead turn.entry.screen.now (entry.now.number + 1) turn.exit.1.0.now }
    ensures resting { turn.exit.1.0.now.server.mode ≡ Resting }
{
    turn.end(entry);
}

/// Ends a turn that has written the stamp, with a refused entry of the client that sits.
pub fn end_refused(turn: ServerTurn, number: u64)
    requires open { IsOpenServer turn }
    requires head { IsStamped turn.screen.now number turn.head.now }
    ensures head { IsHead turn.entry.screen.now (number + 1) turn.exit.1.0.now }
    ensures resting { turn.exit.1.0.now.server.mode ≡ Resting }
{
    let entry = refusal(number);
    close(turn, &entry);
}

/// A server turn that only writes the stamp; else the gate word that shut the server out.
pub fn serve(screen: &Screen, head: &mut Head, number: u64) -> Result<(), u64>
    requires head { IsHead screen.now number head.old }
    requires not_writing { is_writing head.old.server.mode ≡ false }
    ensures head { MatchResult result (λ _. IsHead screen.now (number + 1) head.new) (λ found. IsHead screen.now number head.new) }
    ensures not_writing { is_writing head.new.server.mode ≡ false }
{
    match try_server_turn(head, screen) {
        Ok(mut turn) => {
            stamp(&mut turn, number);
            end_refused(turn, number);
            Ok(())
        }
        Err(busy) => Err(busy.found),
    }
}

/// Reads a word in the server's turn.
pub fn read(turn: &mut ServerTurn, word: u64) -> u64
    requires open { IsOpenServer turn.old }
    requires word { (1 ≤ word) × (word < first_pixel + pixel_count turn.old.screen.now.setting.size) }
    ensures same { SameServerTurn turn.old turn.new }
    ensures open { IsOpenServer turn.new }
    ensures head { (number : ℕ) → IsHead turn.old.screen.now number turn.old.head.now → IsHead turn.new.screen.now number turn.new.head.now }
{
    turn.read(word)
}

/// Looks at a table word in a painter's turn.
pub fn look(turn: &mut PaintTurn, word: u64) -> u64
    requires unpainted { IsUnpainted turn.old }
    requires table { IsTableWord word }
    ensures same { SameTurn turn.old turn.new }
    ensures unpainted { IsUnpainted turn.new }
    ensures paints { paints turn.new.pass.now ≡ paints turn.old.pass.now }
{
    turn.look(word)
}

/// In the first server turn, writes the row of slot 0: it is client 0's, with revision 2, origin (-2, 3) and the rectangle
/// of two columns and one row at (1, 0).
pub fn write_row(turn: &mut ServerTurn)
    requires open { IsOpenServer turn.old }
    requires head { IsHead turn.old.screen.now 1 turn.old.head.now }
    requires opening { turn.old.head.now.server.present ≡ opening_table }
    requires clients { 1 ≤ length turn.old.head.now.server.limits }
    requires size { turn.old.head.now.server.setting.size ≡ record { w = 4; h = 2 } }
    ensures same { SameServerTurn turn.old turn.new }
    ensures open { IsOpenServer turn.new }
    ensures head { IsHead turn.new.screen.now 1 turn.new.head.now }
{
    let row = row_at(0);
    turn.write(row, 1);
    turn.write(row + 1, 2);
    turn.write(row + 2, 0x8003_7ffe);
    turn.write(row + 3, 1);
    turn.write(row + 4, 0x0001_0002_0000_0001);
}
