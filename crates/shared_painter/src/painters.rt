//! Painting a picture on a window, in one turn.
ghost use Rattle.std.specs.Prelude.{◌≡◌, ◌<◌, ◌≤◌, [], ◌∷◌, Some, None, length};
ghost use Rattle.std.specs.List.{filter};
ghost use Rattle.qws_base.specs.Scenes.{has_ink};
ghost use Rattle.fb_words.specs.declared.known.Mode.TheVariants.{Idle};
ghost use Rattle.fb_words.specs.Clips.{looked_in, log_in, slot_in, Sees};
ghost use Rattle.fb_words.specs.Views.{books_in};
ghost use Rattle.display_lock.specs.Turns.{IsOpen, SameTurn, client_in};
ghost use Rattle.clip_refetch.specs.Clips.{IsKnown, IsFresh};
ghost use Rattle.sw_cursor.specs.Covers.{PaintsOn};
ghost use Rattle.shared_painter.specs.Painted.{PaintsPixels, cut_pixels};
ghost use Rattle.shared_painter.specs.Answers.{EndsAs, HasAnswered, KeepsOthers, IsBack};

use crate::laws::paints_are_carried_whole;
use crate::rows::paint_rects;
use clip_refetch::{Clip, Look, kept_clips_are_fresh};
use display_lock::{PaintTurn, try_paint_turn};
use fb_words::{Pass, Screen};
use qws_base::{BookEntry, Gate, PaintReply, Picture, Place, RowBuf};
use sw_cursor::Cover;

/// A paint that was made.
#[derive(Clone, Copy, Debug, PartialEq, Eq)]
pub struct Painted {
    /// How many server turns were closed when its turn began.
    pub stamp: u64,
    /// How many pixels of the window the picture has ink on.
    pub pixels: u64,
    /// Whether the clip was fetched anew.
    pub fetched: bool,
}

/// Why a picture wasn't painted.
#[derive(Clone, Copy, Debug, PartialEq, Eq)]
pub enum PaintStop {
    /// The book holds as many entries as it can.
    BookFull { held: u64 },
    /// The server has a turn, or has announced one: the gate word that was found.
    Busy { found: u64 },
    /// The client has no window in the slot any more, at the turn's stamp.
    Gone { stamp: u64 },
}

// What a turn has painted: the pixels with ink, and whether the clip was fetched anew.
struct Done {
    pixels: u64,
    fetched: bool,
}

// Paints the pixels of a fresh clip that the picture reaches, and counts those with ink.
#[inline(always)]
fn paint_clip<P: Picture>(turn: &mut PaintTurn, clip: &Clip, row: &mut RowBuf, picture: &P) -> u64
    requires open { IsOpen turn.old }
    requires present { Sees (client_in turn.old) }
    requires fresh { IsFresh (client_in turn.old) clip.now }
    requires slot { slot_in (client_in turn.old).mode ≡ Some clip.now.slot }
    ensures same { SameTurn turn.old turn.new }
    ensures open { IsOpen turn.new }
    ensures goes { PaintsOn (client_in turn.old) (client_in turn.new) }
    ensures log { PaintsPixels clip.now.origin (P.sheet picture.now) (cut_pixels (client_in turn.old).setting.size.w clip.now.origin (P.sheet picture.now).reach clip.now.rects) (client_in turn.old) (client_in turn.new) }
    ensures count { result ≡ length (filter (has_ink (client_in turn.old).setting.size.w clip.now.origin (P.sheet picture.now)) (cut_pixels (client_in turn.old).setting.size.w clip.now.origin (P.sheet picture.now).reach clip.now.rects)) }
{
    let size = turn.screen().size();
    let cover = Cover::look(turn);
    paint_rects(
        turn,
        &cover,
        picture,
        clip.origin(),
        clip.rects(),
        size,
        row.inks(),
    )
}

// Refreshes the clip, lets the gate hold the client, and paints; none where the window is gone.
#[inline(always)]
fn paint_in_turn<P: Picture, G: Gate>(
    turn: &mut PaintTurn,
    clip: &mut Clip,
    row: &mut RowBuf,
    picture: &P,
    gate: &G,
) -> Option<Done>
    requires open { IsOpen turn.old }
    requires looked { looked_in (client_in turn.old).mode ≡ record { word = 1; value = turn.old.stamp } ∷ [] }
    requires empty { log_in (client_in turn.old).mode ≡ [] }
    requires no_slot { slot_in (client_in turn.old).mode ≡ None }
    requires known { IsKnown (client_in turn.old) clip.old }
    ensures same { SameTurn turn.old turn.new }
    ensures open { IsOpen turn.new }
    ensures answer { EndsAs (client_in turn.old) (client_in turn.new) clip.old clip.new (P.sheet picture.now) result }
    ensures others { KeepsOthers clip.old.slot (client_in turn.old) (client_in turn.new) }
{
    kept_clips_are_fresh();
    paints_are_carried_whole();
    let _slot = clip.slot();
    let look = clip.refresh(turn);
    gate.at(turn.client(), Place::InTurn);
    match look {
        Look::Current => {
            let pixels = paint_clip(turn, clip, row, picture);
            Some(Done {
                pixels,
                fetched: false,
            })
        }
        Look::Fetched { .. } => {
            let pixels = paint_clip(turn, clip, row, picture);
            Some(Done {
                pixels,
                fetched: true,
            })
        }
        Look::Gone { .. } => None,
    }
}

/// Paints a picture on the pass's window in the clip's slot, in one turn. The clip is new, or what the pass keeps for its slot.
/// `BookFull` comes exactly where the book holds its limit; no step is made then. `Busy` comes as in `try_paint_turn`, and
/// adds no entry. `Gone` comes exactly where the published revision differs from the clip's and the slot has another owner;
/// the book gets the entry. The clip is as before after each of these. Else the picture is painted on all pixels that belong
/// to the window, at its place, under the cursor, and no others; the book gets the entry with the tag and the number of pixels
/// with ink, and the clip is the published row, fetched where its revision differs. The gate is called once, `InTurn`, after
/// the refresh and before the first pixel. It takes no memory, and waits for nobody.
pub fn try_paint<P: Picture, G: Gate>(
    screen: &Screen,
    clip: &mut Clip,
    pass: &mut Pass,
    row: &mut RowBuf,
    picture: &P,
    tag: u64,
    gate: &G,
) -> Result<Painted, PaintStop>
    requires screen { pass.old.screen ≡ screen.now }
    requires idle { pass.old.client.mode ≡ Idle }
    requires known { IsKnown pass.old.client clip.old }
    ensures answer { HasAnswered pass.old pass.new clip.old clip.new (P.sheet picture.now) tag result }
    ensures full { pass.old.book_limit ≤ length (books_in pass.old.client.own) → result ≡ Err (PaintStop.BookFull (length (books_in pass.old.client.own))) }
    ensures others { KeepsOthers clip.old.slot pass.old.client pass.new.client }
    ensures back { IsBack pass.old pass.new }
    ensures known { IsKnown pass.new.client clip.new }
    ensures slot { clip.new.slot ≡ clip.old.slot }
{
    let held = pass.entries().len() as u64;
    if held >= pass.book_limit() {
        return Err(PaintStop::BookFull { held });
    }
    let mut turn = match try_paint_turn(pass, screen) {
        Ok(turn) => turn,
        Err(busy) => return Err(PaintStop::Busy { found: busy.found }),
    };
    let stamp = turn.stamp();
    let slot = clip.slot();
    match paint_in_turn(&mut turn, clip, row, picture, gate) {
        Some(Done { pixels, fetched }) => {
            let reply = PaintReply::Painted { pixels };
            let entry = BookEntry {
                stamp,
                slot,
                tag,
                reply,
            };
            turn.end(entry, picture);
            Ok(Painted {
                stamp,
                pixels,
                fetched,
            })
        }
        None => {
            let reply = PaintReply::Gone;
            let entry = BookEntry {
                stamp,
                slot,
                tag,
                reply,
            };
            turn.end(entry, picture);
            Err(PaintStop::Gone { stamp })
        }
    }
}
