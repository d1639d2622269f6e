//! A clip, and its refresh.
ghost use Rattle.std.specs.Prelude.{◌≡◌, ◌≢◌, ℕ, ◌+◌, ◌<◌, ◌≤◌, Some, IfOk, vec_capacity};
ghost use Rattle.qws_base.specs.Points.{IsPlaced};
ghost use Rattle.region_table.specs.Numbers.{row_word};
ghost use Rattle.region_table.specs.Tables.{origin_from};
ghost use Rattle.fb_words.specs.Clips.{look_of, looked_in, slot_in, kept, Sees};
ghost use Rattle.fb_words.specs.Steps.{or_first};
ghost use Rattle.fb_words.specs.Looks.{OnlyLooks};
ghost use Rattle.display_lock.specs.Turns.{IsOpen, SameTurn, client_in};
ghost use Rattle.clip_refetch.specs.Clips.{new_clip, AreFetched, IsFresh, IsKnown, LooksAtRow, Refreshes};

use display_lock::PaintTurn;
use qws_base::{OutOfMemory, Point, Rect};
use region_table::{row_at, unpack};
use std::alloc::Global;
use std::marker::Model;

// The most rectangles of a row.
const ROOM: usize = 256;

/// What a refresh found.
#[derive(Clone, Copy, Debug, PartialEq, Eq)]
pub enum Look {
    /// The revision is the clip's.
    Current,
    /// The row was fetched: the revision before, and the one now.
    Fetched { was: u64, now: u64 },
    /// The slot has another owner: its owner word.
    Gone { owner_word: u64 },
}

/// A painter's copy of a slot's row: its revision, its origin and its pixels. It has room for the longest row.
#[derive(Debug, Drop)]
pub struct Clip {
    slot: u32,
    revision: u64,
    origin: Point,
    rects: Vec<Rect>,
}

impl Model for Clip {
    ghost use Rattle.std.specs.Prelude.{◌<◌, ◌≤◌, vec_capacity};
    ghost use Rattle.clip_refetch.specs.Clips.{ClipView};

    ghost Value = { ClipView };

    ghost view = { λ c. record { slot = c.slot; revision = c.revision; origin = c.origin; rects = c.rects.items } };

    ghost invariant = { λ c. (c.slot < 33) × (256 ≤ vec_capacity c.rects) };
}

// The origin that a word spells.
fn origin_of(word: u64) -> Point
    requires { IsPlaced (origin_from word) }
    ensures { result ≡ origin_from word }
{
    Point {
        x: (word % 65536) as i32 - 32768,
        y: (word / 65536) as i32 - 32768,
    }
}

// Fetches the rectangles of a row, whose words begin at `first`.
fn fetch(rects: &mut Vec<Rect>, turn: &mut PaintTurn, first: u64, count: u64)
    requires open { IsOpen turn.old }
    requires present { Sees (client_in turn.old) }
    requires words { (2052 ≤ first) × (first + count ≤ 10632) }
    requires room { count ≤ vec_capacity rects.old }
    ensures same { SameTurn turn.old turn.new }
    ensures open { IsOpen turn.new }
    ensures looks { OnlyLooks first (first + count) (client_in turn.old) (client_in turn.new) }
    ensures present { Sees (client_in turn.new) }
    ensures fetched { AreFetched (looked_in (client_in turn.new).mode) first count rects.new.items }
    ensures capacity { vec_capacity rects.old ≤ vec_capacity rects.new }
{
    rects.clear();
    for place in 0..count {
        let word = turn.look(first + place);
        let _ = rects.push(unpack(word));
    }
}

impl Clip {
    /// A clip of a slot, 0 to 32, with revision 0, the origin (0, 0) and no pixels. It has room for 256 rectangles.
    pub fn new(alloc: Global, slot: u32) -> Result<Clip, OutOfMemory>
        requires { slot < 33 }
        ensures { IfOk result (λ clip. clip ≡ new_clip slot) }
    {
        Ok(Clip {
            slot,
            revision: 0,
            origin: Point { x: 0, y: 0 },
            rects: Vec::with_capacity(alloc, ROOM)?,
        })
    }

    /// The slot.
    pub fn slot(&self) -> u32
        ensures value { result ≡ self.now.slot }
        ensures range { result < 33 }
    {
        self.slot
    }

    /// The revision, 0 in a new clip alone.
    pub fn revision(&self) -> u64
        ensures { result ≡ self.now.revision }
    {
        self.revision
    }

    /// The place of the slot's origin on the screen.
    pub fn origin(&self) -> Point
        ensures { result ≡ self.now.origin }
    {
        self.origin
    }

    /// The pixels of the slot, as rectangles on the screen.
    pub fn rects(&self) -> &[Rect]
        ensures { result.now ≡ self.now.rects }
    {
        &self.rects
    }

    // Fetches the row, whose revision and owner were looked at.
    fn fetch_row(&mut self, turn: &mut PaintTurn, revision: u64)
        requires open { IsOpen turn.old }
        requires revision { look_of (looked_in (client_in turn.old).mode) (row_word self.old.slot + 1) ≡ Some revision }
        requires owner { look_of (looked_in (client_in turn.old).mode) (row_word self.old.slot) ≡ Some ((client_in turn.old).number + 1) }
        ensures same { SameTurn turn.old turn.new }
        ensures open { IsOpen turn.new }
        ensures looks { LooksAtRow self.old.slot (client_in turn.old) (client_in turn.new) }
        ensures present { Sees (client_in turn.new) }
        ensures fresh { IsFresh (client_in turn.new) self.new }
        ensures slot { self.new.slot ≡ self.old.slot }
        ensures revision { self.new.revision ≡ revision }
    {
        let row = row_at(self.slot);
        let origin = turn.look(row + 2);
        let count = turn.look(row + 3);
        fetch(&mut self.rects, turn, row + 4, count);
        self.origin = origin_of(origin);
        self.revision = revision;
    }

    /// Makes the clip the published row of its slot. It is new, or what the turn's client keeps for its slot. It looks at the
    /// row's revision. Current comes exactly where that is the clip's, and it looks at nothing else then. Where it differs the
    /// owner is looked at: Gone comes exactly where it isn't the client; the clip is unchanged then. Else the row is fetched.
    /// Nothing is added to the turn's log, and what the client keeps for other slots stays. It takes no memory.
    pub fn refresh(&mut self, turn: &mut PaintTurn) -> Look
        requires open { IsOpen turn.old }
        requires known { IsKnown (client_in turn.old) self.old }
        ensures same { SameTurn turn.old turn.new }
        ensures open { IsOpen turn.new }
        ensures looks { LooksAtRow self.old.slot (client_in turn.old) (client_in turn.new) }
        ensures present { Sees (client_in turn.new) }
        ensures answer { Refreshes (client_in turn.old) (client_in turn.new) self.old self.new result }
        ensures slot { self.new.slot ≡ self.old.slot }
        ensures turn_slot { slot_in (client_in turn.new).mode ≡ or_first (slot_in (client_in turn.old).mode) (Some self.old.slot) }
        ensures others { (slot : ℕ) → slot ≢ self.old.slot → kept (client_in turn.new) slot ≡ kept (client_in turn.old) slot }
    {
        let row = row_at(self.slot);
        let now = turn.look(row + 1);
        if now == self.revision {
            return Look::Current;
        }
        let owner_word = turn.look(row);
        if owner_word != u64::from(turn.client()) + 1 {
            return Look::Gone { owner_word };
        }
        let was = self.revision;
        self.fetch_row(turn, now);
        Look::Fetched { was, now }
    }
}
