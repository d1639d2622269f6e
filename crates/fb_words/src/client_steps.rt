//! The steps of a client.
ghost use Rattle.std.specs.Prelude.{◌≡◌, ℕ, ◌+◌, ◌<◌, ◌≤◌, Some, length};
ghost use Rattle.region_table.specs.Numbers.{stamp_at, IsTableWord, row_word};
ghost use Rattle.fb_words.specs.declared.known.KeptClip.{KeptClip};
ghost use Rattle.fb_words.specs.declared.known.Mode.TheVariants.{Idle, Refused};
ghost use Rattle.fb_words.specs.Clips.{look_of, looked_in, slot_in, spelled, kept, IsOutsideRow, KeepsClips, Sees};
ghost use Rattle.fb_words.specs.Views.{reading, books_in};
ghost use Rattle.fb_words.specs.Steps.{after_enter, after_retreat, after_look, after_item, paint_call, after_leave, IsEntryOf, CarriesAtEnd, IsTurnStamp};
ghost use Rattle.fb_words.specs.Rights.{Owns};
ghost use Rattle.qws_base.specs.Colours.{IsSceneColour};
ghost use Rattle.turn_logs.specs.declared.items.Item.TheVariants.{Pick, Put};

use crate::plays::{Enters, Leaves, Looks, Picks, Puts, Retreats, Turn};
use crate::screen::Screen;
use crate::tokens::Pass;
use qws_base::{BookEntry, Picture};
use region_table::GATE;
use std::marker::Brand;

impl Screen {
    /// Enters the gate, and answers the word that it found. The client is let in where that is below 2^32; else it is
    /// refused, and has to retreat.
    pub fn enter(&self, pass: &mut Pass) -> u64
        requires screen { pass.old.screen ≡ self.now }
        requires idle { pass.old.client.mode ≡ Idle }
        ensures pass { pass.new ≡ record pass.old { client = after_enter pass.old.client result } }
        ensures setting { pass.old.client.setting ≡ self.now.setting }
        ensures kept { KeepsClips pass.old.client pass.new.client }
    {
        self.table
            .shared
            .fetch_add::<Enters>(&mut pass.seat, GATE as usize, 1)
    }

    /// Undoes an enter that was refused.
    pub fn retreat(&self, pass: &mut Pass)
        requires screen { pass.old.screen ≡ self.now }
        requires refused { pass.old.client.mode ≡ Refused }
        ensures pass { pass.new ≡ record pass.old { client = after_retreat pass.old.client } }
        ensures kept { KeepsClips pass.old.client pass.new.client }
    {
        self.table
            .shared
            .fetch_sub::<Retreats>(&mut pass.seat, GATE as usize, 1);
    }

    /// Looks at a table word in the turn, and answers its value, the same at each look of the turn. It is found among the looked
    /// words from then on. A stamp is the turn's, and at least what the pass has seen; a revision is at least 1 and at least the
    /// kept one, and a number of rectangles at most 256. The first revision that is looked at fixes the turn's slot. Where the
    /// looked words spell the whole row of that slot, and the client owns it, the row is the slot's kept clip from then on;
    /// those of other slots stay, and so does that of each slot of whose row the word isn't.
    pub fn look(&self, pass: &mut Pass, word: u64) -> u64
        requires screen { pass.old.screen ≡ self.now }
        requires reading { reading pass.old.client ≡ 1 }
        requires table { IsTableWord word }
        ensures pass { pass.new ≡ record pass.old { client = after_look pass.old.client word result } }
        ensures present { Sees pass.new.client }
        ensures same { (value : ℕ) → look_of (looked_in pass.old.client.mode) word ≡ Some value → result ≡ value }
        ensures found { look_of (looked_in pass.new.client.mode) word ≡ Some result }
        ensures stays { (other value : ℕ) → look_of (looked_in pass.old.client.mode) other ≡ Some value → look_of (looked_in pass.new.client.mode) other ≡ Some value }
        ensures stamp { word ≡ stamp_at → pass.old.client.seen ≤ result }
        ensures turn_stamp { IsTurnStamp pass.new.client word result }
        ensures count { (slot : ℕ) → slot < 33 → word ≡ row_word slot + 3 → result ≤ 256 }
        ensures from_one { (slot : ℕ) → slot < 33 → word ≡ row_word slot + 1 → 1 ≤ result }
        ensures revision { (slot : ℕ) (clip : KeptClip) → slot < 33 → word ≡ row_word slot + 1 → kept pass.old.client slot ≡ Some clip → clip.revision ≤ result }
        ensures row { (slot : ℕ) (clip : KeptClip) → slot_in pass.new.client.mode ≡ Some slot → spelled pass.new.client.number slot (looked_in pass.new.client.mode) ≡ Some clip → kept pass.new.client slot ≡ Some clip }
        ensures kept { (slot : ℕ) → (slot_in pass.new.client.mode ≡ Some slot → ⊥) → kept pass.new.client slot ≡ kept pass.old.client slot }
        ensures away { (slot : ℕ) → IsOutsideRow slot word → kept pass.new.client slot ≡ kept pass.old.client slot }
        ensures current { (slot : ℕ) (clip : KeptClip) → slot_in pass.new.client.mode ≡ Some slot → kept pass.old.client slot ≡ Some clip → look_of (looked_in pass.new.client.mode) (row_word slot + 1) ≡ Some clip.revision → kept pass.new.client slot ≡ Some clip }
        ensures owns { (x : ℕ) → Owns pass.old.client x → Owns pass.new.client x }
    {
        self.table
            .shared
            .load::<Looks>(&mut pass.seat, word as usize)
    }

    /// Reads a framebuffer word or a saved word that the turn owns.
    pub fn pick(&self, pass: &mut Pass, word: u64) -> u64
        requires screen { pass.old.screen ≡ self.now }
        requires owns { Owns pass.old.client word }
        ensures pass { pass.new ≡ record pass.old { client = after_item pass.old.client (Pick word result) } }
        ensures kept { KeepsClips pass.old.client pass.new.client }
        ensures colour { IsSceneColour pass.old.client.setting.depth result }
    {
        self.table
            .shared
            .load::<Picks>(&mut pass.seat, word as usize)
    }

    /// Writes a framebuffer word or a saved word that the turn owns.
    pub fn put(&self, pass: &mut Pass, word: u64, value: u64)
        requires screen { pass.old.screen ≡ self.now }
        requires owns { Owns pass.old.client word }
        requires colour { IsSceneColour pass.old.client.setting.depth value }
        ensures pass { pass.new ≡ record pass.old { client = after_item pass.old.client (Put word value) } }
        ensures kept { KeepsClips pass.old.client pass.new.client }
    {
        self.table
            .shared
            .store::<Puts>(&mut pass.seat, word as usize, value)
    }

    fn leave_as<T: Turn, P: Picture>(&self, pass: &mut Pass, entry: BookEntry, picture: &P)
        requires turn { paint_call pass.old.client entry (P.sheet picture.now) ≡ T.turn }
        requires screen { pass.old.screen ≡ self.now }
        requires entry { IsEntryOf pass.old.client entry }
        requires room { length (books_in pass.old.client.own) < pass.old.book_limit }
        requires carries { CarriesAtEnd pass.old.client entry (P.sheet picture.now) }
        ensures { pass.new ≡ record pass.old { client = after_leave pass.old.client T.turn } }
    {
        self.table
            .shared
            .fetch_sub::<Leaves<T>>(&mut pass.seat, GATE as usize, 1);
        pass.seen = entry.stamp;
        pass.book.push(entry);
    }

    /// Closes the turn with its entry, which goes into the book, and with the sheet of the picture. The entry has the turn's
    /// stamp, and its slot where the turn has read or written a pixel. The turn's log carries the paint, and the reply is the
    /// paint's, whatever the table is of which the turn has looked at a part. What is kept for each slot stays: the row that
    /// the turn has looked at whole is stored. It takes no memory.
    pub fn leave<P: Picture>(&self, pass: &mut Pass, entry: BookEntry, picture: &P)
        requires screen { pass.old.screen ≡ self.now }
        requires entry { IsEntryOf pass.old.client entry }
        requires room { length (books_in pass.old.client.own) < pass.old.book_limit }
        requires carries { CarriesAtEnd pass.old.client entry (P.sheet picture.now) }
        ensures pass { pass.new ≡ record pass.old { client = after_leave pass.old.client (paint_call pass.old.client entry (P.sheet picture.now)) } }
        ensures kept { KeepsClips pass.old.client pass.new.client }
    {
        self.leave_as::<Brand, P>(pass, entry, picture);
    }
}
