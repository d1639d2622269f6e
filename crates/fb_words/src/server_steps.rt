//! The steps of the head.
ghost use Rattle.std.specs.Prelude.{◌≡◌, ◌+◌, ◌<◌, ◌≤◌, ◌^◌, length, map, slice_index, MatchResult};
ghost use Rattle.qws_base.specs.Points.{pixel_count};
ghost use Rattle.qws_base.specs.Colours.{IsSceneColour};
ghost use Rattle.region_table.specs.Numbers.{closed_gate, first_pixel, IsLineWord};
ghost use Rattle.fb_words.specs.declared.known.ServerMode.TheVariants.{Resting, Closing, Writing};
ghost use Rattle.turn_logs.specs.Lists.{total};
ghost use Rattle.fb_words.specs.Views.{is_client};
ghost use Rattle.fb_words.specs.Steps.{after_announce, after_settle, after_withdraw, after_read, after_write, IsNextTable, CarriesAtGive, after_give, with_step, AllHere, Knows, ReadTells, IsBetweenTurns, arranged, SitsAs};
ghost use Rattle.qws_base.specs.Books.{BookView};
ghost use Rattle.fb_words.specs.Clips.{EachKeepsClips};

use crate::plays::{Announces, Entry, Gives, Reads, Settles, Withdraws, Writes};
use crate::screen::Screen;
use crate::tokens::Head;
use qws_base::JournalEntry;
use region_table::{CLOSED_GATE, GATE};
use std::marker::Brand;

impl Screen {
    /// Closes the gate, so that no painter that enters later is let in, and answers the word that it found.
    pub fn announce(&self, head: &mut Head) -> u64
        requires screen { head.old.screen ≡ self.now }
        requires resting { head.old.server.mode ≡ Resting }
        ensures head { head.new ≡ record head.old { server = after_announce head.old.server } }
        ensures found { result < closed_gate }
    {
        let found = self
            .table
            .shared
            .fetch_or::<Announces>(&mut head.seat, GATE as usize, CLOSED_GATE);
        head.closing = true;
        found
    }

    /// Opens the turn where no painter is in, or refused and not back yet; else the answer is the word that it found. A turn
    /// opens with an empty log, and with the last closed table as its present one. Where all admitted clients sit, the turn is
    /// opened, and all closed turns are known.
    pub fn settle(&self, head: &mut Head) -> Result<(), u64>
        requires screen { head.old.screen ≡ self.now }
        requires closing { head.old.server.mode ≡ Closing }
        ensures head { MatchResult result (λ _. head.new ≡ record head.old { server = after_settle head.old.server closed_gate }) (λ n. (n ≡ closed_gate → ⊥) × (head.new ≡ record head.old { server = after_settle head.old.server n })) }
        ensures between { IsBetweenTurns head.new.server }
        ensures setting { head.old.server.setting ≡ self.now.setting }
        ensures free { MatchResult result (λ _. Unit {0}) (λ n. AllHere head.old.server head.old.sitting → ⊥) }
        ensures known { AllHere head.old.server head.old.sitting → Knows head.old.server (arranged (length head.old.server.limits) head.old.sitting) }
    {
        let found = self
            .table
            .shared
            .load::<Settles>(&mut head.seat, GATE as usize);
        if found != CLOSED_GATE {
            return Err(found);
        }
        head.closing = false;
        Ok(())
    }

    /// Opens the gate again, without a turn.
    pub fn withdraw(&self, head: &mut Head)
        requires screen { head.old.screen ≡ self.now }
        requires closing { head.old.server.mode ≡ Closing }
        ensures { head.new ≡ record head.old { server = after_withdraw head.old.server } }
    {
        self.table
            .shared
            .fetch_sub::<Withdraws>(&mut head.seat, GATE as usize, CLOSED_GATE);
        head.closing = false;
    }

    /// Reads a word other than the gate, in the server's turn. A table word is the present one. A framebuffer word or a saved
    /// word is a scene colour, and where all admitted clients sit it is what the word's line has written.
    pub fn read(&self, head: &mut Head, word: u64) -> u64
        requires screen { head.old.screen ≡ self.now }
        requires writing { head.old.server.mode ≡ Writing }
        requires word { (1 ≤ word) × (word < first_pixel + pixel_count self.now.setting.size) }
        ensures head { head.new ≡ record head.old { server = after_read head.old.server word result } }
        ensures tells { ReadTells head.old.server head.old.sitting word result }
    {
        self.table
            .shared
            .load::<Reads>(&mut head.seat, word as usize)
    }

    /// Writes a word other than the gate, in the server's turn. Into a framebuffer word or a saved word goes a scene colour.
    pub fn write(&self, head: &mut Head, word: u64, value: u64)
        requires screen { head.old.screen ≡ self.now }
        requires writing { head.old.server.mode ≡ Writing }
        requires word { (1 ≤ word) × (word < first_pixel + pixel_count self.now.setting.size) }
        requires colour { IsLineWord word → IsSceneColour head.old.server.setting.depth value }
        ensures { head.new ≡ record head.old { server = after_write head.old.server word value } }
    {
        self.table
            .shared
            .store::<Writes>(&mut head.seat, word as usize, value)
    }

    fn give_as<E: Entry>(&self, head: &mut Head, entry: &JournalEntry)
        requires entry { entry.now ≡ E.entry }
        requires screen { head.old.screen ≡ self.now }
        requires writing { head.old.server.mode ≡ Writing }
        requires next { entry.now.number ≡ length head.old.server.closed + 1 }
        requires sits { 1 ≤ total (is_client entry.now.client) head.old.sitting }
        requires table { IsNextTable head.old.server }
        requires carries { CarriesAtGive head.old.server entry.now }
        ensures { head.new ≡ record head.old { server = after_give head.old.server entry.now; sitting = map (with_step entry.now) head.old.sitting } }
    {
        self.table
            .shared
            .fetch_sub::<Gives<E>>(&mut head.seat, GATE as usize, CLOSED_GATE);
        head.seen[entry.client as usize] = entry.number;
    }

    /// Closes the turn with its entry, which has the next number. Its client sits with the head, and has the step among its
    /// own calls, and its number as what it has seen. The present table has the next number too, and follows the last closed
    /// one; the turn's log carries the step from that one to it. Kept clips stay.
    pub fn give(&self, head: &mut Head, entry: &JournalEntry)
        requires screen { head.old.screen ≡ self.now }
        requires writing { head.old.server.mode ≡ Writing }
        requires next { entry.now.number ≡ length head.old.server.closed + 1 }
        requires sits { 1 ≤ total (is_client entry.now.client) head.old.sitting }
        requires table { IsNextTable head.old.server }
        requires carries { CarriesAtGive head.old.server entry.now }
        ensures head { head.new ≡ record head.old { server = after_give head.old.server entry.now; sitting = map (with_step entry.now) head.old.sitting } }
        ensures kept { EachKeepsClips head.old.sitting head.new.sitting }
        ensures stubs { (stub : BookView) → SitsAs stub head.old.sitting → SitsAs stub head.new.sitting }
    {
        self.give_as::<Brand>(head, entry);
    }
}
