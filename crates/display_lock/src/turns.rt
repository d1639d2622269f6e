//! Turns. A turn borrows its token, and has to be ended.
ghost use Rattle.std.specs.Prelude.{◌≡◌, ◌+◌, ◌<◌, ◌≤◌, ◌^◌, false, ℕ, Some, length, map, slice_index, IfOk, IfErr, MatchResult};
ghost use Rattle.std.specs.Borrow.{sem, RestsIfErr};
ghost use Rattle.fb_words.specs.declared.known.Mode.TheVariants.{Idle};
ghost use Rattle.fb_words.specs.declared.known.ServerMode.TheVariants.{Resting, Closing, Writing};
ghost use Rattle.qws_base.specs.Points.{pixel_count};
ghost use Rattle.qws_base.specs.Colours.{IsSceneColour};
ghost use Rattle.region_table.specs.Numbers.{closed_gate, stamp_at, first_pixel, IsLineWord};
ghost use Rattle.fb_words.specs.Rights.{Owns};
ghost use Rattle.turn_logs.specs.declared.items.Item.TheVariants.{Pick, Put};
ghost use Rattle.region_table.specs.Numbers.{IsTableWord, row_word};
ghost use Rattle.fb_words.specs.declared.known.KeptClip.{KeptClip};
ghost use Rattle.fb_words.specs.Clips.{look_of, looked_in, slot_in, spelled, kept, IsOutsideRow, KeepsClips, EachKeepsClips, Sees};
ghost use Rattle.turn_logs.specs.Lists.{total};
ghost use Rattle.fb_words.specs.Views.{is_client, is_writing, books_in};
ghost use Rattle.fb_words.specs.Steps.{after_look, after_item, CarriesAtEnd, CarriesAtGive, ReadTells, Knows, arranged, paint_call, after_leave, IsEntryOf, after_announce, after_read, after_write, IsNextTable, after_give, with_step, AllHere, IsBetweenTurns, SitsAs};
ghost use Rattle.qws_base.specs.Books.{BookView};
ghost use Rattle.fb_words.specs.contracts.tokens.Pass as pass_of;
ghost use Rattle.fb_words.specs.contracts.tokens.Head as head_of;
ghost use Rattle.display_lock.specs.Turns.{IsTurned, IsOpen, SameTurn, client_in, turned_away, let_in, IsShutOut, SameServerTurn, IsOpenServer, shut_out, opened, withdrawn};

use fb_words::{Head, Pass, Screen};
use qws_base::{BookEntry, JournalEntry, Picture};
use region_table::{CLOSED_GATE, STAMP};

/// The lock was taken: the gate word that was found.
#[derive(Debug, Drop)]
pub struct Busy {
    pub found: u64,
}

/// An open turn of a painter.
pub struct PaintTurn<'a> {
    screen: &'a Screen,
    pass: &'a mut Pass,
    stamp: u64,
}

/// An open turn of the server.
pub struct ServerTurn<'a> {
    screen: &'a Screen,
    head: &'a mut Head,
}

// Enters and looks at the stamp, or is turned away.
fn get_in(screen: &Screen, pass: &mut Pass) -> Result<u64, Busy>
    requires screen { pass.old.screen ≡ screen.now }
    requires idle { pass.old.client.mode ≡ Idle }
    ensures pass { MatchResult result (λ stamp. pass.new ≡ let_in pass.old stamp) (λ busy. pass.new ≡ turned_away pass.old busy.found) }
    ensures seen { IfOk result (λ stamp. (pass.old.client.seen ≤ stamp) × Sees (let_in pass.old stamp).client) }
    ensures found { IfErr result (λ busy. closed_gate ≤ busy.found) }
    ensures setting { pass.old.client.setting ≡ screen.now.setting }
    ensures kept { KeepsClips pass.old.client pass.new.client }
{
    let found = screen.enter(pass);
    if found >= CLOSED_GATE {
        screen.retreat(pass);
        return Err(Busy { found });
    }
    Ok(screen.look(pass, STAMP))
}

/// A painter's turn, which has looked at the stamp. `Busy` comes exactly where this call's enter found 2^32 or more: the
/// server has a turn open or has announced one. The enter is undone then, and the pass has the word that was found. What it
/// keeps for each slot stays either way.
pub fn try_paint_turn<'a>(pass: &'a mut Pass, screen: &'a Screen) -> Result<PaintTurn<'a>, Busy>
    requires screen { pass.old.screen ≡ screen.now }
    requires idle { pass.old.client.mode ≡ Idle }
    requires room { length (books_in pass.old.client.own) < pass.old.book_limit }
    ensures* refused { sem 𝓛 (RestsIfErr pass_of.the_row pass.entry (λ t. t.pass.ghost_name) result (IsTurned pass.old result)) }
    ensures same_reference { IfOk result (λ turn. turn.pass.ghost_name ≡ pass.entry.ghost_name) }
    ensures open { IfOk result (λ turn. (turn.screen.now ≡ screen.now) × (turn.pass.now ≡ let_in pass.old turn.stamp)) }
    ensures setting { pass.old.client.setting ≡ screen.now.setting }
    ensures seen { IfOk result (λ turn. (pass.old.client.seen ≤ turn.stamp) × Sees (let_in pass.old turn.stamp).client) }
    ensures found { IfErr result (λ busy. closed_gate ≤ busy.found) }
    ensures kept { MatchResult result (λ turn. KeepsClips pass.old.client (let_in pass.old turn.stamp).client) (λ busy. KeepsClips pass.old.client (turned_away pass.old busy.found).client) }
{
    let stamp = get_in(screen, pass)?;
    Ok(PaintTurn {
        screen,
        pass,
        stamp,
    })
}

impl<'a> PaintTurn<'a> {
    /// How many server turns were closed when it began.
    pub fn stamp(&self) -> u64
        ensures { result ≡ self.now.stamp }
    {
        self.stamp
    }

    /// The client's number.
    pub fn client(&self) -> u32
        ensures { result ≡ self.now.pass.now.client.number }
    {
        self.pass.client()
    }

    /// The screen that it paints on.
    pub fn screen(&self) -> &Screen
        ensures { result.now ≡ self.now.screen.now }
    {
        self.screen
    }

    /// Looks at a table word, and answers its value, the same at each look of the turn. It is found among the looked words from
    /// then on. The stamp is the turn's; a revision is at least 1 and at least the kept one, and a number of rectangles at most
    /// 256. The first revision that is looked at fixes the turn's slot. Where the looked words spell the whole row of that slot,
    /// and the client owns it, the row is the slot's kept clip from then on; those of other slots stay, and so does that of
    /// each slot of whose row the word isn't.
    pub fn look(&mut self, word: u64) -> u64
        requires open { IsOpen self.old }
        requires table { IsTableWord word }
        ensures same { SameTurn self.old self.new }
        ensures open { IsOpen self.new }
        ensures pass { client_in self.new ≡ after_look (client_in self.old) word result }
        ensures present { Sees (client_in self.new) }
        ensures value { (value : ℕ) → look_of (looked_in (client_in self.old).mode) word ≡ Some value → result ≡ value }
        ensures found { look_of (looked_in (client_in self.new).mode) word ≡ Some result }
        ensures stays { (other value : ℕ) → look_of (looked_in (client_in self.old).mode) other ≡ Some value → look_of (looked_in (client_in self.new).mode) other ≡ Some value }
        ensures from_one { (slot : ℕ) → slot < 33 → word ≡ row_word slot + 1 → 1 ≤ result }
        ensures revision { (slot : ℕ) (clip : KeptClip) → slot < 33 → word ≡ row_word slot + 1 → kept (client_in self.old) slot ≡ Some clip → clip.revision ≤ result }
        ensures stamp { word ≡ stamp_at → result ≡ self.old.stamp }
        ensures count { (slot : ℕ) → slot < 33 → word ≡ row_word slot + 3 → result ≤ 256 }
        ensures row { (slot : ℕ) (clip : KeptClip) → slot_in (client_in self.new).mode ≡ Some slot → spelled (client_in self.new).number slot (looked_in (client_in self.new).mode) ≡ Some clip → kept (client_in self.new) slot ≡ Some clip }
        ensures kept { (slot : ℕ) → (slot_in (client_in self.new).mode ≡ Some slot → ⊥) → kept (client_in self.new) slot ≡ kept (client_in self.old) slot }
        ensures away { (slot : ℕ) → IsOutsideRow slot word → kept (client_in self.new) slot ≡ kept (client_in self.old) slot }
        ensures current { (slot : ℕ) (clip : KeptClip) → slot_in (client_in self.new).mode ≡ Some slot → kept (client_in self.old) slot ≡ Some clip → look_of (looked_in (client_in self.new).mode) (row_word slot + 1) ≡ Some clip.revision → kept (client_in self.new) slot ≡ Some clip }
        ensures owns { (x : ℕ) → Owns (client_in self.old) x → Owns (client_in self.new) x }
    {
        self.screen.look(self.pass, word)
    }

    /// Reads a framebuffer word or a saved word that the turn owns.
    pub fn pick(&mut self, word: u64) -> u64
        requires open { IsOpen self.old }
        requires owns { Owns (client_in self.old) word }
        ensures same { SameTurn self.old self.new }
        ensures open { IsOpen self.new }
        ensures pass { client_in self.new ≡ after_item (client_in self.old) (Pick word result) }
        ensures kept { KeepsClips (client_in self.old) (client_in self.new) }
        ensures colour { IsSceneColour (client_in self.old).setting.depth result }
    {
        self.screen.pick(self.pass, word)
    }

    /// Writes a framebuffer word or a saved word that the turn owns.
    pub fn put(&mut self, word: u64, value: u64)
        requires open { IsOpen self.old }
        requires owns { Owns (client_in self.old) word }
        requires colour { IsSceneColour (client_in self.old).setting.depth value }
        ensures same { SameTurn self.old self.new }
        ensures open { IsOpen self.new }
        ensures pass { client_in self.new ≡ after_item (client_in self.old) (Put word value) }
        ensures kept { KeepsClips (client_in self.old) (client_in self.new) }
    {
        self.screen.put(self.pass, word, value);
    }

    /// Closes the turn with its entry, which goes into the book, and with the sheet of the picture. The turn's log carries the
    /// paint, and the reply is the paint's, whatever the table is of which the turn has looked at a part. What is kept for each
    /// slot stays.
    pub fn end<P: Picture>(self, entry: BookEntry, picture: &P)
        requires open { IsOpen self }
        requires entry { IsEntryOf self.pass.now.client entry }
        requires room { length (books_in self.pass.now.client.own) < self.pass.now.book_limit }
        requires carries { CarriesAtEnd self.pass.now.client entry (P.sheet picture.now) }
        ensures pass { self.exit.1.0.now ≡ record self.entry.pass.now { client = after_leave self.entry.pass.now.client (paint_call self.entry.pass.now.client entry (P.sheet picture.now)) } }
        ensures kept { KeepsClips self.entry.pass.now.client self.exit.1.0.now.client }
    {
        let PaintTurn {
            screen,
            pass,
            stamp: _,
        } = self;
        screen.leave(pass, entry, picture);
    }
}

// Announces the server where that is not done yet.
fn close(screen: &Screen, head: &mut Head)
    requires screen { head.old.screen ≡ screen.now }
    requires not_writing { is_writing head.old.server.mode ≡ false }
    ensures { head.new ≡ record head.old { server = after_announce head.old.server } }
{
    if !head.is_closing() {
        screen.announce(head);
    }
}

// Announces and settles once.
fn take_over(screen: &Screen, head: &mut Head) -> Result<(), Busy>
    requires screen { head.old.screen ≡ screen.now }
    requires not_writing { is_writing head.old.server.mode ≡ false }
    ensures head { MatchResult result (λ _. head.new ≡ opened head.old) (λ busy. head.new ≡ shut_out head.old busy.found) }
    ensures found { IfErr result (λ busy. busy.found ≡ closed_gate → ⊥) }
    ensures between { IsBetweenTurns head.old.server }
    ensures setting { head.old.server.setting ≡ screen.now.setting }
    ensures free { IfErr result (λ busy. AllHere head.old.server head.old.sitting → ⊥) }
    ensures known { AllHere head.old.server head.old.sitting → Knows head.old.server (arranged (length head.old.server.limits) head.old.sitting) }
{
    close(screen, head);
    match screen.settle(head) {
        Ok(()) => Ok(()),
        Err(found) => Err(Busy { found }),
    }
}

/// The server's turn. It announces the server where that is not done yet, and settles once. `Busy` comes exactly where the
/// settle found a word other than 2^32: painters are in, or were refused and aren't back yet. The gate stays closed then,
/// and the head has the word that was found. It doesn't come where all admitted clients sit; all closed turns are known then.
/// The turn opens with an empty log, and with the last closed table as its present one.
pub fn try_server_turn<'a>(head: &'a mut Head, screen: &'a Screen) -> Result<ServerTurn<'a>, Busy>
    requires screen { head.old.screen ≡ screen.now }
    requires not_writing { is_writing head.old.server.mode ≡ false }
    ensures* refused { sem 𝓛 (RestsIfErr head_of.the_row head.entry (λ t. t.head.ghost_name) result (IsShutOut head.old result)) }
    ensures same_reference { IfOk result (λ turn. turn.head.ghost_name ≡ head.entry.ghost_name) }
    ensures open { IfOk result (λ turn. (turn.screen.now ≡ screen.now) × (turn.head.now ≡ opened head.old)) }
    ensures found { IfErr result (λ busy. busy.found ≡ closed_gate → ⊥) }
    ensures between { IsBetweenTurns head.old.server }
    ensures setting { head.old.server.setting ≡ screen.now.setting }
    ensures free { IfErr result (λ busy. AllHere head.old.server head.old.sitting → ⊥) }
    ensures known { AllHere head.old.server head.old.sitting → Knows head.old.server (arranged (length head.old.server.limits) head.old.sitting) }
{
    take_over(screen, head)?;
    Ok(ServerTurn { screen, head })
}

impl<'a> ServerTurn<'a> {
    /// Reads a word other than the gate. A table word is the present one. A framebuffer word or a saved word is a scene colour,
    /// and where all admitted clients sit it is what the word's line has written.
    pub fn read(&mut self, word: u64) -> u64
        requires open { IsOpenServer self.old }
        requires word { (1 ≤ word) × (word < first_pixel + pixel_count self.old.screen.now.setting.size) }
        ensures same { SameServerTurn self.old self.new }
        ensures open { IsOpenServer self.new }
        ensures head { self.new.head.now ≡ record self.old.head.now { server = after_read self.old.head.now.server word result } }
        ensures tells { ReadTells self.old.head.now.server self.old.head.now.sitting word result }
    {
        self.screen.read(self.head, word)
    }

    /// Writes a word other than the gate. Into a framebuffer word or a saved word goes a scene colour.
    pub fn write(&mut self, word: u64, value: u64)
        requires open { IsOpenServer self.old }
        requires word { (1 ≤ word) × (word < first_pixel + pixel_count self.old.screen.now.setting.size) }
        requires colour { IsLineWord word → IsSceneColour self.old.head.now.server.setting.depth value }
        ensures same { SameServerTurn self.old self.new }
        ensures open { IsOpenServer self.new }
        ensures head { self.new.head.now ≡ record self.old.head.now { server = after_write self.old.head.now.server word value } }
    {
        self.screen.write(self.head, word, value);
    }

    /// Ends the turn with its entry, which has the next number. Its client sits with the head. The present table has the next
    /// number too, and follows the last closed one; the turn's log carries the step from that one to it. Kept clips stay.
    pub fn end(self, entry: &JournalEntry)
        requires open { IsOpenServer self }
        requires next { entry.now.number ≡ length self.head.now.server.closed + 1 }
        requires sits { 1 ≤ total (is_client entry.now.client) self.head.now.sitting }
        requires table { IsNextTable self.head.now.server }
        requires carries { CarriesAtGive self.head.now.server entry.now }
        ensures head { self.exit.1.0.now ≡ record self.entry.head.now { server = after_give self.entry.head.now.server entry.now; sitting = map (with_step entry.now) self.entry.head.now.sitting } }
        ensures kept { EachKeepsClips self.entry.head.now.sitting self.exit.1.0.now.sitting }
        ensures stubs { (stub : BookView) → SitsAs stub self.entry.head.now.sitting → SitsAs stub self.exit.1.0.now.sitting }
    {
        let ServerTurn { screen, head } = self;
        screen.give(head, entry);
    }

    /// The screen that it serves.
    pub fn screen(&self) -> &Screen
        ensures { result.now ≡ self.now.screen.now }
    {
        self.screen
    }
}

/// Opens the gate again where the server has announced itself; else it does nothing.
pub fn withdraw(screen: &Screen, head: &mut Head)
    requires screen { head.old.screen ≡ screen.now }
    ensures { head.new ≡ withdrawn head.old }
{
    if head.is_closing() {
        screen.withdraw(head);
    }
}
