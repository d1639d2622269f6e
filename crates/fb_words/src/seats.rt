//! Making the words, and seats that leave the head's and come back.
ghost use Rattle.std.specs.Prelude.{◌≡◌, ◌+◌, ◌*◌, ◌<◌, ◌≤◌, ◌^◌, [], ◌∷◌, ◌++◌, length, map, replicate, IfOk, IfErr, OnErr};
ghost use Rattle.std.specs.List.{range_with_len};
ghost use Rattle.qws_base.specs.Scenes.{setting_of};
ghost use Rattle.qws_base.specs.Points.{pixel_count};
ghost use Rattle.qws_base.specs.Colours.{IsSceneColour};
ghost use Rattle.fb_words.specs.declared.known.Mode.TheVariants.{Idle};
ghost use Rattle.region_table.specs.Opening.{opening_word};
ghost use Rattle.turn_logs.specs.Tables.{opening_words};
ghost use Rattle.region_table.specs.Numbers.{first_pixel};
ghost use Rattle.fb_words.specs.Views.{opening_server, is_client, books_in, without, client_of};
ghost use Rattle.turn_logs.specs.Lists.{total};
ghost use Rattle.fb_words.specs.Steps.{with_limit, fresh, AllSit, SitOnce, AllIdle, AllHere, Knows, arranged, SitsAs};

use crate::known::ScreenSetting;
use crate::plays::{Admits, Number, Rises, Sits, Tells};
use crate::screen::Screen;
use crate::tokens::{Head, Pass, Stub};
use atomic_table::Table;
use qws_base::{Book, Depth, OutOfMemory, Rgb, Size, narrow};
use region_table::{FIRST_PIXEL, FIRST_ROW, GATE, ROW_SIZE};
use std::alloc::Global;
use std::marker::Brand;

// The word of the origin (0, 0).
const ORIGIN: u64 = 2_147_516_416;

// The opening value of a word before the framebuffer.
fn opening_word(index: usize) -> u64
    ensures { result ≡ opening_word index }
{
    if index < FIRST_ROW as usize {
        return 0;
    }
    match (index - FIRST_ROW as usize) % ROW_SIZE as usize {
        1 => 1,
        2 => ORIGIN,
        _ => 0,
    }
}

// The first words, with their opening values.
fn opening_table(alloc: Global, count: usize) -> Result<Vec<u64>, OutOfMemory>
    ensures { IfOk result (λ words. words.items ≡ opening_words count) }
{
    let mut words = Vec::new(alloc);
    for index in 0..count {
        words.push(opening_word(index))?;
    }
    Ok(words)
}

// The opening table, and the backdrop in so many framebuffer words.
fn opening_screen(
    alloc: Global,
    count: usize,
    pixels: usize,
    backdrop: u64,
) -> Result<Vec<u64>, OutOfMemory>
    requires { count + pixels < 2 ^ 60 }
    ensures { IfOk result (λ words. words.items ≡ opening_words count ++ replicate pixels backdrop) }
{
    let mut words = opening_table(alloc, count)?;
    words.resize(count + pixels, backdrop)?;
    Ok(words)
}

// The setting of a screen whose backdrop is given as a colour.
fn setting(size: Size, depth: Depth, colour: Rgb) -> ScreenSetting
    ensures value { result ≡ setting_of size depth colour }
    ensures colour { IsSceneColour depth result.backdrop }
{
    let _range = colour.value();
    let backdrop = match depth {
        Depth::Full => colour,
        Depth::Narrow => narrow(colour),
    };
    ScreenSetting {
        size,
        depth,
        backdrop,
    }
}

impl Screen {
    /// The words of a new screen, with their opening values, and its head. The backdrop is given as a colour of 24 bits; each
    /// framebuffer word has its scene colour.
    pub fn new(
        alloc: Global,
        size: Size,
        depth: Depth,
        backdrop: Rgb,
    ) -> Result<(Screen, Head), OutOfMemory>
        ensures setting { IfOk result (λ made. made.0.setting ≡ setting_of size depth backdrop) }
        ensures head { IfOk result (λ made. made.1 ≡ record { screen = made.0; server = opening_server (setting_of size depth backdrop); sitting = [] }) }
    {
        let setting = setting(size, depth, backdrop);
        let pixels = size.w() as usize * size.h() as usize;
        let words = opening_screen(
            alloc,
            FIRST_PIXEL as usize,
            pixels,
            u64::from(setting.backdrop.value()),
        )?;
        let (table, seat) = Table::of_words(alloc, words.as_slice(), &setting)?;
        Ok((
            Screen { setting, table },
            Head {
                admitted: 0,
                closing: false,
                seen: [0; 16],
                seat,
            },
        ))
    }

    fn admit_as<N: Number>(&self, head: &mut Head, step_limit: u64, book: Book) -> Pass
        requires limit { step_limit ≡ N.number }
        requires screen { head.old.screen ≡ self.now }
        requires room { length head.old.server.limits < 16 }
        requires book { book ≡ record { client = length head.old.server.limits; limit = book.limit; entries = [] } }
        ensures head { head.new ≡ record head.old { server = with_limit head.old.server step_limit } }
        ensures pass { result ≡ record { screen = self.now; client = fresh head.old.server.setting (length head.old.server.limits) step_limit; book_limit = book.limit } }
    {
        let seat = self.table.shared.split_seat::<Admits<N>>(&mut head.seat);
        head.admitted += 1;
        Pass {
            book,
            seen: 0,
            seat,
        }
    }

    /// Admits the next client, with room in its book for so many entries. After want of memory the head is as before.
    pub fn admit(
        &self,
        alloc: Global,
        head: &mut Head,
        step_limit: u64,
        book_limit: u64,
    ) -> Result<Pass, OutOfMemory>
        requires screen { head.old.screen ≡ self.now }
        requires room { length head.old.server.limits < 16 }
        ensures head { IfOk result (λ _. head.new ≡ record head.old { server = with_limit head.old.server step_limit }) }
        ensures pass { IfOk result (λ pass. pass ≡ record { screen = self.now; client = fresh head.old.server.setting (length head.old.server.limits) step_limit; book_limit = book_limit }) }
        ensures same { OnErr result (head.new ≡ head.old) }
    {
        let book = Book::new(alloc, head.admitted, book_limit)?;
        Ok(self.admit_as::<Brand>(head, step_limit, book))
    }

    /// The client's part sits with the head. One load of the gate word, which changes nothing, tells what the rule says of the
    /// clients that sit: their step limits, their own steps among the closed turns, the order of their calls, their kept clips,
    /// and that none sits twice. None that sits is in a turn. Where all admitted clients sit then, all closed turns are known.
    pub fn sit(&self, head: &mut Head, pass: Pass) -> Stub
        requires screens { (head.old.screen ≡ self.now) × (pass.screen ≡ self.now) }
        requires idle { pass.client.mode ≡ Idle }
        ensures head { head.new ≡ record head.old { sitting = head.old.sitting ++ pass.client ∷ [] } }
        ensures known { AllSit head.new.server head.new.sitting }
        ensures once { SitOnce head.new.sitting }
        ensures all_idle { AllIdle head.new.sitting }
        ensures whole { length head.new.sitting ≡ length head.new.server.limits → AllHere head.new.server head.new.sitting }
        ensures all { AllHere head.new.server head.new.sitting → Knows head.new.server (arranged (length head.new.server.limits) head.new.sitting) }
        ensures stub { result ≡ record { client = pass.client.number; limit = pass.book_limit; entries = books_in pass.client.own } }
    {
        let Pass { book, seen, seat } = pass;
        self.table.shared.join_seat::<Sits>(&mut head.seat, seat);
        self.table
            .shared
            .load::<Tells>(&mut head.seat, GATE as usize);
        head.seen[book.client() as usize] = seen;
        Stub { book }
    }

    fn rise_as<N: Number>(&self, head: &mut Head, stub: Stub) -> Pass
        requires number { stub.client ≡ N.number }
        requires screen { head.old.screen ≡ self.now }
        requires sits { SitsAs stub head.old.sitting }
        ensures head { head.new ≡ record head.old { sitting = without stub.client head.old.sitting } }
        ensures pass { result ≡ record { screen = record self.now { setting = (client_of stub.client head.old.sitting).setting }; client = client_of stub.client head.old.sitting; book_limit = stub.limit } }
        ensures idle { result.client.mode ≡ Idle }
    {
        let seat = self.table.shared.split_seat::<Rises<N>>(&mut head.seat);
        let Stub { book } = stub;
        let seen = head.seen[book.client() as usize];
        Pass { book, seen, seat }
    }

    /// The client's part leaves the head's seat, in no turn.
    pub fn rise(&self, head: &mut Head, stub: Stub) -> Pass
        requires screen { head.old.screen ≡ self.now }
        requires sits { SitsAs stub head.old.sitting }
        ensures head { head.new ≡ record head.old { sitting = without stub.client head.old.sitting } }
        ensures pass { result ≡ record { screen = record self.now { setting = (client_of stub.client head.old.sitting).setting }; client = client_of stub.client head.old.sitting; book_limit = stub.limit } }
        ensures idle { result.client.mode ≡ Idle }
    {
        self.rise_as::<Brand>(head, stub)
    }
}
