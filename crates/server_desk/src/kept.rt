//! What a desk keeps: the state of the server, the journal, and the steps of each client.
ghost use Rattle.std.specs.Prelude.{◌≡◌, ◌+◌, ◌^◌, ◌<◌, ◌≤◌, [], length, IfOk, OnErr, OnOk, IfErr, MatchResult, vec_capacity};
ghost use Rattle.qws_base.specs.Scenes.{setting_of};
ghost use Rattle.fb_words.specs.Views.{opening_server};
ghost use Rattle.fb_words.specs.Steps.{with_limit, fresh};
ghost use Rattle.display_lock.specs.Turns.{withdrawn};
ghost use Rattle.server_desk.specs.Answers.{IsConnectStop};

use crate::answers::ConnectStop;
use display_lock::withdraw;
use fb_words::{Head, Pass, Screen, closed_turns_are_kept};
use qws_base::{Depth, JournalEntry, OutOfMemory, Rgb, Size};
use std::alloc::Global;
use std::marker::Model;
use step_turns::words_publish_states;
use window_core::Core;

/// How many clients can be connected.
pub(crate) const MOST_CLIENTS: u32 = 16;

// No journal has more entries.
const MOST_ENTRIES: u64 = 1 << 62;

/// The server part, the state that its closed turns lead to, and these turns as a journal, with room for the steps that each
/// client may still make. Contracts see the head.
#[derive(Drop)]
pub(crate) struct Kept {
    pub(crate) head: Head,
    pub(crate) core: Core,
    pub(crate) journal: Vec<JournalEntry>,
    pub(crate) connected: u32,
    pub(crate) made: [u64; 16],
    pub(crate) left: [u64; 16],
    pub(crate) room: u64,
}

impl Model for Kept {
    ghost use Rattle.std.specs.Prelude.{vec_capacity};
    ghost use Rattle.fb_words.specs.Views.{HeadView};
    ghost use Rattle.server_desk.specs.Keeping.{IsCurrent, IsListed};

    ghost Value = { HeadView };

    ghost view = { λ k. k.head };

    ghost invariant = { λ k. IsCurrent k.head k.core × IsListed k.head.server k.journal.items k.connected k.made k.left k.room (vec_capacity k.journal) };
}

// Room for so many more entries, besides that for some others.
fn reserve(journal: &mut Vec<JournalEntry>, room: u64, more: u64) -> Result<(), OutOfMemory>
    requires { length journal.old.items + room ≤ 2 ^ 62 }
    ensures items { journal.new.items ≡ journal.old.items }
    ensures keeps { vec_capacity journal.old ≤ vec_capacity journal.new }
    ensures fits { OnOk result (length journal.new.items + (room + more) ≤ vec_capacity journal.new) }
    ensures bounded { OnOk result (length journal.new.items + (room + more) ≤ 2 ^ 62) }
{
    if more > MOST_ENTRIES - room - journal.len() as u64 {
        return Err(OutOfMemory);
    }
    journal.reserve((room + more) as usize)?;
    Ok(())
}

impl Kept {
    /// The opening state, with the words of a new screen.
    pub(crate) fn new(
        alloc: Global,
        size: Size,
        depth: Depth,
        backdrop: Rgb,
    ) -> Result<(Screen, Kept), OutOfMemory>
        ensures setting { IfOk result (λ made. made.0.setting ≡ setting_of size depth backdrop) }
        ensures head { IfOk result (λ made. made.1 ≡ record { screen = made.0; server = opening_server (setting_of size depth backdrop); sitting = [] }) }
    {
        closed_turns_are_kept();
        words_publish_states();
        let _ = size.w();
        let core = Core::new(alloc, size, backdrop)?;
        let (screen, head) = Screen::new(alloc, size, depth, backdrop)?;
        Ok((
            screen,
            Kept {
                head,
                core,
                journal: Vec::new(alloc),
                connected: 0,
                made: [0; 16],
                left: [0; 16],
                room: 0,
            },
        ))
    }

    /// One client more, with room for its steps and its book.
    pub(crate) fn connect(
        &mut self,
        alloc: Global,
        screen: &Screen,
        step_limit: u64,
        book_limit: u64,
    ) -> Result<Pass, ConnectStop>
        requires screen { self.old.screen ≡ screen.now }
        ensures head { IfOk result (λ _. self.new ≡ record self.old { server = with_limit self.old.server step_limit }) }
        ensures pass { IfOk result (λ pass. pass ≡ record { screen = screen.now; client = fresh self.old.server.setting (length self.old.server.limits) step_limit; book_limit = book_limit }) }
        ensures same { OnErr result (self.new ≡ self.old) }
        ensures few { IfOk result (λ _. length self.old.server.limits < 16) }
        ensures stop { IfErr result (λ stop. IsConnectStop (length self.old.server.limits) stop) }
    {
        words_publish_states();
        if self.connected == MOST_CLIENTS {
            return Err(ConnectStop::TooManyClients {
                held: u64::from(self.connected),
            });
        }
        reserve(&mut self.journal, self.room, step_limit)?;
        let pass = screen.admit(alloc, &mut self.head, step_limit, book_limit)?;
        self.left[self.connected as usize] = step_limit;
        self.room += step_limit;
        self.connected += 1;
        Ok(pass)
    }

    /// Opens the gate again where the server has announced itself.
    pub(crate) fn withdraw(&mut self, screen: &Screen)
        requires screen { self.old.screen ≡ screen.now }
        ensures { self.new ≡ withdrawn self.old }
    {
        withdraw(screen, &mut self.head);
    }
}
