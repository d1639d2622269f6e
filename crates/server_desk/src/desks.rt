//! The desk.
ghost use Rattle.std.specs.Prelude.{◌≡◌, ◌<◌, length, IfOk, IfErr, OnErr, MatchResult};
ghost use Rattle.qws_base.specs.Scenes.{setting_of};
ghost use Rattle.fb_words.specs.Views.{opening_server};
ghost use Rattle.fb_words.specs.Steps.{fresh};
ghost use Rattle.server_desk.specs.DeskViews.{connected, with_client, withdrawn_desk};
ghost use Rattle.server_desk.specs.Answers.{IsConnectStop};

use crate::answers::ConnectStop;
use crate::kept::Kept;
use fb_words::{Pass, Screen};
use qws_base::{Depth, OutOfMemory, Rgb, Size};
use std::alloc::Global;
use std::marker::Model;

/// The server's side of a screen: it answers the clients' commands, one after the other, and keeps the journal of them. Contracts
/// see of which screen it is, and what its server part knows; the journal is the list of the closed turns.
#[derive(Drop)]
pub struct Desk {
    pub(crate) kept: Kept,
}

impl Model for Desk {
    ghost use Rattle.std.specs.Prelude.{◌≡◌, []};
    ghost use Rattle.server_desk.specs.DeskViews.{DeskView};

    ghost Value = { DeskView };

    ghost view = { λ d. record { screen = d.kept.screen; server = d.kept.server } };

    ghost invariant = { λ d. d.kept.sitting ≡ [] };
}

impl Desk {
    /// The words of a new screen, with its desk, of which no client is connected. The backdrop is given as a colour of 24 bits.
    pub fn new(
        alloc: Global,
        size: Size,
        depth: Depth,
        backdrop: Rgb,
    ) -> Result<(Screen, Desk), OutOfMemory>
        ensures setting { IfOk result (λ made. made.0.setting ≡ setting_of size depth backdrop) }
        ensures desk { IfOk result (λ made. made.1 ≡ record { screen = made.0; server = opening_server (setting_of size depth backdrop) }) }
    {
        let (screen, kept) = Kept::new(alloc, size, depth, backdrop)?;
        Ok((screen, Desk { kept }))
    }

    /// Connects the next client: the pass has the next number, with these limits of steps and of paints. Room for its journal
    /// entries and its book is taken here. `TooManyClients` comes exactly where sixteen are connected. After an error the desk is
    /// as before.
    pub fn connect(
        &mut self,
        alloc: Global,
        screen: &Screen,
        step_limit: u64,
        book_limit: u64,
    ) -> Result<Pass, ConnectStop>
        requires screen { self.old.screen ≡ screen.now }
        ensures desk { IfOk result (λ _. self.new ≡ with_client self.old step_limit) }
        ensures pass { IfOk result (λ pass. pass ≡ record { screen = screen.now; client = fresh self.old.server.setting (connected self.old) step_limit; book_limit = book_limit }) }
        ensures few { IfOk result (λ _. connected self.old < 16) }
        ensures same { OnErr result (self.new ≡ self.old) }
        ensures stop { IfErr result (λ stop. IsConnectStop (connected self.old) stop) }
    {
        self.kept.connect(alloc, screen, step_limit, book_limit)
    }

    /// Opens the gate again where a call that was busy has closed it; else it does nothing.
    pub fn withdraw(&mut self, screen: &Screen)
        requires screen { self.old.screen ≡ screen.now }
        ensures { self.new ≡ withdrawn_desk self.old }
    {
        self.kept.withdraw(screen);
    }
}
