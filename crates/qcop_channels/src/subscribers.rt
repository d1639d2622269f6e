//! The subscribers of a channel.
ghost use Rattle.std.specs.Prelude.{◌≡◌, ◌<◌, ◌++◌, ◌∷◌, [], not, filter, ◌==◌, false, IfOk};
ghost use Rattle.qws_base.specs.Mail.{is_among};
ghost use Rattle.qcop_channels.specs.Views.{AreDistinctBelow};

use qws_base::OutOfMemory;
use std::alloc::Global;
use std::marker::Model;

/// The most subscribers of a channel: all clients.
const MOST_CLIENTS: usize = 16;

/// The clients that subscribe to a channel, in the order of joining. There is room for all 16 from the start.
#[derive(Debug, Drop)]
pub struct Subscribers {
    clients: Vec<u32>,
}

impl Model for Subscribers {
    ghost use Rattle.std.specs.Prelude.{ℕ, List, ◌≤◌, vec_capacity};
    ghost use Rattle.qcop_channels.specs.Views.{AreDistinctBelow};

    ghost Value = { List ℕ };

    ghost view = { λ s. s.clients.items };

    ghost invariant = { λ s. AreDistinctBelow 16 s.clients.items × (16 ≤ vec_capacity s.clients) };
}

impl Subscribers {
    /// No client.
    pub fn new(alloc: Global) -> Result<Subscribers, OutOfMemory>
        ensures { IfOk result (λ subscribers. subscribers ≡ []) }
    {
        Ok(Subscribers {
            clients: Vec::with_capacity(alloc, MOST_CLIENTS)?,
        })
    }

    /// The clients.
    pub fn as_slice(&self) -> &[u32]
        ensures value { result.now ≡ self.now }
        ensures clients { AreDistinctBelow 16 result.now }
    {
        self.clients.as_slice()
    }

    /// Whether the client is one of them.
    pub fn holds(&self, client: u32) -> bool
        ensures { result ≡ is_among client self.now }
    {
        self.clients.contains(&client)
    }

    /// The client is the last of them.
    pub fn add(&mut self, client: u32)
        requires client { client < 16 }
        requires new { is_among client self.old ≡ false }
        ensures { self.new ≡ self.old ++ client ∷ [] }
    {
        self.clients.push_reserved(client);
    }

    /// The client isn't one of them.
    pub fn remove(&mut self, client: u32)
        ensures { self.new ≡ filter (λ c. not (c == client)) self.old }
    {
        self.clients.retain(|c| *c != client);
    }

    /// The same clients.
    pub fn copy(&self, alloc: Global) -> Result<Subscribers, OutOfMemory>
        ensures { IfOk result (λ copy. copy ≡ self.now) }
    {
        let mut clients = Vec::with_capacity(alloc, MOST_CLIENTS)?;
        clients.extend_from_slice(&self.clients)?;
        Ok(Subscribers { clients })
    }
}
