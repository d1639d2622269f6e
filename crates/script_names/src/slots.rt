//! The names that a client has given, and the slots that they stand for.
ghost use Rattle.std.specs.Prelude.{◌≡◌, OnOk, OnErr};
ghost use Rattle.script_names.specs.Naming.{no_names, with_name, naming, learned, window_slot};

use qws_base::{OutOfMemory, Reply};
use script_grammar::{LineCall, Window};
use std::alloc::Global;
use std::collections::HashMap;
use std::marker::Model;

/// For which slot each name of a client stands: 32, which is no window's, where the client gave none. Contracts see a
/// table of names and slots, and read it as a function.
#[derive(Drop)]
pub struct Slots {
    by_name: HashMap<Vec<u8>, u32>,
}

impl Model for Slots {
    ghost use Rattle.std.specs.Prelude.{List, ℕ, map};

    ghost Value = { List (List ℕ × ℕ) };

    ghost view = { λ s. map (λ e. (e.0.items, e.1)) s.by_name.entries };
}

impl Slots {
    /// No names. It takes no memory yet.
    pub fn new(alloc: Global) -> Slots
        ensures { naming result ≡ no_names }
    {
        Slots {
            by_name: HashMap::new(alloc),
        }
    }

    /// The slot that a name stands for, 32 where it stands for none. No other name is looked at but by its hash.
    pub fn of_name(&self, name: &[u8]) -> u32
        ensures { result ≡ naming self.now name.now }
    {
        self.by_name.get(name).copied().unwrap_or(32)
    }

    /// The slot of a window.
    pub fn of_window(&self, window: &Window) -> u32
        ensures { result ≡ window_slot (naming self.now) window.now }
    {
        match window {
            Window::Named { name } => self.of_name(name.as_slice()),
            Window::Numbered { slot } => *slot,
        }
    }

    // From now on the name stands for the slot.
    fn put(&mut self, alloc: Global, name: &[u8], slot: u32) -> Result<(), OutOfMemory>
        ensures ok { OnOk result (naming self.new ≡ with_name (naming self.old) name.now slot) }
        ensures err { OnErr result (self.new ≡ self.old) }
    {
        let name = name.to_vec(alloc)?;
        self.by_name.insert(name, slot)?;
        Ok(())
    }

    /// Takes in the reply to a call. The names are as they were where there is no memory.
    pub fn learn(
        &mut self,
        alloc: Global,
        call: &LineCall,
        reply: &Reply,
    ) -> Result<(), OutOfMemory>
        ensures ok { OnOk result (naming self.new ≡ learned (naming self.old) call.now reply.now) }
        ensures err { OnErr result (self.new ≡ self.old) }
    {
        match (call, reply) {
            (LineCall::Create { name, layer: _ }, Reply::Created { slot }) => {
                self.put(alloc, name.as_slice(), *slot)
            }
            _ => Ok(()),
        }
    }
}
