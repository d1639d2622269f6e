//! The names that a client has given, and what its calls mean with them.
ghost use Rattle.std.specs.Prelude.{◌≡◌, ◌<◌, Some, [], length, IsFalse, IfOk, OnOk, OnErr};
ghost use Rattle.std.specs.Option.{option_map};
ghost use Rattle.script_grammar.specs.Session.{lines_by, call_line};
ghost use Rattle.script_grammar.specs.declared.lines.LineCall.{LineCall};
ghost use Rattle.script_names.specs.Naming.{Naming, no_names, naming, learned};
ghost use Rattle.script_names.specs.Meaning.{meaning};

use crate::lines::line_of;
use crate::script::Script;
use qws_base::{OutOfMemory, Reply};
use script_names::{Call, Slots, meaning};
use std::alloc::Global;
use std::marker::Model;

/// The names that a client has given so far. Contracts see the client's number and a table of its names.
#[derive(Drop)]
pub struct Names {
    client: u32,
    slots: Slots,
}

impl Model for Names {
    ghost use Rattle.session_script.specs.Named.{NamesView};

    ghost Value = { NamesView };

    ghost view = { λ n. record { client = n.client; slots = n.slots } };
}

// Whether a reply tells a new window's slot; without one no name is learned, whatever was called.
fn is_created(reply: &Reply) -> bool
    ensures { IsFalse result → (slots : Naming) (call : LineCall) → learned slots call reply.now ≡ slots }
{
    matches!(reply, Reply::Created { slot: _ })
}

impl Names {
    /// No names of a client. It takes no memory yet.
    pub fn new(alloc: Global, client: u32) -> Result<Names, OutOfMemory>
        ensures client { IfOk result (λ names. names.client ≡ client) }
        ensures names { IfOk result (λ names. naming names.slots ≡ no_names) }
    {
        Ok(Names {
            client,
            slots: Slots::new(alloc),
        })
    }

    /// What the client's call `k`, counted from 0, means now. A paint borrows its images and fonts from the script. No other
    /// line is looked at.
    pub fn call<'a>(
        &self,
        alloc: Global,
        script: &'a Script,
        k: u64,
    ) -> Result<Call<'a>, OutOfMemory>
        requires { k < length (lines_by self.now.client script.now.calls) }
        ensures { IfOk result (λ call. option_map (λ line. meaning script.now (naming self.now.slots) line.call) (call_line script.now self.now.client k) ≡ Some call) }
    {
        let line = line_of(alloc, script, self.client, k)?;
        let call = meaning(
            alloc,
            script.fonts(),
            script.images(),
            &self.slots,
            &line.call,
        );
        drop(line);
        call
    }

    /// Takes in the reply to the client's call `k`. The names are as they were where there is no memory.
    pub fn learn(
        &mut self,
        alloc: Global,
        script: &Script,
        k: u64,
        reply: &Reply,
    ) -> Result<(), OutOfMemory>
        requires { k < length (lines_by self.old.client script.now.calls) }
        ensures client { self.new.client ≡ self.old.client }
        ensures ok { OnOk result (option_map (λ line. learned (naming self.old.slots) line.call reply.now) (call_line script.now self.old.client k) ≡ Some (naming self.new.slots)) }
        ensures err { OnErr result (self.new ≡ self.old) }
    {
        if !is_created(reply) {
            return Ok(());
        }
        let line = line_of(alloc, script, self.client, k)?;
        let learned = self.slots.learn(alloc, &line.call, reply);
        drop(line);
        learned
    }
}
