//! Commands of clients.
ghost use Rattle.std.specs.Prelude.{◌≡◌, ◌≢◌, ◌∷◌, [], ◌<◌, ◌≤◌, length, IfOk, IfErr, OnOk, MatchResult, slice_index, vec_capacity};
ghost use Rattle.qws_base.specs.Points.{pixel_count};
ghost use Rattle.qws_base.specs.Steps.{step};
ghost use Rattle.server_desk.specs.Grabs.{IsGrabOf, HasGrabbed};
ghost use Rattle.qws_base.specs.Books.{BookView};
ghost use Rattle.fb_words.specs.declared.known.Mode.TheVariants.{Idle};
ghost use Rattle.fb_words.specs.Views.{only};
ghost use Rattle.fb_words.specs.Steps.{AllSit, SitsAs};
ghost use Rattle.region_table.specs.Numbers.{closed_gate};
ghost use Rattle.display_lock.specs.Turns.{shut_out};
ghost use Rattle.server_desk.specs.Answers.{steps_made, answered_pass, HasAnswered, HasStopped, HasAnsweredLater, HasHalted};
ghost use Rattle.server_desk.specs.Stepping.{HasStepped, HasSteppedLater, StopsWith, HaltsWith};
ghost use Rattle.server_desk.specs.Drafts.{IsDraftOf, IsDraftFor, HasNoDraft};
ghost use Rattle.window_core.specs.CoreViews.{CanRise};

use crate::answers::{Answer, CallStop, Grab};
use crate::desks::Desk;
use crate::kept::Kept;
use crate::pictures::room_for;
use crate::turns::{ShutOut, serve};
use display_lock::withdraw;
use fb_words::{Pass, Screen, stubs_stay_seated};
use qws_base::{Command, Reply, Words};
use std::alloc::Global;
use std::sync::Wait;
use std::thread;
use step_turns::Changes;
use window_core::{Core, Plan};

/// What a command needs: its plan, what it changes on the framebuffer, and a copy of the reply.
#[derive(Drop)]
pub(crate) struct Draft {
    plan: Plan,
    changes: Changes,
    reply: Reply,
}

// All memory that a command takes; it stops where no step is left to its client, which has made some.
fn make_draft(
    alloc: Global,
    core: &Core,
    made: u64,
    left: u64,
    client: u32,
    command: &Command,
) -> Result<Draft, CallStop>
    requires client { client < 16 }
    requires room { CanRise core.now.state }
    ensures draft { IfOk result (λ draft. IsDraftOf core.now client command.now draft) }
    ensures left { IfOk result (λ _. 1 ≤ left) }
    ensures stop { IfErr result (λ stop. HasNoDraft made left stop) }
{
    let plan = core.plan(alloc, client, command)?;
    let changes = Changes::of(alloc, core, &plan, command)?;
    let reply = plan.reply().copy(alloc)?;
    if left == 0 {
        return Err(CallStop::JournalFull { held: made });
    }
    Ok(Draft {
        plan,
        changes,
        reply,
    })
}

/// A command that waits for painters, and the gate word that was found.
#[derive(Drop)]
pub(crate) struct Delayed {
    draft: Draft,
    found: u64,
}

impl Kept {
    // All that a command of the client that sits needs. Where there is none, the server isn't announced any more.
    fn prepare(
        &mut self,
        alloc: Global,
        screen: &Screen,
        client: u32,
        command: &Command,
    ) -> Result<Draft, CallStop>
        requires screen { self.old.screen ≡ screen.now }
        requires one { self.old.sitting ≡ only self.old.sitting ∷ [] }
        requires sits { AllSit self.old.server self.old.sitting }
        requires client { client ≡ (only self.old.sitting).number }
        ensures draft { IfOk result (λ draft. IsDraftFor self.old command.now draft) }
        ensures few { IfOk result (λ _. steps_made (only self.old.sitting) < (only self.old.sitting).step_limit) }
        ensures same { OnOk result (self.new ≡ self.old) }
        ensures stopped { IfErr result (λ stop. HaltsWith self.old self.new (only self.old.sitting) stop) }
        ensures stubs { (stub : BookView) → SitsAs stub self.old.sitting → SitsAs stub self.new.sitting }
    {
        let at = client as usize;
        match make_draft(
            alloc,
            &self.core,
            self.made[at],
            self.left[at],
            client,
            command,
        ) {
            Ok(draft) => Ok(draft),
            Err(stop) => {
                withdraw(screen, &mut self.head);
                Err(stop)
            }
        }
    }

    // The turn of a command of the client that sits.
    fn carry_out(
        &mut self,
        screen: &Screen,
        draft: Draft,
        pixels: u64,
        shown: Vec<u32>,
    ) -> Result<(Answer, Vec<u32>), Delayed>
        requires screen { self.old.screen ≡ screen.now }
        requires pixels { pixels ≤ pixel_count screen.now.setting.size }
        requires empty { shown.items ≡ [] }
        requires room { pixels ≤ vec_capacity shown }
        requires one { self.old.sitting ≡ only self.old.sitting ∷ [] }
        requires sits { AllSit self.old.server self.old.sitting }
        requires draft { IsDraftFor self.old draft.plan.command draft }
        requires few { steps_made (only self.old.sitting) < (only self.old.sitting).step_limit }
        ensures answered { IfOk result (λ both. HasStepped self.old self.new (only self.old.sitting) draft.plan.command both.0) }
        ensures grab { IfOk result (λ both. HasGrabbed self.new screen.now.setting.depth pixels both.0.number both.1.items) }
        ensures busy { IfErr result (λ delayed. self.new ≡ shut_out self.old delayed.found) }
        ensures found { IfErr result (λ delayed. delayed.found ≢ closed_gate) }
        ensures draft { IfErr result (λ delayed. delayed.draft ≡ draft) }
        ensures stubs { (stub : BookView) → SitsAs stub self.old.sitting → SitsAs stub self.new.sitting }
    {
        let Draft {
            plan,
            changes,
            reply,
        } = draft;
        let at = plan.client() as usize;
        let number = self.journal.len() as u64 + 1;
        match serve(
            &mut self.head,
            screen,
            &mut self.core,
            plan,
            &changes,
            number,
            pixels,
            shown,
        ) {
            Ok(both) => {
                let (entry, shown) = both;
                self.journal.push_reserved(entry);
                self.made[at] += 1;
                self.left[at] -= 1;
                self.room -= 1;
                Ok((Answer { number, reply }, shown))
            }
            Err(out) => {
                let ShutOut { found, plan } = out;
                let draft = Draft {
                    plan,
                    changes,
                    reply,
                };
                Err(Delayed { draft, found })
            }
        }
    }

    // A command of the client that sits, where the server is let in at once.
    fn try_call(
        &mut self,
        alloc: Global,
        screen: &Screen,
        client: u32,
        command: &Command,
        pixels: u64,
        shown: Vec<u32>,
    ) -> Result<(Answer, Vec<u32>), CallStop>
        requires screen { self.old.screen ≡ screen.now }
        requires pixels { pixels ≤ pixel_count screen.now.setting.size }
        requires empty { shown.items ≡ [] }
        requires room { pixels ≤ vec_capacity shown }
        requires one { self.old.sitting ≡ only self.old.sitting ∷ [] }
        requires sits { AllSit self.old.server self.old.sitting }
        requires client { client ≡ (only self.old.sitting).number }
        ensures answered { IfOk result (λ both. HasStepped self.old self.new (only self.old.sitting) command.now both.0) }
        ensures grab { IfOk result (λ both. HasGrabbed self.new screen.now.setting.depth pixels both.0.number both.1.items) }
        ensures stopped { IfErr result (λ stop. StopsWith self.old self.new (only self.old.sitting) stop) }
        ensures stubs { (stub : BookView) → SitsAs stub self.old.sitting → SitsAs stub self.new.sitting }
    {
        let draft = match self.prepare(alloc, screen, client, command) {
            Ok(draft) => draft,
            Err(stop) => return Err(stop),
        };
        match self.carry_out(screen, draft, pixels, shown) {
            Ok(both) => Ok(both),
            Err(delayed) => Err(CallStop::Busy {
                found: delayed.found,
            }),
        }
    }

    // A command of the client that sits, once the server is let in.
    fn call<R: Wait>(
        &mut self,
        rt: &R,
        alloc: Global,
        screen: &Screen,
        client: u32,
        command: &Command,
    ) -> Result<Answer, CallStop>
        requires screen { self.old.screen ≡ screen.now }
        requires one { self.old.sitting ≡ only self.old.sitting ∷ [] }
        requires sits { AllSit self.old.server self.old.sitting }
        requires client { client ≡ (only self.old.sitting).number }
        ensures answered { IfOk result (λ answer. HasSteppedLater self.old self.new (only self.old.sitting) command.now answer) }
        ensures stopped { IfErr result (λ stop. HaltsWith self.old self.new (only self.old.sitting) stop) }
        ensures stubs { (stub : BookView) → SitsAs stub self.old.sitting → SitsAs stub self.new.sitting }
    {
        let mut draft = self.prepare(alloc, screen, client, command)?;
        for _ in rt.forever() {
            match self.carry_out(screen, draft, 0, Vec::new(alloc)) {
                Ok(both) => return Ok(both.0),
                Err(delayed) => draft = delayed.draft,
            }
            thread::yield_now();
        }
        unreachable!()
    }
}

impl Desk {
    // Makes a command, and gives the colours that so many pixels show before it.
    fn call_with(
        &mut self,
        alloc: Global,
        screen: &Screen,
        pass: Pass,
        command: &Command,
        pixels: u64,
        shown: Vec<u32>,
    ) -> (Pass, Result<(Answer, Vec<u32>), CallStop>)
        requires screen { self.old.screen ≡ screen.now }
        requires pass { pass.screen ≡ screen.now }
        requires idle { pass.client.mode ≡ Idle }
        requires pixels { pixels ≤ pixel_count screen.now.setting.size }
        requires empty { shown.items ≡ [] }
        requires room { pixels ≤ vec_capacity shown }
        ensures pass { MatchResult result.1 (λ both. result.0 ≡ answered_pass pass command.now both.0) (λ _. result.0 ≡ pass) }
        ensures answered { IfOk result.1 (λ both. HasAnswered self.old self.new pass.client.number command.now both.0) }
        ensures few { IfOk result.1 (λ _. steps_made pass.client < pass.client.step_limit) }
        ensures rises { IfOk result.1 (λ both. pass.client.seen < both.0.number) }
        ensures grab { IfOk result.1 (λ both. IsGrabOf self.new.server.closed screen.now.setting.depth pixels both.0.number both.1.items) }
        ensures stopped { IfErr result.1 (λ stop. HasStopped self.old self.new pass.client stop) }
    {
        stubs_stay_seated();
        let client = pass.client();
        let kept = &mut self.kept;
        let stub = screen.sit(&mut kept.head, pass);
        let answer = kept.try_call(alloc, screen, client, command, pixels, shown);
        let pass = screen.rise(&mut kept.head, stub);
        (pass, answer)
    }

    /// Makes a command of the pass's client, in one turn of the server. The answer has the number of the turn's journal entry,
    /// and the reply of the step in the state of the journal so far; the pass's own calls, the closed turns and the journal have
    /// grown by just this step.
    ///
    /// It stops first for want of memory; then with `JournalFull` exactly where the client has made as many steps as its limit;
    /// then with `Busy` exactly where its settle found a word other than 2^32. After `Busy` the gate stays closed; after every
    /// other answer it isn't. Nothing else has changed then, and the pass is as it was.
    pub fn try_call(
        &mut self,
        alloc: Global,
        screen: &Screen,
        pass: Pass,
        command: &Command,
    ) -> (Pass, Result<Answer, CallStop>)
        requires screen { self.old.screen ≡ screen.now }
        requires pass { pass.screen ≡ screen.now }
        requires idle { pass.client.mode ≡ Idle }
        ensures pass { MatchResult result.1 (λ answer. result.0 ≡ answered_pass pass command.now answer) (λ _. result.0 ≡ pass) }
        ensures answered { IfOk result.1 (λ answer. HasAnswered self.old self.new pass.client.number command.now answer) }
        ensures few { IfOk result.1 (λ _. steps_made pass.client < pass.client.step_limit) }
        ensures rises { IfOk result.1 (λ answer. pass.client.seen < answer.number) }
        ensures stopped { IfErr result.1 (λ stop. HasStopped self.old self.new pass.client stop) }
    {
        let (pass, answer) = self.call_with(alloc, screen, pass, command, 0, Vec::new(alloc));
        match answer {
            Ok(both) => (pass, Ok(both.0)),
            Err(stop) => (pass, Err(stop)),
        }
    }

    /// Makes a command as `try_call` does, and waits where `try_call` would answer `Busy`: the command is planned once, the pass
    /// stays seated, and the gate stays closed, until the painters that it found are out. Its stops are want of memory, and
    /// `JournalFull` as `try_call` has it; after both the gate isn't closed. It may not return.
    pub fn call<R: Wait>(
        &mut self,
        rt: &R,
        alloc: Global,
        screen: &Screen,
        pass: Pass,
        command: &Command,
    ) -> (Pass, Result<Answer, CallStop>)
        requires screen { self.old.screen ≡ screen.now }
        requires pass { pass.screen ≡ screen.now }
        requires idle { pass.client.mode ≡ Idle }
        ensures pass { MatchResult result.1 (λ answer. result.0 ≡ answered_pass pass command.now answer) (λ _. result.0 ≡ pass) }
        ensures answered { IfOk result.1 (λ answer. HasAnsweredLater self.old self.new pass.client.number command.now answer) }
        ensures few { IfOk result.1 (λ _. steps_made pass.client < pass.client.step_limit) }
        ensures rises { IfOk result.1 (λ answer. pass.client.seen < answer.number) }
        ensures stopped { IfErr result.1 (λ stop. HasHalted self.old self.new pass.client stop) }
    {
        stubs_stay_seated();
        let client = pass.client();
        let kept = &mut self.kept;
        let stub = screen.sit(&mut kept.head, pass);
        let answer = kept.call(rt, alloc, screen, client, command);
        let pass = screen.rise(&mut kept.head, stub);
        (pass, answer)
    }

    /// Makes a command as `try_call` does, with the same stops. In the same turn it first reads every framebuffer word, in order:
    /// the grab has the number of the answer, and the colours of 24 bits that the screen showed before the command. Its memory is
    /// taken with that of the plan.
    pub fn try_grab(
        &mut self,
        alloc: Global,
        screen: &Screen,
        pass: Pass,
        command: &Command,
    ) -> (Pass, Result<(Answer, Grab), CallStop>)
        requires screen { self.old.screen ≡ screen.now }
        requires pass { pass.screen ≡ screen.now }
        requires idle { pass.client.mode ≡ Idle }
        ensures pass { MatchResult result.1 (λ both. result.0 ≡ answered_pass pass command.now both.0) (λ _. result.0 ≡ pass) }
        ensures answered { IfOk result.1 (λ both. HasAnswered self.old self.new pass.client.number command.now both.0) }
        ensures few { IfOk result.1 (λ _. steps_made pass.client < pass.client.step_limit) }
        ensures rises { IfOk result.1 (λ both. pass.client.seen < both.0.number) }
        ensures number { IfOk result.1 (λ both. both.1.number ≡ both.0.number) }
        ensures grab { IfOk result.1 (λ both. IsGrabOf self.new.server.closed screen.now.setting.depth (pixel_count screen.now.setting.size) both.1.number both.1.shown) }
        ensures stopped { IfErr result.1 (λ stop. HasStopped self.old self.new pass.client stop) }
    {
        let Ok(shown) = room_for(alloc, screen) else {
            self.withdraw(screen);
            return (pass, Err(CallStop::OutOfMemory));
        };
        let size = screen.size();
        let pixels = u64::from(size.w() * size.h());
        let (pass, answer) = self.call_with(alloc, screen, pass, command, pixels, shown);
        match answer {
            Ok(both) => {
                let (answer, shown) = both;
                let number = answer.number;
                let shown = Words::of(shown);
                (pass, Ok((answer, Grab { number, shown })))
            }
            Err(stop) => (pass, Err(stop)),
        }
    }
}
